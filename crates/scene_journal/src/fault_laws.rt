//! The laws of tests of records, and of first faults.
ghost use Rattle.scene_journal.specs.FaultLaws.{RecordsAreTested, RecordFaultsAreFound, FirstFaultsAreFound};

/// A law of records: the tests pass just where a record may be redone on a world, or undone there. Where it may not,
/// `first_unfit_on` and `first_unfit_back` give the number of the delta that is its first fault, or the number of
/// deltas where a tick is (docs/JOURNAL.md, "Records").
pub fn records_are_tested()
    ensures tested { RecordsAreTested }
    ensures found { RecordFaultsAreFound }
{}

/// A law of records that go one after another: `first_fault` gives nothing just where each record of the past may be
/// undone at its turn, and, from the same world, each of the future redone. Else it gives the number of the first
/// record that may not, and its fault (docs/JOURNAL.md, "Records" and "The editor").
pub fn first_faults_are_found()
    ensures { FirstFaultsAreFound }
{}
