//! Worked examples, which the definitions compute.
ghost use Rattle.scene_journal.specs.FaultExamples.{OneSpawn, FelledChain};

/// The definitions compute the first fault of a few records: one of another tick, one with a cell that differs, and
/// records of a future after one of a past.
pub fn worked_faults_hold()
    ensures spawn { OneSpawn }
    ensures chain { FelledChain }
{}
