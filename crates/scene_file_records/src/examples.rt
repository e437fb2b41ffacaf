//! Worked texts, which the definitions compute.
ghost use Rattle.scene_file_records.specs.Examples.{SpawnIsWrittenAndRead, OthersAreWrittenAndRead, RecordFaults, OpFaults, CellFaults, KindFaults, LinkFaults, NameFaults};

/// The definitions compute these texts from their bytes: what is written for records of all six deltas, that it is read
/// again, and the first fault of texts that differ from it, with its path (docs/SCENE_FILES.md, "The walk").
pub fn worked_records()
    ensures spawn { SpawnIsWrittenAndRead }
    ensures others { OthersAreWrittenAndRead }
    ensures records { RecordFaults }
    ensures ops { OpFaults }
    ensures cells { CellFaults }
    ensures kinds { KindFaults }
    ensures links { LinkFaults }
    ensures names { NameFaults }
{}
