//! Worked texts of version 2 that are read, which the definitions compute.
ghost use Rattle.scene_file.specs.EditorReadings.{SpawnIsLoaded, RecordFaults, EditorFaults};

/// The definitions compute these texts from their bytes: the editors that two texts of version 2 say, that a text of
/// version 1 is read too, and the first fault of texts that differ from them (docs/SCENE_FILES.md, "Reading" and "File
/// faults").
pub fn worked_readings()
    ensures loaded { SpawnIsLoaded }
    ensures records { RecordFaults }
    ensures faults { EditorFaults }
{}
