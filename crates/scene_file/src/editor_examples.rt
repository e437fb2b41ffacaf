//! Worked texts of editors, which the definitions compute.
ghost use Rattle.scene_file.specs.EditorExamples.{SpawnIsSaved, UndoneSpawnIsSaved};

/// The definitions compute these texts of editors, byte by byte: one that did a frame, and the same after it was undone
/// (docs/SCENE_FILES.md, "Version 2").
pub fn worked_editors()
    ensures done { SpawnIsSaved }
    ensures undone { UndoneSpawnIsSaved }
{}
