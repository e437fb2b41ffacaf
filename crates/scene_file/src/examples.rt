//! Worked texts, which the definitions compute.
ghost use Rattle.scene_file.specs.Examples.{SmallIsSavedAndLoaded, NoJson, HeadFaults, LimitFaults, RowFaults, BrokenTexts, ChildrenFaults, KindFaults, ResourceFaults, TableFaults};

/// The definitions compute these texts from their bytes: what is written for a small world, that it is read again, and
/// the first fault of texts that differ from it, with its path (docs/SCENE_FILES.md, "The walk").
pub fn worked_texts()
    ensures small { SmallIsSavedAndLoaded }
    ensures json { NoJson }
    ensures head { HeadFaults }
    ensures limit { LimitFaults }
    ensures rows { RowFaults }
    ensures broken { BrokenTexts }
    ensures children { ChildrenFaults }
    ensures kinds { KindFaults }
    ensures resources { ResourceFaults }
    ensures tables { TableFaults }
{}
