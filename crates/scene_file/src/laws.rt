//! Laws of scene texts.
ghost use Rattle.scene_file.specs.EditorLaws.{OnlyTextsOfEditorsAreRead};
ghost use Rattle.scene_file.specs.Laws.{OnlyTextsAreRead, TextsTellWorldsApart, WorldsAreReadAgain};

/// Laws: the JSON value of a valid world is read as that very world, with no fault; so equal values come from equal
/// worlds (docs/SCENE_FILES.md).
pub fn written_worlds_are_read_again()
    ensures again { WorldsAreReadAgain }
    ensures apart { TextsTellWorldsApart }
{}

/// Law: nothing but the texts of worlds is read. Where bytes are read as a world, they are JSON, of which the value is
/// that very world's own (docs/SCENE_FILES.md, "Reading").
pub fn only_texts_of_worlds_are_read()
    ensures { OnlyTextsAreRead }
{}

/// Law: nothing but the texts of editors is read as an editor. Where bytes are read as one, they are JSON, of which the
/// value is that editor's own: of version 1, where it has no records, or of version 2, with records of which the depth
/// may have dropped the oldest of the past (docs/SCENE_FILES.md, "Reading").
pub fn only_texts_of_editors_are_read()
    ensures { OnlyTextsOfEditorsAreRead }
{}
