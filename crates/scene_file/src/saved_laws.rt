//! Laws of saved texts, byte by byte.
ghost use Rattle.scene_file.specs.SavedLaws.{EditorsAreReadAgain, SavedEditorsAreLoaded, SavedWorldsAreEditors, SavedWorldsAreLoaded, SavesTellEditorsApart, SavesTellWorldsApart, TextsTellEditorsApart, WorldsAreReadAsEditors};

/// Laws: the bytes that a save writes of a valid world, with the newline, are loaded as that very world; so equal bytes
/// come from equal worlds (docs/SCENE_FILES.md).
pub fn saved_worlds_are_loaded()
    ensures again { SavedWorldsAreLoaded }
    ensures apart { SavesTellWorldsApart }
{}

/// Laws: the JSON value of a valid world, whose records of the past and of the future fit at their turns, is read as
/// the editor of that world with those records, of which it keeps the newest of the past; and the value of a valid
/// world alone as an editor that has done nothing. So equal values come from equal worlds with equal records
/// (docs/SCENE_FILES.md, "Version 2").
pub fn editors_are_read_again()
    ensures records { EditorsAreReadAgain }
    ensures world { WorldsAreReadAsEditors }
    ensures apart { TextsTellEditorsApart }
{}

/// Laws: the bytes that a save writes of such a world with its records, or of a world alone, with the newline, are
/// loaded as that very editor; and equal bytes come from equal worlds with equal records (docs/SCENE_FILES.md).
pub fn saved_editors_are_loaded()
    ensures records { SavedEditorsAreLoaded }
    ensures world { SavedWorldsAreEditors }
    ensures apart { SavesTellEditorsApart }
{}
