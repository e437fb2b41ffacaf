//! Laws of the text of records.
ghost use Rattle.scene_file_records.specs.Laws.{OnlyTextsAreRead, RecordsAreReadAgain};

/// Law: the JSON value of records whose numbers lie in the ranges of their types, whose kinds are in the schema and
/// ascend, whose cells have their kinds' shapes and whose names are good is read as those very records, with no fault
/// (docs/SCENE_FILES.md, "Version 2").
pub fn written_records_are_read_again()
    ensures { RecordsAreReadAgain }
{}

/// Law: nothing but the texts of records is read. Where bytes are read as records, they are JSON, of which the value is
/// those records' own (docs/SCENE_FILES.md, "Reading").
pub fn only_texts_of_records_are_read()
    ensures { OnlyTextsAreRead }
{}
