//! Worked texts, which the definitions compute.
ghost use Rattle.scene_json.specs.Examples.{ListsAreSeen, ObjectsAreSeen, TextsAreRefused};

/// The definitions compute what these texts say from their bytes: a list and its elements, an object with a key twice
/// and its unknown keys, and texts of which `json` takes the tokens and `serde_json` isn't to take the value.
pub fn worked_texts()
    ensures lists { ListsAreSeen }
    ensures objects { ObjectsAreSeen }
    ensures refused { TextsAreRefused }
{}
