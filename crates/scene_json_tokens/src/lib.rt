//! Forms of a scene text that are read straight from its tokens, with no document between (docs/SCENE_FILES.md, "The
//! walk").
//!
//! Most texts are as a save writes them, and are read once. What is taken here is what the forms of scene_json_forms read
//! of the same value (`specs/Taken.antt`). Each call takes usual values alone, as whole numbers of at most 18 digits, and
//! answers `None` for others: then the text is read by a document, which finds its faults. So `None` promises nothing.
//!
//! A `Taken` form takes a value, `take_list_of` and `take_rising` lists of them, `take_cell` a cell; the others pass what
//! stands around values.
#![tactic(auto)]

mod lists;
mod numbers;
mod punctuation;
mod taken;
mod values;

pub use lists::{take_list_of, take_rising};
pub use punctuation::{take_key, take_list, take_list_end, take_object, take_object_end};
pub use taken::{Taken, TakenInOrder};
pub use values::take_cell;
