//! The forms of a scene text: what the values in it say, and which fault they have first (docs/SCENE_FILES.md).
//!
//! `specs/Reading.antt` has the words of a walk, in which each step says something or has the first fault with its
//! path, and `specs/Walk.antt` the walk through numbers, texts, values and cells; `specs/Text.antt` has their JSON
//! values. A `Form` reads a value as a word of the walk does, and reports a fault by its `Path`; the printers add the
//! compact text of a value to a text.
//!
//! `proofs/` has for each word that what is written is read again (`ValuesBack`, `ListsBack`), and that what is read is
//! just what stands there (`ValuesExact`, `ListsExact`).
#![tactic(auto)]

mod fault;
mod form;
mod object;
mod path;
mod read_numbers;
mod read_texts;
mod read_values;
mod rising;
mod write_values;

pub use fault::{FileFault, FileResult};
pub use form::{Form, ListOf, each_at, field, if_good, list_at};
pub use object::{key_of, object_at, two_keys};
pub use path::{Path, bad_field, unknown_key};
pub use read_numbers::{IntForm, KindNumberForm, TickForm, U32Form, below};
pub use read_texts::{EntityForm, NameForm, ShapeForm, string_at};
pub use read_values::{CellForm, ResourceCellForm, ValueForm, cell_from};
pub use rising::{Ordered, Rising};
pub use write_values::{
    write_cell, write_comma, write_counts, write_entities, write_entity, write_entity_text,
    write_resource_cell, write_three, write_ticks, write_value,
};
