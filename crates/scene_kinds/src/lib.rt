//! The plain values of a scene: entities, shapes, values, cells, rows, the schema of kinds, and
//! the faults by which a call is refused.
//!
//! Every other crate speaks of these. Contracts see a text as its bytes, the cells of a row as a
//! list of kinds with cells, and a schema as its list of names with shapes; equality in a clause
//! is equality of those values, so no allocator and no spare room is seen.
//!
//! `specs/Answers.antt` has the one word by which every later crate says "the model's answer; or
//! no memory; and after a refusal everything as before", and `specs/Map.antt` the ordered map in
//! which the world is described.
#![tactic(auto)]

mod cell;
mod cells;
mod digits;
mod entity;
mod fault;
mod held;
mod kind_set;
mod laws;
mod number;
mod refusal;
mod schema;
mod shape;
mod text;
mod text_cut;
mod value;

pub use cell::{Cell, CellRef};
pub use cells::{Cells, Row};
pub use digits::{NoDigits, digits_number};
pub use entity::{Entity, ParseEntityError, read_entity};
pub use fault::Fault;
pub use kind_set::{KindSet, KindSetMethods, KindsOfSet, has_kind, set_with, set_without};
pub use laws::{kind_sets_compare_by_kinds, kind_sets_follow_cells};
pub use number::read_count;
pub use refusal::{Place, Refusal};
pub use schema::{Schema, good_name};
pub use shape::{ParseShapeError, Shape};
pub use text::Text;
pub use text_cut::{cut, place_of};
pub use value::Value;
