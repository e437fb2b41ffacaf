//! The language of scripts: what a line says.
//!
//! A script's bytes are cut into lines and a line into words. The words are read as numbers, entities, targets, cells,
//! commands of a queue and systems, and a line becomes one value of the type `Line`, or a `BadLine`, which says its
//! first mistake. Each step is exact against a total function of bytes in `specs/` (docs/SCRIPTS.md explains the
//! language).
//!
//! The crate calls no world and no queue, and prints nothing: what a line does and answers is scene_interpreter's, and
//! how values print scene_print's.
#![tactic(auto)]

mod bad_line;
mod cell;
mod form;
mod limit;
mod line;
mod number;
mod script_line;
mod session_number;
mod system;
mod target;
mod usual;
mod word;
mod words;

pub use bad_line::{BadLine, LineError};
pub use form::LineForm;
pub use limit::Limit;
pub use line::first_line;
pub use number::read_number;
pub use script_line::{Line, read_line};
pub use session_number::SessionNumber;
pub use target::read_target;
pub use usual::{UsualLine, usual_line};
pub use word::behind_first;
