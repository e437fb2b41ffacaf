//! One change of a world, which can be made again and taken back, and tested for whether it fits.
//!
//! A `Delta` is a change of one entity's row and link, of one cell, of one link or of one resource. It holds what the
//! change brings and what it took away, so each world has all that is needed to come to the other (docs/JOURNAL.md).
//!
//! `specs/Deltas.antt` says what each does to a world and where it fits, which `fits_on` and `fits_back` answer, and
//! `specs/Notes.antt` which deltas a command makes. `laws` says that each takes the other direction back exactly.
//! `make_again` and `take_back` need a `World` with room; `redo_delta` and `undo_delta` make the room, and copy the
//! cells.
//!
//! `Deltas` are those of a frame, which are gone through from the first or from the last on. Those that a turn of a run
//! wrote (`scene_table::Written`) are held as one segment, and contracts see them one by one. `undo_all` and `redo_all`
//! take them back and make them again by reference, in a `World` with room, where what only memory can copy was copied
//! before.
#![tactic(auto)]

mod copies;
mod delta;
mod delta_list;
mod fits;
mod fits_back;
mod laws;
mod lent;
mod redo;
mod resource_cell;
mod same;
mod segment;
mod sound;
mod steps;
mod timely;
mod turn;
mod walks;

pub use copies::{copies_to_redo, copies_to_undo};
pub use delta::Delta;
pub use delta_list::Deltas;
pub use fits::{count_without, standing};
pub use laws::{commands_are_deltas, declared_kinds_change_no_deltas, deltas_come_back};
pub use lent::{redo_all, undo_all};
pub use redo::{redo_delta, undo_delta};
pub use resource_cell::ResourceCell;
pub use segment::DeltaRef;
pub use sound::is_sound;
pub use steps::{make_again, take_all_back, take_back};
pub use timely::can_set_tick;
pub use walks::{Backward, Forward};
