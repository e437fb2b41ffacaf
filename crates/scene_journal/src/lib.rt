//! What frames did to a world, in records that can be made again and taken back.
//!
//! A `FrameRecord` holds the deltas of one frame, and the tick before it (docs/JOURNAL.md, "Records"). It is redone and
//! undone on a draft, where it fits: `specs/Records.antt` says what that does, and `laws` that each takes the other
//! back exactly. Else it has a first fault, which `specs/Faults.antt` computes: just the one that the relations name,
//! says `fault_laws`. `NewestCells` knows by tick where changed cells stand, so that not each of many records costs a
//! look at the whole world.
//!
//! A `Recorder` makes the record of a frame while the frame is made: it takes commands as a world does, notes their
//! deltas, and can always go back without memory. One recorder serves many frames, and its world stays where it is.
#![tactic(auto)]

mod cuts;
mod drafts;
mod examples;
mod fault_examples;
mod fault_laws;
mod faults;
mod inserted;
mod laws;
mod newest;
mod notes;
mod record;
mod recorder;
mod reserved;
mod runs;
mod spawned;
mod spot;
mod turns;

pub use examples::worked_records_hold;
pub use fault_examples::worked_faults_hold;
pub use fault_laws::{first_faults_are_found, records_are_tested};
pub use faults::faults_are_faults;
pub use laws::{declared_kinds_change_no_record, frames_are_records, records_come_back};
pub use newest::NewestCells;
pub use record::FrameRecord;
pub use recorder::Recorder;
pub use scene_deltas::{Delta, Deltas, redo_delta, undo_delta};
