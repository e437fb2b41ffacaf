//! Schedules: phases of systems, what is refused of them, and how they are run.
//!
//! `Schedule::new` checks a list of phases: `specs/Schedule.antt` says which are schedules, and `specs/Systems.antt`
//! what systems, phases and schedules do to a world.
//!
//! Since no system of a phase is in another's way, each makes in its turn what it makes of the opening world alone:
//! `specs/AtOnce.antt` says what that is, and `systems_see_the_opening_world` is the law. So `run_phase_alone` and
//! `run_phase`, on one thread and on many, answer the same `PhaseOutput`: the rows of each system, and its queue. A
//! `Gate` sees which worker runs which system.
//!
//! `Advance` is the frame: phase by phase a `PhaseRunner` makes the output, its rows are written, and its queues are
//! applied. `Alone` runs phases on the calling thread, and `RunBy` by a closure, as one that calls `run_shared` with
//! threads (docs/MODEL.md, "Many threads, one answer").
//!
//! `InTurn` is the same frame by a writer of columns: each system writes to its tables before the next one reads, a whole
//! column at a time where its steps allow it. `specs/TableWrites.antt` says what is written to the tables.
#![tactic(auto)]

mod advance;
mod cells;
mod commands;
mod conflict;
mod count;
mod gate;
mod in_turn;
mod laws;
mod output;
mod phase_player;
mod queued;
mod rule;
mod runner;
mod schedule;
mod schedule_phase;
mod systems;
mod turns;
mod workers;
mod write;
mod zero;

pub use advance::{Advance, PhaseRunner};
pub use gate::{Gate, OpenGate};
pub use in_turn::InTurn;
pub use laws::{
    schedules_are_just_what_is_sound, systems_see_the_opening_world, worked_schedules,
    worked_systems,
};
pub use output::{PhaseOutput, RowChanges};
pub use runner::{Alone, RunBy, run_shared};
pub use scene_systems::{Step, SystemRule};
pub use schedule::{Schedule, clone_phases, same_schema};
pub use schedule_phase::{run_phase, run_phase_alone};
