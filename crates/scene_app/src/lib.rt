//! Scripts played: the bytes that a script prints, as one function of the bytes that it is.
//!
//! A script is read to its end and played line by line through an interpreter on the sessions of one state; what it
//! prints goes to a writer in one piece, and its bad lines are handed out with their reasons, and with them the lock of
//! the state and the passes of its sessions. What a line does and answers is scene_interpreter's; that the answers to
//! the lines, one after another, are what a script prints is the meaning of `output` in its `specs/Printed.antt`, beside
//! which `bad_lines` and `owner_after` stand (docs/SCRIPTS.md explains the language).
#![tactic(auto)]

mod alone;
mod check;
mod play;
mod report;
mod run;

pub use alone::{AloneEnd, BadLines, run_alone};
pub use check::{check_scene, print_scene};
pub use run::{RunEnd, run_script};
pub use scene_interpreter::BadLineReport;
pub use scene_streams::AppFault;
