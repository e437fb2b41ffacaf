//! The command line of the program `scene`, read by the library `clap` (docs/SCRIPTS.md, "Command line").
//!
//! `read_words` says what the words of a command line ask for. `specs/Asks.antt` has what may be asked for,
//! `specs/Words.antt` the commands that `clap` is told of and what its answers mean, and `specs/Plain.antt` what a
//! command line without options asks for, and one with options in the order of the help text. `mistake_in` says what is
//! wrong with the words where they ask for nothing.
#![tactic(auto)]

mod asked;
mod mistake;
mod reading;
mod texts;

pub use asked::{Asked, BackupWords, DumpWords, RestoreWords, ShellWords};
pub use mistake::{BadWords, Mistake, mistake_in};
pub use reading::read_words;
