//! What is made of the lines that a store has kept: the interpreter that they lead to (`replay`), what they say when they
//! are asked (`show_lines`, `dump_lines`), a log of what each did (`write_log`), first lines (`lines_to_entry`), fewer
//! lines that lead to the same scene (`compacted`), and a shell that goes on behind them, from their newest checkpoint on
//! (`run_store_shell`; docs/SHELL.md, "A store").
//!
//! How the shell answers and what it keeps is scene_shell's. `specs/StoreShell.antt` says how a shell on a store ends,
//! `specs/Checkpoints.antt` what a checkpoint is, and `honest_checkpoints_change_no_answer` that one changes nothing.
#![tactic(auto)]

mod agree;
mod asked;
mod checkpoint_end;
mod checkpoint_keeping;
mod checkpoint_start;
mod checkpoint_text;
mod checkpoints;
mod comment;
mod compact;
mod dated_store;
mod first_lines;
mod frame_account;
mod kept_notes;
mod laws;
mod line_fault;
mod log;
mod log_line;
mod moment;
mod new_lines;
mod opening;
mod play_again;
mod played_lines;
mod same;
mod store_shell;
mod system_lines;

pub use asked::{dump_lines, show_lines};
pub use compact::compacted;
pub use dated_store::DatedStore;
pub use first_lines::{LinesEnd, lines_to_entry};
pub use kept_notes::KeptNotes;
pub use laws::{
    a_new_checkpoint_stays_honest, an_interpreter_that_goes_on_is_the_same,
    history_apart_changes_no_line, honest_checkpoints_change_no_answer,
    lines_without_checkpoints_stay_honest,
};
pub use line_fault::{CompactFault, KeptLineFault};
pub use log::{LogCounts, write_log};
pub use new_lines::NewLines;
pub use opening::{Opening, OpeningLimits, tell_opening};
pub use play_again::replay;
pub use store_shell::{StorePlace, StoreShellFault, run_store_shell};
