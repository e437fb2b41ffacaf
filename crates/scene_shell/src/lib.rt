//! The shell: lines are answered one by one, each before the next one is waited for.
//!
//! What a line does and answers is scene_interpreter's, and which line a request stands for scene_requests'. Here the
//! lines of a reader are given to an interpreter, and its answers to a writer, each as soon as it is there; `IsSaid` in
//! `specs/Shell.antt` says what is written, and `a_shell_says_what_a_run_says` that without requests, JSON and frames it
//! is what `scene run` prints for the same lines (docs/SHELL.md).
//!
//! `run_kept_shell` does the same on a `KeptWriter`, which also keeps the lines that change the interpreter, as a store
//! does, and writes an answer only behind them. `specs/Kept.antt` says which lines, and
//! `kept_lines_lead_to_the_interpreter` that they are enough. What is made of kept lines is scene_kept_lines'.
#![tactic(auto)]

mod bad_shell_line;
mod keep;
mod kept_fault;
mod kept_line;
mod kept_shell;
mod laws;
mod request_line;
mod run_law;
mod shell;
mod store_writer;
mod streams;
mod style;
mod unanswered;
mod unkept;
mod waiting;

pub use bad_shell_line::BadShellLine;
pub use keep::KeptWriter;
pub use kept_fault::KeptFault;
pub use kept_line::push_kept_line;
pub use kept_shell::run_kept_shell;
pub use laws::kept_lines_lead_to_the_interpreter;
pub use request_line::{request_said, shell_line_said};
pub use run_law::a_shell_says_what_a_run_says;
pub use scene_streams::AppFault;
pub use shell::{ShellSettings, run_shell};
pub use store_writer::StoreWriter;
pub use style::AnswerStyle;
pub use unanswered::play_line;
