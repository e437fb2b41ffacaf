//! The interpreter of a script's lines: what each line answers.
//!
//! An `Interpreter` takes the bytes of a line and gives its `LineAnswer`, which says itself as a script prints it; all
//! else it keeps: the setup, the sessions of the state, the frame that is open, the systems and the cursor. Its sessions
//! have a `SharedOwner` or a `LoneOwner`. What a line says is scene_script's; what it does and answers is here, exact
//! against `interpreter_reply` in `specs/Interpreter.antt`, which knows no owner's type and speaks of the machine of
//! saved worlds (docs/SCRIPTS.md explains the language).
#![tactic(auto)]

mod answer;
mod bad_line_report;
mod changes;
mod declare;
mod file_fault_text;
mod frame_line;
mod halt;
mod interpreter;
mod json_answer;
mod json_line;
mod json_question;
mod laws;
mod open_frame;
mod phases;
mod play_state;
mod progress;
mod question;
mod script_owner;
mod settings;
mod setup;
mod setup_line;
mod show_line;
mod state_line;
mod systems_line;
mod turn;
mod usual;
mod whole_frame;

pub use answer::LineAnswer;
pub use bad_line_report::BadLineReport;
pub use file_fault_text::answer_file_fault;
pub use halt::Halt;
pub use interpreter::Interpreter;
pub use laws::{
    a_line_that_changes_nothing_leaves_the_interpreter, a_lock_changes_no_answer,
    history_apart_changes_no_answer,
};
pub use progress::Progress;
pub use scene_session::Way;
pub use script_owner::ScriptOwner;
pub use settings::InterpreterSettings;
