//! A line that is played, and not answered.
ghost use Rattle.std.specs.Prelude.{◌≡◌, IfErr, IfOk, OnOk};
ghost use Rattle.scene_interpreter.specs.Interpreter.{halted, interpreter_of};
ghost use Rattle.scene_shell.specs.ShellLine.{shell_reply};

use crate::bad_shell_line::BadShellLine;
use crate::request_line::{of_line, play_request};
use scene_interpreter::{Halt, Interpreter};
use scene_requests::is_request;
use scene_session::{LoneOwner, Performer};
use std::alloc::Global;

/// Plays a line, a request or not, whose answer isn't asked for: what a line of a script is answered is put in the place
/// of the text that is given, and nothing of a request. It gives why the line is bad, where it is; such a line changes
/// nothing. It costs what the line costs.
///
/// An error only where no memory was found; it says what became of the line (docs/SHELL.md, "How it ends").
#[tactic(auto, using(crate::proofs::Requests::requests))]
pub fn play_line<P: Performer<LoneOwner>>(
    performer: &P,
    alloc: Global,
    interpreter: &mut Interpreter<LoneOwner>,
    line: &[u8],
    answer: &mut String,
) -> Result<Option<BadShellLine>, Halt>
    ensures interpreter { OnOk result (interpreter_of interpreter.new ≡ (shell_reply (interpreter_of interpreter.old) line.now).interpreter) }
    ensures bad { IfOk result (λ bad. bad ≡ (shell_reply (interpreter_of interpreter.old) line.now).bad) }
    ensures halted { IfErr result (λ h. interpreter_of interpreter.new
        ≡ halted h (interpreter_of interpreter.old) (shell_reply (interpreter_of interpreter.old) line.now).interpreter) }
{
    if is_request(line) {
        return play_request(performer, alloc, interpreter, line);
    }
    answer.clear();
    match interpreter.line(performer, line, answer) {
        Ok(bad) => Ok(of_line(bad)),
        Err(halt) => Err(halt),
    }
}
