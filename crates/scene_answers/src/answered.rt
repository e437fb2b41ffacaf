//! Requests that are played and answered.
ghost use Rattle.std.specs.Prelude.{◌≡◌, ℕ, List, IfErr, IfOk, OnOk, string_bytes};
ghost use Rattle.scene_interpreter.specs.Interpreter.{halted, interpreter_kinds, interpreter_of};
ghost use Rattle.scene_interpreter.specs.JsonAnswer.{json_text};
ghost use Rattle.scene_json.specs.Texts.{Adds};
ghost use Rattle.scene_answers.specs.Asked.{IsAskedAnswer, asked_reply};

use crate::played::play_request;
use scene_interpreter::{Halt, Interpreter};
use scene_requests::Request;
use scene_script::BadLine;
use scene_session::{LoneOwner, Performer};
use std::alloc::{AllocError, Global};

/// Plays what a request asks for, and adds what its answer says.
fn play_and_tell<P: Performer<LoneOwner>>(
    performer: &P,
    alloc: Global,
    interpreter: &mut Interpreter<LoneOwner>,
    asked: Request,
    out: &mut String,
) -> Result<Option<BadLine>, Halt>
    ensures text { OnOk result ((words : List ℕ) × (Adds out.old out.new
        (json_text (interpreter_kinds (interpreter_of interpreter.new)) words (asked_reply (interpreter_of interpreter.old) asked).said))) }
    ensures interpreter { OnOk result (interpreter_of interpreter.new ≡ (asked_reply (interpreter_of interpreter.old) asked).interpreter) }
    ensures bad { IfOk result (λ bad. bad ≡ (asked_reply (interpreter_of interpreter.old) asked).bad) }
    ensures halted { IfErr result (λ h. interpreter_of interpreter.new
        ≡ halted h (interpreter_of interpreter.old) (asked_reply (interpreter_of interpreter.old) asked).interpreter) }
{
    let answer = play_request(performer, alloc, interpreter, asked)?;
    match answer.write_json(alloc, interpreter.schema(), out) {
        Ok(()) => Ok(answer.into_bad_line()),
        Err(AllocError) => Err(Halt::After),
    }
}

/// Plays what a request asks for, and adds its answer as one line of JSON (docs/SHELL.md, "JSON", "Questions"): a line's
/// as `Interpreter::said_json` does, and a question's as `Interpreter::question_json`. It gives why it is bad, where it
/// is. It costs what is asked for, and the answer.
///
/// Halted only for want of memory, as `play_request` is, or `After`, where all is done. A part of the answer may be
/// added then.
pub fn answer_request<P: Performer<LoneOwner>>(
    performer: &P,
    alloc: Global,
    interpreter: &mut Interpreter<LoneOwner>,
    asked: Request,
    out: &mut String,
) -> Result<Option<BadLine>, Halt>
    ensures answer { IfOk result (λ bad. IsAskedAnswer (string_bytes out.old) (string_bytes out.new)
        (interpreter_of interpreter.old) (interpreter_of interpreter.new) asked bad) }
    ensures halted { IfErr result (λ h. interpreter_of interpreter.new
        ≡ halted h (interpreter_of interpreter.old) (asked_reply (interpreter_of interpreter.old) asked).interpreter) }
{
    match asked {
        Request::Line(line) => interpreter.said_json(performer, Ok(line), out),
        Request::Ask(question) => interpreter.question_json(performer, question, out),
        other => play_and_tell(performer, alloc, interpreter, other, out),
    }
}
