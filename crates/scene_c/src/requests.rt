//! Requests: JSON objects in place of lines, whose texts have any characters (docs/SHELL.md, "Requests").
ghost use Rattle.std.specs.Prelude.{◌≡◌, ◌≢◌, ◌⊎◌, Err, IfErr, IfOk, OnOk, false, string_bytes};
ghost use Rattle.scene_interpreter.specs.Changes.{frame_is_open};
ghost use Rattle.scene_interpreter.specs.Interpreter.{Tells, halted, interpreter_of};
ghost use Rattle.scene_interpreter.specs.declared.halt.Halt.TheVariants.{After};
ghost use Rattle.scene_c.specs.Calls.{Played};
ghost use Rattle.scene_c.specs.OpenScene.{HasHalted};
ghost use Rattle.scene_c.specs.Requests.{IsLeft, IsRequested, PlaysRequest, question_reply, request_reply, unanswered};

use crate::open_scene::OpenScene;
use crate::played::code_of;
use crate::{BAD, NO_MEMORY};
use scene_answers::play_request;
use scene_interpreter::{Halt, Interpreter, LineAnswer};
use scene_requests::{BadRequest, Question, Request, RequestError, read_request};
use scene_script::BadLine;
use scene_session::{LoneOwner, ThisThread};
use std::alloc::Global;

/// What want of memory leaves of a question.
fn unanswered(halt: Halt) -> Halt
    ensures { result ≡ unanswered halt }
{
    match halt {
        Halt::Before => Halt::Before,
        Halt::Begun | Halt::After => Halt::Begun,
        Halt::Lost => Halt::Lost,
    }
}

/// Answers a question, where no frame is open.
#[tactic(auto, using(crate::proofs::RequestLaws::question_told, crate::proofs::RequestLaws::question_halted, crate::proofs::RequestLaws::never_after))]
fn answer_alone(
    alloc: Global,
    interpreter: &mut Interpreter<LoneOwner>,
    question: Question,
) -> Result<LineAnswer, Halt>
    requires { frame_is_open (interpreter_of interpreter.old) ≡ false }
    ensures answer { IfOk result (λ answer. Tells answer (interpreter_of interpreter.new)
        (question_reply (interpreter_of interpreter.old) question (frame_is_open (interpreter_of interpreter.old)))) }
    ensures halted { IfErr result (λ h. interpreter_of interpreter.new ≡ halted h (interpreter_of interpreter.old)
        (question_reply (interpreter_of interpreter.old) question (frame_is_open (interpreter_of interpreter.old))).interpreter) }
    ensures undone { IfErr result (λ h. h ≢ After) }
{
    let mut text = String::new(alloc);
    match interpreter.question_json(&ThisThread, question, &mut text) {
        Ok(_) => Ok(LineAnswer::Text(text)),
        Err(halt) => Err(unanswered(halt)),
    }
}

/// Answers a question, which is out of place in an open frame.
#[tactic(auto, using(crate::proofs::RequestLaws::misplaced))]
fn answer_question(
    alloc: Global,
    interpreter: &mut Interpreter<LoneOwner>,
    question: Question,
) -> Result<LineAnswer, Halt>
    ensures answer { IfOk result (λ answer. Tells answer (interpreter_of interpreter.new)
        (question_reply (interpreter_of interpreter.old) question (frame_is_open (interpreter_of interpreter.old)))) }
    ensures halted { IfErr result (λ h. interpreter_of interpreter.new ≡ halted h (interpreter_of interpreter.old)
        (question_reply (interpreter_of interpreter.old) question (frame_is_open (interpreter_of interpreter.old))).interpreter) }
    ensures undone { IfErr result (λ h. h ≢ After) }
{
    if interpreter.has_open_frame() {
        Ok(LineAnswer::Bad(BadLine::FrameOpen))
    } else {
        answer_alone(alloc, interpreter, question)
    }
}

/// Plays what a request asks for.
#[tactic(auto, using(crate::proofs::RequestLaws::others))]
fn answer_request(
    alloc: Global,
    interpreter: &mut Interpreter<LoneOwner>,
    asked: Request,
) -> Result<LineAnswer, Halt>
    ensures answer { IfOk result (λ answer. Tells answer (interpreter_of interpreter.new) (request_reply (interpreter_of interpreter.old) asked)) }
    ensures halted { IfErr result (λ h. interpreter_of interpreter.new
        ≡ halted h (interpreter_of interpreter.old) (request_reply (interpreter_of interpreter.old) asked).interpreter) }
    ensures undone { IfErr result (λ h. h ≢ After) }
{
    match asked {
        Request::Ask(question) => answer_question(alloc, interpreter, question),
        other => play_request(&ThisThread, alloc, interpreter, other),
    }
}

impl OpenScene {
    /// Plays what a request asks for, and keeps its answer with its text: a question's is a line of JSON (docs/SHELL.md,
    /// "Questions"), and any other's is as a script prints it.
    ///
    /// Halted as `play_request` of scene_answers is; and `Begun` where there is no memory for the answer to a question.
    /// Then the last answer stays. `After` where what was asked for is done: its answer is kept without a text.
    pub fn request(&mut self, alloc: Global, asked: Request) -> Result<(), Halt>
        ensures answer { OnOk result (Tells self.new.answer (interpreter_of self.new.interpreter)
            (request_reply (interpreter_of self.old.interpreter) asked)) }
        ensures text { OnOk result (string_bytes self.new.text ≡ (request_reply (interpreter_of self.old.interpreter) asked).text) }
        ensures halted { IfErr result (λ h. HasHalted h self.old self.new (request_reply (interpreter_of self.old.interpreter) asked)) }
        ensures cells { self.new.cells.items ≡ self.old.cells.items }
    {
        let answer = answer_request(alloc, &mut self.interpreter, asked)?;
        self.keep(alloc, answer)
    }
}

/// Plays what a request asks for, with a text of its answer.
fn asked_at(alloc: Global, open_scene: &mut OpenScene, asked: Request) -> u32
    ensures played { Played open_scene.old open_scene.new (request_reply (interpreter_of open_scene.old.interpreter) asked)
        (request_reply (interpreter_of open_scene.old.interpreter) asked).text result }
    ensures cells { open_scene.new.cells.items ≡ open_scene.old.cells.items }
{
    let came = open_scene.request(alloc, asked);
    code_of(came, open_scene.answer())
}

/// Puts into words why a request is bad, as the text of the answer. There is no answer then.
fn say_why(alloc: Global, open_scene: &mut OpenScene, reason: BadRequest) -> u32
    ensures said { IsLeft open_scene.old open_scene.new result ⊎ PlaysRequest (Err reason) open_scene.old open_scene.new result }
    ensures cells { open_scene.new.cells.items ≡ open_scene.old.cells.items }
{
    let Ok(words) = format!(in alloc; "{reason}") else {
        return NO_MEMORY;
    };
    open_scene.text = words;
    open_scene.answer = LineAnswer::Nothing;
    BAD
}

/// Plays what a request asks for by its bytes, with a text of its answer; or says why the request is bad.
pub(crate) fn request_at(alloc: Global, open_scene: &mut OpenScene, bytes: &[u8]) -> u32
    ensures requested { IsRequested bytes.now open_scene.old open_scene.new result }
    ensures cells { open_scene.new.cells.items ≡ open_scene.old.cells.items }
{
    match read_request(alloc, open_scene.interpreter.schema(), bytes) {
        Ok(asked) => asked_at(alloc, open_scene, asked),
        Err(RequestError::Bad(reason)) => say_why(alloc, open_scene, reason),
        Err(RequestError::NoMemory) => NO_MEMORY,
    }
}
