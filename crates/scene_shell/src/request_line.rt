//! Requests among the lines of a shell.
ghost use Rattle.std.specs.Prelude.{◌≡◌, ℕ, List, [], IfErr, IfOk, OnOk, Some, option_map, string_bytes};
ghost use Rattle.serde_json.specs.Written.{compact_text};
ghost use Rattle.scene_json.specs.Texts.{Adds};
ghost use Rattle.scene_requests.specs.Request.{request_in};
ghost use Rattle.scene_interpreter.specs.Interpreter.{halted, interpreter_kinds, interpreter_of};
ghost use Rattle.scene_interpreter.specs.JsonAnswer.{bad_json, json_line};
ghost use Rattle.scene_answers.specs.Asked.{asked_reply};
ghost use Rattle.scene_shell.specs.ShellLine.{IsBadAnswer, IsGoodAnswer, IsRequestAnswer, bad_at_json, bad_request_json, of_request, request_changes, shell_said};
ghost use Rattle.scene_shell.specs.declared.bad_shell_line.BadShellLine.TheVariants as why;

use crate::bad_shell_line::BadShellLine;
use scene_interpreter::{Halt, Interpreter};
use scene_json::write_json_text;
use scene_kinds::Schema;
use scene_requests::{BadRequest, Request, RequestError, is_request, read_request};
use scene_script::{BadLine, Line, LineError, read_line};
use scene_session::{LoneOwner, Performer};
use std::alloc::{AllocError, Global};

/// What a request asks for, or why it is bad (docs/SHELL.md, "Requests"). `AllocError` where no memory was found.
pub fn request_said(
    alloc: Global,
    schema: &Schema,
    request: &[u8],
) -> Result<Result<Request, BadRequest>, AllocError>
    ensures { IfOk result (λ said. said ≡ request_in schema.now request.now) }
{
    match read_request(alloc, schema, request) {
        Ok(asked) => Ok(Ok(asked)),
        Err(RequestError::Bad(reason)) => Ok(Err(reason)),
        Err(RequestError::NoMemory) => Err(AllocError),
    }
}

/// What a line of a shell says, a request or not, by these kinds. `Ok(None)` where it is bad, or a request that stands for
/// no line. `AllocError` where no memory was found.
pub fn shell_line_said(
    alloc: Global,
    schema: &Schema,
    line: &[u8],
) -> Result<Option<Line>, AllocError>
    ensures { IfOk result (λ said. said ≡ shell_said schema.now line.now) }
{
    if is_request(line) {
        return match request_said(alloc, schema, line)? {
            Ok(Request::Line(said)) => Ok(Some(said)),
            Ok(_asked) => Ok(None),
            Err(_reason) => Ok(None),
        };
    }
    match read_line(alloc, schema, line) {
        Ok(said) => Ok(Some(said)),
        Err(LineError::Bad(_)) => Ok(None),
        Err(LineError::NoMemory) => Err(AllocError),
    }
}

/// Whether a request may change the interpreter.
pub(crate) fn request_changes(
    alloc: Global,
    interpreter: &Interpreter<LoneOwner>,
    request: &[u8],
) -> Result<bool, AllocError>
    ensures { IfOk result (λ b. b ≡ request_changes (interpreter_of interpreter.now)
        (request_in (interpreter_kinds (interpreter_of interpreter.now)) request.now)) }
{
    match request_said(alloc, interpreter.schema(), request)? {
        Ok(asked) => Ok(scene_answers::request_changes(interpreter, asked)),
        Err(_) => Ok(false),
    }
}

/// Why a line of a script is bad, where it is.
pub(crate) fn of_line(bad: Option<BadLine>) -> Option<BadShellLine>
    ensures { result ≡ option_map why.Line bad }
{
    match bad {
        Some(reason) => Some(BadShellLine::Line(reason)),
        None => None,
    }
}

/// Adds why a request is bad that has no path, in these words.
fn write_bad_whole(alloc: Global, out: &mut String, words: &str) -> Result<(), AllocError>
    ensures { OnOk result (Adds out.old out.new (compact_text (bad_json words.now))) }
{
    out.push_str("{\"answer\":\"bad\",\"reason\":")?;
    write_json_text(alloc, out, words)?;
    out.push_str("}")
}

/// Adds why a request is bad at a path, in these words.
fn write_bad_at(alloc: Global, out: &mut String, words: &str, path: &str) -> Result<(), AllocError>
    ensures { OnOk result (Adds out.old out.new (compact_text (bad_at_json words.now path.now))) }
{
    out.push_str("{\"answer\":\"bad\",\"reason\":")?;
    write_json_text(alloc, out, words)?;
    out.push_str(",\"path\":")?;
    write_json_text(alloc, out, path)?;
    out.push_str("}")
}

/// Adds why a request is bad, in these words.
fn write_bad_words(
    alloc: Global,
    out: &mut String,
    words: &str,
    reason: &BadRequest,
) -> Result<(), AllocError>
    ensures { OnOk result (Adds out.old out.new (compact_text (bad_request_json words.now reason.now))) }
{
    match reason {
        BadRequest::NotJson | BadRequest::TooLong => write_bad_whole(alloc, out, words),
        BadRequest::UnknownKey(path) | BadRequest::BadField(path) => {
            write_bad_at(alloc, out, words, path.as_str())
        }
    }
}

/// Adds why a request is bad, as a line.
fn write_bad_request(alloc: Global, out: &mut String, reason: &BadRequest) -> Result<(), AllocError>
    ensures { OnOk result ((words : List ℕ) × (Adds out.old out.new (json_line (bad_request_json words reason.now)))) }
{
    let words = format!(in alloc; "{reason}")?;
    write_bad_words(alloc, out, words.as_str(), reason)?;
    out.push_str("\n")
}

/// Does what a request asks for, and adds its answer.
#[tactic(auto, using(crate::proofs::Requests::is_good_answer))]
fn answer_good<P: Performer<LoneOwner>>(
    performer: &P,
    alloc: Global,
    interpreter: &mut Interpreter<LoneOwner>,
    asked: Request,
    answer: &mut String,
) -> Result<Option<BadShellLine>, Halt>
    requires { string_bytes answer.old ≡ [] }
    ensures answer { OnOk result (IsGoodAnswer (interpreter_of interpreter.old) asked (string_bytes answer.new)) }
    ensures interpreter { OnOk result (interpreter_of interpreter.new ≡ (asked_reply (interpreter_of interpreter.old) asked).interpreter) }
    ensures bad { IfOk result (λ bad. bad ≡ option_map why.Line (asked_reply (interpreter_of interpreter.old) asked).bad) }
{
    match scene_answers::answer_request(performer, alloc, interpreter, asked, answer) {
        Ok(bad) => Ok(of_line(bad)),
        Err(halt) => Err(halt),
    }
}

/// Adds the answer to a bad request, and gives why it is bad.
#[tactic(auto, using(crate::proofs::Requests::is_bad_answer))]
fn answer_bad(
    alloc: Global,
    reason: BadRequest,
    answer: &mut String,
) -> Result<Option<BadShellLine>, Halt>
    requires { string_bytes answer.old ≡ [] }
    ensures answer { OnOk result (IsBadAnswer reason (string_bytes answer.new)) }
    ensures bad { IfOk result (λ bad. bad ≡ Some (why.Request reason)) }
{
    match write_bad_request(alloc, answer, &reason) {
        Ok(()) => Ok(Some(BadShellLine::Request(reason))),
        Err(AllocError) => Err(Halt::Before),
    }
}

/// Does what a request asks for, or says why it is bad, and adds its answer.
fn answer_said<P: Performer<LoneOwner>>(
    performer: &P,
    alloc: Global,
    interpreter: &mut Interpreter<LoneOwner>,
    said: Result<Request, BadRequest>,
    answer: &mut String,
) -> Result<Option<BadShellLine>, Halt>
    requires { string_bytes answer.old ≡ [] }
    ensures answer { OnOk result (IsRequestAnswer (interpreter_of interpreter.old) said (string_bytes answer.new)) }
    ensures interpreter { OnOk result (interpreter_of interpreter.new ≡ (of_request (interpreter_of interpreter.old) said).interpreter) }
    ensures bad { IfOk result (λ bad. bad ≡ (of_request (interpreter_of interpreter.old) said).bad) }
{
    match said {
        Ok(asked) => answer_good(performer, alloc, interpreter, asked, answer),
        Err(reason) => answer_bad(alloc, reason, answer),
    }
}

/// Plays a request, and adds its answer as one line of JSON (docs/SHELL.md, "Requests"). It gives why it is bad, where
/// it is.
pub(crate) fn answer_request<P: Performer<LoneOwner>>(
    performer: &P,
    alloc: Global,
    interpreter: &mut Interpreter<LoneOwner>,
    request: &[u8],
    answer: &mut String,
) -> Result<Option<BadShellLine>, Halt>
    requires { string_bytes answer.old ≡ [] }
    ensures answer { OnOk result (IsRequestAnswer (interpreter_of interpreter.old)
        (request_in (interpreter_kinds (interpreter_of interpreter.old)) request.now) (string_bytes answer.new)) }
    ensures interpreter { OnOk result (interpreter_of interpreter.new ≡ (of_request (interpreter_of interpreter.old)
        (request_in (interpreter_kinds (interpreter_of interpreter.old)) request.now)).interpreter) }
    ensures bad { IfOk result (λ bad. bad ≡ (of_request (interpreter_of interpreter.old)
        (request_in (interpreter_kinds (interpreter_of interpreter.old)) request.now)).bad) }
{
    let Ok(said) = request_said(alloc, interpreter.schema(), request) else {
        return Err(Halt::Before);
    };
    answer_said(performer, alloc, interpreter, said, answer)
}

/// Does what a request asks for, and gives why it is bad, where it is.
fn play_asked<P: Performer<LoneOwner>>(
    performer: &P,
    alloc: Global,
    interpreter: &mut Interpreter<LoneOwner>,
    asked: Request,
) -> Result<Option<BadShellLine>, Halt>
    ensures interpreter { OnOk result (interpreter_of interpreter.new ≡ (asked_reply (interpreter_of interpreter.old) asked).interpreter) }
    ensures bad { IfOk result (λ bad. bad ≡ option_map why.Line (asked_reply (interpreter_of interpreter.old) asked).bad) }
    ensures halted { IfErr result (λ h. interpreter_of interpreter.new
        ≡ halted h (interpreter_of interpreter.old) (asked_reply (interpreter_of interpreter.old) asked).interpreter) }
{
    match scene_answers::play_request(performer, alloc, interpreter, asked) {
        Ok(answer) => Ok(of_line(answer.into_bad_line())),
        Err(halt) => Err(halt),
    }
}

/// Does what a request asks for, or nothing where it is bad, and gives why, where it is.
fn play_said<P: Performer<LoneOwner>>(
    performer: &P,
    alloc: Global,
    interpreter: &mut Interpreter<LoneOwner>,
    said: Result<Request, BadRequest>,
) -> Result<Option<BadShellLine>, Halt>
    ensures interpreter { OnOk result (interpreter_of interpreter.new ≡ (of_request (interpreter_of interpreter.old) said).interpreter) }
    ensures bad { IfOk result (λ bad. bad ≡ (of_request (interpreter_of interpreter.old) said).bad) }
    ensures halted { IfErr result (λ h. interpreter_of interpreter.new
        ≡ halted h (interpreter_of interpreter.old) (of_request (interpreter_of interpreter.old) said).interpreter) }
{
    match said {
        Ok(asked) => play_asked(performer, alloc, interpreter, asked),
        Err(reason) => Ok(Some(BadShellLine::Request(reason))),
    }
}

/// Plays a request, whose answer isn't asked for. It gives why it is bad, where it is.
pub(crate) fn play_request<P: Performer<LoneOwner>>(
    performer: &P,
    alloc: Global,
    interpreter: &mut Interpreter<LoneOwner>,
    request: &[u8],
) -> Result<Option<BadShellLine>, Halt>
    ensures interpreter { OnOk result (interpreter_of interpreter.new ≡ (of_request (interpreter_of interpreter.old)
        (request_in (interpreter_kinds (interpreter_of interpreter.old)) request.now)).interpreter) }
    ensures bad { IfOk result (λ bad. bad ≡ (of_request (interpreter_of interpreter.old)
        (request_in (interpreter_kinds (interpreter_of interpreter.old)) request.now)).bad) }
    ensures halted { IfErr result (λ h. interpreter_of interpreter.new ≡ halted h (interpreter_of interpreter.old)
        (of_request (interpreter_of interpreter.old)
        (request_in (interpreter_kinds (interpreter_of interpreter.old)) request.now)).interpreter) }
{
    let Ok(said) = request_said(alloc, interpreter.schema(), request) else {
        return Err(Halt::Before);
    };
    play_said(performer, alloc, interpreter, said)
}
