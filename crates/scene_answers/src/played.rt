//! Requests that are played.
ghost use Rattle.std.specs.Prelude.{◌≡◌, ◌≢◌, IfErr, IfOk, OnErr, OnOk, Ok};
ghost use Rattle.scene_kinds.specs.Answers.{refusal_of};
ghost use Rattle.scene_kinds.specs.declared.fault.Fault.TheVariants.{NoMemory};
ghost use Rattle.scene_session.specs.declared.call.Reply.TheVariants.{Refused};
ghost use Rattle.scene_interpreter.specs.Changes.{frame_is_open};
ghost use Rattle.scene_interpreter.specs.FurtherKind.{declare_in};
ghost use Rattle.scene_interpreter.specs.Interpreter.{Tells, halted, interpreter_of};
ghost use Rattle.scene_interpreter.specs.declared.answer.LineAnswer.TheVariants.{Replied};
ghost use Rattle.scene_interpreter.specs.declared.halt.Halt.TheVariants.{After};
ghost use Rattle.scene_answers.specs.Asked.{along, asked_reply, declare_reply, drop_reply};

use scene_interpreter::{Halt, Interpreter, LineAnswer};
use scene_kinds::{Fault, Refusal, Shape, Text};
use scene_requests::{Request, Way};
use scene_script::{BadLine, Line};
use scene_session::{LoneOwner, Performer, Reply, Way as FrameWay};
use std::alloc::{AllocError, Global};

/// The way along the frames on which the world goes so.
fn along(way: Way) -> FrameWay
    ensures { result ≡ along way }
{
    match way {
        Way::Back => FrameWay::Back,
        Way::Forth => FrameWay::On,
    }
}

/// Drops the open frame, and gives the answer.
#[tactic(auto, using(crate::proofs::AskedLaws::drops, crate::proofs::AskedLaws::drops_none))]
fn drop_frame(interpreter: &mut Interpreter<LoneOwner>) -> LineAnswer
    ensures { Tells result (interpreter_of interpreter.new)
        (drop_reply (interpreter_of interpreter.old) (frame_is_open (interpreter_of interpreter.old))) }
{
    if interpreter.drop_frame() {
        LineAnswer::Taken
    } else {
        LineAnswer::Bad(BadLine::NoFrame)
    }
}

/// The answer of a refusal; want of memory is none.
fn refused(refusal: Refusal) -> Result<LineAnswer, AllocError>
    ensures answer { IfOk result (λ answer. answer ≡ Replied (Refused refusal)) }
    ensures memory { OnOk result (refusal ≢ refusal_of NoMemory) }
{
    match refusal.fault {
        Fault::NoMemory => Err(AllocError),
        _ => Ok(LineAnswer::Replied(Reply::Refused(refusal))),
    }
}

/// Declares a kind, and gives the answer. An error for want of memory, and then nothing is done.
#[tactic(auto, using(crate::proofs::AskedLaws::declared, crate::proofs::AskedLaws::undeclared))]
fn declare(
    alloc: Global,
    interpreter: &mut Interpreter<LoneOwner>,
    name: Text,
    shape: Shape,
) -> Result<LineAnswer, AllocError>
    ensures answer { IfOk result (λ answer. Tells answer (interpreter_of interpreter.new)
        (declare_reply (interpreter_of interpreter.old) (declare_in name shape (interpreter_of interpreter.old)))) }
    ensures same { OnErr result (interpreter_of interpreter.new ≡ interpreter_of interpreter.old) }
{
    let name = String::from_str(alloc, name.as_str())?;
    match interpreter.declare(name, shape) {
        Ok(_) => Ok(LineAnswer::Taken),
        Err(refusal) => {
            let answer = refused(refusal)?;
            Ok(answer)
        }
    }
}

/// Plays what a request asks for, and gives its answer: that of the line that it stands for; `Taken` of a kind that was
/// declared and of a frame that was dropped; a question is played as the line `show` (docs/SHELL.md, "Requests"). What
/// is refused or bad changes nothing but that the setup may be over. It costs what is asked for.
///
/// Halted only for want of memory: `Before` and `Begun`, where nothing was done; `Lost`, where it would have ended the
/// setup, whose kinds or scene are lost.
pub fn play_request<P: Performer<LoneOwner>>(
    performer: &P,
    alloc: Global,
    interpreter: &mut Interpreter<LoneOwner>,
    asked: Request,
) -> Result<LineAnswer, Halt>
    ensures answer { IfOk result (λ answer. Tells answer (interpreter_of interpreter.new)
        (asked_reply (interpreter_of interpreter.old) asked)) }
    ensures halted { IfErr result (λ h. interpreter_of interpreter.new
        ≡ halted h (interpreter_of interpreter.old) (asked_reply (interpreter_of interpreter.old) asked).interpreter) }
    ensures undone { IfErr result (λ h. h ≢ After) }
{
    match asked {
        Request::Line(line) => interpreter.play_said(performer, Ok(line)),
        Request::Ask(_) => interpreter.play_said(performer, Ok(Line::Show)),
        Request::Turn(way, count) => interpreter.turn_by(along(way), count as usize),
        Request::DropFrame => Ok(drop_frame(interpreter)),
        Request::Declare(name, shape) => match declare(alloc, interpreter, name, shape) {
            Ok(answer) => Ok(answer),
            Err(AllocError) => Err(Halt::Before),
        },
    }
}
