//! The answer to one line in an open frame.
ghost use Rattle.std.specs.Prelude.{◌≡◌, ◌≤◌, length, IfErr, IfOk, OnErr, Some};
ghost use Rattle.scene_script.specs.declared.script_line.Line.TheVariants.{Queue as FurtherQueue, Commit};
ghost use Rattle.scene_interpreter.specs.Answer.{Says};
ghost use Rattle.scene_interpreter.specs.OpenFrame.{queues_of, with_command};
ghost use Rattle.scene_interpreter.specs.Play.{frame_reply, queued_reply, state_by, with_frame};

use crate::answer::{LineAnswer, refused};
use crate::open_frame::OpenFrame;
use crate::play_state::PlayState;
use crate::state_line::answer_call_or_back;
use scene_commands::Command;
use scene_queue::Queue;
use scene_script::{BadLine, Line};
use scene_session::{Call, Performer, SessionOwner};
use std::alloc::{AllocError, Global};

/// A command, which goes into the last queue.
fn answer_queued<O: SessionOwner>(
    state: &mut PlayState<O>,
    frame: OpenFrame,
    command: Command,
) -> Result<LineAnswer, AllocError>
    ensures answer { IfOk result (λ answer. Says answer (state_by O.state state.new)
        (queued_reply (state_by O.state state.old) frame (with_command frame command))) }
    ensures same { OnErr result (state_by O.state state.new ≡ with_frame (state_by O.state state.old) (Some frame)) }
{
    let mut frame = frame;
    let pushed = frame.push(command);
    state.frame = Some(frame);
    match pushed {
        Ok(()) => Ok(LineAnswer::Queued),
        Err(refusal) => refused(refusal),
    }
}

/// `queue`.
fn answer_queue<O: SessionOwner>(
    alloc: Global,
    state: &mut PlayState<O>,
    frame: OpenFrame,
) -> Result<LineAnswer, AllocError>
    ensures answer { IfOk result (λ answer. Says answer (state_by O.state state.new) (frame_reply (state_by O.state state.old) frame FurtherQueue)) }
    ensures same { OnErr result (state_by O.state state.new ≡ with_frame (state_by O.state state.old) (Some frame)) }
{
    let mut frame = frame;
    let added = frame.add_queue(alloc);
    state.frame = Some(frame);
    added?;
    Ok(LineAnswer::Taken)
}

/// The queues of a frame that is to be committed; or the frame, where no memory was found. One of more queues than 32
/// bits count is as one for which there is no memory.
fn queues_to_commit(frame: OpenFrame) -> Result<Vec<Queue>, OpenFrame>
    ensures queues { IfOk result (λ queues. queues.items ≡ queues_of frame) }
    ensures count { IfOk result (λ queues. length queues.items ≤ 4294967295) }
    ensures back { IfErr result (λ back. back ≡ frame) }
{
    if frame.is_counted() {
        frame.into_queues()
    } else {
        Err(frame)
    }
}

/// `commit`. The frame is over, whatever the answer is.
fn answer_commit<O: SessionOwner, P: Performer<O>>(
    performer: &P,
    alloc: Global,
    state: &mut PlayState<O>,
    frame: OpenFrame,
) -> Result<LineAnswer, AllocError>
    ensures answer { IfOk result (λ answer. Says answer (state_by O.state state.new) (frame_reply (state_by O.state state.old) frame Commit)) }
    ensures same { OnErr result (state_by O.state state.new ≡ with_frame (state_by O.state state.old) (Some frame)) }
{
    let queues = match queues_to_commit(frame) {
        Ok(queues) => queues,
        Err(frame) => {
            state.frame = Some(frame);
            return Err(AllocError);
        }
    };
    state.frame = None;
    match answer_call_or_back(performer, alloc, state, Call::Submit(queues)) {
        Ok(answer) => Ok(answer),
        Err(call) => {
            if let Call::Submit(queues) = call {
                state.frame = OpenFrame::of_queues(queues);
            }
            Err(AllocError)
        }
    }
}

/// Answers a line in a frame that was taken out of the state. The frame is there again where the line doesn't end it,
/// and where no memory is found.
pub(crate) fn answer_in_frame<O: SessionOwner, P: Performer<O>>(
    performer: &P,
    alloc: Global,
    state: &mut PlayState<O>,
    frame: OpenFrame,
    line: Line,
) -> Result<LineAnswer, AllocError>
    ensures answer { IfOk result (λ answer. Says answer (state_by O.state state.new) (frame_reply (state_by O.state state.old) frame line)) }
    ensures same { OnErr result (state_by O.state state.new ≡ with_frame (state_by O.state state.old) (Some frame)) }
{
    let answer = match line {
        Line::Do(command) => return answer_queued(state, frame, command),
        Line::Queue => return answer_queue(alloc, state, frame),
        Line::Commit => return answer_commit(performer, alloc, state, frame),
        Line::Empty => LineAnswer::Nothing,
        Line::Kind(..) | Line::Slots(_) | Line::Load(_) | Line::Calls(_) | Line::Depth(_) => {
            LineAnswer::Bad(BadLine::SetupEnded)
        }
        _ => LineAnswer::Bad(BadLine::FrameOpen),
    };
    state.frame = Some(frame);
    Ok(answer)
}
