//! The answer to one line behind the setup.
ghost use Rattle.std.specs.Prelude.{◌≡◌, ◌≢◌, ◌≤◌, length, IfErr, IfOk, OnErr, OnOk, Some, None};
ghost use Rattle.scene_script.specs.declared.script_line.Line.TheVariants.{Added, As, Begin, Changed, DumpAll, History, Mark};
ghost use Rattle.scene_queue.specs.Frames.{lone_frame};
ghost use Rattle.scene_session.specs.Calls.{Submit, asked, queue_count};
ghost use Rattle.scene_interpreter.specs.Answer.{Says};
ghost use Rattle.scene_interpreter.specs.Play.{call_reply, line_reply, lone_reply, now, query_reply, said_reply, state_by};
ghost use Rattle.scene_interpreter.specs.Questions.{asked_said};

use crate::answer::{LineAnswer, refused};
use crate::frame_line::answer_in_frame;
use crate::open_frame::OpenFrame;
use crate::play_state::PlayState;
use crate::question::{EditorText, WorldText};
use crate::systems_line::{answer_advance, answer_clear, answer_phase, answer_system};
use scene_commands::Command;
use scene_pass::Filter;
use scene_script::{BadLine, Line, SessionNumber};
use scene_session::{AddedSince, Call, ChangedSince, CursorNow, Performer, SessionOwner};
use std::alloc::{AllocError, Global};

/// A call of the session whose turn it is; or the call, where no memory was found, and then the state is as it was.
pub(crate) fn answer_call_or_back<O: SessionOwner, P: Performer<O>>(
    performer: &P,
    alloc: Global,
    state: &mut PlayState<O>,
    call: Call,
) -> Result<LineAnswer, Call>
    requires { queue_count call ≤ 4294967295 }
    ensures answer { IfOk result (λ answer. Says answer (state_by O.state state.new) (call_reply (state_by O.state state.old) (asked call))) }
    ensures back { IfErr result (λ back. back ≡ call) }
    ensures same { OnErr result (state_by O.state state.new ≡ state_by O.state state.old) }
{
    let reply = performer.perform(alloc, &mut state.owner, call)?;
    Ok(LineAnswer::Replied(reply))
}

/// A call of the session whose turn it is.
#[inline(always)]
pub(crate) fn answer_call<O: SessionOwner, P: Performer<O>>(
    performer: &P,
    alloc: Global,
    state: &mut PlayState<O>,
    call: Call,
) -> Result<LineAnswer, AllocError>
    requires { queue_count call ≤ 4294967295 }
    ensures answer { IfOk result (λ answer. Says answer (state_by O.state state.new) (call_reply (state_by O.state state.old) (asked call))) }
    ensures same { OnErr result (state_by O.state state.new ≡ state_by O.state state.old) }
{
    match performer.perform(alloc, &mut state.owner, call) {
        Ok(reply) => Ok(LineAnswer::Replied(reply)),
        Err(_) => Err(AllocError),
    }
}

/// A command where no frame is open.
fn answer_command<O: SessionOwner, P: Performer<O>>(
    performer: &P,
    alloc: Global,
    state: &mut PlayState<O>,
    command: Command,
) -> Result<LineAnswer, AllocError>
    ensures answer { IfOk result (λ answer. Says answer (state_by O.state state.new)
        (call_reply (state_by O.state state.old) (Submit (lone_frame command)))) }
    ensures same { OnErr result (state_by O.state state.new ≡ state_by O.state state.old) }
{
    let given = performer.perform_one(alloc, &mut state.owner, command)?;
    Ok(LineAnswer::Replied(given))
}

/// `begin`.
fn answer_begin<O: SessionOwner>(alloc: Global, state: &mut PlayState<O>) -> LineAnswer
    ensures { Says result (state_by O.state state.new) (lone_reply (state_by O.state state.old) Begin) }
{
    state.frame = Some(OpenFrame::new(alloc));
    LineAnswer::Taken
}

/// `as`.
fn answer_as<O: SessionOwner>(state: &mut PlayState<O>, session: SessionNumber) -> LineAnswer
    ensures { Says result (state_by O.state state.new) (lone_reply (state_by O.state state.old) (As session)) }
{
    state.owner.turn_to(session.get());
    LineAnswer::Taken
}

/// What is asked of the world.
fn answer_world<O: SessionOwner, P: Performer<O>>(
    performer: &P,
    alloc: Global,
    state: &mut PlayState<O>,
    asked: WorldText,
) -> Result<LineAnswer, AllocError>
    ensures answer { IfOk result (λ answer. Says answer (state_by O.state state.new)
        (query_reply (state_by O.state state.old) (asked_said asked (now (state_by O.state state.old))))) }
    ensures same { OnErr result (state_by O.state state.new ≡ state_by O.state state.old) }
{
    performer.ask(alloc, &mut state.owner, &asked)
}

/// `dumpall`.
fn answer_dumpall<O: SessionOwner, P: Performer<O>>(
    performer: &P,
    alloc: Global,
    state: &mut PlayState<O>,
) -> Result<LineAnswer, AllocError>
    ensures answer { IfOk result (λ answer. Says answer (state_by O.state state.new) (lone_reply (state_by O.state state.old) DumpAll)) }
    ensures same { OnErr result (state_by O.state state.new ≡ state_by O.state state.old) }
{
    performer.ask(alloc, &mut state.owner, &EditorText)
}

/// `history`.
fn answer_history<O: SessionOwner>(state: &PlayState<O>) -> LineAnswer
    ensures { Says result (state_by O.state state.now) (lone_reply (state_by O.state state.now) History) }
{
    LineAnswer::Counted(state.owner.call_count())
}

/// `mark`.
fn answer_mark<O: SessionOwner, P: Performer<O>>(
    performer: &P,
    alloc: Global,
    state: &mut PlayState<O>,
) -> LineAnswer
    ensures { Says result (state_by O.state state.new) (lone_reply (state_by O.state state.old) Mark) }
{
    let cursor = performer.ask(alloc, &mut state.owner, &CursorNow);
    state.cursor = cursor;
    LineAnswer::Marked(cursor)
}

/// `changed`.
fn answer_changed<O: SessionOwner, P: Performer<O>>(
    performer: &P,
    alloc: Global,
    state: &mut PlayState<O>,
) -> Result<LineAnswer, AllocError>
    ensures answer { IfOk result (λ answer. Says answer (state_by O.state state.new) (lone_reply (state_by O.state state.old) Changed)) }
    ensures same { OnErr result (state_by O.state state.new ≡ state_by O.state state.old) }
{
    let query = ChangedSince(state.cursor, Filter::all());
    match performer.ask(alloc, &mut state.owner, &query) {
        Ok(cells) => Ok(LineAnswer::Changed(cells)),
        Err(refusal) => refused(refusal),
    }
}

/// `added`.
fn answer_added<O: SessionOwner, P: Performer<O>>(
    performer: &P,
    alloc: Global,
    state: &mut PlayState<O>,
) -> Result<LineAnswer, AllocError>
    ensures answer { IfOk result (λ answer. Says answer (state_by O.state state.new) (lone_reply (state_by O.state state.old) Added)) }
    ensures same { OnErr result (state_by O.state state.new ≡ state_by O.state state.old) }
{
    let query = AddedSince(state.cursor, Filter::all());
    match performer.ask(alloc, &mut state.owner, &query) {
        Ok(cells) => Ok(LineAnswer::Added(cells)),
        Err(refusal) => refused(refusal),
    }
}

/// Answers a line behind the setup where no frame is open.
#[inline(always)]
fn answer_alone<O: SessionOwner, P: Performer<O>>(
    performer: &P,
    alloc: Global,
    state: &mut PlayState<O>,
    line: Line,
) -> Result<LineAnswer, AllocError>
    ensures answer { IfOk result (λ answer. Says answer (state_by O.state state.new) (lone_reply (state_by O.state state.old) line)) }
    ensures same { OnErr result (state_by O.state state.new ≡ state_by O.state state.old) }
{
    match line {
        Line::Empty => Ok(LineAnswer::Nothing),
        Line::Kind(..) | Line::Slots(_) | Line::Load(_) | Line::Calls(_) | Line::Depth(_) => {
            Ok(LineAnswer::Bad(BadLine::SetupEnded))
        }
        Line::Queue | Line::Commit => Ok(LineAnswer::Bad(BadLine::NoFrame)),
        Line::Do(command) => answer_command(performer, alloc, state, command),
        Line::Begin => Ok(answer_begin(alloc, state)),
        Line::Undo => answer_call(performer, alloc, state, Call::Undo),
        Line::Redo => answer_call(performer, alloc, state, Call::Redo),
        Line::Show => answer_world(performer, alloc, state, WorldText::Show),
        Line::Get(entity) => answer_world(performer, alloc, state, WorldText::Get(entity)),
        Line::Mark => Ok(answer_mark(performer, alloc, state)),
        Line::Changed => answer_changed(performer, alloc, state),
        Line::Added => answer_added(performer, alloc, state),
        Line::Phase => answer_phase(state),
        Line::System(rule) => answer_system(state, rule),
        Line::Clear => Ok(answer_clear(state)),
        Line::Advance => answer_advance(performer, alloc, state),
        Line::As(session) => Ok(answer_as(state, session)),
        Line::History => Ok(answer_history(state)),
        Line::Dump => answer_world(performer, alloc, state, WorldText::Dump),
        Line::DumpAll => answer_dumpall(performer, alloc, state),
    }
}

/// Answers a line behind the setup.
#[inline(always)]
fn answer_line<O: SessionOwner, P: Performer<O>>(
    performer: &P,
    alloc: Global,
    state: &mut PlayState<O>,
    line: Line,
) -> Result<LineAnswer, AllocError>
    ensures answer { IfOk result (λ answer. Says answer (state_by O.state state.new) (line_reply (state_by O.state state.old) line)) }
    ensures same { OnErr result (state_by O.state state.new ≡ state_by O.state state.old) }
{
    // Nothing is moved out where there is no frame.
    if state.frame.is_none() {
        return answer_alone(performer, alloc, state, line);
    }
    match state.frame.take() {
        None => answer_alone(performer, alloc, state, line),
        Some(frame) => answer_in_frame(performer, alloc, state, frame, line),
    }
}

/// Answers what a line behind the setup says. Where no memory is found, the state is as it was.
// It is inlined with what it calls: who names the line, as the calls of C do, then pays for that line alone.
#[inline(always)]
pub(crate) fn answer<O: SessionOwner, P: Performer<O>>(
    performer: &P,
    alloc: Global,
    state: &mut PlayState<O>,
    said: Result<Line, BadLine>,
) -> Result<LineAnswer, AllocError>
    ensures answer { IfOk result (λ answer. Says answer (state_by O.state state.new) (said_reply (state_by O.state state.old) said)) }
    ensures same { OnErr result (state_by O.state state.new ≡ state_by O.state state.old) }
{
    match said {
        Ok(line) => answer_line(performer, alloc, state, line),
        Err(reason) => Ok(LineAnswer::Bad(reason)),
    }
}
