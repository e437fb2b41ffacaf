//! Usual lines, answered in the fewest steps.
ghost use Rattle.std.specs.Prelude.{◌≡◌, IfErr, IfOk, IsOk, OnErr, string_bytes};
ghost use Rattle.scene_script.specs.Usual.{line_of};
ghost use Rattle.scene_script.specs.declared.script_line.Line.TheVariants.{Do};
ghost use Rattle.scene_session.specs.Calls.{told as meant};
ghost use Rattle.scene_interpreter.specs.Interpreter.{IsAnswered, IsAnsweredWithin, IsHaltedWithin, Playing, halted, played};
ghost use Rattle.scene_interpreter.specs.Play.{line_reply, lone_reply, state_by};
ghost use Rattle.scene_interpreter.specs.Said.{Called};
ghost use Rattle.scene_interpreter.specs.declared.halt.Halt.TheVariants.{After};

use crate::answer::{write_refused, write_reply};
use crate::halt::Halt;
use crate::open_frame::OpenFrame;
use crate::play_state::PlayState;
use scene_commands::Command;
use scene_kinds::Fault;
use scene_script::{BadLine, UsualLine};
use scene_session::{Performer, Reply, SessionOwner};
use std::alloc::{AllocError, Global};

/// Performs what a usual line says.
#[inline(always)]
fn perform_usual<O: SessionOwner, P: Performer<O>>(
    performer: &P,
    alloc: Global,
    state: &mut PlayState<O>,
    said: UsualLine,
) -> Result<Reply, AllocError>
    ensures done { IfOk result (λ reply. (Called (meant reply) ≡ (lone_reply (state_by O.state state.old) (line_of said)).said)
        × (state_by O.state state.new ≡ (lone_reply (state_by O.state state.old) (line_of said)).state)) }
    ensures same { OnErr result (state_by O.state state.new ≡ state_by O.state state.old) }
{
    match said {
        UsualLine::Do(command) => performer.perform_one(alloc, &mut state.owner, command),
        UsualLine::Undo => performer.undo(alloc, &mut state.owner),
        UsualLine::Redo => performer.redo(alloc, &mut state.owner),
    }
}

/// What becomes of a line that is done, by whether there was memory for its text: why it is bad, if it is.
#[inline(always)]
pub(crate) fn told(
    text: Result<(), AllocError>,
    bad: Option<BadLine>,
) -> Result<Option<BadLine>, Halt>
    ensures told { IfOk result (λ given. (given ≡ bad) × IsOk text) }
    ensures halted { IfErr result (λ h. h ≡ After) }
{
    match text {
        Ok(()) => Ok(bad),
        Err(AllocError) => Err(Halt::After),
    }
}

/// Answers a usual line where no frame is open.
#[inline(always)]
fn tell_alone<O: SessionOwner, P: Performer<O>>(
    performer: &P,
    alloc: Global,
    state: &mut PlayState<O>,
    said: UsualLine,
    out: &mut String,
) -> Result<Option<BadLine>, Halt>
    ensures answer { IfOk result (λ bad. IsAnswered (string_bytes out.old) (string_bytes out.new) (Playing (state_by O.state state.new)) bad
        (played (lone_reply (state_by O.state state.old) (line_of said)))) }
    ensures halted { IfErr result (λ h. Playing (state_by O.state state.new)
        ≡ halted h (Playing (state_by O.state state.old)) (Playing (lone_reply (state_by O.state state.old) (line_of said)).state)) }
{
    match perform_usual(performer, alloc, state, said) {
        Ok(reply) => told(write_reply(out, &reply), None),
        Err(AllocError) => Err(Halt::Before),
    }
}

/// Answers a command in an open frame, which goes into the last queue.
#[inline(always)]
fn tell_queued(
    frame: &mut OpenFrame,
    command: Command,
    out: &mut String,
) -> Result<Option<BadLine>, Halt>
    ensures answer { IfOk result (λ bad. IsAnsweredWithin (string_bytes out.old) (string_bytes out.new) frame.old frame.new bad (Do command)) }
    ensures halted { IfErr result (λ h. IsHaltedWithin h frame.old frame.new (Do command)) }
{
    match frame.push(command) {
        Ok(()) => told(out.push_str("queued\n"), None),
        Err(refusal) => match refusal.fault {
            Fault::NoMemory => Err(Halt::Before),
            _ => told(write_refused(out, refusal), None),
        },
    }
}

/// Answers a usual line in an open frame. An undo or a redo is bad there.
#[inline(always)]
fn tell_within(
    frame: &mut OpenFrame,
    said: UsualLine,
    out: &mut String,
) -> Result<Option<BadLine>, Halt>
    ensures answer { IfOk result (λ bad. IsAnsweredWithin (string_bytes out.old) (string_bytes out.new) frame.old frame.new bad (line_of said)) }
    ensures halted { IfErr result (λ h. IsHaltedWithin h frame.old frame.new (line_of said)) }
{
    match said {
        UsualLine::Do(command) => tell_queued(frame, command, out),
        UsualLine::Undo | UsualLine::Redo => {
            told(out.push_str("bad line\n"), Some(BadLine::FrameOpen))
        }
    }
}

/// Answers a usual line behind the setup, and adds the answer as a script prints it. It gives why the line is bad, where
/// it is.
///
/// Halted only for want of memory: `Before`, where the line isn't done, and `After`, where it is.
#[inline(always)]
pub(crate) fn tell_usual<O: SessionOwner, P: Performer<O>>(
    performer: &P,
    alloc: Global,
    state: &mut PlayState<O>,
    said: UsualLine,
    out: &mut String,
) -> Result<Option<BadLine>, Halt>
    ensures answer { IfOk result (λ bad. IsAnswered (string_bytes out.old) (string_bytes out.new) (Playing (state_by O.state state.new)) bad
        (played (line_reply (state_by O.state state.old) (line_of said)))) }
    ensures halted { IfErr result (λ h. Playing (state_by O.state state.new)
        ≡ halted h (Playing (state_by O.state state.old)) (Playing (line_reply (state_by O.state state.old) (line_of said)).state)) }
{
    match &mut state.frame {
        None => tell_alone(performer, alloc, state, said, out),
        Some(frame) => tell_within(frame, said, out),
    }
}
