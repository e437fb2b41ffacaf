//! A call on an editor, with its reply made twice: one for the caller, and one for the history. Both are made before
//! the editor changes, so no call is done whose entry finds no memory. `call_editor` is for who keeps no history, and
//! gives one of them.
ghost use Rattle.std.specs.Prelude.{◌≡◌, ◌≢◌, ◌≤◌, length, option_map, IfSome, IfNone};
ghost use Rattle.scene_kinds.specs.Answers.{refusal_of};
ghost use Rattle.scene_kinds.specs.declared.fault.Fault.TheVariants.{NoMemory};
ghost use Rattle.scene_queue.specs.Frames.{lone_frame};
ghost use Rattle.scene_session.specs.declared.call.Reply.TheVariants.{Refused};
ghost use Rattle.scene_session.specs.Calls.{Submit, Advance, Undo, Redo, asked, queue_count, told};
ghost use Rattle.scene_session.specs.Whole.{step, whole_of};

use crate::call::{Call, Reply};
use scene_commands::Command;
use scene_kinds::{Fault, Refusal};
use scene_queue::Queue;
use scene_schedule::Schedule;
use scene_undo::{Editor, Made};
use std::thread::Threads;

/// A refusal as a reply, twice; `None` where it is want of memory, which no history enters.
#[inline(always)]
fn refused(refusal: Refusal) -> Option<(Reply, Reply)>
    ensures told { IfSome result (λ p. (refusal ≢ refusal_of NoMemory) × (p.0 ≡ Refused refusal) × (p.1 ≡ Refused refusal)) }
    ensures none { IfNone result (refusal.fault ≡ NoMemory) }
{
    match refusal.fault {
        Fault::NoMemory => None,
        _ => Some((Reply::Refused(refusal), Reply::Refused(refusal))),
    }
}

/// A frame of queues. `None` where no memory was found: then nothing was done.
fn submit(editor: &mut Editor, queues: &[Queue]) -> Option<(Reply, Reply)>
    requires { length queues.now ≤ 4294967295 }
    ensures done { IfSome result (λ p. step (whole_of editor.old) (Submit queues.now) ≡ (whole_of editor.new, told p.0)) }
    ensures twice { IfSome result (λ p. told p.1 ≡ told p.0) }
    ensures none { IfNone result (editor.new ≡ editor.old) }
{
    match editor.submit(queues) {
        Ok(made) => {
            let Made { entities, copy } = made;
            Some((Reply::Done(entities), Reply::Done(copy)))
        }
        Err(refusal) => refused(refusal),
    }
}

/// A frame of systems, on this thread. `None` where no memory was found: then nothing was done.
fn advance_alone(editor: &mut Editor, schedule: &Schedule) -> Option<(Reply, Reply)>
    ensures done { IfSome result (λ p. step (whole_of editor.old) (Advance schedule.now) ≡ (whole_of editor.new, told p.0)) }
    ensures twice { IfSome result (λ p. told p.1 ≡ told p.0) }
    ensures none { IfNone result (editor.new ≡ editor.old) }
{
    match editor.advance_alone(schedule) {
        Ok(made) => {
            let Made { entities, copy } = made;
            Some((Reply::Done(entities), Reply::Done(copy)))
        }
        Err(refusal) => refused(refusal),
    }
}

/// The same, with large columns written by as many threads as there are workers.
fn advance<R: Threads + Sync>(
    rt: &R,
    editor: &mut Editor,
    schedule: &Schedule,
    workers: usize,
) -> Option<(Reply, Reply)>
    ensures done { IfSome result (λ p. step (whole_of editor.old) (Advance schedule.now) ≡ (whole_of editor.new, told p.0)) }
    ensures twice { IfSome result (λ p. told p.1 ≡ told p.0) }
    ensures none { IfNone result (editor.new ≡ editor.old) }
{
    match editor.advance(rt, schedule, workers) {
        Ok(made) => {
            let Made { entities, copy } = made;
            Some((Reply::Done(entities), Reply::Done(copy)))
        }
        Err(refusal) => refused(refusal),
    }
}

/// The newest frame is taken back. `None` where no memory was found: then nothing was done.
#[inline(always)]
fn undo(editor: &mut Editor) -> Option<(Reply, Reply)>
    ensures done { IfSome result (λ p. step (whole_of editor.old) Undo ≡ (whole_of editor.new, told p.0)) }
    ensures twice { IfSome result (λ p. told p.1 ≡ told p.0) }
    ensures none { IfNone result (editor.new ≡ editor.old) }
{
    match editor.undo() {
        Ok(()) => Some((Reply::Undone, Reply::Undone)),
        Err(refusal) => refused(refusal),
    }
}

/// The newest undone frame is done again. `None` where no memory was found: then nothing was done.
#[inline(always)]
fn redo(editor: &mut Editor) -> Option<(Reply, Reply)>
    ensures done { IfSome result (λ p. step (whole_of editor.old) Redo ≡ (whole_of editor.new, told p.0)) }
    ensures twice { IfSome result (λ p. told p.1 ≡ told p.0) }
    ensures none { IfNone result (editor.new ≡ editor.old) }
{
    match editor.redo() {
        Ok(()) => Some((Reply::Redone, Reply::Redone)),
        Err(refusal) => refused(refusal),
    }
}

/// Does a call on this thread, and gives its reply twice. `None` where no memory was found: then nothing was done.
pub(crate) fn do_call(editor: &mut Editor, call: &Call) -> Option<(Reply, Reply)>
    requires { queue_count call.now ≤ 4294967295 }
    ensures done { IfSome result (λ p. step (whole_of editor.old) (asked call.now) ≡ (whole_of editor.new, told p.0)) }
    ensures twice { IfSome result (λ p. told p.1 ≡ told p.0) }
    ensures none { IfNone result (editor.new ≡ editor.old) }
{
    match call {
        Call::Submit(queues) => submit(editor, queues.as_slice()),
        Call::Advance(schedule) => advance_alone(editor, schedule),
        Call::Undo => undo(editor),
        Call::Redo => redo(editor),
    }
}

/// The same, with the large columns of an advance written by as many threads as there are workers.
pub(crate) fn do_call_with<R: Threads + Sync>(
    rt: &R,
    editor: &mut Editor,
    call: &Call,
    workers: usize,
) -> Option<(Reply, Reply)>
    requires { queue_count call.now ≤ 4294967295 }
    ensures done { IfSome result (λ p. step (whole_of editor.old) (asked call.now) ≡ (whole_of editor.new, told p.0)) }
    ensures twice { IfSome result (λ p. told p.1 ≡ told p.0) }
    ensures none { IfNone result (editor.new ≡ editor.old) }
{
    match call {
        Call::Advance(schedule) => advance(rt, editor, schedule, workers),
        _ => do_call(editor, call),
    }
}

/// The first of the two.
#[inline(always)]
fn one(replies: Option<(Reply, Reply)>) -> Option<Reply>
    ensures { result ≡ option_map (λ p. p.0) replies }
{
    match replies {
        Some((given, _)) => Some(given),
        None => None,
    }
}

/// Performs a call on an editor that is in no state, on this thread, and gives its reply (docs/SESSIONS.md, "One
/// owner"). What the editor refuses is told by the reply `Refused`, and leaves the editor as it was. It costs what the
/// editor's own call costs.
///
/// `None` where no memory was found: then the editor is as it was.
pub fn call_editor(editor: &mut Editor, call: &Call) -> Option<Reply>
    requires { queue_count call.now ≤ 4294967295 }
    ensures done { IfSome result (λ r. step (whole_of editor.old) (asked call.now) ≡ (whole_of editor.new, told r)) }
    ensures none { IfNone result (editor.new ≡ editor.old) }
{
    one(do_call(editor, call))
}

/// Performs a call as `call_editor` does, with the large columns of an advance written by as many threads as there are
/// workers, 1 to 16; a number below is taken as 1, and one above as 16. The reply is the same for every number.
///
/// `None` where no memory was found: then the editor is as it was.
pub fn call_editor_with<R: Threads + Sync>(
    rt: &R,
    editor: &mut Editor,
    call: &Call,
    workers: usize,
) -> Option<Reply>
    requires { queue_count call.now ≤ 4294967295 }
    ensures done { IfSome result (λ r. step (whole_of editor.old) (asked call.now) ≡ (whole_of editor.new, told r)) }
    ensures none { IfNone result (editor.new ≡ editor.old) }
{
    one(do_call_with(rt, editor, call, workers))
}

/// Takes the newest frame back on an editor as `call_editor` does. `None` where no memory was found: then the editor is
/// as it was.
#[inline(always)]
pub(crate) fn undo_editor(editor: &mut Editor) -> Option<Reply>
    ensures done { IfSome result (λ r. step (whole_of editor.old) Undo ≡ (whole_of editor.new, told r)) }
    ensures none { IfNone result (editor.new ≡ editor.old) }
{
    one(undo(editor))
}

/// Does the newest undone frame again on an editor as `call_editor` does. `None` where no memory was found: then the
/// editor is as it was.
#[inline(always)]
pub(crate) fn redo_editor(editor: &mut Editor) -> Option<Reply>
    ensures done { IfSome result (λ r. step (whole_of editor.old) Redo ≡ (whole_of editor.new, told r)) }
    ensures none { IfNone result (editor.new ≡ editor.old) }
{
    one(redo(editor))
}

/// Performs a frame of one command on an editor as `call_editor` does one of a queue with it, but without the queue.
///
/// `None` where no memory was found: then the editor is as it was, and the command is dropped.
#[inline(always)]
pub(crate) fn call_editor_one(editor: &mut Editor, command: Command) -> Option<Reply>
    ensures done { IfSome result (λ r. step (whole_of editor.old) (Submit (lone_frame command)) ≡ (whole_of editor.new, told r)) }
    ensures none { IfNone result (editor.new ≡ editor.old) }
{
    match editor.submit_one(command) {
        Ok(entities) => Some(Reply::Done(entities)),
        Err(refusal) => one(refused(refusal)),
    }
}
