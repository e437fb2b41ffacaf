//! Histories, read and performed again.
ghost use Rattle.std.specs.Prelude.{◌≡◌, ◌≤◌, IfOk, length};
ghost use Rattle.scene_session.specs.Calls.{queue_count};

use crate::frames::{ALL, number_of};
use scene_kinds::Refusal;
use scene_pass::rows;
use scene_queue::Queue;
use scene_session::{Call, Entry, Reply, State};
use std::alloc::{AllocError, Global};

/// How many frames of a session a history has, if the numbers that they spawn are 0, 1 and so on, and it has no other
/// call.
pub fn frames_in_order(history: &[Entry], session: u32) -> Option<i64> {
    let mut count = 0i64;
    for entry in history {
        if entry.session == session {
            if number_of(&entry.call) != Some(count) {
                return None;
            }
            count = count.saturating_add(1);
        }
    }
    Some(count)
}

/// Equal queues, which are few enough for a call.
fn copied_queues(alloc: Global, queues: &[Queue]) -> Result<Vec<Queue>, AllocError>
    ensures { IfOk result (λ copies. length copies.items ≤ 4294967295) }
{
    let mut copies = Vec::new(alloc);
    for queue in queues {
        copies.push(queue.try_clone()?)?;
    }
    if copies.len() > u32::MAX as usize {
        return Err(AllocError);
    }
    Ok(copies)
}

/// The call of an entry once more.
fn copied(alloc: Global, call: &Call) -> Result<Call, AllocError>
    ensures { IfOk result (λ copy. queue_count copy ≤ 4294967295) }
{
    match call {
        Call::Submit(queues) => Ok(Call::Submit(copied_queues(alloc, queues.as_slice())?)),
        Call::Advance(schedule) => Ok(Call::Advance(schedule.try_clone()?)),
        Call::Undo => Ok(Call::Undo),
        Call::Redo => Ok(Call::Redo),
    }
}

/// Whether two replies tell the same.
fn is_same(one: &Reply, other: &Reply) -> bool {
    match (one, other) {
        (Reply::Done(these), Reply::Done(those)) => these.as_slice() == those.as_slice(),
        (Reply::Undone, Reply::Undone) | (Reply::Redone, Reply::Redone) => true,
        (Reply::Refused(this), Reply::Refused(that)) => this == that,
        _ => false,
    }
}

/// Performs the call of an entry on another state. Whether the reply is the same.
fn play_entry(alloc: Global, state: &mut State, entry: &Entry) -> bool {
    match copied(alloc, &entry.call) {
        Ok(call) => match state.perform(entry.session, call) {
            Ok(reply) => is_same(&reply, &entry.reply),
            Err(_) => false,
        },
        Err(_) => false,
    }
}

/// Performs the calls of a history on another state, in their order. How many of them had the same reply.
pub fn play_again(alloc: Global, state: &mut State, history: &[Entry]) -> u32 {
    let mut same = 0u32;
    for entry in history {
        if play_entry(alloc, state, entry) {
            same = same.saturating_add(1);
        }
    }
    same
}

/// The length of a state's history, its cursor and its rows as a text.
pub fn shown(alloc: Global, state: &State) -> Result<String, Refusal> {
    let entries = state.history().len();
    let cursor = state.editor().cursor();
    let rows = rows(alloc, state.editor().world(), ALL)?;
    Ok(format!(in alloc; "{entries} {cursor:?} {rows:?}")?)
}
