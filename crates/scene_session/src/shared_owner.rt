//! An owner over a lock: the passes of all its sessions.
ghost use Rattle.std.specs.Prelude.{◌≡◌, ◌≢◌, ◌≤◌, ◌<◌, ◌+◌, length, IfOk, IfErr, MatchResult};
ghost use Rattle.scene_kinds.specs.Answers.{refusal_of};
ghost use Rattle.scene_kinds.specs.declared.fault.Fault.TheVariants.{NoMemory};
ghost use Rattle.scene_session.specs.Calls.{Refused, asked, queue_count, told};
ghost use Rattle.scene_session.specs.State.{stopping_at};
ghost use Rattle.scene_session.specs.Whole.{whole_of};
ghost use Rattle.scene_session.specs.Owner.{opening_owner, performed, whole_at};
ghost use Rattle.scene_session.specs.Passes.{AreOf};

use crate::all_passes::{ask_with_all, perform_with_all};
use crate::call::{Call, Reply, Stopped};
use crate::owner::SessionOwner;
use crate::query::EditorQuery;
use crate::state::State;
use scene_lock::{Pass, WordLock};
use scene_undo::Editor;
use std::alloc::{AllocError, Global};
use std::marker::Model;
use std::mem;
use std::sync::Wait;
use std::thread::Threads;

/// How many sessions an owner has.
const SESSIONS: u32 = 8;

/// Eight sessions over a lock with all its passes (docs/SESSIONS.md, "One owner"). The state under the lock keeps the
/// calls as its history.
///
/// Contracts see what those of each `SessionOwner` see.
pub struct SharedOwner {
    lock: WordLock<State>,
    /// Each at the place that is its session.
    passes: Vec<Pass<State>>,
    /// Whose turn it is.
    session: u32,
    /// How many calls there may be, and for how many more there is room. The state knows it too, but only who waits for
    /// the lock sees it.
    limit: u32,
    room: u32,
}

impl Drop for SharedOwner {
    fn drop(self) {
        let SharedOwner {
            lock: _,
            passes: _,
            session: _,
            limit: _,
            room: _,
        } = self;
    }
}

impl Model for SharedOwner {
    ghost use Rattle.std.specs.Prelude.{◌≡◌, ◌<◌, ◌+◌, length};
    ghost use Rattle.scene_session.specs.OwnerCodes.{owner_code};
    ghost use Rattle.scene_session.specs.Owner.{OwnerState, owner_of};
    ghost use Rattle.scene_session.specs.Passes.{AreEight, first_seen};

    ghost Value = { OwnerState };

    ghost coded = { owner_code };

    ghost view = { λ h. owner_of (record { opening = h.lock.terms.opening; history = first_seen h.passes.items }) h.session };

    ghost invariant = { λ h. AreEight h.lock (first_seen h.passes.items) h.passes.items × (h.session < 8)
        × (h.limit ≡ h.lock.terms.opening.limit) × (h.room + length (first_seen h.passes.items) ≡ h.lock.terms.opening.limit) };
}

/// For how many calls more there is room after one that was tried.
fn room_after(room: u32, reply: &Result<Reply, Stopped>) -> u32
    requires { IfOk reply.now (λ _. 1 ≤ room) }
    ensures { MatchResult reply.now (λ _. result + 1 ≡ room) (λ _. result ≡ room) }
{
    match reply {
        Ok(_) => room - 1,
        Err(_) => room,
    }
}

impl SharedOwner {
    /// An owner of the sessions 0 to 7 over a lock with a state of this editor, with no calls yet; it is the turn of
    /// session 0. There may be `limit` calls, 1 to 1,048,576 (docs/SESSIONS.md, "History").
    ///
    /// `AllocError` where no memory was found: the editor is dropped then.
    pub fn new(alloc: Global, editor: Editor, limit: u32) -> Result<SharedOwner, AllocError>
        requires { (1 ≤ limit) × (limit ≤ 1048576) }
        ensures { IfOk result (λ owner. owner ≡ opening_owner (whole_of editor) limit) }
    {
        let state = State::new(alloc, editor, limit);
        let (lock, passes) = WordLock::new(alloc, state, SESSIONS)?;
        Ok(SharedOwner {
            lock,
            passes,
            session: 0,
            limit,
            room: limit,
        })
    }

    /// Performs a call of the session whose turn it is, through its pass.
    pub(crate) fn perform<R: Threads + Wait + Sync>(
        &mut self,
        rt: &R,
        alloc: Global,
        call: Call,
        workers: usize,
    ) -> Result<Reply, Stopped>
        requires { queue_count call ≤ 4294967295 }
        ensures done { IfOk result (λ reply. performed self.old (asked call) ≡ (self.new, told reply)) }
        ensures full { IfErr result (λ x. x.refusal ≢ refusal_of NoMemory → performed self.old (asked call) ≡ (self.new, Refused x.refusal)) }
        ensures stopped { IfErr result (λ x. (self.new ≡ self.old) × (x.call ≡ call)
            × (x.refusal ≡ stopping_at self.old.limit (length self.old.history))) }
        ensures room { IfErr result (λ x. x.refusal.fault ≡ NoMemory → length self.old.history < self.old.limit) }
    {
        let place = self.session as usize;
        let mut others = mem::replace(&mut self.passes, Vec::new(alloc));
        let pass = others.swap_remove(place);
        let (mut passes, reply) = perform_with_all(
            rt, alloc, &self.lock, pass, others, call, workers,
        );
        passes.swap(place, 7);
        self.passes = passes;
        self.room = room_after(self.room, &reply);
        reply
    }

    /// Asks a question of the editor, through the pass of the session whose turn it is.
    pub(crate) fn ask<Q: EditorQuery, R: Wait>(
        &mut self,
        rt: &R,
        alloc: Global,
        query: &Q,
    ) -> Q::Found
        ensures same { self.new ≡ self.old }
        ensures answer { Q.finds query.now (whole_at self.old) result }
    {
        let place = self.session as usize;
        let mut others = mem::replace(&mut self.passes, Vec::new(alloc));
        let pass = others.swap_remove(place);
        let (mut passes, answer) = ask_with_all(rt, alloc, &self.lock, pass, others, query);
        passes.swap(place, 7);
        self.passes = passes;
        answer
    }

    /// The lock, and the passes of its eight sessions, 0 first: each has seen just these calls. It takes no memory.
    pub fn into_parts(self) -> (WordLock<State>, Vec<Pass<State>>)
        ensures { AreOf result.0 result.1.items self }
    {
        let SharedOwner {
            lock,
            passes,
            session: _,
            limit: _,
            room: _,
        } = self;
        (lock, passes)
    }
}

impl SessionOwner for SharedOwner {
    ghost state = { λ owner. owner };

    fn turn_to(&mut self, session: u32) {
        self.session = session;
    }

    fn session(&self) -> u32 {
        self.session
    }

    fn limit(&self) -> u64 {
        u64::from(self.limit)
    }

    fn call_count(&self) -> u64 {
        u64::from(self.limit - self.room)
    }
}
