//! An owner without a lock: an editor that no other thread can reach.
ghost use Rattle.std.specs.Prelude.{◌≡◌, ◌≢◌, ◌≤◌, ◌<◌, ◌+◌, ◌++◌, ◌∷◌, [], ℕ, length, replicate, Err, IfOk, IfErr, OnErr, MatchResult, Some, None, string_bytes};
ghost use Rattle.scene_kinds.specs.Answers.{Answers, refusal_of};
ghost use Rattle.scene_kinds.specs.declared.fault.Fault.TheVariants.{HistoryFull, NoMemory};
ghost use Rattle.scene_queue.specs.Frames.{lone_frame};
ghost use Rattle.scene_session.specs.Calls.{Redo, Refused, Submit, Undo, asked, queue_count, told};
ghost use Rattle.scene_session.specs.FurtherKind.{declare_owner};
ghost use Rattle.scene_session.specs.Logged.{asked_in, logged};
ghost use Rattle.scene_session.specs.Resumed.{IsResumed};
ghost use Rattle.scene_session.specs.State.{stopping_at};
ghost use Rattle.scene_session.specs.Turns.{owner_by, turned};
ghost use Rattle.scene_session.specs.Whole.{whole_of};
ghost use Rattle.scene_session.specs.Owner.{opening_owner, owner_at_depth, performed, whole_at};

use crate::call::{Call, Reply, Stopped};
use crate::log::{Earlier, Log, Logged, LoggedCall};
use crate::owner::SessionOwner;
use crate::query::EditorQuery;
use crate::step::{call_editor, call_editor_one, call_editor_with, redo_editor, undo_editor};
use crate::way::Way;
use scene_commands::Command;
use scene_kinds::{Fault, Refusal, Shape};
use scene_undo::Editor;
use std::alloc::{AllocError, Global};
use std::marker::Model;
use std::snapshot::Snapshot;
use std::thread::Threads;

/// Eight sessions of an editor that has no lock, which no other thread can reach (docs/SESSIONS.md, "One owner").
/// Nobody can read its calls, so it keeps none and counts them: clauses alone see them, and what the editor was before
/// them.
///
/// Contracts see what those of each `SessionOwner` see.
pub struct LoneOwner {
    opening: Snapshot<Editor>,
    log: Log,
    editor: Editor,
    /// Whose turn it is.
    session: u32,
    /// How many calls there may be, and for how many more there is room.
    limit: u64,
    room: u64,
}

impl Drop for LoneOwner {
    fn drop(self) {
        let LoneOwner {
            opening: _,
            log: _,
            editor: _,
            session: _,
            limit: _,
            room: _,
        } = self;
    }
}

impl Model for LoneOwner {
    ghost use Rattle.std.specs.Prelude.{◌≡◌, ◌+◌, length};
    ghost use Rattle.scene_session.specs.History.{replay};
    ghost use Rattle.scene_session.specs.Whole.{whole_of};
    ghost use Rattle.scene_session.specs.OwnerCodes.{owner_code};
    ghost use Rattle.scene_session.specs.Owner.{OwnerState, next};

    ghost Value = { OwnerState };

    ghost coded = { owner_code };

    ghost view = { λ h. record { opening = whole_of h.opening.value; limit = h.limit; history = h.log.calls; session = h.session } };

    ghost invariant = { λ h. (whole_of h.editor ≡ replay next (whole_of h.opening.value) h.log.calls)
        × (h.room + length h.log.calls ≡ h.limit) };
}

/// Enters a call that was done, and gives its reply.
#[inline(always)]
fn enter(log: &mut Log, room: &mut u64, done: Logged) -> Reply
    requires { 1 ≤ room.old }
    ensures entered { log.new.calls ≡ log.old.calls ++ logged done ∷ [] }
    ensures reply { result ≡ done.reply }
    ensures room { room.new + 1 ≡ room.old }
{
    *log = log.and(&done);
    *room -= 1;
    let Logged { reply, .. } = done;
    reply
}

/// Enters a call with its reply, which it gives. Where there is none, no memory was found: the call is handed back.
fn enter_call(
    log: &mut Log,
    room: &mut u64,
    session: u32,
    call: Call,
    reply: Option<Reply>,
) -> Result<Reply, Stopped>
    requires { 1 ≤ room.old }
    ensures entered { IfOk result (λ r. (reply ≡ Some r)
        × (log.new.calls ≡ log.old.calls ++ record { session = session; call = asked call; answer = told r } ∷ [])) }
    ensures stopped { IfErr result (λ x. (reply ≡ None) × (log.new.calls ≡ log.old.calls) × (x.call ≡ call)
        × (x.refusal ≡ refusal_of NoMemory)) }
    ensures room { MatchResult result (λ _. room.new + 1 ≡ room.old) (λ _. room.new ≡ room.old) }
{
    match reply {
        Some(reply) => {
            let call = LoggedCall::of_call(&call);
            let done = Logged {
                session,
                call,
                reply,
            };
            Ok(enter(log, room, done))
        }
        None => {
            let refusal = Refusal::from(Fault::NoMemory);
            Err(Stopped { refusal, call })
        }
    }
}

/// Enters a call that is told by its snapshot, with its reply, which it gives. Where there is none, no memory was found.
#[inline(always)]
fn enter_lone(
    log: &mut Log,
    room: &mut u64,
    session: u32,
    call: LoggedCall,
    reply: Option<Reply>,
) -> Result<Reply, AllocError>
    requires { 1 ≤ room.old }
    ensures entered { IfOk result (λ r. (reply ≡ Some r)
        × (log.new.calls ≡ log.old.calls ++ record { session = session; call = asked_in call; answer = told r } ∷ [])) }
    ensures stopped { OnErr result ((reply ≡ None) × (log.new.calls ≡ log.old.calls)) }
    ensures room { MatchResult result (λ _. room.new + 1 ≡ room.old) (λ _. room.new ≡ room.old) }
{
    let Some(reply) = reply else {
        return Err(AllocError);
    };
    let done = Logged {
        session,
        call,
        reply,
    };
    Ok(enter(log, room, done))
}

/// Enters so many calls along a way that were done.
fn enter_turns(log: &mut Log, room: &mut u64, session: u32, way: Way, count: usize)
    requires { count ≤ room.old }
    ensures entered { log.new.calls ≡ log.old.calls ++ replicate count (turned session way) }
    ensures room { room.new + count ≡ room.old }
{
    'turns: for _ in 0..count {
        let _reply = enter(log, room, way.done_by(session));
    }
}

/// No calls yet, and room for all.
fn begin_anew(log: &mut Log, room: &mut u64, limit: u64)
    ensures none { log.new.calls ≡ [] }
    ensures all { room.new ≡ limit }
{
    *log = Log::new();
    *room = limit;
}

/// The reply to a call for which there is no room.
fn full(limit: u64) -> Reply
    ensures { told result ≡ Refused (refusal_of (HistoryFull limit)) }
{
    Reply::Refused(Refusal::from(Fault::HistoryFull(limit)))
}

/// Hands back a call for which there is no room.
fn turned_back(limit: u64, call: Call) -> Stopped
    ensures { (result.call ≡ call) × (result.refusal ≡ refusal_of (HistoryFull limit)) }
{
    Stopped {
        refusal: Refusal::from(Fault::HistoryFull(limit)),
        call,
    }
}

impl LoneOwner {
    /// An owner of the sessions 0 to 7 of this editor, with no calls yet; it is the turn of session 0. It takes no
    /// memory, and its calls take none but what the editor takes. So there may be as many as a counter holds:
    /// `u64::MAX` is no limit but the counter's.
    pub fn new(editor: Editor, limit: u64) -> LoneOwner
        requires { 1 ≤ limit }
        ensures { result ≡ opening_owner (whole_of editor) limit }
    {
        LoneOwner {
            opening: Snapshot::of(&editor),
            log: Log::new(),
            editor,
            session: 0,
            limit,
            room: limit,
        }
    }

    /// Performs a call of the session whose turn it is, on this thread.
    pub(crate) fn perform(&mut self, call: Call) -> Result<Reply, Stopped>
        requires { queue_count call ≤ 4294967295 }
        ensures done { IfOk result (λ reply. performed self.old (asked call) ≡ (self.new, told reply)) }
        ensures full { IfErr result (λ x. x.refusal ≢ refusal_of NoMemory → performed self.old (asked call) ≡ (self.new, Refused x.refusal)) }
        ensures stopped { IfErr result (λ x. (self.new ≡ self.old) × (x.call ≡ call)
            × (x.refusal ≡ stopping_at self.old.limit (length self.old.history))) }
        ensures room { IfErr result (λ x. x.refusal.fault ≡ NoMemory → length self.old.history < self.old.limit) }
    {
        if self.room == 0 {
            return Err(turned_back(self.limit, call));
        }
        let reply = call_editor(&mut self.editor, &call);
        enter_call(&mut self.log, &mut self.room, self.session, call, reply)
    }

    /// The same, with the large columns of an advance written by as many threads as there are workers.
    pub(crate) fn perform_with<R: Threads + Sync>(
        &mut self,
        rt: &R,
        call: Call,
        workers: usize,
    ) -> Result<Reply, Stopped>
        requires { queue_count call ≤ 4294967295 }
        ensures done { IfOk result (λ reply. performed self.old (asked call) ≡ (self.new, told reply)) }
        ensures full { IfErr result (λ x. x.refusal ≢ refusal_of NoMemory → performed self.old (asked call) ≡ (self.new, Refused x.refusal)) }
        ensures stopped { IfErr result (λ x. (self.new ≡ self.old) × (x.call ≡ call)
            × (x.refusal ≡ stopping_at self.old.limit (length self.old.history))) }
        ensures room { IfErr result (λ x. x.refusal.fault ≡ NoMemory → length self.old.history < self.old.limit) }
    {
        if self.room == 0 {
            return Err(turned_back(self.limit, call));
        }
        let reply = call_editor_with(rt, &mut self.editor, &call, workers);
        enter_call(&mut self.log, &mut self.room, self.session, call, reply)
    }

    /// Performs a frame of one command, of the session whose turn it is. Where the history is full the command is
    /// dropped, and so it is where no memory was found.
    #[inline(always)]
    pub(crate) fn perform_one(&mut self, command: Command) -> Result<Reply, AllocError>
        ensures done { IfOk result (λ reply. performed self.old (Submit (lone_frame command)) ≡ (self.new, told reply)) }
        ensures same { OnErr result (self.new ≡ self.old) }
    {
        if self.room == 0 {
            let full = full(self.limit);
            return Ok(full);
        }
        let call = LoggedCall::of_command(&command);
        let reply = call_editor_one(&mut self.editor, command);
        enter_lone(&mut self.log, &mut self.room, self.session, call, reply)
    }

    /// Takes the newest frame back for the session whose turn it is.
    #[inline(always)]
    pub(crate) fn undo(&mut self) -> Result<Reply, AllocError>
        ensures done { IfOk result (λ reply. performed self.old Undo ≡ (self.new, told reply)) }
        ensures same { OnErr result (self.new ≡ self.old) }
    {
        if self.room == 0 {
            return Ok(full(self.limit));
        }
        let call = LoggedCall::of_call(&Call::Undo);
        let reply = undo_editor(&mut self.editor);
        enter_lone(&mut self.log, &mut self.room, self.session, call, reply)
    }

    /// Does the newest undone frame again for the session whose turn it is.
    #[inline(always)]
    pub(crate) fn redo(&mut self) -> Result<Reply, AllocError>
        ensures done { IfOk result (λ reply. performed self.old Redo ≡ (self.new, told reply)) }
        ensures same { OnErr result (self.new ≡ self.old) }
    {
        if self.room == 0 {
            return Ok(full(self.limit));
        }
        let call = LoggedCall::of_call(&Call::Redo);
        let reply = redo_editor(&mut self.editor);
        enter_lone(&mut self.log, &mut self.room, self.session, call, reply)
    }

    /// Goes so many frames along a way, as that many calls of the session whose turn it is do one after another, all or
    /// none (docs/SESSIONS.md, "One owner"). Where all are done, all are entered, each with its answer. It costs what
    /// they cost; a count of 0 does nothing.
    ///
    /// Where one of them would be refused, this is refused as that one is, nothing changes, and no call is entered:
    /// `HistoryFull`, where there would be more calls than may be; `NothingToUndo` or `NothingToRedo`, where there are
    /// fewer frames; `TickFull`, where an undo can't be counted; `NoMemory`.
    pub fn turn_by(&mut self, way: Way, count: usize) -> Result<(), Refusal>
        ensures { Answers result self.old self.new (owner_by way count self.old) }
    {
        if self.room < count as u64 {
            return Err(self.first_refusal(way));
        }
        match way.turn(&mut self.editor, count) {
            Ok(()) => {
                enter_turns(&mut self.log, &mut self.room, self.session, way, count);
                Ok(())
            }
            Err(refusal) => Err(refusal),
        }
    }

    /// The first refusal of more calls along a way than there is room for.
    fn first_refusal(&self, way: Way) -> Refusal
        ensures { (count : ℕ) → self.now.limit < length self.now.history + count → owner_by way count self.now ≡ Err result }
    {
        match way.may_turn(&self.editor, self.room as usize) {
            Ok(()) => Refusal::from(Fault::HistoryFull(self.limit)),
            Err(refusal) => refusal,
        }
    }

    /// Asks a question of the editor.
    pub(crate) fn ask<Q: EditorQuery>(&self, alloc: Global, query: &Q) -> Q::Found
        ensures { Q.finds query.now (whole_at self.now) result }
    {
        query.find(alloc, &self.editor)
    }

    /// Sets of how many frames a record is kept, and drops those beyond it, the oldest first (docs/MODEL.md, "The rule
    /// of undo"). No call says this, so the calls begin anew, and are counted from 0. It takes no memory, and costs the
    /// records that are dropped.
    #[tactic(auto, using(crate::proofs::Wholes::depth_set))]
    pub fn set_depth(&mut self, depth: u32)
        ensures { self.new ≡ owner_at_depth depth self.old }
    {
        self.editor.set_depth(depth);
        self.opening = Snapshot::of(&self.editor);
        begin_anew(&mut self.log, &mut self.room, self.limit);
    }

    /// Declares a kind, and gives its number, as `Editor::declare` does: each world of the machine has it last in its
    /// schema then (docs/MODEL.md, "The rule of declarations"). No call says this, so the calls begin anew, and are
    /// counted from 0; the turn stays. It costs as long as the name is.
    ///
    /// Refused, in this order, and then nothing changes, the count of calls included, and the name is dropped: `BadName`;
    /// `KindTaken`; `KindsFull` where there are 64 kinds; `NoMemory`.
    pub fn declare(&mut self, name: String, shape: Shape) -> Result<u8, Refusal>
        ensures { Answers result self.old self.new (declare_owner (string_bytes name) shape self.old) }
    {
        match self.editor.declare(name, shape) {
            Ok(number) => {
                self.opening = Snapshot::of(&self.editor);
                begin_anew(&mut self.log, &mut self.room, self.limit);
                Ok(number)
            }
            Err(refusal) => Err(refusal),
        }
    }

    /// Goes on as one that has made so many calls, after which there were so many undos: for who knows what the calls of
    /// another owner led to, and not which they were (docs/SESSIONS.md, "One owner"). The calls so far are forgotten;
    /// worlds, records, depth, limit and turn stay. It takes no memory.
    pub fn resume(&mut self, rewinds: u64, calls: u64)
        requires { calls ≤ self.old.limit }
        ensures { IsResumed rewinds calls self.old self.new }
    {
        self.editor.set_rewinds(rewinds);
        let earlier = Earlier {
            calls,
            left: Snapshot::of(&self.editor),
        };
        self.log = Log::of_earlier(&earlier);
        let Earlier { left, .. } = earlier;
        self.opening = left;
        self.room = self.limit - calls;
    }

    /// The editor as it is after these calls. It takes no memory.
    pub fn editor(&self) -> &Editor
        ensures { whole_of result.now ≡ whole_at self.now }
    {
        &self.editor
    }
}

impl SessionOwner for LoneOwner {
    ghost state = { λ owner. owner };

    fn turn_to(&mut self, session: u32) {
        self.session = session;
    }

    fn session(&self) -> u32 {
        self.session
    }

    fn limit(&self) -> u64 {
        self.limit
    }

    fn call_count(&self) -> u64 {
        self.limit - self.room
    }
}
