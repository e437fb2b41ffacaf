//! Sessions: one pass of a lock over a state each.
ghost use Rattle.std.specs.Prelude.{◌≡◌, ◌≤◌, ◌⊎◌, length, IfOk, IfErr, IfSome};
ghost use Rattle.scene_lock.specs.Pass.{IsPassOf};
ghost use Rattle.scene_pass.specs.Pass.{changed_since as changed_cells};
ghost use Rattle.scene_session.specs.declared.call.Call.TheVariants.{Submit, Advance, Undo, Redo};
ghost use Rattle.scene_session.specs.Calls.{queue_count, told};
ghost use Rattle.scene_session.specs.Queries.{ListsSince, machine_at};
ghost use Rattle.scene_session.specs.Session.{IsSame, SeesMore, Performed, NotPerformed, WasBusy, state_seen};

use crate::call::{Call, Reply, Stopped};
use crate::given::ChangedSince;
use crate::job::Job;
use crate::query::{Query, Question};
use crate::state::State;
use scene_kinds::{Fault, Refusal};
use scene_lock::{Pass, WordLock};
use scene_pass::{CellName, Filter};
use scene_queue::Queue;
use scene_schedule::Schedule;
use scene_undo::Cursor;
use std::alloc::Global;
use std::marker::Model;
use std::sync::Wait;
use std::thread::Threads;

/// One of those who share a state (docs/SESSIONS.md, "What a session promises"). A call takes the session and gives it
/// back, so the calls of one session come one after another.
///
/// Contracts see the lock and the pass, with the history that the session has seen.
#[derive(Drop)]
pub struct Session<'a> {
    lock: &'a WordLock<State>,
    pass: Pass<State>,
}

impl<'a> Model for Session<'a> {
    ghost use Rattle.scene_lock.specs.Pass.{IsPassOf};
    ghost use Rattle.scene_session.specs.Session.{SessionView};

    ghost Value = { SessionView };

    ghost view = { λ s. record { lock = s.lock.now; pass = s.pass } };

    ghost invariant = { λ s. IsPassOf s.lock.now s.pass };
}

impl<'a> Session<'a> {
    /// The session of a pass of this lock. It takes no memory.
    pub fn new(lock: &'a WordLock<State>, pass: Pass<State>) -> Session<'a>
        requires { IsPassOf lock.now pass }
        ensures { (result.lock ≡ lock.now) × (result.pass ≡ pass) }
    {
        Session { lock, pass }
    }

    /// The pass of the session, which is over. It takes no memory.
    pub fn into_pass(self) -> Pass<State>
        ensures pass { result ≡ self.entry.pass }
        ensures lock { IsPassOf self.entry.lock result }
    {
        self.pass
    }

    /// Performs a call, once no other session is inside.
    fn perform<R: Threads + Wait + Sync>(
        self,
        rt: &R,
        alloc: Global,
        call: Call,
        workers: usize,
    ) -> (Session<'a>, Result<Reply, Stopped>)
        requires { queue_count call ≤ 4294967295 }
        ensures same { IsSame self.entry result.0 }
        ensures performed { IfOk result.1 (λ r. Performed self.entry call (told r) result.0) }
        ensures stopped { IfErr result.1 (λ x. NotPerformed self.entry call x result.0) }
    {
        let Session { lock, pass } = self;
        let (pass, reply) = lock.write(rt, alloc, pass, Job { call, workers });
        (Session { lock, pass }, reply)
    }

    /// Performs a call at once, or is stopped by another session that is inside.
    fn try_perform(self, alloc: Global, call: Call) -> (Session<'a>, Result<Reply, Stopped>)
        requires { queue_count call ≤ 4294967295 }
        ensures same { IsSame self.entry result.0 }
        ensures performed { IfOk result.1 (λ r. Performed self.entry call (told r) result.0) }
        ensures stopped { IfErr result.1 (λ x. NotPerformed self.entry call x result.0 ⊎ WasBusy self.entry call x result.0) }
    {
        let Session { lock, pass } = self;
        let (pass, reply) = lock.try_write(alloc, pass, Job { call, workers: 1 });
        match reply {
            Ok(reply) => (Session { lock, pass }, reply),
            Err(job) => {
                let Job { call, workers: _ } = job;
                let refusal = Refusal::from(Fault::Busy);
                (Session { lock, pass }, Err(Stopped { refusal, call }))
            }
        }
    }

    /// Does a frame of queues, of which there are at most 4,294,967,295, once no other session is inside: it raises the
    /// world's tick by one and applies the queues in order, all or nothing (docs/SESSIONS.md, "What a session
    /// promises"). It costs what the frame changes, and its entry.
    ///
    /// A frame that the editor refuses is entered with the reply `Refused`. Stopped, in this order, and then nothing is
    /// entered and the queues come back: `HistoryFull` with the limit of the history; `NoMemory`.
    pub fn submit<R: Threads + Wait + Sync>(
        self,
        rt: &R,
        alloc: Global,
        queues: Vec<Queue>,
    ) -> (Session<'a>, Result<Reply, Stopped>)
        requires { length queues.items ≤ 4294967295 }
        ensures same { IsSame self.entry result.0 }
        ensures performed { IfOk result.1 (λ r. Performed self.entry (Submit queues) (told r) result.0) }
        ensures stopped { IfErr result.1 (λ x. NotPerformed self.entry (Submit queues) x result.0) }
    {
        self.perform(rt, alloc, Call::Submit(queues), 1)
    }

    /// Advances by a schedule, once no other session is inside, as one frame, with large columns written by as many
    /// threads as there are workers; a number below 1 is taken as 1, and one above 16 as 16 (docs/SESSIONS.md, "What a
    /// session promises"). The reply is the same for every number. It costs what the systems read and change, and its
    /// entry, which keeps the schedule.
    ///
    /// An advance that the editor refuses is entered with the reply `Refused`. Stopped, in this order, and then nothing
    /// is entered and the schedule comes back: `HistoryFull` with the limit of the history; `NoMemory`.
    pub fn advance<R: Threads + Wait + Sync>(
        self,
        rt: &R,
        alloc: Global,
        schedule: Schedule,
        workers: usize,
    ) -> (Session<'a>, Result<Reply, Stopped>)
        ensures same { IsSame self.entry result.0 }
        ensures performed { IfOk result.1 (λ r. Performed self.entry (Advance schedule) (told r) result.0) }
        ensures stopped { IfErr result.1 (λ x. NotPerformed self.entry (Advance schedule) x result.0) }
    {
        self.perform(rt, alloc, Call::Advance(schedule), workers)
    }

    /// Takes the newest frame back, whichever session made it, once no other session is inside (docs/SESSIONS.md, "What
    /// a session promises"). It costs what the frame changed, and its entry.
    ///
    /// An undo that the editor refuses is entered with the reply `Refused`. Stopped, in this order, and then nothing is
    /// entered: `HistoryFull` with the limit of the history; `NoMemory`.
    pub fn undo<R: Threads + Wait + Sync>(
        self,
        rt: &R,
        alloc: Global,
    ) -> (Session<'a>, Result<Reply, Stopped>)
        ensures same { IsSame self.entry result.0 }
        ensures performed { IfOk result.1 (λ r. Performed self.entry Undo (told r) result.0) }
        ensures stopped { IfErr result.1 (λ x. NotPerformed self.entry Undo x result.0) }
    {
        self.perform(rt, alloc, Call::Undo, 1)
    }

    /// Does the newest undone frame again, whichever session undid it, once no other session is inside
    /// (docs/SESSIONS.md, "What a session promises"). It costs what the frame changes, and its entry.
    ///
    /// A redo that the editor refuses is entered with the reply `Refused`. Stopped, in this order, and then nothing is
    /// entered: `HistoryFull` with the limit of the history; `NoMemory`.
    pub fn redo<R: Threads + Wait + Sync>(
        self,
        rt: &R,
        alloc: Global,
    ) -> (Session<'a>, Result<Reply, Stopped>)
        ensures same { IsSame self.entry result.0 }
        ensures performed { IfOk result.1 (λ r. Performed self.entry Redo (told r) result.0) }
        ensures stopped { IfErr result.1 (λ x. NotPerformed self.entry Redo x result.0) }
    {
        self.perform(rt, alloc, Call::Redo, 1)
    }

    /// Does a frame of queues at once, as `submit` does (docs/SESSIONS.md, "Busy").
    ///
    /// Stopped where `submit` is, and by `Busy` where another session is inside or waits to change the state. Then
    /// nothing is entered, and the queues come back.
    pub fn try_submit(
        self,
        alloc: Global,
        queues: Vec<Queue>,
    ) -> (Session<'a>, Result<Reply, Stopped>)
        requires { length queues.items ≤ 4294967295 }
        ensures same { IsSame self.entry result.0 }
        ensures performed { IfOk result.1 (λ r. Performed self.entry (Submit queues) (told r) result.0) }
        ensures stopped { IfErr result.1 (λ x. NotPerformed self.entry (Submit queues) x result.0
            ⊎ WasBusy self.entry (Submit queues) x result.0) }
    {
        self.try_perform(alloc, Call::Submit(queues))
    }

    /// Advances by a schedule at once, on this thread, with the reply that `advance` has (docs/SESSIONS.md, "Busy").
    ///
    /// Stopped where `advance` is, and by `Busy` where another session is inside or waits to change the state. Then
    /// nothing is entered, and the schedule comes back.
    pub fn try_advance(
        self,
        alloc: Global,
        schedule: Schedule,
    ) -> (Session<'a>, Result<Reply, Stopped>)
        ensures same { IsSame self.entry result.0 }
        ensures performed { IfOk result.1 (λ r. Performed self.entry (Advance schedule) (told r) result.0) }
        ensures stopped { IfErr result.1 (λ x. NotPerformed self.entry (Advance schedule) x result.0
            ⊎ WasBusy self.entry (Advance schedule) x result.0) }
    {
        self.try_perform(alloc, Call::Advance(schedule))
    }

    /// Takes the newest frame back at once, as `undo` does (docs/SESSIONS.md, "Busy").
    ///
    /// Stopped where `undo` is, and by `Busy` where another session is inside or waits to change the state. Then
    /// nothing is entered.
    pub fn try_undo(self, alloc: Global) -> (Session<'a>, Result<Reply, Stopped>)
        ensures same { IsSame self.entry result.0 }
        ensures performed { IfOk result.1 (λ r. Performed self.entry Undo (told r) result.0) }
        ensures stopped { IfErr result.1 (λ x. NotPerformed self.entry Undo x result.0 ⊎ WasBusy self.entry Undo x result.0) }
    {
        self.try_perform(alloc, Call::Undo)
    }

    /// Does the newest undone frame again at once, as `redo` does (docs/SESSIONS.md, "Busy").
    ///
    /// Stopped where `redo` is, and by `Busy` where another session is inside or waits to change the state. Then
    /// nothing is entered.
    pub fn try_redo(self, alloc: Global) -> (Session<'a>, Result<Reply, Stopped>)
        ensures same { IsSame self.entry result.0 }
        ensures performed { IfOk result.1 (λ r. Performed self.entry Redo (told r) result.0) }
        ensures stopped { IfErr result.1 (λ x. NotPerformed self.entry Redo x result.0 ⊎ WasBusy self.entry Redo x result.0) }
    {
        self.try_perform(alloc, Call::Redo)
    }

    /// The answer to a query, by a state that has all that this session has seen, once none changes it. So a session
    /// reads what it has written (docs/SESSIONS.md, "What it has seen"). Queries of other sessions may be answered at
    /// the same time. It takes no memory but what the query takes.
    pub fn ask<Q: Query, R: Wait>(
        self,
        rt: &R,
        alloc: Global,
        query: &Q,
    ) -> (Session<'a>, Q::Answer)
        ensures same { IsSame self.entry result.0 }
        ensures more { SeesMore self.entry result.0 }
        ensures answer { Q.answers query.now (state_seen result.0) result.1 }
    {
        let Session { lock, pass } = self;
        let (pass, answer) = lock.read(rt, alloc, pass, &Question { query });
        (Session { lock, pass }, answer)
    }

    /// The answer to a query at once, or `None` where another session changes the state or waits to change it
    /// (docs/SESSIONS.md, "Busy"). It takes no memory but what the query takes.
    pub fn try_ask<Q: Query>(self, alloc: Global, query: &Q) -> (Session<'a>, Option<Q::Answer>)
        ensures same { IsSame self.entry result.0 }
        ensures more { SeesMore self.entry result.0 }
        ensures answer { IfSome result.1 (λ a. Q.answers query.now (state_seen result.0) a) }
    {
        let Session { lock, pass } = self;
        let (pass, answer) = lock.try_read(alloc, pass, &Question { query });
        (Session { lock, pass }, answer)
    }

    /// The cells of matching rows that were changed since a cursor, by row, then by kind: the answer to `ChangedSince`
    /// (docs/SESSIONS.md, "What it has seen").
    ///
    /// Refused: `Rewound` with the count of undos now, just where it isn't the cursor's; `NoMemory`.
    pub fn changed<R: Wait>(
        self,
        rt: &R,
        alloc: Global,
        cursor: Cursor,
        filter: Filter,
    ) -> (Session<'a>, Result<Vec<CellName>, Refusal>)
        ensures same { IsSame self.entry result.0 }
        ensures more { SeesMore self.entry result.0 }
        ensures answer { ListsSince changed_cells cursor filter (machine_at (state_seen result.0)) result.1 }
    {
        self.ask(rt, alloc, &ChangedSince(cursor, filter))
    }

    /// Both sessions, which are of one lock, have now seen one history: the whole one so far (docs/SESSIONS.md, "What
    /// it has seen"). It waits for nobody, takes no memory and has no error.
    pub fn meet(one: Session<'a>, other: Session<'a>) -> (Session<'a>, Session<'a>)
        requires { other.lock ≡ one.lock }
        ensures same { IsSame one.entry result.0 × IsSame other.entry result.1 }
        ensures one { SeesMore one.entry result.0 }
        ensures other { SeesMore other.entry result.1 }
        ensures met { result.1.pass.seen ≡ result.0.pass.seen }
    {
        let Session { lock, pass } = one;
        let Session {
            lock: _,
            pass: second,
        } = other;
        let (pass, second) = lock.meet(pass, second);
        (Session { lock, pass }, Session { lock, pass: second })
    }
}
