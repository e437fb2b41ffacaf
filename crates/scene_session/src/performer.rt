//! Who performs the calls of an owner, and asks its queries.
ghost use Rattle.std.specs.Prelude.{◌≡◌, ◌≢◌, ◌≤◌, ◌<◌, Ok, length, IfErr, IfOk, IsErr, OnErr};
ghost use Rattle.std.specs.Thread.{IsSync};
ghost use Rattle.scene_queue.specs.Frames.{lone_frame};
ghost use Rattle.scene_session.specs.Calls.{Redo, Submit, Undo, asked, queue_count, told};
ghost use Rattle.scene_session.specs.Owner.{performed, whole_at};
ghost use Rattle.scene_session.specs.Performed.{Came};

use crate::call::{Call, Reply, Stopped};
use crate::lone_owner::LoneOwner;
use crate::owner::SessionOwner;
use crate::query::EditorQuery;
use crate::shared_owner::SharedOwner;
use scene_commands::Command;
use scene_kinds::Fault;
use scene_queue::Queue;
use std::alloc::{AllocError, Global};
use std::sync::Wait;
use std::thread::Threads;

/// Who performs the calls of an owner: one that has threads to start, or the thread that asks for it alone. What a call
/// comes to doesn't depend on it (docs/SESSIONS.md, "One owner").
pub trait Performer<O: SessionOwner> {
    /// By what it starts threads, if it does.
    type Runtime: Sync;

    /// Performs a call of the session whose turn it is. What the editor refuses is entered with the reply `Refused`,
    /// and leaves the editor as it was; where there are as many calls as may be, the reply is `Refused` with
    /// `HistoryFull` and the limit, and nothing is entered. It costs what the call costs, and over a lock some thirty
    /// loads of a word.
    ///
    /// Where no memory is found, nothing is entered and the call is handed back. It comes back only where there was
    /// room for it.
    fn perform(&self, alloc: Global, owner: &mut O, call: Call) -> Result<Reply, Call>
        requires few { queue_count call ≤ 4294967295 }
        requires sync { IsSync Self.Runtime.row }
        ensures done { IfOk result (λ reply. performed (O.state owner.old) (asked call) ≡ (O.state owner.new, told reply)) }
        ensures back { IfErr result (λ back. (back ≡ call) × (owner.new ≡ owner.old)
            × (length (O.state owner.old).history < (O.state owner.old).limit)) };

    /// Performs a frame of one command of the session whose turn it is, as `perform` does a frame of one queue with it.
    /// It costs what the command costs, and over a lock the queue and some thirty loads of a word.
    ///
    /// Where no memory is found, nothing is entered and the command is dropped.
    fn perform_one(
        &self,
        alloc: Global,
        owner: &mut O,
        command: Command,
    ) -> Result<Reply, AllocError>
        requires { IsSync Self.Runtime.row }
        ensures done { IfOk result (λ reply. performed (O.state owner.old) (Submit (lone_frame command)) ≡ (O.state owner.new, told reply)) }
        ensures same { OnErr result (owner.new ≡ owner.old) };

    /// Takes the newest frame back for the session whose turn it is, as `perform` does a call `Undo`, and costs what the
    /// frame changed.
    ///
    /// Where no memory is found, nothing is entered.
    fn undo(&self, alloc: Global, owner: &mut O) -> Result<Reply, AllocError>
        requires { IsSync Self.Runtime.row }
        ensures done { IfOk result (λ reply. performed (O.state owner.old) Undo ≡ (O.state owner.new, told reply)) }
        ensures same { OnErr result (owner.new ≡ owner.old) };

    /// Does the newest undone frame again for the session whose turn it is, as `perform` does a call `Redo`, and costs
    /// what the frame changes.
    ///
    /// Where no memory is found, nothing is entered.
    fn redo(&self, alloc: Global, owner: &mut O) -> Result<Reply, AllocError>
        requires { IsSync Self.Runtime.row }
        ensures done { IfOk result (λ reply. performed (O.state owner.old) Redo ≡ (O.state owner.new, told reply)) }
        ensures same { OnErr result (owner.new ≡ owner.old) };

    /// Asks a question of the editor, for the session whose turn it is: what is found is of the editor after just these
    /// calls. It costs what the question costs, and over a lock some thirty loads of a word; it takes no memory but
    /// what the question takes.
    fn ask<Q: EditorQuery>(&self, alloc: Global, owner: &mut O, query: &Q) -> Q::Found
        ensures same { owner.new ≡ owner.old }
        ensures answer { Q.finds query.now (whole_at (O.state owner.old)) result };
}

/// Performs calls on this thread, where the large columns of an advance are written by as many threads as there are
/// workers, 1 to 16. A number below is taken as 1, and one above as 16.
// It has the handle by value, which may be a reference: with a lifetime of its own no call could be proved that is
// given one.
#[derive(Drop)]
pub struct OnThreads<R> {
    rt: R,
    workers: usize,
}

impl<R: Threads + Sync> OnThreads<R> {
    /// Who starts threads by this handle, or a reference to one, for so many workers.
    pub fn new(rt: R, workers: usize) -> Self {
        OnThreads { rt, workers }
    }
}

/// Performs the calls of an owner without a lock on this thread, and starts none.
#[derive(Clone, Copy)]
pub struct ThisThread;

/// The reply to a call, or the call where no memory was found.
fn entered(done: Result<Reply, Stopped>) -> Result<Reply, Call>
    ensures { Came done result }
{
    match done {
        Ok(reply) => Ok(reply),
        Err(stopped) => match stopped.refusal.fault {
            Fault::NoMemory => Err(stopped.call),
            _ => Ok(Reply::Refused(stopped.refusal)),
        },
    }
}

/// The reply, without a call that was handed back.
fn without_call(performed: Result<Reply, Call>) -> Result<Reply, AllocError>
    ensures done { IfOk result (λ reply. performed ≡ Ok reply) }
    ensures stopped { OnErr result (IsErr performed) }
{
    match performed {
        Ok(reply) => Ok(reply),
        Err(_) => Err(AllocError),
    }
}

/// The queues of a frame of one command. An empty queue has room for it, so only memory can be wanting.
fn lone_queue(alloc: Global, command: Command) -> Result<Vec<Queue>, AllocError>
    ensures { IfOk result (λ queues. queues.items ≡ lone_frame command) }
{
    let mut queue = Queue::with_limit(alloc, 1);
    if queue.push(command).is_err() {
        return Err(AllocError);
    }
    let mut queues = Vec::with_capacity(alloc, 1)?;
    queues.push(queue)?;
    Ok(queues)
}

// The history under the lock keeps its calls, so the command has a queue.
impl<R: Threads + Wait + Sync> Performer<SharedOwner> for OnThreads<R> {
    type Runtime = R;

    fn perform(&self, alloc: Global, owner: &mut SharedOwner, call: Call) -> Result<Reply, Call> {
        entered(owner.perform(&self.rt, alloc, call, self.workers))
    }

    fn perform_one(
        &self,
        alloc: Global,
        owner: &mut SharedOwner,
        command: Command,
    ) -> Result<Reply, AllocError> {
        let call = Call::Submit(lone_queue(alloc, command)?);
        without_call(self.perform(alloc, owner, call))
    }

    fn undo(&self, alloc: Global, owner: &mut SharedOwner) -> Result<Reply, AllocError> {
        without_call(self.perform(alloc, owner, Call::Undo))
    }

    fn redo(&self, alloc: Global, owner: &mut SharedOwner) -> Result<Reply, AllocError> {
        without_call(self.perform(alloc, owner, Call::Redo))
    }

    fn ask<Q: EditorQuery>(&self, alloc: Global, owner: &mut SharedOwner, query: &Q) -> Q::Found {
        owner.ask(&self.rt, alloc, query)
    }
}

impl<R: Threads + Sync> Performer<LoneOwner> for OnThreads<R> {
    type Runtime = R;

    fn perform(&self, _alloc: Global, owner: &mut LoneOwner, call: Call) -> Result<Reply, Call> {
        entered(owner.perform_with(&self.rt, call, self.workers))
    }

    #[inline(always)]
    fn perform_one(
        &self,
        _alloc: Global,
        owner: &mut LoneOwner,
        command: Command,
    ) -> Result<Reply, AllocError> {
        owner.perform_one(command)
    }

    #[inline(always)]
    fn undo(&self, _alloc: Global, owner: &mut LoneOwner) -> Result<Reply, AllocError> {
        owner.undo()
    }

    #[inline(always)]
    fn redo(&self, _alloc: Global, owner: &mut LoneOwner) -> Result<Reply, AllocError> {
        owner.redo()
    }

    fn ask<Q: EditorQuery>(&self, alloc: Global, owner: &mut LoneOwner, query: &Q) -> Q::Found {
        owner.ask(alloc, query)
    }
}

impl Performer<LoneOwner> for ThisThread {
    type Runtime = ();

    fn perform(&self, _alloc: Global, owner: &mut LoneOwner, call: Call) -> Result<Reply, Call> {
        entered(owner.perform(call))
    }

    fn perform_one(
        &self,
        _alloc: Global,
        owner: &mut LoneOwner,
        command: Command,
    ) -> Result<Reply, AllocError> {
        owner.perform_one(command)
    }

    fn undo(&self, _alloc: Global, owner: &mut LoneOwner) -> Result<Reply, AllocError> {
        owner.undo()
    }

    fn redo(&self, _alloc: Global, owner: &mut LoneOwner) -> Result<Reply, AllocError> {
        owner.redo()
    }

    fn ask<Q: EditorQuery>(&self, alloc: Global, owner: &mut LoneOwner, query: &Q) -> Q::Found {
        owner.ask(alloc, query)
    }
}
