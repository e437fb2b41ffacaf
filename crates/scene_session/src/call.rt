//! Calls, and what they come to.
ghost use Rattle.std.specs.Prelude.{◌≡◌};
ghost use Rattle.scene_session.specs.Calls.{asked};

use scene_kinds::{Entity, Refusal};
use scene_queue::Queue;
use scene_schedule::Schedule;

/// What a session asks of the state (docs/SESSIONS.md, "What a session promises").
#[derive(Drop, Debug)]
pub enum Call {
    /// A frame of these queues, of which there are at most 4,294,967,295 (docs/MODEL.md, "The rule of frames").
    Submit(Vec<Queue>),
    /// A frame of the systems of this schedule (docs/MODEL.md, "The rule of schedules").
    Advance(Schedule),
    /// The newest frame is taken back.
    Undo,
    /// The newest undone frame is done again.
    Redo,
}

/// Gives back the memory that queues have beyond what their commands need.
fn shrink_each(queues: &mut [Queue])
    ensures { queues.new ≡ queues.old }
{
    for queue in queues.iter_mut() {
        queue.shrink_to_fit();
    }
}

impl Call {
    /// The same call, whose lists take no more memory than their items need, since a history keeps it.
    pub(crate) fn shrunk(self) -> Call
        ensures { asked result ≡ asked self }
    {
        match self {
            Call::Submit(mut queues) => {
                shrink_each(queues.as_mut_slice());
                queues.shrink_to_fit();
                Call::Submit(queues)
            }
            other => other,
        }
    }
}

/// What a call that was entered came to (docs/SESSIONS.md, "What a session promises").
#[derive(Drop, Debug)]
pub enum Reply {
    /// The frame was accepted, and spawned these entities, in order.
    Done(Vec<Entity>),
    /// The newest frame was taken back.
    Undone,
    /// The newest undone frame was done again.
    Redone,
    /// The editor refused the call and is as it was. That is an answer, and is entered as one.
    Refused(Refusal),
}

/// A call that wasn't entered, handed back, and why: `HistoryFull`, `NoMemory`, or `Busy` (docs/SESSIONS.md, "History"
/// and "Busy").
#[derive(Drop, Debug)]
pub struct Stopped {
    pub refusal: Refusal,
    pub call: Call,
}
