//! Who works in the garden, each in a session of its own.
ghost use Rattle.std.specs.Prelude.{◌≡◌, IfOk, IsOk, OnOk};
ghost use Rattle.scene_editor.specs.Passes.{IsPassOf};
ghost use Rattle.shared_scene.specs.Work.{HasEntered, call_count};

use crate::error::SharedError;
use crate::garden::{Things, pouring};
use scene_editor::{Pass, Reply, Session, State, Stopped, WordLock};
use std::alloc::Global;
use std::sync::Wait;
use std::thread::Threads;

/// How many frames of lamps the tool submits.
const LAMP_FRAMES: u32 = 3;

/// How many frames of trees the importer submits.
const TREE_FRAMES: u32 = 4;

/// How often the simulation advances.
const ADVANCES: u32 = 5;

/// On how many threads the fountains pour.
const THREADS: usize = 2;

/// Whose session it is, by what its thread does.
#[derive(Clone, Copy, PartialEq, Eq, Debug)]
pub enum Worker {
    /// It places lamps, and takes the newest change back, whoever made it.
    Tool,
    /// It plants trees.
    Importer,
    /// It lets the fountains pour.
    Simulation,
}

/// Nothing, where a call was entered and accepted, or why it wasn't.
fn accepted(reply: Result<Reply, Stopped>) -> Result<(), SharedError>
    ensures { OnOk result (IsOk reply) }
{
    match reply {
        Ok(Reply::Refused(refusal)) => Err(SharedError::Refused(refusal)),
        Ok(_) => Ok(()),
        Err(stopped) => Err(SharedError::Stopped(stopped.refusal)),
    }
}

/// Submits a frame of things.
fn submit<'a, R: Threads + Wait + Sync>(
    rt: &R,
    alloc: Global,
    session: Session<'a>,
    things: Things,
) -> Result<Session<'a>, SharedError>
    ensures { IfOk result (HasEntered 1 session.entry) }
{
    let queues = things.frame(alloc)?;
    let (session, reply) = session.submit(rt, alloc, queues);
    accepted(reply)?;
    Ok(session)
}

/// Submits so many such frames.
fn submit_many<'a, R: Threads + Wait + Sync>(
    rt: &R,
    alloc: Global,
    session: Session<'a>,
    things: Things,
    frames: u32,
) -> Result<Session<'a>, SharedError>
    ensures { IfOk result (HasEntered frames session.entry) }
{
    let mut session = session;
    for done in 0..frames {
        session = submit(rt, alloc, session, things)?;
    }
    Ok(session)
}

/// Takes the newest frame back.
fn undo<'a, R: Threads + Wait + Sync>(
    rt: &R,
    alloc: Global,
    session: Session<'a>,
) -> Result<Session<'a>, SharedError>
    ensures { IfOk result (HasEntered 1 session.entry) }
{
    let (session, reply) = session.undo(rt, alloc);
    accepted(reply)?;
    Ok(session)
}

/// Lets the fountains pour once.
fn advance<'a, R: Threads + Wait + Sync>(
    rt: &R,
    alloc: Global,
    session: Session<'a>,
) -> Result<Session<'a>, SharedError>
    ensures { IfOk result (HasEntered 1 session.entry) }
{
    let schedule = pouring(alloc)?;
    let (session, reply) = session.advance(rt, alloc, schedule, THREADS);
    accepted(reply)?;
    Ok(session)
}

/// Lets the fountains pour so many times.
fn advance_many<'a, R: Threads + Wait + Sync>(
    rt: &R,
    alloc: Global,
    session: Session<'a>,
    times: u32,
) -> Result<Session<'a>, SharedError>
    ensures { IfOk result (HasEntered times session.entry) }
{
    let mut session = session;
    for done in 0..times {
        session = advance(rt, alloc, session)?;
    }
    Ok(session)
}

impl Worker {
    /// All of them, by the numbers of their sessions.
    pub const ALL: [Worker; 3] = [Worker::Tool, Worker::Importer, Worker::Simulation];

    /// Whose the session of this number is.
    pub fn of_session(session: u32) -> Worker {
        match session {
            0 => Worker::Tool,
            1 => Worker::Importer,
            _ => Worker::Simulation,
        }
    }

    /// The number of the session.
    pub fn session(self) -> u32 {
        match self {
            Worker::Tool => 0,
            Worker::Importer => 1,
            Worker::Simulation => 2,
        }
    }

    /// The word for it.
    pub fn name(self) -> &'static str {
        match self {
            Worker::Tool => "tool",
            Worker::Importer => "importer",
            Worker::Simulation => "simulation",
        }
    }

    /// Does the work in its session.
    pub fn work<'a, R: Threads + Wait + Sync>(
        self,
        rt: &R,
        alloc: Global,
        session: Session<'a>,
    ) -> Result<Session<'a>, SharedError>
        ensures { IfOk result (HasEntered (call_count self) session.entry) }
    {
        match self {
            Worker::Tool => {
                let session = submit_many(rt, alloc, session, Things::Lamps, LAMP_FRAMES)?;
                undo(rt, alloc, session)
            }
            Worker::Importer => submit_many(rt, alloc, session, Things::Trees, TREE_FRAMES),
            Worker::Simulation => advance_many(rt, alloc, session, ADVANCES),
        }
    }
}
