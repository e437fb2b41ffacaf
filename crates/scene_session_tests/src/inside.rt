//! Queries and changes that wait within the lock, for a bounded number of turns, and what other sessions get meanwhile.
ghost use Rattle.std.specs.Prelude.{All};
ghost use Rattle.scene_lock.specs.Pass.{IsPassOf};

use crate::frames::{number_of, spawning};
use scene_kinds::Fault;
use scene_lock::{Change, Pass, WordLock};
use scene_lock_tests::Gate;
use scene_session::{Call, CursorNow, Query, Reply, Session, State, Stopped};
use std::alloc::{AllocError, Global};
use std::sync::Wait;
use std::thread::{Threads, map_vec};

/// A query that waits until so many are inside. Its answer is whether they came.
#[derive(Drop)]
pub struct Meeting {
    pub inside: Gate,
    pub wanted: u64,
}

impl Query for Meeting {
    type Answer = bool;

    ghost answers = { λ q s came. Unit {0} };

    fn answer(&self, _alloc: Global, _state: &State) -> bool {
        self.inside.raise();
        self.inside.wait_for(self.wanted)
    }
}

/// Asks the query through each pass, in a thread for each.
pub fn ask_together<R: Threads + Wait + Sync>(
    rt: &R,
    alloc: Global,
    lock: &WordLock<State>,
    passes: Vec<Pass<State>>,
    meeting: &Meeting,
) -> Result<Vec<bool>, AllocError>
    requires { All (IsPassOf lock.now) passes.items }
{
    map_vec(
        rt,
        passes,
        &|pass: Pass<State>| -> bool
            requires { IsPassOf lock.now pass }
        { Session::new(lock, pass).ask(rt, alloc, meeting).1 },
    )
}

/// A way to say that one is inside, and to stay there until one is let go. A query of it answers whether it was.
#[derive(Drop)]
pub struct Stay {
    pub inside: Gate,
    pub let_go: Gate,
    /// Whether it is to be a change in place of a query.
    pub changes: bool,
}

impl Stay {
    pub fn new(changes: bool) -> Stay {
        Stay {
            inside: Gate::new(),
            let_go: Gate::new(),
            changes,
        }
    }

    fn stays(&self) -> bool {
        self.inside.raise();
        self.let_go.wait_for(1)
    }
}

impl Query for Stay {
    type Answer = bool;

    ghost answers = { λ q s stayed. Unit {0} };

    fn answer(&self, _alloc: Global, _state: &State) -> bool {
        self.stays()
    }
}

/// A change that stays, and then undoes. Its answer is whether it was let go.
#[derive(Drop)]
struct Staying<'a> {
    stay: &'a Stay,
}

impl<'a> Change<State> for Staying<'a> {
    type Done = bool;

    type Stopped = Stopped;

    ghost enters = { λ job session done e. Unit {0} };

    ghost stops = { λ job state x. Unit {0} };

    fn change(self, _alloc: Global, state: &mut State, session: u32) -> Result<bool, Stopped> {
        let stayed = self.stay.stays();
        match state.perform(session, Call::Undo) {
            Ok(_) => Ok(stayed),
            Err(stopped) => Err(stopped),
        }
    }
}

/// Whether it stayed inside until it was let go.
fn stay_inside<R: Threads + Wait + Sync>(
    rt: &R,
    alloc: Global,
    lock: &WordLock<State>,
    pass: Pass<State>,
    stay: &Stay,
) -> bool
    requires { IsPassOf lock.now pass }
{
    if stay.changes {
        let (_, stayed) = lock.write(rt, alloc, pass, Staying { stay });
        matches!(stayed, Ok(true))
    } else {
        Session::new(lock, pass).ask(rt, alloc, stay).1
    }
}

/// Whether a frame was turned away as busy, and came back.
fn is_frame_back(reply: &Result<Reply, Stopped>, number: i64) -> bool {
    match reply {
        Err(stopped) => {
            stopped.refusal.fault == Fault::Busy && number_of(&stopped.call) == Some(number)
        }
        Ok(_) => false,
    }
}

/// Whether an undo was turned away as busy, and came back.
fn is_undo_back(reply: &Result<Reply, Stopped>) -> bool {
    match reply {
        Err(stopped) => {
            stopped.refusal.fault == Fault::Busy && matches!(stopped.call, Call::Undo)
        }
        Ok(_) => false,
    }
}

/// Tries a frame, an undo and a query. Whether the two calls were turned away as busy, and whether the query was
/// answered.
fn try_each<'a>(alloc: Global, session: Session<'a>) -> (bool, bool) {
    let Ok(queues) = spawning(alloc, 7) else {
        return (false, false);
    };
    let (session, submitted) = session.try_submit(alloc, queues);
    let (session, undone) = session.try_undo(alloc);
    let (_, answer) = session.try_ask(alloc, &CursorNow);
    (
        is_frame_back(&submitted, 7) && is_undo_back(&undone),
        answer.is_some(),
    )
}

/// Tries while another stays inside. Whether the calls were busy, and the query was answered just where the other is a
/// query.
fn try_meanwhile(alloc: Global, lock: &WordLock<State>, pass: Pass<State>, stay: &Stay) -> bool
    requires { IsPassOf lock.now pass }
{
    let came = stay.inside.wait_for(1);
    let (busy, answered) = try_each(alloc, Session::new(lock, pass));
    stay.let_go.raise();
    came && busy && answered != stay.changes
}

/// Session 0 stays inside while each other tries to get in. Of each session whether it got what it should.
pub fn try_beside<R: Threads + Wait + Sync>(
    rt: &R,
    alloc: Global,
    lock: &WordLock<State>,
    passes: Vec<Pass<State>>,
    stay: &Stay,
) -> Result<Vec<bool>, AllocError>
    requires { All (IsPassOf lock.now) passes.items }
{
    map_vec(
        rt,
        passes,
        &|pass: Pass<State>| -> bool
            requires { IsPassOf lock.now pass }
        {
            if pass.session() == 0 {
                stay_inside(rt, alloc, lock, pass, stay)
            } else {
                try_meanwhile(alloc, lock, pass, stay)
            }
        },
    )
}
