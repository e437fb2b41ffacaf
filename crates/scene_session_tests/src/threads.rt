//! Many sessions at once.
ghost use Rattle.std.specs.Prelude.{◌≡◌, All, IfOk, IfSome, vec_len};
ghost use Rattle.scene_lock.specs.Pass.{IsPassOf};
ghost use Rattle.scene_session.specs.Session.{IsSame};

use crate::frames::{ALL, counting_schedule, spawning};
use scene_kinds::{Entity, Row};
use scene_lock::{Pass, WordLock};
use scene_session::{Reply, RowsOf, Session, State, Stopped};
use std::alloc::{AllocError, Global};
use std::sync::Wait;
use std::thread::{Threads, map_vec};

/// Whether an entity has one of these rows.
fn has_row(rows: &[Row], entity: Entity) -> bool {
    for row in rows {
        if row.entity == entity {
            return true;
        }
    }
    false
}

/// Whether a frame was accepted, and the first entity that it spawned has one of the rows that were answered.
fn is_listed(reply: &Result<Reply, Stopped>, answer: &Result<Vec<Row>, AllocError>) -> bool {
    match (reply, answer) {
        (Ok(Reply::Done(spawned)), Ok(rows)) => match spawned.first() {
            Some(entity) => has_row(rows.as_slice(), *entity),
            None => false,
        },
        _ => false,
    }
}

/// Submits a frame that spawns an entity with a number, and asks for all rows. Whether the entity is among them.
pub fn submit_one<'a, R: Threads + Wait + Sync>(
    rt: &R,
    alloc: Global,
    session: Session<'a>,
    number: i64,
) -> (Session<'a>, bool)
    ensures { IsSame session.entry result.0 }
{
    let Ok(queues) = spawning(alloc, number) else {
        return (session, false);
    };
    let (session, reply) = session.submit(rt, alloc, queues);
    let (session, answer) = session.ask(rt, alloc, &RowsOf(ALL));
    (session, is_listed(&reply, &answer))
}

/// An undo, a redo and an advance, whatever they come to beside other sessions.
fn turn<'a, R: Threads + Wait + Sync>(rt: &R, alloc: Global, session: Session<'a>) -> Session<'a>
    ensures { IsSame session.entry result }
{
    let Ok(schedule) = counting_schedule(alloc) else {
        return session;
    };
    let (session, _) = session.undo(rt, alloc);
    let (session, _) = session.redo(rt, alloc);
    let (session, _) = session.advance(rt, alloc, schedule, 2);
    session
}

/// What each session does.
#[derive(Clone, Copy)]
pub struct Work {
    /// How many frames it submits. The first spawns an entity with the number 0, the next one with 1, and so on.
    pub frames: i64,
    /// Whether an undo, a redo and an advance come after each.
    pub turns: bool,
}

/// Does the work through one pass. Whether each entity was listed.
pub fn work_through<R: Threads + Wait + Sync>(
    rt: &R,
    alloc: Global,
    lock: &WordLock<State>,
    pass: Pass<State>,
    work: Work,
) -> (Pass<State>, bool)
    requires { IsPassOf lock.now pass }
    ensures { IsPassOf lock.now result.0 }
{
    let mut session = Session::new(lock, pass);
    let mut listed = true;
    for number in 0..work.frames {
        let (next, is) = submit_one(rt, alloc, session, number);
        session = if work.turns {
            turn(rt, alloc, next)
        } else {
            next
        };
        listed = listed && is;
    }
    (session.into_pass(), listed)
}

/// The same through each pass, in a thread for each.
pub fn work_at_once<R: Threads + Wait + Sync>(
    rt: &R,
    alloc: Global,
    lock: &WordLock<State>,
    passes: Vec<Pass<State>>,
    work: Work,
) -> Result<Vec<(Pass<State>, bool)>, AllocError>
    requires { All (IsPassOf lock.now) passes.items }
    ensures { IfOk result (λ v. All (λ p. IsPassOf lock.now p.0) v.items) }
{
    map_vec(
        rt,
        passes,
        &|pass: Pass<State>| -> (Pass<State>, bool)
            requires { IsPassOf lock.now pass }
            ensures { IsPassOf lock.entry.now result.0 }
        { work_through(rt, alloc, lock, pass, work) },
    )
}

/// The last pass, once the first met the second, that one the third, and so on; and whether all entities were listed.
/// The other passes are dropped.
pub fn meet_in_turn(
    lock: &WordLock<State>,
    ended: Vec<(Pass<State>, bool)>,
) -> Option<(Pass<State>, bool)>
    requires { All (λ p. IsPassOf lock.now p.0) ended.items }
    ensures { IfSome result (λ p. IsPassOf lock.now p.0) }
{
    let mut before = ended;
    let (last, listed) = before.pop()?;
    match meet_in_turn(lock, before) {
        Some((met, all)) => {
            let (_, last) = lock.meet(met, last);
            Some((last, listed && all))
        }
        None => Some((last, listed)),
    }
}
