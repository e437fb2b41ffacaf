//! The workers at once, each on a thread of its own.
ghost use Rattle.std.specs.Prelude.{◌≡◌, ◌+◌, All, IfOk, IfSome, vec_len};
ghost use Rattle.scene_editor.specs.Passes.{IsPassOf};

use crate::error::SharedError;
use crate::worker::Worker;
use scene_editor::{Pass, Session, State, WordLock};
use std::alloc::Global;
use std::sync::Wait;
use std::thread::{Threads, map_vec};

/// The last pass of a list, if there is one.
pub fn take_last(lock: &WordLock<State>, passes: &mut Vec<Pass<State>>) -> Option<Pass<State>>
    requires { All (IsPassOf lock.now) passes.old.items }
    ensures last { IfSome result (IsPassOf lock.now) }
    ensures others { All (IsPassOf lock.now) passes.new.items }
    ensures fewer { IfSome result (λ p. vec_len passes.new + 1 ≡ vec_len passes.old) }
{
    passes.pop()
}

/// The worker of a pass does its work through it.
fn work_through<R: Threads + Wait + Sync>(
    rt: &R,
    alloc: Global,
    lock: &WordLock<State>,
    pass: Pass<State>,
) -> Result<Pass<State>, SharedError>
    requires { IsPassOf lock.now pass }
    ensures { IfOk result (IsPassOf lock.now) }
{
    let worker = Worker::of_session(pass.session());
    let session = worker.work(rt, alloc, Session::new(lock, pass))?;
    Ok(session.into_pass())
}

/// The passes of those who did their work, in the opposite order, or why one didn't.
fn passes_of(
    alloc: Global,
    lock: &WordLock<State>,
    outcomes: Vec<Result<Pass<State>, SharedError>>,
) -> Result<Vec<Pass<State>>, SharedError>
    requires { All (λ outcome. IfOk outcome (IsPassOf lock.now)) outcomes.items }
    ensures { IfOk result (λ passes. All (IsPassOf lock.now) passes.items) }
{
    let mut outcomes = outcomes;
    let mut passes = Vec::new(alloc);
    while let Some(outcome) = outcomes.pop() {
        passes.push(outcome?)?;
    }
    Ok(passes)
}

/// All workers do their work at once, each through its pass, on a thread of its own. The passes come back in the
/// opposite order.
pub fn work_at_once<R: Threads + Wait + Sync>(
    rt: &R,
    alloc: Global,
    lock: &WordLock<State>,
    passes: Vec<Pass<State>>,
) -> Result<Vec<Pass<State>>, SharedError>
    requires { All (IsPassOf lock.now) passes.items }
    ensures { IfOk result (λ passes. All (IsPassOf lock.now) passes.items) }
{
    let outcomes = map_vec(
        rt,
        passes,
        &|pass: Pass<State>| -> Result<Pass<State>, SharedError>
            requires { IsPassOf lock.now pass }
            ensures { IfOk result (IsPassOf lock.entry.now) }
        { work_through(rt, alloc, lock, pass) },
    )?;
    passes_of(alloc, lock, outcomes)
}
