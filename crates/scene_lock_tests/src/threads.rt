//! Many sessions at once.
ghost use Rattle.std.specs.Prelude.{◌≡◌, ◌+◌, All, IfOk, IfSome, vec_len};
ghost use Rattle.scene_lock.specs.Pass.{IsPassOf};

use crate::notes::{Notes, Write};
use scene_lock::{Pass, WordLock};
use std::alloc::{AllocError, Global};
use std::sync::Wait;
use std::thread::{Threads, map_vec};

/// The last pass of a list, if there is one.
pub fn take_last(lock: &WordLock<Notes>, passes: &mut Vec<Pass<Notes>>) -> Option<Pass<Notes>>
    requires { All (IsPassOf lock.now) passes.old.items }
    ensures last { IfSome result (IsPassOf lock.now) }
    ensures others { All (IsPassOf lock.now) passes.new.items }
    ensures fewer { IfSome result (λ p. vec_len passes.new + 1 ≡ vec_len passes.old) }
{
    passes.pop()
}

/// Writes the numbers from 0 up to `count`, through one pass.
pub fn enter_many<R: Threads + Wait + Sync>(
    rt: &R,
    alloc: Global,
    lock: &WordLock<Notes>,
    pass: Pass<Notes>,
    count: u64,
) -> Pass<Notes>
    requires { IsPassOf lock.now pass }
    ensures { IsPassOf lock.now result }
{
    let mut pass = pass;
    for number in 0..count {
        let (next, _) = lock.write(rt, alloc, pass, Write { number });
        pass = next;
    }
    pass
}

/// The same through each pass, in a thread for each.
pub fn enter_all<R: Threads + Wait + Sync>(
    rt: &R,
    alloc: Global,
    lock: &WordLock<Notes>,
    passes: Vec<Pass<Notes>>,
    count: u64,
) -> Result<Vec<Pass<Notes>>, AllocError>
    requires { All (IsPassOf lock.now) passes.items }
    ensures { IfOk result (λ v. All (IsPassOf lock.now) v.items) }
{
    map_vec(
        rt,
        passes,
        &|pass: Pass<Notes>| -> Pass<Notes>
            requires { IsPassOf lock.now pass }
            ensures { IsPassOf lock.entry.now result }
        { enter_many(rt, alloc, lock, pass, count) },
    )
}

/// The last pass, once it met the one before it, then the one before that, and so on. The others are dropped.
pub fn meet_in_chain(lock: &WordLock<Notes>, passes: Vec<Pass<Notes>>) -> Option<Pass<Notes>>
    requires { All (IsPassOf lock.now) passes.items }
    ensures { IfSome result (IsPassOf lock.now) }
{
    let mut passes = passes;
    let mut last = take_last(lock, &mut passes)?;
    while let Some(pass) = take_last(lock, &mut passes) {
        let (_, met) = lock.meet(last, pass);
        last = met;
    }
    Some(last)
}
