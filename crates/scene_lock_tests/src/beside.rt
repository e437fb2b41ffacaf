//! What one session gets while another is inside.
ghost use Rattle.std.specs.Prelude.{All, IfOk};
ghost use Rattle.scene_lock.specs.Pass.{IsPassOf};

use crate::inside::{Gate, Meeting, Stay, TURNS};
use crate::notes::{Count, Notes, Write};
use crate::threads::enter_many;
use scene_lock::{Pass, WordLock};
use std::alloc::{AllocError, Global};
use std::sync::Wait;
use std::thread::{Threads, join, map_vec};

/// Whether each of the looks, one through each pass, was inside together with all the others.
pub fn look_together<R: Threads + Wait + Sync>(
    rt: &R,
    alloc: Global,
    lock: &WordLock<Notes>,
    passes: Vec<Pass<Notes>>,
    inside: &Gate,
) -> Result<Vec<bool>, AllocError>
    requires { All (IsPassOf lock.now) passes.items }
{
    let wanted = passes.len() as u64;
    map_vec(
        rt,
        passes,
        &|pass: Pass<Notes>| -> bool
            requires { IsPassOf lock.now pass }
        { lock.read(rt, alloc, pass, &Meeting { inside, wanted }).1 },
    )
}

/// What two sessions got, of which the first held the state for a change.
#[derive(Drop)]
pub struct BesideChange {
    /// The answer to the one that changed.
    pub changed: Result<(), ()>,
    /// The answers to the other, which tried to read and to write meanwhile.
    pub count: Option<usize>,
    pub written: Result<Result<(), Write>, Write>,
}

/// Tries to read and to write while a change of another session is held within `write`.
pub fn try_beside_change<R: Threads + Wait + Sync>(
    rt: &R,
    alloc: Global,
    lock: &WordLock<Notes>,
    one: Pass<Notes>,
    other: Pass<Notes>,
) -> BesideChange
    requires { IsPassOf lock.now one × IsPassOf lock.now other }
{
    let inside = Gate::new();
    let let_go = Gate::new();
    let (changed, (count, written)) = join(
        rt,
        || -> Result<(), ()>
            requires { IsPassOf lock.now one }
        {
            let stay = Stay {
                inside: &inside,
                let_go: &let_go,
            };
            lock.write(rt, alloc, one, stay).1
        },
        || -> (Option<usize>, Result<Result<(), Write>, Write>)
            requires { IsPassOf lock.now other }
        {
            inside.wait_for(1);
            let (other, count) = lock.try_read(alloc, other, &Count);
            let (_, written) = lock.try_write(alloc, other, Write { number: 7 });
            let_go.raise();
            (count, written)
        },
    );
    BesideChange {
        changed,
        count,
        written,
    }
}

/// What two sessions got, of which the first stayed inside with a look.
#[derive(Drop)]
pub struct BesideLook {
    /// Whether the look stayed until it was let go.
    pub stayed: bool,
    /// The answers to the other, which tried to write meanwhile, and then to read.
    pub written: Result<Result<(), Write>, Write>,
    pub count: Option<usize>,
}

/// Tries to write, and then to read, while a look of another session stays inside.
pub fn try_beside_look<R: Threads + Wait + Sync>(
    rt: &R,
    alloc: Global,
    lock: &WordLock<Notes>,
    looker: Pass<Notes>,
    other: Pass<Notes>,
) -> BesideLook
    requires { IsPassOf lock.now looker × IsPassOf lock.now other }
{
    let inside = Gate::new();
    let let_go = Gate::new();
    let (stayed, (written, count)) = join(
        rt,
        || -> bool
            requires { IsPassOf lock.now looker }
        {
            let stay = Stay {
                inside: &inside,
                let_go: &let_go,
            };
            lock.read(rt, alloc, looker, &stay).1
        },
        || -> (Result<Result<(), Write>, Write>, Option<usize>)
            requires { IsPassOf lock.now other }
        {
            inside.wait_for(1);
            let (other, written) = lock.try_write(alloc, other, Write { number: 7 });
            let (_, count) = lock.try_read(alloc, other, &Count);
            let_go.raise();
            (written, count)
        },
    );
    BesideLook {
        stayed,
        written,
        count,
    }
}

/// Whether some look finds no way in, and from then on none of ten thousand does.
pub fn is_shut_out(alloc: Global, lock: &WordLock<Notes>, pass: Pass<Notes>) -> bool
    requires { IsPassOf lock.now pass }
{
    let mut pass = pass;
    let mut refused = 0u32;
    for _ in 0..TURNS {
        let (next, count) = lock.try_read(alloc, pass, &Count);
        pass = next;
        if count.is_none() {
            refused = refused.saturating_add(1);
        } else if refused > 0 {
            return false;
        }
        if refused >= 10_000 {
            return true;
        }
    }
    false
}

/// A write waits for a look that stays inside. Answers whether new looks found no way in meanwhile, and what the look and the
/// write got.
pub fn look_beside_wanting_write<R: Threads + Wait + Sync>(
    rt: &R,
    alloc: Global,
    lock: &WordLock<Notes>,
    looker: Pass<Notes>,
    writer: Pass<Notes>,
    other: Pass<Notes>,
) -> (bool, bool, Result<(), Write>)
    requires { IsPassOf lock.now looker × IsPassOf lock.now writer × IsPassOf lock.now other }
{
    let inside = Gate::new();
    let let_go = Gate::new();
    let (stayed, (written, shut_out)) = join(
        rt,
        || -> bool
            requires { IsPassOf lock.now looker }
        {
            let stay = Stay {
                inside: &inside,
                let_go: &let_go,
            };
            lock.read(rt, alloc, looker, &stay).1
        },
        || -> (Result<(), Write>, bool)
            requires { IsPassOf lock.now writer × IsPassOf lock.now other }
        {
            inside.wait_for(1);
            write_beside(rt, alloc, lock, writer, other, &let_go)
        },
    );
    (shut_out, stayed, written)
}

/// Writes, while another session finds out whether it is shut out, and then raises the gate.
fn write_beside<R: Threads + Wait + Sync>(
    rt: &R,
    alloc: Global,
    lock: &WordLock<Notes>,
    writer: Pass<Notes>,
    other: Pass<Notes>,
    let_go: &Gate,
) -> (Result<(), Write>, bool)
    requires { IsPassOf lock.now writer × IsPassOf lock.now other }
{
    join(
        rt,
        || -> Result<(), Write>
            requires { IsPassOf lock.now writer }
        { lock.write(rt, alloc, writer, Write { number: 1 }).1 },
        || -> bool
            requires { IsPassOf lock.now other }
        {
            let shut_out = is_shut_out(alloc, lock, other);
            let_go.raise();
            shut_out
        },
    )
}

/// Reads without a pause until the gate is raised. Answers whether it was.
pub fn read_until<R: Wait>(
    rt: &R,
    alloc: Global,
    lock: &WordLock<Notes>,
    pass: Pass<Notes>,
    done: &Gate,
) -> bool
    requires { IsPassOf lock.now pass }
{
    let mut pass = pass;
    for _ in 0..TURNS {
        let (next, _) = lock.read(rt, alloc, pass, &Count);
        pass = next;
        if done.is_at(1) {
            return true;
        }
    }
    false
}

/// Session 0 writes so often while all others read without a pause. Answers of each session whether the writing came to its end.
pub fn write_among_readers<R: Threads + Wait + Sync>(
    rt: &R,
    alloc: Global,
    lock: &WordLock<Notes>,
    passes: Vec<Pass<Notes>>,
    count: u64,
) -> Result<Vec<bool>, AllocError>
    requires { All (IsPassOf lock.now) passes.items }
{
    let done = Gate::new();
    map_vec(
        rt,
        passes,
        &|pass: Pass<Notes>| -> bool
            requires { IsPassOf lock.now pass }
        {
            if pass.session() != 0 {
                return read_until(rt, alloc, lock, pass, &done);
            }
            enter_many(rt, alloc, lock, pass, count);
            done.raise();
            true
        },
    )
}
