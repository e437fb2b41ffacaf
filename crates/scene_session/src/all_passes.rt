//! Calls and queries through one of all passes of a lock, which have one owner: no other call can have come between.
ghost use Rattle.std.specs.Prelude.{◌≡◌, ◌<◌, ◌≤◌, ◌++◌, ◌∷◌, [], List, All, vec_len, vec_capacity};
ghost use Rattle.scene_lock.specs.declared.knowledge.Step.{Step};
ghost use Rattle.scene_lock.specs.Pass.{IsPassOf};
ghost use Rattle.scene_session.specs.Calls.{queue_count};
ghost use Rattle.scene_session.specs.AllPasses.{AreAll, IsOnlyCall, passes_after};
ghost use Rattle.scene_session.specs.declared.entry.Entry.{Entry as Entered};

use crate::call::{Call, Reply, Stopped};
use crate::job::Job;
use crate::query::{Query, Question};
use crate::state::State;
use scene_lock::{Pass, WordLock};
use std::alloc::Global;
use std::sync::Wait;
use std::thread::Threads;

/// Performs a call through a pass, as `Session::submit` and its like do, where the other passes of the lock have the
/// same owner and have seen the same history: so the call is the only one (docs/SESSIONS.md, "What it has seen"). The
/// list comes back with the pass last, in the room that there must be for it. All of them have now seen one history,
/// the same or the same with this call.
///
/// Stopped, in this order, and then nothing is entered and the call is handed back: `HistoryFull` with the limit of the
/// history; `NoMemory`.
pub fn perform_with_all<R: Threads + Wait + Sync>(
    rt: &R,
    alloc: Global,
    lock: &WordLock<State>,
    pass: Pass<State>,
    others: Vec<Pass<State>>,
    call: Call,
    workers: usize,
) -> (Vec<Pass<State>>, Result<Reply, Stopped>)
    requires few { queue_count call ≤ 4294967295 }
    requires lock { IsPassOf lock.now pass × All (IsPassOf lock.now) others.items }
    requires together { All (λ q. q.seen ≡ pass.seen) others.items }
    requires all { AreAll lock.now.terms.passes (others.items ++ pass ∷ []) }
    requires room { vec_len others < vec_capacity others }
    ensures only { (history : List Entered) × (steps : List Step) × (result.0.items ≡ passes_after history steps others.items pass)
        × IsOnlyCall lock.now.terms.opening pass.session call pass.seen result.1 history }
    ensures each { All (IsPassOf lock.now) result.0.items }
    ensures room { vec_capacity result.0 ≡ vec_capacity others }
{
    let mut passes = others;
    let (pass, reply) = lock.write(rt, alloc, pass, Job { call, workers });
    passes.push_reserved(pass);
    let passes = lock.meet_all(passes);
    (passes, reply)
}

/// Asks a query through a pass, where the other passes of the lock have the same owner and have seen the same history:
/// the answer is of the state with just that history (docs/SESSIONS.md, "What it has seen"). The list comes back with
/// the pass last, in the room that there must be for it. It takes no memory but what the query takes.
pub fn ask_with_all<Q: Query, R: Wait>(
    rt: &R,
    alloc: Global,
    lock: &WordLock<State>,
    pass: Pass<State>,
    others: Vec<Pass<State>>,
    query: &Q,
) -> (Vec<Pass<State>>, Q::Answer)
    requires lock { IsPassOf lock.now pass × All (IsPassOf lock.now) others.items }
    requires together { All (λ q. q.seen ≡ pass.seen) others.items }
    requires all { AreAll lock.now.terms.passes (others.items ++ pass ∷ []) }
    requires room { vec_len others < vec_capacity others }
    ensures only { (steps : List Step) × (result.0.items ≡ passes_after pass.seen steps others.items pass) }
    ensures answer { Q.answers query.now (record { opening = lock.now.terms.opening; history = pass.seen }) result.1 }
    ensures each { All (IsPassOf lock.now) result.0.items }
    ensures room { vec_capacity result.0 ≡ vec_capacity others }
{
    let mut passes = others;
    let (pass, answer) = lock.read(rt, alloc, pass, &Question { query });
    passes.push_reserved(pass);
    let passes = lock.meet_all(passes);
    (passes, answer)
}
