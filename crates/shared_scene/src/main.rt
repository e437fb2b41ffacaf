//! Three threads work in one garden at once: a tool places lamps and takes a change back, an importer plants trees, and
//! a simulation lets fountains pour. Each has a session of its own (docs/SESSIONS.md). Then the sessions meet, and the
//! program prints what each has seen, and what the garden has in the end.
//!
//! The threads come to their turns in any order, so whose change is taken back isn't known. But every change spawns as
//! many things, so what is printed is the same in whatever order.
#![tactic(auto)]

mod error;
mod garden;
mod seen;
mod threads;
mod worker;

ghost use Rattle.std.specs.Prelude.{◌≡◌, [], All, IfOk, IfSome};
ghost use Rattle.scene_editor.specs.Passes.{IsPassOf};
ghost use Rattle.scene_editor.specs.State.{IsLegal};

use crate::error::SharedError;
use crate::seen::{EntriesNow, Seen, entries_seen};
use crate::threads::{take_last, work_at_once};
use crate::worker::Worker;
use anyhow::Result;
use scene_editor::{Filter, Pass, Session, State, WordLock, matching};
use std::alloc::Global;
use std::io;
use std::sync::Wait;
use std::thread::Threads;

/// Prints the calls of a session, in their order.
fn show_calls(rt: &impl Print, worker: Worker, entries: &[Seen]) -> io::Result<()> {
    print!(rt; "  {}:", worker.name())?;
    for entry in entries {
        if entry.session == worker.session() {
            print!(rt; " {}", entry.kind.name())?;
        }
    }
    println!(rt; "")
}

/// Prints which entries there are, by session.
fn show_entries(rt: &impl Print, entries: &[Seen]) -> io::Result<()> {
    println!(rt; "{} entries", entries.len())?;
    for worker in Worker::ALL {
        show_calls(rt, worker, entries)?;
    }
    Ok(())
}

/// Prints what a session has seen.
fn show_seen<R: Print + Wait>(
    rt: &R,
    alloc: Global,
    lock: &WordLock<State>,
    pass: Pass<State>,
) -> Result<Pass<State>>
    requires { IsPassOf lock.now pass }
    ensures { IfOk result (IsPassOf lock.now) }
{
    let worker = Worker::of_session(pass.session());
    let (session, entries) = Session::new(lock, pass).ask(rt, alloc, &EntriesNow);
    print!(rt; "{} has seen ", worker.name())?;
    show_entries(rt, entries?.as_slice())?;
    Ok(session.into_pass())
}

/// Prints what each session has seen, that of the last pass first. Gives the first pass, if there is one.
fn show_all_seen<R: Print + Wait>(
    rt: &R,
    alloc: Global,
    lock: &WordLock<State>,
    passes: Vec<Pass<State>>,
) -> Result<Option<Pass<State>>>
    requires { All (IsPassOf lock.now) passes.items }
    ensures { IfOk result (λ pass. IfSome pass (IsPassOf lock.now)) }
{
    let mut passes = passes;
    let mut shown = None;
    while let Some(pass) = take_last(lock, &mut passes) {
        shown = Some(show_seen(rt, alloc, lock, pass)?);
    }
    Ok(shown)
}

/// Prints what the garden has.
fn show_garden(rt: &impl Print, alloc: Global, state: &State) -> Result<()> {
    let editor = state.editor();
    let things = matching(alloc, editor.world(), Filter::all())?;
    print!(rt; "the garden was made by ")?;
    show_entries(rt, entries_seen(alloc, state.history())?.as_slice())?;
    let (tick, frames) = (editor.world().tick(), editor.undo_len());
    println!(rt;
        "it has {} things at tick {tick}, and {frames} frames to undo",
        things.len()
    )?;
    Ok(())
}

/// All workers do their work on a state at once, then meet and tell what they have seen. Gives the state.
fn share<R: Print + Threads + Wait + Sync>(rt: &R, alloc: Global, state: State) -> Result<State>
    requires legal { IsLegal state.opening state.history }
    requires empty { state.history ≡ [] }
{
    let (lock, passes) = WordLock::new(alloc, state, 3)?;
    let passes = work_at_once(rt, alloc, &lock, passes)?;
    let passes = lock.meet_all(passes);
    let pass = show_all_seen(rt, alloc, &lock, passes)?.ok_or(SharedError::Inside)?;
    Ok(lock.finish(pass).ok_or(SharedError::Inside)?)
}

fn main(rt: HostRuntime) -> Result<()> {
    let alloc = rt.alloc();
    let state = share(&rt, alloc, garden::open(alloc)?)?;
    show_garden(&rt, alloc, &state)
}
