//! A run of which what it prints, its bad lines and an editor without a lock are left.
ghost use Rattle.std.specs.Prelude.{◌≡◌, ◌≤◌, length, take, string_bytes, IfOk, IfErr};
ghost use Rattle.scene_streams.specs.Read.{IsRead};
ghost use Rattle.scene_streams.specs.Source.{reader_of};
ghost use Rattle.scene_streams.specs.Written.{IsWritten};
ghost use Rattle.scene_streams.specs.Limits.{most_bytes};
ghost use Rattle.scene_interpreter.specs.Printed.{bad_lines, output, owner_after};
ghost use Rattle.scene_app.specs.Alone.{IsAloneEndOf};
ghost use Rattle.scene_streams.specs.declared.app_fault.AppFault.TheVariants.{NoMemory, ReadFault, WriteFault, TooLong};

use crate::play::play_script;
use scene_interpreter::BadLineReport;
use scene_session::{LoneOwner, OnThreads, Performer};
use scene_streams::{AppFault, Sink, Source};
use std::alloc::Global;
use std::io::{Read, Write};
use std::sync::Wait;
use std::thread::Threads;

/// The bad lines of a script.
#[derive(Drop)]
pub struct BadLines {
    /// How many there are.
    pub count: u32,
    /// The first ten of them, each with its number and its first mistake.
    pub first: Vec<BadLineReport>,
}

/// How a run without a lock ended.
#[derive(Drop)]
pub struct AloneEnd {
    /// The bad lines of the script.
    pub bad: BadLines,
    /// The sessions as the script leaves them, with their editor. To drop it takes the scene apart, at the cost of all
    /// that it holds; a process that ends can leave it.
    pub owner: LoneOwner,
}

/// What a script's bytes print, its bad lines, and what it leaves.
#[tactic(auto, using(crate::proofs::ReportLaws::noted_all))]
fn played_alone<P: Performer<LoneOwner>>(
    performer: &P,
    alloc: Global,
    script: &[u8],
) -> Result<(String, AloneEnd), AppFault>
    requires { length script.now ≤ most_bytes }
    ensures printed { IfOk result (λ p. string_bytes p.0 ≡ output script.now) }
    ensures count { IfOk result (λ p. p.1.bad.count ≡ length (bad_lines script.now)) }
    ensures first { IfOk result (λ p. p.1.bad.first.items ≡ take 10 (bad_lines script.now)) }
    ensures owner { IfOk result (λ p. p.1.owner ≡ owner_after script.now) }
    ensures memory { IfErr result (λ f. f ≡ NoMemory) }
{
    let mut out = String::new(alloc);
    let (owner, reports): (LoneOwner, _) = play_script(performer, alloc, script, &mut out)?;
    let bad = BadLines {
        count: reports.count() as u32,
        first: reports.into_first(),
    };
    Ok((out, AloneEnd { bad, owner }))
}

/// Reads a script to its end, plays it, and writes what it prints, as `run_script` does, for who shares the state with
/// no other thread: its calls are counted and not kept, and no lock stands between.
///
/// Refused as `run_script` refuses. It costs what that costs, without the memory of the calls.
#[tactic(auto, using(scene_streams::proofs::Writes::none_written))]
pub fn run_alone<T: Threads + Wait + Sync, R: Read, W: Write>(
    rt: &T,
    alloc: Global,
    workers: usize,
    source: &mut Source<R>,
    sink: &mut Sink<W>,
) -> Result<AloneEnd, AppFault>
    ensures ends { IfOk result (IsAloneEndOf (R.remaining (reader_of source.old))) }
    ensures read { IsRead R.remaining source.old source.new result ReadFault TooLong }
    ensures written { IsWritten output (R.remaining (reader_of source.old)) W.contents sink.old sink.new result WriteFault }
{
    let script = source.read_all(alloc)?;
    let performer = OnThreads::new(rt, workers);
    let (out, end) = played_alone(&performer, alloc, script.as_slice())?;
    sink.write_all(out.as_bytes())?;
    Ok(end)
}
