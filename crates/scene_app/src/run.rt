//! A run: a script is read, played, and what it prints is written.
ghost use Rattle.std.specs.Prelude.{◌≡◌, ◌≤◌, length, take, string_bytes, IfOk, IfErr};
ghost use Rattle.scene_session.specs.Passes.{AreOf};
ghost use Rattle.scene_streams.specs.Read.{IsRead};
ghost use Rattle.scene_streams.specs.Source.{reader_of};
ghost use Rattle.scene_streams.specs.Written.{IsWritten};
ghost use Rattle.scene_streams.specs.Limits.{most_bytes};
ghost use Rattle.scene_interpreter.specs.Printed.{bad_lines, output, owner_after};
ghost use Rattle.scene_app.specs.Run.{IsEndOf};
ghost use Rattle.scene_streams.specs.declared.app_fault.AppFault.TheVariants.{NoMemory, ReadFault, WriteFault, TooLong};

use crate::play::play_script;
use scene_interpreter::BadLineReport;
use scene_lock::{Pass, WordLock};
use scene_session::{OnThreads, Performer, SharedOwner, State};
use scene_streams::{AppFault, Sink, Source};
use std::alloc::Global;
use std::io::{Read, Write};
use std::sync::Wait;
use std::thread::Threads;

/// How a run ended.
#[derive(Drop)]
pub struct RunEnd {
    /// How many lines of the script were bad.
    pub bad_lines: u32,
    /// The first ten of them, each with its number and its first mistake.
    pub reports: Vec<BadLineReport>,
    /// The lock over the state that the script leaves.
    pub lock: WordLock<State>,
    /// The passes of its eight sessions, 0 first. Each has seen all calls of the script.
    pub passes: Vec<Pass<State>>,
}

/// What a script's bytes print, its bad lines, and what it leaves.
#[tactic(auto, using(crate::proofs::ReportLaws::noted_all))]
fn played<P: Performer<SharedOwner>>(
    performer: &P,
    alloc: Global,
    script: &[u8],
) -> Result<(String, RunEnd), AppFault>
    requires { length script.now ≤ most_bytes }
    ensures printed { IfOk result (λ p. string_bytes p.0 ≡ output script.now) }
    ensures bad { IfOk result (λ p. p.1.bad_lines ≡ length (bad_lines script.now)) }
    ensures reports { IfOk result (λ p. p.1.reports.items ≡ take 10 (bad_lines script.now)) }
    ensures passes { IfOk result (λ p. AreOf p.1.lock p.1.passes.items (owner_after script.now)) }
    ensures memory { IfErr result (λ f. f ≡ NoMemory) }
{
    let mut out = String::new(alloc);
    let (owner, reports): (SharedOwner, _) = play_script(performer, alloc, script, &mut out)?;
    let (lock, passes) = owner.into_parts();
    let end = RunEnd {
        bad_lines: reports.count() as u32,
        reports: reports.into_first(),
        lock,
        passes,
    };
    Ok((out, end))
}

/// Reads a script to its end, plays it, and writes what it prints (docs/SCRIPTS.md, "Output"). Nothing is written
/// before the whole script is played. An advance has so many workers, 1 to 16, on which nothing that is written
/// depends; a number below is taken as 1, and one above as 16. The passes that come back have seen the calls of the
/// script with their answers, each of the session that `as` named (docs/SCRIPTS.md, "Sessions").
///
/// Refused: `ReadFault` exactly where the source has failed, now or before, and where it hadn't then in a call of
/// its reader; `TooLong` where the script is longer than 67,108,864 bytes or its end doesn't come in the turns of the
/// source; `NoMemory`; and then nothing is written. `WriteFault` where the sink has failed, now or before; then a
/// prefix of the output is written. A run costs what its lines ask for, some thirty loads of a word a line, and the
/// memory of the script, of the output, of its calls and of the records of its frames.
#[tactic(auto, using(scene_streams::proofs::Writes::none_written))]
pub fn run_script<T: Threads + Wait + Sync, R: Read, W: Write>(
    rt: &T,
    alloc: Global,
    workers: usize,
    source: &mut Source<R>,
    sink: &mut Sink<W>,
) -> Result<RunEnd, AppFault>
    ensures ends { IfOk result (IsEndOf (R.remaining (reader_of source.old))) }
    ensures read { IsRead R.remaining source.old source.new result ReadFault TooLong }
    ensures written { IsWritten output (R.remaining (reader_of source.old)) W.contents sink.old sink.new result WriteFault }
{
    let script = source.read_all(alloc)?;
    let performer = OnThreads::new(rt, workers);
    let (out, end) = played(&performer, alloc, script.as_slice())?;
    sink.write_all(out.as_bytes())?;
    Ok(end)
}
