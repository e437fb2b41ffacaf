//! Where the playing of kept lines begins: at the first of them, or at a checkpoint (docs/SHELL.md, "Checkpoints").
ghost use Rattle.std.specs.Prelude.{◌≡◌, ℕ, List, IfOk, IfSome};
ghost use Rattle.std.specs.Str.Lines.{lines};
ghost use Rattle.scene_interpreter.specs.Interpreter.{interpreter_of};
ghost use Rattle.scene_kept_lines.specs.Checkpoints.{Starts, kept_interpreter};
ghost use Rattle.scene_kept_lines.specs.Scans.{IsFound};

use crate::checkpoints::{Checkpoint, checkpoint_lines, checkpoints_in};
use crate::line_fault::KeptLineFault;
use crate::play_again::play_noted;
use crate::system_lines::SystemLines;
use scene_interpreter::{Interpreter, InterpreterSettings};
use scene_session::{LoneOwner, Performer};
use std::alloc::{AllocError, Global};

/// Where the playing of kept lines begins.
#[derive(Drop)]
pub(crate) struct Start<'a> {
    /// The interpreter before the first line that is played.
    pub(crate) interpreter: Interpreter<LoneOwner>,
    /// The lines of its systems.
    pub(crate) systems: SystemLines,
    /// How many lines aren't played.
    pub(crate) skipped: u64,
    /// The lines that are.
    pub(crate) rest: &'a [u8],
}

/// The interpreter before the first line that was kept, which takes so many calls.
pub(crate) fn interpreter_before(alloc: Global, calls: u64) -> Interpreter<LoneOwner>
    ensures { interpreter_of result ≡ kept_interpreter calls }
{
    let InterpreterSettings { depth, .. } = InterpreterSettings::unlimited();
    Interpreter::alone(alloc, InterpreterSettings { depth, calls })
}

/// The beginning at a checkpoint; nothing where its lines are bad, or don't lead to an interpreter that can go on from
/// there.
#[tactic(auto, using(crate::proofs::Scans::starts_there))]
fn start_at<'a, P: Performer<LoneOwner>>(
    performer: &P,
    alloc: Global,
    calls: u64,
    checkpoint: Checkpoint<'a>,
) -> Result<Option<Start<'a>>, AllocError>
    ensures { IfOk result (λ start. IfSome start (λ s. (all : List (List ℕ)) → IsFound all checkpoint.entry
        → Starts (kept_interpreter calls) all (interpreter_of s.interpreter) s.skipped (lines s.rest.now))) }
{
    let Checkpoint {
        block,
        count,
        progress,
        skipped,
        rest,
    } = checkpoint;
    let text = checkpoint_lines(alloc, block, count)?;
    let mut interpreter = interpreter_before(alloc, calls);
    let mut systems = SystemLines::new(alloc);
    match play_noted(
        performer,
        alloc,
        &mut interpreter,
        &mut systems,
        text.as_slice(),
    ) {
        Ok(_) => {}
        Err(KeptLineFault::Bad(..)) => return Ok(None),
        Err(_) => return Err(AllocError),
    }
    if !interpreter.resume(progress) {
        return Ok(None);
    }
    Ok(Some(Start {
        interpreter,
        systems,
        skipped,
        rest,
    }))
}

/// Where the playing of the lines of a text begins, for an interpreter that takes so many calls: at the newest
/// checkpoint whose lines are good, or else at the first line. It costs what the lines of the checkpoint cost in a
/// script, and a look at all lines.
///
/// `AllocError` where no memory was found.
#[tactic(auto, using(crate::proofs::Scans::starts_first))]
pub(crate) fn start_of<'a, P: Performer<LoneOwner>>(
    performer: &P,
    alloc: Global,
    calls: u64,
    text: &'a [u8],
) -> Result<Start<'a>, AllocError>
    ensures { IfOk result (λ s. Starts (kept_interpreter calls) (lines text.now) (interpreter_of s.interpreter) s.skipped (lines s.rest.now)) }
{
    let mut checkpoints = checkpoints_in(alloc, text)?;
    'newest: while let Some(checkpoint) = checkpoints.pop() {
        if let Some(start) = start_at(performer, alloc, calls, checkpoint)? {
            return Ok(start);
        }
    }
    Ok(Start {
        interpreter: interpreter_before(alloc, calls),
        systems: SystemLines::new(alloc),
        skipped: 0,
        rest: text,
    })
}
