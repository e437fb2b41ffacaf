//! The lines of a store, played as it is opened.
ghost use Rattle.std.specs.Prelude.{ℕ, List};
ghost use Rattle.std.specs.Str.Lines.{lines};
ghost use Rattle.scene_interpreter.specs.Interpreter.{interpreter_of};
ghost use Rattle.scene_kept_lines.specs.Checkpoints.{Starts, kept_interpreter};
ghost use Rattle.scene_kept_lines.specs.StoreShell.{ArePlayed};

use crate::checkpoint_start::{Start, start_of};
use crate::line_fault::KeptLineFault;
use crate::opening::Opening;
use crate::play_again::play_noted;
use crate::system_lines::SystemLines;
use scene_interpreter::Interpreter;
use scene_session::{LoneOwner, Performer};
use std::alloc::Global;
use std::time::{Clock, Instant};

/// What the lines of a store have led to.
#[derive(Drop)]
pub(crate) struct PlayedLines {
    pub(crate) interpreter: Interpreter<LoneOwner>,
    /// The lines of its systems.
    pub(crate) systems: SystemLines,
    /// How long it took to play those lines that were.
    pub(crate) opening: Opening,
}

/// Plays the lines behind a beginning.
fn play_from<P: Performer<LoneOwner>, C: Clock>(
    performer: &P,
    alloc: Global,
    clock: &C,
    start: Start<'_>,
) -> Result<PlayedLines, KeptLineFault>
    ensures { (calls : ℕ) → (all : List (List ℕ))
        → Starts (kept_interpreter calls) all (interpreter_of start.entry.interpreter) start.entry.skipped (lines start.entry.rest.now)
        → ArePlayed calls all (λ p. interpreter_of p.interpreter) result }
{
    let Start {
        mut interpreter,
        mut systems,
        skipped,
        rest,
    } = start;
    let began = Instant::now(clock).ok();
    match play_noted(performer, alloc, &mut interpreter, &mut systems, rest) {
        Ok(count) => Ok(PlayedLines {
            interpreter,
            systems,
            opening: Opening::since(clock, began, count),
        }),
        Err(fault) => Err(fault.behind(skipped)),
    }
}

/// Plays the lines of a store whose interpreter takes so many calls, from its newest checkpoint on.
pub(crate) fn play_lines<P: Performer<LoneOwner>, C: Clock>(
    performer: &P,
    alloc: Global,
    clock: &C,
    calls: u64,
    text: &[u8],
) -> Result<PlayedLines, KeptLineFault>
    ensures { ArePlayed calls (lines text.now) (λ p. interpreter_of p.interpreter) result }
{
    match start_of(performer, alloc, calls, text) {
        Ok(start) => play_from(performer, alloc, clock, start),
        Err(_) => Err(KeptLineFault::NoMemory),
    }
}
