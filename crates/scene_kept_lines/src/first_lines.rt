//! The first lines of a text, as far as an entry of its log.
ghost use Rattle.std.specs.Prelude.{IfOk};
ghost use Rattle.scene_kept_lines.specs.FirstLines.{Ends, IsCut};

use crate::comment::end_within;
use crate::line_fault::KeptLineFault;
use crate::log::length_to_entry;
use scene_interpreter::{Interpreter, InterpreterSettings};
use std::alloc::Global;

/// Where the lines of a text end that lead to an entry of its log.
#[derive(Clone, Copy, Debug, PartialEq, Eq)]
pub enum LinesEnd {
    /// Behind so many bytes of the text.
    At(usize),
    /// Nowhere: the log has fewer entries, so many.
    Beyond(u64),
}

/// So many bytes of a text, where they are whole lines, or else all of it.
#[tactic(auto, using(crate::proofs::Comments::cut_behind, crate::proofs::Comments::cut_nowhere))]
fn whole_lines(text: &[u8], length: usize) -> usize
    ensures { IsCut text.now result }
{
    if length < text.len() && !end_within(&text[..length]) {
        length
    } else {
        text.len()
    }
}

/// Where the lines of a text end up to the one that an entry of its log tells, which has this number (docs/SHELL.md,
/// "The log"); behind the first line for the number 0. The lines are played from a new interpreter with these settings
/// on, which has no lock, and cost what they cost in a script. Those behind the entry aren't looked at, and a bad line
/// before it is an entry too. By contract they are whole first lines; no clause says which entry they end at.
///
/// Refused: `Halted` for want of memory.
pub fn lines_to_entry(
    alloc: Global,
    settings: InterpreterSettings,
    text: &[u8],
    entry: u64,
) -> Result<LinesEnd, KeptLineFault>
    ensures { IfOk result (Ends text.now) }
{
    let mut interpreter = Interpreter::alone(alloc, settings);
    let (length, entries) = length_to_entry(alloc, &mut interpreter, text, entry)?;
    if entries < entry {
        return Ok(LinesEnd::Beyond(entries));
    }
    Ok(LinesEnd::At(whole_lines(text, length)))
}
