//! Lines that are played again.
ghost use Rattle.std.specs.Prelude.{◌≡◌, ℕ, Some, length, IfErr, IfOk, MatchOption, OnOk};
ghost use Rattle.std.specs.Str.Lines.{lines};
ghost use Rattle.scene_interpreter.specs.Interpreter.{halted, interpreter_of};
ghost use Rattle.scene_shell.specs.ShellLine.{shell_reply};
ghost use Rattle.scene_shell.specs.Shell.{interpreter_after};
ghost use Rattle.scene_kept_lines.specs.Replayed.{IsPlayedAs, NoneIsBad, StopsBy};

use crate::line_fault::KeptLineFault;
use scene_interpreter::{Halt, Interpreter};
use scene_kinds::Schema;
use scene_requests::is_request;
use scene_script::first_line;
use scene_session::{LoneOwner, Performer};
use scene_shell::play_line;
use std::alloc::{AllocError, Global};

/// What is told of each line before it is played.
pub(crate) trait Note {
    /// Notes a line, which is given without its line break, by the kinds so far.
    fn note(&mut self, alloc: Global, schema: &Schema, line: &[u8]) -> Result<(), AllocError>;
}

/// Notes nothing.
#[derive(Drop)]
pub(crate) struct Unnoted;

impl Note for Unnoted {
    fn note(&mut self, _: Global, _: &Schema, _: &[u8]) -> Result<(), AllocError> {
        Ok(())
    }
}

/// Notes a line, and plays it.
fn play_kept_line<P: Performer<LoneOwner>, N: Note>(
    performer: &P,
    alloc: Global,
    interpreter: &mut Interpreter<LoneOwner>,
    notes: &mut N,
    number: u64,
    line: &[u8],
    answer: &mut String,
) -> Result<(), KeptLineFault>
    ensures { IsPlayedAs (interpreter_of interpreter.old) (interpreter_of interpreter.new) number line.now result }
{
    if notes.note(alloc, interpreter.schema(), line).is_err() {
        return Err(KeptLineFault::Halted(number, Halt::Before));
    }
    match play_line(performer, alloc, interpreter, line, answer) {
        Ok(None) => Ok(()),
        Ok(Some(reason)) => Err(KeptLineFault::Bad(number, reason)),
        Err(halt) => Err(KeptLineFault::Halted(number, halt)),
    }
}

/// Notes each line of a text, and plays it. It gives how many lines there were.
pub(crate) fn play_noted<P: Performer<LoneOwner>, N: Note>(
    performer: &P,
    alloc: Global,
    interpreter: &mut Interpreter<LoneOwner>,
    notes: &mut N,
    text: &[u8],
) -> Result<u64, KeptLineFault>
    ensures played { OnOk result (interpreter_of interpreter.new ≡ interpreter_after (interpreter_of interpreter.old) (lines text.now)) }
    ensures good { OnOk result (NoneIsBad (interpreter_of interpreter.old) (lines text.now)) }
    ensures count { IfOk result (λ count. count ≡ length (lines text.now)) }
    ensures stopped { IfErr result (StopsBy (interpreter_of interpreter.old) (interpreter_of interpreter.new) (lines text.now)) }
{
    let mut rest = text;
    let mut number = 0u64;
    let mut answer = String::new(alloc);
    'lines: while !rest.is_empty() {
        let (line, more) = first_line(rest);
        rest = more;
        number += 1;
        match play_kept_line(
            performer,
            alloc,
            interpreter,
            notes,
            number,
            line,
            &mut answer,
        ) {
            Ok(()) => {}
            Err(fault) => return Err(fault),
        }
    }
    Ok(number)
}

/// Plays the lines of a text, whose answers aren't asked for. It costs what the lines cost in a script, and gives how
/// many lines there were.
///
/// Refused: `Bad` at the first line that is bad, which is played, and changes nothing; and `Halted` for want of memory,
/// as the line itself says it. The lines before are played then, and none of them is bad.
pub fn replay<P: Performer<LoneOwner>>(
    performer: &P,
    alloc: Global,
    interpreter: &mut Interpreter<LoneOwner>,
    text: &[u8],
) -> Result<u64, KeptLineFault>
    ensures played { OnOk result (interpreter_of interpreter.new ≡ interpreter_after (interpreter_of interpreter.old) (lines text.now)) }
    ensures good { OnOk result (NoneIsBad (interpreter_of interpreter.old) (lines text.now)) }
    ensures count { IfOk result (λ count. count ≡ length (lines text.now)) }
    ensures stopped { IfErr result (StopsBy (interpreter_of interpreter.old) (interpreter_of interpreter.new) (lines text.now)) }
{
    play_noted(performer, alloc, interpreter, &mut Unnoted, text)
}
