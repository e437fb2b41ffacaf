//! A shell whose lines are kept.
ghost use Rattle.std.specs.Prelude.{◌≡◌, []};
ghost use Rattle.std.specs.Io.Buffered.{reader_remaining};
ghost use Rattle.scene_interpreter.specs.Interpreter.{interpreter_of};
ghost use Rattle.scene_shell.specs.Kept.{EndsAs};
ghost use Rattle.scene_shell.specs.Waits.{LeadsTo};

use crate::keep::KeptWriter;
use crate::kept_fault::KeptFault;
use crate::streams::read_line;
use crate::style::AnswerStyle;
use crate::waiting::Waiting;
use scene_interpreter::Interpreter;
use scene_session::{LoneOwner, Performer};
use scene_streams::AppFault;
use std::alloc::Global;
use std::io::{BufReader, Read, Write};

/// Plays each line of a reader. Where no further line waits in the buffer, what is due is kept and the answers are
/// sent. It gives how many lines were bad, or what stopped it before the reader's end, while something may wait.
fn play_lines<P: Performer<LoneOwner>, R: Read, E: Write, K: KeptWriter>(
    performer: &P,
    alloc: Global,
    interpreter: &mut Interpreter<LoneOwner>,
    style: AnswerStyle,
    waiting: &mut Waiting,
    keeper: &mut K,
    reader: &mut BufReader<R>,
    errors: &mut E,
) -> Result<Result<u64, AppFault>, KeptFault<K::Fault>>
    requires due { waiting.old.due.items ≡ [] }
    requires held { waiting.old.held.items ≡ [] }
    requires answers { waiting.old.answers.items ≡ [] }
    requires begun { K.meaning.begun keeper.old keeper.old (interpreter_of interpreter.old) style }
    ensures { LeadsTo K.meaning (record {
      style = style;
      first = interpreter_of interpreter.old;
      start = keeper.old;
      script = reader_remaining R.remaining reader.old;
    }) keeper.new (reader_remaining R.remaining reader.new) waiting.new result }
{
    let mut line = Vec::new(alloc);
    let mut bad_lines = 0u64;
    'lines: for number in 1..u64::MAX {
        if let Err(fault) = read_line(reader, &mut line) {
            return Ok(Err(fault));
        }
        let read = line.as_slice();
        if read.is_empty() {
            return Ok(Ok(bad_lines));
        }
        match waiting.play(performer, interpreter, style, number, read, errors) {
            Ok(bad) => bad_lines += bad,
            Err(fault) => return Ok(Err(fault)),
        }
        let is_due = waiting.is_full() || !reader.buffer().contains(&b'\n');
        match waiting.settle_where(is_due, keeper) {
            Ok(()) => {}
            Err(fault) => return Err(fault),
        }
    }
    Ok(Err(AppFault::TooLong))
}

/// The same, and what still waits behind the last line that was played is kept and sent.
fn play_settled<P: Performer<LoneOwner>, R: Read, E: Write, K: KeptWriter>(
    performer: &P,
    alloc: Global,
    interpreter: &mut Interpreter<LoneOwner>,
    style: AnswerStyle,
    keeper: &mut K,
    reader: &mut BufReader<R>,
    errors: &mut E,
) -> Result<u64, KeptFault<K::Fault>>
    requires { K.meaning.begun keeper.old keeper.old (interpreter_of interpreter.old) style }
    ensures { EndsAs K.meaning (record {
      style = style;
      first = interpreter_of interpreter.old;
      start = keeper.old;
      script = reader_remaining R.remaining reader.old;
    }) keeper.new (reader_remaining R.remaining reader.new) result }
{
    let mut waiting = Waiting::new(alloc);
    let played = play_lines(
        performer,
        alloc,
        interpreter,
        style,
        &mut waiting,
        keeper,
        reader,
        errors,
    )?;
    match waiting.settle(keeper) {
        Ok(()) => {}
        Err(fault) => return Err(fault),
    }
    match played {
        Ok(bad_lines) => Ok(bad_lines),
        Err(fault) => Err(KeptFault::Ended(fault)),
    }
}

/// Answers each line of a reader before it waits for the next one, as `run_shell` does, by an interpreter that lines
/// which are kept have led to (docs/SHELL.md, "A store"). At every moment at which an answer is written, all lines are
/// kept that changed the interpreter up to it: what the keeper asks for whom it sends answers. Lines that wait in the
/// reader's buffer share a call of the keeper. The lines of an open frame are kept where it ends. It gives how many
/// lines were bad.
///
/// Refused: `Ended` as `run_shell` is refused, where all lines before the one that was read are answered and kept, but
/// for `WriteFault`, where they are kept; and `Keep` where lines weren't kept, whose answers aren't written.
pub fn run_kept_shell<P: Performer<LoneOwner>, R: Read, E: Write, K: KeptWriter>(
    performer: &P,
    alloc: Global,
    interpreter: &mut Interpreter<LoneOwner>,
    style: AnswerStyle,
    keeper: &mut K,
    reader: &mut BufReader<R>,
    errors: &mut E,
) -> Result<u64, KeptFault<K::Fault>>
    ensures { EndsAs K.meaning (record {
      style = style;
      first = interpreter_of interpreter.old;
      start = keeper.old;
      script = reader_remaining R.remaining reader.old;
    }) keeper.new (reader_remaining R.remaining reader.new) result }
{
    keeper.begin(interpreter, style);
    play_settled(performer, alloc, interpreter, style, keeper, reader, errors)
}
