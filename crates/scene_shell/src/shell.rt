//! The shell without a store.
ghost use Rattle.std.specs.Io.Buffered.{reader_remaining};
ghost use Rattle.scene_interpreter.specs.Interpreter.{lone_interpreter, interpreter_of};
ghost use Rattle.scene_shell.specs.Shell.{AnswersOrStops};

use crate::kept_fault::KeptFault;
use crate::kept_shell::run_kept_shell;
use crate::style::AnswerStyle;
use crate::unkept::Unkept;
use scene_interpreter::{Interpreter, InterpreterSettings};
use scene_session::{LoneOwner, Performer};
use scene_streams::AppFault;
use std::alloc::Global;
use std::io::{BufReader, Read, Write};

/// How a shell is to be (docs/SHELL.md).
#[derive(Drop)]
pub struct ShellSettings {
    /// Of how many frames a record is kept, as the line `depth` says it, and how many calls there may be.
    pub interpreter: InterpreterSettings,
    /// How its answers are written.
    pub style: AnswerStyle,
}

/// Answers each line of a reader by an interpreter, as `run_shell` does.
#[tactic(auto, using(crate::proofs::KeptLaws::ends_answered, crate::proofs::KeptLaws::ends_unanswered))]
fn run_unkept<P: Performer<LoneOwner>, R: Read, W: Write + Drop, E: Write>(
    performer: &P,
    alloc: Global,
    interpreter: &mut Interpreter<LoneOwner>,
    style: AnswerStyle,
    reader: &mut BufReader<R>,
    writer: &mut Unkept<W>,
    errors: &mut E,
) -> Result<u64, AppFault>
    ensures { AnswersOrStops (record {
      style = style;
      first = interpreter_of interpreter.old;
      before = W.contents writer.old.writer;
      after = W.contents writer.new.writer;
      script = reader_remaining R.remaining reader.old;
      rest = reader_remaining R.remaining reader.new;
    }) result }
{
    match run_kept_shell(performer, alloc, interpreter, style, writer, reader, errors) {
        Ok(bad_lines) => Ok(bad_lines),
        Err(KeptFault::Ended(fault)) => Err(fault),
        Err(KeptFault::Keep(never)) => match never {},
    }
}

/// Answers each line of a reader before it waits for the next one, until the reader's end (docs/SHELL.md). A bad line
/// is told on the stream of errors at once, by its number from 1. It gives how many lines were bad, and the writer
/// back.
///
/// Refused: `ReadFault`, `WriteFault`, and `NoMemory`; then the stream of errors tells what became of the line. But for
/// `WriteFault`, all lines before are answered, each whole. `TooLong` only behind 18,446,744,073,709,551,614 lines. A
/// line costs what `scene run` costs for it, and where none waits behind it a call of the writer; the memory is the
/// interpreter's, a line's and 64 KiB of answers.
pub fn run_shell<P: Performer<LoneOwner>, R: Read, W: Write + Drop, E: Write>(
    performer: &P,
    alloc: Global,
    settings: ShellSettings,
    reader: &mut BufReader<R>,
    writer: W,
    errors: &mut E,
) -> (Result<u64, AppFault>, W)
    ensures { AnswersOrStops (record {
      style = settings.style;
      first = lone_interpreter settings.interpreter.depth settings.interpreter.calls;
      before = W.contents writer;
      after = W.contents result.1;
      script = reader_remaining R.remaining reader.old;
      rest = reader_remaining R.remaining reader.new;
    }) result.0 }
{
    let ShellSettings {
        interpreter: settings,
        style,
    } = settings;
    let mut interpreter = Interpreter::alone(alloc, settings);
    let mut unkept = Unkept { writer };
    let ended = run_unkept(
        performer,
        alloc,
        &mut interpreter,
        style,
        reader,
        &mut unkept,
        errors,
    );
    let Unkept { writer } = unkept;
    (ended, writer)
}
