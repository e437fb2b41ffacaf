//! What lines that were kept have come to, as a line tells it.
ghost use Rattle.std.specs.Prelude.{◌≡◌, ◌++◌, IfErr, OnOk, codes, if◌then◌else◌, string_bytes};
ghost use Rattle.std.specs.Str.Lines.{lines};
ghost use Rattle.scene_interpreter.specs.Interpreter.{lone_interpreter, interpreter_of, interpreter_reply};
ghost use Rattle.scene_shell.specs.Shell.{interpreter_after};
ghost use Rattle.scene_shell.specs.AnswerText.{answer_text};
ghost use Rattle.scene_kept_lines.specs.Replayed.{NamesFirst, NoneIsBad};

use crate::line_fault::KeptLineFault;
use crate::play_again::replay;
use scene_interpreter::{Interpreter, InterpreterSettings};
use scene_session::{LoneOwner, ThisThread};
use std::alloc::Global;

/// Plays lines, and adds the answer to a question behind them.
#[tactic(auto, using(crate::proofs::LineFaults::names_first))]
fn play_and_ask(
    alloc: Global,
    interpreter: &mut Interpreter<LoneOwner>,
    text: &[u8],
    question: &[u8],
    answer: &mut String,
) -> Result<(), KeptLineFault>
    ensures answer { OnOk result (string_bytes answer.new ≡ string_bytes answer.old
        ++ (interpreter_reply (interpreter_after (interpreter_of interpreter.old) (lines text.now)) question.now).text) }
    ensures good { OnOk result (NoneIsBad (interpreter_of interpreter.old) (lines text.now)) }
    ensures bad { IfErr result (NamesFirst (interpreter_of interpreter.old) (lines text.now)) }
{
    replay(&ThisThread, alloc, interpreter, text)?;
    match interpreter.line(&ThisThread, question, answer) {
        Ok(_) => Ok(()),
        Err(_) => Err(KeptLineFault::NoMemory),
    }
}

/// Adds the text of the world that the lines of a text lead to, as `show` prints it. It costs what the lines cost in a
/// script, and `show`. The interpreter has no lock, and begins with these settings.
///
/// Refused: `Bad` at the first line that is bad, `Halted` and `NoMemory` for want of memory.
pub fn show_lines(
    alloc: Global,
    settings: InterpreterSettings,
    text: &[u8],
    world: &mut String,
) -> Result<(), KeptLineFault>
    ensures shown { OnOk result (string_bytes world.new ≡ string_bytes world.old
        ++ answer_text (lone_interpreter settings.depth settings.calls) (codes "show") text.now) }
    ensures good { OnOk result (NoneIsBad (lone_interpreter settings.depth settings.calls) (lines text.now)) }
    ensures bad { IfErr result (NamesFirst (lone_interpreter settings.depth settings.calls) (lines text.now)) }
{
    let mut interpreter = Interpreter::alone(alloc, settings);
    play_and_ask(alloc, &mut interpreter, text, b"show", world)
}

/// Adds the scene text of what the lines of a text lead to, with its line break: as `dump` prints it, or as `dumpall`
/// where it is to be whole, with the past and the future. Where it would have more than 67,108,864 bytes it is what
/// these answer then, `fault 56 TooLong`. It costs what the lines cost in a script, and the text. The interpreter has
/// no lock, and begins with these settings.
///
/// Refused: `Bad` at the first line that is bad, `Halted` and `NoMemory` for want of memory.
pub fn dump_lines(
    alloc: Global,
    settings: InterpreterSettings,
    text: &[u8],
    is_whole: bool,
    scene: &mut String,
) -> Result<(), KeptLineFault>
    ensures dumped { OnOk result (string_bytes scene.new ≡ string_bytes scene.old
        ++ answer_text (lone_interpreter settings.depth settings.calls) (if is_whole then codes "dumpall" else codes "dump") text.now) }
    ensures good { OnOk result (NoneIsBad (lone_interpreter settings.depth settings.calls) (lines text.now)) }
    ensures bad { IfErr result (NamesFirst (lone_interpreter settings.depth settings.calls) (lines text.now)) }
{
    let mut interpreter = Interpreter::alone(alloc, settings);
    let question: &[u8] = if is_whole { b"dumpall" } else { b"dump" };
    play_and_ask(alloc, &mut interpreter, text, question, scene)
}
