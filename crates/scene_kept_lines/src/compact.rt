//! Fewer lines that lead to the same scene.
ghost use Rattle.std.specs.Prelude.{◌≡◌, ◌≤◌, ℕ, Ok, length, IfErr, IfNone, IfOk, IfSome, IsTrue};
ghost use Rattle.std.specs.Str.Lines.{lines};
ghost use Rattle.scene_file.specs.EditorScene.{loaded_again, loaded_editor};
ghost use Rattle.scene_session.specs.Owner.{whole_at};
ghost use Rattle.scene_interpreter.specs.Interpreter.{IsSetting, interpreter_of, lone_interpreter, owner_of};
ghost use Rattle.scene_session.specs.Whole.{whole_of};
ghost use Rattle.scene_shell.specs.Shell.{interpreter_after};
ghost use Rattle.scene_kept_lines.specs.Compacted.{IsCompacted, IsLineFault, IsOfNoLine, LeadTo};

use crate::agree::{agree, scene_of};
use crate::line_fault::{CompactFault, KeptLineFault};
use crate::play_again::{play_noted, replay};
use crate::system_lines::SystemLines;
use scene_interpreter::{Interpreter, InterpreterSettings};
use scene_session::{LoneOwner, ThisThread};
use scene_undo::Editor;
use std::alloc::{AllocError, Global};

/// The lines of the limits of an interpreter of this depth, where an interpreter of these settings has others.
fn push_limits(
    lines: &mut String,
    interpreter: &Interpreter<LoneOwner>,
    depth: u32,
    again: &InterpreterSettings,
) -> Result<(), AllocError> {
    let calls = interpreter.call_limit();
    if calls != again.calls {
        write!(lines, "calls {calls}\n")?;
    }
    if depth != again.depth.get() {
        write!(lines, "depth {depth}\n")?;
    }
    Ok(())
}

/// The lines that lead to a scene of this text, these systems, and the limits and the turn of an interpreter.
fn joined(
    alloc: Global,
    interpreter: &Interpreter<LoneOwner>,
    depth: u32,
    scene: &str,
    systems: &[u8],
    again: &InterpreterSettings,
) -> Result<Vec<u8>, AllocError> {
    let mut limits = String::new(alloc);
    push_limits(&mut limits, interpreter, depth, again)?;
    let mut turn = String::new(alloc);
    let session = interpreter.session();
    // This line ends the setup too.
    write!(&mut turn, "as {session}\n")?;
    let mut lines = Vec::new(alloc);
    lines.extend_from_slice(limits.as_bytes())?;
    lines.extend_from_slice(b"load ")?;
    lines.extend_from_slice(scene.as_bytes())?;
    lines.extend_from_slice(systems)?;
    lines.extend_from_slice(turn.as_bytes())?;
    Ok(lines)
}

/// Plays lines in another interpreter, and says whether they lead it to what an interpreter has, which has this editor,
/// whose text this is.
fn leads_to_same(
    alloc: Global,
    interpreter: &Interpreter<LoneOwner>,
    editor: &Editor,
    scene: &str,
    other: &mut Interpreter<LoneOwner>,
    fewer: &[u8],
) -> Result<bool, CompactFault>
    requires editor { whole_of editor.now ≡ whole_at (owner_of (interpreter_of interpreter.now)) }
    requires scene { (depth : ℕ) → loaded_editor depth scene.now ≡ Ok (loaded_again depth editor.now) }
    ensures lead { IfOk result (λ same. IsTrue same → LeadTo (interpreter_of other.old) (lines fewer.now) (interpreter_of interpreter.now)) }
    ensures fault { IfErr result IsOfNoLine }
{
    match replay(&ThisThread, alloc, other, fewer) {
        Ok(_) => agree(alloc, interpreter, editor, scene, other),
        Err(KeptLineFault::Bad(..)) => Ok(false),
        Err(_) => Err(CompactFault::NoMemory),
    }
}

/// The same of a new interpreter.
fn lead_to_same(
    alloc: Global,
    interpreter: &Interpreter<LoneOwner>,
    editor: &Editor,
    scene: &str,
    again: InterpreterSettings,
    fewer: &[u8],
) -> Result<bool, CompactFault>
    requires editor { whole_of editor.now ≡ whole_at (owner_of (interpreter_of interpreter.now)) }
    requires scene { (depth : ℕ) → loaded_editor depth scene.now ≡ Ok (loaded_again depth editor.now) }
    ensures lead { IfOk result (λ same. IsTrue same
        → LeadTo (lone_interpreter again.depth again.calls) (lines fewer.now) (interpreter_of interpreter.now)) }
    ensures fault { IfErr result IsOfNoLine }
{
    let mut other = Interpreter::alone(alloc, again);
    leads_to_same(alloc, interpreter, editor, scene, &mut other, fewer)
}

/// Lines that lead to what an interpreter has, which has this editor, and whose systems these lines give. They were
/// played too.
pub(crate) fn lines_to(
    alloc: Global,
    interpreter: &Interpreter<LoneOwner>,
    editor: &Editor,
    systems: &[u8],
    again: InterpreterSettings,
    most: usize,
) -> Result<Vec<u8>, CompactFault>
    requires { whole_of editor.now ≡ whole_at (owner_of (interpreter_of interpreter.now)) }
    ensures lead { IfOk result (λ fewer. LeadTo (lone_interpreter again.depth again.calls) (lines fewer.items) (interpreter_of interpreter.now)) }
    ensures few { IfOk result (λ fewer. length fewer.items ≤ most) }
    ensures fault { IfErr result IsOfNoLine }
{
    let scene = scene_of(alloc, editor)?;
    let Ok(fewer) = joined(
        alloc,
        interpreter,
        editor.depth(),
        scene.as_str(),
        systems,
        &again,
    ) else {
        return Err(CompactFault::NoMemory);
    };
    if fewer.len() > most {
        return Err(CompactFault::OverMost(most));
    }
    if lead_to_same(
        alloc,
        interpreter,
        editor,
        scene.as_str(),
        again,
        fewer.as_slice(),
    )? {
        Ok(fewer)
    } else {
        Err(CompactFault::Differs)
    }
}

/// Plays lines in an interpreter, and gives fewer that lead to what it has then.
#[tactic(auto, using(crate::proofs::LineFaults::names_first, crate::proofs::LineFaults::no_line_fault))]
fn compacted_in(
    alloc: Global,
    interpreter: &mut Interpreter<LoneOwner>,
    text: &[u8],
    again: InterpreterSettings,
    most: usize,
) -> Result<Option<Vec<u8>>, CompactFault>
    ensures lead { IfOk result (λ fewer. IfSome fewer (λ l. LeadTo (lone_interpreter again.depth again.calls) (lines l.items)
        (interpreter_after (interpreter_of interpreter.old) (lines text.now)))) }
    ensures few { IfOk result (λ fewer. IfSome fewer (λ l. length l.items ≤ most)) }
    ensures setup { IfOk result (λ fewer. IfNone fewer (IsSetting (interpreter_after (interpreter_of interpreter.old) (lines text.now)))) }
    ensures bad { IfErr result (IsLineFault (interpreter_of interpreter.old) (lines text.now)) }
{
    let mut systems = SystemLines::new(alloc);
    play_noted(&ThisThread, alloc, interpreter, &mut systems, text)?;
    let Some(editor) = interpreter.editor() else {
        return Ok(None);
    };
    if interpreter.has_open_frame() {
        return Err(CompactFault::FrameOpen);
    }
    let fewer = lines_to(
        alloc,
        interpreter,
        editor,
        systems.lines.as_slice(),
        again,
        most,
    )?;
    Ok(Some(fewer))
}

/// Fewer lines that lead to what the lines of a text lead to, of at most `most` bytes: to the same world, past and
/// future with their records, kinds, systems, session and limits. The calls so far, the count of rewinds and the cursor
/// begin anew with them. They are a scene text and what it doesn't hold. `Ok(None)` just where the lines are still in
/// the setup. What is given was played too, and compared. The lines of the text are played from an interpreter without
/// a lock and with `settings` on, those that are given from one with the settings `again`.
///
/// It costs what the lines cost in a script and a save, and then a load, a save and a comparison of the systems.
///
/// Refused: `Lines` at the first line that is bad, or for want of memory; `FrameOpen` where a frame is open behind the
/// lines; `TooLong` where the text of the scene would have more than 67,108,864 bytes; `OverMost` where there would be
/// more than `most` bytes; `NoMemory`; and `Differs` where a limit of the interpreter can't be said by a line, as that
/// of more than 1,048,576 calls.
pub fn compacted(
    alloc: Global,
    settings: InterpreterSettings,
    text: &[u8],
    again: InterpreterSettings,
    most: usize,
) -> Result<Option<Vec<u8>>, CompactFault>
    ensures lead { IfOk result (λ fewer. IfSome fewer (λ l. IsCompacted (lone_interpreter settings.depth settings.calls) text.now
        (lone_interpreter again.depth again.calls) l.items)) }
    ensures few { IfOk result (λ fewer. IfSome fewer (λ l. length l.items ≤ most)) }
    ensures setup { IfOk result (λ fewer. IfNone fewer
        (IsSetting (interpreter_after (lone_interpreter settings.depth settings.calls) (lines text.now)))) }
    ensures bad { IfErr result (IsLineFault (lone_interpreter settings.depth settings.calls) (lines text.now)) }
{
    let mut interpreter = Interpreter::alone(alloc, settings);
    compacted_in(alloc, &mut interpreter, text, again, most)
}
