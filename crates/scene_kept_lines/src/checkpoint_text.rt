//! The text of a checkpoint (docs/SHELL.md, "Checkpoints").
ghost use Rattle.std.specs.Prelude.{◌≡◌, ◌++◌, Some, ℕ, List, IfOk, IfSome, IsTrue, length, map};
ghost use Rattle.std.specs.Str.Lines.{lines};
ghost use Rattle.scene_session.specs.Whole.{whole_of};
ghost use Rattle.scene_session.specs.Owner.{whole_at};
ghost use Rattle.scene_interpreter.specs.Interpreter.{interpreter_of, owner_of};
ghost use Rattle.scene_interpreter.specs.Progress.{progress_in};
ghost use Rattle.scene_kept_lines.specs.Checkpoints.{AreNotes, IsCheckpointOf, IsCheckpointText, kept_interpreter, marked};
ghost use Rattle.scene_kept_lines.specs.Dated.{IsComment};
ghost use Rattle.scene_shell.specs.Kept.{ended};

use crate::checkpoint_end::end_line;
use crate::checkpoints::MARK;
use crate::comment::is_comment;
use crate::compact::lines_to;
use scene_interpreter::{Interpreter, InterpreterSettings, Progress};
use scene_script::first_line;
use scene_session::LoneOwner;
use scene_shell::push_kept_line;
use scene_undo::Editor;
use std::alloc::{AllocError, Global};

/// A line of a checkpoint as a comment.
fn marked(alloc: Global, line: &[u8]) -> Result<Vec<u8>, AllocError>
    ensures { IfOk result (λ comment. comment.items ≡ marked line.now) }
{
    let mut comment = Vec::new(alloc);
    comment.extend_from_slice(MARK)?;
    comment.extend_from_slice(line)?;
    Ok(comment)
}

/// Adds a comment as a line. It says whether it is one; if it isn't, nothing is added.
fn push_comment(text: &mut Vec<u8>, comment: &[u8]) -> Result<bool, AllocError>
    ensures { IfOk result (λ is. IsTrue is → IsComment comment.now × (text.new.items ≡ text.old.items ++ ended comment.now)) }
{
    if !is_comment(comment) {
        return Ok(false);
    }
    push_kept_line(text, comment)?;
    Ok(true)
}

/// Lines as comments.
#[derive(Drop)]
struct Comments {
    text: Vec<u8>,
    /// How many there are.
    count: u64,
}

/// The lines of a text as comments; nothing where one can't be a comment.
fn comments_of(alloc: Global, fewer: &[u8]) -> Result<Option<Comments>, AllocError>
    ensures notes { IfOk result (λ all. IfSome all (λ c. AreNotes c.text.items)) }
    ensures lines { IfOk result (λ all. IfSome all (λ c. (lines c.text.items ≡ map marked (lines fewer.now))
        × (c.count ≡ length (lines fewer.now)))) }
{
    let mut text = Vec::new(alloc);
    let mut rest = fewer;
    let mut count = 0u64;
    'lines: while !rest.is_empty() {
        let (line, more) = first_line(rest);
        let comment = marked(alloc, line)?;
        if !push_comment(&mut text, comment.as_slice())? {
            return Ok(None);
        }
        rest = more;
        count += 1;
    }
    Ok(Some(Comments { text, count }))
}

/// These comments, and behind them the one that says how far the interpreter has come that they lead to; nothing where
/// that can't be one.
fn with_end(
    alloc: Global,
    comments: Comments,
    progress: Progress,
) -> Result<Option<Vec<u8>>, AllocError>
    requires { AreNotes comments.text.items }
    ensures notes { IfOk result (λ text. IfSome text (λ t. AreNotes t.items)) }
    ensures text { IfOk result (λ text. IfSome text (λ t. (ls : List (List ℕ)) → lines comments.text.items ≡ map marked ls
        → comments.count ≡ length ls → IsCheckpointText ls progress (lines t.items))) }
{
    let Comments { mut text, count } = comments;
    let end = end_line(alloc, count, progress)?;
    if push_comment(&mut text, end.as_bytes())? {
        Ok(Some(text))
    } else {
        Ok(None)
    }
}

/// The checkpoint of these lines, which lead to an interpreter that has come so far; nothing where a line can't be a
/// comment.
fn text_of(alloc: Global, fewer: &[u8], progress: Progress) -> Result<Option<Vec<u8>>, AllocError>
    ensures notes { IfOk result (λ text. IfSome text (λ t. AreNotes t.items)) }
    ensures text { IfOk result (λ text. IfSome text (λ t. IsCheckpointText (lines fewer.now) progress (lines t.items))) }
{
    match comments_of(alloc, fewer)? {
        Some(comments) => with_end(alloc, comments, progress),
        None => Ok(None),
    }
}

/// The checkpoint of an interpreter that has this editor and has come so far, and whose systems these lines give.
#[tactic(auto, using(crate::proofs::Honest::checkpoint_is))]
fn checkpoint_with(
    alloc: Global,
    interpreter: &Interpreter<LoneOwner>,
    editor: &Editor,
    progress: Progress,
    systems: &[u8],
    calls: u64,
) -> Option<Vec<u8>>
    requires editor { whole_of editor.now ≡ whole_at (owner_of (interpreter_of interpreter.now)) }
    requires progress { progress_in (interpreter_of interpreter.now) ≡ Some progress }
    ensures notes { IfSome result (λ text. AreNotes text.items) }
    ensures checkpoint { IfSome result (λ text. IsCheckpointOf (kept_interpreter calls) (interpreter_of interpreter.now) (lines text.items)) }
{
    let InterpreterSettings { depth, .. } = InterpreterSettings::unlimited();
    let again = InterpreterSettings { depth, calls };
    let fewer = lines_to(alloc, interpreter, editor, systems, again, usize::MAX).ok()?;
    text_of(alloc, fewer.as_slice(), progress).ok()?
}

/// The checkpoint of an interpreter whose systems these lines give, for a store whose lines an interpreter plays that
/// takes so many calls: comments, the last of which ends it. What they lead to was tried, and compared with the
/// interpreter. `None` in the setup, in an open frame, where the text of the scene would have more than 67,108,864 bytes,
/// where a limit can't be said by a line, or for want of memory.
///
/// It costs a save, a load, another save, and a comparison of the systems.
pub(crate) fn checkpoint_of(
    alloc: Global,
    interpreter: &Interpreter<LoneOwner>,
    systems: &[u8],
    calls: u64,
) -> Option<Vec<u8>>
    ensures notes { IfSome result (λ text. AreNotes text.items) }
    ensures checkpoint { IfSome result (λ text. IsCheckpointOf (kept_interpreter calls) (interpreter_of interpreter.now) (lines text.items)) }
{
    let editor = interpreter.editor()?;
    let progress = interpreter.progress()?;
    checkpoint_with(alloc, interpreter, editor, progress, systems, calls)
}
