//! The comment that ends a checkpoint.
ghost use Rattle.std.specs.Prelude.{◌≡◌, IfOk, IfSome, OnOk, string_bytes};
ghost use Rattle.scene_json.specs.Texts.{Adds};
ghost use Rattle.scene_kept_lines.specs.Checkpoints.{end_of, mark_text};

use scene_interpreter::Progress;
use scene_json::write_count;
use scene_undo::Cursor;
use std::alloc::{AllocError, Global};

/// With which it begins.
const BEGINNING: &str = "# checkpoint of lines ";

/// Adds a cursor.
fn write_mark(out: &mut String, cursor: Cursor) -> Result<(), AllocError>
    ensures { OnOk result (Adds out.old out.new (mark_text cursor)) }
{
    out.push_str(", mark ")?;
    write_count(out, cursor.rewinds)?;
    out.push_str(" ")?;
    write_count(out, cursor.tick)
}

/// The comment behind so many lines, which lead to an interpreter that has come so far.
pub(crate) fn end_line(alloc: Global, count: u64, progress: Progress) -> Result<String, AllocError>
    ensures { IfOk result (λ line. string_bytes line ≡ end_of count progress) }
{
    let mut out = String::new(alloc);
    out.push_str(BEGINNING)?;
    write_count(&mut out, count)?;
    out.push_str(", calls ")?;
    write_count(&mut out, progress.calls)?;
    out.push_str(", undos ")?;
    write_count(&mut out, progress.rewinds)?;
    write_mark(&mut out, progress.cursor)?;
    Ok(out)
}

/// How far an interpreter has come by the comment that a line may be.
fn said_progress(line: &[u8]) -> Option<Progress> {
    let said = line.strip_prefix(BEGINNING.as_bytes())?;
    let said = str::from_utf8(said).ok()?;
    let (_, said) = said.split_once(", calls ")?;
    let (calls, said) = said.split_once(", undos ")?;
    let (rewinds, said) = said.split_once(", mark ")?;
    let (mark, tick) = said.split_once(' ')?;
    Some(Progress {
        calls: calls.parse::<u64>().ok()?,
        rewinds: rewinds.parse::<u64>().ok()?,
        cursor: Cursor {
            rewinds: mark.parse::<u64>().ok()?,
            tick: tick.parse::<u64>().ok()?,
        },
    })
}

/// How far the interpreter has come to which so many lines before this one lead, where it is the comment that says so.
pub(crate) fn progress_behind(
    alloc: Global,
    line: &[u8],
    count: u64,
) -> Result<Option<Progress>, AllocError>
    ensures { IfOk result (λ found. IfSome found (λ progress. line.now ≡ end_of count progress)) }
{
    let Some(progress) = said_progress(line) else {
        return Ok(None);
    };
    let end = end_line(alloc, count, progress)?;
    Ok(if end.as_bytes() == line {
        Some(progress)
    } else {
        None
    })
}
