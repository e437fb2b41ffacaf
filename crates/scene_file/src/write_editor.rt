//! A whole editor as JSON.
ghost use Rattle.std.specs.Prelude.{OnOk, reverse};
ghost use Rattle.serde_json.specs.Written.{compact_text};
ghost use Rattle.scene_json.specs.Texts.{Adds};
ghost use Rattle.scene_file.specs.EditorText.{editor_text};

use crate::write_world::{write_first_members, write_last_members};
use scene_file_records::write_records;
use scene_undo::Editor;
use std::alloc::{AllocError, Global};

/// Adds an editor as JSON: its world, with the records of its past, the oldest first, and of its future, the next one
/// first (docs/SCENE_FILES.md, "Version 2"). It costs what the world costs, and a walk over the records.
pub(crate) fn write_editor(
    alloc: Global,
    out: &mut String,
    editor: &Editor,
) -> Result<(), AllocError>
    ensures { OnOk result (Adds out.old out.new (compact_text (editor_text editor.now.world (reverse editor.now.past) editor.now.future))) }
{
    let (past, future) = editor.records();
    write_first_members(alloc, out, editor.world())?;
    out.push_str(",\"redo\":")?;
    write_records(alloc, out, future)?;
    write_last_members(alloc, out, editor.world(), 2)?;
    out.push_str(",\"undo\":")?;
    write_records(alloc, out, past)?;
    out.push_str("}")
}
