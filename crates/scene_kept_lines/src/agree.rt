//! Whether two interpreters agree.
ghost use Rattle.std.specs.Prelude.{◌≡◌, ℕ, Ok, IfErr, IfOk, IsTrue, string_bytes};
ghost use Rattle.scene_file.specs.EditorScene.{loaded_again, loaded_editor};
ghost use Rattle.scene_session.specs.Whole.{whole_of};
ghost use Rattle.scene_session.specs.Owner.{whole_at};
ghost use Rattle.scene_interpreter.specs.Interpreter.{owner_of, interpreter_of};
ghost use Rattle.scene_kept_lines.specs.Compacted.{Agrees, AgreesBesides, IsOfNoLine, unrewound};

use crate::line_fault::CompactFault;
use crate::same::are_same;
use scene_file::{FileFault, save_editor_text};
use scene_interpreter::Interpreter;
use scene_schedule::same_schema;
use scene_session::LoneOwner;
use scene_undo::Editor;
use std::alloc::Global;

/// The text of the scene of an editor, as `dumpall` prints it.
pub(crate) fn scene_of(alloc: Global, editor: &Editor) -> Result<String, CompactFault>
    ensures loads { IfOk result (λ text. (depth : ℕ) → loaded_editor depth (string_bytes text) ≡ Ok (loaded_again depth editor.now)) }
    ensures fault { IfErr result IsOfNoLine }
{
    match save_editor_text(alloc, editor) {
        Ok(text) => Ok(text),
        Err(FileFault::TooLong) => Err(CompactFault::TooLong),
        Err(_) => Err(CompactFault::NoMemory),
    }
}

/// Whether two editors, of which the first has this text, differ at most in the count of rewinds.
fn same_editors(
    alloc: Global,
    one: &Editor,
    scene: &str,
    other: &Editor,
) -> Result<bool, CompactFault>
    requires { (depth : ℕ) → loaded_editor depth scene.now ≡ Ok (loaded_again depth one.now) }
    ensures same { IfOk result (λ same. IsTrue same → unrewound (whole_of one.now) ≡ unrewound (whole_of other.now)) }
    ensures fault { IfErr result IsOfNoLine }
{
    if one.depth() != other.depth() {
        return Ok(false);
    }
    let again = scene_of(alloc, other)?;
    Ok(again.as_str() == scene)
}

/// Whether two interpreters have the same systems, turn and limit of calls, and no frame is open.
fn same_besides(one: &Interpreter<LoneOwner>, other: &Interpreter<LoneOwner>) -> bool
    ensures { IsTrue result → AgreesBesides (interpreter_of one.now) (interpreter_of other.now) }
{
    !one.has_open_frame()
        && !other.has_open_frame()
        && same_schema(one.schema(), other.schema())
        && are_same(one.systems(), other.systems())
        && one.session() == other.session()
        && one.call_limit() == other.call_limit()
}

/// Whether two interpreters agree, of which the first has this editor, and the editor this text.
pub(crate) fn agree(
    alloc: Global,
    one: &Interpreter<LoneOwner>,
    editor: &Editor,
    scene: &str,
    other: &Interpreter<LoneOwner>,
) -> Result<bool, CompactFault>
    requires editor { whole_of editor.now ≡ whole_at (owner_of (interpreter_of one.now)) }
    requires scene { (depth : ℕ) → loaded_editor depth scene.now ≡ Ok (loaded_again depth editor.now) }
    ensures same { IfOk result (λ same. IsTrue same → Agrees (interpreter_of one.now) (interpreter_of other.now)) }
    ensures fault { IfErr result IsOfNoLine }
{
    if !same_besides(one, other) {
        return Ok(false);
    }
    match other.editor() {
        Some(again) => same_editors(alloc, editor, scene, again),
        None => Ok(false),
    }
}
