//! What an open scene is by its numbers.
ghost use Rattle.std.specs.Prelude.{◌≡◌};
ghost use Rattle.scene_interpreter.specs.Changes.{frame_is_open};
ghost use Rattle.scene_interpreter.specs.Interpreter.{interpreter_of};
ghost use Rattle.scene_session.specs.Whole.{whole_of};
ghost use Rattle.scene_c.specs.Reads.{IsTold, Tells, whole_now};
ghost use Rattle.scene_c.specs.Shown.{shown_info, shown_truth};

use crate::open_scene::OpenScene;
use crate::shown::SceneInfo;
use crate::{BAD, DONE};
use scene_undo::Editor;

/// A truth as C sees it.
pub(crate) fn shown_truth(is_so: bool) -> u32
    ensures { result ≡ shown_truth is_so }
{
    if is_so { 1 } else { 0 }
}

/// An editor by its numbers, where a frame is open or not.
fn info_of(editor: &Editor, in_frame: bool) -> SceneInfo
    ensures { result ≡ shown_info (whole_of editor.now) in_frame }
{
    let world = editor.world();
    SceneInfo {
        tick: world.tick(),
        rewinds: editor.rewinds(),
        undo: editor.undo_len() as u64,
        redo: editor.redo_len() as u64,
        slots: world.slots().len() as u32,
        limit: world.slots().limit(),
        kinds: world.schema().len() as u32,
        depth: editor.depth(),
        in_frame: shown_truth(in_frame),
    }
}

impl OpenScene {
    /// Tells the scene's numbers.
    pub(crate) fn status(&self, out: &mut SceneInfo) -> u32
        ensures { Tells (out.new ≡ out.old)
            (IsTold (shown_info (whole_now self.now) (frame_is_open (interpreter_of self.now.interpreter))) out.new) self.now result }
    {
        let Some(editor) = self.interpreter.editor() else {
            return BAD;
        };
        *out = info_of(editor, self.interpreter.has_open_frame());
        DONE
    }
}
