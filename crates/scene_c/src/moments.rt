//! What an open scene tells of its moments, and of the cells that were written since one.
ghost use Rattle.std.specs.Prelude.{◌≡◌, IfOk, option_map};
ghost use Rattle.scene_pass.specs.Pass.{added_since as added_cells, changed_since as changed_cells};
ghost use Rattle.scene_session.specs.Whole.{whole_of};
ghost use Rattle.scene_undo.specs.Cursor.{cursor_of as cursor_in};
ghost use Rattle.scene_c.specs.Reads.{IsTold, ListsSince, OrNoMemory, Tells, names_since, shown_names, whole_now};
ghost use Rattle.scene_c.specs.Shown.{shown_moment};

use crate::filling::fill;
use crate::open_scene::OpenScene;
use crate::shown::{SceneMoment, shown_moment};
use crate::value::{SceneName, cursor_of};
use crate::{BAD, DONE, NO_MEMORY, REFUSED};
use scene_pass::{CellName, added_since, changed_since};
use scene_systems::Filter;
use scene_undo::Editor;
use std::alloc::{AllocError, Global};

/// The cells that were changed since a moment; `None` where something was undone since.
fn changed_names(
    alloc: Global,
    editor: &Editor,
    moment: SceneMoment,
    filter: Filter,
) -> Result<Option<Vec<CellName>>, AllocError>
    ensures { IfOk result (λ found. option_map (λ names. names.items) found ≡ names_since changed_cells (whole_of editor.now) moment filter) }
{
    match editor.since(cursor_of(moment)) {
        Ok(tick) => Ok(Some(changed_since(alloc, editor.world(), filter, tick)?)),
        Err(_) => Ok(None),
    }
}

/// The cells that were added since a moment; `None` where something was undone since.
fn added_names(
    alloc: Global,
    editor: &Editor,
    moment: SceneMoment,
    filter: Filter,
) -> Result<Option<Vec<CellName>>, AllocError>
    ensures { IfOk result (λ found. option_map (λ names. names.items) found ≡ names_since added_cells (whole_of editor.now) moment filter) }
{
    match editor.since(cursor_of(moment)) {
        Ok(tick) => Ok(Some(added_since(alloc, editor.world(), filter, tick)?)),
        Err(_) => Ok(None),
    }
}

/// Lists names, where there is a list.
fn list_names(
    found: Option<Vec<CellName>>,
    from: usize,
    at: &mut [SceneName],
    total: &mut usize,
) -> u32
    ensures { ListsSince (shown_names (option_map (λ names. names.items) found)) from at.old at.new total.old total.new result }
{
    let Some(names) = found else {
        return REFUSED;
    };
    *total = names.len();
    fill(names.as_slice(), from, at);
    DONE
}

impl OpenScene {
    /// Tells the moment now.
    pub(crate) fn moment(&self, out: &mut SceneMoment) -> u32
        ensures { Tells (out.new ≡ out.old)
            (IsTold (shown_moment (cursor_in (whole_now self.now).machine)) out.new) self.now result }
    {
        let Some(editor) = self.interpreter.editor() else {
            return BAD;
        };
        *out = shown_moment(editor.cursor());
        DONE
    }

    /// Lists the cells that were changed since a moment.
    pub(crate) fn changed_since(
        &self,
        alloc: Global,
        moment: SceneMoment,
        filter: Filter,
        from: usize,
        at: &mut [SceneName],
        total: &mut usize,
    ) -> u32
        ensures { Tells ((at.new ≡ at.old) × (total.new ≡ total.old))
            (OrNoMemory ((at.new ≡ at.old) × (total.new ≡ total.old))
            (ListsSince (shown_names (names_since changed_cells (whole_now self.now) moment filter))
            from at.old at.new total.old total.new)) self.now result }
    {
        let Some(editor) = self.interpreter.editor() else {
            return BAD;
        };
        match changed_names(alloc, editor, moment, filter) {
            Ok(found) => list_names(found, from, at, total),
            Err(_) => NO_MEMORY,
        }
    }

    /// Lists the cells that were added since a moment.
    pub(crate) fn added_since(
        &self,
        alloc: Global,
        moment: SceneMoment,
        filter: Filter,
        from: usize,
        at: &mut [SceneName],
        total: &mut usize,
    ) -> u32
        ensures { Tells ((at.new ≡ at.old) × (total.new ≡ total.old))
            (OrNoMemory ((at.new ≡ at.old) × (total.new ≡ total.old))
            (ListsSince (shown_names (names_since added_cells (whole_now self.now) moment filter))
            from at.old at.new total.old total.new)) self.now result }
    {
        let Some(editor) = self.interpreter.editor() else {
            return BAD;
        };
        match added_names(alloc, editor, moment, filter) {
            Ok(found) => list_names(found, from, at, total),
            Err(_) => NO_MEMORY,
        }
    }
}
