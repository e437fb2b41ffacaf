//! The records that an editor keeps.
ghost use Rattle.std.specs.Prelude.{◌≡◌, length, slice_get};
ghost use Rattle.std.specs.Option.{option_map};
ghost use Rattle.scene_questions.specs.Steps.{last_of, records_of};

use scene_journal::FrameRecord;
use scene_requests::{Side, Way};
use scene_undo::Editor;

/// How many records a side has.
pub(crate) fn record_count(editor: &Editor, side: Side) -> usize
    ensures { result ≡ length (records_of side editor.now) }
{
    match side {
        Side::Past => editor.undo_len(),
        Side::Future => editor.redo_len(),
    }
}

/// The record of a side by its place.
pub(crate) fn record_at(editor: &Editor, side: Side, place: usize) -> Option<&FrameRecord>
    ensures { option_map (λ r. r.now) result ≡ slice_get (records_of side editor.now) place }
{
    let (past, future) = editor.records();
    match side {
        Side::Past => past.get(past.len().checked_sub(place)?.checked_sub(1)?),
        Side::Future => future.get(place),
    }
}

/// The record of the last frame that went a way.
pub(crate) fn last_of(editor: &Editor, way: Way) -> Option<&FrameRecord>
    ensures { option_map (λ r. r.now) result ≡ last_of way editor.now }
{
    match way {
        Way::Forth => record_at(editor, Side::Past, 0),
        Way::Back => record_at(editor, Side::Future, 0),
    }
}
