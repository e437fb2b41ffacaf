//! What an open scene tells of its steps: the records of the frames that can be undone and redone.
ghost use Rattle.std.specs.Prelude.{◌≡◌, drop, map, slice_get};
ghost use Rattle.std.specs.Option.{option_map};
ghost use Rattle.scene_session.specs.Whole.{whole_of};
ghost use Rattle.scene_c.specs.Memory.{copied};
ghost use Rattle.scene_c.specs.Joined.{IsUntold, TellsParts};
ghost use Rattle.scene_c.specs.Reads.{Tells, whole_now};
ghost use Rattle.scene_c.specs.Steps.{TellsStep, records_on, shown_delta, way_by};

use crate::delta::{SceneDelta, shown_delta};
use crate::delta_parts::{DeltaPart, fill_parts};
use crate::open_scene::OpenScene;
use crate::{BAD, DONE, REFUSED};
use scene_deltas::Forward;
use scene_journal::FrameRecord;
use scene_session::Way;
use scene_undo::Editor;

/// A way by its number (`scene_way`).
pub(crate) fn way_by(number: u32) -> Option<Way>
    ensures { result ≡ way_by number }
{
    match number {
        0 => Some(Way::Back),
        1 => Some(Way::On),
        _ => None,
    }
}

/// The record of a step, by its place along a way.
fn record_on(editor: &Editor, way: Way, place: usize) -> Option<&FrameRecord>
    ensures { option_map (λ r. r.now) result ≡ slice_get (records_on way (whole_of editor.now)) place }
{
    let (past, future) = editor.records();
    match way {
        Way::Back => past.get(past.len().checked_sub(place)?.checked_sub(1)?),
        Way::On => future.get(place),
    }
}

/// The deltas behind so many.
fn behind<'a>(deltas: Forward<'a>, count: usize) -> Forward<'a>
    ensures { result ≡ drop count deltas.entry }
{
    let mut left = deltas;
    'gone: for _ in 0..count {
        let Some(_gone) = left.next() else {
            break 'gone;
        };
    }
    left
}

/// Writes deltas as C sees them, as many as there is room for.
fn fill_deltas(deltas: Forward<'_>, room: &mut [SceneDelta])
    ensures { room.new ≡ copied (map shown_delta deltas.entry) room.old }
{
    let mut left = deltas;
    'deltas: for at in 0..room.len() {
        let Some(delta) = left.next() else {
            break 'deltas;
        };
        room[at] = shown_delta(delta.get());
    }
}

impl OpenScene {
    /// Tells a step along a way: the tick before it, and its deltas in the order in which they were made.
    pub(crate) fn step(
        &self,
        way: Way,
        place: usize,
        tick: &mut u64,
        from: usize,
        at: &mut [SceneDelta],
        total: &mut usize,
    ) -> u32
        ensures { Tells ((tick.new ≡ tick.old) × ((at.new ≡ at.old) × (total.new ≡ total.old)))
            (TellsStep (slice_get (records_on way (whole_now self.now)) place) from tick.old tick.new at.old at.new total.old total.new)
            self.now result }
    {
        let Some(editor) = self.interpreter.editor() else {
            return BAD;
        };
        let Some(record) = record_on(editor, way, place) else {
            return REFUSED;
        };
        *tick = record.tick_before();
        *total = record.deltas().len();
        fill_deltas(behind(record.deltas().forward(), from), at);
        DONE
    }

    /// Tells what the deltas of a step have, from one on, of as many as there is room for.
    pub(crate) fn parts<P: DeltaPart<T>, T: Copy>(
        &self,
        part: &P,
        way: Way,
        place: usize,
        from: usize,
        ends: &mut [usize],
        room: &mut [T],
        told: &mut usize,
        total: &mut usize,
    ) -> u32
        ensures { Tells (IsUntold ends.old ends.new room.old room.new told.old told.new total.old total.new)
            (TellsParts (P.part part.now) (slice_get (records_on way (whole_now self.now)) place) from
            ends.old ends.new room.old room.new told.old told.new total.old total.new) self.now result }
    {
        let Some(editor) = self.interpreter.editor() else {
            return BAD;
        };
        let Some(record) = record_on(editor, way, place) else {
            return REFUSED;
        };
        *total = record.deltas().len();
        *told = fill_parts(behind(record.deltas().forward(), from), part, ends, room);
        DONE
    }
}
