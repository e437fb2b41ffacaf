//! What the deltas of a step have beside what each is told by: the cells of rows, and texts.
ghost use Rattle.std.specs.Prelude.{◌≡◌, ◌≤◌, ◌<◌, ◌+◌, ◌++◌, IfNone, IfSome, drop, length, map, take};
ghost use Rattle.scene_c.specs.Joined.{AreTold, fitting};
ghost use Rattle.scene_c.specs.Steps.{row_seen, text_seen};

use crate::delta::{row_in, text_seen};
use crate::filling::{put, put_bytes};
use crate::value::SceneCell;
use scene_deltas::{Delta, Forward};

/// What is told of each delta as a list of its own.
pub(crate) trait DeltaPart<T> {
    ghost use Rattle.std.specs.Prelude.{List};
    ghost use Rattle.scene_deltas.specs.declared.delta.Delta.{Delta};

    // What is told of a delta.
    ghost part: { Self → Delta → List T };

    /// Writes it from a place of the room on, where all fits, and gives where it ends.
    fn put(&self, delta: &Delta, begins: usize, room: &mut [T]) -> Option<usize>
        requires { begins ≤ length room.old }
        ensures none { IfNone result ((room.new ≡ room.old) × (length room.old < begins + length (part self.now delta.now))) }
        ensures some { IfSome result (λ ends. (ends ≡ begins + length (part self.now delta.now)) × (ends ≤ length room.old)
            × (room.new ≡ take begins room.old ++ part self.now delta.now ++ drop ends room.old)) };
}

/// The cells of the row that a delta brought or took away.
#[derive(Drop)]
pub(crate) struct RowPart;

impl DeltaPart<SceneCell> for RowPart {
    ghost part = { λ _ d. row_seen d };

    fn put(&self, delta: &Delta, begins: usize, room: &mut [SceneCell]) -> Option<usize> {
        put(row_in(delta), begins, room)
    }
}

/// A text of a delta: before it, after it, or the name of its resource; of a row that of a kind.
#[derive(Drop)]
pub(crate) struct TextPart {
    pub(crate) which: u32,
    pub(crate) kind: u8,
}

impl DeltaPart<u8> for TextPart {
    ghost part = { λ p d. text_seen p.which p.kind d };

    fn put(&self, delta: &Delta, begins: usize, room: &mut [u8]) -> Option<usize> {
        put_bytes(text_seen(delta, self.which, self.kind), begins, room)
    }
}

/// Writes what deltas have, of as many as there is room for, and gives how many.
pub(crate) fn fill_parts<P: DeltaPart<T>, T: Copy>(
    deltas: Forward<'_>,
    part: &P,
    ends: &mut [usize],
    room: &mut [T],
) -> usize
    ensures { AreTold (fitting (length room.old) (take (length ends.old) (map (P.part part.now) deltas.entry)))
        ends.old ends.new room.old room.new result }
{
    let mut left = deltas;
    let mut size = 0;
    'parts: for at in 0..ends.len() {
        let Some(delta) = left.next() else {
            return at;
        };
        let Some(end) = part.put(delta.get(), size, room) else {
            return at;
        };
        ends[at] = end;
        size = end;
    }
    ends.len()
}
