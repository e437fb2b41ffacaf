//! What an open scene tells of a column of texts: their bytes one behind the other, and where each ends.
ghost use Rattle.std.specs.Prelude.{◌≡◌, drop, length, map, take};
ghost use Rattle.scene_kinds.specs.declared.shape.Shape.TheVariants.{Text};
ghost use Rattle.scene_c.specs.Arguments.{kind_of};
ghost use Rattle.scene_c.specs.OpenScene.{text_in, world_of};
ghost use Rattle.scene_c.specs.Reads.{Tells, values_in};
ghost use Rattle.scene_c.specs.Joined.{AreTold, IsUntold, TellsTexts, fitting};

use crate::columns::values_of;
use crate::filling::put_bytes;
use crate::open_scene::OpenScene;
use crate::{BAD, DONE};
use scene_kinds::{KindSet, Shape, Value};

/// The bytes of the text that a value is.
fn text_in(value: &Value) -> &[u8]
    ensures { result.now ≡ text_in value.now }
{
    match value {
        Value::Text(text) => text.as_str().as_bytes(),
        _ => &[],
    }
}

/// The values from one on.
fn rest_of(values: &[Value], from: usize) -> &[Value]
    ensures { result.now ≡ drop from values.now }
{
    match values.get(from..) {
        Some(rest) => rest,
        None => &[],
    }
}

/// Writes texts, as many as there is room for, and gives how many.
fn fill_texts(values: &[Value], ends: &mut [usize], bytes: &mut [u8]) -> usize
    ensures { AreTold (fitting (length bytes.old) (take (length ends.old) (map text_in values.now))) ends.old ends.new bytes.old bytes.new result }
{
    let mut size = 0;
    'texts: for at in 0..values.len().min(ends.len()) {
        let Some(end) = put_bytes(text_in(&values[at]), size, bytes) else {
            return at;
        };
        ends[at] = end;
        size = end;
    }
    values.len().min(ends.len())
}

impl OpenScene {
    /// Lists the texts of a kind in the rows of a kind set.
    pub(crate) fn texts(
        &self,
        mask: KindSet,
        kind: u32,
        from: usize,
        ends: &mut [usize],
        bytes: &mut [u8],
        told: &mut usize,
        total: &mut usize,
    ) -> u32
        ensures { Tells (IsUntold ends.old ends.new bytes.old bytes.new told.old told.new total.old total.new)
            (TellsTexts (values_in (world_of self.now) mask (kind_of kind) Text) from
            ends.old ends.new bytes.old bytes.new told.old told.new total.old total.new) self.now result }
    {
        let Some(world) = self.world() else {
            return BAD;
        };
        let Some(values) = values_of(world, mask, kind, Shape::Text) else {
            return BAD;
        };
        *total = values.len();
        *told = fill_texts(rest_of(values, from), ends, bytes);
        DONE
    }
}
