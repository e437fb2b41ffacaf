//! The call of C that reads a column of texts, and leaves the scene as it is, with its last answer.
ghost use Rattle.std.specs.Prelude.{◌≡◌};
ghost use Rattle.scene_kinds.specs.declared.shape.Shape.TheVariants.{Text};
ghost use Rattle.scene_c.specs.Arguments.{kind_of};
ghost use Rattle.scene_c.specs.OpenScene.{world_of};
ghost use Rattle.scene_c.specs.Reads.{TellsOf, values_in};
ghost use Rattle.scene_c.specs.Joined.{IsUntold, TellsTexts};

use crate::CLOSED;
use crate::handle::{Handle, into_held};
use std::alloc::Global;
use std::mem;

/// Lists the texts of a kind in the rows of a kind set: their bytes one behind the other, and for each where it ends in
/// them. It tells as many as there are places in `ends` and as fit whole into `bytes`, and says how many those are.
/// `BAD` where the kind isn't one of texts, or not in the set.
#[unsafe(no_mangle)]
pub extern "C" fn scene_texts(
    alloc: Global,
    scene: &mut Handle,
    mask: u64,
    kind: u32,
    from: usize,
    ends: &mut [usize],
    bytes: &mut [u8],
    told: &mut usize,
    total: &mut usize,
) -> u32
    ensures told { TellsOf (IsUntold ends.old ends.new bytes.old bytes.new told.old told.new total.old total.new)
        (λ d. TellsTexts (values_in (world_of d) mask (kind_of kind) Text) from
        ends.old ends.new bytes.old bytes.new told.old told.new total.old total.new) scene.old.value result }
    ensures kept { scene.new.value ≡ scene.old.value }
{
    let taken = mem::replace(scene, Handle::closed(alloc));
    let Some(held) = into_held(taken) else {
        return CLOSED;
    };
    let code = held
        .seen()
        .texts(mask, kind, from, ends, bytes, told, total);
    *scene = Handle::of_box(held);
    code
}
