//! The calls of C that read resources, and leave the scene as it is, with its last answer.
ghost use Rattle.std.specs.Prelude.{◌≡◌, slice_get};
ghost use Rattle.scene_resources.specs.Resources.{names_of};
ghost use Rattle.scene_c.specs.OpenScene.{world_of};
ghost use Rattle.scene_c.specs.Reads.{ListsIf, OrNoMemory, TellsHeld, TellsOf, TellsText, resource_in, text_held};

use crate::CLOSED;
use crate::handle::{Handle, into_held};
use crate::shown::SceneTicks;
use crate::value::SceneCell;
use std::alloc::Global;
use std::mem;

/// Tells the name of a resource, by its place from 0 in the order of their bytes. `BAD` behind the last one, and
/// `NO_MEMORY` where none was found for the list of names.
#[unsafe(no_mangle)]
pub extern "C" fn scene_resources(
    alloc: Global,
    scene: &mut Handle,
    place: usize,
    from: usize,
    at: &mut [u8],
    total: &mut usize,
) -> u32
    ensures told { TellsOf ((at.new ≡ at.old) × (total.new ≡ total.old))
        (λ d. OrNoMemory ((at.new ≡ at.old) × (total.new ≡ total.old))
        (ListsIf ((at.new ≡ at.old) × (total.new ≡ total.old)) (slice_get (names_of (world_of d).resources) place)
        from at.old at.new total.new)) scene.old.value result }
    ensures kept { scene.new.value ≡ scene.old.value }
{
    let taken = mem::replace(scene, Handle::closed(alloc));
    let Some(held) = into_held(taken) else {
        return CLOSED;
    };
    let code = held.seen().resource_name(place, from, at, total);
    *scene = Handle::of_box(held);
    code
}

/// Tells a resource by its numbers, with its ticks; the text that it may be `scene_resource_text` tells. `REFUSED` where
/// there is none of that name.
#[unsafe(no_mangle)]
pub extern "C" fn scene_resource(
    alloc: Global,
    scene: &mut Handle,
    name: &[u8],
    out: &mut SceneCell,
    ticks: &mut SceneTicks,
) -> u32
    ensures told { TellsOf ((out.new ≡ out.old) × (ticks.new ≡ ticks.old))
        (λ d. TellsHeld (resource_in (world_of d) name.now) out.old out.new ticks.old ticks.new) scene.old.value result }
    ensures kept { scene.new.value ≡ scene.old.value }
{
    let taken = mem::replace(scene, Handle::closed(alloc));
    let Some(held) = into_held(taken) else {
        return CLOSED;
    };
    let code = held.seen().resource(name, out, ticks);
    *scene = Handle::of_box(held);
    code
}

/// Tells the text that a resource is. `REFUSED` where there is none of that name, or it is no text.
#[unsafe(no_mangle)]
pub extern "C" fn scene_resource_text(
    alloc: Global,
    scene: &mut Handle,
    name: &[u8],
    from: usize,
    at: &mut [u8],
    total: &mut usize,
) -> u32
    ensures told { TellsOf ((at.new ≡ at.old) × (total.new ≡ total.old))
        (λ d. TellsText (text_held (resource_in (world_of d) name.now)) from at.old at.new total.old total.new) scene.old.value result }
    ensures kept { scene.new.value ≡ scene.old.value }
{
    let taken = mem::replace(scene, Handle::closed(alloc));
    let Some(held) = into_held(taken) else {
        return CLOSED;
    };
    let code = held.seen().resource_text(name, from, at, total);
    *scene = Handle::of_box(held);
    code
}
