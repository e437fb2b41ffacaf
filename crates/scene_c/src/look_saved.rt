//! The calls of C that read a scene text and the fault of the systems, and leave the scene as it is, with its last answer.
ghost use Rattle.std.specs.Prelude.{◌≡◌};
ghost use Rattle.scene_c.specs.Reads.{OrNoMemory, TellsAlways, TellsOf, whole_now};
ghost use Rattle.scene_c.specs.Saved.{TellsFault, TellsSaved, fault_now, saved_by};

use crate::CLOSED;
use crate::handle::{Handle, into_held};
use crate::value::SceneRefusal;
use std::alloc::Global;
use std::mem;

/// Tells the scene as a scene text: of version 1, its world alone, or of version 2, with all that can be undone and
/// redone. `REFUSED` where that would be too long to be loaded, and `BAD` for another version. The whole text is made for
/// each call: `NO_MEMORY` where none was found for it.
#[unsafe(no_mangle)]
pub extern "C" fn scene_save_into(
    alloc: Global,
    scene: &mut Handle,
    version: u32,
    from: usize,
    at: &mut [u8],
    total: &mut usize,
) -> u32
    ensures told { TellsOf ((at.new ≡ at.old) × (total.new ≡ total.old))
        (λ d. OrNoMemory ((at.new ≡ at.old) × (total.new ≡ total.old))
        (TellsSaved (saved_by version (whole_now d)) from at.old at.new total.old total.new)) scene.old.value result }
    ensures kept { scene.new.value ≡ scene.old.value }
{
    let taken = mem::replace(scene, Handle::closed(alloc));
    let Some(held) = into_held(taken) else {
        return CLOSED;
    };
    let code = held.seen().save_into(alloc, version, from, at, total);
    *scene = Handle::of_box(held);
    code
}

/// Tells the fault for which `scene_advance` would refuse the systems that there are: `REFUSED`, and `DONE` where there
/// is none. `NO_MEMORY` where none was found for a copy of them.
#[unsafe(no_mangle)]
pub extern "C" fn scene_check_systems(
    alloc: Global,
    scene: &mut Handle,
    out: &mut SceneRefusal,
) -> u32
    ensures told { TellsAlways (out.new ≡ out.old)
        (λ d. OrNoMemory (out.new ≡ out.old) (TellsFault (fault_now d) out.old out.new)) scene.old.value result }
    ensures kept { scene.new.value ≡ scene.old.value }
{
    let taken = mem::replace(scene, Handle::closed(alloc));
    let Some(held) = into_held(taken) else {
        return CLOSED;
    };
    let code = held.seen().check_systems(alloc, out);
    *scene = Handle::of_box(held);
    code
}
