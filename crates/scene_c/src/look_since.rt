//! The calls of C that tell what was written since a moment, and leave the scene as it is, with its last answer.
ghost use Rattle.std.specs.Prelude.{◌≡◌};
ghost use Rattle.scene_pass.specs.Pass.{added_since, changed_since};
ghost use Rattle.scene_undo.specs.Cursor.{cursor_of};
ghost use Rattle.scene_c.specs.Reads.{IsTold, ListsSince, OrNoMemory, TellsOf, names_since, shown_names, whole_now};
ghost use Rattle.scene_c.specs.Shown.{shown_moment};

use crate::CLOSED;
use crate::handle::{Handle, into_held};
use crate::shown::SceneMoment;
use crate::value::SceneName;
use scene_systems::Filter;
use std::alloc::Global;
use std::mem;

/// Tells this moment, since which `scene_changed_since` can be asked until something is undone.
#[unsafe(no_mangle)]
pub extern "C" fn scene_now(alloc: Global, scene: &mut Handle, out: &mut SceneMoment) -> u32
    ensures told { TellsOf (out.new ≡ out.old)
        (λ d. IsTold (shown_moment (cursor_of (whole_now d).machine)) out.new) scene.old.value result }
    ensures kept { scene.new.value ≡ scene.old.value }
{
    let taken = mem::replace(scene, Handle::closed(alloc));
    let Some(held) = into_held(taken) else {
        return CLOSED;
    };
    let code = held.seen().moment(out);
    *scene = Handle::of_box(held);
    code
}

/// Lists the cells that were changed since a moment, of the entities that have all kinds of one set and none of another.
/// `REFUSED` where something was undone since, and `NO_MEMORY` where none was found for the list.
#[unsafe(no_mangle)]
pub extern "C" fn scene_changed_since(
    alloc: Global,
    scene: &mut Handle,
    moment: SceneMoment,
    need: u64,
    without: u64,
    from: usize,
    at: &mut [SceneName],
    total: &mut usize,
) -> u32
    ensures told { TellsOf ((at.new ≡ at.old) × (total.new ≡ total.old))
        (λ d. OrNoMemory ((at.new ≡ at.old) × (total.new ≡ total.old)) (ListsSince
        (shown_names (names_since changed_since (whole_now d) moment (record { need = need; without = without })))
        from at.old at.new total.old total.new)) scene.old.value result }
    ensures kept { scene.new.value ≡ scene.old.value }
{
    let taken = mem::replace(scene, Handle::closed(alloc));
    let Some(held) = into_held(taken) else {
        return CLOSED;
    };
    let code = held
        .seen()
        .changed_since(alloc, moment, Filter { need, without }, from, at, total);
    *scene = Handle::of_box(held);
    code
}

/// Lists the cells that were added since a moment, as `scene_changed_since` does those that were changed.
#[unsafe(no_mangle)]
pub extern "C" fn scene_added_since(
    alloc: Global,
    scene: &mut Handle,
    moment: SceneMoment,
    need: u64,
    without: u64,
    from: usize,
    at: &mut [SceneName],
    total: &mut usize,
) -> u32
    ensures told { TellsOf ((at.new ≡ at.old) × (total.new ≡ total.old))
        (λ d. OrNoMemory ((at.new ≡ at.old) × (total.new ≡ total.old)) (ListsSince
        (shown_names (names_since added_since (whole_now d) moment (record { need = need; without = without })))
        from at.old at.new total.old total.new)) scene.old.value result }
    ensures kept { scene.new.value ≡ scene.old.value }
{
    let taken = mem::replace(scene, Handle::closed(alloc));
    let Some(held) = into_held(taken) else {
        return CLOSED;
    };
    let code = held
        .seen()
        .added_since(alloc, moment, Filter { need, without }, from, at, total);
    *scene = Handle::of_box(held);
    code
}
