//! The calls of C that take lists: a spawn with all its components, and a frame of writes.
ghost use Rattle.std.specs.Prelude.{◌≡◌, option_map};
ghost use Rattle.scene_c.specs.Given.{AsksCopied, SubmitsCopied, TellsSpawned, components_in, spawn_line, writes_of};

use crate::given::{components_in, writes_of};
use crate::handle::{Handle, into_held};
use crate::held_scene::HeldScene;
use crate::played::submit_at;
use crate::value::{SceneCell, SceneEntity};
use crate::{BAD, CLOSED, NO_MEMORY, SHARED};
use scene_commands::Components;
use std::alloc::Global;
use std::mem;

/// Spawns an entity with these components: a command. Its entity goes to `out`, or in an open frame the name that later
/// commands of the queue have for it. `BAD` for a cell that names no component. What `scene_with` has given stays for the
/// next `scene_spawn`.
#[unsafe(no_mangle)]
pub extern "C" fn scene_spawn_cells(
    alloc: Global,
    scene: &mut Handle,
    cells: &[SceneCell],
    bytes: &[u8],
    out: &mut SceneEntity,
) -> u32
    ensures asked { AsksCopied (option_map spawn_line (components_in bytes.now cells.now)) scene.old.value scene.new.value result }
    ensures spawned { TellsSpawned result scene.old.value scene.new.value out.old out.new }
{
    let Ok(found) = components_in(alloc, cells, bytes) else {
        return NO_MEMORY;
    };
    let Some(given) = found else {
        return BAD;
    };
    let taken = mem::replace(scene, Handle::closed(alloc));
    let Some(held) = into_held(taken) else {
        return CLOSED;
    };
    let mut held = held;
    let code = match &mut *held {
        HeldScene::Alone(open_scene) => open_scene.spawn_given(Components::from(given), out),
        HeldScene::Shared(_) => SHARED,
    };
    *scene = Handle::of_box(held);
    code
}

/// Gives each entity the component at its place, or writes the one of its kind: a frame of its own, all or nothing.
/// `BAD` in an open frame, for a cell that names no component, and where there are not as many cells as entities.
#[unsafe(no_mangle)]
pub extern "C" fn scene_insert_cells(
    alloc: Global,
    scene: &mut Handle,
    entities: &[SceneEntity],
    cells: &[SceneCell],
    bytes: &[u8],
) -> u32
    ensures { SubmitsCopied (writes_of bytes.now entities.now cells.now) scene.old.value scene.new.value result }
{
    let Ok(found) = writes_of(alloc, entities, cells, bytes) else {
        return NO_MEMORY;
    };
    let Some(queue) = found else {
        return BAD;
    };
    let taken = mem::replace(scene, Handle::closed(alloc));
    let Some(held) = into_held(taken) else {
        return CLOSED;
    };
    let mut held = held;
    let code = match &mut *held {
        HeldScene::Alone(open_scene) => submit_at(open_scene, queue),
        HeldScene::Shared(_) => SHARED,
    };
    *scene = Handle::of_box(held);
    code
}
