//! The calls of C that read a scene, and leave it as it is, with its last answer: they need no memory, but for
//! `scene_tables`.
ghost use Rattle.std.specs.Prelude.{◌≡◌, map, option_map, slice_get};
ghost use Rattle.std.specs.Option.{option_and_then};
ghost use Rattle.scene_interpreter.specs.Changes.{frame_is_open};
ghost use Rattle.scene_interpreter.specs.Interpreter.{interpreter_of};
ghost use Rattle.scene_kinds.specs.declared.shape.Shape.TheVariants.{Int, Vec3, Link};
ghost use Rattle.scene_links.specs.Forest.{children_of, parent_of};
ghost use Rattle.scene_model.specs.World.{is_live, mask_at};
ghost use Rattle.scene_c.specs.Arguments.{entity_of, kind_of, shown_entity};
ghost use Rattle.scene_c.specs.OpenScene.{world_of};
ghost use Rattle.scene_c.specs.Reads.{IsTold, Lists, ListsIf, OrNoMemory, TellsAlways, TellsCellOf, TellsGathered, TellsKind, TellsMask, TellsNumber, TellsOf, TellsTables, TellsTextOf, entities_in, kind_named, kinds_now, roots_in, tables_in, ticks_in, values_in, whole_now};
ghost use Rattle.scene_c.specs.Shown.{entity_or_none, int_of, link_of, shown_info, shown_truth, vec3_of};

use crate::handle::{Handle, into_held};
use crate::shown::{SceneInfo, SceneTable, SceneTicks, SceneVec3};
use crate::value::{SceneCell, SceneEntity, entity_of, kind_of};
use crate::{BAD, CLOSED};
use scene_systems::Filter;
use std::alloc::Global;
use std::mem;

/// Tells the numbers of a scene: its tick, how far it can be undone, how many slots and kinds there are.
#[unsafe(no_mangle)]
pub extern "C" fn scene_status(alloc: Global, scene: &mut Handle, out: &mut SceneInfo) -> u32
    ensures told { TellsOf (out.new ≡ out.old)
        (λ d. IsTold (shown_info (whole_now d) (frame_is_open (interpreter_of d.interpreter))) out.new) scene.old.value result }
    ensures kept { scene.new.value ≡ scene.old.value }
{
    let taken = mem::replace(scene, Handle::closed(alloc));
    let Some(held) = into_held(taken) else {
        return CLOSED;
    };
    let code = held.seen().status(out);
    *scene = Handle::of_box(held);
    code
}

/// Tells whether an entity is alive.
#[unsafe(no_mangle)]
pub extern "C" fn scene_is_alive(
    alloc: Global,
    scene: &mut Handle,
    entity: SceneEntity,
    out: &mut u32,
) -> u32
    ensures told { TellsOf (out.new ≡ out.old)
        (λ d. IsTold (shown_truth (is_live (world_of d) (entity_of entity))) out.new) scene.old.value result }
    ensures kept { scene.new.value ≡ scene.old.value }
{
    let taken = mem::replace(scene, Handle::closed(alloc));
    let Some(held) = into_held(taken) else {
        return CLOSED;
    };
    let code = held.seen().is_alive(entity_of(entity), out);
    *scene = Handle::of_box(held);
    code
}

/// Tells the kind set of an entity; `REFUSED` where it isn't alive.
#[unsafe(no_mangle)]
pub extern "C" fn scene_mask(
    alloc: Global,
    scene: &mut Handle,
    entity: SceneEntity,
    out: &mut u64,
) -> u32
    ensures told { TellsOf (out.new ≡ out.old)
        (λ d. TellsMask (mask_at (world_of d) (entity_of entity)) out.old out.new) scene.old.value result }
    ensures kept { scene.new.value ≡ scene.old.value }
{
    let taken = mem::replace(scene, Handle::closed(alloc));
    let Some(held) = into_held(taken) else {
        return CLOSED;
    };
    let code = held.seen().mask(entity_of(entity), out);
    *scene = Handle::of_box(held);
    code
}

/// Tells the parent of an entity, or that it has none.
#[unsafe(no_mangle)]
pub extern "C" fn scene_parent(
    alloc: Global,
    scene: &mut Handle,
    entity: SceneEntity,
    out: &mut SceneEntity,
) -> u32
    ensures told { TellsOf (out.new ≡ out.old)
        (λ d. IsTold (entity_or_none (parent_of (world_of d).children (entity_of entity))) out.new) scene.old.value result }
    ensures kept { scene.new.value ≡ scene.old.value }
{
    let taken = mem::replace(scene, Handle::closed(alloc));
    let Some(held) = into_held(taken) else {
        return CLOSED;
    };
    let code = held.seen().parent(entity_of(entity), out);
    *scene = Handle::of_box(held);
    code
}

/// Lists the children of an entity, in their order.
#[unsafe(no_mangle)]
pub extern "C" fn scene_children(
    alloc: Global,
    scene: &mut Handle,
    entity: SceneEntity,
    from: usize,
    at: &mut [SceneEntity],
    total: &mut usize,
) -> u32
    ensures told { TellsOf ((at.new ≡ at.old) × (total.new ≡ total.old))
        (λ d. Lists (map shown_entity (children_of (world_of d).children (entity_of entity))) from at.old at.new total.new) scene.old.value result }
    ensures kept { scene.new.value ≡ scene.old.value }
{
    let taken = mem::replace(scene, Handle::closed(alloc));
    let Some(held) = into_held(taken) else {
        return CLOSED;
    };
    let code = held.seen().children(entity_of(entity), from, at, total);
    *scene = Handle::of_box(held);
    code
}

/// Lists the entities that have no parent, by their index. `NO_MEMORY` where none was found for the list.
#[unsafe(no_mangle)]
pub extern "C" fn scene_roots(
    alloc: Global,
    scene: &mut Handle,
    from: usize,
    at: &mut [SceneEntity],
    total: &mut usize,
) -> u32
    ensures told { TellsOf ((at.new ≡ at.old) × (total.new ≡ total.old))
        (λ d. OrNoMemory ((at.new ≡ at.old) × (total.new ≡ total.old))
        (Lists (map shown_entity (roots_in (world_of d))) from at.old at.new total.new)) scene.old.value result }
    ensures kept { scene.new.value ≡ scene.old.value }
{
    let taken = mem::replace(scene, Handle::closed(alloc));
    let Some(held) = into_held(taken) else {
        return CLOSED;
    };
    let code = held.seen().roots(alloc, from, at, total);
    *scene = Handle::of_box(held);
    code
}

/// Lists the kind sets that have rows, all kinds of one set and none of another, ascending, with the count of their
/// rows. `NO_MEMORY` where none was found for the list.
#[unsafe(no_mangle)]
pub extern "C" fn scene_tables(
    alloc: Global,
    scene: &mut Handle,
    need: u64,
    without: u64,
    from: usize,
    at: &mut [SceneTable],
    total: &mut usize,
) -> u32
    ensures told { TellsOf ((at.new ≡ at.old) × (total.new ≡ total.old))
        (λ d. TellsTables (tables_in (world_of d) (record { need = need; without = without }))
        from at.old at.new total.old total.new) scene.old.value result }
    ensures kept { scene.new.value ≡ scene.old.value }
{
    let taken = mem::replace(scene, Handle::closed(alloc));
    let Some(held) = into_held(taken) else {
        return CLOSED;
    };
    let code = held
        .seen()
        .tables(Filter { need, without }, from, at, total);
    *scene = Handle::of_box(held);
    code
}

/// Lists the entities of the rows of a kind set.
#[unsafe(no_mangle)]
pub extern "C" fn scene_rows(
    alloc: Global,
    scene: &mut Handle,
    mask: u64,
    from: usize,
    at: &mut [SceneEntity],
    total: &mut usize,
) -> u32
    ensures told { TellsOf ((at.new ≡ at.old) × (total.new ≡ total.old))
        (λ d. Lists (map shown_entity (entities_in (world_of d) mask)) from at.old at.new total.new) scene.old.value result }
    ensures kept { scene.new.value ≡ scene.old.value }
{
    let taken = mem::replace(scene, Handle::closed(alloc));
    let Some(held) = into_held(taken) else {
        return CLOSED;
    };
    let code = held.seen().rows(mask, from, at, total);
    *scene = Handle::of_box(held);
    code
}

/// Lists the integers of a kind in the rows of a kind set. `BAD` where the kind isn't one of integers, or not in the set.
#[unsafe(no_mangle)]
pub extern "C" fn scene_ints(
    alloc: Global,
    scene: &mut Handle,
    mask: u64,
    kind: u32,
    from: usize,
    at: &mut [i64],
    total: &mut usize,
) -> u32
    ensures told { TellsOf ((at.new ≡ at.old) × (total.new ≡ total.old))
        (λ d. ListsIf ((at.new ≡ at.old) × (total.new ≡ total.old)) (option_map (map int_of) (values_in (world_of d) mask (kind_of kind) Int))
        from at.old at.new total.new) scene.old.value result }
    ensures kept { scene.new.value ≡ scene.old.value }
{
    let taken = mem::replace(scene, Handle::closed(alloc));
    let Some(held) = into_held(taken) else {
        return CLOSED;
    };
    let code = held.seen().ints(mask, kind, from, at, total);
    *scene = Handle::of_box(held);
    code
}

/// Lists the vectors of a kind in the rows of a kind set. `BAD` where the kind isn't one of vectors, or not in the set.
#[unsafe(no_mangle)]
pub extern "C" fn scene_vec3s(
    alloc: Global,
    scene: &mut Handle,
    mask: u64,
    kind: u32,
    from: usize,
    at: &mut [SceneVec3],
    total: &mut usize,
) -> u32
    ensures told { TellsOf ((at.new ≡ at.old) × (total.new ≡ total.old))
        (λ d. ListsIf ((at.new ≡ at.old) × (total.new ≡ total.old)) (option_map (map vec3_of) (values_in (world_of d) mask (kind_of kind) Vec3))
        from at.old at.new total.new) scene.old.value result }
    ensures kept { scene.new.value ≡ scene.old.value }
{
    let taken = mem::replace(scene, Handle::closed(alloc));
    let Some(held) = into_held(taken) else {
        return CLOSED;
    };
    let code = held.seen().vec3s(mask, kind, from, at, total);
    *scene = Handle::of_box(held);
    code
}

/// Lists the links of a kind in the rows of a kind set. `BAD` where the kind isn't one of links, or not in the set.
#[unsafe(no_mangle)]
pub extern "C" fn scene_links(
    alloc: Global,
    scene: &mut Handle,
    mask: u64,
    kind: u32,
    from: usize,
    at: &mut [SceneEntity],
    total: &mut usize,
) -> u32
    ensures told { TellsOf ((at.new ≡ at.old) × (total.new ≡ total.old))
        (λ d. ListsIf ((at.new ≡ at.old) × (total.new ≡ total.old)) (option_map (map link_of) (values_in (world_of d) mask (kind_of kind) Link))
        from at.old at.new total.new) scene.old.value result }
    ensures kept { scene.new.value ≡ scene.old.value }
{
    let taken = mem::replace(scene, Handle::closed(alloc));
    let Some(held) = into_held(taken) else {
        return CLOSED;
    };
    let code = held.seen().links(mask, kind, from, at, total);
    *scene = Handle::of_box(held);
    code
}

/// Lists the ticks of a kind in the rows of a kind set: for 0 those at which a cell was added, for 1 those at which it
/// was last changed. `BAD` for another number, or where the kind isn't in the set.
#[unsafe(no_mangle)]
pub extern "C" fn scene_ticks(
    alloc: Global,
    scene: &mut Handle,
    mask: u64,
    kind: u32,
    which: u32,
    from: usize,
    at: &mut [u64],
    total: &mut usize,
) -> u32
    ensures told { TellsOf ((at.new ≡ at.old) × (total.new ≡ total.old))
        (λ d. ListsIf ((at.new ≡ at.old) × (total.new ≡ total.old)) (ticks_in (world_of d) mask (kind_of kind) which)
        from at.old at.new total.new) scene.old.value result }
    ensures kept { scene.new.value ≡ scene.old.value }
{
    let taken = mem::replace(scene, Handle::closed(alloc));
    let Some(held) = into_held(taken) else {
        return CLOSED;
    };
    let code = held.seen().ticks(mask, kind, which, from, at, total);
    *scene = Handle::of_box(held);
    code
}

/// Tells the shape and the name of a kind, in the setup too; `BAD` behind the last one.
#[unsafe(no_mangle)]
pub extern "C" fn scene_kind(
    alloc: Global,
    scene: &mut Handle,
    kind: u32,
    shape: &mut u32,
    from: usize,
    at: &mut [u8],
    total: &mut usize,
) -> u32
    ensures told { TellsAlways ((shape.new ≡ shape.old) × ((at.new ≡ at.old) × (total.new ≡ total.old)))
        (λ d. TellsKind (option_and_then (slice_get (kinds_now d)) (kind_of kind))
        shape.old shape.new from at.old at.new total.old total.new) scene.old.value result }
    ensures kept { scene.new.value ≡ scene.old.value }
{
    let taken = mem::replace(scene, Handle::closed(alloc));
    let Some(held) = into_held(taken) else {
        return CLOSED;
    };
    let code = held.seen().kind(kind, shape, from, at, total);
    *scene = Handle::of_box(held);
    code
}

/// Tells the number of the kind with a name, in the setup too; `BAD` where there is none.
#[unsafe(no_mangle)]
pub extern "C" fn scene_kind_named(
    alloc: Global,
    scene: &mut Handle,
    name: &[u8],
    out: &mut u32,
) -> u32
    ensures told { TellsAlways (out.new ≡ out.old)
        (λ d. TellsNumber (kind_named (kinds_now d) name.now) out.old out.new) scene.old.value result }
    ensures kept { scene.new.value ≡ scene.old.value }
{
    let taken = mem::replace(scene, Handle::closed(alloc));
    let Some(held) = into_held(taken) else {
        return CLOSED;
    };
    let code = held.seen().kind_named(name, out);
    *scene = Handle::of_box(held);
    code
}

/// Tells a component by its numbers, with its ticks; the text that it may be `scene_read_text` tells. `REFUSED` where
/// there is none, and `BAD` for a kind of 256 or more.
#[unsafe(no_mangle)]
pub extern "C" fn scene_read(
    alloc: Global,
    scene: &mut Handle,
    entity: SceneEntity,
    kind: u32,
    out: &mut SceneCell,
    ticks: &mut SceneTicks,
) -> u32
    ensures told { TellsCellOf (kind_of kind) (entity_of entity) scene.old.value out.old out.new ticks.old ticks.new result }
    ensures kept { scene.new.value ≡ scene.old.value }
{
    let Some(short) = kind_of(kind) else {
        return BAD;
    };
    let taken = mem::replace(scene, Handle::closed(alloc));
    let Some(held) = into_held(taken) else {
        return CLOSED;
    };
    let code = held.seen().component(entity_of(entity), short, out, ticks);
    *scene = Handle::of_box(held);
    code
}

/// Tells the text that a component is. `REFUSED` where there is none, or it is no text, and `BAD` for a kind of 256 or
/// more.
#[unsafe(no_mangle)]
pub extern "C" fn scene_read_text(
    alloc: Global,
    scene: &mut Handle,
    entity: SceneEntity,
    kind: u32,
    from: usize,
    at: &mut [u8],
    total: &mut usize,
) -> u32
    ensures told { TellsTextOf (kind_of kind) (entity_of entity) scene.old.value from at.old at.new total.old total.new result }
    ensures kept { scene.new.value ≡ scene.old.value }
{
    let Some(short) = kind_of(kind) else {
        return BAD;
    };
    let taken = mem::replace(scene, Handle::closed(alloc));
    let Some(held) = into_held(taken) else {
        return CLOSED;
    };
    let code = held
        .seen()
        .component_text(entity_of(entity), short, from, at, total);
    *scene = Handle::of_box(held);
    code
}

/// Tells the components of a kind that entities have, in the order of the entities; one that isn't there, as where the
/// entity isn't alive, has the shape 5. `BAD` for a kind of 256 or more.
#[unsafe(no_mangle)]
pub extern "C" fn scene_gather(
    alloc: Global,
    scene: &mut Handle,
    entities: &[SceneEntity],
    kind: u32,
    at: &mut [SceneCell],
) -> u32
    ensures told { TellsGathered (kind_of kind) entities.now scene.old.value at.old at.new result }
    ensures kept { scene.new.value ≡ scene.old.value }
{
    let Some(short) = kind_of(kind) else {
        return BAD;
    };
    let taken = mem::replace(scene, Handle::closed(alloc));
    let Some(held) = into_held(taken) else {
        return CLOSED;
    };
    let code = held.seen().gather(entities, short, at);
    *scene = Handle::of_box(held);
    code
}
