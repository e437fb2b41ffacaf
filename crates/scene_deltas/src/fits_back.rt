//! What the tests of deltas ask of a world on which they are taken back.
ghost use Rattle.std.specs.Prelude.{◌≡◌, IfNone, IfSome, None, length, true, false};
ghost use Rattle.scene_kinds.specs.Cells.{mask_of};
ghost use Rattle.scene_alloc.specs.Slots.{is_fresh, can_release, can_unrelease, is_raised, is_free, retires};
ghost use Rattle.scene_table.specs.Tables.{rows_at};
ghost use Rattle.scene_model.specs.World.{row_of};
ghost use Rattle.scene_model.specs.Raw.{cells_of, shifted};
ghost use Rattle.scene_model.specs.Can.{are_good_cells, has_last_row, is_place_in, can_move, can_drop, can_uncut, can_unshift};
ghost use Rattle.scene_model.specs.Timely.{if_some};
ghost use Rattle.scene_deltas.specs.Standing.{Stands};

use crate::fits::{are_good_cells, can_move, has_cells, last_of};
use scene_alloc::Slots;
use scene_kinds::{Cell, Cells, Entity, KindSet, set_with, set_without};
use scene_table::Table;
use scene_world::World;

/// The table in which the row of an entity stands, with all rows of its kind set, and the row's place there; `None`
/// where it has none.
fn standing_in_whole(world: &World, entity: Entity) -> Option<(&Table, u32)>
    ensures none { IfNone result (row_of world.now.world entity ≡ None) }
    ensures some { IfSome result (λ s. Stands world.now.world entity s.0.now s.1) }
    ensures rows { IfSome result (λ s. s.0.now.rows ≡ rows_at world.now.world.tables s.0.now.mask) }
{
    let mask = world.mask_of(entity)?;
    let place = world.place_of(entity)?;
    let table = world.rows_of(mask)?;
    Some((table, place))
}

/// Whether the row of an entity is the last of its table, with just these cells.
fn has_last_row(world: &World, entity: Entity, cells: &Cells) -> bool
    ensures { result ≡ has_last_row world.now.world entity cells.now }
{
    // This tells the prover that the world is valid.
    let _tick = world.tick();
    match standing_in_whole(world, entity) {
        Some((table, at)) => at as usize + 1 == table.len() && has_cells(table, at, cells),
        None => false,
    }
}

/// Whether the row of an entity is the last of its table.
fn is_last(world: &World, entity: Entity) -> bool
    ensures { result ≡ has_last_row world.now.world entity (cells_of world.now.world entity) }
{
    // This tells the prover that the world is valid.
    let _tick = world.tick();
    match standing_in_whole(world, entity) {
        Some((table, at)) => at as usize + 1 == table.len(),
        None => false,
    }
}

/// Whether an entity has the last slot, just made.
fn is_fresh(slots: &Slots, entity: Entity) -> bool
    ensures { result ≡ is_fresh slots.now.state entity }
{
    slots.free().is_empty() && entity.index as usize + 1 == slots.len() && entity.generation == 1
}

/// Whether an index is free.
fn is_free(slots: &Slots, index: u32) -> bool
    ensures { result ≡ is_free slots.now.state index }
{
    slots.free().iter().any(|free| index == *free)
}

/// Whether an entity has its slot's generation, and its index isn't free.
fn can_release(slots: &Slots, entity: Entity) -> bool
    ensures { result ≡ can_release slots.now.state entity }
{
    slots.generation_of(entity.index) == Some(entity.generation) && !is_free(slots, entity.index)
}

/// Whether the index of an entity is the last free one, with the next generation.
fn is_raised(slots: &Slots, entity: Entity) -> bool
    requires { retires entity ≡ false }
    ensures { result ≡ is_raised slots.now.state entity }
{
    last_of(slots.free()) == Some(entity.index)
        && slots.generation_of(entity.index) == Some(entity.generation + 1)
}

/// Whether the slots are as after the release of an entity, which retired its index or not.
fn can_unrelease(slots: &Slots, entity: Entity, retired: bool) -> bool
    ensures { result ≡ can_unrelease slots.now.state entity retired }
{
    if entity.generation == 0 || retired != (entity.generation == u32::MAX) {
        return false;
    }
    if retired {
        can_release(slots, entity)
    } else {
        is_raised(slots, entity)
    }
}

/// How many rows a kind set has.
fn row_count(world: &World, mask: KindSet) -> usize
    ensures { result ≡ length (rows_at world.now.world.tables mask) }
{
    match world.rows_of(mask) {
        Some(table) => table.len(),
        None => 0,
    }
}

/// How many rows the kind set of these cells has.
fn count_beside(world: &World, cells: &Cells) -> usize
    requires { are_good_cells world.now.world cells.now ≡ true }
    ensures { result ≡ length (rows_at world.now.world.tables (mask_of cells.now)) }
{
    // This tells the prover that the world is valid.
    let _tick = world.tick();
    row_count(world, cells.mask())
}

/// Whether a link names a place in the list of a live parent, or behind it.
fn is_place_in(world: &World, link: (Entity, u32)) -> bool
    ensures { result ≡ is_place_in world.now.world world.now.world.children link }
{
    world.is_alive(link.0) && link.1 as usize <= world.links().children_of(link.0).len()
}

/// The same of a link that may be none.
fn may_be_linked(world: &World, link: Option<(Entity, u32)>) -> bool
    ensures { result ≡ if_some link (is_place_in world.now.world world.now.world.children) }
{
    match link {
        Some(link) => is_place_in(world, link),
        None => true,
    }
}

/// The kind set of an entity, empty where it isn't alive.
fn mask_in(world: &World, entity: Entity) -> KindSet
    ensures { result ≡ mask_of (cells_of world.now.world entity) }
{
    // This tells the prover that the world is valid.
    let _tick = world.tick();
    match world.mask_of(entity) {
        Some(mask) => mask,
        None => 0,
    }
}

/// How many rows the kind set has to which a row goes that is shifted.
fn count_shifted(world: &World, entity: Entity, kind: u8, cell: &Cell, inward: bool) -> usize
    requires { can_move world.now.world (cells_of world.now.world entity) kind cell.now inward ≡ true }
    ensures { result ≡ length (rows_at world.now.world.tables (mask_of (shifted (cells_of world.now.world entity) kind cell.now inward))) }
{
    // This tells the prover that the world is valid.
    let _tick = world.tick();
    let mask = mask_in(world, entity);
    if inward {
        row_count(world, set_with(mask, kind))
    } else {
        row_count(world, set_without(mask, kind))
    }
}

/// Whether a row may be dropped.
pub(crate) fn can_drop(world: &World, entity: Entity, cells: &Cells, fresh: bool) -> bool
    ensures { result ≡ can_drop world.now.world entity cells.now fresh }
{
    has_last_row(world, entity, cells)
        && world.links().parent_of(entity).is_none()
        && world.links().children_of(entity).is_empty()
        && (!fresh || is_fresh(world.slots(), entity))
}

/// Whether a row that was cut may come back.
pub(crate) fn can_uncut(
    world: &World,
    entity: Entity,
    place: u32,
    cells: &Cells,
    link: Option<(Entity, u32)>,
    retired: bool,
) -> bool
    ensures { result ≡ can_uncut world.now.world entity place cells.now link retired }
{
    can_unrelease(world.slots(), entity, retired)
        && !world.is_alive(entity)
        && are_good_cells(world, cells)
        && place as usize <= count_beside(world, cells)
        && may_be_linked(world, link)
}

/// Whether a row that was shifted may go back.
pub(crate) fn can_unshift(
    world: &World,
    entity: Entity,
    place: u32,
    kind: u8,
    cell: &Cell,
    inward: bool,
) -> bool
    ensures { result ≡ can_unshift world.now.world entity place kind cell.now inward }
{
    is_last(world, entity)
        && can_move(world, entity, kind, cell, !inward)
        && place as usize <= count_shifted(world, entity, kind, cell, !inward)
}
