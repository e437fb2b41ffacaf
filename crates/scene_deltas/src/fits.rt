//! What the tests of deltas ask of a world.
ghost use Rattle.std.specs.Prelude.{◌≡◌, ◌↔◌, ◌<◌, IsTrue, IfSome, IfNone, None, Some, is_none, length, nat_lt, slice_get};
ghost use Rattle.std.specs.FinMap.Entries.{is_sorted};
ghost use Rattle.std.specs.List.{list_all};
ghost use Rattle.std.specs.Option.{option_eq};
ghost use Rattle.std.specs.Ordering.{nat_cmp};
ghost use Rattle.scene_kinds.specs.declared.cells.Row.{Row};
ghost use Rattle.scene_kinds.specs.Cells.{cell_of, shown};
ghost use Rattle.scene_alloc.specs.Ends.{last};
ghost use Rattle.scene_links.specs.Forest.{children_of, cut};
ghost use Rattle.scene_resources.specs.Resources.{cell_of as resource_of};
ghost use Rattle.scene_model.specs.World.{row_of};
ghost use Rattle.scene_model.specs.Raw.{cells_of};
ghost use Rattle.scene_model.specs.Can.{is_next, has_row, has_cell, has_link, is_good_cell, are_good_cells, is_good_resource, can_have_link, can_move};
ghost use Rattle.scene_model.specs.Can.{can_put, can_cut, can_shift, can_set_cell, can_set_link, can_set_resource};
ghost use Rattle.scene_model.specs.Same.{same_cell};
ghost use Rattle.scene_model.specs.Timely.{if_some};
ghost use Rattle.scene_model.specs.Valid.{is_timely};
ghost use Rattle.scene_deltas.specs.Ascending.{kinds_ascend};
ghost use Rattle.scene_deltas.specs.Standing.{Stands};

use crate::resource_cell::ResourceCell;
use crate::same::{same_cell, same_cells};
use scene_kinds::{Cell, CellRef, Cells, Entity, Text, good_name};
use scene_links::Links;
use scene_table::Table;
use scene_world::World;

/// Whether a cell was added no later than it was changed, and changed no later than a tick.
pub(crate) fn is_timely(cell: &Cell, tick: u64) -> bool
    ensures { result ≡ is_timely tick cell.now }
{
    cell.added <= cell.changed && cell.changed <= tick
}

/// Whether a cell may stand in a row of the world.
pub(crate) fn is_good_cell(world: &World, kind: u8, cell: &Cell) -> bool
    ensures { result ≡ is_good_cell world.now.world kind cell.now }
{
    world.schema().fits(&cell.value, kind) && is_timely(cell, world.tick())
}

/// Whether a resource of the world may have a cell.
pub(crate) fn is_good_resource(world: &World, cell: &Cell) -> bool
    ensures { result ≡ is_good_resource world.now.world cell.now }
{
    // This tells the prover that the value is in the range of its type.
    let _shape = cell.value.shape();
    is_timely(cell, world.tick())
}

/// Whether a kind is below those of all cells.
fn is_below(kind: u8, cells: &[(u8, Cell)]) -> bool
    ensures { result ≡ list_all (λ c. nat_lt kind c.0) cells.now }
{
    cells.iter().all(|cell| kind < cell.0)
}

/// Whether each kind is below those after it.
fn kinds_ascend(cells: &[(u8, Cell)]) -> bool
    ensures { result ≡ kinds_ascend cells.now }
{
    for i in 0..cells.len() {
        if !is_below(cells[i].0, &cells[i + 1..]) {
            return false;
        }
    }
    true
}

/// Whether the kinds of cells ascend.
fn is_ascending(cells: &[(u8, Cell)]) -> bool
    ensures { result ≡ is_sorted nat_cmp cells.now }
{
    kinds_ascend(cells)
}

/// Whether each of cells may stand in a row of the world.
fn all_good(world: &World, cells: &[(u8, Cell)]) -> bool
    ensures { result ≡ list_all (λ c. is_good_cell world.now.world c.0 c.1) cells.now }
{
    cells
        .iter()
        .all(|cell| is_good_cell(world, cell.0, &cell.1))
}

/// Whether a row of the world may have these cells.
pub(crate) fn are_good_cells(world: &World, cells: &Cells) -> bool
    ensures { result ≡ are_good_cells world.now.world cells.now }
{
    let items = cells.as_slice();
    is_ascending(items) && all_good(world, items)
}

/// The table in which the row of an entity stands, with its place there; `None` where it has none.
pub fn standing(world: &World, entity: Entity) -> Option<(&Table, u32)>
    ensures none { IfNone result (row_of world.now.world entity ≡ None) }
    ensures some { IfSome result (λ s. Stands world.now.world entity s.0.now s.1) }
{
    // This tells the prover that the world is valid.
    let _tick = world.tick();
    let (table, place) = world.row_of(entity)?;
    Some((table, place as u32))
}

/// Whether an entry has this kind and this cell.
fn is_entry(entry: &(u8, Cell), kind: u8, cell: CellRef<'_>) -> bool
    ensures { IsTrue result ↔ ((kind, shown cell.entry) ≡ entry.now) }
{
    kind == entry.0 && same_cell(cell, &entry.1)
}

/// Whether the row at a place of a table has just these cells.
pub(crate) fn has_cells(table: &Table, place: u32, cells: &Cells) -> bool
    requires { place < length table.now.rows }
    ensures { (row : Row) → slice_get table.now.rows place ≡ Some row → IsTrue result ↔ (row.cells ≡ cells.now) }
{
    let items = cells.as_slice();
    let place = place as usize;
    if items.len() != table.cell_count(place) {
        return false;
    }
    for i in 0..items.len() {
        let (kind, cell) = table.nth_cell(place, i);
        if !is_entry(&items[i], kind, cell) {
            return false;
        }
    }
    true
}

/// Whether a live entity has this very cell of a kind.
pub(crate) fn has_cell(world: &World, entity: Entity, kind: u8, cell: &Cell) -> bool
    ensures { result ≡ has_cell (cells_of world.now.world entity) kind cell.now }
{
    match standing(world, entity) {
        Some((table, place)) => match table.cell(place as usize, kind) {
            Some(there) => same_cell(there, cell),
            None => false,
        },
        None => false,
    }
}

/// Whether an entity hasn't a kind.
pub(crate) fn lacks_kind(world: &World, entity: Entity, kind: u8) -> bool
    ensures { result ≡ is_none (cell_of (cells_of world.now.world entity) kind) }
{
    match standing(world, entity) {
        Some((table, place)) => table.cell(place as usize, kind).is_none(),
        None => true,
    }
}

/// The last of some indices.
pub(crate) fn last_of(indices: &[u32]) -> Option<u32>
    ensures { result ≡ last indices.now }
{
    indices.last().copied()
}

/// Whether the next spawn gives this entity.
fn is_next(world: &World, entity: Entity) -> bool
    ensures { result ≡ is_next world.now.world.slots entity }
{
    match world.next_entity() {
        Some(next) => next == entity,
        None => false,
    }
}

/// Whether an entity has this link, or none.
pub(crate) fn has_link(links: &Links, entity: Entity, link: Option<(Entity, u32)>) -> bool
    ensures { result ≡ has_link links.now.forest entity link }
{
    match (links.parent_of(entity), links.place_of(entity), link) {
        (Some(parent), Some(place), Some(link)) => parent == link.0 && place == link.1 as usize,
        (None, None, None) => true,
        _ => false,
    }
}

/// How many children a parent has beside this one.
pub fn count_without(links: &Links, parent: Entity, child: Entity) -> usize
    ensures { result ≡ length (children_of (cut links.now.forest child) parent) }
{
    let count = links.children_of(parent).len();
    match links.parent_of(child) {
        Some(own) if own == parent => count - 1,
        _ => count,
    }
}

/// Whether a live entity may get this link.
fn can_have_link(world: &World, entity: Entity, link: (Entity, u32)) -> bool
    ensures { result ≡ can_have_link world.now.world entity link }
{
    let links = world.links();
    entity != link.0
        && !links.is_above(entity, link.0)
        && world.is_alive(link.0)
        && link.1 as usize <= count_without(links, link.0, entity)
}

/// Whether a live entity may get this link, or none.
fn may_have_link(world: &World, entity: Entity, link: Option<(Entity, u32)>) -> bool
    ensures { result ≡ if_some link (can_have_link world.now.world entity) }
{
    match link {
        Some(link) => can_have_link(world, entity, link),
        None => true,
    }
}

/// Whether a link may be set from one to another, where either may be none.
pub(crate) fn can_set_link(
    world: &World,
    entity: Entity,
    before: Option<(Entity, u32)>,
    after: Option<(Entity, u32)>,
) -> bool
    ensures { result ≡ can_set_link world.now.world entity before after }
{
    world.is_alive(entity)
        && has_link(world.links(), entity, before)
        && may_have_link(world, entity, after)
}

/// Whether a cell may be set from one to another.
pub(crate) fn can_set_cell(
    world: &World,
    entity: Entity,
    kind: u8,
    before: &Cell,
    after: &Cell,
) -> bool
    ensures { result ≡ can_set_cell world.now.world entity kind before.now after.now }
{
    has_cell(world, entity, kind, before) && is_good_cell(world, kind, after)
}

/// Whether a resource has this cell, or none.
fn has_resource(world: &World, name: &str, cell: &ResourceCell) -> bool
    ensures { result ≡ option_eq same_cell (resource_of world.now.world.resources name.now) cell.now }
{
    match (world.resources().get(name), cell.get()) {
        (Some(there), Some(cell)) => same_cells(there, cell),
        (None, None) => true,
        _ => false,
    }
}

/// Whether a resource may have this cell, or none.
fn may_have_resource(world: &World, cell: &ResourceCell) -> bool
    ensures { result ≡ if_some cell.now (is_good_resource world.now.world) }
{
    match cell.get() {
        Some(cell) => is_good_resource(world, cell),
        None => true,
    }
}

/// Whether a resource may be set from one cell to another, where either may be none.
pub(crate) fn can_set_resource(
    world: &World,
    name: &Text,
    before: &ResourceCell,
    after: &ResourceCell,
) -> bool
    ensures { result ≡ can_set_resource world.now.world name.now before.now after.now }
{
    let name = name.as_str();
    good_name(name) && has_resource(world, name, before) && may_have_resource(world, after)
}

/// Whether the row of an entity stands at this place.
fn stands_at(world: &World, entity: Entity, place: u32) -> bool
    ensures { result ≡ has_row world.now.world entity place (cells_of world.now.world entity) }
{
    // This tells the prover that the world is valid.
    let _tick = world.tick();
    match standing(world, entity) {
        Some((_, at)) => at == place,
        None => false,
    }
}

/// Whether a cell may come into the row of an entity where `inward`, or else is the row's own.
pub(crate) fn can_move(world: &World, entity: Entity, kind: u8, cell: &Cell, inward: bool) -> bool
    ensures { result ≡ can_move world.now.world (cells_of world.now.world entity) kind cell.now inward }
{
    if inward {
        lacks_kind(world, entity, kind) && is_good_cell(world, kind, cell)
    } else {
        has_cell(world, entity, kind, cell)
    }
}

/// Whether a row may be shifted.
pub(crate) fn can_shift(
    world: &World,
    entity: Entity,
    place: u32,
    kind: u8,
    cell: &Cell,
    inward: bool,
) -> bool
    ensures { result ≡ can_shift world.now.world entity place kind cell.now inward }
{
    stands_at(world, entity, place) && can_move(world, entity, kind, cell, inward)
}

/// Whether the row of an entity stands at this place, with just these cells.
fn has_row(world: &World, entity: Entity, place: u32, cells: &Cells) -> bool
    ensures { result ≡ has_row world.now.world entity place cells.now }
{
    // This tells the prover that the world is valid.
    let _tick = world.tick();
    match standing(world, entity) {
        Some((table, at)) => at == place && has_cells(table, at, cells),
        None => false,
    }
}

/// Whether a row may be cut.
pub(crate) fn can_cut(
    world: &World,
    entity: Entity,
    place: u32,
    cells: &Cells,
    link: Option<(Entity, u32)>,
    retired: bool,
) -> bool
    ensures { result ≡ can_cut world.now.world entity place cells.now link retired }
{
    has_row(world, entity, place, cells)
        && world.links().children_of(entity).is_empty()
        && has_link(world.links(), entity, link)
        && retired == (entity.generation == u32::MAX)
}

/// Whether a row may be put.
pub(crate) fn can_put(world: &World, entity: Entity, cells: &Cells, fresh: bool) -> bool
    ensures { result ≡ can_put world.now.world entity cells.now fresh }
{
    is_next(world, entity)
        && fresh == world.slots().takes_new_slot()
        && are_good_cells(world, cells)
}
