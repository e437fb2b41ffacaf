//! Rows that come to a table, leave it, or go to another one, with the entities whose rows change places by that.
ghost use Rattle.std.specs.Prelude.{◌≡◌, ◌<◌, ◌≤◌, Some, IfOk, length, slice_get, true, false};
ghost use Rattle.scene_kinds.specs.Cells.{HasKinds};
ghost use Rattle.scene_kinds.specs.KindSet.{has_kind, set_with, set_without};
ghost use Rattle.scene_kinds.specs.declared.cells.Row.{Row};
ghost use Rattle.scene_table.specs.Rows.{put_back, swap_out};
ghost use Rattle.scene_table.specs.Table.{HasRoom, cell_at, row_with_cell, row_without_cell};
ghost use Rattle.scene_table.specs.Tables.{row_for};
ghost use Rattle.scene_archetypes.specs.KindTables.{AreMoved, IsRoomFor, entity_at};

use scene_kinds::{Cell, Cells, Entity, Row};
use scene_table::{RowCells, Table, is_text};
use std::alloc::{AllocError, Global};

/// The entity at a place of a list.
#[inline(always)]
pub(crate) fn entity_in(entities: &[Entity], place: usize) -> Option<Entity>
    ensures { result ≡ slice_get entities.now place }
{
    entities.get(place).copied()
}

/// The entity whose row stands at a place of a table, or `None` where none does.
#[inline(always)]
pub(crate) fn entity_at(table: &Table, place: usize) -> Option<Entity>
    ensures { result ≡ entity_at table.now.rows place }
{
    entity_in(table.entities(), place)
}

/// Puts a row at a place of a table, as `Table::unswap_reserved` does. It gives the entity that stood there, whose row
/// went last, and how many rows there were.
#[inline(always)]
pub(crate) fn put_row(
    table: &mut Table,
    place: usize,
    entity: Entity,
    cells: RowCells<'_>,
) -> (Option<Entity>, usize)
    requires within { place ≤ length table.old.rows }
    requires fits { HasKinds table.old.mask (row_for entity cells) }
    requires room { HasRoom table.old }
    ensures displaced { result.0 ≡ entity_at table.old.rows place }
    ensures last { result.1 ≡ length table.old.rows }
    ensures mask { table.new.mask ≡ table.old.mask }
    ensures rows { table.new.rows ≡ put_back table.old.rows place (row_for entity cells.entry) }
    ensures capacity { table.new.capacity ≡ table.old.capacity }
{
    let displaced = entity_at(table, place);
    let last = table.len();
    table.unswap_reserved(place, entity, cells);
    (displaced, last)
}

/// Drops the row at a place of a table, as `Table::drop_row` does. It gives the entity whose row came there, if one did.
#[inline(always)]
pub(crate) fn drop_row(table: &mut Table, place: usize) -> Option<Entity>
    requires { place < length table.old.rows }
    ensures came { result ≡ entity_at table.new.rows place }
    ensures mask { table.new.mask ≡ table.old.mask }
    ensures rows { table.new.rows ≡ swap_out table.old.rows place }
    ensures capacity { table.new.capacity ≡ table.old.capacity }
{
    table.drop_row(place);
    entity_at(table, place)
}

/// What a row needs to be taken out without memory: a copy of its cell, where it has one that isn't a text, else an
/// empty list that has room for its cells.
#[derive(Drop)]
pub(crate) enum Room {
    Lone(Cells),
    Many(Vec<(u8, Cell)>),
}

/// The room of the row at a place. A lone cell takes no memory, but where it is a text.
pub(crate) fn room_for(alloc: Global, table: &Table, place: usize) -> Result<Room, AllocError>
    requires { place < length table.now.rows }
    ensures { IfOk result (IsRoomFor table.now.rows place) }
{
    let count = table.cell_count(place);
    if count == 1 {
        let (kind, cell) = table.nth_cell(place, 0);
        if !is_text(cell.value) {
            let mut cells = Cells::new(alloc);
            cells.put(kind, cell.try_to_cell()?)?;
            return Ok(Room::Lone(cells));
        }
    }
    Ok(Room::Many(Vec::with_capacity(alloc, count)?))
}

/// Takes out the row at a place of a table, for which there is room, and gives it with the entity whose row came there,
/// if one did.
#[inline(always)]
pub(crate) fn take_row(table: &mut Table, place: usize, room: Room) -> (Row, Option<Entity>)
    requires within { place < length table.old.rows }
    requires room { IsRoomFor table.old.rows place room }
    ensures row { slice_get table.old.rows place ≡ Some result.0 }
    ensures came { result.1 ≡ entity_at table.new.rows place }
    ensures mask { table.new.mask ≡ table.old.mask }
    ensures rows { table.new.rows ≡ swap_out table.old.rows place }
    ensures capacity { table.new.capacity ≡ table.old.capacity }
{
    let row = match room {
        Room::Lone(cells) => {
            let entity = table.entity_at(place);
            table.drop_row(place);
            Row { entity, cells }
        }
        Room::Many(list) => table.swap_remove_into(place, list),
    };
    let came = entity_at(table, place);
    (row, came)
}

/// Whose rows changed places besides, where a row went from one table to another.
#[derive(Clone, Copy, Debug)]
pub(crate) struct Moved {
    /// The entity that stood at the row's new place. Its row went last.
    pub(crate) displaced: Option<Entity>,
    /// How many rows the new table had.
    pub(crate) last: usize,
    /// The entity whose row came to the old place.
    pub(crate) came: Option<Entity>,
}

/// Moves a row to a place of the table with one kind more, as `Table::move_with` does.
#[inline(always)]
pub(crate) fn move_with(
    source: &mut Table,
    at: usize,
    target: &mut Table,
    to: usize,
    kind: u8,
    cell: Cell,
) -> Moved
    requires within { at < length source.old.rows }
    requires place { to ≤ length target.old.rows }
    requires low { kind < 64 }
    requires lacks { has_kind source.old.mask kind ≡ false }
    requires kinds { target.old.mask ≡ set_with source.old.mask kind }
    requires room { HasRoom target.old }
    ensures moved { AreMoved target.old.rows to source.new.rows at result }
    ensures mask { source.new.mask ≡ source.old.mask }
    ensures rows { source.new.rows ≡ swap_out source.old.rows at }
    ensures capacity { source.new.capacity ≡ source.old.capacity }
    ensures target_mask { target.new.mask ≡ target.old.mask }
    ensures target_rows { (row : Row) → slice_get source.old.rows at ≡ Some row
        → target.new.rows ≡ put_back target.old.rows to (row_with_cell row kind cell) }
    ensures target_capacity { target.new.capacity ≡ target.old.capacity }
{
    let displaced = entity_at(target, to);
    let last = target.len();
    source.move_with(at, target, to, kind, cell);
    let came = entity_at(source, at);
    Moved {
        displaced,
        last,
        came,
    }
}

/// Moves a row to a place of the table with one kind less, as `Table::move_without` does, and gives the cell of the kind.
#[inline(always)]
pub(crate) fn move_without(
    source: &mut Table,
    at: usize,
    target: &mut Table,
    to: usize,
    kind: u8,
) -> (Cell, Moved)
    requires within { at < length source.old.rows }
    requires place { to ≤ length target.old.rows }
    requires low { kind < 64 }
    requires has { has_kind source.old.mask kind ≡ true }
    requires kinds { target.old.mask ≡ set_without source.old.mask kind }
    requires room { HasRoom target.old }
    ensures moved { AreMoved target.old.rows to source.new.rows at result.1 }
    ensures mask { source.new.mask ≡ source.old.mask }
    ensures rows { source.new.rows ≡ swap_out source.old.rows at }
    ensures capacity { source.new.capacity ≡ source.old.capacity }
    ensures cell { cell_at source.old.rows at kind ≡ Some result.0 }
    ensures target_mask { target.new.mask ≡ target.old.mask }
    ensures target_rows { (row : Row) → slice_get source.old.rows at ≡ Some row
        → target.new.rows ≡ put_back target.old.rows to (row_without_cell row kind) }
    ensures target_capacity { target.new.capacity ≡ target.old.capacity }
{
    let displaced = entity_at(target, to);
    let last = target.len();
    let cell = source.move_without(at, target, to, kind);
    let came = entity_at(source, at);
    let moved = Moved {
        displaced,
        last,
        came,
    };
    (cell, moved)
}
