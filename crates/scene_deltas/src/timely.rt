//! Whether the tick of a world may be set: no cell was changed later.
ghost use Rattle.std.specs.Prelude.{◌≡◌, ◌<◌, IfOk, Some, length, slice_get, string_bytes};
ghost use Rattle.std.specs.List.{list_all};
ghost use Rattle.scene_kinds.specs.declared.cells.Row.{Row};
ghost use Rattle.scene_kinds.specs.Cells.{shown};
ghost use Rattle.scene_resources.specs.Resources.{cell_of as resource_of};
ghost use Rattle.scene_model.specs.Can.{can_set_tick};
ghost use Rattle.scene_model.specs.Timely.{if_some, row_is_timely, rows_are_timely, tables_are_timely, resources_are_timely};
ghost use Rattle.scene_model.specs.Valid.{is_timely};

use crate::fits;
use scene_kinds::CellRef;
use scene_resources::Resources;
use scene_table::Table;
use scene_world::World;
use std::alloc::AllocError;

/// Whether a cell that is lent was added no later than it was changed, and changed no later than a tick.
fn is_timely(cell: CellRef<'_>, tick: u64) -> bool
    ensures { result ≡ is_timely tick (shown cell.entry) }
{
    cell.added <= cell.changed && cell.changed <= tick
}

/// Whether all cells of the row at a place were.
fn row_is_timely(table: &Table, at: usize, tick: u64) -> bool
    requires { at < length table.now.rows }
    ensures { (row : Row) → slice_get table.now.rows at ≡ Some row → result ≡ row_is_timely tick row }
{
    for number in 0..table.cell_count(at) {
        let (_, cell) = table.nth_cell(at, number);
        if !is_timely(cell, tick) {
            return false;
        }
    }
    true
}

/// Whether all cells of a table were.
fn rows_are_timely(table: &Table, tick: u64) -> bool
    ensures { result ≡ rows_are_timely tick table.now.rows }
{
    for at in 0..table.len() {
        if !row_is_timely(table, at, tick) {
            return false;
        }
    }
    true
}

/// Whether all cells of tables were.
fn tables_are_timely(tables: &[&Table], tick: u64) -> bool
    ensures { result ≡ list_all (λ table. rows_are_timely tick table.now.rows) tables.now }
{
    tables.iter().all(|table| rows_are_timely(table, tick))
}

/// Whether the cell of a resource was, where it is there.
fn resource_is_timely(resources: &Resources, name: &str, tick: u64) -> bool
    ensures { result ≡ if_some (resource_of resources.now.cells name.now) (is_timely tick) }
{
    match resources.get(name) {
        Some(cell) => fits::is_timely(cell, tick),
        None => true,
    }
}

/// Whether the cells of resources were.
fn resources_are_timely(resources: &Resources, names: &[String], tick: u64) -> bool
    ensures { result ≡ list_all (λ name. if_some (resource_of resources.now.cells (string_bytes name)) (is_timely tick)) names.now }
{
    names
        .iter()
        .all(|name| resource_is_timely(resources, name.as_str(), tick))
}

/// Whether all cells of rows were.
fn all_rows_are_timely(world: &World, tick: u64) -> Result<bool, AllocError>
    ensures { IfOk result (λ are. are ≡ tables_are_timely tick world.now.world.tables) }
{
    let tables = world.tables_in_order()?;
    Ok(tables_are_timely(tables.as_slice(), tick))
}

/// Whether all cells of resources were.
fn all_resources_are_timely(world: &World, tick: u64) -> Result<bool, AllocError>
    ensures { IfOk result (λ are. are ≡ resources_are_timely tick world.now.world.resources) }
{
    let names = world.resources().names()?;
    Ok(resources_are_timely(world.resources(), names.as_slice(), tick))
}

/// Whether the world may have a tick, or an error where no memory was found. It costs a look at all cells of the world.
pub fn can_set_tick(world: &World, tick: u64) -> Result<bool, AllocError>
    ensures { IfOk result (λ can. can ≡ can_set_tick world.now.world tick) }
{
    if !all_rows_are_timely(world, tick)? {
        return Ok(false);
    }
    all_resources_are_timely(world, tick)
}
