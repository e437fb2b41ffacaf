//! The cells of matching rows that were added or changed after a tick.
ghost use Rattle.std.specs.Prelude.{◌≡◌, ◌<◌, ◌≤◌, ◌++◌, IfOk, OnOk, Some, drop, length, slice_get};
ghost use Rattle.std.specs.List.{flat_map};
ghost use Rattle.scene_kinds.specs.declared.cells.Row.{Row};
ghost use Rattle.scene_pass.specs.Pass.{names_in, cells_where, changed_since, added_since};
ghost use Rattle.scene_table.specs.Since.{is_since};

use crate::cell_name::CellName;
use crate::tables::matching_tables;
use scene_systems::Filter;
use scene_table::{Since, Table};
use scene_world::World;
use std::alloc::{AllocError, Global};

/// How many rows are asked at once whether they have a cell that is listed. Only of those that do the cells are read.
const ROWS_AT_ONCE: usize = 256;

/// Adds the names of the cells that are listed of the row at a place of a table, by kind.
fn push_names(
    names: &mut Vec<CellName>,
    table: &Table,
    at: usize,
    since: Since,
) -> Result<(), AllocError>
    requires { at < length table.now.rows }
    ensures { OnOk result ((row : Row) → slice_get table.now.rows at ≡ Some row
        → names.new.items ≡ names.old.items ++ names_in (is_since since) row) }
{
    let entity = table.entity_at(at);
    'cells: for number in 0..table.cell_count(at) {
        let (kind, cell) = table.nth_cell(at, number);
        if since.has(cell) {
            names.push(CellName { entity, kind })?;
        }
    }
    Ok(())
}

/// Adds the names of the cells that are listed of the rows from a place on, and before another.
fn push_names_of_part(
    names: &mut Vec<CellName>,
    table: &Table,
    from: usize,
    to: usize,
    since: Since,
) -> Result<(), AllocError>
    requires { (from ≤ to) × (to ≤ length table.now.rows) }
    ensures { OnOk result (names.new.items ++ flat_map (names_in (is_since since)) (drop to table.now.rows)
        ≡ names.old.items ++ flat_map (names_in (is_since since)) (drop from table.now.rows)) }
{
    if !table.has_since(from, to, since) {
        return Ok(());
    }
    'rows: for at in from..to {
        push_names(names, table, at, since)?;
    }
    Ok(())
}

/// Adds the names of the cells of a table's rows that are listed.
fn push_names_of_rows(
    names: &mut Vec<CellName>,
    table: &Table,
    since: Since,
) -> Result<(), AllocError>
    ensures { OnOk result (names.new.items ≡ names.old.items ++ flat_map (names_in (is_since since)) table.now.rows) }
{
    if !table.may_have(since) {
        return Ok(());
    }
    let count = table.len();
    let mut from = 0;
    'parts: while from < count {
        let to = from + ROWS_AT_ONCE.min(count - from);
        push_names_of_part(names, table, from, to, since)?;
        from = to;
    }
    Ok(())
}

/// The cells of matching rows that are listed.
fn cells_since(
    alloc: Global,
    world: &World,
    filter: Filter,
    since: Since,
) -> Result<Vec<CellName>, AllocError>
    ensures { IfOk result (λ names. names.items ≡ cells_where (is_since since) world.now.world filter) }
{
    let tables = matching_tables(world, filter)?;
    let mut names = Vec::new(alloc);
    'tables: for table in &tables {
        push_names_of_rows(&mut names, table, since)?;
    }
    Ok(names)
}

/// The cells of the matching rows that were changed after a tick, by row, then by kind (docs/MODEL.md, "The rule of
/// queries"). A cell whose changed tick is `tick` itself isn't listed; one that was added after it is.
///
/// An error only where no memory was found. It costs the number of kind sets times its logarithm, and in each matching
/// table that may have such a cell a comparison for each row and each kind that may, and the cells of 256 rows around
/// each cell that is listed. The rows of other tables aren't read.
pub fn changed_since(
    alloc: Global,
    world: &World,
    filter: Filter,
    tick: u64,
) -> Result<Vec<CellName>, AllocError>
    ensures { IfOk result (λ names. names.items ≡ changed_since world.now.world filter tick) }
{
    cells_since(alloc, world, filter, Since::Changed(tick))
}

/// The cells of the matching rows that were added after a tick, by row, then by kind (docs/MODEL.md, "The rule of
/// queries"). A cell whose added tick is `tick` itself isn't listed.
///
/// An error only where no memory was found. It costs what `changed_since` costs.
pub fn added_since(
    alloc: Global,
    world: &World,
    filter: Filter,
    tick: u64,
) -> Result<Vec<CellName>, AllocError>
    ensures { IfOk result (λ names. names.items ≡ added_since world.now.world filter tick) }
{
    cells_since(alloc, world, filter, Since::Added(tick))
}
