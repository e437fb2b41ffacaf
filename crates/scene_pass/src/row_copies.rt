//! Copies of matching rows.
ghost use Rattle.std.specs.Prelude.{◌≡◌, ◌<◌, ◌++◌, IfOk, OnOk, Some, length, slice_get};
ghost use Rattle.scene_pass.specs.Pass.{matching_rows};

use crate::tables::matching_tables;
use scene_kinds::{Cells, Row};
use scene_systems::Filter;
use scene_table::Table;
use scene_world::World;
use std::alloc::{AllocError, Global};

/// A copy of the row at a place of a table.
fn copy_row(alloc: Global, table: &Table, at: usize) -> Result<Row, AllocError>
    requires { at < length table.now.rows }
    ensures { IfOk result (λ copy. slice_get table.now.rows at ≡ Some copy) }
{
    let entity = table.entity_at(at);
    let count = table.cell_count(at);
    let mut items = Vec::with_capacity(alloc, count)?;
    'cells: for number in 0..count {
        let (kind, cell) = table.nth_cell(at, number);
        items.push((kind, cell.try_to_cell()?))?;
    }
    let cells = Cells::from_vec(items);
    Ok(Row { entity, cells })
}

/// Adds copies of a table's rows, in order.
fn push_rows(alloc: Global, copies: &mut Vec<Row>, table: &Table) -> Result<(), AllocError>
    ensures { OnOk result (copies.new.items ≡ copies.old.items ++ table.now.rows) }
{
    copies.reserve(table.len())?;
    'rows: for at in 0..table.len() {
        copies.push(copy_row(alloc, table, at)?)?;
    }
    Ok(())
}

/// Copies of the matching rows, by ascending kind set, then by their places in the table (docs/MODEL.md, "The rule of
/// queries").
///
/// An error only where no memory was found. It costs the number of kind sets times its logarithm, and the cells of the
/// matching rows; the rows of other kind sets aren't read.
pub fn rows(alloc: Global, world: &World, filter: Filter) -> Result<Vec<Row>, AllocError>
    ensures { IfOk result (λ copies. copies.items ≡ matching_rows world.now.world filter) }
{
    let tables = matching_tables(world, filter)?;
    let mut copies = Vec::new(alloc);
    'tables: for table in &tables {
        push_rows(alloc, &mut copies, table)?;
    }
    Ok(copies)
}
