//! What no clause says and no script reaches: that rows which left come back, with values and ticks worked out by hand.
ghost use Rattle.std.specs.Prelude.{◌≡◌, length, IfOk};
ghost use Rattle.scene_kinds.specs.Cells.{HasKinds};

use scene_kinds::{Cell, Cells, Entity, Row, Value};
use scene_table::{ColumnRef, Table};
use std::alloc::{AllocError, Global};

fn entity(index: u32) -> Entity {
    Entity {
        index,
        generation: 1,
    }
}

fn cell(number: i64, added: u64, changed: u64) -> Cell {
    Cell {
        value: Value::Int(number),
        added,
        changed,
    }
}

/// A row of generation 1 with a number as its one cell, of kind 0.
fn numbered(alloc: Global, index: u32, cell: Cell) -> Result<Row, AllocError>
    ensures { IfOk result (HasKinds 1) }
{
    let mut items = Vec::new(alloc);
    items.push((0, cell))?;
    Ok(Row {
        entity: entity(index),
        cells: Cells::from_vec(items),
    })
}

/// The rows of 0v1 to 3v1, with the numbers 10 to 13, added at the ticks 1 to 4 and changed at 5 to 8.
fn four_rows(alloc: Global) -> Result<Table, AllocError>
    ensures mask { IfOk result (λ table. table.mask ≡ 1) }
    ensures count { IfOk result (λ table. length table.rows ≡ 4) }
{
    let mut table = Table::new(alloc, 1);
    table.reserve(4)?;
    table.push_row_reserved(numbered(alloc, 0, cell(10, 1, 5))?);
    table.push_row_reserved(numbered(alloc, 1, cell(11, 2, 6))?);
    table.push_row_reserved(numbered(alloc, 2, cell(12, 3, 7))?);
    table.push_row_reserved(numbered(alloc, 3, cell(13, 4, 8))?);
    Ok(table)
}

/// Whether a column has these numbers and ticks.
fn shows(column: Option<ColumnRef<'_>>, numbers: &[i64], added: &[u64], changed: &[u64]) -> bool {
    let Some(column) = column else { return false };
    column.values.len() == numbers.len()
        && column.values.iter().zip(numbers).all(|(
            value,
            number,
        )| matches!(value, Value::Int(n) if n == number))
        && column.added == added
        && column.changed == changed
}

#[test]
fn rows_come_back_to_their_places(rt: HostRuntime) {
    let mut table = four_rows(rt.alloc()).expect(&rt, "memory");
    let first = table.swap_remove(1).expect(&rt, "memory");
    assert!(rt; table.len() == 3);
    let second = table.swap_remove(0).expect(&rt, "memory");
    assert!(rt; table.entities() == [entity(2), entity(3)].as_slice());
    assert!(rt; shows(table.column(0), &[12, 13], &[3, 4], &[7, 8]));
    assert!(rt; table.unswap(0, second).is_ok());
    assert!(rt; table.len() == 3);
    assert!(rt; table.unswap(1, first).is_ok());
    assert!(rt; table.entities() == [entity(0), entity(1), entity(2), entity(3)].as_slice());
    assert!(rt;
        shows(
            table.column(0),
            &[10, 11, 12, 13],
            &[1, 2, 3, 4],
            &[5, 6, 7, 8]
        )
    );
}
