//! The rules of rows and tables.
ghost use Rattle.std.specs.Prelude.{◌≡◌, ◌&&◌, ◌++◌, OnOk, IfOk, map as each, nat_eq};
ghost use Rattle.std.specs.List.{list_all};
ghost use Rattle.std.specs.Ordering.{nat_cmp, eq_by_cmp};
ghost use Rattle.std.specs.FinMap.Entries.{is_sorted};
ghost use Rattle.scene_kinds.specs.Cells.{mask_of};
ghost use Rattle.scene_kinds.specs.Schema.{fits_kind};
ghost use Rattle.scene_model.specs.Valid.{is_timely};
ghost use Rattle.scene_validate.specs.Parts.{has_some, keys};
ghost use Rattle.scene_validate.specs.Rules.{flat, is_current, is_row_of, rows_in, are_distinct, rows_are_current, tables_are_sound};
ghost use Rattle.scene_validate.specs.Seen.{lists_seen, seen};

use crate::distinct::are_distinct;
use crate::parts::WorldParts;
use scene_kinds::{Cell, Entity, KindSet, Row, Schema};
use std::alloc::{AllocError, Global};

/// Whether an entity has its slot's generation.
pub(crate) fn is_current(generations: &[u32], entity: Entity) -> bool
    ensures { result ≡ is_current generations.now entity }
{
    match generations.get(entity.index as usize) {
        Some(generation) => *generation == entity.generation,
        None => false,
    }
}

fn are_current(generations: &[u32], rows: &[Row]) -> bool
    ensures { result ≡ list_all (λ r. is_current generations.now r.entity) rows.now }
{
    rows.iter().all(|row| is_current(generations, row.entity))
}

fn tables_are_current(generations: &[u32], tables: &[(KindSet, Vec<Row>)]) -> bool
    ensures { result ≡ list_all (λ t. list_all (λ r. is_current generations.now r.entity) t.1.items) tables.now }
{
    tables
        .iter()
        .all(|(_, rows)| are_current(generations, rows.as_slice()))
}

/// Whether each row's entity has its slot's generation.
pub(crate) fn rows_are_current(parts: &WorldParts) -> bool
    ensures { result ≡ rows_are_current (seen parts.now) }
{
    tables_are_current(parts.generations.as_slice(), parts.tables.as_slice())
}

/// Adds the indices of the entities of rows.
fn add_indices(indices: &mut Vec<u32>, rows: &[Row]) -> Result<(), AllocError>
    ensures { OnOk result (indices.new.items ≡ indices.old.items ++ each (λ r. r.entity.index) rows.now) }
{
    for row in rows {
        indices.push(row.entity.index)?;
    }
    Ok(())
}

/// The indices of the entities of all rows, in order.
pub(crate) fn row_indices(alloc: Global, parts: &WorldParts) -> Result<Vec<u32>, AllocError>
    ensures { IfOk result (λ indices. indices.items ≡ each (λ r. r.entity.index) (rows_in (seen parts.now))) }
{
    let mut indices = Vec::new(alloc);
    for (_, rows) in &parts.tables {
        add_indices(&mut indices, rows.as_slice())?;
    }
    Ok(indices)
}

/// Whether the kinds of cells strictly ascend.
fn kinds_ascend(cells: &[(u8, Cell)]) -> bool
    ensures { result ≡ is_sorted nat_cmp cells.now }
{
    let mut least: u16 = 0;
    for cell in cells {
        let kind = u16::from(cell.0);
        if kind < least {
            return false;
        }
        least = kind + 1;
    }
    true
}

/// Whether each cell fits its kind.
fn cells_fit(schema: &Schema, cells: &[(u8, Cell)]) -> bool
    ensures { result ≡ list_all (λ c. fits_kind schema.now c.1.value c.0) cells.now }
{
    cells.iter().all(|cell| schema.fits(&cell.1.value, cell.0))
}

/// Whether a row has just the kinds of a set, ascending, and each cell fits its kind.
fn is_row_of(schema: &Schema, mask: KindSet, row: &Row) -> bool
    ensures { result ≡ is_row_of schema.now mask row.now }
{
    // A schema has at most 64 kinds, so a set holds those that are in it.
    let _kinds = schema.len();
    let cells = row.cells.as_slice();
    kinds_ascend(cells) && cells_fit(schema, cells) && row.cells.mask() == mask
}

fn are_rows_of(schema: &Schema, mask: KindSet, rows: &[Row]) -> bool
    ensures { result ≡ list_all (is_row_of schema.now mask) rows.now }
{
    rows.iter().all(|row| is_row_of(schema, mask, row))
}

/// Whether a table has rows, all of its kind set.
fn is_sound(schema: &Schema, table: &(KindSet, Vec<Row>)) -> bool
    ensures { result ≡ (has_some table.now.1.items && list_all (is_row_of schema.now table.now.0) table.now.1.items) }
{
    !table.1.is_empty() && are_rows_of(schema, table.0, table.1.as_slice())
}

/// Whether each table has rows, all of its kind set.
fn tables_fit(schema: &Schema, tables: &[(KindSet, Vec<Row>)]) -> bool
    ensures { result ≡ list_all (λ t. has_some t.1.items && list_all (is_row_of schema.now t.0) t.1.items) tables.now }
{
    tables.iter().all(|table| is_sound(schema, table))
}

/// The kind sets of tables.
fn kind_sets(alloc: Global, tables: &[(KindSet, Vec<Row>)]) -> Result<Vec<KindSet>, AllocError>
    ensures { IfOk result (λ sets. sets.items ≡ each (λ t. t.0) tables.now) }
{
    tables.iter().map(|table| table.0).collect(alloc)
}

/// Whether kind sets are distinct, and each table has rows, all of its kind set.
pub(crate) fn tables_are_sound(alloc: Global, parts: &WorldParts) -> Result<bool, AllocError>
    ensures { IfOk result (λ sound. sound ≡ tables_are_sound (seen parts.now)) }
{
    let sets = kind_sets(alloc, parts.tables.as_slice())?;
    if !are_distinct(alloc, sets.as_slice())? {
        return Ok(false);
    }
    Ok(tables_fit(&parts.schema, parts.tables.as_slice()))
}

/// Whether a cell was added no later than changed, and changed no later than now.
pub(crate) fn is_timely(tick: u64, cell: &Cell) -> bool
    ensures { result ≡ is_timely tick cell.now }
{
    cell.added <= cell.changed && cell.changed <= tick
}

fn cells_timely(tick: u64, cells: &[(u8, Cell)]) -> bool
    ensures { result ≡ list_all (λ c. is_timely tick c.1) cells.now }
{
    cells.iter().all(|cell| is_timely(tick, &cell.1))
}

fn rows_timely(tick: u64, rows: &[Row]) -> bool
    ensures { result ≡ list_all (λ r. list_all (λ c. is_timely tick c.1) r.cells) rows.now }
{
    rows.iter()
        .all(|row| cells_timely(tick, row.cells.as_slice()))
}

/// Whether each cell of each row is timely.
pub(crate) fn tables_timely(tick: u64, tables: &[(KindSet, Vec<Row>)]) -> bool
    ensures { result ≡ list_all (λ t. list_all (λ r. list_all (λ c. is_timely tick c.1) r.cells) t.1.items) tables.now }
{
    tables
        .iter()
        .all(|(_, rows)| rows_timely(tick, rows.as_slice()))
}
