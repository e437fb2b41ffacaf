//! The tables of a world as JSON, row by row.
ghost use Rattle.std.specs.Prelude.{◌≡◌, ◌<◌, OnOk, Some, length, slice_get};
ghost use Rattle.serde_json.specs.Written.{compact_text};
ghost use Rattle.scene_json.specs.Texts.{Adds};
ghost use Rattle.scene_kinds.specs.declared.cells.Row.{Row};
ghost use Rattle.scene_json_forms.specs.Text.{list_text, cell_text};
ghost use Rattle.scene_file.specs.Text.{row_text};
ghost use Rattle.scene_file.specs.Printing.{kinds_json, table_json};

use scene_json_forms::{write_cell, write_comma, write_entity};
use scene_kinds::{KindSet, KindSetMethods};
use scene_table::Table;
use std::alloc::{AllocError, Global};

/// Adds the list of the cells of the row at a place of a table.
fn write_cells(alloc: Global, out: &mut String, table: &Table, at: usize) -> Result<(), AllocError>
    requires { at < length table.now.rows }
    ensures { OnOk result ((row : Row) → slice_get table.now.rows at ≡ Some row
        → Adds out.old out.new (compact_text (list_text (λ c. cell_text c.1) row.cells))) }
{
    let mut later = false;
    out.push_str("[")?;
    'cells: for number in 0..table.cell_count(at) {
        let (_, cell) = table.nth_cell(at, number);
        write_comma(out, later)?;
        write_cell(alloc, out, cell)?;
        later = true;
    }
    out.push_str("]")
}

/// Adds the row at a place of a table.
fn write_row(alloc: Global, out: &mut String, table: &Table, at: usize) -> Result<(), AllocError>
    requires { at < length table.now.rows }
    ensures { OnOk result ((row : Row) → slice_get table.now.rows at ≡ Some row
        → Adds out.old out.new (compact_text (row_text row))) }
{
    out.push_str("{\"cells\":")?;
    write_cells(alloc, out, table, at)?;
    out.push_str(",\"entity\":")?;
    write_entity(out, table.entity_at(at))?;
    out.push_str("}")
}

/// Adds the list of the rows of a table.
fn write_rows(alloc: Global, out: &mut String, table: &Table) -> Result<(), AllocError>
    ensures { OnOk result (Adds out.old out.new (compact_text (list_text row_text table.now.rows))) }
{
    let mut later = false;
    out.push_str("[")?;
    'rows: for at in 0..table.len() {
        write_comma(out, later)?;
        write_row(alloc, out, table, at)?;
        later = true;
    }
    out.push_str("]")
}

/// Adds the list of the kinds of a set, ascending.
fn write_kind_set(out: &mut String, mask: KindSet) -> Result<(), AllocError>
    ensures { OnOk result (Adds out.old out.new (compact_text (kinds_json mask))) }
{
    let mut later = false;
    out.push_str("[")?;
    'numbers: for kind in mask.kinds() {
        write_comma(out, later)?;
        write!(out, "{kind}")?;
        later = true;
    }
    out.push_str("]")
}

/// Adds a table: its kind set and its rows.
fn write_table(alloc: Global, out: &mut String, table: &Table) -> Result<(), AllocError>
    ensures { OnOk result (Adds out.old out.new (compact_text (table_json (table.now.mask, table.now.rows)))) }
{
    out.push_str("{\"kinds\":")?;
    write_kind_set(out, table.mask())?;
    out.push_str(",\"rows\":")?;
    write_rows(alloc, out, table)?;
    out.push_str("}")
}

/// Adds the list of tables.
pub(crate) fn write_tables(
    alloc: Global,
    out: &mut String,
    tables: &[&Table],
) -> Result<(), AllocError>
    ensures { OnOk result (Adds out.old out.new (compact_text (list_text (λ t. table_json (t.now.mask, t.now.rows)) tables.now))) }
{
    let mut later = false;
    out.push_str("[")?;
    'tables: for table in tables {
        write_comma(out, later)?;
        write_table(alloc, out, table)?;
        later = true;
    }
    out.push_str("]")
}
