//! Rows and tables as JSON.
ghost use Rattle.std.specs.Prelude.{◌≡◌, ◌<◌, ◌++◌, OnOk, Some, codes, length, slice_get};
ghost use Rattle.serde_json.specs.Written.{compact_text};
ghost use Rattle.scene_json.specs.Texts.{Adds};
ghost use Rattle.scene_kinds.specs.Cells.{shown};
ghost use Rattle.scene_kinds.specs.declared.cells.Row.{Row};
ghost use Rattle.scene_json_forms.specs.Text.{list_text};
ghost use Rattle.scene_print.specs.JsonObjects.{object_by};
ghost use Rattle.scene_print.specs.JsonShown.{cell_member, kind_json, kinds_json, row_answer, row_json};
ghost use Rattle.scene_print.specs.JsonSteps.{member_text, row_text};

use scene_json::write_json_text;
use scene_json_forms::{write_cell, write_comma, write_entity};
use scene_kinds::{CellRef, KindSet, KindSetMethods, Schema};
use scene_table::Table;
use std::alloc::{AllocError, Global};

/// Adds the name of a kind.
pub(crate) fn write_kind(
    alloc: Global,
    out: &mut String,
    schema: &Schema,
    kind: u8,
) -> Result<(), AllocError>
    ensures { OnOk result (Adds out.old out.new (compact_text (kind_json schema.now kind))) }
{
    write_json_text(alloc, out, schema.name_of(kind).unwrap_or(""))
}

/// Adds a cell under the name of its kind.
fn write_named_cell(
    alloc: Global,
    out: &mut String,
    schema: &Schema,
    kind: u8,
    cell: CellRef<'_>,
) -> Result<(), AllocError>
    ensures { OnOk result (Adds out.old out.new (member_text (cell_member schema.now (kind, shown cell.entry)))) }
{
    write_kind(alloc, out, schema, kind)?;
    out.push_str(":")?;
    write_cell(alloc, out, cell)
}

/// Adds the object of the cells of the row at a place of a table.
fn write_cells(
    alloc: Global,
    out: &mut String,
    schema: &Schema,
    table: &Table,
    at: usize,
) -> Result<(), AllocError>
    requires { at < length table.now.rows }
    ensures { OnOk result ((row : Row) → slice_get table.now.rows at ≡ Some row
        → Adds out.old out.new (compact_text (object_by (cell_member schema.now) row.cells))) }
{
    let mut later = false;
    out.push_str("{")?;
    'cells: for number in 0..table.cell_count(at) {
        let (kind, cell) = table.nth_cell(at, number);
        write_comma(out, later)?;
        write_named_cell(alloc, out, schema, kind, cell)?;
        later = true;
    }
    out.push_str("}")
}

/// Adds the members of the row at a place of a table.
fn write_members(
    alloc: Global,
    out: &mut String,
    schema: &Schema,
    table: &Table,
    at: usize,
) -> Result<(), AllocError>
    requires { at < length table.now.rows }
    ensures { OnOk result ((row : Row) → slice_get table.now.rows at ≡ Some row
        → Adds out.old out.new (row_text schema.now row)) }
{
    out.push_str("\"entity\":")?;
    write_entity(out, table.entity_at(at))?;
    out.push_str(",\"cells\":")?;
    write_cells(alloc, out, schema, table, at)
}

/// Adds the row at a place of a table, behind the text with which its object begins.
pub(crate) fn write_row_behind(
    alloc: Global,
    out: &mut String,
    lead: &str,
    schema: &Schema,
    table: &Table,
    at: usize,
) -> Result<(), AllocError>
    requires { at < length table.now.rows }
    ensures { OnOk result ((row : Row) → slice_get table.now.rows at ≡ Some row
        → Adds out.old out.new (lead.now ++ (row_text schema.now row ++ codes "}"))) }
{
    out.push_str(lead)?;
    write_members(alloc, out, schema, table, at)?;
    out.push_str("}")
}

/// Adds the row at a place of a table, from 0, as an answer: its entity, and its cells by the names of their kinds
/// (docs/SHELL.md, "JSON"). An error only where no memory was found; a part may be added then.
pub fn write_json_row(
    alloc: Global,
    out: &mut String,
    schema: &Schema,
    table: &Table,
    at: usize,
) -> Result<(), AllocError>
    requires { at < length table.now.rows }
    ensures { OnOk result ((row : Row) → slice_get table.now.rows at ≡ Some row
        → Adds out.old out.new (compact_text (row_answer schema.now row))) }
{
    write_row_behind(alloc, out, "{\"answer\":\"row\",", schema, table, at)
}

/// Adds the list of the rows of a table.
pub(crate) fn write_rows(
    alloc: Global,
    out: &mut String,
    schema: &Schema,
    table: &Table,
) -> Result<(), AllocError>
    ensures { OnOk result (Adds out.old out.new (compact_text (list_text (row_json schema.now) table.now.rows))) }
{
    let mut later = false;
    out.push_str("[")?;
    'rows: for at in 0..table.len() {
        write_comma(out, later)?;
        write_row_behind(alloc, out, "{", schema, table, at)?;
        later = true;
    }
    out.push_str("]")
}

/// Adds the list of the names of the kinds of a set, by their numbers.
pub(crate) fn write_kinds(
    alloc: Global,
    out: &mut String,
    schema: &Schema,
    mask: KindSet,
) -> Result<(), AllocError>
    ensures { OnOk result (Adds out.old out.new (compact_text (kinds_json schema.now mask))) }
{
    let mut later = false;
    out.push_str("[")?;
    'kinds: for kind in mask.kinds() {
        write_comma(out, later)?;
        write_kind(alloc, out, schema, kind)?;
        later = true;
    }
    out.push_str("]")
}
