//! The parts of deltas as JSON.
ghost use Rattle.std.specs.Prelude.{OnOk};
ghost use Rattle.serde_json.specs.Written.{compact_text};
ghost use Rattle.scene_json.specs.Texts.{Adds};
ghost use Rattle.scene_file_records.specs.Text.{kcell_text, kcells_text, link_text, maybe_resource_cell_text};

use scene_deltas::ResourceCell;
use scene_json::write_count;
use scene_json_forms::{write_comma, write_entity, write_resource_cell, write_ticks, write_value};
use scene_kinds::{Cell, Cells, Entity};
use std::alloc::{AllocError, Global};

/// Adds a cell with its kind.
pub(crate) fn write_kcell(
    alloc: Global,
    out: &mut String,
    kind: u8,
    cell: &Cell,
) -> Result<(), AllocError>
    ensures { OnOk result (Adds out.old out.new (compact_text (kcell_text (kind, cell.now)))) }
{
    out.push_str("[")?;
    write_count(out, kind as u64)?;
    out.push_str(",")?;
    write_value(alloc, out, &cell.value)?;
    write_ticks(out, cell.added, cell.changed)
}

/// Adds a list of cells with their kinds.
pub(crate) fn write_kcells(alloc: Global, out: &mut String, cells: &Cells) -> Result<(), AllocError>
    ensures { OnOk result (Adds out.old out.new (compact_text (kcells_text cells.now))) }
{
    let mut later = false;
    out.push_str("[")?;
    'cells: for (kind, cell) in cells.as_slice() {
        write_comma(out, later)?;
        write_kcell(alloc, out, *kind, cell)?;
        later = true;
    }
    out.push_str("]")
}

/// Adds a link, or `null`.
pub(crate) fn write_link(out: &mut String, link: Option<(Entity, u32)>) -> Result<(), AllocError>
    ensures { OnOk result (Adds out.old out.new (compact_text (link_text link))) }
{
    match link {
        None => out.push_str("null"),
        Some((parent, place)) => {
            out.push_str("[")?;
            write_entity(out, parent)?;
            out.push_str(",")?;
            write_count(out, place as u64)?;
            out.push_str("]")
        }
    }
}

/// Adds the cell of a resource, or `null`.
pub(crate) fn write_maybe_resource_cell(
    alloc: Global,
    out: &mut String,
    cell: &ResourceCell,
) -> Result<(), AllocError>
    ensures { OnOk result (Adds out.old out.new (compact_text (maybe_resource_cell_text cell.now))) }
{
    match cell.get() {
        None => out.push_str("null"),
        Some(cell) => write_resource_cell(alloc, out, cell),
    }
}
