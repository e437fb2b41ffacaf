//! Lists of cells as JSON.
ghost use Rattle.std.specs.Prelude.{OnOk};
ghost use Rattle.serde_json.specs.Written.{compact_text};
ghost use Rattle.scene_json.specs.Texts.{Adds};
ghost use Rattle.scene_json_forms.specs.Text.{list_text};
ghost use Rattle.scene_print.specs.JsonShown.{cell_name_json, listed_answer};

use crate::json_rows::write_kind;
use scene_json::write_json_text;
use scene_json_forms::{write_comma, write_entity};
use scene_kinds::Schema;
use scene_pass::CellName;
use std::alloc::{AllocError, Global};

/// Adds the name of a cell.
fn write_cell_name(
    alloc: Global,
    out: &mut String,
    schema: &Schema,
    cell: CellName,
) -> Result<(), AllocError>
    ensures { OnOk result (Adds out.old out.new (compact_text (cell_name_json schema.now cell))) }
{
    out.push_str("{\"entity\":")?;
    write_entity(out, cell.entity)?;
    out.push_str(",\"kind\":")?;
    write_kind(alloc, out, schema, cell.kind)?;
    out.push_str("}")
}

/// Adds the list of the names of cells.
fn write_cell_names(
    alloc: Global,
    out: &mut String,
    schema: &Schema,
    cells: &[CellName],
) -> Result<(), AllocError>
    ensures { OnOk result (Adds out.old out.new (compact_text (list_text (cell_name_json schema.now) cells.now))) }
{
    let mut later = false;
    out.push_str("[")?;
    'cells: for cell in cells {
        write_comma(out, later)?;
        write_cell_name(alloc, out, schema, *cell)?;
        later = true;
    }
    out.push_str("]")
}

/// Adds the cells that were changed or added as an answer, which is named by the word: each by its entity and the
/// name of its kind (docs/SHELL.md, "JSON"). An error only where no memory was found; a part may be added then.
pub fn write_json_listed(
    alloc: Global,
    out: &mut String,
    word: &str,
    schema: &Schema,
    cells: &[CellName],
) -> Result<(), AllocError>
    ensures { OnOk result (Adds out.old out.new (compact_text (listed_answer word.now schema.now cells.now))) }
{
    out.push_str("{\"answer\":")?;
    write_json_text(alloc, out, word)?;
    out.push_str(",\"cells\":")?;
    write_cell_names(alloc, out, schema, cells)?;
    out.push_str("}")
}
