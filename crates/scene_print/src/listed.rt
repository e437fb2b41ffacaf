//! The printed text of a list of cells.
ghost use Rattle.std.specs.Prelude.{OnOk};
ghost use Rattle.scene_json.specs.Texts.{Adds};
ghost use Rattle.scene_print.specs.Listed.{cell_name_text, cell_names_text, listed_text};

use scene_json_forms::write_entity_text;
use scene_kinds::Schema;
use scene_pass::CellName;
use std::alloc::AllocError;

/// Adds the name of a cell: its entity, and the name of its kind, as a line.
fn write_cell_name(out: &mut String, schema: &Schema, cell: CellName) -> Result<(), AllocError>
    ensures { OnOk result (Adds out.old out.new (cell_name_text schema.now cell)) }
{
    write_entity_text(out, cell.entity)?;
    out.push_str(" ")?;
    out.push_str(schema.name_of(cell.kind).unwrap_or(""))?;
    out.push_str("\n")
}

/// Adds the names of cells, a line each.
fn write_cell_names(out: &mut String, schema: &Schema, cells: &[CellName]) -> Result<(), AllocError>
    ensures { OnOk result (Adds out.old out.new (cell_names_text schema.now cells.now)) }
{
    'cells: for cell in cells {
        write_cell_name(out, schema, *cell)?;
    }
    Ok(())
}

/// Adds a word and the number of cells, and then each cell by its entity and the name of its kind, a line each
/// (docs/SCRIPTS.md, "Queries"). An error only where no memory was found; a part may be added then.
pub fn write_listed(
    out: &mut String,
    word: &str,
    schema: &Schema,
    cells: &[CellName],
) -> Result<(), AllocError>
    ensures { OnOk result (Adds out.old out.new (listed_text word.now schema.now cells.now)) }
{
    write!(out, "{word} {}\n", cells.len())?;
    write_cell_names(out, schema, cells)
}
