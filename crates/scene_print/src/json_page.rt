//! A part of the rows that a filter matches, as JSON.
ghost use Rattle.std.specs.Prelude.{◌≡◌, ◌≤◌, ◌++◌, List, IfOk, OnOk, drop, length, string_bytes, take};
ghost use Rattle.std.specs.List.{flat_map};
ghost use Rattle.serde_json.specs.Written.{compact_text};
ghost use Rattle.scene_json.specs.Texts.{Adds};
ghost use Rattle.scene_kinds.specs.declared.cells.Row.{Row};
ghost use Rattle.scene_json_forms.specs.Printing.{rest_text};
ghost use Rattle.scene_json_forms.specs.Text.{list_text};
ghost use Rattle.scene_pass.specs.Pass.{matching_rows};
ghost use Rattle.scene_print.specs.JsonAsked.{page, rows_answer};
ghost use Rattle.scene_print.specs.JsonShown.{row_json};

use crate::json_rows::write_row_behind;
use scene_json_forms::write_comma;
use scene_kinds::Schema;
use scene_pass::{Filter, matching_tables};
use scene_table::Table;
use scene_world::World;
use std::alloc::{AllocError, Global};

/// Adds the rows of a table from a place on and before another to a list, and says whether the list has an element
/// then.
fn write_rows_between(
    alloc: Global,
    out: &mut String,
    schema: &Schema,
    table: &Table,
    from: usize,
    to: usize,
    later: bool,
) -> Result<bool, AllocError>
    requires { (from ≤ to) × (to ≤ length table.now.rows) }
    ensures { IfOk result (λ after. (more : List Row) → string_bytes out.new ++ rest_text after (row_json schema.now) more
        ≡ string_bytes out.old ++ rest_text later (row_json schema.now) (drop from (take to table.now.rows ++ more))) }
{
    let mut later = later;
    'rows: for at in from..to {
        write_comma(out, later)?;
        write_row_behind(alloc, out, "{", schema, table, at)?;
        later = true;
    }
    Ok(later)
}

/// Adds the list of so many rows of tables from one on.
fn write_page(
    alloc: Global,
    out: &mut String,
    schema: &Schema,
    tables: &[&Table],
    from: usize,
    count: usize,
) -> Result<(), AllocError>
    ensures { OnOk result (Adds out.old out.new
        (compact_text (list_text (row_json schema.now) (page from count (flat_map (λ table. table.now.rows) tables.now))))) }
{
    let mut later = false;
    let mut passed = from;
    let mut left = count;
    out.push_str("[")?;
    'tables: for table in tables {
        let first = passed.min(table.len());
        let listed = left.min(table.len() - first);
        later = write_rows_between(alloc, out, schema, table, first, first + listed, later)?;
        passed -= first;
        left -= listed;
    }
    out.push_str("]")
}

/// Adds the list of so many rows that a filter matches, from one on.
fn write_matching_page(
    alloc: Global,
    out: &mut String,
    world: &World,
    filter: Filter,
    from: usize,
    count: usize,
) -> Result<(), AllocError>
    ensures { OnOk result (Adds out.old out.new
        (compact_text (list_text (row_json world.now.world.schema) (page from count (matching_rows world.now.world filter))))) }
{
    let tables = matching_tables(world, filter)?;
    write_page(alloc, out, world.schema(), tables.as_slice(), from, count)
}

/// Adds so many of the rows that a filter matches as an answer, from the place `from` on, 0 the first: by ascending kind
/// set, then by place (docs/SHELL.md, "Questions"). It costs the number of kind sets times its logarithm, and the rows
/// that are listed. An error only where no memory was found; a part may be added then.
pub fn write_json_rows(
    alloc: Global,
    out: &mut String,
    world: &World,
    filter: Filter,
    from: usize,
    count: usize,
) -> Result<(), AllocError>
    ensures { OnOk result (Adds out.old out.new (compact_text (rows_answer world.now.world filter from count))) }
{
    out.push_str("{\"answer\":\"rows\",\"rows\":")?;
    write_matching_page(alloc, out, world, filter, from, count)?;
    out.push_str("}")
}
