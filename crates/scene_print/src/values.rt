//! The printed texts of values, cells, rows and refusals.
ghost use Rattle.std.specs.Prelude.{OnOk};
ghost use Rattle.scene_json.specs.Texts.{Adds};
ghost use Rattle.scene_kinds.specs.Cells.{shown};
ghost use Rattle.scene_print.specs.Printed.{vec3_text, value_text, assigned_text, cell_text, row_head, row_cell_text, refusal_line};

use crate::kind_texts::KindTexts;
use crate::ticks::{PrintedTicks, write_ticks};
use scene_json::{write_int, write_json_text};
use scene_json_forms::{write_entity_text, write_three};
use scene_kinds::{Cell, CellRef, Entity, Place, Refusal, Schema, Value};
use std::alloc::{AllocError, Global};

/// Adds three whole numbers with commas between them.
fn write_vec3(out: &mut String, v: &[i64; 3]) -> Result<(), AllocError>
    ensures { OnOk result (Adds out.old out.new (vec3_text v.now)) }
{
    let [x, y, z] = *v;
    write_three(out, x, y, z)
}

/// Adds a value (docs/SCRIPTS.md, "Output"): whole numbers in decimal, the three of a `Vec3` with commas
/// between them, a text as a JSON string, a link as an entity text. A tag has no value, and adds nothing.
#[inline(always)]
pub fn write_value(alloc: Global, out: &mut String, value: &Value) -> Result<(), AllocError>
    ensures { OnOk result (Adds out.old out.new (value_text value.now)) }
{
    match value {
        Value::Tag => Ok(()),
        Value::Int(n) => write_int(out, *n),
        Value::Vec3(v) => write_vec3(out, v),
        Value::Text(text) => write_json_text(alloc, out, text.as_str()),
        Value::Link(entity) => write_entity_text(out, *entity),
    }
}

/// Adds what stands behind a name: nothing for a tag, else `=` and the value.
fn write_assigned(alloc: Global, out: &mut String, value: &Value) -> Result<(), AllocError>
    ensures { OnOk result (Adds out.old out.new (assigned_text value.now)) }
{
    if let Value::Tag = value {
        return Ok(());
    }
    out.push_str("=")?;
    write_value(alloc, out, value)
}

/// Adds a cell with its name: `NAME=VALUE@ADDED/CHANGED`, or `NAME@ADDED/CHANGED` for a tag (docs/SCRIPTS.md,
/// "Output").
pub fn write_cell(
    alloc: Global,
    out: &mut String,
    name: &str,
    cell: &Cell,
) -> Result<(), AllocError>
    ensures { OnOk result (Adds out.old out.new (cell_text name.now cell.now)) }
{
    out.push_str(name)?;
    write_assigned(alloc, out, &cell.value)?;
    write_ticks(out, cell.added, cell.changed)
}

/// Adds what a row begins with: `row ENTITY` (docs/SCRIPTS.md, "Output"). Its cells follow, each by
/// `write_row_cell`.
pub fn write_row_head(out: &mut String, entity: Entity) -> Result<(), AllocError>
    ensures { OnOk result (Adds out.old out.new (row_head entity)) }
{
    out.push_str("row ")?;
    write_entity_text(out, entity)
}

/// Adds a cell of a row as `write_row_cell` does, where these ticks were printed last. It stays a function of its own:
/// inlined into the walk over the rows it would spill registers at each cell.
#[inline(never)]
pub(crate) fn write_next_cell(
    alloc: Global,
    out: &mut String,
    kinds: &KindTexts<'_>,
    kind: u8,
    cell: CellRef<'_>,
    ticks: &mut PrintedTicks,
) -> Result<(), AllocError>
    ensures { OnOk result (Adds out.old out.new (row_cell_text kinds.now kind (shown cell.entry))) }
{
    kinds.write_start(out, kind, cell.value)?;
    write_value(alloc, out, cell.value)?;
    ticks.write(out, cell.added, cell.changed)
}

/// Adds a cell of a row: a space, and the cell with the name that the schema has for its kind (docs/SCRIPTS.md,
/// "Output").
pub fn write_row_cell(
    alloc: Global,
    out: &mut String,
    schema: &Schema,
    kind: u8,
    cell: CellRef<'_>,
) -> Result<(), AllocError>
    ensures { OnOk result (Adds out.old out.new (row_cell_text schema.now kind (shown cell.entry))) }
{
    let kinds = KindTexts::none(alloc, schema);
    let mut ticks = PrintedTicks::new(alloc);
    write_next_cell(alloc, out, &kinds, kind, cell, &mut ticks)
}

/// Adds a refusal: the fault by number and name with its fields, and ` at PHASE.QUEUE.COMMAND` where it has a place
/// (docs/SCRIPTS.md, "Output").
pub fn write_refusal(out: &mut String, refusal: Refusal) -> Result<(), AllocError>
    ensures { OnOk result (Adds out.old out.new (refusal_line refusal)) }
{
    match refusal.place {
        Some(
            Place {
                phase,
                queue,
                command,
            },
        ) => write!(out, "{} at {phase}.{queue}.{command}", refusal.fault)?,
        None => write!(out, "{}", refusal.fault)?,
    }
    Ok(())
}
