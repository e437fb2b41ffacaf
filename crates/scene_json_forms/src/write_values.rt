//! Numbers, entities, values and cells as JSON.
ghost use Rattle.std.specs.Prelude.{[], ◌∷◌, OnOk};
ghost use Rattle.serde_json.specs.Written.{compact_text, comma_if};
ghost use Rattle.scene_json.specs.Texts.{Adds};
ghost use Rattle.scene_kinds.specs.Cells.{shown};
ghost use Rattle.scene_kinds.specs.Entity.{entity_text};
ghost use Rattle.scene_json_forms.specs.Printing.{three_text, ticks_text};
ghost use Rattle.scene_json_forms.specs.Text.{list_text, count_text, int_text, entity_json, value_text, cell_text, resource_cell_text};

use scene_json::{write_count, write_int, write_json_text};
use scene_kinds::{Cell, CellRef, Entity, Value};
use std::alloc::{AllocError, Global};

/// Adds to a text the comma before an element that isn't the first of its list, or nothing. Of all printers only want
/// of memory is an error, and then a part may have been added.
pub fn write_comma(out: &mut String, later: bool) -> Result<(), AllocError>
    ensures { OnOk result (Adds out.old out.new (comma_if later)) }
{
    if later {
        out.push_str(",")?;
    }
    Ok(())
}

/// Adds the list of these numbers.
pub fn write_counts(out: &mut String, numbers: &[u32]) -> Result<(), AllocError>
    ensures { OnOk result (Adds out.old out.new (compact_text (list_text count_text numbers.now))) }
{
    let mut later = false;
    out.push_str("[")?;
    'numbers: for n in numbers {
        write_comma(out, later)?;
        write_count(out, *n as u64)?;
        later = true;
    }
    out.push_str("]")
}

/// Adds an entity's text (docs/MODEL.md, "The rule of entity texts").
pub fn write_entity_text(out: &mut String, entity: Entity) -> Result<(), AllocError>
    ensures { OnOk result (Adds out.old out.new (entity_text entity.index entity.generation)) }
{
    write_count(out, entity.index as u64)?;
    out.push_str("v")?;
    write_count(out, entity.generation as u64)
}

/// Adds an entity, as a string of its text.
pub fn write_entity(out: &mut String, entity: Entity) -> Result<(), AllocError>
    ensures { OnOk result (Adds out.old out.new (compact_text (entity_json entity))) }
{
    out.push_str("\"")?;
    write_entity_text(out, entity)?;
    out.push_str("\"")
}

/// Adds the list of these entities.
pub fn write_entities(out: &mut String, entities: &[Entity]) -> Result<(), AllocError>
    ensures { OnOk result (Adds out.old out.new (compact_text (list_text entity_json entities.now))) }
{
    let mut later = false;
    out.push_str("[")?;
    'entities: for entity in entities {
        write_comma(out, later)?;
        write_entity(out, *entity)?;
        later = true;
    }
    out.push_str("]")
}

/// Adds three whole numbers with commas between them.
pub fn write_three(out: &mut String, x: i64, y: i64, z: i64) -> Result<(), AllocError>
    ensures { OnOk result (Adds out.old out.new (three_text x y z)) }
{
    write_int(out, x)?;
    out.push_str(",")?;
    write_int(out, y)?;
    out.push_str(",")?;
    write_int(out, z)
}

/// Adds a list of three whole numbers.
fn write_three_listed(out: &mut String, x: i64, y: i64, z: i64) -> Result<(), AllocError>
    ensures { OnOk result (Adds out.old out.new (compact_text (list_text int_text (x ∷ y ∷ z ∷ [])))) }
{
    out.push_str("[")?;
    write_three(out, x, y, z)?;
    out.push_str("]")
}

/// Adds the list of the three numbers of a `Vec3`.
fn write_vec3(out: &mut String, parts: &[i64; 3]) -> Result<(), AllocError>
    ensures { OnOk result (Adds out.old out.new (compact_text (list_text int_text parts.now))) }
{
    let [x, y, z] = *parts;
    write_three_listed(out, x, y, z)
}

/// Adds a value, by its shape (docs/SCENE_FILES.md, "Version 1").
#[tactic(auto, using(crate::proofs::Quoted::int_digits))]
pub fn write_value(alloc: Global, out: &mut String, value: &Value) -> Result<(), AllocError>
    ensures { OnOk result (Adds out.old out.new (compact_text (value_text value.now))) }
{
    match value {
        Value::Tag => out.push_str("true"),
        Value::Int(n) => write_int(out, *n),
        Value::Vec3(parts) => write_vec3(out, parts),
        Value::Text(text) => write_json_text(alloc, out, text.as_str()),
        Value::Link(entity) => write_entity(out, *entity),
    }
}

/// Adds what the list of a cell ends with: its two ticks.
pub fn write_ticks(out: &mut String, added: u64, changed: u64) -> Result<(), AllocError>
    ensures { OnOk result (Adds out.old out.new (ticks_text added changed)) }
{
    out.push_str(",")?;
    write_count(out, added)?;
    out.push_str(",")?;
    write_count(out, changed)?;
    out.push_str("]")
}

/// Adds the cell of a component: the list of its value and its two ticks.
pub fn write_cell(alloc: Global, out: &mut String, cell: CellRef<'_>) -> Result<(), AllocError>
    ensures { OnOk result (Adds out.old out.new (compact_text (cell_text (shown cell.entry)))) }
{
    out.push_str("[")?;
    write_value(alloc, out, cell.value)?;
    write_ticks(out, cell.added, cell.changed)
}

/// Adds the cell of a resource: the list of its shape, its value and its two ticks.
pub fn write_resource_cell(alloc: Global, out: &mut String, cell: &Cell) -> Result<(), AllocError>
    ensures { OnOk result (Adds out.old out.new (compact_text (resource_cell_text cell.now))) }
{
    out.push_str("[")?;
    write_json_text(alloc, out, cell.value.shape().name())?;
    out.push_str(",")?;
    write_value(alloc, out, &cell.value)?;
    write_ticks(out, cell.added, cell.changed)
}
