//! Copies of cells that take no memory.
ghost use Rattle.std.specs.Prelude.{◌≡◌, false};
ghost use Rattle.scene_table.specs.Plain.{has_text, is_text};

use scene_kinds::{Cell, Value};

/// Whether a value is a text, so that a copy of it takes memory.
pub fn is_text(value: &Value) -> bool
    ensures { result ≡ is_text value.now }
{
    matches!(value, Value::Text(_))
}

/// Whether the value of some cell of a row is a text.
pub fn has_text(cells: &[(u8, Cell)]) -> bool
    ensures { result ≡ has_text cells.now }
{
    cells.iter().any(|cell| is_text(&cell.1.value))
}

/// A copy of a value that isn't a text.
fn plain_value(value: &Value) -> Value
    requires { is_text value.now ≡ false }
    ensures { result ≡ value.now }
{
    match value {
        Value::Tag => Value::Tag,
        Value::Int(number) => Value::Int(*number),
        Value::Vec3(vector) => Value::Vec3(*vector),
        Value::Link(entity) => Value::Link(*entity),
        Value::Text(_) => unreachable!(),
    }
}

/// A copy of a cell whose value isn't a text. It takes no memory.
pub fn plain_cell(cell: &Cell) -> Cell
    requires { is_text cell.now.value ≡ false }
    ensures { result ≡ cell.now }
{
    Cell {
        value: plain_value(&cell.value),
        added: cell.added,
        changed: cell.changed,
    }
}
