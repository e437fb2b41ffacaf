//! Whether cells are equal: by value and by both ticks.
ghost use Rattle.std.specs.Prelude.{◌≡◌};
ghost use Rattle.std.specs.Cmp.Lexicographic.{pointwise};
ghost use Rattle.std.specs.Ordering.{int_eq};
ghost use Rattle.scene_kinds.specs.Cells.{shown};
ghost use Rattle.scene_model.specs.Same.{same_value, same_cell};

use scene_kinds::{Cell, CellRef, Value};

/// Whether three numbers are equal.
fn same_three(a: &[i64; 3], b: &[i64; 3]) -> bool
    ensures { result ≡ pointwise int_eq a.now b.now }
{
    let [ax, ay, az] = *a;
    let [bx, by, bz] = *b;
    ax == bx && ay == by && az == bz
}

/// Whether two values are equal.
fn same_value(a: &Value, b: &Value) -> bool
    ensures { result ≡ same_value a.now b.now }
{
    match (a, b) {
        (Value::Tag, Value::Tag) => true,
        (Value::Int(a), Value::Int(b)) => *a == *b,
        (Value::Vec3(a), Value::Vec3(b)) => same_three(a, b),
        (Value::Text(a), Value::Text(b)) => a.as_str() == b.as_str(),
        (Value::Link(a), Value::Link(b)) => *a == *b,
        _ => false,
    }
}

/// Whether a cell that is lent equals another one.
pub(crate) fn same_cell(cell: CellRef<'_>, other: &Cell) -> bool
    ensures { result ≡ same_cell (shown cell.entry) other.now }
{
    cell.added == other.added
        && cell.changed == other.changed
        && same_value(cell.value, &other.value)
}

/// Whether two cells are equal.
pub(crate) fn same_cells(a: &Cell, b: &Cell) -> bool
    ensures { result ≡ same_cell a.now b.now }
{
    a.added == b.added && a.changed == b.changed && same_value(&a.value, &b.value)
}
