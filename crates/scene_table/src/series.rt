//! The numbers of a column that grow by the same amount at each turn.
ghost use Rattle.std.specs.Prelude.{◌≡◌, ◌<◌, true, Some, length, slice_get};
ghost use Rattle.scene_kinds.specs.Ranges.{is_i64, is_in_range};
ghost use Rattle.scene_kinds.specs.declared.value.Value.TheVariants.{Int, Vec3};
ghost use Rattle.scene_table.specs.Grown.{values_in};
ghost use Rattle.scene_table.specs.Runs.{AreInRange, grown, ints_after, number_after, vector_after, vecs_after};

use crate::grown::Grown;
use scene_kinds::Value;

/// The numbers of a column before the first turn of a run, and what each turn adds: the same number to each, or to each
/// vector its own.
#[derive(Drop, Debug)]
pub(crate) enum Series {
    Ints {
        base: Vec<i64>,
        by: i64,
    },
    Vecs {
        base: Vec<[i64; 3]>,
        by: Vec<[i64; 3]>,
    },
}

/// A number after so many turns.
fn number_after(base: i64, by: i64, turns: i64) -> i64
    requires { is_i64 (number_after base by turns) ≡ true }
    ensures { result ≡ number_after base by turns }
{
    base.wrapping_add(by.wrapping_mul(turns))
}

/// A vector after so many turns.
fn vector_after(base: [i64; 3], by: [i64; 3], turns: i64) -> [i64; 3]
    requires { is_in_range (Vec3 (vector_after base by turns)) ≡ true }
    ensures { result ≡ vector_after base by turns }
{
    let [x, y, z] = base;
    let [by_x, by_y, by_z] = by;
    [
        number_after(x, by_x, turns),
        number_after(y, by_y, turns),
        number_after(z, by_z, turns),
    ]
}

/// Writes a number in place of a value.
fn put_int(value: &mut Value, number: i64)
    ensures { value.new ≡ Int number }
{
    match value {
        Value::Int(old) => *old = number,
        other => *other = Value::Int(number),
    }
}

/// Writes a vector in place of a value.
fn put_vec(value: &mut Value, vector: [i64; 3])
    ensures { value.new ≡ Vec3 vector }
{
    match value {
        Value::Vec3(old) => *old = vector,
        other => *other = Value::Vec3(vector),
    }
}

/// Writes numbers after so many turns in place of values.
pub(crate) fn put_ints(values: &mut [Value], base: &[i64], by: i64, turns: i64)
    requires range { AreInRange (ints_after base.now by turns) }
    requires long { length base.now ≡ length values.old }
    ensures { values.new ≡ ints_after base.now by turns }
{
    for at in 0..values.len() {
        put_int(&mut values[at], number_after(base[at], by, turns));
    }
}

/// Writes vectors after so many turns in place of values.
pub(crate) fn put_vecs(values: &mut [Value], base: &[[i64; 3]], by: &[[i64; 3]], turns: i64)
    requires range { AreInRange (vecs_after base.now by.now turns) }
    requires long { length (vecs_after base.now by.now turns) ≡ length values.old }
    ensures { values.new ≡ vecs_after base.now by.now turns }
{
    for at in 0..values.len() {
        put_vec(&mut values[at], vector_after(base[at], by[at], turns));
    }
}

/// Whether a value is a number.
fn is_int(value: &Value, number: i64) -> bool
    ensures { result ≡ true → value.now ≡ Int number }
{
    match value {
        Value::Int(other) => *other == number,
        _ => false,
    }
}

/// Whether a value is a vector.
pub(crate) fn is_vec(value: &Value, vector: [i64; 3]) -> bool
    ensures { result ≡ true → value.now ≡ Vec3 vector }
{
    match value {
        Value::Vec3(other) => *other == vector,
        _ => false,
    }
}

/// Whether values are numbers after so many turns.
fn are_ints_after(values: &[Value], base: &[i64], by: i64, turns: i64) -> bool
    requires { AreInRange (ints_after base.now by turns) }
    ensures { result ≡ true → values.now ≡ ints_after base.now by turns }
{
    if values.len() != base.len() {
        return false;
    }
    for at in 0..base.len() {
        if !is_int(&values[at], number_after(base[at], by, turns)) {
            return false;
        }
    }
    true
}

/// Whether values are vectors after so many turns.
fn are_vecs_after(values: &[Value], base: &[[i64; 3]], by: &[[i64; 3]], turns: i64) -> bool
    requires { AreInRange (vecs_after base.now by.now turns) }
    ensures { result ≡ true → values.now ≡ vecs_after base.now by.now turns }
{
    if values.len() != base.len() || values.len() != by.len() {
        return false;
    }
    for at in 0..base.len() {
        if !is_vec(&values[at], vector_after(base[at], by[at], turns)) {
            return false;
        }
    }
    true
}

impl Series {
    /// The value at a place after so many turns.
    pub(crate) fn value_at(&self, place: usize, turns: i64) -> Value
        requires range { AreInRange (grown self.now turns) }
        requires there { place < length (grown self.now turns) }
        ensures { slice_get (grown self.now turns) place ≡ Some result }
    {
        match self {
            Series::Ints { base, by } => Value::Int(number_after(base[place], *by, turns)),
            Series::Vecs { base, by } => Value::Vec3(vector_after(base[place], by[place], turns)),
        }
    }

    /// Those after so many turns, as a writer takes them.
    pub(crate) fn after(&self, turns: i64) -> Grown<'_>
        ensures { values_in result ≡ grown self.now turns }
    {
        match self {
            Series::Ints { base, by } => Grown::Ints {
                base: base.as_slice(),
                by: *by,
                turns,
            },
            Series::Vecs { base, by } => Grown::Vecs {
                base: base.as_slice(),
                by: by.as_slice(),
                turns,
            },
        }
    }

    /// Whether these are the values after so many turns.
    pub(crate) fn is_at(&self, values: &[Value], turns: i64) -> bool
        requires { AreInRange (grown self.now turns) }
        ensures { result ≡ true → values.now ≡ grown self.now turns }
    {
        match self {
            Series::Ints { base, by } => are_ints_after(values, base.as_slice(), *by, turns),
            Series::Vecs { base, by } => {
                are_vecs_after(values, base.as_slice(), by.as_slice(), turns)
            }
        }
    }
}
