//! Series of which the first sums fit.
ghost use Rattle.std.specs.Prelude.{◌≡◌, true, false, length, map, pos, ◌+ℤ◌, IfOk, IfSome, IfNone};
ghost use Rattle.std.specs.List.{list_all};
ghost use Rattle.std.specs.Option.{is_some};
ghost use Rattle.scene_kinds.specs.Ranges.{is_i64, is_in_range};
ghost use Rattle.scene_kinds.specs.declared.value.Value.TheVariants.{Int, Vec3};
ghost use Rattle.scene_table.specs.Steps.{value_sum};
ghost use Rattle.scene_table.specs.Runs.{AreInRange, IsIntsBy, IsVecsBy, grown, int_sums, is_number, is_vector, vec_sums, vector_after};

use crate::series::Series;
use scene_kinds::Value;
use std::alloc::{AllocError, Global};

/// The number of a value, if its sum with another fits.
fn fitting_int(value: &Value, by: i64) -> Option<i64>
    requires { is_number value.now ≡ true }
    ensures value { IfSome result (λ number. value.now ≡ Int number) }
    ensures fits { IfSome result (λ number. is_i64 (number +ℤ by) ≡ true) }
    ensures unfit { IfNone result (is_some (value_sum value.now (Int by)) ≡ false) }
{
    match value {
        Value::Int(number) => match number.checked_add(by) {
            Some(_) => Some(*number),
            None => None,
        },
        _ => None,
    }
}

/// Whether the sum of two numbers fits.
fn fits(a: i64, b: i64) -> bool
    ensures { result ≡ is_i64 (a +ℤ b) }
{
    a.checked_add(b).is_some()
}

/// Whether the sums of two vectors fit, coordinate by coordinate.
fn vectors_fit(vector: [i64; 3], by: [i64; 3]) -> bool
    ensures { result ≡ is_in_range (Vec3 (vector_after vector by (pos 1))) }
{
    let [x, y, z] = vector;
    let [by_x, by_y, by_z] = by;
    if !fits(x, by_x) {
        return false;
    }
    if !fits(y, by_y) {
        return false;
    }
    fits(z, by_z)
}

/// The vector of a value that is one.
fn vector_of(value: &Value) -> [i64; 3]
    requires { is_vector value.now ≡ true }
    ensures { value.now ≡ Vec3 result }
{
    match value {
        Value::Vec3(vector) => *vector,
        _ => unreachable!(),
    }
}

/// Numbers to each of which one is added at each turn, from these values on; `None` where a first sum doesn't fit.
pub(crate) fn int_series(
    alloc: Global,
    values: &[Value],
    by: i64,
) -> Result<Option<Series>, AllocError>
    requires { list_all is_number values.now ≡ true }
    ensures before { IfOk result (λ made. IfSome made (λ series. grown series (pos 0) ≡ values.now)) }
    ensures adds { IfOk result (λ made. IfSome made (IsIntsBy by)) }
    ensures fits { IfOk result (λ made. IfSome made (λ series. AreInRange (grown series (pos 1)))) }
    ensures unfit { IfOk result (λ made. IfNone made (list_all is_some (int_sums values.now by) ≡ false)) }
{
    let mut base = Vec::with_capacity(alloc, values.len())?;
    for value in values {
        let Some(number) = fitting_int(value, by) else {
            return Ok(None);
        };
        base.push_reserved(number);
    }
    Ok(Some(Series::Ints { base, by }))
}

/// Vectors to each of which one is added at each turn, from these values on; `None` where a first sum doesn't fit.
pub(crate) fn vec_series(
    alloc: Global,
    values: &[Value],
    addends: &[Value],
) -> Result<Option<Series>, AllocError>
    requires long { length addends.now ≡ length values.now }
    requires values { list_all is_vector values.now ≡ true }
    requires addends { list_all is_vector addends.now ≡ true }
    ensures before { IfOk result (λ made. IfSome made (λ series. grown series (pos 0) ≡ values.now)) }
    ensures adds { IfOk result (λ made. IfSome made (IsVecsBy addends.now)) }
    ensures fits { IfOk result (λ made. IfSome made (λ series. AreInRange (grown series (pos 1)))) }
    ensures unfit { IfOk result (λ made. IfNone made (list_all is_some (vec_sums values.now addends.now) ≡ false)) }
{
    let mut base = Vec::with_capacity(alloc, values.len())?;
    let mut by = Vec::with_capacity(alloc, values.len())?;
    for at in 0..values.len() {
        let vector = vector_of(&values[at]);
        let addend = vector_of(&addends[at]);
        if !vectors_fit(vector, addend) {
            return Ok(None);
        }
        base.push_reserved(vector);
        by.push_reserved(addend);
    }
    Ok(Some(Series::Vecs { base, by }))
}
