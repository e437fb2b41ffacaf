//! Sums of values, which have to fit.
ghost use Rattle.std.specs.Prelude.{◌≡◌, IfOk, option_map};
ghost use Rattle.scene_kinds.specs.declared.value.Value.TheVariants.{Int, Vec3};
ghost use Rattle.scene_pass.specs.Changes.{sum, sums, value_sum};
ghost use Rattle.scene_pass.specs.InPlace.{three};

use scene_kinds::Value;
use std::alloc::AllocError;

/// The sum of two numbers, if it fits.
fn sum(number: i64, by: i64) -> Option<i64>
    ensures { result ≡ sum number by }
{
    number.checked_add(by)
}

/// Three numbers, if all are there.
fn three(x: Option<i64>, y: Option<i64>, z: Option<i64>) -> Option<[i64; 3]>
    ensures { result ≡ three x y z }
{
    Some([x?, y?, z?])
}

/// The sums of two vectors' coordinates, if all fit.
fn sums(vector: &[i64; 3], by: &[i64; 3]) -> Option<[i64; 3]>
    ensures { result ≡ sums vector.now by.now }
{
    let [x, y, z] = *vector;
    let [by_x, by_y, by_z] = *by;
    three(sum(x, by_x), sum(y, by_y), sum(z, by_z))
}

/// The sum of two numbers as a value, if it fits.
fn int_sum(number: i64, by: i64) -> Option<Value>
    ensures { result ≡ option_map Int (sum number by) }
{
    Some(Value::Int(sum(number, by)?))
}

/// The sum of two vectors as a value, if it fits.
fn vector_sum(vector: &[i64; 3], by: &[i64; 3]) -> Option<Value>
    ensures { result ≡ option_map Vec3 (sums vector.now by.now) }
{
    Some(Value::Vec3(sums(vector, by)?))
}

/// A value with another added to it: numbers to numbers and vectors to vectors, where each sum fits a 64-bit number
/// with sign, and else `None`. No step adds other values: of those it is an equal value.
///
/// An error only where no memory was found, which only a text takes.
pub(crate) fn value_sum(value: &Value, by: &Value) -> Result<Option<Value>, AllocError>
    ensures { IfOk result (λ sum. sum ≡ value_sum value.now by.now) }
{
    match (value, by) {
        (Value::Int(number), Value::Int(more)) => Ok(int_sum(*number, *more)),
        (Value::Vec3(vector), Value::Vec3(more)) => Ok(vector_sum(vector, more)),
        _ => Ok(Some(value.try_clone()?)),
    }
}
