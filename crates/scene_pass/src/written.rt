//! The values of a row that steps write.
ghost use Rattle.std.specs.Prelude.{◌≡◌, ◌<◌, ◌+◌, ◌++◌, Some, None, IfOk, OnOk, IfSome, option_map, length, drop, slice_set, if◌then◌else◌};
ghost use Rattle.std.specs.Ordering.{nat_cmp};
ghost use Rattle.std.specs.FinMap.Entries.{find};
ghost use Rattle.scene_kinds.specs.declared.value.Value.TheVariants.{Int};
ghost use Rattle.scene_table.specs.RowStep.{is_written};
ghost use Rattle.scene_pass.specs.Changes.{values_of};
ghost use Rattle.scene_pass.specs.InPlace.{written_of, place_of, value_or, sum_at, put_sum, added_in, step_in};

use crate::row_in_place::RowInPlace;
use crate::sums::value_sum;
use scene_kinds::Value;
use scene_systems::RowStep;
use std::alloc::{AllocError, Global};

/// Whether one of the steps writes a kind.
fn is_written(steps: &[RowStep], kind: u8) -> bool
    ensures { result ≡ is_written steps.now kind }
{
    steps.iter().any(|step| step.target() == kind)
}

/// Adds the row's value of a number, if its kind is written.
fn push_written(
    written: &mut Vec<(u8, Value)>,
    row: &RowInPlace<'_>,
    number: usize,
    steps: &[RowStep],
) -> Result<(), AllocError>
    requires { number < length (values_of row.now) }
    ensures { OnOk result (written.new.items ++ written_of steps.now (drop (number + 1) (values_of row.now))
        ≡ written.old.items ++ written_of steps.now (drop number (values_of row.now))) }
{
    let (kind, value) = row.nth(number);
    if is_written(steps, kind) {
        written.push((kind, value.try_clone()?))?;
    }
    Ok(())
}

/// The row's values of the kinds that are written, as they stand before the steps, ascending by kind. The list has no
/// room for more than there are steps, and for no more than the row has.
pub(crate) fn written_of(
    alloc: Global,
    row: &RowInPlace<'_>,
    steps: &[RowStep],
) -> Result<Vec<(u8, Value)>, AllocError>
    ensures { IfOk result (λ written. written.items ≡ written_of steps.now (values_of row.now)) }
{
    let mut written = Vec::with_capacity(alloc, row.len().min(steps.len()))?;
    'cells: for number in 0..row.len() {
        push_written(&mut written, row, number, steps)?;
    }
    Ok(written)
}

/// The place of a kind among values.
fn find_place(values: &[(u8, Value)], kind: u8) -> Option<usize>
    ensures { result ≡ place_of values.now kind }
{
    values.iter().position(|v| v.0 == kind)
}

/// The place of a kind among values, which is one of theirs.
fn place_of(values: &[(u8, Value)], kind: u8) -> Option<usize>
    ensures place { result ≡ place_of values.now kind }
    ensures within { IfSome result (λ at. at < length values.now) }
{
    find_place(values, kind)
}

/// The value of a kind: the one that is written, or else the row's own, or `None` where the row doesn't have the kind.
fn value_of<'a>(row: &'a RowInPlace<'_>, written: &'a [(u8, Value)], kind: u8) -> Option<&'a Value>
    ensures { option_map (λ v. v.now) result ≡ value_or written.now (place_of written.now kind) (find nat_cmp kind (values_of row.now)) }
{
    match place_of(written, kind) {
        Some(at) => Some(&written[at].1),
        None => row.value(kind),
    }
}

/// The value at a place with another added to it, or `None` where the sum doesn't fit.
fn sum_at(written: &[(u8, Value)], at: usize, by: &Value) -> Result<Option<Value>, AllocError>
    requires { at < length written.now }
    ensures { IfOk result (λ sum. sum ≡ sum_at written.now at by.now) }
{
    value_sum(&written[at].1, by)
}

/// Puts a sum at the place of a kind, or answers false where there is none.
fn put_sum(written: &mut Vec<(u8, Value)>, kind: u8, at: usize, sum: Option<Value>) -> bool
    requires { at < length written.old.items }
    ensures { put_sum written.old.items kind at sum ≡ (if result then Some written.new.items else None) }
{
    match sum {
        None => false,
        Some(value) => {
            written[at] = (kind, value);
            true
        }
    }
}

/// Adds a number to the value at the place of a kind, or answers false where the sum doesn't fit.
fn add_int(written: &mut Vec<(u8, Value)>, kind: u8, at: usize, by: i64) -> Result<bool, AllocError>
    requires { at < length written.old.items }
    ensures { IfOk result (λ fits. added_in written.old.items kind (Some at) (Some (Int by))
        ≡ (if fits then Some written.new.items else None)) }
{
    let number = Value::Int(by);
    let sum = sum_at(written.as_slice(), at, &number)?;
    Ok(put_sum(written, kind, at, sum))
}

/// Adds the value of another kind to that at the place of a kind, or answers false where the sum doesn't fit.
fn add_kind(
    row: &RowInPlace<'_>,
    written: &mut Vec<(u8, Value)>,
    kind: u8,
    at: usize,
    by: u8,
) -> Result<bool, AllocError>
    requires { at < length written.old.items }
    ensures { IfOk result (λ fits. added_in written.old.items kind (Some at)
        (value_or written.old.items (place_of written.old.items by) (find nat_cmp by (values_of row.now)))
        ≡ (if fits then Some written.new.items else None)) }
{
    let sum = match value_of(row, written.as_slice(), by) {
        Some(value) => sum_at(written.as_slice(), at, value)?,
        None => return Ok(true),
    };
    Ok(put_sum(written, kind, at, sum))
}

/// Does one step, or answers false where its sum doesn't fit. Where the row doesn't have a kind of the step, nothing
/// changes.
///
/// An error only where no memory was found.
pub(crate) fn do_step(
    row: &RowInPlace<'_>,
    written: &mut Vec<(u8, Value)>,
    step: RowStep,
) -> Result<bool, AllocError>
    ensures { IfOk result (λ fits. step_in step (values_of row.now) written.old.items
        ≡ (if fits then Some written.new.items else None)) }
{
    let kind = step.target();
    match place_of(written.as_slice(), kind) {
        None => Ok(true),
        Some(at) => match step {
            RowStep::AddInt { by, .. } => add_int(written, kind, at, by),
            RowStep::AddVec { by, .. } => add_kind(row, written, kind, at, by),
        },
    }
}
