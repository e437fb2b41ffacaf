//! What a step that is alone makes of a row: it reads the values that it names, and nothing else of the row.
ghost use Rattle.std.specs.Prelude.{◌≡◌, Some, IfOk, option_map};
ghost use Rattle.scene_pass.specs.Changes.{values_of};
ghost use Rattle.scene_pass.specs.Lone.{lone, lone_of, written_or};

use crate::row_change::Outcome;
use crate::row_in_place::RowInPlace;
use crate::sums::value_sum;
use scene_commands::Components;
use scene_kinds::Value;
use scene_systems::RowStep;
use std::alloc::{AllocError, Global};

/// A value of a kind as all that is written. The list has room for it alone.
fn written(alloc: Global, kind: u8, value: Value) -> Result<Outcome, AllocError>
    ensures { IfOk result (λ outcome. outcome ≡ written_or kind (Some value)) }
{
    let mut cells = Vec::with_capacity(alloc, 1)?;
    cells.push((kind, value))?;
    Ok(Outcome::Changed(Components::from(cells)))
}

/// The sum of two values as all that is written, or the overflow of the only step.
fn written_sum(alloc: Global, kind: u8, value: &Value, by: &Value) -> Result<Outcome, AllocError>
    ensures { IfOk result (λ outcome. outcome ≡ lone kind (Some value.now) (Some by.now)) }
{
    match value_sum(value, by)? {
        Some(sum) => written(alloc, kind, sum),
        None => Ok(Outcome::Overflow(0)),
    }
}

/// A row's value of a kind with another added to it, if both are there.
fn lone(
    alloc: Global,
    kind: u8,
    value: Option<&Value>,
    by: Option<&Value>,
) -> Result<Outcome, AllocError>
    ensures { IfOk result (λ outcome. outcome ≡ lone kind (option_map (λ v. v.now) value.entry) (option_map (λ v. v.now) by.entry)) }
{
    match (value, by) {
        (None, _) => Ok(Outcome::Changed(Components::from(Vec::new(alloc)))),
        (Some(value), None) => written(alloc, kind, value.try_clone()?),
        (Some(value), Some(by)) => written_sum(alloc, kind, value, by),
    }
}

/// What a step makes of a row, where it is the only one.
///
/// An error only where no memory was found. It takes memory for one value, and costs a walk over the kinds of the row.
pub(crate) fn lone_of(
    alloc: Global,
    row: &RowInPlace<'_>,
    step: RowStep,
) -> Result<Outcome, AllocError>
    ensures { IfOk result (λ outcome. outcome ≡ lone_of step (values_of row.now)) }
{
    let kind = step.target();
    let value = row.value(kind);
    match step {
        RowStep::AddInt { by, .. } => lone(alloc, kind, value, Some(&Value::Int(by))),
        RowStep::AddVec { by, .. } => lone(alloc, kind, value, row.value(by)),
    }
}
