//! What steps make of a row.
ghost use Rattle.std.specs.Prelude.{◌≡◌, ◌<◌, ◌^◌, IfOk, length};
ghost use Rattle.scene_kinds.specs.Cells.{IsAscending};
ghost use Rattle.scene_pass.specs.Changes.{values_of, after_steps, outcome_of, change_of};
ghost use Rattle.scene_pass.specs.InPlace.{written_of, outcome_in};

use crate::lone::lone_of;
use crate::row_change::{Outcome, RowChange};
use crate::row_in_place::RowInPlace;
use crate::written::{do_step, written_of};
use scene_commands::Components;
use scene_systems::RowStep;
use std::alloc::{AllocError, Global};

/// The steps in order over the values that they write, up to the first whose sum doesn't fit.
fn outcome(alloc: Global, row: &RowInPlace<'_>, steps: &[RowStep]) -> Result<Outcome, AllocError>
    requires { length steps.now < 2 ^ 32 }
    ensures { IfOk result (λ outcome. outcome
        ≡ outcome_in 0 steps.now (values_of row.now) (written_of steps.now (values_of row.now))) }
{
    let mut written = written_of(alloc, row, steps)?;
    let mut at: u32 = 0;
    for step in steps {
        if !do_step(row, &mut written, *step)? {
            return Ok(Outcome::Overflow(at));
        }
        at += 1;
    }
    Ok(Outcome::Changed(Components::from(written)))
}

/// What the steps make of the values of a row. A step that is alone reads just the values that it names.
fn outcome_of(alloc: Global, row: &RowInPlace<'_>, steps: &[RowStep]) -> Result<Outcome, AllocError>
    requires ascending { IsAscending row.now.cells }
    requires few { length steps.now < 2 ^ 32 }
    ensures { IfOk result (λ outcome. outcome ≡ outcome_of steps.now (after_steps 0 steps.now (values_of row.now))) }
{
    match steps {
        [step] => lone_of(alloc, row, *step),
        _ => outcome(alloc, row, steps),
    }
}

/// What the steps make of a row (docs/MODEL.md, "The rule of systems").
///
/// An error only where no memory was found. It takes memory for the values that are written, and costs a walk over the
/// row's cells for each step.
pub(crate) fn change(
    alloc: Global,
    row: &RowInPlace<'_>,
    steps: &[RowStep],
) -> Result<RowChange, AllocError>
    requires { length steps.now < 2 ^ 32 }
    ensures { IfOk result (λ change. change ≡ change_of steps.now row.now) }
{
    let entity = row.entity();
    Ok(RowChange {
        entity,
        outcome: outcome_of(alloc, row, steps)?,
    })
}
