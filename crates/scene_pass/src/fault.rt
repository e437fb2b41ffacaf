//! The first sum that doesn't fit.
ghost use Rattle.std.specs.Prelude.{◌≡◌, None};
ghost use Rattle.scene_pass.specs.Changes.{fault_or, first_fault};

use crate::row_change::{Outcome, RowChange};
use scene_kinds::Entity;

/// The entity and the step of a row's overflow.
pub(crate) fn fault_of(change: &RowChange) -> Option<(Entity, u32)>
    ensures { result ≡ fault_or change.now.entity change.now.outcome None }
{
    match &change.outcome {
        Outcome::Changed(_) => None,
        Outcome::Overflow(at) => Some((change.entity, *at)),
    }
}

/// The entity of the first row whose sum doesn't fit, with the place of that step from 0; `None` where all fit
/// (docs/MODEL.md, "The rule of systems"). It takes no memory, and costs a walk over the changes.
pub fn first_fault(changes: &[RowChange]) -> Option<(Entity, u32)>
    ensures { result ≡ first_fault changes.now }
{
    'changes: for change in changes {
        if let Some(fault) = fault_of(change) {
            return Some(fault);
        }
    }
    None
}
