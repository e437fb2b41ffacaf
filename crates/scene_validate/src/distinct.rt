//! Whether keys are distinct.
ghost use Rattle.std.specs.Prelude.{◌≡◌, IfOk};
ghost use Rattle.std.specs.Ordering.{eq_by_cmp};
ghost use Rattle.scene_validate.specs.Rules.{are_distinct};

use std::alloc::{AllocError, Global};
use std::collections::BTreeSet;

/// Whether no key is equal to one after it. It costs the number of keys times its logarithm.
pub(crate) fn are_distinct<K: Ord + Copy>(alloc: Global, keys: &[K]) -> Result<bool, AllocError>
    ensures { IfOk result (λ distinct. distinct ≡ are_distinct (eq_by_cmp K.cmp) keys.now) }
{
    let mut seen = BTreeSet::new(alloc);
    for key in keys {
        if !seen.insert(*key)? {
            return Ok(false);
        }
    }
    Ok(true)
}
