//! The rules of slots.
ghost use Rattle.std.specs.Prelude.{◌≡◌, ◌≤◌, ◌||◌, length, nat_eq, slice_index};
ghost use Rattle.std.specs.List.{list_all, range_with_len};
ghost use Rattle.scene_alloc.specs.Slots.{highest};
ghost use Rattle.scene_validate.specs.Marks.{is_marked};
ghost use Rattle.scene_validate.specs.Rules.{limit_holds, generations_begin};
ghost use Rattle.scene_validate.specs.Seen.{seen};

use crate::marks::is_marked;
use crate::parts::WorldParts;

/// The greatest slot limit.
const MOST_SLOTS: u32 = 1_048_576;

/// Whether the slot limit is 1 to 1,048,576, and there are at most that many slots.
pub(crate) fn limit_holds(parts: &WorldParts) -> bool
    ensures { result ≡ limit_holds (seen parts.now) }
{
    1 <= parts.limit && parts.limit <= MOST_SLOTS && parts.generations.len() <= parts.limit as usize
}

/// Whether each generation is at least 1.
pub(crate) fn generations_begin(parts: &WorldParts) -> bool
    ensures { result ≡ generations_begin (seen parts.now) }
{
    parts.generations.iter().all(|generation| 1 <= *generation)
}

/// Whether an index of this generation is live, free or retired, where `live` and `free` mark those that are.
fn is_accounted(live: &[bool], free: &[bool], index: u32, generation: u32) -> bool
    ensures { result ≡ (is_marked live.now index || is_marked free.now index || nat_eq generation highest) }
{
    is_marked(live, index) || is_marked(free, index) || generation == u32::MAX
}

/// Whether each index is live, free or retired, where `live` and `free` mark those that are.
pub(crate) fn all_accounted(generations: &[u32], live: &[bool], free: &[bool]) -> bool
    requires { length generations.now ≤ 4294967296 }
    ensures { result ≡ list_all (λ i. is_marked live.now i || is_marked free.now i || nat_eq (slice_index generations.now i) highest)
        (range_with_len 0 (length generations.now)) }
{
    let mut index: usize = 0;
    for generation in generations {
        if !is_accounted(live, free, index as u32, *generation) {
            return false;
        }
        index += 1;
    }
    true
}
