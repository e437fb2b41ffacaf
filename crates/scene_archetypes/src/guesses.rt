//! Where the table of a kind set may stand.
ghost use Rattle.std.specs.Prelude.{◌≡◌, ◌<◌, Some, IfSome, slice_get};

use scene_kinds::KindSet;

/// How many groups of kind sets there are.
const GROUPS: usize = 256;

/// A number for each of some groups of kind sets: that of the table of one of them, mostly of the only one. It is a
/// guess, which is looked at before it is believed, so that nothing has to hold of it. Tables behind the first 256 are
/// never guessed.
#[derive(Clone, Copy, Drop, Debug)]
pub(crate) struct Guesses {
    numbers: [u8; GROUPS],
}

/// The group of a kind set. A few kinds more or less lead to another one.
#[inline(always)]
fn group(mask: KindSet) -> usize
    ensures { result < 256 }
{
    // The greatest eight bits of a product with the golden ratio, as in many a hash.
    let mixed = mask.wrapping_mul(0x9E37_79B9_7F4A_7C15);
    (mixed / 0x0100_0000_0000_0000) as usize
}

impl Guesses {
    /// Guesses that were never right so far.
    pub(crate) fn new() -> Self {
        Guesses {
            numbers: [0; GROUPS],
        }
    }

    /// Guesses a number from now on for the group of a kind set.
    pub(crate) fn note(&mut self, mask: KindSet, number: usize) {
        if let Ok(number) = u8::try_from(number) {
            self.numbers[group(mask)] = number;
        }
    }

    /// The number that is guessed for a kind set, where it is the place of that among these.
    #[inline(always)]
    pub(crate) fn place_in(&self, kind_sets: &[KindSet], mask: KindSet) -> Option<usize>
        ensures { IfSome result (λ at. slice_get kind_sets.now at ≡ Some mask) }
    {
        let at = self.numbers[group(mask)] as usize;
        match kind_sets.get(at) {
            Some(known) if *known == mask => Some(at),
            _ => None,
        }
    }
}
