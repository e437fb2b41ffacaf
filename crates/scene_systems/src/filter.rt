//! Filters, which match kind sets.
ghost use Rattle.std.specs.Prelude.{◌≡◌, ℕ, true};
ghost use Rattle.scene_systems.specs.Filter.{is_match};

use scene_kinds::{KindSet, KindSetMethods};

/// Which kind sets a pass reads: those that have every kind of `need` and none of `without` (docs/MODEL.md, "The
/// rule of queries").
#[derive(Clone, Copy, Debug, PartialEq, Eq)]
pub struct Filter {
    pub need: KindSet,
    pub without: KindSet,
}

impl Filter {
    /// The filter that matches every kind set, the empty one too.
    #[tactic(auto, using(crate::proofs::Bits::nothing_asked))]
    pub fn all() -> Filter
        ensures need { result.need ≡ 0 }
        ensures without { result.without ≡ 0 }
        ensures every { (mask : ℕ) → is_match result mask ≡ true }
    {
        Filter {
            need: 0,
            without: 0,
        }
    }

    /// Whether a kind set has every kind of `need` and none of `without`. A filter that asks for a kind in both
    /// matches none.
    pub fn matches(self, mask: KindSet) -> bool
        ensures { result ≡ is_match self mask }
    {
        self.need.is_subset(mask) && mask.is_disjoint(self.without)
    }
}
