//! What users of filters rely on, as the contract of a function without a body.
ghost use Rattle.std.specs.Prelude.{◌↔◌, IsTrue, ℕ};
ghost use Rattle.scene_systems.specs.declared.filter.Filter.{Filter};
ghost use Rattle.scene_systems.specs.Filter.{is_match, SaysEachKind};

/// A law: a filter matches a kind set just where the set has each kind of `need` and no kind of `without`.
#[tactic(auto, using(crate::proofs::Bits::each_kind))]
pub fn filters_say_each_kind()
    ensures { (f : Filter) (mask : ℕ) → IsTrue (is_match f mask) ↔ SaysEachKind f mask }
{}
