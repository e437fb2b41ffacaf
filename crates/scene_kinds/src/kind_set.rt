//! Sets of kinds as numbers.
ghost use Rattle.std.specs.Prelude.{◌≡◌, ℕ, ◌+◌, ◌<◌, ◌∷◌, [], IfNone, IfSome};
ghost use Rattle.std.specs.Iterator.{YieldsFirst, item_count};
ghost use Rattle.scene_kinds.specs.KindSet.{has_kind, set_with, set_without, is_subset, is_disjoint, kinds_in, kinds_from, kinds_left};

/// A set of kinds, in which kind k is bit k (docs/MODEL.md, "The rule of kinds"). `KindSetMethods` has what it can be
/// asked.
pub type KindSet = u64;

/// Whether a kind is in a set.
pub fn has_kind(set: KindSet, kind: u8) -> bool
    requires { kind < 64 }
    ensures { result ≡ has_kind set kind }
{
    (set >> kind) % 2 == 1
}

/// The set with a kind.
#[tactic(auto, using(crate::proofs::KindSets::shifts))]
pub fn set_with(set: KindSet, kind: u8) -> KindSet
    requires { kind < 64 }
    ensures { result ≡ set_with set kind }
{
    set | (1 << kind)
}

/// The set without a kind.
#[tactic(auto, using(crate::proofs::KindSets::shifts))]
pub fn set_without(set: KindSet, kind: u8) -> KindSet
    requires { kind < 64 }
    ensures { result ≡ set_without set kind }
{
    set & !(1 << kind)
}

/// What a `KindSet` can be asked. None of these needs memory.
pub trait KindSetMethods {
    // The kinds as a set.
    ghost set: { Self → ℕ };

    /// Whether a kind is in this set. No kind from 64 on is.
    fn contains(self, kind: u8) -> bool
        ensures { result ≡ has_kind (set self) kind };

    /// Whether each kind of this set is in another one.
    fn is_subset(self, other: KindSet) -> bool
        ensures { result ≡ is_subset (set self) other };

    /// Whether no kind is in this set and in another one.
    fn is_disjoint(self, other: KindSet) -> bool
        ensures { result ≡ is_disjoint (set self) other };

    /// The kinds of this set, ascending.
    fn kinds(self) -> KindsOfSet
        ensures { kinds_left result ≡ kinds_in (set self) };
}

impl KindSetMethods for KindSet {
    ghost set = { λ set. set };

    fn contains(self, kind: u8) -> bool {
        kind < 64 && has_kind(self, kind)
    }

    fn is_subset(self, other: KindSet) -> bool {
        other & self == self
    }

    fn is_disjoint(self, other: KindSet) -> bool {
        self & other == 0
    }

    fn kinds(self) -> KindsOfSet {
        KindsOfSet { set: self, next: 0 }
    }
}

/// The kinds of a set that are left, ascending: what `KindSetMethods::kinds` gives.
#[derive(Drop, Clone, Debug)]
pub struct KindsOfSet {
    set: KindSet,
    next: u8,
}

impl Iterator for KindsOfSet {
    type Item = u8;

    ghost next_gives = { YieldsFirst kinds_left };

    ghost remaining = { item_count kinds_left };

    fn next(&mut self) -> Option<u8> {
        let kind = first_from(self.set, self.next)?;
        self.next = kind + 1;
        Some(kind)
    }
}

/// The first kind of a set from a kind on.
fn first_from(set: KindSet, from: u8) -> Option<u8>
    ensures none { IfNone result (kinds_from set from ≡ []) }
    ensures some { IfSome result (λ kind. kinds_from set from ≡ kind ∷ kinds_from set (kind + 1)) }
    ensures below { IfSome result (λ kind. kind < 64) }
{
    let mut kind = from;
    'kinds: while kind < 64 {
        if has_kind(set, kind) {
            return Some(kind);
        }
        kind += 1;
    }
    None
}
