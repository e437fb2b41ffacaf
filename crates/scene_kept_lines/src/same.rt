//! Whether the systems of two interpreters are the same.
ghost use Rattle.std.specs.Prelude.{◌≡◌, IsTrue};

use scene_kinds::{Text, Value};
use scene_systems::{Phase, Step, SystemRule};

/// What can be compared.
pub(crate) trait Same {
    /// Whether another one is the same.
    fn is_same(&self, other: &Self) -> bool
        ensures { IsTrue result → self.now ≡ other.now };
}

/// Whether two lists are the same.
pub(crate) fn are_same<T: Same>(one: &[T], other: &[T]) -> bool
    ensures { IsTrue result → one.now ≡ other.now }
{
    if one.len() != other.len() {
        return false;
    }
    'items: for at in 0..one.len() {
        if !one[at].is_same(&other[at]) {
            return false;
        }
    }
    true
}

impl Same for i64 {
    fn is_same(&self, other: &Self) -> bool {
        *self == *other
    }
}

impl Same for Text {
    fn is_same(&self, other: &Self) -> bool {
        self.as_str() == other.as_str()
    }
}

impl Same for Value {
    fn is_same(&self, other: &Self) -> bool {
        match (self, other) {
            (Value::Tag, Value::Tag) => true,
            (Value::Int(one), Value::Int(other)) => *one == *other,
            (Value::Vec3(one), Value::Vec3(other)) => are_same(one, other),
            (Value::Text(one), Value::Text(other)) => one.is_same(other),
            (Value::Link(one), Value::Link(other)) => *one == *other,
            _ => false,
        }
    }
}

impl Same for (u8, Value) {
    fn is_same(&self, other: &Self) -> bool {
        self.0 == other.0 && self.1.is_same(&other.1)
    }
}

impl Same for Step {
    fn is_same(&self, other: &Self) -> bool {
        match (self, other) {
            (Step::Row(one), Step::Row(other)) => *one == *other,
            (Step::DespawnAtZero { kind: one }, Step::DespawnAtZero { kind: other }) => {
                *one == *other
            }
            (Step::SpawnChild { cells: one }, Step::SpawnChild { cells: other }) => {
                are_same(one.as_slice(), other.as_slice())
            }
            (Step::CountInto { name: one }, Step::CountInto { name: other }) => one.is_same(other),
            _ => false,
        }
    }
}

impl Same for SystemRule {
    fn is_same(&self, other: &Self) -> bool {
        self.name.is_same(&other.name)
            && self.filter == other.filter
            && are_same(self.steps.as_slice(), other.steps.as_slice())
    }
}

impl Same for Phase {
    fn is_same(&self, other: &Self) -> bool {
        are_same(self.systems(), other.systems())
    }
}
