//! The kinds of components by number, and which names are good.
ghost use Rattle.std.specs.Prelude.{◌≡◌, ◌≤◌, ◌↔◌, ℕ, List, [], length, string_bytes, IfOk, IsTrue};
ghost use Rattle.std.specs.List.{list_all};
ghost use Rattle.std.specs.Option.{option_map};
ghost use Rattle.scene_kinds.specs.Answers.{Answers};
ghost use Rattle.scene_kinds.specs.Schema.{IsSchema, is_good_name, is_name_byte, number_of, shape_of, name_of, fits_kind, with_kind};

use crate::fault::Fault;
use crate::refusal::Refusal;
use crate::shape::Shape;
use crate::value::Value;
use indexmap::IndexMap;
use std::alloc::{AllocError, Global};
use std::marker::Model;

/// Whether a name may name a kind, a resource or a system: 1 to 32 bytes of ASCII letters, digits and `_`,
/// a letter first (docs/MODEL.md, "The rule of names").
pub fn good_name(name: &str) -> bool
    ensures { result ≡ is_good_name name.now }
{
    match name.as_bytes() {
        [] => false,
        [first, rest @ ..] => first.is_ascii_alphabetic() && rest.len() < 32 && is_name_rest(rest),
    }
}

/// The kinds of components: each has a name, a shape, and its place as its number. There are at most 64, so
/// that a set of kinds is a `u64` in which kind k is bit k (docs/MODEL.md, "The rule of kinds").
///
/// Contracts see it as the list of names with shapes. Their names are always good and distinct.
#[derive(Debug)]
pub struct Schema {
    kinds: IndexMap<String, Shape>,
}

impl Drop for Schema {
    fn drop(self) {
        let Schema { kinds: _ } = self;
    }
}

impl Model for Schema {
    ghost use Rattle.std.specs.Prelude.{ℕ, List};
    ghost use Rattle.scene_kinds.specs.declared.shape.Shape.{Shape};

    ghost Value = { List (List ℕ × Shape) };

    ghost use Rattle.scene_kinds.specs.Schema.{named, IsSchema};

    ghost view = { λ s. named s.kinds.entries };

    ghost invariant = { λ s. IsSchema (named s.kinds.entries) };
}

impl Schema {
    /// A schema without kinds. It takes no memory.
    pub fn new(alloc: Global) -> Self
        ensures { result ≡ [] }
    {
        Schema {
            kinds: IndexMap::new(alloc),
        }
    }

    /// Adds a kind, and gives its number.
    ///
    /// Refused, in this order: `BadName`, `KindTaken`, `KindsFull` where there are 64 kinds, `NoMemory`. After
    /// a refusal the schema is as it was, and the name is dropped.
    pub fn add(&mut self, name: String, shape: Shape) -> Result<u8, Refusal>
        ensures { Answers result self.old self.new (with_kind self.old (string_bytes name) shape) }
    {
        if !good_name(name.as_str()) {
            return Err(Refusal::from(Fault::BadName));
        }
        if self.kinds.contains_key(&name) {
            return Err(Refusal::from(Fault::KindTaken));
        }
        let number = self.kinds.len();
        if number >= 64 {
            return Err(Refusal::from(Fault::KindsFull));
        }
        self.kinds.insert(name, shape)?;
        Ok(number as u8)
    }

    /// The number of the kind with a name, or `None` where there is none.
    #[tactic(auto, using(crate::proofs::KindNames::kind_here))]
    #[inline(always)]
    pub fn number_of(&self, name: &str) -> Option<u8>
        ensures { result ≡ number_of self.now name.now }
    {
        for kind in 0..self.len().min(KINDS_AT_ONCE) as u8 {
            match self.name_of(kind) {
                Some(known) if are_same(known, name) => return Some(kind),
                _ => {}
            }
        }
        self.hashed_number_of(name)
    }

    /// `number_of`, by the hash of the name.
    #[inline(never)]
    fn hashed_number_of(&self, name: &str) -> Option<u8>
        ensures { result ≡ number_of self.now name.now }
    {
        let number = self.kinds.get_index_of(name)?;
        Some(number as u8)
    }

    /// The shape of a kind, or `None` where there is none of that number.
    pub fn shape_of(&self, kind: u8) -> Option<Shape>
        ensures { result ≡ shape_of self.now kind }
    {
        let (_, shape) = self.kinds.get_index(kind as usize)?;
        Some(*shape)
    }

    /// The name of a kind, or `None` where there is none of that number.
    pub fn name_of(&self, kind: u8) -> Option<&str>
        ensures { option_map (λ name. name.now) result ≡ name_of self.now kind }
    {
        let (name, _) = self.kinds.get_index(kind as usize)?;
        Some(name.as_str())
    }

    /// How many kinds there are, and what always holds of them.
    pub fn len(&self) -> usize
        ensures count { result ≡ length self.now }
        ensures sound { IsSchema self.now }
    {
        self.kinds.len()
    }

    /// Whether there are no kinds.
    pub fn is_empty(&self) -> bool
        ensures { IsTrue result ↔ (self.now ≡ []) }
    {
        self.kinds.is_empty()
    }

    /// Whether a value has the shape of a kind. Nothing fits a kind that isn't there (docs/MODEL.md, "The rule of
    /// kinds").
    pub fn fits(&self, value: &Value, kind: u8) -> bool
        ensures { result ≡ fits_kind self.now value.now kind }
    {
        match self.shape_of(kind) {
            Some(shape) => value.shape() == shape,
            None => false,
        }
    }

    /// An equal schema, or an error where no memory was found.
    pub fn try_clone(&self) -> Result<Schema, AllocError>
        ensures { IfOk result (λ copy. copy ≡ self.now) }
    {
        Ok(Schema {
            kinds: self.kinds.clone()?,
        })
    }
}

/// So many kinds are looked at sooner than a name is hashed.
const KINDS_AT_ONCE: usize = 8;

/// Whether two names are the same. A comparison of texts is a call, which most names don't need: they differ in length
/// or in the first byte, or have no other byte.
#[inline(always)]
fn are_same(one: &str, other: &str) -> bool
    ensures { IsTrue result → one.now ≡ other.now }
{
    match (one.as_bytes(), other.as_bytes()) {
        ([first], [byte]) => *first == *byte,
        ([first, ..], [byte, ..]) => { one.len() == other.len() && *first == *byte && one == other }
        _ => false,
    }
}

/// Whether each byte may stand in a name after its first.
fn is_name_rest(bytes: &[u8]) -> bool
    ensures { result ≡ list_all is_name_byte bytes.now }
{
    bytes
        .iter()
        .all(|byte| byte.is_ascii_alphanumeric() || *byte == b'_')
}
