//! A value in a document.
ghost use Rattle.std.specs.Prelude.{◌≡◌, ◌+◌, IfSome, Some, option_and_then, option_map, is_some, map as each};
ghost use Rattle.std.specs.List.{list_any};
ghost use Rattle.std.specs.Str.{bytes_eq};
ghost use Rattle.serde_json.specs.Data.{no_members, put};
ghost use Rattle.serde_json.specs.Find.{as_array, as_bool, as_i64, as_null, as_number, as_object, as_str, as_u64, get};
ghost use Rattle.scene_json.specs.Keys.{members_in, sooner, unknown_in};
ghost use Rattle.scene_json.specs.Lists.{elements};
ghost use Rattle.scene_json.specs.NodeData.{first, put_all, says, seen};

use crate::members::Members;
use crate::node::Node;
use crate::nodes::{first_inside, node_at};
use crate::number::{i64_of, signed, u64_of};
use crate::parts::Parts;

/// A value in a document.
#[derive(Drop)]
pub struct Part<'t, 'a> {
    nodes: &'t [Node<'a>],
    at: usize,
}

impl<'t, 'a> Part<'t, 'a> {
    ghost use Rattle.scene_json.specs.View.{fields, view, views};

    /// The value that begins at a node.
    pub(crate) fn new(nodes: &'t [Node<'a>], at: usize) -> Part<'t, 'a>
        ensures { view result ≡ first (seen at nodes.now) }
    {
        Part { nodes, at }
    }

    /// What it begins with.
    fn node(&self) -> Node<'a>
        ensures { view self.now ≡ says result (seen (self.now.at + 1) self.now.nodes.now) }
    {
        node_at(self.nodes, self.at)
    }

    /// The number, where it is whole, has no sign and has at most 64 bits.
    pub fn as_u64(&self) -> Option<u64>
        ensures { result ≡ option_and_then as_u64 (as_number (view self.now)) }
    {
        match self.node() {
            Node::Count(count) => Some(count),
            Node::Number(text) => u64_of(text),
            _ => None,
        }
    }

    /// The number, where it is whole and has at most 64 bits with its sign.
    pub fn as_i64(&self) -> Option<i64>
        ensures { result ≡ option_and_then as_i64 (as_number (view self.now)) }
    {
        match self.node() {
            Node::Count(count) => signed(count),
            Node::Below(number) => Some(number),
            Node::Number(text) => i64_of(text),
            _ => None,
        }
    }

    /// The truth value, where it is one.
    pub fn as_bool(&self) -> Option<bool>
        ensures { result ≡ as_bool (view self.now) }
    {
        match self.node() {
            Node::Bool(truth) => Some(truth),
            _ => None,
        }
    }

    /// The string, where it is one.
    pub fn as_str(&self) -> Option<&'a str>
        ensures { option_map (λ text. text.now) result ≡ as_str (view self.now) }
    {
        match self.node() {
            Node::String(text) => Some(text),
            _ => None,
        }
    }

    /// Whether it is null.
    pub fn is_null(&self) -> bool
        ensures { result ≡ is_some (as_null (view self.now)) }
    {
        matches!(self.node(), Node::Null)
    }

    /// Whether it is an object.
    pub fn is_object(&self) -> bool
        ensures { result ≡ is_some (as_object (view self.now)) }
    {
        matches!(self.node(), Node::Object(_, _))
    }

    /// The members of an object.
    fn members(&self) -> Option<Members<'t, 'a>>
        ensures { option_map (λ members. put_all (fields members) no_members) result ≡ as_object (view self.now) }
    {
        match self.node() {
            Node::Object(_, count) => {
                let at = first_inside(self.nodes, self.at);
                Some(Members::new(self.nodes, at, count))
            }
            _ => None,
        }
    }

    /// The value of a key of an object; of a key that stands there twice the last one. It walks the members, past their
    /// values.
    pub fn get(&self, key: &str) -> Option<Part<'t, 'a>>
        ensures { option_map view result ≡ get key.now (view self.now) }
    {
        let mut members = self.members()?;
        let mut found = None;
        'members: while let Some((name, value)) = members.next() {
            if name == key {
                found = Some(value);
            }
        }
        found
    }

    /// The values of two keys, where the object has just these, the first one first, and no key twice. It costs a look at
    /// the two keys. Where it gives nothing, it says nothing of the value.
    pub fn pair(&self, first: &str, second: &str) -> Option<(Part<'t, 'a>, Part<'t, 'a>)>
        ensures { IfSome result (λ values. as_object (view self.now)
            ≡ Some (put second.now (view values.1) (put first.now (view values.0) no_members))) }
    {
        let mut members = self.members()?;
        let (key, value) = members.next()?;
        let (other, last) = members.next()?;
        if members.next().is_none() && key == first && other == second {
            Some((value, last))
        } else {
            None
        }
    }

    /// The elements of a list.
    pub fn parts(&self) -> Option<Parts<'t, 'a>>
        ensures { option_map views result ≡ option_map elements (as_array (view self.now)) }
    {
        match self.node() {
            Node::List(_, count) => {
                let at = first_inside(self.nodes, self.at);
                Some(Parts::new(self.nodes, at, count))
            }
            _ => None,
        }
    }

    /// The first key of an object by bytes that is none of those known. It walks the members, and looks for each key
    /// among those known.
    pub fn first_unknown(&self, known: &[&str]) -> Option<&'a str>
        ensures { option_map (λ key. key.now) result ≡ unknown_in (each (λ key. key.now) known.now) (members_in (view self.now)) }
    {
        let mut members = self.members()?;
        let mut first = None;
        while let Some((key, _value)) = members.next() {
            if !is_known(known, key) {
                first = Some(sooner(first, key));
            }
        }
        first
    }
}

/// Whether a key is one of those known.
fn is_known(known: &[&str], key: &str) -> bool
    ensures { result ≡ list_any (λ other. bytes_eq key.now other.now) known.now }
{
    known.iter().any(|other| key == *other)
}

/// The key that comes first by bytes.
fn sooner<'a>(first: Option<&'a str>, key: &'a str) -> &'a str
    ensures { result.now ≡ sooner (option_map (λ k. k.now) first.entry) key.entry.now }
{
    match first {
        Some(before) => { if before <= key { before } else { key } }
        None => key,
    }
}
