//! The members of an object in a document.
ghost use Rattle.std.specs.Prelude.{◌≡◌, [], ◌∷◌, MatchOption};
ghost use Rattle.scene_json.specs.NodeData.{fields_from, first, seen, text_in};

use crate::node::Node;
use crate::nodes::{behind, node_at};
use crate::part::Part;

/// The text of a key.
fn key_at<'a>(nodes: &[Node<'a>], at: usize) -> &'a str
    ensures { result.now ≡ text_in (first (seen at nodes.now)) }
{
    match node_at(nodes, at) {
        Node::String(key) => key,
        _ => "",
    }
}

/// The members of an object, one after another.
#[derive(Drop)]
pub(crate) struct Members<'t, 'a> {
    nodes: &'t [Node<'a>],
    at: usize,
    left: usize,
}

impl<'t, 'a> Members<'t, 'a> {
    ghost use Rattle.scene_json.specs.View.{fields, view};

    /// The members that begin at a node, of which so many are left.
    pub(crate) fn new(nodes: &'t [Node<'a>], at: usize, left: usize) -> Members<'t, 'a>
        ensures { fields result ≡ fields_from left (seen at nodes.now) }
    {
        Members { nodes, at, left }
    }

    /// The next key and its value, where there is one.
    pub(crate) fn next(&mut self) -> Option<(&'a str, Part<'t, 'a>)>
        ensures { MatchOption result ((fields self.old ≡ []) × (fields self.new ≡ []))
            (λ member. fields self.old ≡ (member.0.now, view member.1) ∷ fields self.new) }
    {
        if self.left == 0 {
            return None;
        }
        let key = key_at(self.nodes, self.at);
        let at = behind(self.nodes, self.at);
        self.at = behind(self.nodes, at);
        self.left -= 1;
        Some((key, Part::new(self.nodes, at)))
    }
}
