//! The elements of a list in a document.
ghost use Rattle.std.specs.Prelude.{◌≡◌, ◌≢◌, [], ◌∷◌, length, nat_eq, MatchOption};
ghost use Rattle.scene_json.specs.Lists.{elements};
ghost use Rattle.scene_json.specs.NodeData.{items_from, seen};

use crate::node::Node;
use crate::nodes::behind;
use crate::part::Part;

/// The elements of a list, one after another.
#[derive(Drop)]
pub struct Parts<'t, 'a> {
    nodes: &'t [Node<'a>],
    at: usize,
    left: usize,
}

impl<'t, 'a> Parts<'t, 'a> {
    ghost use Rattle.scene_json.specs.View.{view, views};

    /// The elements that begin at a node, of which so many are left.
    pub(crate) fn new(nodes: &'t [Node<'a>], at: usize, left: usize) -> Parts<'t, 'a>
        ensures { views result ≡ elements (items_from left (seen at nodes.now)) }
    {
        Parts { nodes, at, left }
    }

    /// How many elements are left.
    pub fn len(&self) -> usize
        ensures { result ≡ length (views self.now) }
    {
        self.left
    }

    /// Whether no element is left.
    pub fn is_empty(&self) -> bool
        ensures { result ≡ nat_eq (length (views self.now)) 0 }
    {
        self.left == 0
    }

    /// The next element, where there is one.
    pub fn next(&mut self) -> Option<Part<'t, 'a>>
        ensures { MatchOption result ((views self.old ≡ []) × (views self.new ≡ []))
            (λ part. views self.old ≡ view part ∷ views self.new) }
    {
        if self.left == 0 {
            return None;
        }
        let part = Part::new(self.nodes, self.at);
        self.at = behind(self.nodes, self.at);
        self.left -= 1;
        Some(part)
    }

    /// The elements, where there are just two.
    pub fn two(self) -> Option<(Part<'t, 'a>, Part<'t, 'a>)>
        ensures { MatchOption result (length (views self.entry) ≢ 2) (λ parts. views self.entry ≡ view parts.0 ∷ view parts.1 ∷ []) }
    {
        let mut parts = self;
        if parts.len() != 2 {
            return None;
        }
        Some((parts.next()?, parts.next()?))
    }

    /// The elements, where there are just three.
    pub fn three(self) -> Option<(Part<'t, 'a>, Part<'t, 'a>, Part<'t, 'a>)>
        ensures { MatchOption result (length (views self.entry) ≢ 3)
            (λ parts. views self.entry ≡ view parts.0 ∷ view parts.1 ∷ view parts.2 ∷ []) }
    {
        let mut parts = self;
        if parts.len() != 3 {
            return None;
        }
        Some((parts.next()?, parts.next()?, parts.next()?))
    }

    /// The elements, where there are just four.
    pub fn four(self) -> Option<(Part<'t, 'a>, Part<'t, 'a>, Part<'t, 'a>, Part<'t, 'a>)>
        ensures { MatchOption result (length (views self.entry) ≢ 4)
            (λ parts. views self.entry ≡ view parts.0 ∷ view parts.1 ∷ view parts.2 ∷ view parts.3 ∷ []) }
    {
        let mut parts = self;
        if parts.len() != 4 {
            return None;
        }
        Some((parts.next()?, parts.next()?, parts.next()?, parts.next()?))
    }
}
