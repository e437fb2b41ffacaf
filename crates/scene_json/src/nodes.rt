//! The nodes that a text is kept as.
ghost use Rattle.std.specs.Prelude.{◌≡◌, ◌+◌, drop, get_or};
ghost use Rattle.scene_json.specs.NodeData.{inside, seen};
ghost use Rattle.scene_json.specs.declared.node.Node.TheVariants.{Null};

use crate::node::Node;

/// The node at a place, or null past the last one.
pub(crate) fn node_at<'a>(nodes: &[Node<'a>], at: usize) -> Node<'a>
    ensures { result ≡ get_or nodes.now at Null }
{
    if at < nodes.len() {
        nodes[at]
    } else {
        Node::Null
    }
}

/// The place of the first node inside a list or an object.
pub(crate) fn first_inside(nodes: &[Node<'_>], at: usize) -> usize
    ensures { seen result nodes.now ≡ seen (at + 1) nodes.now }
{
    if at < nodes.len() { at + 1 } else { at }
}

/// How many nodes stand inside a node.
fn inside(node: Node<'_>) -> usize
    ensures { result ≡ inside node.entry }
{
    match node {
        Node::List(inside, _) | Node::Object(inside, _) => inside,
        _ => 0,
    }
}

/// The place behind a value.
pub(crate) fn behind(nodes: &[Node<'_>], at: usize) -> usize
    ensures { seen result nodes.now ≡ drop 1 (seen at nodes.now) }
{
    if at >= nodes.len() {
        return at;
    }
    let inside = inside(node_at(nodes, at));
    if inside < nodes.len() - at {
        at + 1 + inside
    } else {
        nodes.len()
    }
}
