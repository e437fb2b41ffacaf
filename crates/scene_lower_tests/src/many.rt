//! What tests do to many children, one after another.
ghost use Rattle.std.specs.Prelude.{◌+◌, ◌<◌};

use crate::steps::{Step, is_right};
use crate::{Firsts, first};
use scene_kinds::Entity;

/// What is done to each of the children 1 to a last one, in this order or from the last one on.
#[derive(Clone, Copy)]
pub enum Way {
    /// Each becomes the last child of 0.
    LinkRow,
    /// Each leaves 0, below which it stood first.
    EmptyFromFront,
    /// From the last one on each comes first below 0.
    RefillFromLast,
    /// From the last one on each leaves 0, below which it stood last.
    UnlinkFromLast,
    /// Each becomes a child of the one before.
    LinkChain,
    /// Each leaves the one before, below which it stood alone.
    UnlinkChain,
}

impl Way {
    fn is_from_last(self) -> bool {
        matches!(self, Way::RefillFromLast | Way::UnlinkFromLast)
    }

    /// The step of the child that stands behind this one.
    fn step_behind(self, before: u32) -> Step
        requires { before < 4294967295 }
    {
        let child = before + 1;
        match self {
            Way::LinkRow => Step::Link(child, 0),
            Way::EmptyFromFront => Step::Unlink(child, 0, 0),
            Way::RefillFromLast => Step::Relink(child, 0, 0),
            Way::UnlinkFromLast => Step::Unlink(child, 0, before as usize),
            Way::LinkChain => Step::Link(child, before),
            Way::UnlinkChain => Step::Unlink(child, before, 0),
        }
    }
}

/// Does so to the children 1 to `count`, up to the first one whose answer is wrong. Answers that one, or `None`.
pub fn first_wrong_child(firsts: &mut Firsts, way: Way, count: u32) -> Option<u32> {
    for done in 0..count {
        let before = if way.is_from_last() {
            count - 1 - done
        } else {
            done
        };
        if !is_right(firsts, way.step_behind(before)) {
            return Some(before + 1);
        }
    }
    None
}

/// Whether these are 1 to `count`, in this order.
pub fn is_row(entities: &[Entity], count: u32) -> bool {
    entities.len() == count as usize
        && entities
            .iter()
            .zip(1..=count)
            .all(|(entity, index)| *entity == first(index))
}
