//! Calls of links and what they must answer, which were worked out by hand, as data that one function walks.
use crate::{Firsts, first};
use scene_kinds::{Entity, Fault, Refusal};

/// A call, or a look, and its answer. An entity is the first one of its index.
#[derive(Clone, Copy)]
pub enum Step {
    /// The first becomes the last child of the second.
    Link(u32, u32),
    /// That is refused, since it would make a cycle.
    Cycle(u32, u32),
    /// The first leaves the second, below which it stood at this place.
    Unlink(u32, u32, usize),
    /// The first comes to a place below the second.
    Relink(u32, u32, usize),
    /// It may not.
    NoRelink(u32, u32, usize),
    /// The first becomes the last child of the second, in room that was made before.
    LinkInSteps(u32, u32),
    /// It may not.
    NoLinkInSteps(u32, u32),
    /// The first leaves the second, below which it stood at this place, and comes back.
    TakeOutAndPutBack(u32, u32, usize),
    /// It has no parent to leave.
    NothingToTakeOut(u32),
    /// An entity has these children, in this order.
    Children(u32, &'static [u32]),
    /// There is no room for children of it.
    NoRoom(u32),
    /// There is.
    Room(u32),
}

/// Whether the children of an entity are these, in this order.
fn has_children(firsts: &Firsts, parent: u32, children: &[u32]) -> bool {
    let found = firsts.links().children_of(first(parent));
    found.len() == children.len()
        && found
            .iter()
            .zip(children)
            .all(|(entity, index)| *entity == first(*index))
}

/// Does a step. Answers whether the answer is the right one.
pub fn is_right(firsts: &mut Firsts, step: Step) -> bool {
    match step {
        Step::Link(child, parent) => firsts.link(child, parent) == Ok(()),
        Step::Cycle(child, parent) => {
            firsts.link(child, parent) == Err(Refusal::from(Fault::Cycle))
        }
        Step::Unlink(child, parent, place) => firsts.unlink(child) == Ok((first(parent), place)),
        Step::Relink(child, parent, place) => firsts.relink(child, parent, place) == Ok(true),
        Step::NoRelink(child, parent, place) => firsts.relink(child, parent, place) == Ok(false),
        Step::LinkInSteps(child, parent) => firsts.link_in_steps(child, parent) == Ok(true),
        Step::NoLinkInSteps(child, parent) => firsts.link_in_steps(child, parent) == Ok(false),
        Step::TakeOutAndPutBack(child, parent, place) => {
            firsts.take_out_and_put_back(child) == Some((first(parent), place))
        }
        Step::NothingToTakeOut(child) => firsts.take_out_and_put_back(child) == None,
        Step::Children(parent, children) => has_children(firsts, parent, children),
        Step::NoRoom(parent) => firsts.links().capacity_of(first(parent)) == 0,
        Step::Room(parent) => firsts.links().capacity_of(first(parent)) > 0,
    }
}

/// Does steps up to the first one whose answer is wrong. Answers its number, from 0, or `None` where all are right.
pub fn first_wrong(firsts: &mut Firsts, steps: &[Step]) -> Option<usize> {
    for number in 0..steps.len() {
        if !is_right(firsts, steps[number]) {
            return Some(number);
        }
    }
    None
}
