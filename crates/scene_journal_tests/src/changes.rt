//! Changes of small worlds that were worked out by hand, each by a few numbers.
use crate::scenes::{A, T, cell, first, number, one_number};
use scene_deltas::{Delta, ResourceCell};
use scene_kinds::{Entity, Text, Value};
use std::alloc::{AllocError, Global};

/// An entity's link, by the parent's index, and the place among its children.
pub type LinkTo = Option<(u32, u32)>;

/// What becomes of an entity, which is always the first of its index, or of the resource n.
#[derive(Clone, Copy)]
pub enum Change {
    /// The entity of an index comes with the index as its number, at a tick that is one above it.
    Comes(u32),
    /// The same entity leaves from a place.
    Leaves {
        index: u32,
        place: u32,
    },
    /// The entity of index 1 gets a Tag of tick 4 and leaves a place of its old table, or loses it again.
    Tagged {
        place: u32,
        inward: bool,
    },
    /// The number of the entity of index 0 is set at tick 2, though it stays 0.
    SetAgain,
    /// The entity of an index goes from one link to another.
    Linked {
        index: u32,
        before: LinkTo,
        after: LinkTo,
    },
    /// The resource n goes from one cell of 1 to another, by the ticks of their change.
    Put {
        before: Option<u64>,
        after: Option<u64>,
    },
}

fn spawned(alloc: Global, index: u32) -> Result<Delta, AllocError> {
    Ok(Delta::Spawned {
        entity: first(index),
        cells: one_number(alloc, i64::from(index), u64::from(index) + 1)?,
        fresh: true,
    })
}

fn despawned(alloc: Global, index: u32, place: u32) -> Result<Delta, AllocError> {
    Ok(Delta::Despawned {
        entity: first(index),
        place,
        cells: one_number(alloc, i64::from(index), u64::from(index) + 1)?,
        link: None,
        retired: false,
    })
}

fn tagged(place: u32, inward: bool) -> Delta {
    Delta::Shifted {
        entity: first(1),
        place,
        kind: T,
        cell: cell(Value::Tag, 4, 4),
        inward,
    }
}

fn set_again() -> Delta {
    Delta::CellSet {
        entity: first(0),
        kind: A,
        before: number(0, 1, 1),
        after: number(0, 1, 2),
    }
}

fn link(to: LinkTo) -> Option<(Entity, u32)> {
    to.map(|(parent, place)| (first(parent), place))
}

fn linked(index: u32, before: LinkTo, after: LinkTo) -> Delta {
    Delta::Linked {
        entity: first(index),
        before: link(before),
        after: link(after),
    }
}

fn resource(alloc: Global, changed: Option<u64>) -> Result<ResourceCell, AllocError> {
    ResourceCell::new(alloc, changed.map(|tick| number(1, 1, tick)))
}

fn put(alloc: Global, before: Option<u64>, after: Option<u64>) -> Result<Delta, AllocError> {
    let name = String::from_str(alloc, "n")?;
    Ok(Delta::ResourceSet {
        name: Text::from(name),
        before: resource(alloc, before)?,
        after: resource(alloc, after)?,
    })
}

impl Change {
    /// The change as a delta.
    pub fn delta(self, alloc: Global) -> Result<Delta, AllocError> {
        match self {
            Change::Comes(index) => spawned(alloc, index),
            Change::Leaves { index, place } => despawned(alloc, index, place),
            Change::Tagged { place, inward } => Ok(tagged(place, inward)),
            Change::SetAgain => Ok(set_again()),
            Change::Linked {
                index,
                before,
                after,
            } => Ok(linked(index, before, after)),
            Change::Put { before, after } => put(alloc, before, after),
        }
    }
}
