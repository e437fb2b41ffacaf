//! What is done to a small world, and what is seen of it then, as a list of steps.
use crate::changes::Change;
use crate::scenes::first;
use scene_deltas::{redo_delta, undo_delta};
use scene_kinds::{Entity, KindSet};
use scene_table::Home;
use scene_world::World;
use std::alloc::Global;

/// A step: something is done to the world, or its readers are asked. Entities stand there by their index.
#[derive(Clone, Copy)]
pub enum Step<'a> {
    /// The tick is raised.
    Tick,
    /// A change fits, and is made.
    Goes(Change),
    /// A change doesn't fit.
    CannotGo(Change),
    /// A change fits back, and is taken back.
    Returns(Change),
    /// A change doesn't fit back.
    CannotReturn(Change),
    /// The rows of a kind set are those of these entities, and each is at home where it stands.
    Rows(KindSet, &'a [u32]),
    /// The slots have these generations and these free indices; all others are at home somewhere.
    Slots(&'a [u32], &'a [u32]),
    /// The children of an entity are these.
    Children(u32, &'a [u32]),
    /// The resource n was changed at this tick, or isn't there.
    Resource(Option<u64>),
}

/// Whether a change fits on a world; then it is made there.
fn goes(alloc: Global, world: &mut World, change: Change) -> bool {
    match change.delta(alloc) {
        Ok(delta) => delta.fits_on(world) && redo_delta(world, &delta).is_ok(),
        Err(_) => false,
    }
}

/// Whether a change fits back on a world; then it is taken back there.
fn returns(alloc: Global, world: &mut World, change: Change) -> bool {
    match change.delta(alloc) {
        Ok(delta) => delta.fits_back(world) && undo_delta(world, &delta).is_ok(),
        Err(_) => false,
    }
}

/// Whether an entity is the first one of an index, and the readers of a world say that its row stands at a home.
fn stands(world: &World, home: Home, entity: Entity, index: u32) -> bool {
    let listed = world.homes().get(index as usize).copied();
    entity == first(index)
        && listed == Some(Some(home))
        && world.place_of(entity).map(|place| place as usize) == Some(home.place)
        && world.mask_of(entity) == Some(home.mask)
}

fn has_rows(world: &World, mask: KindSet, indices: &[u32]) -> bool {
    let Some(table) = world.rows_of(mask) else {
        return indices.is_empty();
    };
    let entities = table.entities();
    if entities.len() != indices.len() {
        return false;
    }
    for place in 0..entities.len() {
        if !stands(world, Home { mask, place }, entities[place], indices[place]) {
            return false;
        }
    }
    true
}

fn has_slots(world: &World, generations: &[u32], free: &[u32]) -> bool {
    let slots = world.slots();
    let homes = world.homes().iter().filter(|home| home.is_some()).count();
    slots.generations() == generations
        && slots.free() == free
        && homes + free.len() == generations.len()
}

fn has_children(world: &World, parent: u32, children: &[u32]) -> bool {
    let found = world.links().children_of(first(parent));
    found.len() == children.len()
        && found
            .iter()
            .zip(children)
            .all(|(entity, index)| *entity == first(*index))
}

/// Does what a step says, and answers whether it was as the step says.
fn holds(alloc: Global, world: &mut World, step: Step) -> bool {
    match step {
        Step::Tick => world.raise_tick().is_ok(),
        Step::Goes(change) => goes(alloc, world, change),
        Step::CannotGo(change) => !goes(alloc, world, change),
        Step::Returns(change) => returns(alloc, world, change),
        Step::CannotReturn(change) => !returns(alloc, world, change),
        Step::Rows(mask, indices) => has_rows(world, mask, indices),
        Step::Slots(generations, free) => has_slots(world, generations, free),
        Step::Children(parent, children) => has_children(world, parent, children),
        Step::Resource(changed) => world.resources().get("n").map(|n| n.changed) == changed,
    }
}

/// Takes one step after another, and answers the number of the first that wasn't as it says.
pub fn first_wrong(alloc: Global, world: &mut World, steps: &[Step]) -> Option<usize> {
    for at in 0..steps.len() {
        if !holds(alloc, world, steps[at]) {
            return Some(at);
        }
    }
    None
}
