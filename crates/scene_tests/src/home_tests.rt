//! Where each entity's row stands, after each step of moves that were worked out by hand.
ghost use Rattle.std.specs.Prelude.{◌<◌};

use crate::trials::{Trial, try_world};
use scene_kinds::{Entity, KindSet, Refusal, Schema, Shape, Value};
use scene_table::Home;
use scene_world::World;
use std::alloc::Global;
use std::process::Abort;
use std::test::Fail;

/// The numbers of the kinds A and B, both Tags.
const A: u8 = 0;

const B: u8 = 1;

/// All sets of them. Just A is the second.
const KIND_SETS: [KindSet; 4] = [0, 1, 2, 3];

const JUST_A: KindSet = 1;

/// A call that moves rows. An entity is the first one of an index.
#[derive(Clone, Copy)]
enum Step {
    /// An entity with A comes.
    Spawn,
    Insert(u32, u8),
    Remove(u32, u8),
    Despawn(u32),
    /// The first becomes a child of the second.
    Link(u32, u32),
    DespawnAll(u32),
}

/// The steps, each with the indices of the entities that have just A afterwards, in the order of their rows.
const STEPS: [(Step, &[u32]); 17] = [
    (Step::Spawn, &[0]),
    (Step::Spawn, &[0, 1]),
    (Step::Spawn, &[0, 1, 2]),
    (Step::Spawn, &[0, 1, 2, 3]),
    (Step::Spawn, &[0, 1, 2, 3, 4]),
    (Step::Spawn, &[0, 1, 2, 3, 4, 5]),
    // the last row comes to the place of one that leaves
    (Step::Insert(1, B), &[0, 5, 2, 3, 4]),
    (Step::Insert(4, B), &[0, 5, 2, 3]),
    (Step::Insert(0, B), &[3, 5, 2]),
    // and one that comes back goes last
    (Step::Remove(1, B), &[3, 5, 2, 1]),
    (Step::Remove(5, A), &[3, 1, 2]),
    // a value in place moves no row
    (Step::Insert(1, A), &[3, 1, 2]),
    (Step::Despawn(3), &[2, 1]),
    (Step::Link(2, 0), &[2, 1]),
    (Step::Link(4, 0), &[2, 1]),
    // both children leave, and then their parent, whose index is used again
    (Step::DespawnAll(0), &[1]),
    (Step::Spawn, &[1, 0]),
];

/// The first entity of an index.
fn first(index: u32) -> Entity {
    Entity {
        index,
        generation: 1,
    }
}

fn empty_world(alloc: Global) -> Result<World, Refusal> {
    let mut schema = Schema::new(alloc);
    for name in ["A", "B"] {
        let _kind = schema.add(String::from_str(alloc, name)?, Shape::Tag)?;
    }
    Ok(World::new(alloc, schema, 6))
}

fn spawn_with_a(alloc: Global, world: &mut World) -> Result<(), Refusal> {
    let cells = Vec::from_array(alloc, [(A, Value::Tag)])?;
    let _entity = world.spawn(cells)?;
    Ok(())
}

fn is_done(alloc: Global, world: &mut World, step: Step) -> bool {
    let answer = match step {
        Step::Spawn => spawn_with_a(alloc, world),
        Step::Insert(index, kind) => world.insert(first(index), kind, Value::Tag),
        Step::Remove(index, kind) => world.remove(first(index), kind),
        Step::Despawn(index) => world.despawn(first(index)),
        Step::Link(child, parent) => world.set_parent(first(child), first(parent)),
        Step::DespawnAll(index) => world.despawn_recursive(first(index)),
    };
    answer.is_ok()
}

/// The entities of a kind set, in the order of their rows.
fn entities_of(world: &World, mask: KindSet) -> &[Entity] {
    match world.rows_of(mask) {
        Some(table) => table.entities(),
        None => &[],
    }
}

/// Whether the entities of a kind set have these indices, in the order of their rows.
fn has_rows(world: &World, mask: KindSet, indices: &[u32]) -> bool {
    let entities = entities_of(world, mask);
    entities.len() == indices.len()
        && entities
            .iter()
            .zip(indices)
            .all(|(entity, index)| entity.index == *index)
}

/// Whether each row of a kind set stands where the readers of a world say of its entity.
fn rows_have_homes(world: &World, mask: KindSet) -> bool {
    let entities = entities_of(world, mask);
    for place in 0..entities.len() {
        let entity = entities[place];
        let listed = world.homes().get(entity.index as usize).copied();
        let said = world.place_of(entity).map(|place| place as usize);
        if listed != Some(Some(Home { mask, place })) || said != Some(place) {
            return false;
        }
    }
    true
}

/// Whether a row of an index stands at the home that is listed for it, where one is.
fn home_has_row(world: &World, index: usize, home: Option<Home>) -> bool {
    match home {
        Some(home) => match entities_of(world, home.mask).get(home.place) {
            Some(entity) => entity.index as usize == index,
            None => false,
        },
        None => true,
    }
}

/// Whether the homes are just the places at which the rows stand.
fn homes_are_places(world: &World) -> bool {
    let homes = world.homes();
    for index in 0..homes.len() {
        if !home_has_row(world, index, homes[index]) {
            return false;
        }
    }
    KIND_SETS.iter().all(|mask| rows_have_homes(world, *mask))
}

/// The step of a number is done, and all rows are where they should be.
fn step_is_tried(rt: &impl Abort, alloc: Global, world: &mut World, number: usize)
    requires { number < 17 }
{
    let (step, rows) = STEPS[number];
    assert!(rt; is_done(alloc, world, step), "step {number}");
    assert!(rt; has_rows(world, JUST_A, rows), "step {number}");
    assert!(rt; homes_are_places(world), "step {number}");
}

pub fn moves_are_tried(rt: &impl Abort, alloc: Global, world: &mut World) {
    for number in 0..STEPS.len() {
        step_is_tried(rt, alloc, world, number);
    }
}

#[test]
fn homes_are_places_of_rows_after_each_move(rt: HostRuntime) -> Result<(), Fail> {
    let world = empty_world(rt.alloc()).expect(&rt, "a world");
    try_world(&rt, rt.alloc(), world, Trial::Moves);
    Ok(())
}
