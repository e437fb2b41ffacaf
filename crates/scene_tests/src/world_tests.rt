//! Calls of passes that no line of a script makes.
use crate::trials::{Trial, try_world};
use scene_kinds::{Refusal, Schema};
use scene_pass::{Filter, matching};
use scene_world::World;
use std::alloc::Global;
use std::process::Abort;
use std::test::Fail;

fn empty_world(alloc: Global) -> World {
    World::new(alloc, Schema::new(alloc), 4)
}

/// Spawns two entities without components, and whether just these match, in the order of their rows.
fn both_match(alloc: Global, world: &mut World) -> Result<bool, Refusal> {
    let first = world.spawn(Vec::new(alloc))?;
    let second = world.spawn(Vec::new(alloc))?;
    let found = matching(alloc, world, Filter::all())?;
    Ok(found.as_slice() == [first, second].as_slice())
}

pub fn matches_are_tried(rt: &impl Abort, alloc: Global, world: &mut World) {
    assert!(rt; both_match(alloc, world) == Ok(true));
}

#[test]
fn entities_that_match_stand_in_the_order_of_rows(rt: HostRuntime) -> Result<(), Fail> {
    try_world(&rt, rt.alloc(), empty_world(rt.alloc()), Trial::Matches);
    Ok(())
}
