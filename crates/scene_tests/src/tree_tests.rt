//! Deep and wide trees: they are built and taken apart without recursion, and without walks over the whole forest.
use crate::trials::{Trial, try_world};
use scene_kinds::{Entity, Refusal, Schema};
use scene_world::World;
use std::alloc::Global;
use std::process::Abort;
use std::test::Fail;

/// How many entities stand below the root.
const BELOW: u32 = 20_000;

/// A world with room for just one such tree.
fn empty_world(alloc: Global) -> World {
    World::new(alloc, Schema::new(alloc), BELOW + 1)
}

/// Spawns an entity without components below another one.
fn spawn_below(alloc: Global, world: &mut World, parent: Entity) -> Result<Entity, Refusal> {
    let child = world.spawn(Vec::new(alloc))?;
    world.set_parent(child, parent)?;
    Ok(child)
}

/// Whether all entities are gone, the last of them the root, which has index 0.
fn is_taken_apart(world: &World, first_gone: u32) -> bool {
    let free = world.slots().free();
    world.links().is_empty()
        && free.len() == BELOW as usize + 1
        && free.first() == Some(&first_gone)
        && free.last() == Some(&0)
}

/// Spawns a chain, each entity below the one before, and takes it apart from its root.
fn chain_comes_and_goes(alloc: Global, world: &mut World) -> Result<(), Refusal> {
    let root = world.spawn(Vec::new(alloc))?;
    let mut above = root;
    for _ in 0..BELOW {
        above = spawn_below(alloc, world, above)?;
    }
    world.despawn_recursive(root)
}

/// Spawns children below one root, and takes them apart from it.
fn children_come_and_go(alloc: Global, world: &mut World) -> Result<(), Refusal> {
    let root = world.spawn(Vec::new(alloc))?;
    for _ in 0..BELOW {
        let _child = spawn_below(alloc, world, root)?;
    }
    world.despawn_recursive(root)
}

pub fn chain_is_tried(rt: &impl Abort, alloc: Global, world: &mut World) {
    assert!(rt; chain_comes_and_goes(alloc, world).is_ok());
    assert!(rt; is_taken_apart(world, BELOW));
}

#[test]
fn a_deep_chain_is_taken_apart_from_its_end(rt: HostRuntime) -> Result<(), Fail> {
    try_world(&rt, rt.alloc(), empty_world(rt.alloc()), Trial::Chain);
    Ok(())
}

pub fn children_are_tried(rt: &impl Abort, alloc: Global, world: &mut World) {
    assert!(rt; children_come_and_go(alloc, world).is_ok());
    assert!(rt; is_taken_apart(world, 1));
}

#[test]
fn a_wide_parent_is_taken_apart_from_its_first_child(rt: HostRuntime) -> Result<(), Fail> {
    try_world(&rt, rt.alloc(), empty_world(rt.alloc()), Trial::Children);
    Ok(())
}
