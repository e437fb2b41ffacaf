//! Queues as code makes them.
use crate::trials::{Trial, try_world};
use scene_commands::{Command, Components, Target};
use scene_kinds::{Entity, Fault, Schema, Value};
use scene_queue::Queue;
use scene_world::World;
use std::alloc::Global;
use std::process::Abort;
use std::test::Fail;

fn empty_world(alloc: Global) -> World {
    World::new(alloc, Schema::new(alloc), 4)
}

/// No components.
fn none(alloc: Global) -> Components {
    let cells: Vec<(u8, Value)> = Vec::new(alloc);
    Components::from(cells)
}

/// Whether a queue takes the despawn of the first entity that it spawns.
fn takes_despawn(queue: &mut Queue) -> bool {
    queue.push(Command::Despawn(Target::New(0))).is_ok()
}

/// A spawn, a despawn of what it spawned, and a spawn that uses the index again.
fn spawned_twice(rt: &impl Abort, alloc: Global) -> Queue {
    let mut queue = Queue::new(alloc);
    let first = queue.spawn(none(alloc)).ok();
    assert_eq!(rt; first, Some(Target::New(0)));
    assert!(rt; takes_despawn(&mut queue));
    assert!(rt; queue.spawn(none(alloc)).is_ok());
    queue
}

pub fn commands_are_tried(rt: &impl Abort, alloc: Global, world: &mut World) {
    let queue = spawned_twice(rt, alloc);
    let spawned = queue.apply(world).expect(rt, "memory");
    let reused = Entity {
        index: 0,
        generation: 2,
    };
    assert_eq!(rt; spawned.get(1), Some(&reused));
    assert!(rt; world.is_alive(reused));
}

#[test]
fn commands_are_applied_in_order(rt: HostRuntime) -> Result<(), Fail> {
    try_world(&rt, rt.alloc(), empty_world(rt.alloc()), Trial::Commands);
    Ok(())
}

#[test]
fn a_full_queue_hands_the_command_back(rt: HostRuntime) -> Result<(), Fail> {
    let mut queue = Queue::with_limit(rt.alloc(), 1);
    assert!(rt; takes_despawn(&mut queue));
    match queue.push(Command::RemoveParent(Target::New(7))) {
        Ok(()) => panic!(rt; "a second command was taken"),
        Err(back) => assert_eq!(rt; back.refusal.fault, Fault::QueueFull),
    }
    assert_eq!(rt; queue.commands().len(), 1);
    Ok(())
}

#[test]
fn a_copy_of_a_queue_has_its_commands(rt: HostRuntime) -> Result<(), Fail> {
    let mut queue = Queue::new(rt.alloc());
    assert!(rt; takes_despawn(&mut queue));
    let copy = queue.try_clone().expect(&rt, "memory");
    assert_eq!(rt; copy.commands().len(), 1);
    Ok(())
}
