//! A world of its parts, and what is answered where they break a rule.
use crate::last_parts::{last_entity, last_parts};
use scene_kinds::{Cell, Fault, Refusal, Value};
use scene_validate::WorldParts;
use scene_world::World;
use std::alloc::Global;
use std::process::Abort;

/// The refusal of parts.
fn refused(alloc: Global, parts: WorldParts) -> Option<Refusal> {
    World::from_parts(alloc, parts).err()
}

/// A resource.
fn named(rt: &impl Abort, alloc: Global, name: &str) -> (String, Cell) {
    let name = String::from_str(alloc, name).expect(rt, "memory");
    (name, Cell::new(Value::Tag, 1))
}

/// The world of the small parts with a resource.
fn lit_world(rt: &impl Abort, alloc: Global) -> World {
    let mut parts = last_parts(rt, alloc);
    let light = named(rt, alloc, "light");
    assert!(rt; parts.resources.push(light).is_ok());
    World::from_parts(alloc, parts).expect(rt, "parts that fit")
}

#[test]
fn world_is_made_of_its_parts(rt: HostRuntime) {
    let mut world = lit_world(&rt, rt.alloc());
    assert_eq!(rt; world.tick(), 1);
    assert_eq!(rt; world.mask_of(last_entity()), Some(1));
    assert!(rt; world.resources().get("light").is_some());
    let next = world.spawn(Vec::new(rt.alloc())).expect(&rt, "a slot");
    assert_eq!(rt; next.index, 1);
    assert!(rt; world.set_parent(next, last_entity()).is_ok());
}

/// Parts without a slot.
fn no_slots(rt: &impl Abort, alloc: Global) -> WorldParts {
    let mut parts = last_parts(rt, alloc);
    parts.limit = 0;
    parts
}

/// Parts in which the index of an entity is free.
fn free_and_alive(rt: &impl Abort, alloc: Global) -> WorldParts {
    let mut parts = last_parts(rt, alloc);
    assert!(rt; parts.free.push(0).is_ok());
    parts
}

/// Parts in which an entity is its own child.
fn own_child(rt: &impl Abort, alloc: Global) -> WorldParts {
    let mut parts = last_parts(rt, alloc);
    let children = vec![in alloc; last_entity()].expect(rt, "memory");
    assert!(rt; parts.children.push((last_entity(), children)).is_ok());
    parts
}

/// Parts in which a name stands twice.
fn one_name_twice(rt: &impl Abort, alloc: Global) -> WorldParts {
    let mut parts = last_parts(rt, alloc);
    for _ in 0..2 {
        let resource = named(rt, alloc, "n");
        assert!(rt; parts.resources.push(resource).is_ok());
    }
    parts
}

/// The refusal of parts that break the rule of this number.
fn rule(number: u8) -> Option<Refusal> {
    Some(Refusal::from(Fault::BadWorld(number)))
}

#[test]
fn broken_rules_are_told(rt: HostRuntime) {
    let alloc = rt.alloc();
    assert!(rt; refused(alloc, no_slots(&rt, alloc)) == rule(1));
    assert!(rt; refused(alloc, free_and_alive(&rt, alloc)) == rule(5));
    assert!(rt; refused(alloc, own_child(&rt, alloc)) == rule(8));
    assert!(rt; refused(alloc, one_name_twice(&rt, alloc)) == rule(9));
}
