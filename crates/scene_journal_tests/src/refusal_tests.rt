//! Records that don't fit, each with its first fault.
use crate::frames::world_after;
use crate::scenes::{A, empty_world, first, one_number, pushed, spawn};
use crate::trials::{Trial, try_world};
use scene_deltas::{Delta, Deltas};
use scene_journal::FrameRecord;
use scene_kinds::{Entity, Fault, Refusal, Value};
use scene_queue::Queue;
use scene_world::World;
use std::alloc::{AllocError, Global};
use std::process::Abort;
use std::test::Fail;

/// The world after a frame on an empty one, which spawned an entity with a 5.
fn spawned_world(rt: &impl Abort, alloc: Global) -> World {
    let mut queue = Queue::new(alloc);
    assert!(rt; pushed(&mut queue, spawn(alloc, A, Value::Int(5))));
    world_after(rt, alloc, empty_world(alloc), &queue)
}

/// The record with this delta alone.
fn record_of(alloc: Global, tick_before: u64, delta: Delta) -> Result<FrameRecord, AllocError> {
    let deltas = vec![in alloc; delta]?;
    Ok(FrameRecord::new(tick_before, Deltas::from_list(alloc, deltas)?))
}

/// The record of a frame at a tick with a spawn of this number in the first frame.
fn spawn_of(alloc: Global, tick_before: u64, number: i64) -> Result<FrameRecord, AllocError> {
    let delta = Delta::Spawned {
        entity: first(0),
        cells: one_number(alloc, number, 1)?,
        fresh: true,
    };
    record_of(alloc, tick_before, delta)
}

/// The record of a second frame, in which an entity goes below another.
fn link_of(alloc: Global, entity: Entity, parent: Entity) -> Result<FrameRecord, AllocError> {
    let delta = Delta::Linked {
        entity,
        before: None,
        after: Some((parent, 0)),
    };
    record_of(alloc, 1, delta)
}

/// Whether a record fits back on a world, or is refused so.
fn undone(
    record: Result<FrameRecord, AllocError>,
    world: &World,
    answer: Result<(), Refusal>,
) -> bool {
    match record {
        Ok(record) => record.fits_back(world) == answer,
        Err(_) => false,
    }
}

/// The same of a record that is redone.
fn redone(
    record: Result<FrameRecord, AllocError>,
    world: &World,
    answer: Result<(), Refusal>,
) -> bool {
    match record {
        Ok(record) => record.fits_on(world) == answer,
        Err(_) => false,
    }
}

/// The refusal of a record by the fault of this number.
fn bad(delta: u64) -> Result<(), Refusal> {
    Err(Refusal::from(Fault::BadRecord { frame: 0, delta }))
}

/// Records are tried back on the world of one entity.
pub fn undone_are_tried(rt: &impl Abort, alloc: Global, world: &World) {
    assert!(rt; undone(spawn_of(alloc, 0, 5), world, Ok(())));
    assert!(rt; undone(spawn_of(alloc, 3, 5), world, bad(1)));
    assert!(rt; undone(spawn_of(alloc, 0, 6), world, bad(0)));
    let nothing = FrameRecord::new(0, Deltas::new(alloc));
    assert!(rt; undone(Ok(nothing), world, bad(0)));
}

#[test]
fn faults_of_undone_records_are_told(rt: HostRuntime) -> Result<(), Fail> {
    let world = spawned_world(&rt, rt.alloc());
    try_world(&rt, rt.alloc(), Ok(world), Trial::Undone);
    Ok(())
}

/// Records are tried on that world.
pub fn redone_are_tried(rt: &impl Abort, alloc: Global, world: &World) {
    let nothing = FrameRecord::new(1, Deltas::new(alloc));
    assert!(rt; redone(Ok(nothing), world, Ok(())));
    let nothing = FrameRecord::new(0, Deltas::new(alloc));
    assert!(rt; redone(Ok(nothing), world, bad(0)));
    assert!(rt; redone(spawn_of(alloc, 0, 5), world, bad(1)));
    assert!(rt; redone(link_of(alloc, first(0), first(0)), world, bad(0)));
    assert!(rt; redone(link_of(alloc, first(0), first(1)), world, bad(0)));
}

#[test]
fn faults_of_redone_records_are_told(rt: HostRuntime) -> Result<(), Fail> {
    let world = spawned_world(&rt, rt.alloc());
    try_world(&rt, rt.alloc(), Ok(world), Trial::Redone);
    Ok(())
}
