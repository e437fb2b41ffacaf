//! Frames of one queue, with their records.
ghost use Rattle.scene_deltas.specs.Ready.{AreReady};

use crate::printed::text_of;
use scene_journal::{Deltas, FrameRecord, Recorder};
use scene_kinds::Refusal;
use scene_queue::Queue;
use scene_world::World;
use std::alloc::Global;
use std::process::Abort;

/// A recorder of a frame that has done nothing yet but raise the tick.
pub fn begun(rt: &impl Abort, alloc: Global, world: World) -> Recorder {
    let tick = world.tick();
    let mut raised = world;
    let is_raised = raised.raise_tick().is_ok();
    assert!(rt; is_raised);
    Recorder::new(alloc, raised, FrameRecord::new(tick, Deltas::new(alloc)))
}

/// Does the commands of a queue.
pub fn apply(rt: &impl Abort, recorder: &mut Recorder, queue: &Queue) {
    let is_applied = queue.apply(recorder).is_ok();
    assert!(rt; is_applied);
}

/// The world after a frame of one queue, and the frame's record.
pub fn framed(rt: &impl Abort, alloc: Global, world: World, queue: &Queue) -> (World, FrameRecord)
    ensures { AreReady result.0.room result.1.deltas result.0.world }
{
    let mut recorder = begun(rt, alloc, world);
    apply(rt, &mut recorder, queue);
    recorder.into_parts()
}

/// The world after a frame of one queue.
pub fn world_after(
    rt: &impl Abort,
    alloc: Global,
    world: Result<World, Refusal>,
    queue: &Queue,
) -> World {
    let world = world.expect(rt, "a world");
    let (world, _record) = framed(rt, alloc, world, queue);
    world
}

/// The record of a frame of one queue, and the text of the world after it.
pub fn record_of(
    rt: &impl Abort,
    alloc: Global,
    world: World,
    queue: &Queue,
) -> (FrameRecord, String) {
    let (after, record) = framed(rt, alloc, world, queue);
    (record, text_of(alloc, &after).expect(rt, "memory"))
}
