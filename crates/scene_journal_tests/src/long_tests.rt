//! A long frame is recorded and taken back, and its record is made again and taken back.
use crate::frames::{apply, begun, record_of, world_after};
use crate::long_frame::{push_long, push_opening};
use crate::printed::text_of;
use crate::scenes::empty_world;
use crate::trials::{Trial, try_world};
use scene_journal::{FrameRecord, Recorder};
use scene_queue::Queue;
use scene_world::{Stage, World};
use std::alloc::Global;
use std::process::Abort;
use std::test::Fail;

/// The world before the long frame, which was empty before.
fn opened(rt: &impl Abort, alloc: Global) -> World {
    let mut queue = Queue::new(alloc);
    assert!(rt; push_opening(alloc, &mut queue));
    world_after(rt, alloc, empty_world(alloc), &queue)
}

/// The commands of the long frame.
fn long_queue(rt: &impl Abort, alloc: Global) -> Queue {
    let mut queue = Queue::new(alloc);
    assert!(rt; push_long(alloc, &mut queue));
    assert_eq!(rt; queue.commands().len(), 10_000);
    queue
}

/// Whether a world is the one whose text this is.
pub fn is_world(alloc: Global, world: &World, text: &str) -> bool {
    match text_of(alloc, world) {
        Ok(found) => found.as_str() == text,
        Err(_) => false,
    }
}

/// The text of the world at which a recorder stands.
fn text_at(rt: &impl Abort, alloc: Global, recorder: &Recorder) -> String {
    text_of(alloc, recorder.world()).expect(rt, "memory")
}

/// Does the long frame, which changes the world.
fn do_long_frame(rt: &impl Abort, alloc: Global, recorder: &mut Recorder, before: &str) {
    apply(rt, recorder, &long_queue(rt, alloc));
    assert!(rt; !is_world(alloc, recorder.world(), before));
}

#[test]
fn a_long_frame_is_reverted(rt: HostRuntime) -> Result<(), Fail> {
    let mut recorder = begun(&rt, rt.alloc(), opened(&rt, rt.alloc()));
    let before = text_at(&rt, rt.alloc(), &recorder);
    do_long_frame(&rt, rt.alloc(), &mut recorder, before.as_str());
    let trial = Trial::IsWorld(before.as_str());
    try_world(&rt, rt.alloc(), Ok(recorder.revert()), trial);
    Ok(())
}

/// Whether a record leads from the world with the one text to that with the other, and back.
fn leads(alloc: Global, record: &FrameRecord, draft: &mut World, texts: (&str, &str)) -> bool {
    let (before, after) = texts;
    is_world(alloc, draft, before)
        && record.redo_checked(draft).is_ok()
        && is_world(alloc, draft, after)
        && record.undo_checked(draft).is_ok()
        && is_world(alloc, draft, before)
}

/// The record of the long frame on a copy of a world, and the text of the copy after it.
fn long_record(rt: &impl Abort, alloc: Global, world: &World) -> (FrameRecord, String) {
    let copy = world.try_clone().expect(rt, "memory");
    record_of(rt, alloc, copy, &long_queue(rt, alloc))
}

/// The record of the long frame is redone and undone.
pub fn record_is_tried(rt: &impl Abort, alloc: Global, world: &mut World) {
    let before = text_of(alloc, world).expect(rt, "memory");
    let (record, after) = long_record(rt, alloc, world);
    assert_eq!(rt; record.deltas().len(), 10_250);
    let texts = (before.as_str(), after.as_str());
    assert!(rt; leads(alloc, &record, world, texts));
}

#[test]
fn the_record_of_a_long_frame_is_redone_and_undone(rt: HostRuntime) -> Result<(), Fail> {
    let world = opened(&rt, rt.alloc());
    try_world(&rt, rt.alloc(), Ok(world), Trial::LongRecord);
    Ok(())
}
