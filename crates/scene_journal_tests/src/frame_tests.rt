//! The records of frames that were worked out by hand, and copies of deltas and of records.
use crate::frames::{framed, record_of};
use crate::printed::same_delta;
use crate::scenes::{T, empty_world, first, one_tag, pushed, spawn};
use scene_commands::{Command, Target};
use scene_deltas::{Delta, DeltaRef, Deltas};
use scene_journal::FrameRecord;
use scene_kinds::{Entity, Value};
use scene_queue::Queue;
use scene_world::World;
use std::alloc::{AllocError, Global};
use std::process::Abort;
use std::test::Fail;

/// Three entities with the Tag come, of which the second and the third go below the first.
fn push_planting(alloc: Global, queue: &mut Queue) -> bool {
    let first = Target::New(0);
    pushed(queue, spawn(alloc, T, Value::Tag))
        && pushed(queue, spawn(alloc, T, Value::Tag))
        && pushed(queue, spawn(alloc, T, Value::Tag))
        && pushed(queue, Ok(Command::SetParent(Target::New(1), first)))
        && pushed(queue, Ok(Command::SetParent(Target::New(2), first)))
}

/// The first entity goes, with all below it.
fn push_felling(queue: &mut Queue) -> bool {
    pushed(queue, Ok(Command::DespawnAll(Target::Id(first(0)))))
}

/// The delta of a spawn with the Tag in the first frame.
fn came(alloc: Global, index: u32) -> Result<Delta, AllocError> {
    Ok(Delta::Spawned {
        entity: first(index),
        cells: one_tag(alloc, 1)?,
        fresh: true,
    })
}

/// The delta of a first link.
fn joined(index: u32, link: (Entity, u32)) -> Delta {
    Delta::Linked {
        entity: first(index),
        before: None,
        after: Some(link),
    }
}

/// The delta of a despawn of an entity that came in the first frame.
fn went(
    alloc: Global,
    index: u32,
    place: u32,
    link: Option<(Entity, u32)>,
) -> Result<Delta, AllocError> {
    Ok(Delta::Despawned {
        entity: first(index),
        place,
        cells: one_tag(alloc, 1)?,
        link,
        retired: false,
    })
}

/// Whether a delta is there and is the expected one.
fn is_delta(
    alloc: Global,
    found: Option<DeltaRef<'_>>,
    expected: Result<Delta, AllocError>,
) -> bool {
    match (found, expected) {
        (Some(found), Ok(expected)) => same_delta(alloc, found.get(), &expected),
        _ => false,
    }
}

/// Whether the deltas are those of planting in an empty world.
fn are_of_planting(alloc: Global, deltas: &Deltas) -> bool {
    let mut left = deltas.forward();
    deltas.len() == 5
        && is_delta(alloc, left.next(), came(alloc, 0))
        && is_delta(alloc, left.next(), came(alloc, 1))
        && is_delta(alloc, left.next(), came(alloc, 2))
        && is_delta(alloc, left.next(), Ok(joined(1, (first(0), 0))))
        && is_delta(alloc, left.next(), Ok(joined(2, (first(0), 1))))
}

/// Whether the deltas are those of felling then: the children go first, and each as it stands at its turn.
fn are_of_felling(alloc: Global, deltas: &Deltas) -> bool {
    let mut left = deltas.forward();
    let below_first = Some((first(0), 0));
    deltas.len() == 3
        && is_delta(alloc, left.next(), went(alloc, 1, 1, below_first))
        && is_delta(alloc, left.next(), went(alloc, 2, 1, below_first))
        && is_delta(alloc, left.next(), went(alloc, 0, 0, None))
}

/// The world after planting, whose deltas are noted.
fn planted(rt: &impl Abort, alloc: Global) -> World {
    let mut planting = Queue::new(alloc);
    assert!(rt; push_planting(alloc, &mut planting));
    let empty = empty_world(alloc).expect(rt, "a world");
    let (planted, one) = framed(rt, alloc, empty, &planting);
    assert_eq!(rt; one.tick_before(), 0);
    assert!(rt; are_of_planting(alloc, one.deltas()));
    planted
}

/// Felling after planting, whose deltas are noted.
fn fell(rt: &impl Abort, alloc: Global, planted: World) {
    let mut felling = Queue::new(alloc);
    assert!(rt; push_felling(&mut felling));
    let (two, _text) = record_of(rt, alloc, planted, &felling);
    assert_eq!(rt; two.tick_before(), 1);
    assert!(rt; are_of_felling(alloc, two.deltas()));
}

#[test]
fn frames_note_their_deltas(rt: HostRuntime) -> Result<(), Fail> {
    fell(&rt, rt.alloc(), planted(&rt, rt.alloc()));
    Ok(())
}

/// Whether a delta has a copy that equals it.
fn has_copy(alloc: Global, delta: &Delta) -> bool {
    match delta.try_clone() {
        Ok(copy) => same_delta(alloc, &copy, delta),
        Err(_) => false,
    }
}

/// Whether a record of one delta has a copy that equals it.
fn record_has_copy(alloc: Global, record: &FrameRecord) -> bool {
    match record.try_clone() {
        Ok(copy) => {
            copy.tick_before() == record.tick_before()
                && copy.deltas().len() == 1
                && is_same(
                    alloc,
                    copy.deltas().forward().next(),
                    record.deltas().forward().next(),
                )
        }
        Err(_) => false,
    }
}

/// Whether both deltas are there and are the same.
fn is_same(alloc: Global, one: Option<DeltaRef<'_>>, other: Option<DeltaRef<'_>>) -> bool {
    match (one, other) {
        (Some(one), Some(other)) => same_delta(alloc, one.get(), other.get()),
        _ => false,
    }
}

#[test]
fn copies_equal_their_originals(rt: HostRuntime) -> Result<(), Fail> {
    let delta = went(rt.alloc(), 1, 1, Some((first(0), 0)))?;
    assert!(rt; has_copy(rt.alloc(), &delta));
    let deltas = vec![in rt.alloc(); delta].expect(&rt, "memory");
    let deltas = Deltas::from_list(rt.alloc(), deltas).expect(&rt, "memory");
    assert!(rt; record_has_copy(rt.alloc(), &FrameRecord::new(7, deltas)));
    Ok(())
}
