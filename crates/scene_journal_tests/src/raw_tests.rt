//! Worlds that were worked out by hand, made and taken back delta by delta: which rows stand where, and which slots
//! there are.
use crate::changes::Change::{Comes, Leaves, Linked, Put, SetAgain, Tagged};
use crate::changes::{Change, LinkTo};
use crate::scenes::empty_world;
use crate::steps::Step;
use crate::steps::Step::{
    CannotGo, CannotReturn, Children, Goes, Resource, Returns, Rows, Slots, Tick,
};
use crate::trials::{Trial, try_world};
use scene_kinds::KindSet;
use std::alloc::Global;
use std::process::Abort;
use std::test::Fail;

/// The kind set of A alone.
const JUST_A: KindSet = 1;

/// That of A and T.
const BOTH: KindSet = 3;

/// Three entities come, one at each tick.
const THREE_COME: [Step; 8] = [
    Tick,
    Goes(Comes(0)),
    Tick,
    Goes(Comes(1)),
    Tick,
    Goes(Comes(2)),
    Rows(JUST_A, &[0, 1, 2]),
    Slots(&[1, 1, 1], &[]),
];

/// All steps hold, on an empty world.
fn hold(rt: &impl Abort, alloc: Global, steps: &[Step]) {
    try_world(rt, alloc, empty_world(alloc), Trial::Steps(&[], steps));
}

/// The same after three entities have come.
fn hold_after_three(rt: &impl Abort, alloc: Global, steps: &[Step]) {
    let trial = Trial::Steps(&THREE_COME, steps);
    try_world(rt, alloc, empty_world(alloc), trial);
}

#[test]
fn rows_come_and_go(rt: HostRuntime) -> Result<(), Fail> {
    let steps = [
        Tick,
        Goes(Comes(0)),
        Slots(&[1], &[]),
        Returns(Comes(0)),
        Slots(&[], &[]),
        Rows(JUST_A, &[]),
        Goes(Comes(0)),
        Rows(JUST_A, &[0]),
    ];
    hold(&rt, rt.alloc(), &steps);
    Ok(())
}

#[test]
fn rows_leave_and_come_back(rt: HostRuntime) -> Result<(), Fail> {
    let (first, last) = (Leaves { index: 0, place: 0 }, Leaves { index: 2, place: 0 });
    let steps = [
        Goes(first),
        Rows(JUST_A, &[2, 1]),
        Slots(&[2, 1, 1], &[0]),
        Goes(last),
        Rows(JUST_A, &[1]),
        Slots(&[2, 1, 2], &[0, 2]),
        Returns(last),
        Rows(JUST_A, &[2, 1]),
        Returns(first),
        Rows(JUST_A, &[0, 1, 2]),
        Slots(&[1, 1, 1], &[]),
    ];
    hold_after_three(&rt, rt.alloc(), &steps);
    Ok(())
}

#[test]
fn rows_move_and_come_back(rt: HostRuntime) -> Result<(), Fail> {
    let given = Tagged {
        place: 1,
        inward: true,
    };
    let lost = Tagged {
        place: 0,
        inward: false,
    };
    let steps = [
        Tick,
        Goes(given),
        Rows(JUST_A, &[0, 2]),
        Rows(BOTH, &[1]),
        Goes(lost),
        Rows(JUST_A, &[0, 2, 1]),
        Returns(lost),
        Rows(BOTH, &[1]),
        Returns(given),
        Rows(JUST_A, &[0, 1, 2]),
    ];
    hold_after_three(&rt, rt.alloc(), &steps);
    Ok(())
}

#[test]
fn cells_change_and_come_back(rt: HostRuntime) -> Result<(), Fail> {
    let steps = [
        Tick,
        Goes(Comes(0)),
        Tick,
        Goes(SetAgain),
        CannotGo(SetAgain),
        Returns(SetAgain),
        CannotReturn(SetAgain),
    ];
    hold(&rt, rt.alloc(), &steps);
    Ok(())
}

/// The entity of an index goes from one link to another.
fn link(index: u32, before: LinkTo, after: LinkTo) -> Change {
    Linked {
        index,
        before,
        after,
    }
}

#[test]
fn children_move_and_come_back(rt: HostRuntime) -> Result<(), Fail> {
    let becomes_last = link(1, Some((0, 0)), Some((0, 1)));
    let steps = [
        Goes(link(1, None, Some((0, 0)))),
        Goes(link(2, None, Some((1, 0)))),
        CannotGo(link(0, None, Some((2, 0)))),
        CannotGo(link(0, None, Some((0, 0)))),
        Goes(link(2, Some((1, 0)), Some((0, 1)))),
        Children(0, &[1, 2]),
        Goes(becomes_last),
        Children(0, &[2, 1]),
        Returns(becomes_last),
        Children(0, &[1, 2]),
    ];
    hold_after_three(&rt, rt.alloc(), &steps);
    Ok(())
}

#[test]
fn resources_change_and_come_back(rt: HostRuntime) -> Result<(), Fail> {
    let put = |before, after| Put { before, after };
    let steps = [
        Tick,
        Tick,
        Goes(put(None, Some(1))),
        Goes(put(Some(1), Some(2))),
        Goes(put(Some(2), None)),
        Resource(None),
        CannotGo(put(Some(2), None)),
        Returns(put(Some(2), None)),
        Returns(put(Some(1), Some(2))),
        Resource(Some(1)),
    ];
    hold(&rt, rt.alloc(), &steps);
    Ok(())
}
