//! What no clause says: that a call which allocates finds memory, rows worked out by hand, and large lists and trees.
use crate::many::*;
use crate::steps::*;
use crate::*;

#[test]
fn a_child_comes_back_to_its_place(rt: HostRuntime) {
    let steps = [
        Step::Link(1, 0),
        Step::Link(2, 0),
        Step::Link(3, 0),
        Step::Unlink(2, 0, 1),
        Step::NoRelink(2, 0, 3),
        Step::Relink(2, 0, 1),
        Step::Children(0, &[1, 2, 3]),
        Step::TakeOutAndPutBack(1, 0, 0),
        Step::NothingToTakeOut(0),
        Step::Children(0, &[1, 2, 3]),
    ];
    let mut firsts = Firsts::new(rt.alloc());
    assert_eq!(rt; first_wrong(&mut firsts, steps.as_slice()), None);
}

#[test]
fn a_child_comes_into_room_that_was_made(rt: HostRuntime) {
    let steps = [
        Step::NoRoom(0),
        Step::LinkInSteps(7, 0),
        Step::NoLinkInSteps(7, 0),
        Step::Children(0, &[7]),
        Step::Room(0),
    ];
    let mut firsts = Firsts::new(rt.alloc());
    assert_eq!(rt; first_wrong(&mut firsts, steps.as_slice()), None);
}

/// Whether 1 to `count` are below 0, in this order, and there is room for so many.
fn is_full_row(firsts: &Firsts, count: u32, room: usize) -> bool {
    is_row(firsts.links().children_of(first(0)), count)
        && firsts.links().capacity_of(first(0)) == room
}

#[test]
fn an_emptied_list_is_filled_again_without_growth(rt: HostRuntime) {
    let count = 10_000;
    let mut firsts = Firsts::new(rt.alloc());
    assert_eq!(rt; first_wrong_child(&mut firsts, Way::LinkRow, count), None);
    let room = firsts.links().capacity_of(first(0));
    assert_eq!(rt;
        first_wrong_child(&mut firsts, Way::EmptyFromFront, count),
        None
    );
    assert!(rt; firsts.links().is_empty());
    assert_eq!(rt;
        first_wrong_child(&mut firsts, Way::RefillFromLast, count),
        None
    );
    assert!(rt; is_full_row(&firsts, count, room));
}

/// Whether an entity and all below it, each child before its parent, are so many, of which this one is first.
fn is_left_first(firsts: &Firsts, top: u32, lowest: u32, count: usize) -> bool {
    match firsts.links().post_order(first(top)) {
        Ok(order) => order.len() == count && order.first() == Some(&first(lowest)),
        Err(_) => false,
    }
}

#[test]
fn a_long_chain_is_taken_apart(rt: HostRuntime) {
    let count = 100_000;
    let mut firsts = Firsts::new(rt.alloc());
    assert_eq!(rt; first_wrong_child(&mut firsts, Way::LinkChain, count), None);
    assert!(rt; is_right(&mut firsts, Step::Cycle(0, count)));
    assert!(rt; is_left_first(&firsts, 0, count, 100_001));
    assert_eq!(rt;
        first_wrong_child(&mut firsts, Way::UnlinkChain, count),
        None
    );
    assert!(rt; firsts.links().is_empty());
}

#[test]
fn a_long_list_is_taken_apart(rt: HostRuntime) {
    let count = 100_000;
    let mut firsts = Firsts::new(rt.alloc());
    assert_eq!(rt; first_wrong_child(&mut firsts, Way::LinkRow, count), None);
    assert!(rt; is_row(firsts.links().children_of(first(0)), count));
    assert_eq!(rt;
        first_wrong_child(&mut firsts, Way::UnlinkFromLast, count),
        None
    );
    assert!(rt; firsts.links().is_empty());
}
