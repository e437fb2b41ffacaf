//! What no clause says and no script reaches: the highest generation, the ways back, and room that was made before.
ghost use Rattle.std.specs.Prelude.{◌≡◌, ◌∷◌, [], IfOk};
ghost use Rattle.scene_alloc.specs.Slots.{slots_of};

use scene_alloc::Slots;
use scene_kinds::Entity;
use std::alloc::{AllocError, Global};

const fn entity(index: u32, generation: u32) -> Entity
    ensures { result ≡ record { index = index; generation = generation } }
{
    Entity { index, generation }
}

/// One slot of at most two, of the highest generation.
fn highest(alloc: Global) -> Result<Slots, AllocError>
    ensures { IfOk result (λ s. s.state ≡ slots_of 2 (4294967295 ∷ []) []) }
{
    Slots::from_lists(2, vec![in alloc; 4294967295]?, Vec::new(alloc))
}

#[test]
fn retires_an_index_at_the_highest_generation(rt: HostRuntime) {
    let mut slots = highest(rt.alloc()).expect(&rt, "memory");
    assert!(rt; slots.release(entity(0, 4294967295)));
    assert!(rt; slots.free().is_empty());
    assert!(rt; slots.take() == Ok(entity(1, 1)));
    assert!(rt; slots.generations() == [4294967295, 1].as_slice());
}

#[test]
fn ways_back_lead_to_no_slot(rt: HostRuntime) {
    let mut slots = Slots::new(rt.alloc(), 2);
    let first = slots.take().expect(&rt, "memory");
    assert!(rt; !slots.release(first));
    slots.unrelease(first, false);
    assert!(rt; slots.generations() == [1].as_slice());
    slots.untake(first, true);
    assert!(rt; slots.is_empty());
}

#[test]
fn slots_with_room_are_made_without_memory(rt: HostRuntime) {
    let mut slots = Slots::new(rt.alloc(), 2);
    slots.reserve(2).expect(&rt, "memory");
    assert!(rt; slots.take_reserved() == entity(0, 1));
    assert!(rt; slots.take_reserved() == entity(1, 1));
    assert!(rt; !slots.release(entity(0, 1)));
    assert!(rt; slots.take_reserved() == entity(0, 2));
    slots.untake(entity(0, 2), false);
    assert!(rt; slots.free() == [0].as_slice());
}
