//! That each move of the slots has an exact way back.
ghost use Rattle.std.specs.Prelude.{◌≡◌, Bool, true, Ok};
ghost use Rattle.scene_kinds.specs.declared.entity.Entity.{Entity};
ghost use Rattle.scene_alloc.specs.Slots.{SlotState, IsSlots, can_release, can_untake, can_unrelease, SameElsewhere, IsUnused, takes_new_slot, retires, take_of, untake_of, release_of, unrelease_of};

/// A law: untaking what was just taken gives the slots as they were. After a take the condition of the
/// way back holds, and slots stay slots.
pub fn take_comes_back()
    ensures state { (s t : SlotState) (e : Entity) → take_of s ≡ Ok (e, t)
        → untake_of t e (takes_new_slot s) ≡ s }
    ensures condition { (s t : SlotState) (e : Entity) → IsSlots s → take_of s ≡ Ok (e, t)
        → can_untake t e (takes_new_slot s) ≡ true }
    ensures sound { (s t : SlotState) (e : Entity) → IsSlots s → take_of s ≡ Ok (e, t) → IsSlots t }
{}

/// A law: taking after an untake gives the same entity, from a new slot or not as before, and the slots
/// as they were. Slots stay slots.
pub fn untake_comes_back()
    ensures state { (s : SlotState) (e : Entity) (fresh : Bool) → IsSlots s → can_untake s e fresh ≡ true
        → take_of (untake_of s e fresh) ≡ Ok (e, s) }
    ensures fresh { (s : SlotState) (e : Entity) (fresh : Bool) → can_untake s e fresh ≡ true
        → takes_new_slot (untake_of s e fresh) ≡ fresh }
    ensures sound { (s : SlotState) (e : Entity) (fresh : Bool) → IsSlots s → can_untake s e fresh ≡ true
        → IsSlots (untake_of s e fresh) }
{}

/// A law: unreleasing what was just released gives the slots as they were. After a release the
/// condition of the way back holds, and slots stay slots.
pub fn release_comes_back()
    ensures state { (s : SlotState) (e : Entity) → can_release s e ≡ true
        → unrelease_of (release_of s e) e (retires e) ≡ s }
    ensures condition { (s : SlotState) (e : Entity) → IsSlots s → can_release s e ≡ true
        → can_unrelease (release_of s e) e (retires e) ≡ true }
    ensures sound { (s : SlotState) (e : Entity) → IsSlots s → can_release s e ≡ true
        → IsSlots (release_of s e) }
{}

/// A law: releasing after an unrelease gives the slots as they were. After an unrelease the condition
/// of a release holds, and slots stay slots.
pub fn unrelease_comes_back()
    ensures state { (s : SlotState) (e : Entity) (retired : Bool) → can_unrelease s e retired ≡ true
        → release_of (unrelease_of s e retired) e ≡ s }
    ensures condition { (s : SlotState) (e : Entity) (retired : Bool) → IsSlots s
        → can_unrelease s e retired ≡ true → can_release (unrelease_of s e retired) e ≡ true }
    ensures sound { (s : SlotState) (e : Entity) (retired : Bool) → IsSlots s
        → can_unrelease s e retired ≡ true → IsSlots (unrelease_of s e retired) }
{}

/// A law: a move changes one index, that of its entity, and a take finds it unused.
pub fn moves_change_one_index()
    ensures unused { (s t : SlotState) (e : Entity) → take_of s ≡ Ok (e, t) → IsUnused s e.index }
    ensures take { (s t : SlotState) (e : Entity) → take_of s ≡ Ok (e, t) → SameElsewhere s t e.index }
    ensures untake { (s : SlotState) (e : Entity) (fresh : Bool) → can_untake s e fresh ≡ true
        → SameElsewhere s (untake_of s e fresh) e.index }
    ensures release { (s : SlotState) (e : Entity) → SameElsewhere s (release_of s e) e.index }
    ensures unrelease { (s : SlotState) (e : Entity) (retired : Bool) → can_unrelease s e retired ≡ true
        → SameElsewhere s (unrelease_of s e retired) e.index }
{}
