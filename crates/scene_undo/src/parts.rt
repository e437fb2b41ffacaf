//! Records that are gone through before an editor takes them.
ghost use Rattle.std.specs.Prelude.{◌≡◌, ℕ, ◌+◌, ◌<◌, ◌^◌, length, slice_get, Some, OnOk, IfOk, IfErr};
ghost use Rattle.scene_kinds.specs.Answers.{refusal_of};
ghost use Rattle.scene_kinds.specs.declared.fault.Fault.TheVariants.{BadRecord, NoMemory};
ghost use Rattle.scene_journal.specs.Newest.{Covers};
ghost use Rattle.scene_world.specs.Room.{IsWider};
ghost use Rattle.scene_undo.specs.Direction.{CanAll, after, in_turn};
ghost use Rattle.scene_undo.specs.Parts.{IsFirstFault, NamesFrame};

use crate::direction::Direction;
use scene_journal::{FrameRecord, NewestCells};
use scene_kinds::{Fault, Refusal};
use scene_world::{RawChanges, World};
use std::alloc::{AllocError, Global};

/// A refusal of the first record, as that of a frame of this number.
fn in_frame(refusal: Refusal, frame: usize) -> Refusal
    ensures named { (delta : ℕ) → refusal ≡ refusal_of (BadRecord 0 delta) → result ≡ refusal_of (BadRecord frame delta) }
    ensures memory { refusal ≡ refusal_of NoMemory → result ≡ refusal_of NoMemory }
{
    match refusal.fault {
        Fault::BadRecord { delta, .. } => Refusal::from(Fault::BadRecord {
            frame: frame as u64,
            delta,
        }),
        _ => refusal,
    }
}

/// A refusal of a frame, as that of one so many frames later.
pub(crate) fn after_frames(refusal: Refusal, before: usize) -> Refusal
    requires { (frame delta : ℕ) → refusal.fault ≡ BadRecord frame delta → before + frame < 2 ^ 64 }
    ensures named { (frame delta : ℕ) → refusal ≡ refusal_of (BadRecord frame delta) → result ≡ refusal_of (BadRecord (before + frame) delta) }
    ensures memory { refusal ≡ refusal_of NoMemory → result ≡ refusal_of NoMemory }
{
    match refusal.fault {
        Fault::BadRecord { frame, delta } => Refusal::from(Fault::BadRecord {
            frame: before as u64 + frame,
            delta,
        }),
        _ => refusal,
    }
}

/// The record of a list, which begins with the oldest, whose turn it is after so many others.
pub(crate) fn at_turn(direction: Direction, frames: &[FrameRecord], number: usize) -> &FrameRecord
    requires { number < length frames.now }
    ensures { slice_get (in_turn direction frames.now) number ≡ Some result.now }
{
    match direction {
        Direction::Undo => &frames[frames.len() - 1 - number],
        Direction::Redo => &frames[number],
    }
}

/// Where cells that were changed too late could stand, as so many records are gone through: where they are redone there
/// are none, and nothing is listed.
fn newest_for(
    alloc: Global,
    direction: Direction,
    world: &World,
    frames: usize,
) -> Result<NewestCells, AllocError>
    ensures { IfOk result (λ newest. Covers newest world.now.world) }
{
    match direction {
        Direction::Undo => NewestCells::new(alloc, world, frames),
        Direction::Redo => Ok(NewestCells::none(alloc)),
    }
}

/// Goes through records, as far as each fits at its turn. It costs what their deltas cost, and where they are undone a
/// look at all cells, once.
fn go_through(
    alloc: Global,
    direction: Direction,
    draft: &mut World,
    frames: &[FrameRecord],
) -> Result<(), Refusal>
    ensures can { OnOk result (CanAll direction draft.new.room (in_turn direction frames.now) draft.old.world) }
    ensures done { OnOk result (draft.new.world ≡ after direction (in_turn direction frames.now) draft.old.world) }
    ensures refused { IfErr result (NamesFrame (IsFirstFault direction (in_turn direction frames.now) draft.old.world)) }
    ensures wide { IsWider draft.old.room draft.new.room }
{
    let mut newest = newest_for(alloc, direction, draft, frames.len())?;
    for number in 0..frames.len() {
        let frame = at_turn(direction, frames, number);
        if let Err(refusal) = direction.check(draft, frame, &mut newest) {
            return Err(in_frame(refusal, number));
        }
    }
    Ok(())
}

/// Goes through records that are known to fit, in a world that has room for them.
fn go_home(
    direction: Direction,
    draft: &mut World,
    frames: &[FrameRecord],
) -> Result<(), AllocError>
    requires { CanAll direction draft.old.room (in_turn direction frames.now) draft.old.world }
    ensures done { OnOk result (draft.new.world ≡ after direction (in_turn direction frames.now) draft.old.world) }
    ensures room { draft.new.room ≡ draft.old.room }
{
    for number in 0..frames.len() {
        direction.go(draft, at_turn(direction, frames, number))?;
    }
    Ok(())
}

/// Goes through records, of which the first is the oldest, and back to the same world, which has room for that then.
pub(crate) fn try_records(
    alloc: Global,
    direction: Direction,
    draft: &mut World,
    frames: &[FrameRecord],
) -> Result<(), Refusal>
    ensures can { OnOk result (CanAll direction draft.new.room (in_turn direction frames.now) draft.old.world) }
    ensures same { OnOk result (draft.new.world ≡ draft.old.world) }
    ensures refused { IfErr result (NamesFrame (IsFirstFault direction (in_turn direction frames.now) draft.old.world)) }
    ensures wide { IsWider draft.old.room draft.new.room }
{
    let _tick = draft.tick();
    draft.room_holds();
    go_through(alloc, direction, draft, frames)?;
    go_home(direction.opposite(), draft, frames)?;
    Ok(())
}
