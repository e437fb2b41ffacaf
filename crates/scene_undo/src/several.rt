//! Several undos and several redos by one call, all or none: first all copies are made, and then nothing needs memory.
ghost use Rattle.std.specs.Prelude.{◌≡◌, ◌<◌, ◌≤◌, ◌+◌, ◌++◌, ◌^◌, drop, length, reverse, take, Ok, Err, IfErr, IfOk, OnErr, OnOk};
ghost use Rattle.scene_kinds.specs.Answers.{Answers};
ghost use Rattle.scene_model.specs.World.{World};
ghost use Rattle.scene_machine.specs.Machine.{Machine};
ghost use Rattle.scene_undo.specs.declared.direction.Direction.TheVariants.{Undo, Redo};
ghost use Rattle.scene_undo.specs.Copies.{AreOfEach};
ghost use Rattle.scene_undo.specs.Direction.{in_turn};
ghost use Rattle.scene_undo.specs.Editor.{machine_of};
ghost use Rattle.scene_undo.specs.Several.{redo_by, undo_by};

use crate::direction::Direction;
use crate::editor::Editor;
use crate::parts::at_turn;
use scene_journal::{Delta, FrameRecord};
use scene_kinds::{Fault, Refusal};
use std::alloc::{AllocError, Global};

/// Copies of what so many records bring that only memory can copy, those of the one that goes first come first. Only want
/// of memory is an error.
fn copies_of(
    alloc: Global,
    direction: Direction,
    frames: &[FrameRecord],
    count: usize,
) -> Result<Vec<Vec<Delta>>, AllocError>
    requires { count ≤ length frames.now }
    ensures each { IfOk result (λ all. AreOfEach direction all.items (in_turn direction frames.now)) }
    ensures count { IfOk result (λ all. length all.items ≡ count) }
{
    let mut all = Vec::with_capacity(alloc, count)?;
    for number in 0..count {
        let copies = direction.copies(at_turn(direction, frames, number))?;
        all.push(copies)?;
    }
    Ok(all)
}

impl Editor {
    /// Takes the newest frames back, so many, as that many calls of `undo` do one after another, all or none
    /// (docs/MODEL.md, "The rule of undo"). It costs what these cost; a count of 0 does nothing.
    ///
    /// Where one of them would be refused, this is refused as that one is, and the editor is as it was:
    /// `NothingToUndo`, where there are fewer frames; `TickFull`, where there would be more than
    /// 18,446,744,073,709,551,615 undos before; `NoMemory`.
    pub fn undo_by(&mut self, count: usize) -> Result<(), Refusal>
        ensures machine { Answers result (machine_of self.old) (machine_of self.new) (undo_by count (machine_of self.old)) }
        ensures records { OnOk result ((self.new.past ≡ drop count self.old.past)
            × (self.new.future ≡ reverse (take count self.old.past) ++ self.old.future)) }
        ensures same { OnErr result (self.new ≡ self.old) }
    {
        self.may_undo_by(count)?;
        let copies = self.copies_to_undo(count)?;
        self.undo_each(copies);
        Ok(())
    }

    /// Does the newest undone frames again, so many, as that many calls of `redo` do one after another, all or none
    /// (docs/MODEL.md, "The rule of undo"). It costs what these cost; a count of 0 does nothing.
    ///
    /// Refused, in this order, and then the editor is as it was: `NothingToRedo`, where there are fewer frames;
    /// `NoMemory`.
    pub fn redo_by(&mut self, count: usize) -> Result<(), Refusal>
        ensures machine { Answers result (machine_of self.old) (machine_of self.new) (redo_by count (machine_of self.old)) }
        ensures records { OnOk result ((self.new.future ≡ drop count self.old.future)
            × (self.new.past ≡ take self.old.depth (reverse (take count self.old.future) ++ self.old.past))) }
        ensures same { OnErr result (self.new ≡ self.old) }
    {
        self.may_redo_by(count)?;
        let copies = self.copies_to_redo(count)?;
        self.redo_each(copies);
        Ok(())
    }

    /// Whether so many undos can be done one after another, where memory is found: what `undo_by` tries first. It takes
    /// no memory.
    ///
    /// Refused as `undo_by` is, but for `NoMemory`.
    pub fn may_undo_by(&self, count: usize) -> Result<(), Refusal>
        ensures done { OnOk result ((m : Machine World) × (undo_by count (machine_of self.now) ≡ Ok (tt, m))) }
        ensures refused { IfErr result (λ r. undo_by count (machine_of self.now) ≡ Err r) }
        ensures enough { OnOk result (count ≤ length self.now.past) }
        ensures counted { OnOk result (self.now.rewinds + count < 2 ^ 64) }
    {
        let frames = self.stacks.past_len();
        let left = u64::MAX - self.rewinds;
        if frames < count && frames as u64 <= left {
            return Err(Refusal::from(Fault::NothingToUndo));
        }
        if left < count as u64 {
            return Err(Refusal::from(Fault::TickFull));
        }
        Ok(())
    }

    /// Whether so many redos can be done one after another, where memory is found: what `redo_by` tries first. It takes
    /// no memory.
    ///
    /// Refused as `redo_by` is, but for `NoMemory`.
    pub fn may_redo_by(&self, count: usize) -> Result<(), Refusal>
        ensures done { OnOk result ((m : Machine World) × (redo_by count (machine_of self.now) ≡ Ok (tt, m))) }
        ensures refused { IfErr result (λ r. redo_by count (machine_of self.now) ≡ Err r) }
        ensures enough { OnOk result (count ≤ length self.now.future) }
    {
        if self.stacks.future_len() < count {
            return Err(Refusal::from(Fault::NothingToRedo));
        }
        Ok(())
    }

    /// Copies of what so many frames of the past bring that only memory can copy, those of the newest first.
    fn copies_to_undo(&self, count: usize) -> Result<Vec<Vec<Delta>>, AllocError>
        requires { count ≤ length self.now.past }
        ensures each { IfOk result (λ all. AreOfEach Undo all.items self.now.past) }
        ensures count { IfOk result (λ all. length all.items ≡ count) }
    {
        let (past, _) = self.stacks.records();
        copies_of(self.alloc, Direction::Undo, past, count)
    }

    /// Copies of what so many frames of the future bring that only memory can copy, those of the next one first.
    fn copies_to_redo(&self, count: usize) -> Result<Vec<Vec<Delta>>, AllocError>
        requires { count ≤ length self.now.future }
        ensures each { IfOk result (λ all. AreOfEach Redo all.items self.now.future) }
        ensures count { IfOk result (λ all. length all.items ≡ count) }
    {
        let (_, future) = self.stacks.records();
        copies_of(self.alloc, Direction::Redo, future, count)
    }

    /// Takes as many of the newest frames back as there are copies. It takes no memory.
    fn undo_each(&mut self, all: Vec<Vec<Delta>>)
        requires copies { AreOfEach Undo all.items self.old.past }
        requires counted { self.old.rewinds + length all.items < 2 ^ 64 }
        ensures machine { undo_by (length all.items) (machine_of self.old) ≡ Ok (tt, machine_of self.new) }
        ensures past { self.new.past ≡ drop (length all.items) self.old.past }
        ensures future { self.new.future ≡ reverse (take (length all.items) self.old.past) ++ self.old.future }
    {
        for copies in all {
            self.undo_copied(copies);
        }
    }

    /// Does as many of the newest undone frames again as there are copies. It takes no memory.
    fn redo_each(&mut self, all: Vec<Vec<Delta>>)
        requires { AreOfEach Redo all.items self.old.future }
        ensures machine { redo_by (length all.items) (machine_of self.old) ≡ Ok (tt, machine_of self.new) }
        ensures future { self.new.future ≡ drop (length all.items) self.old.future }
        ensures past { self.new.past ≡ take self.old.depth (reverse (take (length all.items) self.old.future) ++ self.old.past) }
    {
        for copies in all {
            self.redo_copied(copies);
        }
        self.undo_and_redo_come_back();
    }
}
