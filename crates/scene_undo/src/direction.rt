//! Which way records are gone through.
ghost use Rattle.std.specs.Prelude.{◌≡◌, OnOk, OnErr, IfErr, IfOk};
ghost use Rattle.scene_journal.specs.Faults.{Names};
ghost use Rattle.scene_journal.specs.Newest.{Covers};
ghost use Rattle.scene_world.specs.Room.{IsWider};
ghost use Rattle.scene_undo.specs.declared.direction.Direction.TheVariants.{Undo};
ghost use Rattle.scene_undo.specs.Copies.{copied};
ghost use Rattle.scene_undo.specs.Direction.{Can, IsFault, opposite, step};

use scene_journal::{Delta, FrameRecord, NewestCells};
use scene_kinds::Refusal;
use scene_world::World;
use std::alloc::AllocError;

/// Whether records are undone or redone.
#[derive(Clone, Copy, Drop)]
pub(crate) enum Direction {
    Undo,
    Redo,
}

impl Direction {
    /// The other one.
    pub(crate) fn opposite(self) -> Self
        ensures { result ≡ opposite self }
    {
        match self {
            Direction::Undo => Direction::Redo,
            Direction::Redo => Direction::Undo,
        }
    }

    /// Undoes or redoes a record where it fits; the world makes room for what comes. An undo looks for cells that were
    /// changed too late only where they are listed.
    pub(crate) fn check(
        self,
        draft: &mut World,
        frame: &FrameRecord,
        newest: &mut NewestCells,
    ) -> Result<(), Refusal>
        requires { self ≡ Undo → Covers newest.old draft.old.world }
        ensures can { OnOk result (Can self draft.new.room frame.now draft.old.world) }
        ensures done { OnOk result (draft.new.world ≡ step self frame.now draft.old.world) }
        ensures covers { OnOk result (self ≡ Undo → Covers newest.new draft.new.world) }
        ensures refused { IfErr result (Names (IsFault self frame.now draft.old.world)) }
        ensures wide { IsWider draft.old.room draft.new.room }
    {
        match self {
            Direction::Undo => frame.undo_checked_with(draft, newest),
            Direction::Redo => frame.redo_checked(draft),
        }
    }

    /// Undoes or redoes a record of which it is known that it fits, in a world that has room for it.
    pub(crate) fn go(self, world: &mut World, frame: &FrameRecord) -> Result<(), AllocError>
        requires { Can self world.old.room frame.now world.old.world }
        ensures done { OnOk result (world.new.world ≡ step self frame.now world.old.world) }
        ensures full { OnErr result (world.new.world ≡ world.old.world) }
        ensures room { world.new.room ≡ world.old.room }
    {
        match self {
            Direction::Undo => frame.undo_reserved(world),
            Direction::Redo => frame.redo_reserved(world),
        }
    }

    /// Copies of what a record brings that only memory can copy. Only want of memory is an error.
    pub(crate) fn copies(self, frame: &FrameRecord) -> Result<Vec<Delta>, AllocError>
        ensures { IfOk result (λ copies. copies.items ≡ copied self frame.now) }
    {
        match self {
            Direction::Undo => frame.copies_to_undo(),
            Direction::Redo => frame.copies_to_redo(),
        }
    }
}
