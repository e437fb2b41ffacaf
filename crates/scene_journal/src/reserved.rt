//! A record that is undone and redone in a world that has room for it.
ghost use Rattle.std.specs.Prelude.{◌≡◌, reverse, IfOk, OnOk, OnErr};
ghost use Rattle.std.specs.List.{filter};
ghost use Rattle.scene_deltas.specs.Copies.{copies_again, copies_back};
ghost use Rattle.scene_deltas.specs.Ready.{AreReady, AreReadyOn};
ghost use Rattle.scene_journal.specs.Records.{raised, redone, undone, RecordFitsBack, RecordFitsOn};

use crate::record::FrameRecord;
use scene_deltas::{Delta, copies_to_redo, copies_to_undo, redo_all, undo_all};
use scene_world::{RawChanges, World};
use std::alloc::AllocError;

impl FrameRecord {
    /// Copies of those deltas that bring what only memory can copy where the record is undone, in their order: what
    /// `undo_copied` takes. Only want of memory is an error.
    pub fn copies_to_undo(&self) -> Result<Vec<Delta>, AllocError>
        ensures { IfOk result (λ copies. copies.items ≡ filter copies_back self.now.deltas) }
    {
        copies_to_undo(self.deltas())
    }

    /// Copies of those deltas that bring what only memory can copy where the record is redone, the last first: what
    /// `redo_copied` takes. Only want of memory is an error.
    pub fn copies_to_redo(&self) -> Result<Vec<Delta>, AllocError>
        ensures { IfOk result (λ copies. copies.items ≡ reverse (filter copies_again self.now.deltas)) }
    {
        copies_to_redo(self.deltas())
    }

    /// Undoes the record in a world that has room for that, by the copies of `copies_to_undo`: its deltas are taken back,
    /// the last first, and the tick is the one before the frame. It takes no memory.
    pub fn undo_copied(&self, world: &mut World, copies: Vec<Delta>)
        requires fits { RecordFitsBack self.now world.old.world }
        requires ready { AreReady world.old.room self.now.deltas world.old.world }
        requires copies { copies.items ≡ filter copies_back self.now.deltas }
        ensures done { world.new.world ≡ undone self.now world.old.world }
        ensures room { world.new.room ≡ world.old.room }
    {
        undo_all(world, self.deltas(), copies);
        world.set_tick(self.tick_before());
    }

    /// Redoes the record in a world that has room for that, by the copies of `copies_to_redo`: the tick is raised, and
    /// its deltas are made, the first first. It takes no memory.
    pub fn redo_copied(&self, world: &mut World, copies: Vec<Delta>)
        requires fits { RecordFitsOn self.now world.old.world }
        requires ready { AreReadyOn world.old.room self.now.deltas (raised world.old.world) }
        requires copies { copies.items ≡ reverse (filter copies_again self.now.deltas) }
        ensures done { world.new.world ≡ redone self.now world.old.world }
        ensures room { world.new.room ≡ world.old.room }
    {
        let tick = world.tick();
        world.set_tick(tick + 1);
        redo_all(world, self.deltas(), copies);
    }

    /// Undoes the record in a world that has room for that, as `undo_copied` does, with copies that are made first. No
    /// memory is taken besides; where none is found for a copy, the world stays as it was.
    pub fn undo_reserved(&self, world: &mut World) -> Result<(), AllocError>
        requires fits { RecordFitsBack self.now world.old.world }
        requires ready { AreReady world.old.room self.now.deltas world.old.world }
        ensures done { OnOk result (world.new.world ≡ undone self.now world.old.world) }
        ensures full { OnErr result (world.new.world ≡ world.old.world) }
        ensures room { world.new.room ≡ world.old.room }
    {
        let copies = self.copies_to_undo()?;
        self.undo_copied(world, copies);
        Ok(())
    }

    /// Redoes the record in a world that has room for that, as `redo_copied` does, with copies that are made first. No
    /// memory is taken besides; where none is found for a copy, the world stays as it was.
    pub fn redo_reserved(&self, world: &mut World) -> Result<(), AllocError>
        requires fits { RecordFitsOn self.now world.old.world }
        requires ready { AreReadyOn world.old.room self.now.deltas (raised world.old.world) }
        ensures done { OnOk result (world.new.world ≡ redone self.now world.old.world) }
        ensures full { OnErr result (world.new.world ≡ world.old.world) }
        ensures room { world.new.room ≡ world.old.room }
    {
        let copies = self.copies_to_redo()?;
        self.redo_copied(world, copies);
        Ok(())
    }
}
