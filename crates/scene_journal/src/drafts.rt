//! Records that are made again and taken back on a draft: a world that is dropped where no memory is found.
ghost use Rattle.std.specs.Prelude.{◌≡◌, OnOk, OnErr};
ghost use Rattle.scene_journal.specs.Faults.{IsAfterSome, IsBeforeSome};
ghost use Rattle.scene_deltas.specs.Deltas.{fwd, back, fwd_all, back_all, AllFitOn, AllFitBack, FitsOn, FitsBack};
ghost use Rattle.scene_deltas.specs.Segments.{seen};
ghost use Rattle.scene_journal.specs.Records.{raised, redone, undone, RecordFitsOn, RecordFitsBack};
ghost use Rattle.scene_world.specs.Room.{IsWider};

use crate::record::FrameRecord;
use scene_deltas::{DeltaRef, Deltas, redo_delta, undo_delta};
use scene_world::{RawChanges, World};
use std::alloc::AllocError;

/// Makes a delta again that is lent, where it fits.
pub(crate) fn redo_lent(draft: &mut World, delta: DeltaRef<'_>) -> Result<(), AllocError>
    requires { FitsOn (seen delta) draft.old.world }
    ensures done { OnOk result (draft.new.world ≡ fwd (seen delta.entry) draft.old.world) }
    ensures full { OnErr result (draft.new.world ≡ draft.old.world) }
    ensures wide { IsWider draft.old.room draft.new.room }
{
    redo_delta(draft, delta.get())
}

/// Takes a delta back that is lent, where it fits back.
pub(crate) fn undo_lent(draft: &mut World, delta: DeltaRef<'_>) -> Result<(), AllocError>
    requires { FitsBack (seen delta) draft.old.world }
    ensures done { OnOk result (draft.new.world ≡ back (seen delta.entry) draft.old.world) }
    ensures full { OnErr result (draft.new.world ≡ draft.old.world) }
    ensures wide { IsWider draft.old.room draft.new.room }
{
    undo_delta(draft, delta.get())
}

/// Makes deltas again, the first first, where each fits at its turn.
fn redo_each(draft: &mut World, deltas: &Deltas) -> Result<(), AllocError>
    requires { AllFitOn deltas.now.items draft.old.world }
    ensures done { OnOk result (draft.new.world ≡ fwd_all deltas.now.items draft.old.world) }
    ensures part { OnErr result (IsAfterSome deltas.now.items draft.old.world draft.new.world) }
    ensures wide { IsWider draft.old.room draft.new.room }
{
    let mut left = deltas.forward();
    while let Some(delta) = left.next() {
        redo_lent(draft, delta)?;
    }
    Ok(())
}

/// Takes deltas back, the last first, where each fits back at its turn.
fn undo_each(draft: &mut World, deltas: &Deltas) -> Result<(), AllocError>
    requires { AllFitBack deltas.now.items draft.old.world }
    ensures done { OnOk result (draft.new.world ≡ back_all deltas.now.items draft.old.world) }
    ensures part { OnErr result (IsBeforeSome deltas.now.items draft.old.world draft.new.world) }
    ensures wide { IsWider draft.old.room draft.new.room }
{
    let mut left = deltas.backward();
    while let Some(delta) = left.next() {
        undo_lent(draft, delta)?;
    }
    Ok(())
}

impl FrameRecord {
    /// Redoes the record on a draft, where it fits: the tick is raised, and the deltas are made (docs/JOURNAL.md,
    /// "Records"). It copies the cells that come.
    ///
    /// It fails only where no memory was found: then the tick is raised, and some of the deltas are made, the first
    /// ones.
    pub fn redo_on(&self, draft: &mut World) -> Result<(), AllocError>
        requires { RecordFitsOn self.now draft.old.world }
        ensures done { OnOk result (draft.new.world ≡ redone self.now draft.old.world) }
        ensures part { OnErr result (IsAfterSome self.now.deltas (raised draft.old.world) draft.new.world) }
        ensures wide { IsWider draft.old.room draft.new.room }
    {
        let tick = draft.tick();
        draft.set_tick(tick + 1);
        redo_each(draft, self.deltas())
    }

    /// Undoes the record on a draft, where it fits back: the deltas are taken back from the last to the first, and the
    /// tick is the one from before (docs/JOURNAL.md, "Records"). It copies the cells that come back.
    ///
    /// It fails only where no memory was found: then some of the deltas are taken back, the last ones.
    pub fn undo_on(&self, draft: &mut World) -> Result<(), AllocError>
        requires { RecordFitsBack self.now draft.old.world }
        ensures done { OnOk result (draft.new.world ≡ undone self.now draft.old.world) }
        ensures part { OnErr result (IsBeforeSome self.now.deltas draft.old.world draft.new.world) }
        ensures wide { IsWider draft.old.room draft.new.room }
    {
        undo_each(draft, self.deltas())?;
        draft.set_tick(self.tick_before());
        Ok(())
    }
}
