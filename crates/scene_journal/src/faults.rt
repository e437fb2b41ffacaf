//! Whether records fit, and else their first fault.
ghost use Rattle.std.specs.Prelude.{◌≡◌, OnOk, OnErr, IfErr};
ghost use Rattle.scene_kinds.specs.Answers.{refusal_of};
ghost use Rattle.scene_kinds.specs.declared.fault.Fault.TheVariants.{BadRecord};
ghost use Rattle.scene_journal.specs.Faults.{FaultsAreFaults, IsFirstUnfit, IsLastUnfit, IsFaultOn, IsFaultBack, Names};
ghost use Rattle.scene_journal.specs.Faults.{IsAfterSome, IsBeforeSome, IsRedoneInPart, IsUndoneInPart};
ghost use Rattle.scene_deltas.specs.Ready.{AreReady, AreReadyOn};
ghost use Rattle.scene_deltas.specs.Deltas.{fwd_all, back_all};
ghost use Rattle.scene_journal.specs.Records.{raised, redone, undone, RecordFitsOn, RecordFitsBack};
ghost use Rattle.scene_journal.specs.Newest.{Covers, KeepsAges};
ghost use Rattle.scene_world.specs.Room.{IsWider};

use crate::drafts::{redo_lent, undo_lent};
use crate::newest::NewestCells;
use crate::record::FrameRecord;
use scene_deltas::Deltas;
use scene_kinds::{Fault, Refusal};
use scene_world::{RawChanges, World};

/// A law of faults: a record that has one doesn't fit.
pub fn faults_are_faults()
    ensures { FaultsAreFaults }
{}

/// The refusal of the first record, by the number of a delta.
fn bad_record(delta: usize) -> Refusal
    ensures { result ≡ refusal_of (BadRecord 0 delta) }
{
    let delta = delta as u64;
    Refusal::from(Fault::BadRecord { frame: 0, delta })
}

/// Makes deltas again, the first first, as far as each fits at its turn.
fn redo_fitting(draft: &mut World, deltas: &Deltas) -> Result<(), Refusal>
    ensures ready { OnOk result (AreReadyOn draft.new.room deltas.now.items draft.old.world) }
    ensures done { OnOk result (draft.new.world ≡ fwd_all deltas.now.items draft.old.world) }
    ensures refused { IfErr result (Names (IsFirstUnfit deltas.now.items draft.old.world)) }
    ensures part { OnErr result (IsAfterSome deltas.now.items draft.old.world draft.new.world) }
    ensures wide { IsWider draft.old.room draft.new.room }
{
    let mut left = deltas.forward();
    while let Some(delta) = left.next() {
        if !delta.get().fits_on(draft) {
            return Err(bad_record(deltas.len() - 1 - left.len()));
        }
        redo_lent(draft, delta)?;
        draft.room_holds();
    }
    Ok(())
}

/// Takes deltas back, the last first, as far as each fits back at its turn.
fn undo_fitting(draft: &mut World, deltas: &Deltas) -> Result<(), Refusal>
    ensures ready { OnOk result (AreReady draft.new.room deltas.now.items draft.old.world) }
    ensures done { OnOk result (draft.new.world ≡ back_all deltas.now.items draft.old.world) }
    ensures refused { IfErr result (Names (IsLastUnfit deltas.now.items draft.old.world)) }
    ensures part { OnErr result (IsBeforeSome deltas.now.items draft.old.world draft.new.world) }
    ensures wide { IsWider draft.old.room draft.new.room }
{
    let mut left = deltas.backward();
    while let Some(delta) = left.next() {
        if !delta.get().fits_back(draft) {
            return Err(bad_record(left.len()));
        }
        undo_lent(draft, delta)?;
        draft.room_holds();
    }
    Ok(())
}

impl FrameRecord {
    /// Redoes the record on a draft, as `redo_on` does, where it fits; so many records are tried one after another on
    /// one draft.
    ///
    /// Refused: `BadRecord` with frame 0 and the number of the first delta that doesn't fit at its turn, or, where the
    /// draft's tick isn't the one before the record or can't be raised, with the number of deltas (docs/JOURNAL.md,
    /// "Records"); `NoMemory`. Where the tick is at fault, the draft stays. Else its tick is raised then, and some of
    /// the deltas are made, the first ones.
    #[tactic(auto, using(scene_deltas::proofs::Turns::ready_fits))]
    pub fn redo_checked(&self, draft: &mut World) -> Result<(), Refusal>
        ensures fits { OnOk result (RecordFitsOn self.now draft.old.world) }
        ensures ready { OnOk result (AreReadyOn draft.new.room self.now.deltas (raised draft.old.world)) }
        ensures done { OnOk result (draft.new.world ≡ redone self.now draft.old.world) }
        ensures refused { IfErr result (Names (IsFaultOn self.now draft.old.world)) }
        ensures part { OnErr result (IsRedoneInPart self.now draft.old.world draft.new.world) }
        ensures wide { IsWider draft.old.room draft.new.room }
    {
        let tick = draft.tick();
        if tick != self.tick_before() || tick == u64::MAX {
            return Err(bad_record(self.deltas().len()));
        }
        draft.set_tick(tick + 1);
        redo_fitting(draft, self.deltas())
    }

    /// Undoes the record on a draft, as `undo_on` does, where it fits back. Beside the deltas it costs a look at all
    /// cells of the draft.
    ///
    /// Refused: `BadRecord` with frame 0 and the number of the last delta that doesn't fit back at its turn, or, where
    /// the draft's tick isn't one above the one before the record, or a cell would be left that was changed later than
    /// that, with the number of deltas (docs/JOURNAL.md, "Records"); `NoMemory`. Where the tick is at fault, the draft
    /// stays. Else some of the deltas are taken back then, the last ones.
    pub fn undo_checked(&self, draft: &mut World) -> Result<(), Refusal>
        ensures fits { OnOk result (RecordFitsBack self.now draft.old.world) }
        ensures ready { OnOk result (AreReady draft.new.room self.now.deltas draft.old.world) }
        ensures done { OnOk result (draft.new.world ≡ undone self.now draft.old.world) }
        ensures refused { IfErr result (Names (IsFaultBack self.now draft.old.world)) }
        ensures part { OnErr result (IsUndoneInPart self.now draft.old.world draft.new.world) }
        ensures wide { IsWider draft.old.room draft.new.room }
    {
        self.undo_checked_with(draft, &mut NewestCells::none(self.alloc()))
    }

    /// Undoes the record on a draft, as `undo_checked` does, and is refused as it is. It looks for cells that were
    /// changed too late only where they are listed, and lists those that come back: so many records are tried one after
    /// another on one draft, and all together cost what their deltas cost, and at first one look at all cells
    /// (docs/JOURNAL.md, "In code").
    #[tactic(auto, using(scene_deltas::proofs::Turns::ready_fits))]
    pub fn undo_checked_with(
        &self,
        draft: &mut World,
        newest: &mut NewestCells,
    ) -> Result<(), Refusal>
        requires { Covers newest.old draft.old.world }
        ensures fits { OnOk result (RecordFitsBack self.now draft.old.world) }
        ensures ready { OnOk result (AreReady draft.new.room self.now.deltas draft.old.world) }
        ensures done { OnOk result (draft.new.world ≡ undone self.now draft.old.world) }
        ensures covers { OnOk result (Covers newest.new draft.new.world) }
        ensures ages { OnOk result (KeepsAges newest.old newest.new) }
        ensures refused { IfErr result (Names (IsFaultBack self.now draft.old.world)) }
        ensures part { OnErr result (IsUndoneInPart self.now draft.old.world draft.new.world) }
        ensures wide { IsWider draft.old.room draft.new.room }
    {
        let before = self.tick_before();
        let tick = draft.tick();
        if tick == 0 || tick - 1 != before {
            return Err(bad_record(self.deltas().len()));
        }
        undo_fitting(draft, self.deltas())?;
        newest.take_back(self.deltas())?;
        if !newest.can_set_tick(draft, before)? {
            return Err(bad_record(self.deltas().len()));
        }
        draft.set_tick(before);
        Ok(())
    }

    /// Whether the record fits on a world: an error where it doesn't. It works on a copy of the world, and costs that,
    /// and what the deltas cost.
    ///
    /// Refused: as `redo_checked`.
    pub fn fits_on(&self, world: &World) -> Result<(), Refusal>
        ensures fits { OnOk result (RecordFitsOn self.now world.now.world) }
        ensures refused { IfErr result (Names (IsFaultOn self.now world.now.world)) }
    {
        let mut draft = world.try_clone()?;
        self.redo_checked(&mut draft)
    }

    /// Whether the record fits back on a world: an error where it doesn't. It works on a copy of the world, and costs
    /// that, what the deltas cost, and a look at all cells.
    ///
    /// Refused: as `undo_checked`.
    pub fn fits_back(&self, world: &World) -> Result<(), Refusal>
        ensures fits { OnOk result (RecordFitsBack self.now world.now.world) }
        ensures refused { IfErr result (Names (IsFaultBack self.now world.now.world)) }
    {
        let mut draft = world.try_clone()?;
        self.undo_checked(&mut draft)
    }
}
