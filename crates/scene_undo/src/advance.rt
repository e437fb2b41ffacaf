//! Advances: the systems of a schedule as one frame of an editor.
ghost use Rattle.std.specs.Prelude.{◌≡◌, ◌∷◌, [], take, IfOk, OnOk, OnErr};
ghost use Rattle.scene_kinds.specs.Answers.{Answers};
ghost use Rattle.scene_machine.specs.Frame.{Advance as Advancing, call};
ghost use Rattle.scene_model.specs.Perform.{perform};
ghost use Rattle.scene_world.specs.Stage.{act};
ghost use Rattle.scene_deltas.specs.Notes.{deltas_of};
ghost use Rattle.scene_journal.specs.Records.{Record};
ghost use Rattle.scene_schedule.specs.Systems.{advance_of};
ghost use Rattle.scene_undo.specs.Editor.{IsRecordOf, entities_of, machine_of};
ghost use Rattle.scene_undo.specs.Size.{IsNewestWithin, advance_size};

use crate::editor::Editor;
use crate::made::Made;
use scene_kinds::Refusal;
use scene_schedule::{InTurn, Schedule};
use scene_table::{WritesAlone, WritesShared};
use std::thread::Threads;

/// The most workers that an advance has.
const MOST_WORKERS: usize = 16;

impl Editor {
    /// Advances by a schedule, all or nothing, on this thread: it raises the world's tick by one and runs the phases in
    /// order (docs/MODEL.md, "The rule of schedules"). What was undone is forgotten. Its record has at most as many
    /// deltas as cells are written, commands queued, and descendants taken along. It costs the matching rows of each
    /// system, the cells that are written, what the queued commands change, and the records that are forgotten.
    ///
    /// Refused, in this order, and then the editor is as it was: `TickFull`; `OtherSchema` where the world has other
    /// kinds than those the schedule was made for; phase by phase `Overflow`, or the first refusal of a queued command,
    /// each with its place; `NoMemory`.
    pub fn advance_alone(&mut self, schedule: &Schedule) -> Result<Made, Refusal>
        ensures machine { Answers (entities_of result) (machine_of self.old) (machine_of self.new)
            (call (machine_of self.old) (Advancing (advance_of perform (λ w. w) schedule.now))) }
        ensures copy { IfOk result (λ m. m.copy.items ≡ m.entities.items) }
        ensures records { IfOk result (λ m. (r : Record)
            × (IsRecordOf (advance_of (act deltas_of) (λ t. t.world) schedule.now) self.old.world self.new.world m.entities.items r
            × ((self.new.past ≡ take self.old.depth (r ∷ self.old.past)) × (self.new.future ≡ [])))) }
        ensures few { OnOk result (IsNewestWithin (advance_size schedule.now self.old.world) self.new.past) }
        ensures same { OnErr result (self.new ≡ self.old) }
    {
        let writer = WritesAlone;
        self.run(&InTurn { schedule, writer })
    }

    /// Advances by a schedule. Columns of 131,072 values and more are written by as many threads as there are workers; a
    /// number below 1 is taken as 1, and one above 16 as 16. The answer, the world after it and what is kept of it are those of `advance_alone` (docs/MODEL.md,
    /// "Many threads, one answer"), and so are the refusals and what stays after them.
    pub fn advance<R: Threads + Sync>(
        &mut self,
        rt: &R,
        schedule: &Schedule,
        workers: usize,
    ) -> Result<Made, Refusal>
        ensures machine { Answers (entities_of result) (machine_of self.old) (machine_of self.new)
            (call (machine_of self.old) (Advancing (advance_of perform (λ w. w) schedule.now))) }
        ensures copy { IfOk result (λ m. m.copy.items ≡ m.entities.items) }
        ensures records { IfOk result (λ m. (r : Record)
            × (IsRecordOf (advance_of (act deltas_of) (λ t. t.world) schedule.now) self.old.world self.new.world m.entities.items r
            × ((self.new.past ≡ take self.old.depth (r ∷ self.old.past)) × (self.new.future ≡ [])))) }
        ensures few { OnOk result (IsNewestWithin (advance_size schedule.now self.old.world) self.new.past) }
        ensures same { OnErr result (self.new ≡ self.old) }
    {
        let workers = workers.min(MOST_WORKERS);
        let writer = WritesShared { rt, workers };
        self.run(&InTurn { schedule, writer })
    }
}
