//! Frames that are used up where an editor does them.
ghost use Rattle.std.specs.Prelude.{◌≡◌, ◌≢◌, IfErr, IfOk, Err, Ok};
ghost use Rattle.scene_kinds.specs.Answers.{refusal_of};
ghost use Rattle.scene_kinds.specs.declared.fault.Fault.TheVariants.{NoMemory};
ghost use Rattle.scene_journal.specs.Recorder.{began, staged_of};
ghost use Rattle.scene_world.specs.Room.{IsWider};

use crate::made::Made;
use scene_commands::Command;
use scene_journal::Recorder;
use scene_kinds::Refusal;
use scene_queue::apply_lone;
use scene_world::Frame;
use std::alloc::Global;

/// A frame by value, as an editor does it: a `Frame` that is lent, or a command whose components are moved.
///
/// The meanings that contracts use are those of `Frame`, on a recorder, and how what it spawned is listed.
pub(crate) trait FrameOnce: Drop {
    ghost use Rattle.std.specs.Prelude.{List};
    ghost use Rattle.scene_kinds.specs.declared.entity.Entity.{Entity as Spawned};
    ghost use Rattle.scene_kinds.specs.Answers.{Outcome};
    ghost use Rattle.scene_model.specs.World.{World as Whole};
    ghost use Rattle.scene_world.specs.Stage.{Staged};
    ghost use Rattle.scene_deltas.specs.declared.delta.Delta.{Delta as Noted};
    ghost use Rattle.scene_undo.specs.declared.made.Made.{Made as Listed};

    ghost can: { Self → Type 0 };

    ghost does: { Self → Whole → Outcome (List Spawned) Whole };

    ghost plays: { Self → Staged Noted → Outcome (List Spawned) (Staged Noted) };

    ghost lists: { Self → Listed → Type 0 };

    /// Runs it on a recorder.
    ///
    /// Refused: its first refusal; `NoMemory`. After a refusal the recorder can still go back to where it began.
    fn apply(self, alloc: Global, recorder: &mut Recorder) -> Result<Made, Refusal>
        requires { can self }
        ensures noted { IfOk result (λ m. plays self (staged_of recorder.old) ≡ Ok (m.entities.items, staged_of recorder.new)) }
        ensures world { IfOk result (λ m. does self recorder.old.world ≡ Ok (m.entities.items, recorder.new.world)) }
        ensures listed { IfOk result (lists self) }
        ensures refused { IfErr result (λ r. r ≢ refusal_of NoMemory → does self recorder.old.world ≡ Err r) }
        ensures opening { began recorder.new ≡ began recorder.old }
        ensures wide { IsWider recorder.old.room recorder.new.room };
}

/// A frame that is lent. What it spawned is listed twice.
pub(crate) struct Lent<'a, F>(pub(crate) &'a F);

impl<F> Drop for Lent<'_, F> {
    fn drop(self) {
        let Lent(_) = self;
    }
}

impl<F: Frame> FrameOnce for Lent<'_, F> {
    ghost use Rattle.std.specs.Prelude.{◌≡◌};
    ghost use Rattle.scene_deltas.specs.Notes.{deltas_of};

    ghost can = { λ f. F.can f.0.now };

    ghost does = { λ f w. F.does f.0.now w };

    ghost plays = { λ f s. F.plays deltas_of f.0.now s };

    ghost lists = { λ f m. m.copy.items ≡ m.entities.items };

    fn apply(self, alloc: Global, recorder: &mut Recorder) -> Result<Made, Refusal> {
        let entities = self.0.run(alloc, recorder)?;
        let copy = entities.clone()?;
        Ok(Made { entities, copy })
    }
}

/// A command that is a frame of its own. What it spawned is listed once.
#[derive(Drop)]
pub(crate) struct LoneCommand(pub(crate) Command);

impl FrameOnce for LoneCommand {
    ghost use Rattle.scene_model.specs.Perform.{perform};
    ghost use Rattle.scene_machine.specs.Frame.{queues_from};
    ghost use Rattle.scene_world.specs.Stage.{act};
    ghost use Rattle.scene_deltas.specs.Notes.{deltas_of};
    ghost use Rattle.scene_queue.specs.Frames.{frame_of, lone_frame};

    ghost can = { λ c. Unit {0} };

    ghost does = { λ c w. queues_from perform 0 (frame_of (lone_frame c.0)) w };

    ghost plays = { λ c s. queues_from (act deltas_of) 0 (frame_of (lone_frame c.0)) s };

    ghost lists = { λ c m. Unit {0} };

    #[inline(always)]
    fn apply(self, alloc: Global, recorder: &mut Recorder) -> Result<Made, Refusal> {
        let LoneCommand(command) = self;
        let entities = apply_lone(alloc, command, recorder)?;
        let copy = Vec::new(alloc);
        Ok(Made { entities, copy })
    }
}
