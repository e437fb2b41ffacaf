//! An advance by a schedule, as a frame.
ghost use Rattle.std.specs.Prelude.{◌≡◌, ◌≢◌, IfOk, IfErr, Err};
ghost use Rattle.scene_kinds.specs.Answers.{refusal_of};
ghost use Rattle.scene_kinds.specs.declared.fault.Fault.TheVariants.{NoMemory};
ghost use Rattle.scene_model.specs.Perform.{perform};
ghost use Rattle.scene_world.specs.Stage.{act};
ghost use Rattle.scene_schedule.specs.Output.{IsOutputOf};
ghost use Rattle.scene_schedule.specs.Sound.{IsSoundPhase};
ghost use Rattle.scene_schedule.specs.Systems.{systems_from, advance_of};

use crate::count::count_commands;
use crate::output::PhaseOutput;
use crate::phase_player::{PhasePlayer, play_phases};
use crate::schedule::Schedule;
use crate::write::write_all;
use scene_kinds::{Entity, Fault, Refusal};
use scene_queue::apply_owned;
use scene_systems::SystemRule;
use scene_table::{ColumnWriter, WritesAlone};
use scene_world::{Frame, Stage, World};
use std::alloc::Global;

/// How the systems of a phase are run: on one thread, or on many. Whichever it is, what they make is the same
/// (docs/MODEL.md, "The rule of schedules").
pub trait PhaseRunner {
    // What holds of a runner that can be used.
    ghost can: { Self → Type 0 };

    /// What the systems of a phase make of a world: their rows and their queues. The world isn't changed.
    ///
    /// Refused: `Overflow` of the first system that has one, by its row and then by its step, with its place;
    /// `NoMemory`.
    fn run_phase(
        &self,
        alloc: Global,
        world: &World,
        rules: &[SystemRule],
    ) -> Result<PhaseOutput, Refusal>
        requires ready { can self.now }
        requires sound { IsSoundPhase world.now.world.schema rules.now }
        ensures output { IfOk result (λ output. IsOutputOf output world.now.world rules.now) }
        ensures refused { IfErr result (λ r. r ≢ refusal_of NoMemory → systems_from perform (λ w. w) 0 rules.now world.now.world ≡ Err r) };
}

/// The systems of a phase all see the world as it is, then their cells are written, and then their queues are applied.
#[derive(Clone, Copy)]
struct OnOpeningWorld<'a, P> {
    runner: &'a P,
}

impl<P: PhaseRunner> PhasePlayer for OnOpeningWorld<'_, P> {
    ghost can = { λ p. P.can p.runner.now };

    fn play_systems<S: Stage, W: ColumnWriter>(
        &self,
        alloc: Global,
        _writer: &W,
        rules: &[SystemRule],
        stage: &mut S,
    ) -> Result<Vec<Entity>, Refusal> {
        let output = self.runner.run_phase(alloc, stage.world(), rules)?;
        let (rows, queues) = output.into_parts();
        let more = count_commands(queues.as_slice());
        write_all(rows.as_slice(), more, stage)?;
        apply_owned(alloc, queues, stage)
    }
}

/// An advance by a schedule (docs/MODEL.md, "The rule of schedules"): its phases one after another.
///
/// It spawns the entities of all its phases, in order. Refused: `OtherSchema` where the world has other kinds than
/// those the schedule was made for; then, phase by phase, `Overflow` or the first refusal of a command, each with its
/// place.
#[derive(Clone, Copy)]
pub struct Advance<'a, P> {
    pub schedule: &'a Schedule,
    pub runner: P,
}

impl<P: PhaseRunner> Frame for Advance<'_, P> {
    ghost can = { λ f. P.can f.runner };

    ghost does = { λ f w. advance_of perform (λ v. v) f.schedule.now w };

    ghost plays = { λ note f s. advance_of (act note) (λ t. t.world) f.schedule.now s };

    fn run<S: Stage>(&self, alloc: Global, stage: &mut S) -> Result<Vec<Entity>, Refusal> {
        if !self.schedule.is_for(stage.world().schema()) {
            return Err(Refusal::from(Fault::OtherSchema));
        }
        let player = OnOpeningWorld {
            runner: &self.runner,
        };
        play_phases(alloc, self.schedule, &player, &WritesAlone, stage)
    }
}
