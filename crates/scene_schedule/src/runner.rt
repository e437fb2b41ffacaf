//! How the phases of an advance are run: on one thread, or on many.
ghost use Rattle.std.specs.Prelude.{◌≡◌, ◌≢◌, Err, IfOk, IfErr};
ghost use Rattle.scene_kinds.specs.Answers.{refusal_of};
ghost use Rattle.scene_kinds.specs.declared.fault.Fault.TheVariants.{NoMemory};
ghost use Rattle.scene_model.specs.Perform.{perform};
ghost use Rattle.scene_schedule.specs.Output.{IsOutputOf};
ghost use Rattle.scene_schedule.specs.Sound.{IsSoundPhase};
ghost use Rattle.scene_schedule.specs.Systems.{systems_from};

use crate::advance::PhaseRunner;
use crate::gate::Gate;
use crate::output::PhaseOutput;
use crate::systems::run_systems_alone;
use crate::workers::run_systems;
use scene_kinds::Refusal;
use scene_systems::SystemRule;
use scene_world::World;
use std::alloc::Global;
use std::thread::Threads;

/// The most workers that a phase has.
const MOST_WORKERS: usize = 16;

/// The least number of slots of a world whose phases are shared among threads: with fewer, the threads cost more than
/// they save.
const SHARED_SLOTS: usize = 16_384;

/// Phases on the calling thread.
#[derive(Clone, Copy, Debug)]
pub struct Alone;

impl PhaseRunner for Alone {
    ghost use Rattle.std.specs.Prelude.{⊤};

    ghost can = { λ r. ⊤ };

    fn run_phase(
        &self,
        alloc: Global,
        world: &World,
        rules: &[SystemRule],
    ) -> Result<PhaseOutput, Refusal> {
        run_systems_alone(alloc, world, rules)
    }
}

/// Phases by a closure, as one that calls `run_shared`.
#[derive(Clone, Copy)]
pub struct RunBy<F> {
    pub call: F,
}

impl<F: Fn(&World, &[SystemRule]) -> Result<PhaseOutput, Refusal>> PhaseRunner for RunBy<F> {
    ghost use Rattle.scene_schedule.specs.Calls.{RunsPhases};

    ghost can = { λ r. RunsPhases F.Fn r.call };

    fn run_phase(
        &self,
        _alloc: Global,
        world: &World,
        rules: &[SystemRule],
    ) -> Result<PhaseOutput, Refusal> {
        (self.call)(world, rules)
    }
}

/// What the systems of a phase make of the opening world, on so many workers: a number below 1 is taken as 1, and one
/// above 16 as
/// 16. No more threads are made than there are systems, and none for one system alone, nor in a world of fewer than
/// 16,384 slots; where there are threads, each worker passes the gate before each of its systems. What they make, and
/// what is refused, is the same for every number and gate (docs/MODEL.md, "Many threads, one answer").
///
/// Refused: the first `Overflow`, by system, then by row, placed by the system and the step; `NoMemory`.
pub fn run_shared<R: Threads + Sync, G: Gate + Sync>(
    rt: &R,
    alloc: Global,
    world: &World,
    rules: &[SystemRule],
    workers: usize,
    gate: &G,
) -> Result<PhaseOutput, Refusal>
    requires { IsSoundPhase world.now.world.schema rules.now }
    ensures output { IfOk result (λ output. IsOutputOf output world.now.world rules.now) }
    ensures refused { IfErr result (λ r. r ≢ refusal_of NoMemory → systems_from perform (λ w. w) 0 rules.now world.now.world ≡ Err r) }
{
    let workers = workers.min(MOST_WORKERS).min(rules.len());
    if workers < 2 || world.slots().len() < SHARED_SLOTS {
        return run_systems_alone(alloc, world, rules);
    }
    run_systems(rt, alloc, world, rules, workers, gate)
}
