//! A phase of a schedule, run.
ghost use Rattle.std.specs.Prelude.{◌≡◌, ◌≢◌, ◌≤◌, ◌<◌, [], Err, IfOk, IfErr, length, slice_index_or};
ghost use Rattle.scene_kinds.specs.Answers.{refusal_of};
ghost use Rattle.scene_kinds.specs.declared.fault.Fault.TheVariants.{NoMemory};
ghost use Rattle.scene_model.specs.Perform.{perform};
ghost use Rattle.scene_schedule.specs.Output.{IsOutputOf};
ghost use Rattle.scene_schedule.specs.Systems.{systems_from};
ghost use Rattle.scene_schedule.specs.Turns.{ArePassed};

use crate::gate::Gate;
use crate::output::PhaseOutput;
use crate::schedule::Schedule;
use crate::systems::run_systems_alone;
use crate::workers::run_systems;
use scene_kinds::Refusal;
use scene_world::World;
use std::alloc::Global;
use std::thread::Threads;

/// What the systems of a phase of a schedule make of a world with the schedule's kinds, in this thread: their rows, and
/// their queues. It is what they make one after another, each on what those before it wrote; nothing is written yet,
/// and the world stays as it is (docs/MODEL.md, "The rule of schedules"). It costs the passes over the rows of the
/// systems, and holds what they write and queue.
///
/// Refused: the first `Overflow`, by system, then by row, placed by the system and the step; `NoMemory`.
pub fn run_phase_alone(
    alloc: Global,
    world: &World,
    schedule: &Schedule,
    phase: usize,
) -> Result<PhaseOutput, Refusal>
    requires phase { phase < length schedule.now.phases }
    requires kinds { world.now.world.schema ≡ schedule.now.schema }
    ensures output { IfOk result (λ output. IsOutputOf output world.now.world (slice_index_or schedule.now.phases phase [])) }
    ensures refused { IfErr result (λ r. r ≢ refusal_of NoMemory
        → systems_from perform (λ w. w) 0 (slice_index_or schedule.now.phases phase []) world.now.world ≡ Err r) }
{
    let phases = schedule.phases();
    run_systems_alone(alloc, world, phases[phase].systems())
}

/// The same on so many workers, each in a thread of its own where one can be made, else one after another: worker w
/// runs the systems whose places leave w, divided by the number of workers, in order, and passes the gate before each.
/// What is answered hangs neither on the number of workers nor on the gate (docs/MODEL.md, "Many threads, one answer").
pub fn run_phase<R: Threads + Sync, G: Gate + Sync>(
    rt: &R,
    alloc: Global,
    world: &World,
    schedule: &Schedule,
    phase: usize,
    workers: usize,
    gate: &G,
) -> Result<PhaseOutput, Refusal>
    requires phase { phase < length schedule.now.phases }
    requires kinds { world.now.world.schema ≡ schedule.now.schema }
    requires workers { (0 < workers) × (workers ≤ 16) }
    ensures output { IfOk result (λ output. IsOutputOf output world.now.world (slice_index_or schedule.now.phases phase [])) }
    ensures passed { IfOk result (λ output. ArePassed (G.passed gate.now) workers (length (slice_index_or schedule.now.phases phase []))) }
    ensures refused { IfErr result (λ r. r ≢ refusal_of NoMemory
        → systems_from perform (λ w. w) 0 (slice_index_or schedule.now.phases phase []) world.now.world ≡ Err r) }
{
    let phases = schedule.phases();
    run_systems(rt, alloc, world, phases[phase].systems(), workers, gate)
}
