//! The systems of a phase on several threads.
ghost use Rattle.std.specs.Prelude.{◌≡◌, ◌≢◌, ◌≤◌, ◌<◌, ◌+◌, ◌%◌, None, Some, Err, IfOk, IfErr, length, slice_get};
ghost use Rattle.scene_kinds.specs.Answers.{refusal_of};
ghost use Rattle.scene_kinds.specs.declared.fault.Fault.TheVariants.{NoMemory};
ghost use Rattle.scene_model.specs.Perform.{perform};
ghost use Rattle.scene_schedule.specs.AtOnce.{IsMadeOf, Overflows};
ghost use Rattle.scene_schedule.specs.Output.{IsOutputOf};
ghost use Rattle.scene_schedule.specs.Sound.{IsSoundPhase};
ghost use Rattle.scene_schedule.specs.Systems.{systems_from};
ghost use Rattle.scene_schedule.specs.Turns.{AreLeft, ArePassed, AreTurns, emptied, turn_in};

use crate::gate::{Gate, Gated};
use crate::output::{PhaseOutput, RowChanges};
use crate::turns::{Turns, make_turns};
use scene_kinds::{Fault, Refusal};
use scene_queue::Queue;
use scene_systems::SystemRule;
use scene_world::World;
use std::alloc::{AllocError, Global};
use std::thread;
use std::thread::Threads;

/// Takes what a worker made of the system at a place out of its turns, where they could be held.
fn taken(
    slot: &mut Result<Turns, AllocError>,
    at: usize,
) -> Option<Result<(RowChanges, Queue), Refusal>>
    ensures taken { result ≡ turn_in slot.old at }
    ensures rest { slot.new ≡ emptied at slot.old }
{
    match slot {
        Ok(turns) => turns.take(at),
        Err(_) => None,
    }
}

/// What the system at a place made behind the gate, taken out of its worker's turns.
fn next_output<G: Gate>(
    world: &World,
    gate: &G,
    rules: &[SystemRule],
    at: usize,
    rule: &SystemRule,
    left: &mut Vec<Result<Turns, AllocError>>,
) -> Result<(RowChanges, Queue), Refusal>
    requires rule { slice_get rules.now at ≡ Some rule.now }
    requires workers { 0 < length left.old.items }
    requires left { AreLeft (G.passed gate.now) world.now.world at rules.now left.old.items }
    ensures made { IfOk result (λ made. IsMadeOf world.now.world rule.now made.0 made.1.commands) }
    ensures passed { IfOk result (λ made. G.passed gate.now (at % length left.old.items) at) }
    ensures refused { IfErr result (λ r. r ≢ refusal_of NoMemory → Overflows world.now.world at rule.now r) }
    ensures left { AreLeft (G.passed gate.now) world.now.world (at + 1) rules.now left.new.items }
    ensures workers { length left.new.items ≡ length left.old.items }
{
    let worker = at % left.len();
    match taken(&mut left[worker], at) {
        Some(made) => made,
        None => Err(Refusal::from(Fault::NoMemory)),
    }
}

/// Puts together, by system, what the workers made behind the gate.
fn gathered<G: Gate>(
    alloc: Global,
    world: &World,
    gate: &G,
    rules: &[SystemRule],
    done: Vec<Result<Turns, AllocError>>,
) -> Result<PhaseOutput, Refusal>
    requires sound { IsSoundPhase world.now.world.schema rules.now }
    requires workers { 0 < length done.items }
    requires left { AreLeft (G.passed gate.now) world.now.world 0 rules.now done.items }
    ensures output { IfOk result (λ output. IsOutputOf output world.now.world rules.now) }
    ensures passed { IfOk result (λ output. ArePassed (G.passed gate.now) (length done.items) (length rules.now)) }
    ensures refused { IfErr result (λ r. r ≢ refusal_of NoMemory → systems_from perform (λ w. w) 0 rules.now world.now.world ≡ Err r) }
{
    let _tick = world.tick();
    let mut left = done;
    let mut rows = Vec::new(alloc);
    let mut queues = Vec::new(alloc);
    'systems: for at in 0..rules.len() {
        match next_output(world, gate, rules, at, &rules[at], &mut left) {
            Ok((changes, queue)) => {
                rows.push(changes)?;
                queues.push(queue)?;
            }
            Err(refusal) => return Err(refusal),
        }
    }
    Ok(PhaseOutput { rows, queues })
}

/// What the systems of a phase make of the opening world, on as many threads as there are workers: the same as
/// `run_systems_alone` answers (docs/MODEL.md, "Many threads, one answer"). A worker runs the systems whose places
/// leave its number, divided by the number of workers, in order, and passes the gate before each. Where no thread can
/// be made, the workers run one after another.
pub(crate) fn run_systems<R: Threads + Sync, G: Gate + Sync>(
    rt: &R,
    alloc: Global,
    world: &World,
    rules: &[SystemRule],
    workers: usize,
    gate: &G,
) -> Result<PhaseOutput, Refusal>
    requires workers { (0 < workers) × (workers ≤ 16) }
    requires sound { IsSoundPhase world.now.world.schema rules.now }
    ensures output { IfOk result (λ output. IsOutputOf output world.now.world rules.now) }
    ensures passed { IfOk result (λ output. ArePassed (G.passed gate.now) workers (length rules.now)) }
    ensures refused { IfErr result (λ r. r ≢ refusal_of NoMemory → systems_from perform (λ w. w) 0 rules.now world.now.world ≡ Err r) }
{
    let work = |worker: usize| -> Result<Turns, AllocError>
        requires { (worker < workers) × ((workers ≤ 16) × IsSoundPhase world.now.world.schema rules.now) }
        ensures { IfOk result (AreTurns (G.passed gate.entry.now) workers worker world.entry.now.world 0 rules.entry.now) }
    { make_turns(alloc, &Gated::new(world, gate), rules, workers, worker) };
    let done = thread::map_indices(rt, alloc, workers, &work)?;
    gathered(alloc, world, gate, rules, done)
}
