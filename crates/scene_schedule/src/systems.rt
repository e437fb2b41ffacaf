//! What the systems of a phase make of the opening world.
ghost use Rattle.std.specs.Prelude.{◌≡◌, ◌≢◌, ◌≤◌, ◌++◌, [], ◌∷◌, Err, IfOk, IfErr, OnOk, All, length};
ghost use Rattle.scene_kinds.specs.Answers.{refusal_of};
ghost use Rattle.scene_kinds.specs.declared.fault.Fault.TheVariants.{NoMemory};
ghost use Rattle.scene_model.specs.Perform.{perform};
ghost use Rattle.scene_schedule.specs.Systems.{changes_of, overflow_at, row_steps, systems_from};
ghost use Rattle.scene_schedule.specs.TableWrites.{AddsInRange};
ghost use Rattle.scene_schedule.specs.AtOnce.{IsMadeOf, Overflows};
ghost use Rattle.scene_schedule.specs.Output.{IsOutputOf};
ghost use Rattle.scene_schedule.specs.Sound.{IsSoundPhase};

use crate::commands::queue_of;
use crate::output::{PhaseOutput, RowChanges};
use scene_kinds::{Entity, Fault, Place, Refusal};
use scene_pass::{RowChange, first_fault, map_rows_alone};
use scene_queue::Queue;
use scene_systems::{RowStep, Step, SystemRule};
use scene_world::World;
use std::alloc::{AllocError, Global};

/// The same step. And a number that it adds is one that its type can hold.
#[tactic(auto, using(scene_kinds::proofs::Ranges::int_in_range))]
fn in_range(step: RowStep) -> RowStep
    ensures same { result ≡ step }
    ensures range { AddsInRange step }
{
    match step {
        RowStep::AddVec { .. } => step,
        RowStep::AddInt { to, by } => RowStep::AddInt { to, by },
    }
}

/// Adds a step, if it writes.
fn push_row(list: &mut Vec<RowStep>, step: &Step) -> Result<(), AllocError>
    ensures pushed { OnOk result (list.new.items ≡ list.old.items ++ row_steps (step.now ∷ [])) }
    ensures range { All AddsInRange list.old.items → OnOk result (All AddsInRange list.new.items) }
{
    if let Step::Row(row_step) = step {
        list.push(in_range(*row_step))?;
    }
    Ok(())
}

/// The steps that write, first to last, or an error where no memory was found.
pub(crate) fn row_steps(alloc: Global, steps: &[Step]) -> Result<Vec<RowStep>, AllocError>
    ensures steps { IfOk result (λ list. list.items ≡ row_steps steps.now) }
    ensures few { IfOk result (λ list. length list.items ≤ length steps.now) }
    ensures range { IfOk result (λ list. All AddsInRange list.items) }
{
    let mut list = Vec::new(alloc);
    'steps: for at in 0..steps.len() {
        push_row(&mut list, &steps[at])?;
    }
    Ok(list)
}

/// An overflow of a system, by its place in the phase.
pub(crate) fn overflow_at(system: u32, fault: (Entity, u32)) -> Refusal
    ensures { result ≡ overflow_at system fault }
{
    Refusal {
        fault: Fault::Overflow(fault.0),
        place: Some(Place {
            phase: 0,
            queue: system,
            command: fault.1,
        }),
    }
}

/// What a system makes of its rows, or want of memory.
pub(crate) fn changes_of(
    alloc: Global,
    world: &World,
    rule: &SystemRule,
) -> Result<Vec<RowChange>, Refusal>
    requires { length rule.now.steps ≤ 16 }
    ensures made { IfOk result (λ made. made.items ≡ changes_of world.now.world rule.now) }
    ensures refused { IfErr result (λ r. r ≡ refusal_of NoMemory) }
{
    let Ok(steps) = row_steps(alloc, rule.steps.as_slice()) else {
        return Err(Refusal::from(Fault::NoMemory));
    };
    match map_rows_alone(alloc, world, rule.filter, steps.as_slice()) {
        Ok(changes) => Ok(changes),
        Err(error) => Err(Refusal::from(error)),
    }
}

/// What the system at a place of a phase makes of the opening world alone: the changes of its rows, and its queue. The
/// world stays as it is (docs/MODEL.md, "The rule of schedules"). Systems of a phase need nothing of each other, so
/// they may be done in any order, or at once.
///
/// Refused: `Overflow` with the first row's entity whose sum is outside of the 64-bit numbers with sign, placed by the
/// system and the step; `NoMemory`.
pub(crate) fn system_output(
    alloc: Global,
    world: &World,
    at: u32,
    rule: &SystemRule,
) -> Result<(RowChanges, Queue), Refusal>
    requires { length rule.now.steps ≤ 16 }
    ensures made { IfOk result (λ made. IsMadeOf world.now.world rule.now made.0 made.1.commands) }
    ensures refused { IfErr result (λ r. r ≢ refusal_of NoMemory → Overflows world.now.world at rule.now r) }
{
    let changes = changes_of(alloc, world, rule)?;
    if let Some(fault) = first_fault(changes.as_slice()) {
        return Err(overflow_at(at, fault));
    }
    let queue = queue_of(alloc, world, rule.steps.as_slice(), changes.as_slice())?;
    Ok((RowChanges::from(changes), queue))
}

/// What the systems of a phase make of the opening world, in this thread: their rows, and their queues. It is what they
/// make one after another, each on what those before it wrote, since none is in another's way; nothing is written yet,
/// and the world stays as it is (docs/MODEL.md, "The rule of schedules").
///
/// Refused: the first `Overflow`, by system, then by row, placed by the system and the step; `NoMemory`. It costs the
/// passes over the rows of the systems, and holds what they write and queue.
pub(crate) fn run_systems_alone(
    alloc: Global,
    world: &World,
    rules: &[SystemRule],
) -> Result<PhaseOutput, Refusal>
    requires { IsSoundPhase world.now.world.schema rules.now }
    ensures output { IfOk result (λ output. IsOutputOf output world.now.world rules.now) }
    ensures refused { IfErr result (λ r. r ≢ refusal_of NoMemory → systems_from perform (λ w. w) 0 rules.now world.now.world ≡ Err r) }
{
    let _tick = world.tick();
    let mut rows = Vec::new(alloc);
    let mut queues = Vec::new(alloc);
    'systems: for at in 0..rules.len() {
        match system_output(alloc, world, at as u32, &rules[at]) {
            Ok((changes, queue)) => {
                rows.push(changes)?;
                queues.push(queue)?;
            }
            Err(refusal) => return Err(refusal),
        }
    }
    Ok(PhaseOutput { rows, queues })
}
