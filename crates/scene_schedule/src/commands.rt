//! The queue of a system, by the changes of its rows and the opening world.
ghost use Rattle.std.specs.Prelude.{◌≡◌, ◌++◌, [], ◌∷◌, IfOk, IfErr, OnOk, pos, length};
ghost use Rattle.scene_kinds.specs.Answers.{refusal_of};
ghost use Rattle.scene_kinds.specs.declared.fault.Fault.TheVariants.{NoMemory};
ghost use Rattle.scene_kinds.specs.declared.value.Value.TheVariants.{Int};
ghost use Rattle.scene_commands.specs.declared.command.Command.TheVariants.{PutResource, SetParent, Spawn};
ghost use Rattle.scene_commands.specs.declared.target.Target.TheVariants.{Id, New};
ghost use Rattle.scene_queue.specs.Queue.{spawns};
ghost use Rattle.scene_schedule.specs.AtOnce.{despawns_after, children_after, commands_after};

use crate::zero::is_zero_after;
use scene_commands::{Command, Components, Target};
use scene_kinds::{Entity, Fault, Refusal, Text, Value};
use scene_pass::RowChange;
use scene_queue::Queue;
use scene_systems::Step;
use scene_world::World;
use std::alloc::Global;

/// Puts a command last. A queue takes more commands than a system has, since a world has at most 1,048,576 rows and a
/// system 16 steps; so only want of memory is answered.
pub(crate) fn put(queue: &mut Queue, command: Command) -> Result<(), Refusal>
    ensures put { OnOk result (queue.new.commands ≡ queue.old.commands ++ command ∷ []) }
    ensures refused { IfErr result (λ r. r ≡ refusal_of NoMemory) }
{
    match queue.push(command) {
        Ok(()) => Ok(()),
        Err(_) => Err(Refusal::from(Fault::NoMemory)),
    }
}

/// Puts the despawn of a row whose number is 0.
fn push_despawn(
    queue: &mut Queue,
    world: &World,
    kind: u8,
    change: &RowChange,
) -> Result<(), Refusal>
    ensures put { OnOk result (queue.new.commands ≡ queue.old.commands ++ despawns_after world.now.world kind (change.now ∷ [])) }
    ensures refused { IfErr result (λ r. r ≡ refusal_of NoMemory) }
{
    if is_zero_after(world, kind, change) {
        put(queue, Command::DespawnAllIfAlive(Target::Id(change.entity)))
    } else {
        Ok(())
    }
}

/// Puts the despawns of the rows whose number is 0.
fn push_despawns(
    queue: &mut Queue,
    world: &World,
    kind: u8,
    changes: &[RowChange],
) -> Result<(), Refusal>
    ensures put { OnOk result (queue.new.commands ≡ queue.old.commands ++ despawns_after world.now.world kind changes.now) }
    ensures refused { IfErr result (λ r. r ≡ refusal_of NoMemory) }
{
    'changes: for at in 0..changes.len() {
        push_despawn(queue, world, kind, &changes[at])?;
    }
    Ok(())
}

/// Puts the spawn of an entity with copies of these components, and gives its local name.
fn push_spawn(queue: &mut Queue, cells: &Components) -> Result<Target, Refusal>
    ensures put { IfOk result (λ local. (queue.new.commands ≡ queue.old.commands ++ Spawn cells.now ∷ [])
        × (local ≡ New (spawns queue.old.commands))) }
    ensures refused { IfErr result (λ r. r ≡ refusal_of NoMemory) }
{
    let Ok(copy) = cells.try_clone() else {
        return Err(Refusal::from(Fault::NoMemory));
    };
    match queue.spawn(copy) {
        Ok(local) => Ok(local),
        Err(_) => Err(Refusal::from(Fault::NoMemory)),
    }
}

/// Puts the child of a row.
pub(crate) fn push_child(
    queue: &mut Queue,
    cells: &Components,
    parent: Entity,
) -> Result<(), Refusal>
    ensures put { OnOk result (queue.new.commands
        ≡ queue.old.commands ++ Spawn cells.now ∷ SetParent (New (spawns queue.old.commands)) (Id parent) ∷ []) }
    ensures refused { IfErr result (λ r. r ≡ refusal_of NoMemory) }
{
    let child = push_spawn(queue, cells)?;
    put(queue, Command::SetParent(child, Target::Id(parent)))
}

/// Puts a child for each row.
fn push_children(
    queue: &mut Queue,
    cells: &Components,
    changes: &[RowChange],
) -> Result<(), Refusal>
    ensures put { OnOk result (queue.new.commands ≡ queue.old.commands ++ children_after (spawns queue.old.commands) cells.now changes.now) }
    ensures refused { IfErr result (λ r. r ≡ refusal_of NoMemory) }
{
    'changes: for at in 0..changes.len() {
        push_child(queue, cells, changes[at].entity)?;
    }
    Ok(())
}

/// Puts the number of rows at a name.
fn push_count(queue: &mut Queue, name: &Text, changes: &[RowChange]) -> Result<(), Refusal>
    ensures put { OnOk result (queue.new.commands ≡ queue.old.commands ++ PutResource name.now (Int (pos (length changes.now))) ∷ []) }
    ensures refused { IfErr result (λ r. r ≡ refusal_of NoMemory) }
{
    let Ok(copy) = name.try_clone() else {
        return Err(Refusal::from(Fault::NoMemory));
    };
    put(
        queue,
        Command::PutResource(copy, Value::Int(changes.len() as i64)),
    )
}

/// Puts the commands of a step.
fn push_step(
    queue: &mut Queue,
    world: &World,
    step: &Step,
    changes: &[RowChange],
) -> Result<(), Refusal>
    ensures put { OnOk result (queue.new.commands ≡ queue.old.commands
        ++ commands_after world.now.world (spawns queue.old.commands) (step.now ∷ []) changes.now) }
    ensures refused { IfErr result (λ r. r ≡ refusal_of NoMemory) }
{
    match step {
        Step::Row(_) => Ok(()),
        Step::DespawnAtZero { kind } => push_despawns(queue, world, *kind, changes),
        Step::SpawnChild { cells } => push_children(queue, cells, changes),
        Step::CountInto { name } => push_count(queue, name, changes),
    }
}

/// The queue of a system's steps, by the changes of its rows and the opening world, or want of memory.
pub(crate) fn queue_of(
    alloc: Global,
    world: &World,
    steps: &[Step],
    changes: &[RowChange],
) -> Result<Queue, Refusal>
    ensures queued { IfOk result (λ queue. queue.commands ≡ commands_after world.now.world 0 steps.now changes.now) }
    ensures refused { IfErr result (λ r. r ≡ refusal_of NoMemory) }
{
    let mut queue = Queue::new(alloc);
    'steps: for at in 0..steps.len() {
        push_step(&mut queue, world, &steps[at], changes)?;
    }
    Ok(queue)
}
