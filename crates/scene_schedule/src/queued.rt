//! The queue of a system on the world to which it has written.
ghost use Rattle.std.specs.Prelude.{◌≡◌, ◌++◌, [], ◌∷◌, IfOk, IfErr, IfSome, OnOk, pos, length, if◌then◌else◌};
ghost use Rattle.std.specs.List.{flat_map};
ghost use Rattle.scene_kinds.specs.Answers.{refusal_of};
ghost use Rattle.scene_kinds.specs.declared.fault.Fault.TheVariants.{NoMemory};
ghost use Rattle.scene_kinds.specs.declared.value.Value.TheVariants.{Int};
ghost use Rattle.scene_commands.specs.declared.command.Command.TheVariants.{DespawnAllIfAlive, PutResource};
ghost use Rattle.scene_commands.specs.declared.target.Target.TheVariants.{Id};
ghost use Rattle.scene_queue.specs.Queue.{spawns};
ghost use Rattle.scene_schedule.specs.Systems.{children_of_rows, commands_from, despawns, is_zero_value, queued_by};

use crate::commands::{push_child, put};
use crate::zero::is_zero;
use scene_commands::{Command, Components, Target};
use scene_kinds::{Entity, Fault, Refusal, Text, Value};
use scene_pass::matching_tables;
use scene_queue::Queue;
use scene_systems::{Step, SystemRule};
use scene_table::Table;
use scene_world::World;
use std::alloc::Global;

/// Puts the despawn of a row whose number this value is, where it is 0.
fn push_if_zero(queue: &mut Queue, entity: Entity, value: &Value) -> Result<(), Refusal>
    ensures put { OnOk result (queue.new.commands
        ≡ queue.old.commands ++ (if is_zero_value value.now then DespawnAllIfAlive (Id entity) ∷ [] else [])) }
    ensures refused { IfErr result (λ r. r ≡ refusal_of NoMemory) }
{
    if is_zero(value) {
        put(queue, Command::DespawnAllIfAlive(Target::Id(entity)))
    } else {
        Ok(())
    }
}

/// Puts the despawns of the rows of a table whose number of a kind is 0.
fn push_despawns_in(queue: &mut Queue, table: &Table, kind: u8) -> Result<(), Refusal>
    ensures put { OnOk result (queue.new.commands ≡ queue.old.commands ++ despawns kind table.now.rows) }
    ensures refused { IfErr result (λ r. r ≡ refusal_of NoMemory) }
{
    let count = table.len();
    let Some(column) = table.column(kind) else {
        return Ok(());
    };
    prove!(count <= column.values.len());
    'rows: for at in 0..count {
        push_if_zero(queue, table.entity_at(at), &column.values[at])?;
    }
    Ok(())
}

/// Puts the despawns of the rows of tables whose number of a kind is 0.
fn push_despawns(queue: &mut Queue, tables: &[&Table], kind: u8) -> Result<(), Refusal>
    ensures put { OnOk result (queue.new.commands ≡ queue.old.commands ++ despawns kind (flat_map (λ t. t.now.rows) tables.now)) }
    ensures refused { IfErr result (λ r. r ≡ refusal_of NoMemory) }
{
    'tables: for table in tables {
        push_despawns_in(queue, *table, kind)?;
    }
    Ok(())
}

/// Puts a child for each row of a table.
fn push_children_in(queue: &mut Queue, cells: &Components, table: &Table) -> Result<(), Refusal>
    ensures put { OnOk result (queue.new.commands ≡ queue.old.commands ++ children_of_rows (spawns queue.old.commands) cells.now table.now.rows) }
    ensures refused { IfErr result (λ r. r ≡ refusal_of NoMemory) }
{
    'rows: for at in 0..table.len() {
        push_child(queue, cells, table.entity_at(at))?;
    }
    Ok(())
}

/// Puts a child for each row of tables.
fn push_children(queue: &mut Queue, cells: &Components, tables: &[&Table]) -> Result<(), Refusal>
    ensures put { OnOk result (queue.new.commands
        ≡ queue.old.commands ++ children_of_rows (spawns queue.old.commands) cells.now (flat_map (λ t. t.now.rows) tables.now)) }
    ensures refused { IfErr result (λ r. r ≡ refusal_of NoMemory) }
{
    'tables: for table in tables {
        push_children_in(queue, cells, *table)?;
    }
    Ok(())
}

/// How many rows tables have, or `None` where the number can't be told: no world has so many.
fn count_rows(tables: &[&Table]) -> Option<usize>
    ensures { IfSome result (λ count. count ≡ length (flat_map (λ t. t.now.rows) tables.now)) }
{
    let mut count: usize = 0;
    'tables: for table in tables {
        count = count.checked_add(table.len())?;
    }
    Some(count)
}

/// Puts the number of rows of tables at a name.
fn push_count(queue: &mut Queue, name: &Text, tables: &[&Table]) -> Result<(), Refusal>
    ensures put { OnOk result (queue.new.commands
        ≡ queue.old.commands ++ PutResource name.now (Int (pos (length (flat_map (λ t. t.now.rows) tables.now)))) ∷ []) }
    ensures refused { IfErr result (λ r. r ≡ refusal_of NoMemory) }
{
    let Some(count) = count_rows(tables) else {
        return Err(Refusal::from(Fault::NoMemory));
    };
    let Ok(number) = i64::try_from(count) else {
        return Err(Refusal::from(Fault::NoMemory));
    };
    let Ok(copy) = name.try_clone() else {
        return Err(Refusal::from(Fault::NoMemory));
    };
    put(queue, Command::PutResource(copy, Value::Int(number)))
}

/// Puts the commands of a step for the rows of tables.
fn push_step(queue: &mut Queue, step: &Step, tables: &[&Table]) -> Result<(), Refusal>
    ensures put { OnOk result (queue.new.commands
        ≡ queue.old.commands ++ commands_from (spawns queue.old.commands) (step.now ∷ []) (flat_map (λ t. t.now.rows) tables.now)) }
    ensures refused { IfErr result (λ r. r ≡ refusal_of NoMemory) }
{
    match step {
        Step::Row(_) => Ok(()),
        Step::DespawnAtZero { kind } => push_despawns(queue, tables, *kind),
        Step::SpawnChild { cells } => push_children(queue, cells, tables),
        Step::CountInto { name } => push_count(queue, name, tables),
    }
}

/// The queue of a system on the world to which it has written, or want of memory.
pub(crate) fn queued_by(alloc: Global, world: &World, rule: &SystemRule) -> Result<Queue, Refusal>
    ensures queued { IfOk result (λ queue. queue.commands ≡ queued_by world.now.world rule.now) }
    ensures refused { IfErr result (λ r. r ≡ refusal_of NoMemory) }
{
    let tables = matching_tables(world, rule.filter)?;
    let mut queue = Queue::new(alloc);
    let steps = rule.steps.as_slice();
    'steps: for at in 0..steps.len() {
        push_step(&mut queue, &steps[at], tables.as_slice())?;
    }
    Ok(queue)
}
