//! An advance whose systems write in their turn, as a frame.
ghost use Rattle.std.specs.Prelude.{◌≡◌, ◌≢◌, ◌<◌, ◌≤◌, ◌^◌, IfOk, IfErr, OnOk, IsTrue, All, length, ⊤};
ghost use Rattle.std.specs.Thread.{IsSync};
ghost use Rattle.std.specs.List.{Contains};
ghost use Rattle.scene_kinds.specs.Answers.{refusal_of};
ghost use Rattle.scene_kinds.specs.declared.fault.Fault.TheVariants.{NoMemory};
ghost use Rattle.scene_kinds.specs.KindSet.{KindSet as KindsOf};
ghost use Rattle.scene_table.specs.Runs.{AreApart};
ghost use Rattle.scene_table.specs.Tables.{rows_at};
ghost use Rattle.scene_model.specs.Valid.{IsValid};
ghost use Rattle.scene_world.specs.Room.{IsWider};
ghost use Rattle.scene_world.specs.Written.{HasKindsOf};
ghost use Rattle.scene_schedule.specs.Schedule.{is_good_rule};
ghost use Rattle.scene_schedule.specs.Systems.{changes_of};
ghost use Rattle.scene_schedule.specs.TableWrites.{AddsInRange, AreOnce, OverflowsAs, WroteOn, changes_at, changes_in, sets_of};

use crate::phase_player::{PhasePlayer, play_phases};
use crate::queued::queued_by;
use crate::schedule::Schedule;
use crate::systems::{changes_of, overflow_at, row_steps};
use crate::write::write_rows;
use scene_kinds::{Entity, Fault, KindSet, Refusal};
use scene_pass::{first_fault, first_fault_in};
use scene_queue::{Queue, apply_owned};
use scene_systems::SystemRule;
use scene_table::{ColumnWriter, RowStep, are_apart};
use scene_world::{Frame, Stage, World};
use std::alloc::{AllocError, Global};

/// The kind sets that a system matches, ascending. And every world is valid.
fn kind_sets_of(world: &World, rule: &SystemRule) -> Result<Vec<KindSet>, AllocError>
    ensures sets { IfOk result (λ sets. sets.items ≡ sets_of world.now.world rule.now) }
    ensures valid { OnOk result (IsValid world.now.world) }
{
    let _tick = world.tick();
    let mut sets = world.tables()?;
    sets.retain(|mask| rule.filter.matches(*mask));
    Ok(sets)
}

/// The overflow of the first row of a table of which a sum doesn't fit, by the place of its system.
fn overflow_in(alloc: Global, world: &World, mask: KindSet, steps: &[RowStep], at: u32) -> Refusal
    requires { length steps.now < 2 ^ 32 }
    ensures { result ≢ refusal_of NoMemory → OverflowsAs (changes_at world.now.world steps.now mask) at result }
{
    let Some(table) = world.rows_of(mask) else {
        return Refusal::from(Fault::NoMemory);
    };
    match first_fault_in(alloc, table, steps) {
        Ok(Some(fault)) => overflow_at(at, fault),
        _ => Refusal::from(Fault::NoMemory),
    }
}

/// Writes steps to the rows of the tables of kind sets, one table after another.
fn write_tables<S: Stage, W: ColumnWriter>(
    alloc: Global,
    writer: &W,
    sets: &[KindSet],
    steps: &[RowStep],
    at: u32,
    stage: &mut S,
) -> Result<(), Refusal>
    requires sync { IsSync W.Runtime.row }
    requires few { length steps.now < 2 ^ 32 }
    requires apart { AreApart steps.now }
    requires valid { IsValid (S.seen stage.old).world }
    requires once { AreOnce sets.now }
    requires kinds { (mask : KindsOf) → Contains sets.now mask
        → All (λ row. HasKindsOf (S.seen stage.old).world.schema steps.now row) (rows_at (S.seen stage.old).world.tables mask) }
    ensures written { OnOk result (WroteOn S.note (changes_in (S.seen stage.old).world steps.now sets.now) (S.seen stage.old) (S.seen stage.new)) }
    ensures refused { IfErr result (λ r. r ≢ refusal_of NoMemory → OverflowsAs (changes_in (S.seen stage.old).world steps.now sets.now) at r) }
    ensures opening { S.opening stage.new ≡ S.opening stage.old }
    ensures wide { IsWider (S.room stage.old) (S.room stage.new) }
{
    'tables: for number in 0..sets.len() {
        let mask = sets[number];
        if !stage.write_steps(writer, mask, steps)? {
            return Err(overflow_in(alloc, stage.world(), mask, steps, at));
        }
    }
    Ok(())
}

/// Writes what the system at a place of a phase makes of its rows one after another: where a step needs what another
/// wrote in the same row.
fn write_by_rows<S: Stage>(
    alloc: Global,
    rule: &SystemRule,
    at: u32,
    stage: &mut S,
) -> Result<(), Refusal>
    requires { length rule.now.steps ≤ 16 }
    ensures written { OnOk result (WroteOn S.note (changes_of (S.seen stage.old).world rule.now) (S.seen stage.old) (S.seen stage.new)) }
    ensures refused { IfErr result (λ r. r ≢ refusal_of NoMemory → OverflowsAs (changes_of (S.seen stage.old).world rule.now) at r) }
    ensures opening { S.opening stage.new ≡ S.opening stage.old }
    ensures wide { IsWider (S.room stage.old) (S.room stage.new) }
{
    let changes = changes_of(alloc, stage.world(), rule)?;
    match first_fault(changes.as_slice()) {
        Some(fault) => Err(overflow_at(at, fault)),
        None => write_rows(changes.as_slice(), stage),
    }
}

/// Writes what the system at a place of a phase makes of its rows.
fn write_system<S: Stage, W: ColumnWriter>(
    alloc: Global,
    writer: &W,
    rule: &SystemRule,
    at: u32,
    stage: &mut S,
) -> Result<(), Refusal>
    requires sync { IsSync W.Runtime.row }
    requires good { IsTrue (is_good_rule (S.seen stage.old).world.schema rule.now) }
    ensures written { OnOk result (WroteOn S.note (changes_of (S.seen stage.old).world rule.now) (S.seen stage.old) (S.seen stage.new)) }
    ensures refused { IfErr result (λ r. r ≢ refusal_of NoMemory → OverflowsAs (changes_of (S.seen stage.old).world rule.now) at r) }
    ensures opening { S.opening stage.new ≡ S.opening stage.old }
    ensures wide { IsWider (S.room stage.old) (S.room stage.new) }
{
    let steps = row_steps(alloc, rule.steps.as_slice())?;
    if steps.is_empty() {
        return Ok(());
    }
    if !are_apart(steps.as_slice()) {
        return write_by_rows(alloc, rule, at, stage);
    }
    let sets = kind_sets_of(stage.world(), rule)?;
    write_tables(alloc, writer, sets.as_slice(), steps.as_slice(), at, stage)
}

/// The systems of a phase in their turn: each writes to the rows, and its queue is made of what it wrote. Then the
/// queues are applied.
#[derive(Clone, Copy)]
struct OneByOne;

impl PhasePlayer for OneByOne {
    ghost can = { λ p. ⊤ };

    fn play_systems<S: Stage, W: ColumnWriter>(
        &self,
        alloc: Global,
        writer: &W,
        rules: &[SystemRule],
        stage: &mut S,
    ) -> Result<Vec<Entity>, Refusal> {
        let mut queues: Vec<Queue> = Vec::new(alloc);
        'systems: for at in 0..rules.len() {
            let rule = &rules[at];
            match write_system(alloc, writer, rule, at as u32, stage) {
                Ok(()) => queues.push(queued_by(alloc, stage.world(), rule)?)?,
                Err(refusal) => return Err(refusal),
            }
        }
        apply_owned(alloc, queues, stage)
    }
}

/// An advance by a schedule, whose systems write to the rows in their turn, column by column, by a writer (docs/MODEL.md,
/// "The rule of schedules"). What it does is what an `Advance` does, whatever the writer.
///
/// It spawns the entities of all its phases, in order. Refused: `OtherSchema` where the world has other kinds than
/// those the schedule was made for; then, phase by phase, `Overflow` or the first refusal of a command, each with its
/// place.
#[derive(Clone, Copy)]
pub struct InTurn<'a, W> {
    pub schedule: &'a Schedule,
    pub writer: W,
}

impl<W: ColumnWriter> Frame for InTurn<'_, W> {
    ghost use Rattle.std.specs.Thread.{IsSync};
    ghost use Rattle.scene_model.specs.Perform.{perform};
    ghost use Rattle.scene_world.specs.Stage.{act};
    ghost use Rattle.scene_schedule.specs.Systems.{advance_of};

    ghost can = { λ f. IsSync W.Runtime.row };

    ghost does = { λ f w. advance_of perform (λ v. v) f.schedule.now w };

    ghost plays = { λ note f s. advance_of (act note) (λ t. t.world) f.schedule.now s };

    fn run<S: Stage>(&self, alloc: Global, stage: &mut S) -> Result<Vec<Entity>, Refusal> {
        if !self.schedule.is_for(stage.world().schema()) {
            return Err(Refusal::from(Fault::OtherSchema));
        }
        play_phases(alloc, self.schedule, &OneByOne, &self.writer, stage)
    }
}
