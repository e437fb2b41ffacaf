//! Row steps that are written to all rows of a table, with their deltas.
ghost use Rattle.std.specs.Prelude.{◌≡◌, ◌<◌, ◌*◌, ◌^◌, ◌+ℤ◌, true, false, pos, length, All, Ok, IfOk, IfSome, IfNone, OnOk, OnErr};
ghost use Rattle.std.specs.Thread.{IsSync};
ghost use Rattle.scene_table.specs.Runs.{AreApart, CanStep, HasTicks, HoldsAt, RunState, Same, Stands};
ghost use Rattle.scene_journal.specs.LiveRuns.{AreKept, AreKeptOver};
ghost use Rattle.scene_table.specs.Tables.{rows_at};
ghost use Rattle.scene_model.specs.RunRaw.{with_run};
ghost use Rattle.scene_world.specs.Written.{FitAll, HasKindsOf};
ghost use Rattle.scene_journal.specs.Turns.{IsFound, IsRecorded};

use crate::runs::{Last, Runs};
use scene_deltas::{Deltas, is_sound};
use scene_kinds::KindSet;
use scene_table::{ChangedTicks, ColumnWriter, RowStep, Run, Table, Written, changed_ticks};
use scene_world::{RawChanges, World};
use std::alloc::{AllocError, Global};
use std::sync::Arc;

/// A run, and how many of its turns were before.
#[derive(Drop)]
struct Found {
    run: Arc<Run>,
    turns: i64,
    before: ChangedTicks,
}

/// A run that was made of a table, with none of its turns before.
fn begun(alloc: Global, table: &Table, run: Run) -> Result<Found, AllocError>
    requires mask { run.mask ≡ table.now.mask }
    requires stands { Stands table.now.rows run (pos 0) }
    requires now { HoldsAt run (pos 0) }
    requires next { HoldsAt run (pos 1) }
    requires small { length run.entities * length run.columns < 2 ^ 64 }
    ensures { IfOk result (IsFound table.now.rows table.now.mask run.steps) }
{
    let before = changed_ticks(alloc, table, &run)?;
    match Arc::new(alloc, run) {
        Ok(run) => Ok(Found {
            run,
            turns: 0,
            before,
        }),
        Err(_) => Err(AllocError),
    }
}

/// The ticks at which the cells of a run that stands in a table were changed. Where it is live, all are known.
fn ticks_of(alloc: Global, table: &Table, last: &Last) -> Result<ChangedTicks, AllocError>
    requires mask { last.now.run.value.mask ≡ table.now.mask }
    requires live { last.now.live ≡ true → HasTicks table.now.rows last.now.run.value (Same last.now.tick) }
    ensures { IfOk result (HasTicks table.now.rows last.now.run.value) }
{
    if last.live {
        return Ok(ChangedTicks::same(last.tick));
    }
    changed_ticks(alloc, table, &*last.run)
}

/// Whether a run stands in a table after its turns. Where nothing touched the rows since, nothing is compared.
fn still_stands(table: &Table, last: &Last) -> bool
    requires holds { HoldsAt last.now.run.value last.now.turns }
    requires live { last.now.live ≡ true → Stands table.now.rows last.now.run.value last.now.turns }
    ensures { result ≡ true → Stands table.now.rows last.now.run.value last.now.turns }
{
    last.live || last.run.is_at(table, last.turns)
}

/// The run that goes on in a table with the one that was written there last, if it does.
fn going_on(
    alloc: Global,
    table: &Table,
    runs: &Runs,
    steps: &[RowStep],
) -> Result<Option<Found>, AllocError>
    requires kept { AreKeptOver table.now.rows table.now.mask runs.now }
    ensures { IfOk result (λ made. IfSome made (IsFound table.now.rows table.now.mask steps.now)) }
{
    let Some(last) = runs.last(table.mask(), steps) else {
        return Ok(None);
    };
    if !still_stands(table, last) {
        return Ok(None);
    }
    Ok(Some(Found {
        run: last.run.clone()?,
        turns: last.turns,
        before: ticks_of(alloc, table, last)?,
    }))
}

/// The run of steps over the rows of a table, one that goes on or a new one; `None` where a sum doesn't fit.
fn run_for(
    alloc: Global,
    table: &Table,
    runs: &Runs,
    steps: &[RowStep],
) -> Result<Option<Found>, AllocError>
    requires apart { AreApart steps.now }
    requires can { All (CanStep table.now) steps.now }
    requires holds { (run : RunState) → run.mask ≡ table.now.mask → Stands table.now.rows run (pos 0) → HoldsAt run (pos 0) }
    requires kept { AreKeptOver table.now.rows table.now.mask runs.now }
    ensures found { IfOk result (λ made. IfSome made (IsFound table.now.rows table.now.mask steps.now)) }
    ensures unfit { IfOk result (λ made. IfNone made (FitAll steps.now table.now.rows → ⊥)) }
{
    if let Some(found) = going_on(alloc, table, runs, steps)? {
        return Ok(Some(found));
    }
    match Run::new(alloc, table, steps)? {
        Some(run) => Ok(Some(begun(alloc, table, run)?)),
        None => Ok(None),
    }
}

/// Writes the next turn of a run to its table, and notes its deltas. All memory is found before the first cell is
/// written.
fn write_turn<W: ColumnWriter>(
    writer: &W,
    world: &mut World,
    deltas: &mut Deltas,
    found: Found,
) -> Result<(), AllocError>
    requires sync { IsSync W.Runtime.row }
    requires apart { AreApart found.run.value.steps }
    requires found { IsFound (rows_at world.old.world.tables found.run.value.mask) found.run.value.mask found.run.value.steps found }
    ensures done { OnOk result (IsRecorded world.old.room world.old.world found.run.value.mask found.run.value.steps deltas.old.items world.new.world deltas.new.items) }
    ensures world { OnOk result (world.new.world ≡ with_run world.old.world found.run.value (found.turns +ℤ pos 1) (Same world.old.world.tick)) }
    ensures full { OnErr result ((world.new.world ≡ world.old.world) × (deltas.new.items ≡ deltas.old.items)) }
    ensures room { world.new.room ≡ world.old.room }
{
    is_sound(world);
    let Found { run, turns, before } = found;
    let tick = world.tick();
    let written = Written::new(run, turns, before, tick);
    deltas.reserve_written(&written)?;
    world.put_run(writer, written.run(), turns + 1, &ChangedTicks::same(tick));
    deltas.push_written(written);
    Ok(())
}

/// Writes what row steps make of each row of the table of a kind set, and notes the deltas. Whether all sums fit. All
/// memory is found before the first cell is written.
pub(crate) fn write_steps<W: ColumnWriter>(
    alloc: Global,
    writer: &W,
    world: &mut World,
    deltas: &mut Deltas,
    runs: &mut Runs,
    mask: KindSet,
    steps: &[RowStep],
) -> Result<bool, AllocError>
    requires sync { IsSync W.Runtime.row }
    requires apart { AreApart steps.now }
    requires kinds { All (λ row. HasKindsOf world.old.world.schema steps.now row) (rows_at world.old.world.tables mask) }
    requires kept { AreKept world.old.world runs.old }
    ensures kept { AreKept world.new.world runs.new }
    ensures fit { result ≡ Ok true → IsRecorded world.old.room world.old.world mask steps.now deltas.old.items world.new.world deltas.new.items }
    ensures unfit { result ≡ Ok false → (FitAll steps.now (rows_at world.old.world.tables mask) → ⊥)
        × (world.new.world ≡ world.old.world) × (deltas.new.items ≡ deltas.old.items) }
    ensures full { OnErr result ((world.new.world ≡ world.old.world) × (deltas.new.items ≡ deltas.old.items)) }
    ensures room { world.new.room ≡ world.old.room }
{
    is_sound(world);
    let Some(table) = world.rows_of(mask) else {
        return Ok(true);
    };
    runs.reserve()?;
    let Some(found) = run_for(alloc, table, runs, steps)? else {
        return Ok(false);
    };
    let run = found.run.clone()?;
    let turns = found.turns;
    let tick = world.tick();
    write_turn(writer, world, deltas, found)?;
    runs.note(run, steps, turns, tick);
    Ok(true)
}
