//! Cells that one turn of a run wrote.
ghost use Rattle.scene_kinds.specs.declared.cells.Row.{Row};
ghost use Rattle.std.specs.Prelude.{◌≡◌, ◌<◌, true, All, length, map, replicate, slice_get, Some, IfOk};
ghost use Rattle.scene_table.specs.Runs.{HasTicks, IsTurn, cells_of_turn, changed_in, rows_after_turn, rows_before_turn};
ghost use Rattle.scene_kinds.specs.KindSet.{has_kind};

use crate::changed::{ChangedTicks, are_all, copied_ticks};
use crate::run::Run;
use crate::table::Table;
use scene_kinds::{Cell, Entity};
use std::alloc::{AllocError, Global};
use std::fmt;
use std::marker::Model;
use std::sync::Arc;

/// One turn of a run: which cells it wrote, what was there before, and what after.
#[derive(Drop)]
pub struct Written {
    run: Arc<Run>,
    /// How many turns of the run were before.
    turns: i64,
    /// The ticks at which the cells were changed before.
    before: ChangedTicks,
    /// The tick at which the turn changed them.
    tick: u64,
}

impl Model for Written {
    ghost use Rattle.scene_table.specs.Runs.{TurnState};

    ghost Value = { TurnState };

    ghost view = { λ w. record { run = w.run.value; turns = w.turns; before = w.before; tick = w.tick } };

    ghost use Rattle.scene_table.specs.Runs.{IsTurn};

    // The sums fit before it and after it.
    ghost invariant = { λ w. IsTurn (record { run = w.run.value; turns = w.turns; before = w.before; tick = w.tick }) };
}

/// A cell that was written.
#[derive(Drop, Debug)]
pub struct WrittenCell {
    pub entity: Entity,
    pub kind: u8,
    pub before: Cell,
    pub after: Cell,
}

impl Written {
    /// The turn of a run after so many others, at a tick.
    pub fn new(run: Arc<Run>, turns: i64, before: ChangedTicks, tick: u64) -> Written
        requires { IsTurn (record { run = run.value; turns = turns; before = before; tick = tick }) }
        ensures { result ≡ record { run = run.value; turns = turns; before = before; tick = tick } }
    {
        Written {
            run,
            turns,
            before,
            tick,
        }
    }

    /// The run.
    pub fn run(&self) -> &Run
        ensures run { result.now ≡ self.now.run }
        ensures turn { IsTurn self.now }
    {
        &*self.run
    }

    /// How many turns of the run were before.
    pub fn turns(&self) -> i64
        ensures { result ≡ self.now.turns }
    {
        self.turns
    }

    /// The ticks at which the cells were changed before.
    pub fn ticks_before(&self) -> &ChangedTicks
        ensures { result.now ≡ self.now.before }
    {
        &self.before
    }

    /// The tick at which the turn changed them.
    pub fn tick(&self) -> u64
        ensures { result ≡ self.now.tick }
    {
        self.tick
    }

    /// How many cells were written.
    pub fn len(&self) -> usize
        ensures { result ≡ length (cells_of_turn self.now) }
    {
        self.run.entities().len() * self.run.width()
    }

    /// The cell of the row at a place in the run's column of a number.
    fn cell_at(&self, place: usize, number: usize) -> WrittenCell
        requires place { place < length self.now.run.entities }
        requires number { number < length self.now.run.columns }
        ensures before { (row : Row) → slice_get (rows_before_turn self.now) place ≡ Some row
            → (row.entity ≡ result.entity) × (slice_get row.cells number ≡ Some (result.kind, result.before)) }
        ensures after { (row : Row) → slice_get (rows_after_turn self.now) place ≡ Some row
            → slice_get row.cells number ≡ Some (result.kind, result.after) }
    {
        let turns = self.turns();
        let column = &self.run.columns()[number];
        let changed = self.before.at(number, place);
        WrittenCell {
            entity: self.run.entities()[place],
            kind: column.kind,
            before: column.cell_at(place, turns, changed),
            after: column.cell_at(place, turns + 1, self.tick),
        }
    }

    /// The cell of a number: row by row, and in a row by kind.
    pub fn cell(&self, number: usize) -> WrittenCell
        requires { number < length (cells_of_turn self.now) }
        ensures { slice_get (cells_of_turn self.now) number ≡ Some (result.entity, result.kind, result.before, result.after) }
    {
        let width = self.run.width();
        self.cell_at(number / width, number % width)
    }

    /// The same turn, or an error where no memory was found. The run is shared.
    pub fn try_clone(&self) -> Result<Written, AllocError>
        ensures { IfOk result (λ copy. copy ≡ self.now) }
    {
        Ok(Written {
            run: self.run.clone()?,
            turns: self.turns,
            before: self.before.try_clone()?,
            tick: self.tick,
        })
    }
}

/// As a run's number of turns and its tick.
impl fmt::Debug for Written {
    fn fmt<W: fmt::Write>(&self, f: &mut fmt::Formatter<W>) -> fmt::Result {
        let (turns, tick) = (self.turns, self.tick);
        write!(f, "Written {{ turns: {turns}, tick: {tick} }}")
    }
}

/// The first changed tick of a run's columns in a table.
fn first_tick(table: &Table, run: &Run) -> u64 {
    for column in run.columns() {
        if let Some(lent) = table.column(column.kind) {
            if let Some(tick) = lent.changed.first() {
                return *tick;
            }
        }
    }
    0
}

/// Whether all cells of a kind in a table were changed at a tick.
fn is_changed_at(table: &Table, kind: u8, tick: u64) -> bool
    requires { has_kind table.now.mask kind ≡ true }
    ensures { result ≡ true → changed_in table.now.rows kind ≡ map Some (replicate (length table.now.rows) tick) }
{
    match table.column(kind) {
        Some(lent) => are_all(lent.changed, tick),
        None => true,
    }
}

/// Whether all cells of a run's columns in a table were changed at a tick.
fn are_changed_at(table: &Table, run: &Run, tick: u64) -> bool
    requires { run.now.mask ≡ table.now.mask }
    ensures { result ≡ true → All (λ c. changed_in table.now.rows c.kind ≡ map Some (replicate (length table.now.rows) tick)) run.now.columns }
{
    for column in run.columns() {
        if !is_changed_at(table, column.kind, tick) {
            return false;
        }
    }
    true
}

/// The ticks at which the cells of a kind in a table were changed, or an error where no memory was found.
fn changed_of_kind(alloc: Global, table: &Table, kind: u8) -> Result<Vec<u64>, AllocError>
    requires { has_kind table.now.mask kind ≡ true }
    ensures { IfOk result (λ ticks. changed_in table.now.rows kind ≡ map Some ticks.items) }
{
    match table.column(kind) {
        Some(lent) => copied_ticks(alloc, lent.changed),
        None => Ok(Vec::new(alloc)),
    }
}

/// The ticks at which the cells of a run's columns were changed, or an error where no memory was found.
pub fn changed_ticks(alloc: Global, table: &Table, run: &Run) -> Result<ChangedTicks, AllocError>
    requires { run.now.mask ≡ table.now.mask }
    ensures { IfOk result (HasTicks table.now.rows run.now) }
{
    let tick = first_tick(table, run);
    if are_changed_at(table, run, tick) {
        return Ok(ChangedTicks::same(tick));
    }
    let mut columns = Vec::new(alloc);
    for column in run.columns() {
        columns.push(changed_of_kind(alloc, table, column.kind)?)?;
    }
    Ok(ChangedTicks::each(columns))
}
