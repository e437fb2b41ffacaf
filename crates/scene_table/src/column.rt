//! A column of a table: the cells of one kind, as lists of values, of added ticks and of changed ticks.
ghost use Rattle.std.specs.Prelude.{◌≡◌, ◌+◌, ◌<◌, ◌≤◌, ℕ, [], length, map, slice_get, slice_range, slice_set, vec_capacity, Some, IsOk, OnOk, IfOk, false};
ghost use Rattle.std.specs.List.{list_any};
ghost use Rattle.scene_kinds.specs.Cells.{shown};
ghost use Rattle.scene_kinds.specs.declared.cell.Cell.{Cell};
ghost use Rattle.scene_table.specs.Columns.{out_of_column, back_in_column, cells_of};
ghost use Rattle.scene_table.specs.Runs.{AreInRange, changed_of, grown};
ghost use Rattle.scene_table.specs.Rows.{put_back};
ghost use Rattle.scene_table.specs.Since.{is_since};

use crate::changed::ChangedTicks;
use crate::series::Series;
use crate::since::Since;
use crate::ticks::TickList;
use crate::writer::ColumnWriter;
use scene_kinds::{Cell, CellRef, Value};
use std::alloc::{AllocError, Global};
use std::marker::Model;

/// The cells of one kind, in the order of the rows.
///
/// Contracts see the kind, the cells, and for how many cells there is memory in each of the three lists.
#[derive(Drop, Debug)]
pub(crate) struct Column {
    kind: u8,
    values: Vec<Value>,
    added: TickList,
    changed: TickList,
}

impl Model for Column {
    ghost use Rattle.std.specs.Prelude.{min, vec_capacity};
    ghost use Rattle.scene_table.specs.Columns.{ColumnState, IsColumn, cells_of};

    ghost Value = { ColumnState };

    ghost view = { λ c. record { kind = c.kind; cells = cells_of c.values.items c.added.items c.changed.items; capacity = min (vec_capacity c.values) (min c.added.capacity c.changed.capacity) } };

    ghost invariant = { λ c. IsColumn c.values.items c.added.items c.changed.items };
}

/// Puts a value at a place, and the one that stood there last. It takes no memory.
#[inline(always)]
fn put_value(values: &mut Vec<Value>, at: usize, value: Value)
    requires within { at ≤ length values.old.items }
    requires room { length values.old.items < vec_capacity values.old }
    ensures items { values.new.items ≡ put_back values.old.items at value }
    ensures capacity { vec_capacity values.new ≡ vec_capacity values.old }
{
    let last = values.len();
    values.push_reserved(value);
    if at < last {
        values.swap(at, last);
    }
}

impl Column {
    /// A column of a kind without cells. It takes no memory.
    pub(crate) fn new(alloc: Global, kind: u8) -> Self
        ensures kind { result.kind ≡ kind }
        ensures cells { result.cells ≡ [] }
    {
        Column {
            kind,
            values: Vec::new(alloc),
            added: TickList::new(alloc),
            changed: TickList::new(alloc),
        }
    }

    /// The kind of the cells.
    pub(crate) fn kind(&self) -> u8
        ensures { result ≡ self.now.kind }
    {
        self.kind
    }

    /// Makes room for this many more cells. It fails only where that room isn't there yet and no memory was found.
    pub(crate) fn reserve(&mut self, additional: usize) -> Result<(), AllocError>
        ensures kind { self.new.kind ≡ self.old.kind }
        ensures cells { self.new.cells ≡ self.old.cells }
        ensures room { OnOk result (length self.new.cells + additional ≤ self.new.capacity) }
        ensures there { length self.old.cells + additional ≤ self.old.capacity → IsOk result }
        ensures wide { self.old.capacity ≤ self.new.capacity }
    {
        self.values.reserve(additional)?;
        self.added.reserve(additional)?;
        self.changed.reserve(additional)
    }

    /// Puts a cell at a place, and the one that stood there last. It takes no memory.
    pub(crate) fn put_back(&mut self, at: usize, cell: Cell)
        requires within { at ≤ length self.old.cells }
        requires room { length self.old.cells < self.old.capacity }
        ensures { self.new ≡ back_in_column at self.old cell }
    {
        let Cell {
            value,
            added,
            changed,
        } = cell;
        let last = self.values.len();
        self.values.push_reserved(value);
        self.values.swap(at, last);
        self.added.put_back(at, added);
        self.changed.put_back(at, changed);
    }

    /// Takes out the cell at a place, and gives it. The last takes its place.
    pub(crate) fn take(&mut self, at: usize) -> Cell
        requires { at < length self.old.cells }
        ensures cell { slice_get self.old.cells at ≡ Some result }
        ensures left { self.new ≡ out_of_column at self.old }
    {
        Cell {
            value: self.values.swap_remove(at),
            added: self.added.take(at),
            changed: self.changed.take(at),
        }
    }

    /// Moves the cell at a place to a place of another column, where the one that stood there goes last. The last of
    /// this column takes its place. It takes no memory. The value goes from list to list, with no cell made between.
    #[inline(always)]
    pub(crate) fn move_to(&mut self, at: usize, target: &mut Column, to: usize)
        requires from { at < length self.old.cells }
        requires within { to ≤ length target.old.cells }
        requires room { length target.old.cells < target.old.capacity }
        ensures left { self.new ≡ out_of_column at self.old }
        ensures put { (cell : Cell) → slice_get self.old.cells at ≡ Some cell → target.new ≡ back_in_column to target.old cell }
    {
        put_value(&mut target.values, to, self.values.swap_remove(at));
        target.added.put_back(to, self.added.take(at));
        target.changed.put_back(to, self.changed.take(at));
    }

    /// Puts a cell in place of the one at a place, and gives that one.
    pub(crate) fn set(&mut self, at: usize, cell: Cell) -> Cell
        requires { at < length self.old.cells }
        ensures old { slice_get self.old.cells at ≡ Some result }
        ensures new { self.new ≡ record self.old { cells = slice_set self.old.cells at cell } }
    {
        Cell {
            value: std::mem::replace(&mut self.values[at], cell.value),
            added: self.added.set(at, cell.added),
            changed: self.changed.set(at, cell.changed),
        }
    }

    /// The cell at a place.
    pub(crate) fn get(&self, at: usize) -> CellRef<'_>
        requires { at < length self.now.cells }
        ensures { slice_get self.now.cells at ≡ Some (shown result) }
    {
        CellRef {
            value: &self.values[at],
            added: self.added.get(at),
            changed: self.changed.get(at),
        }
    }

    /// The lists of values and ticks.
    pub(crate) fn lent(&self) -> ColumnRef<'_>
        ensures cells { cells_of result.values.now result.added.now result.changed.now ≡ self.now.cells }
        ensures added { length result.added.now ≡ length result.values.now }
        ensures changed { length result.changed.now ≡ length result.values.now }
    {
        ColumnRef {
            values: self.values.as_slice(),
            added: self.added.as_slice(),
            changed: self.changed.as_slice(),
        }
    }

    /// Writes the values of a series after so many turns, and the ticks of its number.
    pub(crate) fn put_series<W: ColumnWriter>(
        &mut self,
        writer: &W,
        series: &Series,
        turns: i64,
        number: usize,
        changed: &ChangedTicks,
    )
        requires range { AreInRange (grown series.now turns) }
        requires values { length (grown series.now turns) ≡ length self.old.cells }
        requires ticks { length (changed_of changed.now number (length self.old.cells)) ≡ length self.old.cells }
        ensures kind { self.new.kind ≡ self.old.kind }
        ensures capacity { self.new.capacity ≡ self.old.capacity }
        ensures cells { self.new.cells ≡ cells_of (grown series.now turns) (map (λ cell. cell.added) self.old.cells)
            (changed_of changed.now number (length self.old.cells)) }
    {
        let values = self.values.as_mut_slice();
        self.changed
            .put_with(writer, values, series.after(turns), number, changed);
    }

    /// Whether a cell may be one of those since a tick: where this says no, none of any part is.
    pub(crate) fn may_have(&self, since: Since) -> bool
        ensures { result ≡ false → (from to : ℕ) → list_any (is_since since) (slice_range self.now.cells from to) ≡ false }
    {
        match since {
            Since::Added(tick) => self.added.may_pass(tick),
            Since::Changed(tick) => self.changed.may_pass(tick),
        }
    }

    /// Whether one of the cells from a place on, and before another, is one of those since a tick.
    pub(crate) fn has_since(&self, from: usize, to: usize, since: Since) -> bool
        requires { (from ≤ to) × (to ≤ length self.now.cells) }
        ensures { result ≡ list_any (is_since since) (slice_range self.now.cells from to) }
    {
        match since {
            Since::Added(tick) => self.added.any_after(from, to, tick),
            Since::Changed(tick) => self.changed.any_after(from, to, tick),
        }
    }

    /// A column with an equal kind and equal cells, or an error where no memory was found.
    pub(crate) fn try_clone(&self) -> Result<Column, AllocError>
        ensures kind { IfOk result (λ copy. copy.kind ≡ self.now.kind) }
        ensures cells { IfOk result (λ copy. copy.cells ≡ self.now.cells) }
        ensures fits { IfOk result (λ copy. length copy.cells ≤ copy.capacity) }
    {
        Ok(Column {
            kind: self.kind,
            values: self.values.clone()?,
            added: self.added.try_clone()?,
            changed: self.changed.try_clone()?,
        })
    }
}

/// A column that is lent: at each place the value of the row there, the tick at which it was added, and the one at
/// which it was last changed.
#[derive(Clone, Copy, Debug)]
pub struct ColumnRef<'a> {
    pub values: &'a [Value],
    pub added: &'a [u64],
    pub changed: &'a [u64],
}
