//! The added or the changed ticks of a column, in the order of the rows, and a tick that none of them is after.
ghost use Rattle.std.specs.Prelude.{◌≡◌, ◌+◌, ◌<◌, ◌≤◌, ℕ, [], length, slice_get, slice_range, slice_set, Some, IsOk, OnOk, IfOk, nat_lt, false};
ghost use Rattle.std.specs.List.{list_any};
ghost use Rattle.scene_table.specs.Rows.{swap_out, put_back};
ghost use Rattle.scene_table.specs.Grown.{values_in};
ghost use Rattle.scene_table.specs.Runs.{AreInRange, changed_of};

use crate::changed::ChangedTicks;
use crate::grown::Grown;
use crate::writer::ColumnWriter;
use scene_kinds::Value;
use std::alloc::{AllocError, Global};
use std::marker::Model;

/// Ticks in the order of the rows.
///
/// Contracts see the ticks, and for how many there is memory. The latest is behind them: at least as high as each tick,
/// and higher where the latest was taken out again, as by an undo.
#[derive(Drop, Debug)]
pub(crate) struct TickList {
    ticks: Vec<u64>,
    latest: u64,
}

impl Model for TickList {
    ghost use Rattle.std.specs.Prelude.{All, ◌≤◌, vec_capacity};
    ghost use Rattle.scene_table.specs.TickList.{TicksState};

    ghost Value = { TicksState };

    ghost view = { λ t. record { items = t.ticks.items; capacity = vec_capacity t.ticks } };

    ghost invariant = { λ t. All (λ tick. tick ≤ t.latest) t.ticks.items };
}

impl TickList {
    /// No ticks. It takes no memory.
    pub(crate) fn new(alloc: Global) -> Self
        ensures { result.items ≡ [] }
    {
        TickList {
            ticks: Vec::new(alloc),
            latest: 0,
        }
    }

    /// Makes room for this many more. It fails only where that room isn't there yet and no memory was found.
    pub(crate) fn reserve(&mut self, additional: usize) -> Result<(), AllocError>
        ensures items { self.new.items ≡ self.old.items }
        ensures room { OnOk result (length self.new.items + additional ≤ self.new.capacity) }
        ensures there { length self.old.items + additional ≤ self.old.capacity → IsOk result }
        ensures wide { self.old.capacity ≤ self.new.capacity }
    {
        self.ticks.reserve(additional)
    }

    /// Puts a tick at a place, and the one that stood there last. It takes no memory.
    pub(crate) fn put_back(&mut self, at: usize, tick: u64)
        requires within { at ≤ length self.old.items }
        requires room { length self.old.items < self.old.capacity }
        ensures { self.new ≡ record self.old { items = put_back self.old.items at tick } }
    {
        let last = self.ticks.len();
        self.ticks.push_reserved(tick);
        self.ticks.swap(at, last);
        self.latest = self.latest.max(tick);
    }

    /// Takes out the tick at a place, and gives it. The last takes its place.
    pub(crate) fn take(&mut self, at: usize) -> u64
        requires { at < length self.old.items }
        ensures tick { slice_get self.old.items at ≡ Some result }
        ensures left { self.new ≡ record self.old { items = swap_out self.old.items at } }
    {
        self.ticks.swap_remove(at)
    }

    /// Puts a tick in place of the one at a place, and gives that one.
    pub(crate) fn set(&mut self, at: usize, written: u64) -> u64
        requires { at < length self.old.items }
        ensures old { slice_get self.old.items at ≡ Some result }
        ensures new { self.new ≡ record self.old { items = slice_set self.old.items at written } }
    {
        self.latest = self.latest.max(written);
        std::mem::replace(&mut self.ticks[at], written)
    }

    /// Writes what a column of a run has after so many turns, by a writer: the values over those of the column whose
    /// changed ticks these are, and over these the ticks of the column of that number.
    pub(crate) fn put_with<W: ColumnWriter>(
        &mut self,
        writer: &W,
        values: &mut [Value],
        grown: Grown<'_>,
        number: usize,
        changed: &ChangedTicks,
    )
        requires range { AreInRange (values_in grown) }
        requires long { length (values_in grown) ≡ length values.old }
        requires same { length self.old.items ≡ length values.old }
        requires ticks { length (changed_of changed.now number (length self.old.items)) ≡ length self.old.items }
        ensures values { values.new ≡ values_in grown.entry }
        ensures ticks { self.new ≡ record self.old { items = changed_of changed.now number (length self.old.items) } }
    {
        match changed.one_tick() {
            Some(tick) => {
                writer.put(values, self.ticks.as_mut_slice(), grown, tick);
                self.latest = tick;
            }
            None => {
                writer.put(values, self.ticks.as_mut_slice(), grown, 0);
                changed.put(number, self.ticks.as_mut_slice());
                self.latest = changed.latest(number);
            }
        }
    }

    /// The tick at a place.
    pub(crate) fn get(&self, at: usize) -> u64
        requires { at < length self.now.items }
        ensures { slice_get self.now.items at ≡ Some result }
    {
        self.ticks[at]
    }

    /// The ticks.
    pub(crate) fn as_slice(&self) -> &[u64]
        ensures { result.now ≡ self.now.items }
    {
        self.ticks.as_slice()
    }

    /// Whether one may be after a tick: where this says no, none of any part is.
    pub(crate) fn may_pass(&self, tick: u64) -> bool
        ensures { result ≡ false → (from to : ℕ) → list_any (nat_lt tick) (slice_range self.now.items from to) ≡ false }
    {
        self.latest > tick
    }

    /// Whether one of those from a place on, and before another, is after a tick.
    pub(crate) fn any_after(&self, from: usize, to: usize, tick: u64) -> bool
        requires { (from ≤ to) × (to ≤ length self.now.items) }
        ensures { result ≡ list_any (nat_lt tick) (slice_range self.now.items from to) }
    {
        self.may_pass(tick) && self.ticks[from..to].iter().any(|it| *it > tick)
    }

    /// Equal ticks, or an error where no memory was found.
    pub(crate) fn try_clone(&self) -> Result<TickList, AllocError>
        ensures items { IfOk result (λ copy. copy.items ≡ self.now.items) }
        ensures fits { IfOk result (λ copy. length copy.items ≤ copy.capacity) }
    {
        Ok(TickList {
            ticks: self.ticks.clone()?,
            latest: self.latest,
        })
    }
}
