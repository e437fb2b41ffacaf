//! How the values and the changed ticks of a run's columns are written: by the calling thread, or by several.
ghost use Rattle.std.specs.Prelude.{◌≡◌, ◌<◌, length, replicate};
ghost use Rattle.std.specs.Thread.{IsSync};
ghost use Rattle.scene_table.specs.Grown.{values_in};
ghost use Rattle.scene_table.specs.Runs.{AreInRange};

use crate::grown::Grown;
use rayon::join_mut;
use scene_kinds::Value;
use std::thread::Threads;

/// From how many values on a column is parted among threads. With fewer, to start the threads takes much of what they
/// save; from here on two take some two thirds of the time of one, where processors are free.
pub const PARTED_VALUES: usize = 131_072;

/// Writes what a column has after so many turns in place of its values, and one tick in place of its changed ticks.
pub trait ColumnWriter {
    /// By what it starts threads, if it does.
    type Runtime: Sync;

    /// Writes the values that a series has, and a tick at each place.
    fn put(&self, values: &mut [Value], ticks: &mut [u64], grown: Grown<'_>, tick: u64)
        requires sync { IsSync Self.Runtime.row }
        requires range { AreInRange (values_in grown) }
        requires long { length (values_in grown) ≡ length values.old }
        requires ticks { length ticks.old ≡ length values.old }
        ensures values { values.new ≡ values_in grown.entry }
        ensures ticks { ticks.new ≡ replicate (length ticks.old) tick };
}

/// The calling thread writes all columns.
#[derive(Clone, Copy, Debug)]
pub struct WritesAlone;

impl ColumnWriter for WritesAlone {
    type Runtime = ();

    fn put(&self, values: &mut [Value], ticks: &mut [u64], grown: Grown<'_>, tick: u64) {
        grown.put(values);
        ticks.fill(tick);
    }
}

/// As many threads as there are workers write a column of 131,072 values and more (`PARTED_VALUES`), each a part; the
/// calling thread writes others, and with fewer than two workers all.
#[derive(Clone, Copy, Debug)]
pub struct WritesShared<R> {
    pub rt: R,
    pub workers: usize,
}

/// Writes so many parts of a column, each in a thread: its values and its ticks in one go, since it is what one thread
/// waits for another that costs.
#[cycle(parts)]
fn put_parts<R: Threads + Sync>(
    rt: &R,
    parts: usize,
    values: &mut [Value],
    ticks: &mut [u64],
    grown: Grown<'_>,
    tick: u64,
)
    requires range { AreInRange (values_in grown) }
    requires long { length (values_in grown) ≡ length values.old }
    requires ticks { length ticks.old ≡ length values.old }
    ensures values { values.new ≡ values_in grown.entry }
    ensures ticks { ticks.new ≡ replicate (length ticks.old) tick }
{
    if parts < 2 {
        grown.put(values);
        ticks.fill(tick);
        return;
    }
    let at = values.len() / parts;
    let (first_values, other_values) = values.split_at_mut(at);
    let (first_ticks, other_ticks) = ticks.split_at_mut(at);
    let (first, others) = grown.split_at(at);
    put_first(
        rt,
        first_values,
        first_ticks,
        first,
        parts - 1,
        other_values,
        other_ticks,
        others,
        tick,
    );
}

/// Writes the first part in a thread of its own, and so many others beside it. This thread starts them all, one after
/// another: where threads start threads, two that start at once often come to one processor.
#[cycle(parts)]
fn put_first<R: Threads + Sync>(
    rt: &R,
    first_values: &mut [Value],
    first_ticks: &mut [u64],
    first: Grown<'_>,
    parts: usize,
    other_values: &mut [Value],
    other_ticks: &mut [u64],
    others: Grown<'_>,
    tick: u64,
)
    requires first_range { AreInRange (values_in first) }
    requires first_long { length (values_in first) ≡ length first_values.old }
    requires first_ticks { length first_ticks.old ≡ length first_values.old }
    requires other_range { AreInRange (values_in others) }
    requires other_long { length (values_in others) ≡ length other_values.old }
    requires other_ticks { length other_ticks.old ≡ length other_values.old }
    ensures first_values { first_values.new ≡ values_in first.entry }
    ensures first_ticks { first_ticks.new ≡ replicate (length first_ticks.old) tick }
    ensures other_values { other_values.new ≡ values_in others.entry }
    ensures other_ticks { other_ticks.new ≡ replicate (length other_ticks.old) tick }
{
    let mut write_first = ||
        requires { AreInRange (values_in first) × (length (values_in first) ≡ length first_values.now) }
        ensures { (first_values.exit.now ≡ values_in first.entry) × (first_ticks.exit.now ≡ replicate (length first_ticks.entry.now) tick) }
    {
        first.put(first_values);
        first_ticks.fill(tick)
    };
    let mut write_others = ||
        requires { IsSync R.row × AreInRange (values_in others) × (length (values_in others) ≡ length other_values.now) × (length other_ticks.now ≡ length other_values.now) }
        ensures { (other_values.exit.now ≡ values_in others.entry) × (other_ticks.exit.now ≡ replicate (length other_ticks.entry.now) tick) }
    { put_parts(rt, parts, other_values, other_ticks, others, tick) };
    join_mut(rt, &mut write_first, &mut write_others);
}

impl<R: Threads + Sync> ColumnWriter for WritesShared<R> {
    type Runtime = R;

    fn put(&self, values: &mut [Value], ticks: &mut [u64], grown: Grown<'_>, tick: u64) {
        let parts = if values.len() < PARTED_VALUES {
            1
        } else {
            self.workers
        };
        put_parts(&self.rt, parts, values, ticks, grown, tick);
    }
}
