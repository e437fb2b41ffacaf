//! The ticks at which the cells of a run's columns were changed.
ghost use Rattle.std.specs.Prelude.{◌≡◌, ◌+◌, ◌<◌, ◌≤◌, ℕ, true, All, Some, IfOk, IfSome, length, map, replicate, slice_get};
ghost use Rattle.std.specs.List.{list_all};
ghost use Rattle.scene_table.specs.Runs.{changed_of, Same, Each};

use std::alloc::{AllocError, Global};
use std::marker::Model;

/// One tick for all cells, or else those of each column, by place.
#[derive(Drop, Debug)]
pub(crate) enum Ticks {
    Same(u64),
    Each(Vec<Vec<u64>>),
}

/// The changed ticks of the columns of a run. Contracts see one for all cells, or those of each column.
#[derive(Drop, Debug)]
pub struct ChangedTicks {
    ticks: Ticks,
}

impl Model for ChangedTicks {
    ghost use Rattle.scene_table.specs.Runs.{Changed};
    ghost use Rattle.scene_table.specs.Stored.{changed_seen};

    ghost Value = { Changed };

    ghost view = { λ c. changed_seen c.ticks };
}

impl ChangedTicks {
    /// One tick for all cells. It takes no memory.
    pub fn same(tick: u64) -> ChangedTicks
        ensures { result ≡ Same tick }
    {
        ChangedTicks {
            ticks: Ticks::Same(tick),
        }
    }

    /// Those of each column, by place. It takes no memory.
    pub(crate) fn each(columns: Vec<Vec<u64>>) -> ChangedTicks
        ensures { result ≡ Each (map (λ column. column.items) columns.items) }
    {
        ChangedTicks {
            ticks: Ticks::Each(columns),
        }
    }

    /// The tick at a place of the column of a number, among so many rows.
    pub(crate) fn at(&self, number: usize, place: usize) -> u64
        requires { place < length (changed_of self.now number (place + 1)) }
        ensures { slice_get (changed_of self.now number (place + 1)) place ≡ Some result }
    {
        match &self.ticks {
            Ticks::Same(tick) => *tick,
            Ticks::Each(columns) => columns[number][place],
        }
    }

    /// The one tick of all cells, where there is one.
    pub(crate) fn one_tick(&self) -> Option<u64>
        ensures { IfSome result (λ tick. self.now ≡ Same tick) }
    {
        match &self.ticks {
            Ticks::Same(tick) => Some(*tick),
            Ticks::Each(_) => None,
        }
    }

    /// Writes the ticks of the column of a number.
    pub(crate) fn put(&self, number: usize, changed: &mut [u64])
        requires { length (changed_of self.now number (length changed.old)) ≡ length changed.old }
        ensures { changed.new ≡ changed_of self.now number (length changed.old) }
    {
        match &self.ticks {
            Ticks::Same(tick) => changed.fill(*tick),
            Ticks::Each(columns) => {
                if number < columns.len() {
                    changed.copy_from_slice(columns[number].as_slice());
                }
            }
        }
    }

    /// A tick that none of the column of a number is after: the latest of them, or 0 where there are none.
    pub(crate) fn latest(&self, number: usize) -> u64
        ensures { (count : ℕ) → All (λ tick. tick ≤ result) (changed_of self.now number count) }
    {
        match &self.ticks {
            Ticks::Same(tick) => *tick,
            Ticks::Each(columns) => {
                if number < columns.len() {
                    latest_of(columns[number].as_slice())
                } else {
                    0
                }
            }
        }
    }

    /// Equal ticks, or an error where no memory was found.
    pub(crate) fn try_clone(&self) -> Result<ChangedTicks, AllocError>
        ensures { IfOk result (λ copy. copy ≡ self.now) }
    {
        match &self.ticks {
            Ticks::Same(tick) => Ok(ChangedTicks::same(*tick)),
            Ticks::Each(columns) => Ok(ChangedTicks::each(columns.clone()?)),
        }
    }
}

/// The latest of ticks, or 0 where there are none.
fn latest_of(ticks: &[u64]) -> u64
    ensures { All (λ tick. tick ≤ result) ticks.now }
{
    let mut latest: u64 = 0;
    for tick in ticks {
        latest = latest.max(*tick);
    }
    latest
}

/// Whether each tick is this one.
pub(crate) fn are_all(ticks: &[u64], tick: u64) -> bool
    ensures { result ≡ true → ticks.now ≡ replicate (length ticks.now) tick }
{
    ticks.iter().all(|other| *other == tick)
}

/// Equal ticks in a list of their own, or an error where no memory was found.
pub(crate) fn copied_ticks(alloc: Global, ticks: &[u64]) -> Result<Vec<u64>, AllocError>
    ensures { IfOk result (λ copy. copy.items ≡ ticks.now) }
{
    ticks.iter().copied().collect(alloc)
}
