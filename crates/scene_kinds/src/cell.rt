//! A component or a resource as it stands in the world: a value with its ticks.
ghost use Rattle.std.specs.Prelude.{◌≡◌, true, IfOk};
ghost use Rattle.scene_kinds.specs.Cells.{new_cell, shown};
ghost use Rattle.scene_kinds.specs.Ranges.{is_in_range};

use crate::value::Value;
use std::alloc::AllocError;

/// A value with the ticks at which it was added and last changed (docs/MODEL.md, "The rule of
/// ticks").
#[derive(Drop, Clone, Debug)]
pub struct Cell {
    pub value: Value,
    pub added: u64,
    pub changed: u64,
}

impl Cell {
    /// A cell that is added now, at a tick: both its ticks are that one (docs/MODEL.md, "The rule of ticks"). Its value
    /// is in the range of its type.
    pub fn new(value: Value, tick: u64) -> Cell
        ensures cell { result ≡ new_cell tick value }
        ensures in_range { is_in_range value ≡ true }
    {
        let _shape = value.shape();
        Cell {
            value,
            added: tick,
            changed: tick,
        }
    }

    /// An equal cell, or an error where no memory was found.
    pub fn try_clone(&self) -> Result<Cell, AllocError>
        ensures { IfOk result (λ copy. copy ≡ self.now) }
    {
        self.clone()
    }
}

/// A cell that is lent: its value by reference, its ticks by copy.
#[derive(Clone, Copy, Debug)]
pub struct CellRef<'a> {
    pub value: &'a Value,
    pub added: u64,
    pub changed: u64,
}

impl<'a> CellRef<'a> {
    /// The cell that this reference shows, made anew, or an error where no memory was found.
    pub fn try_to_cell(&self) -> Result<Cell, AllocError>
        ensures { IfOk result (λ copy. copy ≡ shown self.now) }
    {
        Ok(Cell {
            value: self.value.try_clone()?,
            added: self.added,
            changed: self.changed,
        })
    }
}
