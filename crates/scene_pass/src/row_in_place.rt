//! A row, read in its table.
ghost use Rattle.std.specs.Prelude.{◌≡◌, ◌<◌, Some, option_map, length, slice_get};
ghost use Rattle.std.specs.Ordering.{nat_cmp};
ghost use Rattle.std.specs.FinMap.Entries.{find};
ghost use Rattle.scene_kinds.specs.Cells.{IsAscending};
ghost use Rattle.scene_pass.specs.Changes.{values_of};

use scene_kinds::{Entity, Value};
use scene_table::Table;
use std::marker::Model;

/// The row at a place of a table. Its cells are read where they stand, and none is copied. Contracts see the row.
#[derive(Drop)]
pub(crate) struct RowInPlace<'a> {
    table: &'a Table,
    at: usize,
}

impl<'a> Model for RowInPlace<'a> {
    ghost use Rattle.scene_kinds.specs.declared.cells.Row.{Row};
    ghost use Rattle.scene_pass.specs.InPlace.{row_in, StandsIn};

    ghost Value = { Row };

    ghost view = { λ r. row_in r.table.now.rows r.at };

    ghost invariant = { λ r. StandsIn r.table.now.rows r.at };
}

impl<'a> RowInPlace<'a> {
    /// The row at a place of a table.
    pub(crate) fn new(table: &'a Table, at: usize) -> RowInPlace<'a>
        requires { at < length table.now.rows }
        ensures { slice_get table.now.rows at ≡ Some result }
    {
        prove!(at < table.len());
        RowInPlace { table, at }
    }

    /// The row's entity. And the row's kinds ascend.
    pub(crate) fn entity(&self) -> Entity
        ensures entity { result ≡ self.now.entity }
        ensures ascending { IsAscending self.now.cells }
    {
        self.table.entity_at(self.at)
    }

    /// How many cells the row has.
    pub(crate) fn len(&self) -> usize
        ensures { result ≡ length (values_of self.now) }
    {
        self.table.cell_count(self.at)
    }

    /// The value of a number, with its kind: the row's cells ascend by kind.
    pub(crate) fn nth(&self, number: usize) -> (u8, &Value)
        requires { number < length (values_of self.now) }
        ensures { slice_get (values_of self.now) number ≡ Some (result.0, result.1.now) }
    {
        let (kind, cell) = self.table.nth_cell(self.at, number);
        (kind, cell.value)
    }

    /// The value of a kind, or `None` where the row doesn't have it. It costs a walk over the table's kinds.
    pub(crate) fn value(&self, kind: u8) -> Option<&Value>
        ensures { option_map (λ v. v.now) result ≡ find nat_cmp kind (values_of self.now) }
    {
        match self.table.cell(self.at, kind) {
            Some(cell) => Some(cell.value),
            None => None,
        }
    }
}
