//! A table, as the list of its rows.
ghost use Rattle.std.specs.Prelude.{◌≡◌, ◌+◌, ◌^◌, ◌<◌, ◌≤◌, ℕ, All, [], ◌∷◌, ◌++◌, length, map, slice_get, slice_range, vec_capacity, Some, IsTrue, ◌↔◌, IsSome, IsOk, OnOk, OnErr, IfOk, IfErr, IfSome, IfNone, true, false};
ghost use Rattle.std.specs.Option.{option_map};
ghost use Rattle.scene_kinds.specs.Cells.{HasKinds, shown};
ghost use Rattle.scene_kinds.specs.KindSet.{has_kind, set_with, set_without};
ghost use Rattle.scene_kinds.specs.declared.cells.Row.{Row};
ghost use Rattle.scene_table.specs.Rows.{swap_out, put_back};
ghost use Rattle.scene_table.specs.Columns.{cells_of};
ghost use Rattle.scene_table.specs.Since.{rows_have};
ghost use Rattle.scene_table.specs.Runs.{HoldsAt, added_in, changed_of, rows_after, rows_with_rows};
ghost use Rattle.scene_table.specs.Tables.{row_for};
ghost use Rattle.scene_table.specs.declared.run.RunColumn.{RunColumn};
ghost use Rattle.scene_table.specs.Table.{AllHave, HasRoom, cell_at, cells_of_kind, row_with_cell, row_without_cell, rows_with_cell};

use crate::changed::ChangedTicks;
use crate::column::{Column, ColumnRef};
use crate::columns::{
    clone_columns, drop_cells, have_since, make_columns, may_have, move_gaining, move_losing,
    number_for, number_of, put_columns, put_row, reserve_each, take_cells,
};
use crate::entities::move_entity;
use crate::row_cells::RowCells;
use crate::run::Run;
use crate::since::Since;
use crate::writer::ColumnWriter;
use scene_kinds::{Cell, CellRef, Cells, Entity, KindSet, KindSetMethods, Row};
use std::alloc::{AllocError, AllocFailed, Global};
use std::marker::Model;

/// The rows of one archetype: each has just the table's kinds (docs/MODEL.md, "The rule of rows"). A place
/// is the number of a row, from 0.
///
/// They stand in columns: the entities, and for each kind the values, the added ticks and the changed ticks, in the
/// order of the rows. Contracts see the kind set, the rows, and the capacity, which is for how many rows there is
/// memory in all columns.
#[derive(Debug)]
pub struct Table {
    mask: KindSet,
    entities: Vec<Entity>,
    columns: Vec<Column>,
}

impl Drop for Table {
    fn drop(self) {
        let Table {
            mask: _,
            entities: _,
            columns: _,
        } = self;
    }
}

impl Model for Table {
    ghost use Rattle.std.specs.Prelude.{vec_capacity};
    ghost use Rattle.scene_table.specs.Columns.{IsTable, rows_of, least};
    ghost use Rattle.scene_table.specs.Table.{TableState};

    ghost Value = { TableState };

    ghost view = { λ t. record { mask = t.mask; rows = rows_of t.entities.items t.columns.items; capacity = least (vec_capacity t.entities) t.columns.items } };

    ghost invariant = { λ t. IsTable t.mask t.entities.items (vec_capacity t.entities) t.columns.items };
}

impl Table {
    /// A table without rows for a kind set, in which kind k is bit k. It takes no memory.
    pub fn new(alloc: Global, mask: KindSet) -> Self
        ensures mask { result.mask ≡ mask }
        ensures rows { result.rows ≡ [] }
    {
        Table {
            mask,
            entities: Vec::new(alloc),
            columns: Vec::new(alloc),
        }
    }

    /// The kind set.
    pub fn mask(&self) -> KindSet
        ensures { result ≡ self.now.mask }
    {
        self.mask
    }

    /// How many rows there are.
    pub fn len(&self) -> usize
        ensures count { result ≡ length self.now.rows }
        ensures kinds { AllHave self.now.mask self.now.rows }
        ensures fits { length self.now.rows ≤ self.now.capacity }
    {
        self.entities.len()
    }

    /// Whether there are no rows.
    pub fn is_empty(&self) -> bool
        ensures { IsTrue result ↔ (self.now.rows ≡ []) }
    {
        self.len() == 0
    }

    /// The entities of the rows, in order.
    pub fn entities(&self) -> &[Entity]
        ensures { result.now ≡ map (λ row. row.entity) self.now.rows }
    {
        self.entities.as_slice()
    }

    /// The cells of a kind, in the order of the rows, or `None` where the table doesn't have that kind, as it has none
    /// from 64 on. Until the table first had room the lists are empty. It costs a walk over the table's kinds.
    pub fn column(&self, kind: u8) -> Option<ColumnRef<'_>>
        ensures none { IfNone result (has_kind self.now.mask kind ≡ false) }
        ensures some { IfSome result (λ column. has_kind self.now.mask kind ≡ true) }
        ensures cells { IfSome result (λ column. map (λ cell. Some cell) (cells_of column.values.now column.added.now column.changed.now)
            ≡ cells_of_kind self.now.rows kind) }
        ensures lists { IfSome result (λ column. (length column.added.now ≡ length column.values.now)
            × (length column.changed.now ≡ length column.values.now)) }
    {
        if !self.mask.contains(kind) {
            return None;
        }
        match number_of(self.columns.as_slice(), kind) {
            Some(number) => Some(self.columns[number].lent()),
            None => Some(ColumnRef {
                values: &[],
                added: &[],
                changed: &[],
            }),
        }
    }

    /// The entity of the row at a place.
    pub fn entity_at(&self, at: usize) -> Entity
        requires { at < length self.now.rows }
        ensures { option_map (λ row. row.entity) (slice_get self.now.rows at) ≡ Some result }
    {
        self.entities[at]
    }

    /// The cell of a kind in the row at a place, or `None` where the row doesn't have that kind. It costs a
    /// walk over the table's kinds.
    pub fn cell(&self, at: usize, kind: u8) -> Option<CellRef<'_>>
        requires { at < length self.now.rows }
        ensures { option_map shown result ≡ cell_at self.now.rows at kind }
    {
        match number_of(self.columns.as_slice(), kind) {
            Some(number) => Some(self.columns[number].get(at)),
            None => None,
        }
    }

    /// How many cells the row at a place has.
    pub fn cell_count(&self, at: usize) -> usize
        requires { at < length self.now.rows }
        ensures count { option_map (λ row. length row.cells) (slice_get self.now.rows at) ≡ Some result }
        ensures small { result < 2 ^ 63 }
    {
        self.columns.len()
    }

    /// The cell of a number in the row at a place, with its kind: the row's cells ascend by kind.
    pub fn nth_cell(&self, at: usize, number: usize) -> (u8, CellRef<'_>)
        requires within { at < length self.now.rows }
        requires number { (row : Row) → slice_get self.now.rows at ≡ Some row → number < length row.cells }
        ensures { (row : Row) → slice_get self.now.rows at ≡ Some row → slice_get row.cells number ≡ Some (result.0, shown result.1) }
    {
        let column = &self.columns[number];
        (column.kind(), column.get(at))
    }

    /// Whether a cell may be one of those since a tick: where this says no, none is. Where one was that was taken out
    /// or back since, as by an undo, it may say yes. It costs a walk over the table's kinds.
    pub fn may_have(&self, since: Since) -> bool
        ensures { result ≡ false → rows_have since self.now.rows ≡ false }
    {
        may_have(self.columns.as_slice(), since)
    }

    /// Whether a row from a place on, and before another, has a cell that is one of those since a tick. It costs a
    /// comparison for each of these rows, in the columns that may have such a cell.
    pub fn has_since(&self, from: usize, to: usize, since: Since) -> bool
        requires { (from ≤ to) × (to ≤ length self.now.rows) }
        ensures { result ≡ rows_have since (slice_range self.now.rows from to) }
    {
        have_since(self.columns.as_slice(), from, to, since)
    }

    /// Makes room for this many more rows, in all columns.
    ///
    /// It fails only where that room isn't there yet and no memory was found. Whether it succeeds or not, the
    /// rows stay. It may cost a move of all rows.
    pub fn reserve(&mut self, additional: usize) -> Result<(), AllocError>
        ensures mask { self.new.mask ≡ self.old.mask }
        ensures rows { self.new.rows ≡ self.old.rows }
        ensures room { OnOk result (length self.new.rows + additional ≤ self.new.capacity) }
        ensures there { length self.old.rows + additional ≤ self.old.capacity → IsOk result }
        ensures wide { self.old.capacity ≤ self.new.capacity }
    {
        let capacity = self.entities.capacity();
        if additional == 0 {
            return Ok(());
        }
        let kinds = self.mask;
        make_columns(
            *self.entities.allocator(),
            kinds,
            &mut self.columns,
            capacity,
        )?;
        reserve_each(&mut self.columns, additional)?;
        self.entities.reserve(additional)
    }

    /// Puts a row last, which must have just the table's kinds.
    ///
    /// Where no memory was found it gives the row back, and all rows stay. It fails only where there was no room.
    pub fn push_row(&mut self, row: Row) -> Result<(), AllocFailed<Row>>
        requires fits { HasKinds self.old.mask row }
        ensures mask { self.new.mask ≡ self.old.mask }
        ensures ok { OnOk result (self.new.rows ≡ self.old.rows ++ row ∷ []) }
        ensures err { OnErr result (self.new.rows ≡ self.old.rows) }
        ensures back { IfErr result (λ refused. refused.value ≡ row) }
        ensures there { HasRoom self.old → IsOk result }
        ensures wide { self.old.capacity ≤ self.new.capacity }
    {
        if self.reserve(1).is_err() {
            return Err(AllocFailed { value: row });
        }
        self.push_row_reserved(row);
        Ok(())
    }

    /// Puts a row last. It takes no memory, since there must be room for it, and the row must have just the
    /// table's kinds.
    pub fn push_row_reserved(&mut self, row: Row)
        requires fits { HasKinds self.old.mask row }
        requires room { HasRoom self.old }
        ensures mask { self.new.mask ≡ self.old.mask }
        ensures rows { self.new.rows ≡ self.old.rows ++ row ∷ [] }
        ensures capacity { self.new.capacity ≡ self.old.capacity }
    {
        let last = self.entities.len();
        let Row { entity, cells } = row;
        self.unswap_reserved(last, entity, RowCells::own(cells));
    }

    /// Takes out the row at a place, and gives it. The last row takes its place, and the room of the row stays behind.
    ///
    /// It takes memory for the list of the row's cells. Where none was found all stays as it was.
    pub fn swap_remove(&mut self, at: usize) -> Result<Row, AllocError>
        requires { at < length self.old.rows }
        ensures mask { self.new.mask ≡ self.old.mask }
        ensures row { IfOk result (λ row. slice_get self.old.rows at ≡ Some row) }
        ensures fits { IfOk result (HasKinds self.old.mask) }
        ensures ok { OnOk result (self.new.rows ≡ swap_out self.old.rows at) }
        ensures err { OnErr result (self.new.rows ≡ self.old.rows) }
        ensures capacity { self.new.capacity ≡ self.old.capacity }
        ensures behind { OnOk result (HasRoom self.new) }
    {
        let room = Vec::with_capacity(*self.entities.allocator(), self.columns.len())?;
        Ok(self.swap_remove_into(at, room))
    }

    /// Takes out the row at a place, and gives it, its cells in an empty list that has room for them. The last row
    /// takes its place. It takes no memory, and leaves the room of the row behind.
    pub fn swap_remove_into(&mut self, at: usize, room: Vec<(u8, Cell)>) -> Row
        requires within { at < length self.old.rows }
        requires empty { room.items ≡ [] }
        requires room { (row : Row) → slice_get self.old.rows at ≡ Some row → length row.cells ≤ vec_capacity room }
        ensures mask { self.new.mask ≡ self.old.mask }
        ensures row { slice_get self.old.rows at ≡ Some result }
        ensures fits { HasKinds self.old.mask result }
        ensures rows { self.new.rows ≡ swap_out self.old.rows at }
        ensures capacity { self.new.capacity ≡ self.old.capacity }
        ensures behind { HasRoom self.new }
    {
        let cells = take_cells(&mut self.columns, at, room);
        Row {
            entity: self.entities.swap_remove(at),
            cells: Cells::from_vec(cells),
        }
    }

    /// Drops the row at a place. The last row takes its place. It takes no memory, and leaves the room of
    /// the row behind.
    pub fn drop_row(&mut self, at: usize)
        requires { at < length self.old.rows }
        ensures mask { self.new.mask ≡ self.old.mask }
        ensures rows { self.new.rows ≡ swap_out self.old.rows at }
        ensures capacity { self.new.capacity ≡ self.old.capacity }
        ensures behind { HasRoom self.new }
    {
        drop_cells(&mut self.columns, at);
        self.entities.swap_remove(at);
    }

    /// Puts a row at a place, and the row that stood there last; at the place behind the last it goes there. It takes
    /// back what `swap_remove` did at that place. The row must have just the table's kinds.
    ///
    /// Where no memory was found it gives the row back, and all rows stay. It fails only where there was no room.
    pub fn unswap(&mut self, at: usize, row: Row) -> Result<(), AllocFailed<Row>>
        requires within { at ≤ length self.old.rows }
        requires fits { HasKinds self.old.mask row }
        ensures mask { self.new.mask ≡ self.old.mask }
        ensures ok { OnOk result (self.new.rows ≡ put_back self.old.rows at row) }
        ensures err { OnErr result (self.new.rows ≡ self.old.rows) }
        ensures back { IfErr result (λ refused. refused.value ≡ row) }
        ensures there { HasRoom self.old → IsOk result }
        ensures wide { self.old.capacity ≤ self.new.capacity }
    {
        if self.reserve(1).is_err() {
            return Err(AllocFailed { value: row });
        }
        let Row { entity, cells } = row;
        self.unswap_reserved(at, entity, RowCells::own(cells));
        Ok(())
    }

    /// Puts a row at a place, and the row that stood there last, as `unswap` does. It takes no memory, since there must
    /// be room for the row.
    pub fn unswap_reserved(&mut self, at: usize, entity: Entity, cells: RowCells<'_>)
        requires within { at ≤ length self.old.rows }
        requires fits { HasKinds self.old.mask (row_for entity cells) }
        requires room { HasRoom self.old }
        ensures mask { self.new.mask ≡ self.old.mask }
        ensures rows { self.new.rows ≡ put_back self.old.rows at (row_for entity cells.entry) }
        ensures capacity { self.new.capacity ≡ self.old.capacity }
    {
        put_row(&mut self.columns, at, cells);
        let last = self.entities.len();
        self.entities.push_reserved(entity);
        self.entities.swap(at, last);
    }

    /// Puts a cell in place of that of a kind in the row at a place, and gives the old one. The row must
    /// have that kind. It takes no memory, and costs a walk over the table's kinds.
    pub fn set_cell(&mut self, at: usize, kind: u8, cell: Cell) -> Cell
        requires within { at < length self.old.rows }
        requires there { IsSome (cell_at self.old.rows at kind) }
        ensures mask { self.new.mask ≡ self.old.mask }
        ensures old { cell_at self.old.rows at kind ≡ Some result }
        ensures rows { self.new.rows ≡ rows_with_cell self.old.rows at kind cell }
        ensures capacity { self.new.capacity ≡ self.old.capacity }
    {
        match number_of(self.columns.as_slice(), kind) {
            Some(number) => self.columns[number].set(at, cell),
            None => unreachable!(),
        }
    }

    /// Writes the cells of a run after so many of its turns, with these changed ticks, its values by a writer. The rows
    /// must be those of the run. It takes no memory, and costs a walk over the cells of the run.
    pub fn put_run<W: ColumnWriter>(
        &mut self,
        writer: &W,
        run: &Run,
        turns: i64,
        changed: &ChangedTicks,
    )
        requires mask { run.now.mask ≡ self.old.mask }
        requires rows { run.now.entities ≡ map (λ row. row.entity) self.old.rows }
        requires holds { HoldsAt run.now turns }
        requires ticks { (number : ℕ) (c : RunColumn) → slice_get run.now.columns number ≡ Some c
            → length (changed_of changed.now number (length self.old.rows)) ≡ length self.old.rows }
        requires added { All (λ c. added_in self.old.rows c.kind ≡ map (λ tick. Some tick) c.added.items) run.now.columns }
        ensures mask { self.new.mask ≡ self.old.mask }
        ensures rows { self.new.rows ≡ rows_with_rows self.old.rows (rows_after run.now turns changed.now) }
        ensures capacity { self.new.capacity ≡ self.old.capacity }
    {
        put_columns(writer, &mut self.columns, run.columns(), turns, changed);
    }

    /// Moves the row at a place to a place of the table that has one kind more, with a cell of that kind
    /// (docs/MODEL.md, "The rule of moves"). Its other cells go with it, ticks included.
    ///
    /// Here the last row takes its place. There the row that stood at its place goes last; at the place behind the last
    /// it just goes there. It takes no memory, since there must be room in the other table, and leaves the room of the
    /// row behind. It costs a walk over the row's cells.
    pub fn move_with(&mut self, at: usize, target: &mut Table, to: usize, kind: u8, cell: Cell)
        requires within { at < length self.old.rows }
        requires place { to ≤ length target.old.rows }
        requires low { kind < 64 }
        requires lacks { has_kind self.old.mask kind ≡ false }
        requires kinds { target.old.mask ≡ set_with self.old.mask kind }
        requires room { HasRoom target.old }
        ensures mask { self.new.mask ≡ self.old.mask }
        ensures rows { self.new.rows ≡ swap_out self.old.rows at }
        ensures capacity { self.new.capacity ≡ self.old.capacity }
        ensures behind { HasRoom self.new }
        ensures target_mask { target.new.mask ≡ target.old.mask }
        ensures target_rows { (row : Row) → slice_get self.old.rows at ≡ Some row
            → target.new.rows ≡ put_back target.old.rows to (row_with_cell row kind cell) }
        ensures target_capacity { target.new.capacity ≡ target.old.capacity }
    {
        let number = number_for(self.columns.as_slice(), kind);
        move_gaining(&mut self.columns, at, &mut target.columns, to, number, cell);
        move_entity(&mut self.entities, at, &mut target.entities, to);
    }

    /// Moves the row at a place to a place of the table that has one kind less, and gives the cell of that kind
    /// (docs/MODEL.md, "The rule of moves"). It takes back what `move_with` did at those places, and the reverse.
    ///
    /// The rows of both tables change places as in `move_with`. It takes no memory, since there must be room in the
    /// other table, and leaves the room of the row behind. It costs a walk over the row's cells.
    pub fn move_without(&mut self, at: usize, target: &mut Table, to: usize, kind: u8) -> Cell
        requires within { at < length self.old.rows }
        requires place { to ≤ length target.old.rows }
        requires low { kind < 64 }
        requires has { has_kind self.old.mask kind ≡ true }
        requires kinds { target.old.mask ≡ set_without self.old.mask kind }
        requires room { HasRoom target.old }
        ensures mask { self.new.mask ≡ self.old.mask }
        ensures rows { self.new.rows ≡ swap_out self.old.rows at }
        ensures capacity { self.new.capacity ≡ self.old.capacity }
        ensures behind { HasRoom self.new }
        ensures cell { cell_at self.old.rows at kind ≡ Some result }
        ensures target_mask { target.new.mask ≡ target.old.mask }
        ensures target_rows { (row : Row) → slice_get self.old.rows at ≡ Some row
            → target.new.rows ≡ put_back target.old.rows to (row_without_cell row kind) }
        ensures target_capacity { target.new.capacity ≡ target.old.capacity }
    {
        let number = match number_of(self.columns.as_slice(), kind) {
            Some(number) => number,
            None => unreachable!(),
        };
        let cell = move_losing(&mut self.columns, at, &mut target.columns, to, number);
        move_entity(&mut self.entities, at, &mut target.entities, to);
        cell
    }

    /// A table with equal rows and kinds, or an error where no memory was found. It costs a copy of all rows.
    pub fn try_clone(&self) -> Result<Table, AllocError>
        ensures mask { IfOk result (λ copy. copy.mask ≡ self.now.mask) }
        ensures rows { IfOk result (λ copy. copy.rows ≡ self.now.rows) }
        ensures fits { IfOk result (λ copy. length copy.rows ≤ copy.capacity) }
    {
        if self.entities.is_empty() {
            return Ok(Table::new(*self.entities.allocator(), self.mask));
        }
        Ok(Table {
            mask: self.mask,
            entities: self.entities.clone()?,
            columns: clone_columns(*self.entities.allocator(), self.columns.as_slice())?,
        })
    }
}
