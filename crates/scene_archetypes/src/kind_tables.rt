//! The tables of a world by kind set.
ghost use Rattle.std.specs.Prelude.{◌≡◌, ◌<◌, ◌≤◌, ◌^◌, ◌++◌, ◌∷◌, [], ℕ, All, length, Some, OnOk, OnErr, IfOk, IfSome, IfNone, IsOk, IsSome, slice_get, true, false, vec_capacity, map as each};
ghost use Rattle.std.specs.Option.{option_map};
ghost use Rattle.scene_kinds.specs.Cells.{HasKinds, mask_of, shown};
ghost use Rattle.scene_kinds.specs.KindSet.{has_kind, set_with, set_without};
ghost use Rattle.scene_kinds.specs.Lists.{whole};
ghost use Rattle.scene_kinds.specs.Map as map;
ghost use Rattle.scene_kinds.specs.declared.cells.Row.{Row};
ghost use Rattle.scene_table.specs.declared.run.RunColumn.{RunColumn};
ghost use Rattle.scene_table.specs.Rows.{put_back};
ghost use Rattle.scene_table.specs.Runs.{HoldsAt, added_in, changed_of, rows_after, rows_with_rows};
ghost use Rattle.scene_table.specs.Table.{TableState, cell_at, row_with_cell, row_without_cell, rows_with_cell};
ghost use Rattle.scene_table.specs.Tables.{Tables, rows_at, row_at, row_for, with_rows, with_row, without_row, masks_of};
ghost use Rattle.scene_archetypes.specs.KindTables.{TablesState, AreListed, AreMoved, AreSound, HoldRows, NoneHas, StandsAt, IsKnown, HasRoomFor, IsWider, IsWithin, entity_at, tables_of, rooms_of};

use crate::clones::clone_tables;
use crate::guesses::Guesses;
use crate::kind_sets::{kind_sets_of, tables_by_kind_set};
use crate::places::{
    Moved, drop_row, entity_in, move_with, move_without, put_row, room_for, take_row,
};
use indexmap::IndexSet;
use scene_kinds::{Cell, CellRef, Entity, KindSet, Row, set_with, set_without};
use scene_table::{ChangedTicks, ColumnWriter, Home, RowCells, Run, Table};
use std::alloc::{AllocError, Global};
use std::marker::Model;
use std::mem;

/// The tables of a world: one for each kind set that has or had rows. A table is found by its kind set at once.
///
/// Contracts see the rows of each kind set that has some, and for how many rows each table has memory. A table without
/// rows is kept with its room.
#[derive(Drop, Debug)]
pub(crate) struct KindTables {
    alloc: Global,
    kind_sets: IndexSet<KindSet>,
    guesses: Guesses,
    tables: Vec<Table>,
}

impl Model for KindTables {
    ghost use Rattle.std.specs.Ordering.{nat_cmp};
    ghost use Rattle.std.specs.Coded.{coded_ℕ, coded_list, coded×, codes};
    ghost use Rattle.scene_kinds.specs.contracts.cells.Row as row;
    ghost use Rattle.scene_kinds.specs.Map as map;
    ghost use Rattle.scene_archetypes.specs.KindTables.{TablesState, AreSound, tables_of, rooms_of};

    ghost Value = { TablesState };

    ghost coded = { Prim.hlevel (codes, map.code {R = nat_cmp} coded_ℕ (coded× row.the_row.coded (coded_list row.the_row.coded)), map.code {R = nat_cmp} coded_ℕ coded_ℕ) };

    ghost view = { λ t. record { tables = tables_of t.tables.items; rooms = rooms_of t.tables.items } };

    ghost invariant = { λ t. AreSound t.kind_sets.keys t.tables.items };
}

/// The index of the table of a kind set, by a hash.
#[cold]
#[inline(never)]
fn hashed_table(kind_sets: &IndexSet<KindSet>, tables: &[Table], mask: KindSet) -> Option<usize>
    requires { AreListed kind_sets.now.keys tables.now }
    ensures some { IfSome result (StandsAt tables.now mask) }
    ensures none { IfNone result (NoneHas mask tables.now) }
{
    prove!(tables.len() >= 0);
    kind_sets.get_index_of(&mask)
}

/// The index of the table of a kind set. It mostly costs a guess, else a hash.
#[inline(always)]
fn find_table(
    kind_sets: &IndexSet<KindSet>,
    guesses: &Guesses,
    tables: &[Table],
    mask: KindSet,
) -> Option<usize>
    requires { AreListed kind_sets.now.keys tables.now }
    ensures some { IfSome result (StandsAt tables.now mask) }
    ensures none { IfNone result (NoneHas mask tables.now) }
{
    match guesses.place_in(kind_sets.as_slice(), mask) {
        Some(at) => Some(at),
        None => hashed_table(kind_sets, tables, mask),
    }
}

/// The index of the table of a kind set that has one.
#[inline(always)]
fn known_table(
    kind_sets: &IndexSet<KindSet>,
    guesses: &Guesses,
    tables: &[Table],
    mask: KindSet,
) -> usize
    requires listed { AreListed kind_sets.now.keys tables.now }
    requires known { IsKnown (rooms_of tables.now) mask }
    ensures { StandsAt tables.now mask result }
{
    match find_table(kind_sets, guesses, tables, mask) {
        Some(at) => at,
        None => unreachable!(),
    }
}

/// Adds a table without rows.
fn add_table(
    alloc: Global,
    kind_sets: &mut IndexSet<KindSet>,
    tables: &mut Vec<Table>,
    mask: KindSet,
) -> Result<(), AllocError>
    requires sound { AreSound kind_sets.old.keys tables.old.items }
    requires absent { NoneHas mask tables.old.items }
    ensures sound { AreSound kind_sets.new.keys tables.new.items }
    ensures seen { tables_of tables.new.items ≡ tables_of tables.old.items }
    ensures wide { IsWider (rooms_of tables.old.items) (rooms_of tables.new.items) }
    ensures known { OnOk result (IsKnown (rooms_of tables.new.items) mask) }
{
    tables.reserve(1)?;
    kind_sets.insert(mask)?;
    tables.push_reserved(Table::new(alloc, mask));
    Ok(())
}

impl KindTables {
    /// No tables. It takes no memory.
    pub(crate) fn new(alloc: Global) -> Self
        ensures { result ≡ record { tables = map.empty; rooms = map.empty } }
    {
        KindTables {
            alloc,
            kind_sets: IndexSet::new(alloc),
            guesses: Guesses::new(),
            tables: Vec::new(alloc),
        }
    }

    /// Makes a table for a kind set, where there is none. It fails only where no memory was found.
    fn make_table(&mut self, mask: KindSet) -> Result<(), AllocError>
        ensures tables { self.new.tables ≡ self.old.tables }
        ensures known { OnOk result (IsKnown self.new.rooms mask) }
        ensures there { IsKnown self.old.rooms mask → IsOk result }
        ensures wide { IsWider self.old.rooms self.new.rooms }
    {
        match find_table(&self.kind_sets, &self.guesses, self.tables.as_slice(), mask) {
            Some(_) => Ok(()),
            None => {
                self.guesses.note(mask, self.tables.len());
                add_table(self.alloc, &mut self.kind_sets, &mut self.tables, mask)
            }
        }
    }

    /// Makes room for one more row of a kind set. It fails only where that room isn't there yet and no memory was
    /// found. The rows stay.
    pub(crate) fn reserve(&mut self, mask: KindSet) -> Result<(), AllocError>
        ensures tables { self.new.tables ≡ self.old.tables }
        ensures room { OnOk result (HasRoomFor self.new mask) }
        ensures there { HasRoomFor self.old mask → IsOk result }
        ensures wide { IsWider self.old.rooms self.new.rooms }
    {
        self.make_table(mask)?;
        let at = known_table(&self.kind_sets, &self.guesses, self.tables.as_slice(), mask);
        self.tables[at].reserve(1)
    }

    /// Puts a row at a place of the table of its kind set, and the row that stood there last; at the place behind the
    /// last it goes there. It gives the entity that stood there, and how many rows there were. It takes no memory, since
    /// there must be room for the row.
    #[inline(always)]
    pub(crate) fn put_back(
        &mut self,
        mask: KindSet,
        place: usize,
        entity: Entity,
        cells: RowCells<'_>,
    ) -> (Option<Entity>, usize)
        requires fits { HasKinds mask (row_for entity cells) }
        requires within { place ≤ length (rows_at self.old.tables mask) }
        requires room { HasRoomFor self.old mask }
        ensures displaced { result.0 ≡ entity_at (rows_at self.old.tables mask) place }
        ensures last { result.1 ≡ length (rows_at self.old.tables mask) }
        ensures tables { self.new.tables ≡ with_rows self.old.tables mask (put_back (rows_at self.old.tables mask) place (row_for entity cells.entry)) }
        ensures rooms { self.new.rooms ≡ self.old.rooms }
    {
        let at = known_table(&self.kind_sets, &self.guesses, self.tables.as_slice(), mask);
        put_row(&mut self.tables[at], place, entity, cells)
    }

    /// Drops the row at a home. The last row takes its place, and its entity is given, if there is one. It takes no
    /// memory.
    #[inline(always)]
    pub(crate) fn drop_row(&mut self, home: Home) -> Option<Entity>
        requires { IsWithin self.old.tables home }
        ensures came { result ≡ entity_at (rows_at self.new.tables home.mask) home.place }
        ensures tables { self.new.tables ≡ without_row self.old.tables home }
        ensures rooms { self.new.rooms ≡ self.old.rooms }
    {
        let at = known_table(
            &self.kind_sets,
            &self.guesses,
            self.tables.as_slice(),
            home.mask,
        );
        drop_row(&mut self.tables[at], home.place)
    }

    /// Takes out the row at a home, and gives it. The last row takes its place, and its entity is given, if there is one.
    ///
    /// It takes memory for the list of the row's cells. Where none was found all stays as it was.
    #[inline(always)]
    pub(crate) fn take_row(&mut self, home: Home) -> Result<(Row, Option<Entity>), AllocError>
        requires { IsWithin self.old.tables home }
        ensures row { IfOk result (λ taken. row_at self.old.tables home ≡ Some taken.0) }
        ensures came { IfOk result (λ taken. taken.1 ≡ entity_at (rows_at self.new.tables home.mask) home.place) }
        ensures ok { OnOk result (self.new.tables ≡ without_row self.old.tables home) }
        ensures err { OnErr result (self.new.tables ≡ self.old.tables) }
        ensures rooms { self.new.rooms ≡ self.old.rooms }
    {
        let at = known_table(
            &self.kind_sets,
            &self.guesses,
            self.tables.as_slice(),
            home.mask,
        );
        let room = room_for(self.alloc, &self.tables[at], home.place)?;
        Ok(take_row(&mut self.tables[at], home.place, room))
    }

    /// Puts a cell in place of that of a kind in the row at a home, and gives the old one. It takes no memory.
    #[inline(always)]
    pub(crate) fn set_cell(&mut self, home: Home, kind: u8, cell: Cell) -> Cell
        requires within { IsWithin self.old.tables home }
        requires there { IsSome (cell_at (rows_at self.old.tables home.mask) home.place kind) }
        ensures old { cell_at (rows_at self.old.tables home.mask) home.place kind ≡ Some result }
        ensures tables { self.new.tables ≡ with_rows self.old.tables home.mask
            (rows_with_cell (rows_at self.old.tables home.mask) home.place kind cell) }
        ensures rooms { self.new.rooms ≡ self.old.rooms }
    {
        let at = known_table(
            &self.kind_sets,
            &self.guesses,
            self.tables.as_slice(),
            home.mask,
        );
        self.tables[at].set_cell(home.place, kind, cell)
    }

    /// Moves the row at a home to a place of the table of the kind set with one kind more, with a cell of that kind.
    /// The last row of its table takes its place; the row that stood at its new place goes last. It takes no memory.
    #[inline(always)]
    pub(crate) fn move_with(&mut self, home: Home, place: usize, kind: u8, cell: Cell) -> Moved
        requires within { IsWithin self.old.tables home }
        requires low { kind < 64 }
        requires lacks { has_kind home.mask kind ≡ false }
        requires place { place ≤ length (rows_at self.old.tables (set_with home.mask kind)) }
        requires room { HasRoomFor self.old (set_with home.mask kind) }
        ensures moved { AreMoved (rows_at self.old.tables (set_with home.mask kind)) place (rows_at self.new.tables home.mask) home.place result }
        ensures tables { (row : Row) → row_at self.old.tables home ≡ Some row
            → self.new.tables ≡ with_rows (without_row self.old.tables home) (set_with home.mask kind)
            (put_back (rows_at self.old.tables (set_with home.mask kind)) place (row_with_cell row kind cell)) }
        ensures rooms { self.new.rooms ≡ self.old.rooms }
    {
        let from = known_table(
            &self.kind_sets,
            &self.guesses,
            self.tables.as_slice(),
            home.mask,
        );
        let to = known_table(
            &self.kind_sets,
            &self.guesses,
            self.tables.as_slice(),
            set_with(home.mask, kind),
        );
        let mut source = mem::replace(&mut self.tables[from], Table::new(self.alloc, home.mask));
        let moved = move_with(
            &mut source,
            home.place,
            &mut self.tables[to],
            place,
            kind,
            cell,
        );
        self.tables[from] = source;
        moved
    }

    /// Moves the row at a home to a place of the table of the kind set with one kind less, and gives the cell of that
    /// kind. The last row of its table takes its place; the row that stood at its new place goes last. It takes no
    /// memory.
    #[inline(always)]
    pub(crate) fn move_without(&mut self, home: Home, place: usize, kind: u8) -> (Cell, Moved)
        requires within { IsWithin self.old.tables home }
        requires low { kind < 64 }
        requires has { has_kind home.mask kind ≡ true }
        requires place { place ≤ length (rows_at self.old.tables (set_without home.mask kind)) }
        requires room { HasRoomFor self.old (set_without home.mask kind) }
        ensures cell { cell_at (rows_at self.old.tables home.mask) home.place kind ≡ Some result.0 }
        ensures moved { AreMoved (rows_at self.old.tables (set_without home.mask kind)) place (rows_at self.new.tables home.mask) home.place result.1 }
        ensures tables { (row : Row) → row_at self.old.tables home ≡ Some row
            → self.new.tables ≡ with_rows (without_row self.old.tables home) (set_without home.mask kind)
            (put_back (rows_at self.old.tables (set_without home.mask kind)) place (row_without_cell row kind)) }
        ensures rooms { self.new.rooms ≡ self.old.rooms }
    {
        prove!(home.mask <= u64::MAX);
        let from = known_table(
            &self.kind_sets,
            &self.guesses,
            self.tables.as_slice(),
            home.mask,
        );
        let to = known_table(
            &self.kind_sets,
            &self.guesses,
            self.tables.as_slice(),
            set_without(home.mask, kind),
        );
        let mut source = mem::replace(&mut self.tables[from], Table::new(self.alloc, home.mask));
        let moved = move_without(&mut source, home.place, &mut self.tables[to], place, kind);
        self.tables[from] = source;
        moved
    }

    /// Writes the cells of a run in the table of its kind set, as `Table::put_run` does. A kind set that has no table
    /// has no rows, and nothing is written. It takes no memory.
    pub(crate) fn put_run<W: ColumnWriter>(
        &mut self,
        writer: &W,
        run: &Run,
        turns: i64,
        changed: &ChangedTicks,
    )
        requires rows { run.now.entities ≡ each (λ row. row.entity) (rows_at self.old.tables run.now.mask) }
        requires holds { HoldsAt run.now turns }
        requires ticks { (number : ℕ) (c : RunColumn) → slice_get run.now.columns number ≡ Some c
            → length (changed_of changed.now number (length run.now.entities)) ≡ length run.now.entities }
        requires added { All (λ c. added_in (rows_at self.old.tables run.now.mask) c.kind ≡ each (λ tick. Some tick) c.added.items) run.now.columns }
        ensures tables { self.new.tables ≡ with_rows self.old.tables run.now.mask
            (rows_with_rows (rows_at self.old.tables run.now.mask) (rows_after run.now turns changed.now)) }
        ensures rooms { self.new.rooms ≡ self.old.rooms }
    {
        let Some(at) = find_table(
            &self.kind_sets,
            &self.guesses,
            self.tables.as_slice(),
            run.mask(),
        ) else {
            return;
        };
        self.tables[at].put_run(writer, run, turns, changed);
    }

    /// A law of every value: each kind set has memory for the rows that it has. It does nothing.
    pub(crate) fn room_holds(&self)
        ensures { HoldRows self.now.rooms self.now.tables }
    {
        let _tables = &self.tables;
    }

    /// How many rows of a kind set there are.
    #[inline(always)]
    pub(crate) fn len(&self, mask: KindSet) -> usize
        ensures { result ≡ length (rows_at self.now.tables mask) }
    {
        match find_table(&self.kind_sets, &self.guesses, self.tables.as_slice(), mask) {
            Some(at) => self.tables[at].len(),
            None => 0,
        }
    }

    /// The entity whose row stands at a home, or `None` where no row does.
    #[inline(always)]
    pub(crate) fn entity_at(&self, home: Home) -> Option<Entity>
        ensures { result ≡ option_map (λ row. row.entity) (row_at self.now.tables home) }
    {
        let at = find_table(
            &self.kind_sets,
            &self.guesses,
            self.tables.as_slice(),
            home.mask,
        )?;
        entity_in(self.tables[at].entities(), home.place)
    }

    /// The table of a kind set that has rows, or `None` where it has none.
    pub(crate) fn table(&self, mask: KindSet) -> Option<&Table>
        ensures rows { option_map (λ table. table.now.rows) result ≡ option_map whole (map.get self.now.tables mask) }
        ensures mask { IfSome result (λ table. table.now.mask ≡ mask) }
    {
        let at = find_table(&self.kind_sets, &self.guesses, self.tables.as_slice(), mask)?;
        let table = &self.tables[at];
        if table.is_empty() { None } else { Some(table) }
    }

    /// The table in which a row stands.
    pub(crate) fn table_of_row(&self, home: Home) -> &Table
        requires { IsWithin self.now.tables home }
        ensures rows { result.now.rows ≡ rows_at self.now.tables home.mask }
        ensures mask { result.now.mask ≡ home.mask }
    {
        let at = known_table(
            &self.kind_sets,
            &self.guesses,
            self.tables.as_slice(),
            home.mask,
        );
        &self.tables[at]
    }

    /// The tables that have rows, ascending by kind set, or an error where no memory was found. It costs the number of
    /// tables times its logarithm.
    pub(crate) fn in_order(&self) -> Result<Vec<&Table>, AllocError>
        ensures masks { IfOk result (λ tables. each (λ t. t.now.mask) tables.items ≡ masks_of self.now.tables) }
        ensures rows { IfOk result (λ tables. each (λ t. t.now.rows) tables.items ≡ each (rows_at self.now.tables) (masks_of self.now.tables)) }
    {
        tables_by_kind_set(self.alloc, self.tables.as_slice())
    }

    /// The kind sets that have rows, ascending, at the same cost.
    pub(crate) fn kind_sets(&self) -> Result<Vec<KindSet>, AllocError>
        ensures { IfOk result (λ sets. sets.items ≡ masks_of self.now.tables) }
    {
        kind_sets_of(self.alloc, self.tables.as_slice())
    }

    /// Tables with equal rows, or an error where no memory was found. It costs a copy of all rows.
    pub(crate) fn try_clone(&self) -> Result<KindTables, AllocError>
        ensures { IfOk result (λ copy. copy.tables ≡ self.now.tables) }
    {
        Ok(KindTables {
            alloc: self.alloc,
            kind_sets: self.kind_sets.clone()?,
            guesses: self.guesses,
            tables: clone_tables(self.alloc, self.tables.as_slice())?,
        })
    }
}
