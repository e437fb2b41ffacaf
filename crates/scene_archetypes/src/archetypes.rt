//! The rows of all entities, and where each stands.
ghost use Rattle.std.specs.Prelude.{◌≡◌, ◌<◌, ◌≤◌, ℕ, suc, [], All, length, Some, OnErr, OnOk, IfOk, IfSome, IfNone, IsOk, IsSome, slice_get, false, true, vec_capacity, map as each};
ghost use Rattle.std.specs.Option.{option_map, option_flatten};
ghost use Rattle.scene_kinds.specs.Cells.{HasKinds, AreKindsBelow, mask_of, shown};
ghost use Rattle.scene_kinds.specs.KindSet.{has_kind, set_with, set_without};
ghost use Rattle.scene_kinds.specs.Lists.{whole};
ghost use Rattle.scene_kinds.specs.Map as map;
ghost use Rattle.scene_kinds.specs.declared.cells.Row.{Row};
ghost use Rattle.scene_table.specs.declared.run.RunColumn.{RunColumn};
ghost use Rattle.scene_table.specs.Runs.{HoldsAt, added_in, changed_of, rows_after, rows_with_rows};
ghost use Rattle.scene_table.specs.Table.{cell_at, row_with_cell, row_without_cell, rows_with_cell};
ghost use Rattle.scene_table.specs.Tables.{rows_at, row_at, row_for, home_in, lives, with_row_back, with_rows, without_row, masks_of};
ghost use Rattle.scene_archetypes.specs.KindTables.{IsWider, IsWithin, capacity_at};
ghost use Rattle.scene_archetypes.specs.Archetypes.{ArchetypesState, AreHomes, HoldsRows, HasRoomOf, SameHomes, homes_left, homes_come};
ghost use Rattle.scene_table.specs.Tables.{NoneOf, StandsIn};

use crate::kind_tables::KindTables;
use scene_kinds::{Cell, CellRef, Entity, KindSet, Row, set_with, set_without};
use scene_table::{ChangedTicks, ColumnWriter, Home, RowCells, Run, Table};
use std::alloc::{AllocError, Global};
use std::marker::Model;

/// The rows of all entities in the tables of their kind sets, and the home of each entity by its index, so that an
/// entity's row is found at once.
///
/// Contracts see the rows of each kind set that has some, and the room that there is.
#[derive(Debug)]
pub struct Archetypes {
    tables: KindTables,
    homes: Vec<Option<Home>>,
}

impl Drop for Archetypes {
    fn drop(self) {
        let Archetypes {
            tables: _,
            homes: _,
        } = self;
    }
}

impl Model for Archetypes {
    ghost use Rattle.std.specs.Ordering.{nat_cmp};
    ghost use Rattle.std.specs.Prelude.{length};
    ghost use Rattle.std.specs.Coded.{coded_ℕ, coded_list, coded×, codes};
    ghost use Rattle.scene_kinds.specs.contracts.cells.Row as row;
    ghost use Rattle.scene_kinds.specs.Map as map;
    ghost use Rattle.scene_archetypes.specs.Archetypes.{ArchetypesState, HoldsRows, AreHomes};

    ghost Value = { ArchetypesState };

    ghost coded = { Prim.hlevel (codes, map.code {R = nat_cmp} coded_ℕ (coded× row.the_row.coded (coded_list row.the_row.coded)), map.code {R = nat_cmp} coded_ℕ coded_ℕ) };

    ghost view = { λ a. record { tables = a.tables.tables; rooms = a.tables.rooms; homes = length a.homes.items } };

    ghost invariant = { λ a. AreHomes a.tables.tables a.homes.items };
}

/// The home that stands at an index.
fn home_at(homes: &[Option<Home>], index: u32) -> Option<Home>
    ensures { result ≡ option_flatten (slice_get homes.now index) }
{
    *homes.get(index as usize)?
}

/// Makes room for the homes of this many indices. Whether it finds memory or not, the homes stay.
fn grow_homes(homes: &mut Vec<Option<Home>>, count: usize) -> Result<(), AllocError>
    ensures same { SameHomes homes.old.items homes.new.items }
    ensures long { OnOk result (count ≤ length homes.new.items) }
    ensures there { count ≤ length homes.old.items → IsOk result }
{
    while homes.len() < count {
        homes.push(None)?;
    }
    Ok(())
}

/// An equal list of homes.
fn copy_homes(alloc: Global, homes: &[Option<Home>]) -> Result<Vec<Option<Home>>, AllocError>
    ensures { IfOk result (λ copy. copy.items ≡ homes.now) }
{
    homes.iter().copied().collect(alloc)
}

/// Writes the homes after a row left its own, to which another may have come.
fn write_left(homes: &mut Vec<Option<Home>>, gone: Entity, home: Home, came: Option<Entity>)
    requires gone { gone.index < length homes.old.items }
    requires came { IfSome came (λ e. e.index < length homes.old.items) }
    ensures { homes.new.items ≡ homes_left homes.old.items gone home came }
{
    homes[gone.index as usize] = None;
    if let Some(other) = came {
        homes[other.index as usize] = Some(home);
    }
}

/// Writes the homes after a row came to its own; the row that stood there went last, to another place.
fn write_come(
    homes: &mut Vec<Option<Home>>,
    entity: Entity,
    home: Home,
    displaced: Option<Entity>,
    last: usize,
)
    requires entity { entity.index < length homes.old.items }
    requires displaced { IfSome displaced (λ e. e.index < length homes.old.items) }
    ensures { homes.new.items ≡ homes_come homes.old.items entity home displaced last }
{
    if let Some(other) = displaced {
        homes[other.index as usize] = Some(Home {
            mask: home.mask,
            place: last,
        });
    }
    homes[entity.index as usize] = Some(home);
}

impl Archetypes {
    /// No rows. It takes no memory.
    pub fn new(alloc: Global) -> Self
        ensures { result ≡ record { tables = map.empty; rooms = map.empty; homes = 0 } }
    {
        Archetypes {
            tables: KindTables::new(alloc),
            homes: Vec::new(alloc),
        }
    }

    /// Where the row of an entity stands.
    #[inline(always)]
    pub fn find(&self, entity: Entity) -> Option<Home>
        ensures home { result ≡ home_in entity self.now.tables.entries }
        ensures stands { IfSome result (StandsIn self.now.tables entity) }
    {
        let home = home_at(self.homes.as_slice(), entity.index)?;
        let other = self.tables.entity_at(home)?;
        if other == entity { Some(home) } else { None }
    }

    /// Where the row of an entity stands that has one. It costs no look at the row.
    #[inline(always)]
    pub fn known_home(&self, entity: Entity) -> Home
        requires { lives self.now.tables entity ≡ true }
        ensures home { home_in entity self.now.tables.entries ≡ Some result }
        ensures stands { StandsIn self.now.tables entity result }
    {
        match home_at(self.homes.as_slice(), entity.index) {
            Some(home) => home,
            None => unreachable!(),
        }
    }

    /// Makes room for the homes of this many indices. It fails only where that room isn't there yet and no memory was
    /// found. The rows stay.
    #[inline(always)]
    pub fn reserve_homes(&mut self, indices: usize) -> Result<(), AllocError>
        ensures tables { self.new.tables ≡ self.old.tables }
        ensures rooms { self.new.rooms ≡ self.old.rooms }
        ensures room { OnOk result (indices ≤ self.new.homes) }
        ensures there { indices ≤ self.old.homes → IsOk result }
        ensures homes { self.old.homes ≤ self.new.homes }
    {
        grow_homes(&mut self.homes, indices)
    }

    /// Makes room for one more row of a kind set, and for the homes of this many indices. It fails only where that room
    /// isn't there yet and no memory was found. The rows stay.
    #[inline(always)]
    pub fn reserve(&mut self, mask: KindSet, indices: usize) -> Result<(), AllocError>
        ensures tables { self.new.tables ≡ self.old.tables }
        ensures room { OnOk result (HasRoomOf self.new mask indices) }
        ensures there { HasRoomOf self.old mask indices → IsOk result }
        ensures wide { IsWider self.old.rooms self.new.rooms }
        ensures homes { self.old.homes ≤ self.new.homes }
    {
        self.reserve_homes(indices)?;
        self.tables.reserve(mask)
    }

    /// Puts a row at a place of the table of its kind set, and the row that stood there last; at the place behind the
    /// last it goes there. It takes no memory, since there must be room for the row.
    #[inline(always)]
    pub fn put_back(&mut self, mask: KindSet, place: usize, entity: Entity, cells: RowCells<'_>)
        requires mask { mask ≡ mask_of cells }
        requires fits { HasKinds mask (row_for entity cells) }
        requires within { place ≤ length (rows_at self.old.tables mask) }
        requires room { HasRoomOf self.old mask (suc entity.index) }
        requires absent { NoneOf entity.index self.old.tables }
        ensures tables { self.new.tables ≡ with_row_back self.old.tables place (row_for entity cells.entry) }
        ensures rooms { self.new.rooms ≡ self.old.rooms }
        ensures homes { self.new.homes ≡ self.old.homes }
    {
        let home = Home { mask, place };
        let (displaced, last) = self.tables.put_back(mask, place, entity, cells);
        write_come(&mut self.homes, entity, home, displaced, last);
    }

    /// Drops the row of an entity, which stands at a home. The last row of its table takes its place. It takes no
    /// memory.
    #[inline(always)]
    pub fn drop_row(&mut self, entity: Entity, home: Home)
        requires { StandsIn self.old.tables entity home }
        ensures tables { self.new.tables ≡ without_row self.old.tables home }
        ensures rooms { self.new.rooms ≡ self.old.rooms }
        ensures homes { self.new.homes ≡ self.old.homes }
    {
        let came = self.tables.drop_row(home);
        write_left(&mut self.homes, entity, home, came);
    }

    /// Takes out the row of an entity, which stands at a home, and gives it. The last row of its table takes its place.
    ///
    /// It takes memory for the list of the row's cells. Where none was found all stays as it was.
    #[inline(always)]
    pub fn take_row(&mut self, entity: Entity, home: Home) -> Result<Row, AllocError>
        requires { StandsIn self.old.tables entity home }
        ensures row { IfOk result (λ row. row_at self.old.tables home ≡ Some row) }
        ensures ok { OnOk result (self.new.tables ≡ without_row self.old.tables home) }
        ensures err { OnErr result (self.new.tables ≡ self.old.tables) }
        ensures rooms { self.new.rooms ≡ self.old.rooms }
        ensures homes { self.new.homes ≡ self.old.homes }
    {
        let (row, came) = self.tables.take_row(home)?;
        write_left(&mut self.homes, entity, home, came);
        Ok(row)
    }

    /// Puts a cell in place of that of a kind in the row at a home, and gives the old one. It takes no memory.
    #[inline(always)]
    pub fn set_cell(&mut self, home: Home, kind: u8, cell: Cell) -> Cell
        requires within { IsWithin self.old.tables home }
        requires there { IsSome (cell_at (rows_at self.old.tables home.mask) home.place kind) }
        ensures old { cell_at (rows_at self.old.tables home.mask) home.place kind ≡ Some result }
        ensures tables { self.new.tables ≡ with_rows self.old.tables home.mask
            (rows_with_cell (rows_at self.old.tables home.mask) home.place kind cell) }
        ensures rooms { self.new.rooms ≡ self.old.rooms }
        ensures homes { self.new.homes ≡ self.old.homes }
    {
        self.tables.set_cell(home, kind, cell)
    }

    /// Moves the row of an entity, which stands at a home, to a place of the table of the kind set with one kind more,
    /// with a cell of that kind. The last row of its table takes its place; the row that stood at its new place goes
    /// last. It takes no memory.
    #[inline(always)]
    pub fn move_with(&mut self, entity: Entity, home: Home, place: usize, kind: u8, cell: Cell)
        requires stands { StandsIn self.old.tables entity home }
        requires kinds { (row : Row) → row_at self.old.tables home ≡ Some row → HasKinds home.mask row }
        requires low { kind < 64 }
        requires lacks { has_kind home.mask kind ≡ false }
        requires place { place ≤ length (rows_at self.old.tables (set_with home.mask kind)) }
        requires room { length (rows_at self.old.tables (set_with home.mask kind)) < capacity_at self.old.rooms (set_with home.mask kind) }
        ensures tables { (row : Row) → row_at self.old.tables home ≡ Some row
            → self.new.tables ≡ with_row_back (without_row self.old.tables home) place (row_with_cell row kind cell) }
        ensures rooms { self.new.rooms ≡ self.old.rooms }
        ensures homes { self.new.homes ≡ self.old.homes }
    {
        let target = Home {
            mask: set_with(home.mask, kind),
            place,
        };
        let moved = self.tables.move_with(home, place, kind, cell);
        write_left(&mut self.homes, entity, home, moved.came);
        write_come(&mut self.homes, entity, target, moved.displaced, moved.last);
    }

    /// Moves the row of an entity, which stands at a home, to a place of the table of the kind set with one kind less,
    /// and gives the cell of that kind. The last row of its table takes its place; the row that stood at its new place
    /// goes last. It takes no memory.
    #[inline(always)]
    pub fn move_without(&mut self, entity: Entity, home: Home, place: usize, kind: u8) -> Cell
        requires stands { StandsIn self.old.tables entity home }
        requires kinds { (row : Row) → row_at self.old.tables home ≡ Some row → HasKinds home.mask row × AreKindsBelow 64 row.cells }
        requires low { kind < 64 }
        requires has { has_kind home.mask kind ≡ true }
        requires place { place ≤ length (rows_at self.old.tables (set_without home.mask kind)) }
        requires room { length (rows_at self.old.tables (set_without home.mask kind)) < capacity_at self.old.rooms (set_without home.mask kind) }
        ensures cell { cell_at (rows_at self.old.tables home.mask) home.place kind ≡ Some result }
        ensures tables { (row : Row) → row_at self.old.tables home ≡ Some row
            → self.new.tables ≡ with_row_back (without_row self.old.tables home) place (row_without_cell row kind) }
        ensures rooms { self.new.rooms ≡ self.old.rooms }
        ensures homes { self.new.homes ≡ self.old.homes }
    {
        prove!(home.mask <= u64::MAX);
        let target = Home {
            mask: set_without(home.mask, kind),
            place,
        };
        let (cell, moved) = self.tables.move_without(home, place, kind);
        write_left(&mut self.homes, entity, home, moved.came);
        write_come(&mut self.homes, entity, target, moved.displaced, moved.last);
        cell
    }

    /// Writes the cells of a run in the table of its kind set, as `Table::put_run` does. It takes no memory.
    pub fn put_run<W: ColumnWriter>(
        &mut self,
        writer: &W,
        run: &Run,
        turns: i64,
        changed: &ChangedTicks,
    )
        requires rows { run.now.entities ≡ each (λ row. row.entity) (rows_at self.old.tables run.now.mask) }
        requires holds { HoldsAt run.now turns }
        requires ticks { (number : ℕ) (c : RunColumn) → slice_get run.now.columns number ≡ Some c
            → length (changed_of changed.now number (length run.now.entities)) ≡ length run.now.entities }
        requires added { All (λ c. added_in (rows_at self.old.tables run.now.mask) c.kind ≡ each (λ tick. Some tick) c.added.items) run.now.columns }
        ensures tables { self.new.tables ≡ with_rows self.old.tables run.now.mask
            (rows_with_rows (rows_at self.old.tables run.now.mask) (rows_after run.now turns changed.now)) }
        ensures rooms { self.new.rooms ≡ self.old.rooms }
        ensures homes { self.new.homes ≡ self.old.homes }
    {
        // A run has a cell for each of its entities, so each row stays where it stands.
        let _width = run.width();
        self.tables.put_run(writer, run, turns, changed);
    }

    /// A law of every value: its room holds the rows that there are. It does nothing.
    pub fn room_holds(&self)
        ensures { HoldsRows self.now.rooms self.now.homes self.now.tables }
    {
        self.tables.room_holds();
    }

    /// Where each entity's row stands, by the entity's index: `None` where the index is that of no row, as is each
    /// behind the last. There is a home for each index for which one can be written.
    pub fn homes(&self) -> &[Option<Home>]
        ensures are { AreHomes self.now.tables result.now }
        ensures count { length result.now ≡ self.now.homes }
    {
        self.homes.as_slice()
    }

    /// How many rows of a kind set there are.
    #[inline(always)]
    pub fn len(&self, mask: KindSet) -> usize
        ensures { result ≡ length (rows_at self.now.tables mask) }
    {
        self.tables.len(mask)
    }

    /// The table of a kind set that has rows, or `None` where it has none.
    pub fn table(&self, mask: KindSet) -> Option<&Table>
        ensures rows { option_map (λ table. table.now.rows) result ≡ option_map whole (map.get self.now.tables mask) }
        ensures mask { IfSome result (λ table. table.now.mask ≡ mask) }
    {
        self.tables.table(mask)
    }

    /// The table in which a row stands.
    pub fn table_of_row(&self, home: Home) -> &Table
        requires { IsWithin self.now.tables home }
        ensures rows { result.now.rows ≡ rows_at self.now.tables home.mask }
        ensures mask { result.now.mask ≡ home.mask }
    {
        self.tables.table_of_row(home)
    }

    /// The cell of a kind in the row at a home, or `None` where the row doesn't have that kind. It costs a walk over
    /// the table's kinds.
    pub fn cell(&self, home: Home, kind: u8) -> Option<CellRef<'_>>
        requires { IsWithin self.now.tables home }
        ensures { option_map shown result ≡ cell_at (rows_at self.now.tables home.mask) home.place kind }
    {
        self.tables.table_of_row(home).cell(home.place, kind)
    }

    /// The tables that have rows, ascending by kind set, or an error where no memory was found. It costs the number of
    /// tables times its logarithm.
    pub fn in_order(&self) -> Result<Vec<&Table>, AllocError>
        ensures masks { IfOk result (λ tables. each (λ t. t.now.mask) tables.items ≡ masks_of self.now.tables) }
        ensures rows { IfOk result (λ tables. each (λ t. t.now.rows) tables.items ≡ each (rows_at self.now.tables) (masks_of self.now.tables)) }
    {
        self.tables.in_order()
    }

    /// The kind sets that have rows, ascending, at the same cost.
    pub fn kind_sets(&self) -> Result<Vec<KindSet>, AllocError>
        ensures { IfOk result (λ sets. sets.items ≡ masks_of self.now.tables) }
    {
        self.tables.kind_sets()
    }

    /// Equal rows, with room for the homes of as many indices, or an error where no memory was found. It costs a copy
    /// of all rows.
    pub fn try_clone(&self) -> Result<Archetypes, AllocError>
        ensures tables { IfOk result (λ copy. copy.tables ≡ self.now.tables) }
        ensures homes { IfOk result (λ copy. copy.homes ≡ self.now.homes) }
    {
        let tables = self.tables.try_clone()?;
        let homes = copy_homes(*self.homes.allocator(), self.homes.as_slice())?;
        Ok(Archetypes { tables, homes })
    }
}
