//! The raw changes of a world: those of which the commands are made, and those that take them back.
//! `World` has them in `world/raw`, each with the contract that stands here.
ghost use Rattle.std.specs.Prelude.{◌≡◌, ◌<◌, [], true, Some, IsSome, IfOk, OnOk, OnErr, IsOk};
ghost use Rattle.std.specs.Thread.{IsSync};
ghost use Rattle.scene_kinds.specs.Cells.{cell_of};
ghost use Rattle.scene_links.specs.Forest.{children_of, link_in};
ghost use Rattle.scene_resources.specs.Resources.{cell_of as cell_at_name};
ghost use Rattle.scene_model.specs.World.{is_live};
ghost use Rattle.scene_model.specs.Raw.{cells_of, put_row, drop_last, cut_row, uncut_row, shift_row, unshift_row, set_cell, set_link, set_resource, set_tick};
ghost use Rattle.scene_model.specs.Can.{can_put, can_drop, can_uncut, can_move, can_unshift, is_good_cell, can_set_link, can_set_resource, can_set_tick};
ghost use Rattle.scene_model.specs.RunRaw.{CanPutRun, with_run};
ghost use Rattle.scene_world.specs.Despawned.{IsDespawnOf};
ghost use Rattle.scene_world.specs.Room.{Housed, Holds, IsWider};

use crate::world::DespawnedRow;
use scene_kinds::{Cell, Entity};
use scene_table::{ChangedTicks, ColumnWriter, RowCells, Run};
use std::alloc::AllocError;

/// The raw changes of a world (docs/MODEL.md, "Raw changes"). They are for scene_journal, and for whoever takes deltas
/// back: a tool calls the commands of `World`, and never needs this trait.
///
/// A raw change has no refusals. It has a condition, which the caller has to meet. A call that ends in `_reserved`
/// takes no memory, since it asks for the room that its `reserve_` call makes; the call without that ending does both.
pub trait RawChanges {
    // The world with its room.
    ghost whole: { Self → Housed };

    /// Takes the next slot, which is an entity's, and puts its row with these cells last in the table of their kinds
    /// (docs/MODEL.md, "Raw changes"). It takes no memory, since the room must hold the world after it. `fresh` says
    /// that the slot is a new one.
    fn put_row_reserved(&mut self, entity: Entity, cells: RowCells<'_>, fresh: bool)
        requires can { can_put (whole self.old).world entity cells fresh ≡ true }
        requires room { Holds (whole self.old).room (put_row (whole self.old).world entity cells) }
        ensures world { (whole self.new).world ≡ put_row (whole self.old).world entity cells.entry }
        ensures room { (whole self.new).room ≡ (whole self.old).room };

    /// Drops the last row of a table, which is an entity's, and gives its slot back: a fresh one goes, another is the
    /// last free one again (docs/MODEL.md, "Raw changes"). It takes no memory.
    fn drop_last(&mut self, entity: Entity, fresh: bool)
        requires { can_drop (whole self.old).world entity (cells_of (whole self.old).world entity) fresh ≡ true }
        ensures world { (whole self.new).world ≡ drop_last (whole self.old).world entity fresh }
        ensures room { (whole self.new).room ≡ (whole self.old).room };

    /// Makes its room, and then does what `put_row_reserved` does (docs/MODEL.md, "Raw changes").
    ///
    /// It fails only where that room isn't there and no memory was found: then the world is as it was, and the cells
    /// are dropped.
    fn put_row(
        &mut self,
        entity: Entity,
        cells: RowCells<'_>,
        fresh: bool,
    ) -> Result<(), AllocError>
        requires { can_put (whole self.old).world entity cells fresh ≡ true }
        ensures done { OnOk result ((whole self.new).world ≡ put_row (whole self.old).world entity cells.entry) }
        ensures full { OnErr result ((whole self.new).world ≡ (whole self.old).world) }
        ensures there { Holds (whole self.old).room (put_row (whole self.old).world entity cells.entry) → IsOk result }
        ensures wide { IsWider (whole self.old).room (whole self.new).room };

    /// Takes a live entity without children out of the world, as a despawn does (docs/MODEL.md, "Raw changes"). It
    /// takes no memory.
    fn cut_row(&mut self, entity: Entity)
        requires live { is_live (whole self.old).world entity ≡ true }
        requires childless { children_of (whole self.old).world.children entity ≡ [] }
        ensures world { (whole self.new).world ≡ cut_row (whole self.old).world entity }
        ensures room { (whole self.new).room ≡ (whole self.old).room };

    /// Takes a live entity without children out of the world, as `cut_row` does, and gives what a record has of a
    /// despawn: the cells move out of the table (docs/MODEL.md, "Raw changes").
    ///
    /// It fails only where no memory was found for the list of the cells: then the world is as it was.
    fn cut_row_kept(&mut self, entity: Entity) -> Result<DespawnedRow, AllocError>
        requires live { is_live (whole self.old).world entity ≡ true }
        requires childless { children_of (whole self.old).world.children entity ≡ [] }
        ensures done { OnOk result ((whole self.new).world ≡ cut_row (whole self.old).world entity) }
        ensures row { IfOk result (λ d. IsDespawnOf (whole self.old).world entity d.place d.cells d.link d.retired) }
        ensures full { OnErr result ((whole self.new).world ≡ (whole self.old).world) }
        ensures room { (whole self.new).room ≡ (whole self.old).room };

    /// Brings an entity back: its slot, its row with these cells to its place, and its link (docs/MODEL.md, "Raw
    /// changes"). It takes no memory, since the room must hold the world after it. `retired` says that its index was
    /// retired when it left.
    fn uncut_row_reserved(
        &mut self,
        entity: Entity,
        place: usize,
        cells: RowCells<'_>,
        link: Option<(Entity, usize)>,
        retired: bool,
    )
        requires can { can_uncut (whole self.old).world entity place cells link retired ≡ true }
        requires room { Holds (whole self.old).room (uncut_row (whole self.old).world entity place cells link retired) }
        ensures world { (whole self.new).world ≡ uncut_row (whole self.old).world entity place cells.entry link retired }
        ensures room { (whole self.new).room ≡ (whole self.old).room };

    /// Makes its room, and then does what `uncut_row_reserved` does (docs/MODEL.md, "Raw changes").
    ///
    /// It fails only where that room isn't there and no memory was found: then the world is as it was, and the cells
    /// are dropped.
    fn uncut_row(
        &mut self,
        entity: Entity,
        place: usize,
        cells: RowCells<'_>,
        link: Option<(Entity, usize)>,
        retired: bool,
    ) -> Result<(), AllocError>
        requires { can_uncut (whole self.old).world entity place cells link retired ≡ true }
        ensures done { OnOk result ((whole self.new).world ≡ uncut_row (whole self.old).world entity place cells.entry link retired) }
        ensures full { OnErr result ((whole self.new).world ≡ (whole self.old).world) }
        ensures there { Holds (whole self.old).room (uncut_row (whole self.old).world entity place cells.entry link retired) → IsOk result }
        ensures wide { IsWider (whole self.old).room (whole self.new).room };

    /// Moves a live entity's row, last, to the table with one kind more, with this cell, or, not `inward`, to the one
    /// without the kind, whose cell is this one (docs/MODEL.md, "Raw changes"). It takes no memory, since the room must
    /// hold the world after it.
    fn shift_row_reserved(&mut self, entity: Entity, kind: u8, cell: Cell, inward: bool)
        requires live { is_live (whole self.old).world entity ≡ true }
        requires low { kind < 64 }
        requires moves { can_move (whole self.old).world (cells_of (whole self.old).world entity) kind cell inward ≡ true }
        requires room { Holds (whole self.old).room (shift_row (whole self.old).world entity kind cell inward) }
        ensures world { (whole self.new).world ≡ shift_row (whole self.old).world entity kind cell inward }
        ensures room { (whole self.new).room ≡ (whole self.old).room };

    /// Moves the last row of a table, which is an entity's, back to a place of the table without the kind, or, not
    /// `inward`, with it and this cell (docs/MODEL.md, "Raw changes"). It takes no memory, since the room must hold the
    /// world after it.
    fn unshift_row_reserved(
        &mut self,
        entity: Entity,
        place: usize,
        kind: u8,
        cell: Cell,
        inward: bool,
    )
        requires can { can_unshift (whole self.old).world entity place kind cell inward ≡ true }
        requires low { kind < 64 }
        requires room { Holds (whole self.old).room (unshift_row (whole self.old).world entity place kind cell inward) }
        ensures world { (whole self.new).world ≡ unshift_row (whole self.old).world entity place kind cell inward }
        ensures room { (whole self.new).room ≡ (whole self.old).room };

    /// Makes its room, and then does what `shift_row_reserved` does (docs/MODEL.md, "Raw changes").
    ///
    /// It fails only where that room isn't there and no memory was found: then the world is as it was, and the cell is
    /// dropped.
    fn shift_row(
        &mut self,
        entity: Entity,
        kind: u8,
        cell: Cell,
        inward: bool,
    ) -> Result<(), AllocError>
        requires live { is_live (whole self.old).world entity ≡ true }
        requires low { kind < 64 }
        requires moves { can_move (whole self.old).world (cells_of (whole self.old).world entity) kind cell inward ≡ true }
        ensures done { OnOk result ((whole self.new).world ≡ shift_row (whole self.old).world entity kind cell inward) }
        ensures full { OnErr result ((whole self.new).world ≡ (whole self.old).world) }
        ensures there { Holds (whole self.old).room (shift_row (whole self.old).world entity kind cell inward) → IsOk result }
        ensures wide { IsWider (whole self.old).room (whole self.new).room };

    /// Makes its room, and then does what `unshift_row_reserved` does (docs/MODEL.md, "Raw changes").
    ///
    /// It fails only where that room isn't there and no memory was found: then the world is as it was, and the cell is
    /// dropped.
    fn unshift_row(
        &mut self,
        entity: Entity,
        place: usize,
        kind: u8,
        cell: Cell,
        inward: bool,
    ) -> Result<(), AllocError>
        requires can { can_unshift (whole self.old).world entity place kind cell inward ≡ true }
        requires low { kind < 64 }
        ensures done { OnOk result ((whole self.new).world ≡ unshift_row (whole self.old).world entity place kind cell inward) }
        ensures full { OnErr result ((whole self.new).world ≡ (whole self.old).world) }
        ensures there { Holds (whole self.old).room (unshift_row (whole self.old).world entity place kind cell inward) → IsOk result }
        ensures wide { IsWider (whole self.old).room (whole self.new).room };

    /// Puts a cell, with its ticks, in place of the one of a kind that an entity has, and gives the old one
    /// (docs/MODEL.md, "Raw changes"). It takes no memory.
    fn set_cell(&mut self, entity: Entity, kind: u8, cell: Cell) -> Cell
        requires there { IsSome (cell_of (cells_of (whole self.old).world entity) kind) }
        requires good { is_good_cell (whole self.old).world kind cell ≡ true }
        ensures old { cell_of (cells_of (whole self.old).world entity) kind ≡ Some result }
        ensures world { (whole self.new).world ≡ set_cell (whole self.old).world entity kind cell }
        ensures room { (whole self.new).room ≡ (whole self.old).room };

    /// Writes the cells of a run after so many of its turns, with these changed ticks: all at once what `set_cell` would
    /// write one after another (docs/MODEL.md, "Raw changes"). The rows of the table must be those of the run. It takes
    /// no memory.
    fn put_run<W: ColumnWriter>(
        &mut self,
        writer: &W,
        run: &Run,
        turns: i64,
        changed: &ChangedTicks,
    )
        requires sync { IsSync W.Runtime.row }
        requires can { CanPutRun (whole self.old).world run.now turns changed.now }
        ensures world { (whole self.new).world ≡ with_run (whole self.old).world run.now turns changed.now }
        ensures room { (whole self.new).room ≡ (whole self.old).room };

    /// Takes a live entity out of its parent's list, if it stands in one, and puts it at a place of another's, or
    /// leaves it without a parent (docs/MODEL.md, "Raw changes"). The place is that in the list without the entity. It
    /// takes no memory, since the room must hold the world after it.
    fn set_link_reserved(&mut self, entity: Entity, link: Option<(Entity, usize)>)
        requires can { can_set_link (whole self.old).world entity (link_in (whole self.old).world.children entity) link ≡ true }
        requires room { Holds (whole self.old).room (set_link (whole self.old).world entity link) }
        ensures world { (whole self.new).world ≡ set_link (whole self.old).world entity link }
        ensures room { (whole self.new).room ≡ (whole self.old).room };

    /// Makes its room, and then does what `set_link_reserved` does (docs/MODEL.md, "Raw changes").
    ///
    /// It fails only where that room isn't there and no memory was found: then the world is as it was.
    fn set_link(&mut self, entity: Entity, link: Option<(Entity, usize)>) -> Result<(), AllocError>
        requires { can_set_link (whole self.old).world entity (link_in (whole self.old).world.children entity) link ≡ true }
        ensures done { OnOk result ((whole self.new).world ≡ set_link (whole self.old).world entity link) }
        ensures full { OnErr result ((whole self.new).world ≡ (whole self.old).world) }
        ensures there { Holds (whole self.old).room (set_link (whole self.old).world entity link) → IsOk result }
        ensures wide { IsWider (whole self.old).room (whole self.new).room };

    /// Gives a name this cell, with its ticks, or none, and gives the one that it had (docs/MODEL.md, "Raw changes").
    /// It takes no memory, since the room must hold the world after it.
    fn set_resource_reserved(&mut self, name: &str, cell: Option<Cell>) -> Option<Cell>
        requires can { can_set_resource (whole self.old).world name.now (cell_at_name (whole self.old).world.resources name.now) cell ≡ true }
        requires room { Holds (whole self.old).room (set_resource (whole self.old).world name.now cell) }
        ensures old { result ≡ cell_at_name (whole self.old).world.resources name.now }
        ensures world { (whole self.new).world ≡ set_resource (whole self.old).world name.now cell }
        ensures room { (whole self.new).room ≡ (whole self.old).room };

    /// Makes its room, and then does what `set_resource_reserved` does (docs/MODEL.md, "Raw changes"); no cell takes
    /// none.
    ///
    /// It fails only where that room isn't there and no memory was found: then the world is as it was, and the cell is
    /// dropped.
    fn set_resource(&mut self, name: &str, cell: Option<Cell>) -> Result<Option<Cell>, AllocError>
        requires { can_set_resource (whole self.old).world name.now (cell_at_name (whole self.old).world.resources name.now) cell ≡ true }
        ensures old { IfOk result (λ old. old ≡ cell_at_name (whole self.old).world.resources name.now) }
        ensures done { OnOk result ((whole self.new).world ≡ set_resource (whole self.old).world name.now cell) }
        ensures full { OnErr result ((whole self.new).world ≡ (whole self.old).world) }
        ensures there { Holds (whole self.old).room (set_resource (whole self.old).world name.now cell) → IsOk result }
        ensures wide { IsWider (whole self.old).room (whole self.new).room };

    /// Sets the tick, as taking a frame back does. No cell may have been changed later than it (docs/MODEL.md, "Raw
    /// changes"). It takes no memory.
    fn set_tick(&mut self, tick: u64)
        requires { can_set_tick (whole self.old).world tick ≡ true }
        ensures world { (whole self.new).world ≡ set_tick (whole self.old).world tick }
        ensures room { (whole self.new).room ≡ (whole self.old).room };

    /// A law of every value: its room holds its world. It does nothing.
    fn room_holds(&self)
        ensures { Holds (whole self.now).room (whole self.now).world };

    /// Makes the room that `put_row_reserved` needs (docs/MODEL.md, "Raw changes").
    ///
    /// It fails only where that room isn't there and no memory was found. Whether it does or not, the world stays, and
    /// no room is lost.
    fn reserve_put_row(
        &mut self,
        entity: Entity,
        cells: &RowCells<'_>,
        fresh: bool,
    ) -> Result<(), AllocError>
        requires { can_put (whole self.old).world entity cells.now fresh ≡ true }
        ensures world { (whole self.new).world ≡ (whole self.old).world }
        ensures room { OnOk result (Holds (whole self.new).room (put_row (whole self.old).world entity cells.now)) }
        ensures there { Holds (whole self.old).room (put_row (whole self.old).world entity cells.now) → IsOk result }
        ensures wide { IsWider (whole self.old).room (whole self.new).room };

    /// Makes the room that `uncut_row_reserved` needs (docs/MODEL.md, "Raw changes"), as `reserve_put_row` does.
    fn reserve_uncut_row(
        &mut self,
        entity: Entity,
        place: usize,
        cells: &RowCells<'_>,
        link: Option<(Entity, usize)>,
        retired: bool,
    ) -> Result<(), AllocError>
        requires { can_uncut (whole self.old).world entity place cells.now link retired ≡ true }
        ensures world { (whole self.new).world ≡ (whole self.old).world }
        ensures room { OnOk result (Holds (whole self.new).room (uncut_row (whole self.old).world entity place cells.now link retired)) }
        ensures there { Holds (whole self.old).room (uncut_row (whole self.old).world entity place cells.now link retired) → IsOk result }
        ensures wide { IsWider (whole self.old).room (whole self.new).room };

    /// Makes the room that `shift_row_reserved` needs (docs/MODEL.md, "Raw changes"), as `reserve_put_row` does.
    fn reserve_shift_row(
        &mut self,
        entity: Entity,
        kind: u8,
        cell: &Cell,
        inward: bool,
    ) -> Result<(), AllocError>
        requires live { is_live (whole self.old).world entity ≡ true }
        requires low { kind < 64 }
        requires moves { can_move (whole self.old).world (cells_of (whole self.old).world entity) kind cell.now inward ≡ true }
        ensures world { (whole self.new).world ≡ (whole self.old).world }
        ensures room { OnOk result (Holds (whole self.new).room (shift_row (whole self.old).world entity kind cell.now inward)) }
        ensures there { Holds (whole self.old).room (shift_row (whole self.old).world entity kind cell.now inward) → IsOk result }
        ensures wide { IsWider (whole self.old).room (whole self.new).room };

    /// Makes the room that `unshift_row_reserved` needs (docs/MODEL.md, "Raw changes"), as `reserve_put_row` does.
    fn reserve_unshift_row(
        &mut self,
        entity: Entity,
        place: usize,
        kind: u8,
        cell: &Cell,
        inward: bool,
    ) -> Result<(), AllocError>
        requires can { can_unshift (whole self.old).world entity place kind cell.now inward ≡ true }
        requires low { kind < 64 }
        ensures world { (whole self.new).world ≡ (whole self.old).world }
        ensures room { OnOk result (Holds (whole self.new).room (unshift_row (whole self.old).world entity place kind cell.now inward)) }
        ensures there { Holds (whole self.old).room (unshift_row (whole self.old).world entity place kind cell.now inward) → IsOk result }
        ensures wide { IsWider (whole self.old).room (whole self.new).room };

    /// Makes the room that `set_link_reserved` needs (docs/MODEL.md, "Raw changes"), as `reserve_put_row` does.
    fn reserve_set_link(
        &mut self,
        entity: Entity,
        link: Option<(Entity, usize)>,
    ) -> Result<(), AllocError>
        requires { can_set_link (whole self.old).world entity (link_in (whole self.old).world.children entity) link ≡ true }
        ensures world { (whole self.new).world ≡ (whole self.old).world }
        ensures room { OnOk result (Holds (whole self.new).room (set_link (whole self.old).world entity link)) }
        ensures there { Holds (whole self.old).room (set_link (whole self.old).world entity link) → IsOk result }
        ensures wide { IsWider (whole self.old).room (whole self.new).room };

    /// Makes the room that `set_resource_reserved` needs (docs/MODEL.md, "Raw changes"), as `reserve_put_row` does. No
    /// cell takes none.
    fn reserve_set_resource(&mut self, name: &str, cell: &Option<Cell>) -> Result<(), AllocError>
        ensures world { (whole self.new).world ≡ (whole self.old).world }
        ensures room { OnOk result (Holds (whole self.new).room (set_resource (whole self.old).world name.now cell.now)) }
        ensures there { Holds (whole self.old).room (set_resource (whole self.old).world name.now cell.now) → IsOk result }
        ensures wide { IsWider (whole self.old).room (whole self.new).room };
}
