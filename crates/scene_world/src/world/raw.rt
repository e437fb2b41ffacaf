//! The raw changes of a world, each with the contract that `RawChanges` gives it.
mod reserve;

use crate::moves::{move_row, moved_mask};
use crate::raw_changes::RawChanges;
use crate::world::{DespawnedRow, World};
use scene_kinds::{Cell, Entity};
use scene_table::{ChangedTicks, ColumnWriter, RowCells, Run};
use std::alloc::AllocError;

impl RawChanges for World {
    ghost whole = { λ w. w };

    fn put_row_reserved(&mut self, entity: Entity, cells: RowCells<'_>, fresh: bool) {
        let _entity = self.slots.take_reserved();
        let mask = cells.mask();
        let last = self.tables.len(mask);
        self.tables.put_back(mask, last, entity, cells);
    }

    fn drop_last(&mut self, entity: Entity, fresh: bool) {
        let home = self.home_of_live(entity);
        self.tables.drop_row(entity, home);
        self.slots.untake(entity, fresh);
    }

    #[inline(always)]
    fn put_row(
        &mut self,
        entity: Entity,
        cells: RowCells<'_>,
        fresh: bool,
    ) -> Result<(), AllocError> {
        self.reserve_put_row(entity, &cells, fresh)?;
        self.put_row_reserved(entity, cells, fresh);
        Ok(())
    }

    fn cut_row(&mut self, entity: Entity) {
        let home = self.home_of_live(entity);
        self.tables.drop_row(entity, home);
        let _retired = self.slots.release(entity);
        let _link = self.links.leave(entity);
    }

    fn cut_row_kept(&mut self, entity: Entity) -> Result<DespawnedRow, AllocError> {
        let home = self.home_of_live(entity);
        self.cut_row_at(entity, home)
    }

    fn uncut_row_reserved(
        &mut self,
        entity: Entity,
        place: usize,
        cells: RowCells<'_>,
        link: Option<(Entity, usize)>,
        retired: bool,
    ) {
        self.slots.unrelease(entity, retired);
        let mask = cells.mask();
        self.tables.put_back(mask, place, entity, cells);
        match link {
            Some((parent, at)) => self.links.relink_reserved(entity, parent, at),
            None => {}
        }
    }

    fn uncut_row(
        &mut self,
        entity: Entity,
        place: usize,
        cells: RowCells<'_>,
        link: Option<(Entity, usize)>,
        retired: bool,
    ) -> Result<(), AllocError> {
        self.reserve_uncut_row(entity, place, &cells, link, retired)?;
        self.uncut_row_reserved(entity, place, cells, link, retired);
        Ok(())
    }

    fn shift_row_reserved(&mut self, entity: Entity, kind: u8, cell: Cell, inward: bool) {
        let home = self.home_of_live(entity);
        let last = self.tables.len(moved_mask(home.mask, kind, inward));
        move_row(&mut self.tables, entity, home, last, kind, cell, inward);
    }

    fn unshift_row_reserved(
        &mut self,
        entity: Entity,
        place: usize,
        kind: u8,
        cell: Cell,
        inward: bool,
    ) {
        let home = self.home_of_live(entity);
        move_row(&mut self.tables, entity, home, place, kind, cell, !inward);
    }

    fn shift_row(
        &mut self,
        entity: Entity,
        kind: u8,
        cell: Cell,
        inward: bool,
    ) -> Result<(), AllocError> {
        self.reserve_shift_row(entity, kind, &cell, inward)?;
        self.shift_row_reserved(entity, kind, cell, inward);
        Ok(())
    }

    fn unshift_row(
        &mut self,
        entity: Entity,
        place: usize,
        kind: u8,
        cell: Cell,
        inward: bool,
    ) -> Result<(), AllocError> {
        self.reserve_unshift_row(entity, place, kind, &cell, inward)?;
        self.unshift_row_reserved(entity, place, kind, cell, inward);
        Ok(())
    }

    fn set_cell(&mut self, entity: Entity, kind: u8, cell: Cell) -> Cell {
        let home = self.home_of_live(entity);
        self.tables.set_cell(home, kind, cell)
    }

    fn put_run<W: ColumnWriter>(
        &mut self,
        writer: &W,
        run: &Run,
        turns: i64,
        changed: &ChangedTicks,
    ) {
        // A run has a cell of each of its columns for each of its entities.
        let _width = run.width();
        self.tables.put_run(writer, run, turns, changed);
    }

    fn set_link_reserved(&mut self, entity: Entity, link: Option<(Entity, usize)>) {
        let _before = self.links.leave(entity);
        match link {
            Some((parent, place)) => self.links.relink_reserved(entity, parent, place),
            None => {}
        }
    }

    fn set_link(
        &mut self,
        entity: Entity,
        link: Option<(Entity, usize)>,
    ) -> Result<(), AllocError> {
        self.reserve_set_link(entity, link)?;
        self.set_link_reserved(entity, link);
        Ok(())
    }

    fn set_resource_reserved(&mut self, name: &str, cell: Option<Cell>) -> Option<Cell> {
        self.resources.restore_reserved(name, cell)
    }

    fn set_resource(&mut self, name: &str, cell: Option<Cell>) -> Result<Option<Cell>, AllocError> {
        self.reserve_set_resource(name, &cell)?;
        Ok(self.set_resource_reserved(name, cell))
    }

    fn set_tick(&mut self, tick: u64) {
        self.tick = tick;
    }

    fn room_holds(&self) {
        let _count = self.slots.len();
        self.tables.room_holds();
        self.links.room_holds();
        self.resources.room_holds();
    }

    #[inline(always)]
    fn reserve_put_row(
        &mut self,
        entity: Entity,
        cells: &RowCells<'_>,
        fresh: bool,
    ) -> Result<(), AllocError> {
        self.laws_hold();
        self.reserve_slot(fresh)?;
        self.reserve_row(cells.mask(), entity.index)
    }

    fn reserve_uncut_row(
        &mut self,
        entity: Entity,
        place: usize,
        cells: &RowCells<'_>,
        link: Option<(Entity, usize)>,
        retired: bool,
    ) -> Result<(), AllocError> {
        self.laws_hold();
        self.reserve_link(entity, link)?;
        self.reserve_row(cells.mask(), entity.index)
    }

    fn reserve_shift_row(
        &mut self,
        entity: Entity,
        kind: u8,
        cell: &Cell,
        inward: bool,
    ) -> Result<(), AllocError> {
        self.laws_hold();
        let home = self.home_of_live(entity);
        self.reserve_row(moved_mask(home.mask, kind, inward), entity.index)
    }

    fn reserve_unshift_row(
        &mut self,
        entity: Entity,
        place: usize,
        kind: u8,
        cell: &Cell,
        inward: bool,
    ) -> Result<(), AllocError> {
        self.laws_hold();
        let home = self.home_of_live(entity);
        self.reserve_row(moved_mask(home.mask, kind, !inward), entity.index)
    }

    fn reserve_set_link(
        &mut self,
        entity: Entity,
        link: Option<(Entity, usize)>,
    ) -> Result<(), AllocError> {
        self.laws_hold();
        self.reserve_link(entity, link)
    }

    fn reserve_set_resource(&mut self, name: &str, cell: &Option<Cell>) -> Result<(), AllocError> {
        self.laws_hold();
        self.reserve_name(name, cell)
    }
}
