//! The cells of a world that were changed in its newest ticks.
ghost use Rattle.std.specs.Prelude.{◌≡◌, ◌+◌, ◌<◌, ◌≤◌, ℕ, List, [], map, length, slice_get, string_bytes};
ghost use Rattle.std.specs.Prelude.{Some, IfOk, IfNone, IfSome, IsOk, OnOk};
ghost use Rattle.scene_kinds.specs.declared.cells.Row.{Row};
ghost use Rattle.scene_table.specs.Tables.{EachRow};
ghost use Rattle.scene_model.specs.Can.{can_set_tick};
ghost use Rattle.scene_deltas.specs.Segments.{seen};
ghost use Rattle.scene_journal.specs.declared.spot.Spot.TheVariants.{Resource};
ghost use Rattle.scene_journal.specs.Newest.{AreListed, AreRowsListed, Covers, CoversAny, GoesBack, HasAges, KeepsAges};
ghost use Rattle.scene_journal.specs.Newest.{IsListed, IsNameListed, IsWider, ListsBack};

use crate::spot::{Spot, Spots, were_changed_otherwise};
use scene_deltas::{Delta, DeltaRef, Deltas, can_set_tick};
use scene_kinds::{Cell, Entity, Text};
use scene_resources::Resources;
use scene_table::Table;
use scene_world::World;
use std::alloc::{AllocError, Global};
use std::marker::Model;

/// Where the cells of a world stand that were changed in its newest ticks, also after deltas were taken back there
/// (docs/JOURNAL.md, "In code").
///
/// Contracts see the world's tick at first, and the spots by age, those of cells that were changed at that tick first.
#[derive(Debug)]
pub struct NewestCells {
    opening: u64,
    by_age: Vec<Spots>,
}

impl Drop for NewestCells {
    fn drop(self) {
        let NewestCells {
            opening: _,
            by_age: _,
        } = self;
    }
}

impl Model for NewestCells {
    ghost use Rattle.scene_journal.specs.Newest.{Newest};

    ghost Value = { Newest };

    ghost view = { λ n. record { opening = n.opening; by_age = n.by_age.items } };
}

impl NewestCells {
    /// The cells of no tick: a look for late cells goes over the whole world (docs/JOURNAL.md, "In code"). It takes no
    /// memory.
    pub fn none(alloc: Global) -> NewestCells
        ensures covers { CoversAny result }
        ensures ages { result.by_age ≡ [] }
    {
        NewestCells {
            opening: 0,
            by_age: Vec::new(alloc),
        }
    }

    /// The cells of a world that were changed in its newest ticks, or an error where no memory was found. It costs a
    /// look at all cells, and a place for each tick and for each cell that is listed.
    pub fn new(alloc: Global, world: &World, ticks: usize) -> Result<NewestCells, AllocError>
        ensures covers { IfOk result (λ n. Covers n world.now.world) }
        ensures ages { IfOk result (λ n. HasAges n world.now.world.tick ticks) }
    {
        let mut newest = NewestCells {
            opening: world.tick(),
            by_age: empty(alloc, ticks)?,
        };
        newest.add_rows(world)?;
        newest.add_resources(world.resources())?;
        Ok(newest)
    }

    /// Lists the cells that come back where deltas are taken back, or answers an error where no memory was found. It
    /// costs a look at these cells.
    pub fn take_back(&mut self, deltas: &Deltas) -> Result<(), AllocError>
        ensures back { OnOk result (GoesBack deltas.now.items self.old self.new) }
        ensures ages { OnOk result (KeepsAges self.old self.new) }
    {
        let mut left = deltas.forward();
        while let Some(delta) = left.next() {
            self.add_lent(delta)?;
        }
        Ok(())
    }

    /// Whether the tick of a world may be set to the one before it, since no cell was changed later. It costs a look at
    /// the spots that are listed of the world's tick. Where none are kept of it, it costs a look at all cells, and may
    /// answer an error, where no memory was found.
    pub fn can_set_tick(&self, world: &World, tick: u64) -> Result<bool, AllocError>
        requires covered { Covers self.now world.now.world }
        requires one_before { world.now.world.tick ≡ tick + 1 }
        ensures can { IfOk result (λ can. can ≡ can_set_tick world.now.world tick) }
        ensures kept { (age : ℕ) → world.now.world.tick + age ≡ self.now.opening → age < length self.now.by_age → IsOk result }
    {
        let now = world.tick();
        match self.spots_of(now) {
            Some(spots) => Ok(were_changed_otherwise(world, spots, now)),
            None => can_set_tick(world, tick),
        }
    }

    /// How long before the opening a tick was, if spots are kept of it.
    fn age_of(&self, tick: u64) -> Option<usize>
        ensures some { IfSome result (λ age. (tick + age ≡ self.now.opening) × (age < length self.now.by_age)) }
        ensures none { IfNone result ((age : ℕ) → tick + age ≡ self.now.opening → length self.now.by_age ≤ age) }
    {
        if self.opening < tick {
            return None;
        }
        let age = (self.opening - tick) as usize;
        if age < self.by_age.len() {
            Some(age)
        } else {
            None
        }
    }

    /// The spots that are listed of a tick, if they are kept.
    fn spots_of(&self, tick: u64) -> Option<&[Spot]>
        ensures some { IfSome result (λ spots. (age : ℕ) × ((tick + age ≡ self.now.opening)
            × (slice_get self.now.by_age age ≡ Some spots.now))) }
        ensures none { IfNone result ((age : ℕ) → tick + age ≡ self.now.opening → length self.now.by_age ≤ age) }
    {
        let age = self.age_of(tick)?;
        Some(self.by_age[age].as_slice())
    }

    /// Lists the spot of a cell that was changed at a tick.
    fn add(&mut self, tick: u64, spot: Spot) -> Result<(), AllocError>
        ensures listed { OnOk result (IsListed self.new tick spot) }
        ensures wide { OnOk result (IsWider self.old self.new) }
    {
        if let Some(age) = self.age_of(tick) {
            self.by_age[age].push(spot)?;
        }
        Ok(())
    }

    /// Lists the cells of an entity.
    fn add_cells(&mut self, entity: Entity, cells: &[(u8, Cell)]) -> Result<(), AllocError>
        ensures listed { OnOk result (AreListed self.new entity cells.now) }
        ensures wide { OnOk result (IsWider self.old self.new) }
    {
        for number in 0..cells.len() {
            let (kind, cell) = &cells[number];
            self.add(
                cell.changed,
                Spot::Component {
                    entity,
                    kind: *kind,
                },
            )?;
        }
        Ok(())
    }

    /// Lists the cells of the row at a place.
    fn add_row(&mut self, table: &Table, at: usize) -> Result<(), AllocError>
        requires { at < length table.now.rows }
        ensures listed { OnOk result ((row : Row) → slice_get table.now.rows at ≡ Some row → AreListed self.new row.entity row.cells) }
        ensures wide { OnOk result (IsWider self.old self.new) }
    {
        let entity = table.entity_at(at);
        for number in 0..table.cell_count(at) {
            let (kind, cell) = table.nth_cell(at, number);
            self.add(cell.changed, Spot::Component { entity, kind })?;
        }
        Ok(())
    }

    /// Lists the cells of a table.
    fn add_table(&mut self, table: &Table) -> Result<(), AllocError>
        ensures listed { OnOk result (AreRowsListed self.new table.now.rows) }
        ensures wide { OnOk result (IsWider self.old self.new) }
    {
        for at in 0..table.len() {
            self.add_row(table, at)?;
        }
        Ok(())
    }

    /// Lists the cells of tables.
    fn add_tables(&mut self, tables: &[&Table]) -> Result<(), AllocError>
        ensures listed { OnOk result ((i : ℕ) (rows : List Row) → slice_get (map (λ t. t.now.rows) tables.now) i ≡ Some rows
            → AreRowsListed self.new rows) }
        ensures wide { OnOk result (IsWider self.old self.new) }
    {
        for number in 0..tables.len() {
            self.add_table(tables[number])?;
        }
        Ok(())
    }

    /// Lists the cells of all rows.
    fn add_rows(&mut self, world: &World) -> Result<(), AllocError>
        ensures listed { OnOk result (EachRow (λ mask row. AreListed self.new row.entity row.cells) world.now.world.tables) }
        ensures wide { OnOk result (IsWider self.old self.new) }
    {
        let tables = world.tables_in_order()?;
        self.add_tables(tables.as_slice())
    }

    /// Lists the cell of a resource, if there is one.
    fn add_resource(&mut self, name: Text, cell: Option<&Cell>) -> Result<(), AllocError>
        ensures listed { OnOk result (IfSome cell.entry (λ c. IsListed self.new c.now.changed (Resource name))) }
        ensures wide { OnOk result (IsWider self.old self.new) }
    {
        match cell {
            Some(cell) => self.add(cell.changed, Spot::Resource { name }),
            None => Ok(()),
        }
    }

    /// Lists the cell of the resource of a name, if there is one.
    fn add_name(&mut self, resources: &Resources, name: &String) -> Result<(), AllocError>
        ensures listed { OnOk result (IsNameListed self.new resources.now.cells (string_bytes name.now)) }
        ensures wide { OnOk result (IsWider self.old self.new) }
    {
        let cell = resources.get(name.as_str());
        self.add_resource(Text::from(name.clone()?), cell)
    }

    /// Lists the cells of the resources of names.
    fn add_names(&mut self, resources: &Resources, names: &[String]) -> Result<(), AllocError>
        ensures listed { OnOk result ((i : ℕ) (name : List ℕ) → slice_get (map string_bytes names.now) i ≡ Some name
            → IsNameListed self.new resources.now.cells name) }
        ensures wide { OnOk result (IsWider self.old self.new) }
    {
        for number in 0..names.len() {
            self.add_name(resources, &names[number])?;
        }
        Ok(())
    }

    /// Lists the cells of all resources.
    fn add_resources(&mut self, resources: &Resources) -> Result<(), AllocError>
        ensures listed { OnOk result ((name : List ℕ) → IsNameListed self.new resources.now.cells name) }
        ensures wide { OnOk result (IsWider self.old self.new) }
    {
        let names = resources.names()?;
        self.add_names(resources, names.as_slice())
    }

    /// Lists the cells that come back where a delta that is lent is taken back.
    fn add_lent(&mut self, delta: DeltaRef<'_>) -> Result<(), AllocError>
        ensures listed { OnOk result (ListsBack self.new (seen delta.entry)) }
        ensures wide { OnOk result (IsWider self.old self.new) }
    {
        self.add_delta(delta.get())
    }

    /// Lists the cells that come back where a delta is taken back.
    fn add_delta(&mut self, delta: &Delta) -> Result<(), AllocError>
        ensures listed { OnOk result (ListsBack self.new delta.now) }
        ensures wide { OnOk result (IsWider self.old self.new) }
    {
        match delta {
            Delta::Spawned { .. } | Delta::Linked { .. } => Ok(()),
            Delta::Despawned { entity, cells, .. } => self.add_cells(*entity, cells.as_slice()),
            Delta::Shifted { inward: true, .. } => Ok(()),
            Delta::Shifted {
                entity,
                kind,
                cell,
                ..
            } => self.add(
                cell.changed,
                Spot::Component {
                    entity: *entity,
                    kind: *kind,
                },
            ),
            Delta::CellSet {
                entity,
                kind,
                before,
                ..
            } => self.add(
                before.changed,
                Spot::Component {
                    entity: *entity,
                    kind: *kind,
                },
            ),
            Delta::ResourceSet { name, before, .. } => {
                self.add_resource(name.try_clone()?, before.get())
            }
        }
    }
}

/// No spots of so many ages.
fn empty(alloc: Global, ages: usize) -> Result<Vec<Spots>, AllocError>
    ensures { IfOk result (λ by_age. length by_age.items ≡ ages) }
{
    let mut by_age = Vec::new(alloc);
    'fill: for _ in 0..ages {
        by_age.push(Spots::new(alloc))?;
    }
    Ok(by_age)
}
