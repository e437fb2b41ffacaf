//! The world: entities with their components, links and resources.
ghost use Rattle.std.specs.Prelude.{◌≡◌, ◌≤◌, ℕ, length, slice_get, Some, true, MatchResult, IfOk, IfSome, Ok, Err, option_map, map as each};
ghost use Rattle.scene_kinds.specs.Answers.{Gives};
ghost use Rattle.scene_kinds.specs.Cells.{shown};
ghost use Rattle.scene_model.specs.World.{new_world, is_live, mask_at, home_of, component_of, place_at, row_of, rows_of, kind_sets};
ghost use Rattle.scene_table.specs.Tables.{rows_at};
ghost use Rattle.scene_model.specs.Commands.{raise_tick};
ghost use Rattle.scene_model.specs.World.{IsHomeOf};
ghost use Rattle.scene_model.specs.Valid.{IsValid};
ghost use Rattle.scene_world.specs.Homes.{home_at, home_of_index};
ghost use Rattle.scene_world.specs.Room.{Holds, IsWider};
ghost use Rattle.std.specs.Option.{option_flatten};

mod declare;
mod despawn;
mod despawn_recursive;
mod despawn_row;
mod from_parts;
mod insert;
mod put_resource;
mod raw;
mod remove;
mod remove_parent;
mod remove_resource;
mod set_parent;
mod spawn;

use crate::given::is_unknown;
pub use despawn_row::DespawnedRow;
pub use insert::InsertedCell;
pub use remove::RemovedCell;
use scene_alloc::Slots;
use scene_archetypes::Archetypes;
use scene_kinds::{CellRef, Entity, Fault, KindSet, Refusal, Schema};
use scene_links::Links;
use scene_resources::Resources;
use scene_table::{Home, Table};
pub use spawn::SpawnedRow;
use std::alloc::{AllocError, Global};
use std::marker::Model;

/// A world: which entities are alive, their components by archetype, parents and children, resources, and the
/// tick of its last frame (docs/MODEL.md).
///
/// Contracts see `world`, one value: the schema, the slots, the tick, the rows of each kind set that has rows, the
/// children of each entity that has some, and the resources. Every `World` is valid (docs/MODEL.md, "A valid world").
/// Beside it they see `room`: for what the storage suffices with no more memory. No command loses room, so that a world
/// that was there can come back without memory.
#[derive(Debug)]
pub struct World {
    alloc: Global,
    schema: Schema,
    slots: Slots,
    tick: u64,
    tables: Archetypes,
    links: Links,
    resources: Resources,
}

impl Drop for World {
    fn drop(self) {
        let World {
            alloc: _,
            schema: _,
            slots: _,
            tick: _,
            tables: _,
            links: _,
            resources: _,
        } = self;
    }
}

impl Model for World {
    ghost use Rattle.std.specs.Coded.{coded_list, coded_ℕ, codes};
    ghost use Rattle.scene_kinds.specs.contracts.shape.Shape as shape;
    ghost use Rattle.scene_world.specs.Codes.{forest_code, names_code, resources_code, rooms_code, tables_code};
    ghost use Rattle.scene_world.specs.Room.{Housed};

    ghost Value = { Housed };

    ghost coded = { Prim.hlevel (
      codes,
      shape.the_row.coded,
      tables_code,
      rooms_code,
      coded_list coded_ℕ,
      names_code,
      forest_code,
      resources_code,
    ) };

    ghost use Rattle.scene_world.specs.Room.{room_of};
    ghost use Rattle.scene_world.specs.Stored.{world_of, AreSound};

    ghost view = { λ w. record {
      world = world_of w.schema w.slots w.tick w.tables.tables w.links.forest w.resources;
      room = room_of w.slots w.tables w.links w.resources;
    } };

    ghost invariant = { λ w. AreSound (world_of w.schema w.slots w.tick w.tables.tables w.links.forest w.resources) w.tables.homes };
}

impl World {
    /// A world without entities, links and resources, of tick 0, with these kinds and at most `limit` slots.
    /// It takes no memory. `limit` is from 1 to 1,048,576.
    pub fn new(alloc: Global, schema: Schema, limit: u32) -> Self
        requires least { 1 ≤ limit }
        requires most { limit ≤ 1048576 }
        ensures { result.world ≡ new_world schema limit }
    {
        prove!(schema.len() <= 64);
        World {
            alloc,
            schema,
            slots: Slots::new(alloc, limit),
            tick: 0,
            tables: Archetypes::new(alloc),
            links: Links::new(alloc),
            resources: Resources::new(alloc),
        }
    }

    /// The tick of the last frame; 0 in a new world. And every world is valid (docs/MODEL.md, "A valid world").
    pub fn tick(&self) -> u64
        ensures tick { result ≡ self.now.world.tick }
        ensures valid { IsValid self.now.world }
    {
        self.tick
    }

    /// Where the world has its memory from.
    pub(crate) fn alloc(&self) -> Global {
        self.alloc
    }

    /// Raises the tick by one, as each frame does before its commands. It takes no memory.
    ///
    /// Refused: `TickFull` where the tick is the greatest of 64 bits; then the world is as it was.
    pub fn raise_tick(&mut self) -> Result<(), Refusal>
        ensures answer { Gives result self.old.world self.new.world (raise_tick self.old.world) }
        ensures wide { IsWider self.old.room self.new.room }
    {
        if self.tick == u64::MAX {
            return Err(Refusal::from(Fault::TickFull));
        }
        self.tick += 1;
        Ok(())
    }

    /// The kinds, with their names and shapes.
    pub fn schema(&self) -> &Schema
        ensures { result.now ≡ self.now.world.schema }
    {
        &self.schema
    }

    /// The generations by index, and the free list.
    pub fn slots(&self) -> &Slots
        ensures { result.now.state ≡ self.now.world.slots }
    {
        &self.slots
    }

    /// The parents and children.
    pub fn links(&self) -> &Links
        ensures { result.now.forest ≡ self.now.world.children }
    {
        &self.links
    }

    /// The resources.
    pub fn resources(&self) -> &Resources
        ensures { result.now.cells ≡ self.now.world.resources }
    {
        &self.resources
    }

    /// Where the row of an entity stands. Each call that looks for an entity asks here.
    #[inline(always)]
    fn home_of(&self, entity: Entity) -> Option<Home>
        ensures home { result ≡ home_of self.now.world entity }
        ensures row { IfSome result (IsHomeOf self.now.world entity) }
        ensures valid { IsValid self.now.world }
    {
        self.tables.find(entity)
    }

    /// Where the row of a live entity stands.
    #[inline(always)]
    fn home_of_live(&self, entity: Entity) -> Home
        requires { is_live self.now.world entity ≡ true }
        ensures row { IsHomeOf self.now.world entity result }
        ensures valid { IsValid self.now.world }
    {
        let _tick = self.tick();
        self.tables.known_home(entity)
    }

    /// Whether an entity is alive: it has a row (docs/MODEL.md, "The rule of archetypes").
    pub fn is_alive(&self, entity: Entity) -> bool
        ensures { result ≡ is_live self.now.world entity }
    {
        self.home_of(entity).is_some()
    }

    /// The kind set of a live entity, in which kind k is bit k; else `None`.
    pub fn mask_of(&self, entity: Entity) -> Option<KindSet>
        ensures { result ≡ mask_at self.now.world entity }
    {
        let home = self.home_of(entity)?;
        Some(home.mask)
    }

    /// A component of an entity, with its ticks. It costs a walk over the entity's kinds.
    ///
    /// Refused, in this order: `NoSuchEntity` where the entity isn't alive; `NoSuchKind`; `NotPresent` where the
    /// entity doesn't have the kind. It takes no memory.
    pub fn get(&self, entity: Entity, kind: u8) -> Result<CellRef<'_>, Refusal>
        ensures { MatchResult result (λ r. component_of self.now.world entity kind ≡ Ok (shown r))
            (λ r. component_of self.now.world entity kind ≡ Err r) }
    {
        let Some(home) = self.home_of(entity) else {
            return Err(Refusal::from(Fault::NoSuchEntity));
        };
        if is_unknown(&self.schema, kind) {
            return Err(Refusal::from(Fault::NoSuchKind));
        }
        match self.tables.cell(home, kind) {
            Some(cell) => Ok(cell),
            None => Err(Refusal::from(Fault::NotPresent)),
        }
    }

    /// The place of a live entity's row in its table, from 0; else `None`.
    pub fn place_of(&self, entity: Entity) -> Option<u32>
        ensures { result ≡ place_at self.now.world entity }
    {
        let home = self.home_of(entity)?;
        Some(home.place as u32)
    }

    /// The table in which the row of a live entity stands, and the row's place there, from 0; else `None`. It has the
    /// entity's cells with their kinds, ascending (`Table::cell_count`, `Table::nth_cell`).
    #[inline(always)]
    pub fn row_of(&self, entity: Entity) -> Option<(&Table, usize)>
        ensures row { option_map (λ at. slice_get at.0.now.rows at.1) result ≡ option_map (λ found. Some found.1) (row_of self.now.world entity) }
        ensures home { option_map (λ at. home_at at.0.now.mask at.1) result ≡ home_of self.now.world entity }
    {
        let home = self.home_of(entity)?;
        Some((self.tables.table_of_row(home), home.place))
    }

    /// Where the row of each live entity stands, by the entity's index: its kind set, in which kind k is bit k, and its
    /// place in its table, from 0; `None` at an index that no live entity has. The list is as long as there are slots.
    pub fn homes(&self) -> &[Option<Home>]
        ensures each { (index : ℕ) → option_flatten (slice_get result.now index) ≡ home_of_index self.now.world index }
        ensures count { length result.now ≡ length self.now.world.slots.generations }
    {
        let homes = self.tables.homes();
        &homes[..self.slots.len()]
    }

    /// The table of a kind set, in which kind k is bit k, or `None` where it has no rows.
    pub fn rows_of(&self, mask: KindSet) -> Option<&Table>
        ensures rows { option_map (λ table. table.now.rows) result ≡ rows_of self.now.world mask }
        ensures mask { IfSome result (λ table. table.now.mask ≡ mask) }
    {
        self.tables.table(mask)
    }

    /// The kind sets that have rows, ascending, or an error where no memory was found. It costs the number of
    /// kind sets times its logarithm.
    pub fn tables(&self) -> Result<Vec<KindSet>, AllocError>
        ensures { IfOk result (λ sets. sets.items ≡ kind_sets self.now.world) }
    {
        self.tables.kind_sets()
    }

    /// The tables that have rows, ascending by kind set, or an error where no memory was found: a pass over them
    /// looks no table up. It costs the number of kind sets times its logarithm.
    pub fn tables_in_order(&self) -> Result<Vec<&Table>, AllocError>
        ensures masks { IfOk result (λ tables. each (λ t. t.now.mask) tables.items ≡ kind_sets self.now.world) }
        ensures rows { IfOk result (λ tables. each (λ t. t.now.rows) tables.items ≡ each (rows_at self.now.world.tables) (kind_sets self.now.world)) }
    {
        self.tables.in_order()
    }

    /// An equal world, or an error where no memory was found. It costs a copy of the whole world.
    pub fn try_clone(&self) -> Result<World, AllocError>
        ensures { IfOk result (λ copy. copy.world ≡ self.now.world) }
    {
        // One way out drops all that was copied: five would be dear to check.
        match (
            self.schema.try_clone(),
            self.slots.try_clone(),
            self.tables.try_clone(),
            self.links.try_clone(),
            self.resources.try_clone(),
        ) {
            (Ok(schema), Ok(slots), Ok(tables), Ok(links), Ok(resources)) => Ok(World {
                alloc: self.alloc,
                schema,
                slots,
                tick: self.tick,
                tables,
                links,
                resources,
            }),
            _ => Err(AllocError),
        }
    }
}
