//! Spawning an entity.
ghost use Rattle.std.specs.Prelude.{◌≡◌, ◌≢◌, true, Some, Ok, Err, IfOk, IfErr, OnErr};
ghost use Rattle.scene_kinds.specs.Answers.{Answers, refusal_of};
ghost use Rattle.scene_kinds.specs.declared.fault.Fault.TheVariants.{NoMemory};
ghost use Rattle.scene_alloc.specs.Slots.{take_of, takes_new_slot};
ghost use Rattle.scene_model.specs.Can.{are_good_cells};
ghost use Rattle.scene_model.specs.Commands.{spawn, after_take};
ghost use Rattle.scene_model.specs.Raw.{taken_entity};
ghost use Rattle.scene_world.specs.Room.{IsWider};
ghost use Rattle.scene_world.specs.Spawned.{IsSpawnOf};

use crate::given::{copied_cells, new_cells, spawn_fault};
use crate::raw_changes::RawChanges;
use crate::world::World;
use scene_alloc::Slots;
use scene_kinds::{Cells, Entity, Fault, Refusal, Value};
use scene_table::RowCells;

/// The entity that the next take of a slot gives, or `None` where it is refused.
fn next_entity(slots: &Slots) -> Option<Entity>
    ensures { result ≡ taken_entity (take_of slots.now.state) }
{
    let count = slots.len();
    if let Some(index) = slots.free().last().copied() {
        let generation = slots.generations()[index as usize];
        return Some(Entity { index, generation });
    }
    if count < slots.limit() as usize {
        return Some(Entity {
            index: count as u32,
            generation: 1,
        });
    }
    None
}

/// A row that was spawned: its entity, its cells, and whether the entity's slot is a new one.
#[derive(Drop, Debug)]
pub struct SpawnedRow {
    pub entity: Entity,
    pub cells: Cells,
    pub fresh: bool,
}

impl World {
    /// The entity that the next spawn gives: that of the index that was freed last, else of a new slot; or `None` where
    /// no index is free and the slots are as many as the limit (docs/MODEL.md, "The rule of reuse").
    pub fn next_entity(&self) -> Option<Entity>
        ensures { result ≡ taken_entity (take_of self.now.world.slots) }
    {
        next_entity(&self.slots)
    }

    /// Spawns an entity with these components, each with its kind, and gives it. It takes the index that was
    /// freed last, else a new one (docs/MODEL.md, "The rule of reuse"); its row goes last in the table of its
    /// kind set ("The rule of rows"), and both ticks of each component are the world's ("The rule of ticks").
    ///
    /// Refused, in this order, each being tried over all components before the next one: `NoSuchKind`;
    /// `DuplicateKind` where a kind is given twice; `WrongShape`; `EntitiesFull` where no index is free and the
    /// slots are as many as the limit; `NoMemory`. After a refusal the world is as it was, and the components
    /// are dropped.
    pub fn spawn(&mut self, cells: Vec<(u8, Value)>) -> Result<Entity, Refusal>
        ensures answer { Answers result self.old.world self.new.world (spawn self.old.world cells.items) }
        ensures wide { IsWider self.old.room self.new.room }
    {
        let spawned = self.spawn_row(cells)?;
        Ok(spawned.entity)
    }

    /// Spawns an entity as `spawn` does, and gives with it what a record has of a spawn: the cells of its row, and
    /// whether its slot is a new one. The row's own cells are copies of these.
    pub fn spawn_row(&mut self, cells: Vec<(u8, Value)>) -> Result<SpawnedRow, Refusal>
        ensures made { IfOk result (λ s. spawn self.old.world cells.items ≡ Ok (s.entity, self.new.world)) }
        ensures row { IfOk result (λ s. IsSpawnOf self.old.world cells.items s.entity s.cells s.fresh) }
        ensures refused { IfErr result (λ r. r ≢ refusal_of NoMemory → spawn self.old.world cells.items ≡ Err r) }
        ensures back { OnErr result (self.new.world ≡ self.old.world) }
        ensures wide { IsWider self.old.room self.new.room }
    {
        if let Some(fault) = spawn_fault(&self.schema, cells.as_slice()) {
            return Err(Refusal::from(fault));
        }
        let cells = new_cells(self.alloc, self.tick, cells)?;
        self.put_spawned(cells)
    }

    /// Spawns an entity as `spawn_row` does, with components that are lent: the cells that it gives have copies of their
    /// values, and no list of them is copied first. It refuses what `spawn` refuses, and then the world is as it was
    /// (docs/MODEL.md, "The rule of rows").
    pub fn spawn_row_lent(&mut self, cells: &[(u8, Value)]) -> Result<SpawnedRow, Refusal>
        ensures made { IfOk result (λ s. spawn self.old.world cells.now ≡ Ok (s.entity, self.new.world)) }
        ensures row { IfOk result (λ s. IsSpawnOf self.old.world cells.now s.entity s.cells s.fresh) }
        ensures refused { IfErr result (λ r. r ≢ refusal_of NoMemory → spawn self.old.world cells.now ≡ Err r) }
        ensures back { OnErr result (self.new.world ≡ self.old.world) }
        ensures wide { IsWider self.old.room self.new.room }
    {
        if let Some(fault) = spawn_fault(&self.schema, cells) {
            return Err(Refusal::from(fault));
        }
        let cells = copied_cells(self.alloc, self.tick, cells)?;
        self.put_spawned(cells)
    }

    /// Spawns an entity with cells that a row may have: the row's own are copies of these.
    fn put_spawned(&mut self, cells: Cells) -> Result<SpawnedRow, Refusal>
        requires { are_good_cells self.old.world cells ≡ true }
        ensures made { IfOk result (λ s. after_take self.old.world cells (take_of self.old.world.slots) ≡ Ok (s.entity, self.new.world)) }
        ensures row { IfOk result (λ s. s.cells ≡ cells) }
        ensures next { IfOk result (λ s. taken_entity (take_of self.old.world.slots) ≡ Some s.entity) }
        ensures slot { IfOk result (λ s. s.fresh ≡ takes_new_slot self.old.world.slots) }
        ensures refused { IfErr result (λ r. r ≢ refusal_of NoMemory → after_take self.old.world cells (take_of self.old.world.slots) ≡ Err r) }
        ensures back { OnErr result (self.new.world ≡ self.old.world) }
        ensures wide { IsWider self.old.room self.new.room }
    {
        let Some(entity) = self.next_entity() else {
            return Err(Refusal::from(Fault::EntitiesFull));
        };
        let fresh = self.slots.takes_new_slot();
        self.put_row(entity, RowCells::copied(&cells)?, fresh)?;
        Ok(SpawnedRow {
            entity,
            cells,
            fresh,
        })
    }
}
