//! Removing a component.
ghost use Rattle.std.specs.Prelude.{◌≡◌, ◌≢◌, Some, Ok, Err, IfOk, IfErr, OnOk, OnErr};
ghost use Rattle.scene_kinds.specs.Answers.{Answers, refusal_of};
ghost use Rattle.scene_kinds.specs.declared.fault.Fault.TheVariants.{NoMemory};
ghost use Rattle.scene_model.specs.Commands.{remove};
ghost use Rattle.scene_world.specs.PlacedCell.{placed_cell};
ghost use Rattle.scene_world.specs.Room.{IsWider};

use crate::given::is_unknown;
use crate::moves::remove_at;
use crate::world::World;
use scene_kinds::{Cell, Entity, Fault, Refusal, has_kind};

/// What a remove found: the place at which the entity's row stood in its table, from 0, and the cell that is removed.
#[derive(Drop, Debug)]
pub struct RemovedCell {
    pub place: u32,
    pub cell: Cell,
}

impl World {
    /// Removes a component from an entity, whose row moves to the last place of the table of its new kind set;
    /// the other components go with it, ticks included (docs/MODEL.md, "The rule of moves"). It costs the
    /// entity's components.
    ///
    /// Refused, in this order: `NoSuchEntity` where the entity isn't alive; `NoSuchKind`; `NotPresent` where the
    /// entity doesn't have the kind; `NoMemory`. After a refusal the world is as it was.
    pub fn remove(&mut self, entity: Entity, kind: u8) -> Result<(), Refusal>
        ensures answer { Answers result self.old.world self.new.world (remove self.old.world entity kind) }
        ensures wide { IsWider self.old.room self.new.room }
    {
        self.remove_cell(entity, kind)?;
        Ok(())
    }

    /// Removes a component as `remove` does, at its cost and with its refusals, and gives what a record has of the
    /// world before a remove: where the row stood, and the cell that was there (docs/JOURNAL.md, "The deltas of
    /// commands"). It copies no cell. After a refusal the world is as it was.
    pub fn remove_cell(&mut self, entity: Entity, kind: u8) -> Result<RemovedCell, Refusal>
        ensures made { OnOk result (remove self.old.world entity kind ≡ Ok (tt, self.new.world)) }
        ensures row { IfOk result (λ r. placed_cell self.old.world entity kind ≡ Some (r.place, Some r.cell)) }
        ensures refused { IfErr result (λ r. r ≢ refusal_of NoMemory → remove self.old.world entity kind ≡ Err r) }
        ensures back { OnErr result (self.new.world ≡ self.old.world) }
        ensures wide { IsWider self.old.room self.new.room }
    {
        let Some(home) = self.home_of(entity) else {
            return Err(Refusal::from(Fault::NoSuchEntity));
        };
        if is_unknown(&self.schema, kind) {
            return Err(Refusal::from(Fault::NoSuchKind));
        }
        // A row has just the kinds of its table.
        if !has_kind(home.mask, kind) {
            return Err(Refusal::from(Fault::NotPresent));
        }
        let cell = remove_at(&mut self.tables, entity, home, kind)?;
        let place = home.place as u32;
        Ok(RemovedCell { place, cell })
    }
}
