//! Inserting a component.
ghost use Rattle.std.specs.Prelude.{◌≡◌, ◌≢◌, Some, Ok, Err, IfOk, IfErr, OnOk, OnErr};
ghost use Rattle.scene_kinds.specs.Answers.{Answers, refusal_of};
ghost use Rattle.scene_kinds.specs.declared.fault.Fault.TheVariants.{NoMemory};
ghost use Rattle.scene_model.specs.Commands.{insert};
ghost use Rattle.scene_world.specs.PlacedCell.{placed_cell};
ghost use Rattle.scene_world.specs.Room.{IsWider};

use crate::given::insert_fault;
use crate::moves::insert_at;
use crate::world::World;
use scene_kinds::{Cell, Entity, Fault, Refusal, Value};

/// What an insert found: the place at which the entity's row stood in its table, from 0, and the old cell of the kind,
/// or `None` where the row didn't have that kind.
#[derive(Drop, Debug)]
pub struct InsertedCell {
    pub place: u32,
    pub before: Option<Cell>,
}

impl World {
    /// Inserts a component into an entity.
    ///
    /// A kind that is there gets the value in its place: its changed tick becomes the world's, also where the
    /// new value equals the old one, and its added tick stays (docs/MODEL.md, "The rule of ticks"). Another kind
    /// moves the entity's row to the last place of the table of its new kind set ("The rule of moves"). It costs
    /// the entity's components.
    ///
    /// Refused, in this order: `NoSuchEntity` where the entity isn't alive; `NoSuchKind`; `WrongShape`;
    /// `NoMemory`. After a refusal the world is as it was, and the value is dropped.
    pub fn insert(&mut self, entity: Entity, kind: u8, value: Value) -> Result<(), Refusal>
        ensures answer { Answers result self.old.world self.new.world (insert self.old.world entity kind value) }
        ensures wide { IsWider self.old.room self.new.room }
    {
        self.insert_cell(entity, kind, value)?;
        Ok(())
    }

    /// Inserts a component as `insert` does, at its cost and with its refusals, and gives what a record has of the
    /// world before an insert: where the row stood, and the cell that was there (docs/JOURNAL.md, "The deltas of
    /// commands"). It copies no cell. After a refusal the world is as it was, and the value is dropped.
    pub fn insert_cell(
        &mut self,
        entity: Entity,
        kind: u8,
        value: Value,
    ) -> Result<InsertedCell, Refusal>
        ensures made { OnOk result (insert self.old.world entity kind value ≡ Ok (tt, self.new.world)) }
        ensures row { IfOk result (λ r. placed_cell self.old.world entity kind ≡ Some (r.place, r.before)) }
        ensures refused { IfErr result (λ r. r ≢ refusal_of NoMemory → insert self.old.world entity kind value ≡ Err r) }
        ensures back { OnErr result (self.new.world ≡ self.old.world) }
        ensures wide { IsWider self.old.room self.new.room }
    {
        let Some(home) = self.home_of(entity) else {
            return Err(Refusal::from(Fault::NoSuchEntity));
        };
        if let Some(fault) = insert_fault(&self.schema, kind, &value) {
            return Err(Refusal::from(fault));
        }
        let before = insert_at(&mut self.tables, entity, home, self.tick, kind, value)?;
        let place = home.place as u32;
        Ok(InsertedCell { place, before })
    }
}
