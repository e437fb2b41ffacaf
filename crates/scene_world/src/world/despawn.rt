//! Despawning an entity.
ghost use Rattle.std.specs.Prelude.{◌≡◌};
ghost use Rattle.scene_kinds.specs.Answers.{Gives};
ghost use Rattle.scene_model.specs.Commands.{despawn};
ghost use Rattle.scene_world.specs.Room.{IsWider};

use crate::world::World;
use scene_kinds::{Entity, Fault, Refusal};

impl World {
    /// Despawns an entity: its row leaves its table, the last row taking its place (docs/MODEL.md, "The rule of
    /// rows"); its index goes last in the free list with a raised generation, or is retired ("The rule of
    /// retirement"); and it leaves its parent's list ("The rule of links"). It takes no memory, and costs a
    /// walk over that list, but for the first child and the last.
    ///
    /// Refused, in this order: `NoSuchEntity` where the entity isn't alive; `HasChildren`. After a refusal the
    /// world is as it was.
    pub fn despawn(&mut self, entity: Entity) -> Result<(), Refusal>
        ensures answer { Gives result self.old.world self.new.world (despawn self.old.world entity) }
        ensures wide { IsWider self.old.room self.new.room }
    {
        let Some(home) = self.home_of(entity) else {
            return Err(Refusal::from(Fault::NoSuchEntity));
        };
        if !self.links.children_of(entity).is_empty() {
            return Err(Refusal::from(Fault::HasChildren));
        }
        self.tables.drop_row(entity, home);
        let _retired = self.slots.release(entity);
        let _place = self.links.unlink(entity);
        Ok(())
    }
}
