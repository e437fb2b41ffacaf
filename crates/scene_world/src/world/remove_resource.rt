//! Removing a resource.
ghost use Rattle.scene_kinds.specs.Answers.{Gives};
ghost use Rattle.scene_model.specs.Commands.{remove_resource};
ghost use Rattle.scene_world.specs.Room.{IsWider};

use crate::world::World;
use scene_kinds::Refusal;

impl World {
    /// Removes the resource of a name (docs/MODEL.md, "The rule of resources"). It takes no memory. The name keeps its
    /// room, so that the resource can come back without memory.
    ///
    /// Refused: `NoSuchResource` where there is none of that name, as where the name isn't good. After a refusal
    /// the world is as it was.
    pub fn remove_resource(&mut self, name: &str) -> Result<(), Refusal>
        ensures answer { Gives result self.old.world self.new.world (remove_resource self.old.world name.now) }
        ensures wide { IsWider self.old.room self.new.room }
    {
        let _cell = self.resources.take(name)?;
        Ok(())
    }
}
