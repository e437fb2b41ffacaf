//! Declaring a kind in a world that is there.
ghost use Rattle.std.specs.Prelude.{◌≡◌, string_bytes};
ghost use Rattle.scene_kinds.specs.Answers.{Answers};
ghost use Rattle.scene_world.specs.FurtherKind.{declare};

use crate::world::World;
use scene_kinds::{Refusal, Shape};

impl World {
    /// Declares a kind, and gives its number, which is its place in the schema: it goes last (docs/MODEL.md, "The rule of
    /// kinds"). Nothing but the schema changes. It costs as long as the name is.
    ///
    /// Refused, in this order: `BadName` where the name isn't good ("The rule of names"); `KindTaken` where a kind has it;
    /// `KindsFull` where there are 64 kinds; `NoMemory`. After a refusal the world is as it was, and the name is dropped.
    pub fn declare(&mut self, name: String, shape: Shape) -> Result<u8, Refusal>
        ensures answer { Answers result self.old.world self.new.world (declare self.old.world (string_bytes name) shape) }
        ensures room { self.new.room ≡ self.old.room }
    {
        let number = self.schema.add(name, shape)?;
        // This tells the prover what holds of the schema.
        let _kinds = self.schema.len();
        Ok(number)
    }
}
