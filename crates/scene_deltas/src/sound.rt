//! What always holds of a world.
ghost use Rattle.scene_model.specs.Valid.{IsValid};
ghost use Rattle.scene_world.specs.Room.{Holds};

use scene_world::{RawChanges, World};

/// A law of every world: it is valid, and its room holds it. It does nothing.
pub fn is_sound(world: &World)
    ensures valid { IsValid world.now.world }
    ensures held { Holds world.now.room world.now.world }
{
    let _tick = world.tick();
    world.room_holds();
}
