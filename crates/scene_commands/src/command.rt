//! A command with its targets.
ghost use Rattle.std.specs.Prelude.{◌≡◌, IfOk};

use crate::components::Components;
use crate::target::Target;
use scene_kinds::{Text, Value};
use std::alloc::AllocError;

/// A command, as a queue takes it (docs/MODEL.md, "The commands" and "The rule of frames").
#[derive(Drop, Clone, Debug)]
pub enum Command {
    /// Spawns an entity with these components.
    Spawn(Components),
    /// Despawns an entity without children.
    Despawn(Target),
    /// Despawns an entity and all below it.
    DespawnAll(Target),
    /// The same where the entity is alive; a dead one is passed over.
    DespawnAllIfAlive(Target),
    /// Gives an entity a component of a kind, or writes the one that is there.
    Insert(Target, u8, Value),
    /// Takes the component of a kind away.
    Remove(Target, u8),
    /// Makes the first the last child of the second.
    SetParent(Target, Target),
    /// Takes an entity from its parent.
    RemoveParent(Target),
    /// Puts a value at a name.
    PutResource(Text, Value),
    /// Takes the value of a name away.
    RemoveResource(Text),
}

impl Command {
    /// An equal command, or an error where no memory was found.
    pub fn try_clone(&self) -> Result<Command, AllocError>
        ensures { IfOk result (λ copy. copy ≡ self.now) }
    {
        self.clone()
    }
}
