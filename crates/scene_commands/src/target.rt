//! Which entity a command is about.
ghost use Rattle.std.specs.Prelude.{◌≡◌};
ghost use Rattle.std.specs.Option.{ok_or};
ghost use Rattle.scene_kinds.specs.Answers.{refusal_of};
ghost use Rattle.scene_kinds.specs.declared.fault.Fault.TheVariants.{BadLocal};
ghost use Rattle.scene_commands.specs.Target.{target_entities, target_entity};

use scene_kinds::{Entity, Fault, Refusal};

/// The entity that a command names (docs/MODEL.md, "The rule of frames").
#[derive(Clone, Copy, Debug, PartialEq, Eq)]
pub enum Target {
    /// An entity itself.
    Id(Entity),
    /// The k-th entity, from 0, that the same queue has spawned before the command.
    New(u32),
}

impl Target {
    /// The entity, given those that the queue has spawned so far; `BadLocal` where it names one that isn't there yet.
    pub fn entity(self, spawned: &[Entity]) -> Result<Entity, Refusal>
        ensures { result ≡ ok_or (target_entity self spawned.now) (refusal_of BadLocal) }
    {
        match self {
            Target::Id(entity) => Ok(entity),
            Target::New(k) => {
                let made = spawned.get(k as usize).copied();
                made.ok_or(Refusal::from(Fault::BadLocal))
            }
        }
    }

    /// The entities of two targets, the first being looked at first.
    pub fn entities(
        first: Target,
        second: Target,
        spawned: &[Entity],
    ) -> Result<(Entity, Entity), Refusal>
        ensures { result ≡ ok_or (target_entities first second spawned.now) (refusal_of BadLocal) }
    {
        let first = first.entity(spawned)?;
        Ok((first, second.entity(spawned)?))
    }
}
