//! An insert and a remove with their deltas.
ghost use Rattle.std.specs.Prelude.{◌≡◌, ◌≢◌, ◌∷◌, [], Some, Ok, Err, IfOk, IfErr, OnOk, OnErr};
ghost use Rattle.scene_kinds.specs.Answers.{refusal_of};
ghost use Rattle.scene_kinds.specs.declared.fault.Fault.TheVariants.{NoMemory};
ghost use Rattle.scene_model.specs.Commands.{insert, remove};
ghost use Rattle.scene_model.specs.Perform.{Insert, Remove};
ghost use Rattle.scene_world.specs.Room.{IsWider};
ghost use Rattle.scene_deltas.specs.Notes.{deltas_of, inserted};

use scene_deltas::{Delta, is_sound};
use scene_kinds::{Cell, Entity, Refusal, Value};
use scene_world::{InsertedCell, RemovedCell, World};

/// The delta of an insert of a value at a tick, by what the insert found.
#[inline(always)]
fn delta_of(entity: Entity, kind: u8, value: Value, tick: u64, found: InsertedCell) -> Delta
    ensures { result ≡ inserted tick entity kind value found.place found.before }
{
    let InsertedCell { place, before } = found;
    match before {
        Some(before) => {
            let after = Cell {
                value,
                added: before.added,
                changed: tick,
            };
            Delta::CellSet {
                entity,
                kind,
                before,
                after,
            }
        }
        None => Delta::Shifted {
            entity,
            place,
            kind,
            cell: Cell::new(value, tick),
            inward: true,
        },
    }
}

/// Inserts a value as `World::insert` does, and gives the delta. The row is looked for once, and where the entity has
/// the kind, its cell moves into the delta.
pub(crate) fn insert(
    world: &mut World,
    entity: Entity,
    kind: u8,
    value: Value,
) -> Result<Delta, Refusal>
    ensures made { OnOk result (insert world.old.world entity kind value ≡ Ok (tt, world.new.world)) }
    ensures noted { IfOk result (λ delta. delta ∷ [] ≡ deltas_of world.old.world (Insert entity kind value)) }
    ensures refused { IfErr result (λ r. r ≢ refusal_of NoMemory → insert world.old.world entity kind value ≡ Err r) }
    ensures back { OnErr result (world.new.world ≡ world.old.world) }
    ensures wide { IsWider world.old.room world.new.room }
{
    is_sound(world);
    let tick = world.tick();
    let copy = value.try_clone()?;
    let found = world.insert_cell(entity, kind, value)?;
    Ok(delta_of(entity, kind, copy, tick, found))
}

/// Removes a component as `World::remove` does, and gives the delta, into which its cell moves.
pub(crate) fn remove(world: &mut World, entity: Entity, kind: u8) -> Result<Delta, Refusal>
    ensures made { OnOk result (remove world.old.world entity kind ≡ Ok (tt, world.new.world)) }
    ensures noted { IfOk result (λ delta. delta ∷ [] ≡ deltas_of world.old.world (Remove entity kind)) }
    ensures refused { IfErr result (λ r. r ≢ refusal_of NoMemory → remove world.old.world entity kind ≡ Err r) }
    ensures back { OnErr result (world.new.world ≡ world.old.world) }
    ensures wide { IsWider world.old.room world.new.room }
{
    let RemovedCell { place, cell } = world.remove_cell(entity, kind)?;
    Ok(Delta::Shifted {
        entity,
        place,
        kind,
        cell,
        inward: false,
    })
}
