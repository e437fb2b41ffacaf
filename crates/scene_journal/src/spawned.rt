//! A spawn with its delta.
ghost use Rattle.std.specs.Prelude.{◌≡◌, ◌≢◌, ◌∷◌, [], Ok, Err, IfOk, IfErr, OnErr};
ghost use Rattle.scene_kinds.specs.Answers.{refusal_of};
ghost use Rattle.scene_kinds.specs.declared.fault.Fault.TheVariants.{NoMemory};
ghost use Rattle.scene_model.specs.Commands.{spawn};
ghost use Rattle.scene_model.specs.Perform.{Spawn};
ghost use Rattle.scene_world.specs.Room.{IsWider};
ghost use Rattle.scene_deltas.specs.Notes.{deltas_of};
ghost use Rattle.scene_deltas.specs.declared.delta.Delta.TheVariants.{Spawned};

use scene_deltas::{Delta, is_sound};
use scene_kinds::{Entity, Refusal, Value};
use scene_world::{SpawnedRow, World};

/// The delta of a row that was spawned, which has its cells.
#[inline(always)]
fn delta_of(row: SpawnedRow) -> Delta
    ensures { result ≡ Spawned row.entity row.cells row.fresh }
{
    let SpawnedRow {
        entity,
        cells,
        fresh,
    } = row;
    Delta::Spawned {
        entity,
        cells,
        fresh,
    }
}

/// Spawns an entity as `World::spawn` does, and gives it with its delta, which has the row's cells.
pub(crate) fn spawn(world: &mut World, cells: Vec<(u8, Value)>) -> Result<(Entity, Delta), Refusal>
    ensures made { IfOk result (λ p. spawn world.old.world cells.items ≡ Ok (p.0, world.new.world)) }
    ensures noted { IfOk result (λ p. p.1 ∷ [] ≡ deltas_of world.old.world (Spawn cells.items)) }
    ensures refused { IfErr result (λ r. r ≢ refusal_of NoMemory → spawn world.old.world cells.items ≡ Err r) }
    ensures back { OnErr result (world.new.world ≡ world.old.world) }
    ensures wide { IsWider world.old.room world.new.room }
{
    is_sound(world);
    let row = world.spawn_row(cells)?;
    Ok((row.entity, delta_of(row)))
}

/// The same with components that are lent, of which the delta and the row have copies.
pub(crate) fn spawn_lent(
    world: &mut World,
    cells: &[(u8, Value)],
) -> Result<(Entity, Delta), Refusal>
    ensures made { IfOk result (λ p. spawn world.old.world cells.now ≡ Ok (p.0, world.new.world)) }
    ensures noted { IfOk result (λ p. p.1 ∷ [] ≡ deltas_of world.old.world (Spawn cells.now)) }
    ensures refused { IfErr result (λ r. r ≢ refusal_of NoMemory → spawn world.old.world cells.now ≡ Err r) }
    ensures back { OnErr result (world.new.world ≡ world.old.world) }
    ensures wide { IsWider world.old.room world.new.room }
{
    is_sound(world);
    let row = world.spawn_row_lent(cells)?;
    Ok((row.entity, delta_of(row)))
}
