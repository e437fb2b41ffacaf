//! Despawns one after another, with their deltas.
ghost use Rattle.std.specs.Prelude.{◌≡◌, ◌<◌, ◌+◌, ◌^◌, ◌∷◌, [], true, IfOk, OnOk, OnErr, length};
ghost use Rattle.scene_links.specs.Forest.{children_of};
ghost use Rattle.scene_model.specs.Perform.{Despawn};
ghost use Rattle.scene_model.specs.Raw.{cut_row};
ghost use Rattle.scene_model.specs.World.{is_live};
ghost use Rattle.scene_deltas.specs.Ready.{AreReady};
ghost use Rattle.scene_deltas.specs.Deltas.{back_all};
ghost use Rattle.scene_deltas.specs.Notes.{CanCutEach, cut_each, deltas_of, despawned_each};

use crate::notes::despawned;
use scene_deltas::{Delta, Deltas, is_sound, take_all_back};
use scene_kinds::Entity;
use scene_world::{RawChanges, World};
use std::alloc::{AllocError, Global};

/// Cuts the rows of entities one after another, and gives the deltas. Where no memory is found for the cells of one of
/// them, those that went come back.
pub(crate) fn cut_each(
    alloc: Global,
    world: &mut World,
    order: &[Entity],
) -> Result<Deltas, AllocError>
    requires { CanCutEach order.now world.old.world }
    ensures made { OnOk result (world.new.world ≡ cut_each order.now world.old.world) }
    ensures noted { IfOk result (λ deltas. deltas.items ≡ despawned_each order.now world.old.world) }
    ensures ready { IfOk result (λ deltas. AreReady world.new.room deltas.items world.new.world) }
    ensures opening { IfOk result (λ deltas. back_all deltas.items world.new.world ≡ world.old.world) }
    ensures back { OnErr result (world.new.world ≡ world.old.world) }
    ensures room { world.new.room ≡ world.old.room }
{
    let mut deltas = Deltas::new(alloc);
    for entity in order {
        is_sound(world);
        match cut_with_delta(world, *entity, &mut deltas) {
            Ok(delta) => deltas.push_reserved(delta),
            Err(error) => {
                take_all_back(world, deltas);
                return Err(error);
            }
        }
    }
    Ok(deltas)
}

/// Makes room for the delta of a despawn, cuts the row, and gives the delta, into which the row's cells move.
fn cut_with_delta(
    world: &mut World,
    entity: Entity,
    deltas: &mut Deltas,
) -> Result<Delta, AllocError>
    requires live { is_live world.old.world entity ≡ true }
    requires childless { children_of world.old.world.children entity ≡ [] }
    ensures made { OnOk result (world.new.world ≡ cut_row world.old.world entity) }
    ensures delta { IfOk result (λ delta. delta ∷ [] ≡ deltas_of world.old.world (Despawn entity)) }
    ensures back { OnErr result (world.new.world ≡ world.old.world) }
    ensures same { world.new.room ≡ world.old.room }
    ensures items { deltas.new.items ≡ deltas.old.items }
    ensures room { OnOk result (0 < deltas.new.room) }
    ensures few { OnOk result (length deltas.new.items + 1 < 2 ^ 64) }
{
    deltas.reserve(1)?;
    Ok(despawned(entity, world.cut_row_kept(entity)?))
}
