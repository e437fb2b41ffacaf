//! Despawning an entity whose row is kept.
ghost use Rattle.std.specs.Prelude.{◌≡◌, ◌≢◌, ◌<◌, ◌^◌, [], Ok, Err, IfSome, IfOk, IfErr, OnOk, OnErr};
ghost use Rattle.scene_kinds.specs.Answers.{refusal_of};
ghost use Rattle.scene_kinds.specs.declared.fault.Fault.TheVariants.{NoMemory};
ghost use Rattle.scene_links.specs.Forest.{children_of};
ghost use Rattle.scene_model.specs.Commands.{after_despawn, despawn};
ghost use Rattle.scene_model.specs.World.{IsHomeOf};
ghost use Rattle.scene_world.specs.Despawned.{IsDespawnOf};

use crate::world::World;
use scene_kinds::{Cells, Entity, Fault, Refusal};
use scene_table::Home;
use std::alloc::AllocError;

/// A row that was despawned: its place, its cells, the parent of its entity with the place in the parent's list, and
/// whether the entity's index was retired.
#[derive(Drop, Debug)]
pub struct DespawnedRow {
    pub place: u32,
    pub cells: Cells,
    pub link: Option<(Entity, u32)>,
    pub retired: bool,
}

/// A link as a record has it.
fn noted_link(link: Option<(Entity, usize)>) -> Option<(Entity, u32)>
    requires { IfSome link (λ l. l.1 < 2 ^ 32) }
    ensures { result ≡ link }
{
    let (parent, place) = link?;
    Some((parent, place as u32))
}

impl World {
    /// Despawns an entity as `despawn` does, and gives what a record has of a despawn: the row's place and its cells,
    /// which move out of the table, the entity's link, and whether its index was retired (docs/MODEL.md, "Raw
    /// changes").
    ///
    /// Refused, in this order: `NoSuchEntity` where the entity isn't alive; `HasChildren`; `NoMemory` where there is
    /// none for the list of the cells. After a refusal the world is as it was. It costs what `despawn` costs; a lone
    /// cell that isn't a text needs no memory.
    pub fn despawn_row(&mut self, entity: Entity) -> Result<DespawnedRow, Refusal>
        ensures made { OnOk result (despawn self.old.world entity ≡ Ok (tt, self.new.world)) }
        ensures row { IfOk result (λ d. IsDespawnOf self.old.world entity d.place d.cells d.link d.retired) }
        ensures refused { IfErr result (λ r. r ≢ refusal_of NoMemory → despawn self.old.world entity ≡ Err r) }
        ensures back { OnErr result (self.new.world ≡ self.old.world) }
        ensures room { self.new.room ≡ self.old.room }
    {
        let Some(home) = self.home_of(entity) else {
            return Err(Refusal::from(Fault::NoSuchEntity));
        };
        if !self.links.children_of(entity).is_empty() {
            return Err(Refusal::from(Fault::HasChildren));
        }
        Ok(self.cut_row_at(entity, home)?)
    }

    /// Takes the row of a live entity without children out of the world, and gives it. Where no memory was found for
    /// the list of its cells the world is as it was.
    pub(crate) fn cut_row_at(
        &mut self,
        entity: Entity,
        home: Home,
    ) -> Result<DespawnedRow, AllocError>
        requires home { IsHomeOf self.old.world entity home }
        requires childless { children_of self.old.world.children entity ≡ [] }
        ensures done { OnOk result (self.new.world ≡ after_despawn self.old.world home entity) }
        ensures row { IfOk result (λ d. IsDespawnOf self.old.world entity d.place d.cells d.link d.retired) }
        ensures back { OnErr result (self.new.world ≡ self.old.world) }
        ensures room { self.new.room ≡ self.old.room }
    {
        let row = self.tables.take_row(entity, home)?;
        let retired = self.slots.release(entity);
        let link = self.links.leave(entity);
        Ok(DespawnedRow {
            place: home.place as u32,
            cells: row.cells,
            link: noted_link(link),
            retired,
        })
    }
}
