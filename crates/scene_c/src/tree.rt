//! What an open scene tells of an entity: whether it is alive, its kinds, its parent and its children.
ghost use Rattle.std.specs.Prelude.{◌≡◌, map};
ghost use Rattle.scene_links.specs.Forest.{children_of, parent_of};
ghost use Rattle.scene_model.specs.World.{is_live, mask_at};
ghost use Rattle.scene_c.specs.Arguments.{shown_entity};
ghost use Rattle.scene_c.specs.Reads.{IsTold, Lists, Tells, TellsMask};
ghost use Rattle.scene_c.specs.OpenScene.{world_of};
ghost use Rattle.scene_c.specs.Shown.{entity_or_none, shown_truth};

use crate::filling::fill;
use crate::open_scene::OpenScene;
use crate::shown::NO_ENTITY;
use crate::status::shown_truth;
use crate::value::{SceneEntity, shown_entity};
use crate::{BAD, DONE, REFUSED};
use scene_kinds::Entity;

/// An entity as C sees it, or that there is none.
fn entity_or_none(entity: Option<Entity>) -> SceneEntity
    ensures { result ≡ entity_or_none entity }
{
    match entity {
        Some(entity) => shown_entity(entity),
        None => NO_ENTITY,
    }
}

impl OpenScene {
    /// Tells whether an entity is alive.
    pub(crate) fn is_alive(&self, entity: Entity, out: &mut u32) -> u32
        ensures { Tells (out.new ≡ out.old) (IsTold (shown_truth (is_live (world_of self.now) entity)) out.new) self.now result }
    {
        let Some(world) = self.world() else {
            return BAD;
        };
        *out = shown_truth(world.is_alive(entity));
        DONE
    }

    /// Tells the kind set of an entity that is alive.
    pub(crate) fn mask(&self, entity: Entity, out: &mut u64) -> u32
        ensures { Tells (out.new ≡ out.old) (TellsMask (mask_at (world_of self.now) entity) out.old out.new) self.now result }
    {
        let Some(world) = self.world() else {
            return BAD;
        };
        match world.mask_of(entity) {
            Some(mask) => {
                *out = mask;
                DONE
            }
            None => REFUSED,
        }
    }

    /// Tells the parent of an entity.
    pub(crate) fn parent(&self, entity: Entity, out: &mut SceneEntity) -> u32
        ensures { Tells (out.new ≡ out.old)
            (IsTold (entity_or_none (parent_of (world_of self.now).children entity)) out.new) self.now result }
    {
        let Some(world) = self.world() else {
            return BAD;
        };
        *out = entity_or_none(world.links().parent_of(entity));
        DONE
    }

    /// Lists the children of an entity.
    pub(crate) fn children(
        &self,
        entity: Entity,
        from: usize,
        at: &mut [SceneEntity],
        total: &mut usize,
    ) -> u32
        ensures { Tells ((at.new ≡ at.old) × (total.new ≡ total.old))
            (Lists (map shown_entity (children_of (world_of self.now).children entity)) from at.old at.new total.new) self.now result }
    {
        let Some(world) = self.world() else {
            return BAD;
        };
        let children = world.links().children_of(entity);
        *total = children.len();
        fill(children, from, at);
        DONE
    }
}
