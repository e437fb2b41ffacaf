//! What an open scene tells of the entities that have no parent.
ghost use Rattle.std.specs.Prelude.{◌≡◌, IfOk, map};
ghost use Rattle.scene_c.specs.Arguments.{shown_entity};
ghost use Rattle.scene_c.specs.OpenScene.{world_of};
ghost use Rattle.scene_c.specs.Reads.{Lists, OrNoMemory, Tells, is_root, roots_in};

use crate::filling::fill;
use crate::open_scene::OpenScene;
use crate::value::SceneEntity;
use crate::{BAD, DONE, NO_MEMORY};
use scene_kinds::Entity;
use scene_world::World;
use std::alloc::{AllocError, Global};

/// Whether an entity is alive and has no parent.
fn is_root(world: &World, entity: Entity) -> bool
    ensures { result ≡ is_root world.now.world entity }
{
    world.is_alive(entity) && world.links().parent_of(entity).is_none()
}

/// The entities that are alive and have no parent, by their index.
#[tactic(auto, using(crate::proofs::Rooted::root_in, crate::proofs::Rooted::root_out, crate::proofs::Rooted::root_all))]
fn roots_of(alloc: Global, world: &World) -> Result<Vec<Entity>, AllocError>
    ensures { IfOk result (λ roots. roots.items ≡ roots_in world.now.world) }
{
    let slots = world.slots();
    let generations = slots.generations();
    let mut roots = Vec::new(alloc);
    'slots: for index in 0..slots.len() {
        let entity = Entity {
            index: index as u32,
            generation: generations[index],
        };
        if is_root(world, entity) {
            roots.push(entity)?;
        }
    }
    Ok(roots)
}

/// Lists the entities that have no parent, by their index.
fn list_roots(
    alloc: Global,
    world: &World,
    from: usize,
    at: &mut [SceneEntity],
    total: &mut usize,
) -> u32
    ensures { OrNoMemory ((at.new ≡ at.old) × (total.new ≡ total.old))
        (Lists (map shown_entity (roots_in world.now.world)) from at.old at.new total.new) result }
{
    let Ok(roots) = roots_of(alloc, world) else {
        return NO_MEMORY;
    };
    *total = roots.len();
    fill(roots.as_slice(), from, at);
    DONE
}

impl OpenScene {
    /// Lists the entities that have no parent, by their index.
    pub(crate) fn roots(
        &self,
        alloc: Global,
        from: usize,
        at: &mut [SceneEntity],
        total: &mut usize,
    ) -> u32
        ensures { Tells ((at.new ≡ at.old) × (total.new ≡ total.old))
            (OrNoMemory ((at.new ≡ at.old) × (total.new ≡ total.old))
            (Lists (map shown_entity (roots_in (world_of self.now))) from at.old at.new total.new)) self.now result }
    {
        let Some(world) = self.world() else {
            return BAD;
        };
        list_roots(alloc, world, from, at, total)
    }
}
