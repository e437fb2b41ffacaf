//! What an open scene tells of one kind of many entities.
ghost use Rattle.std.specs.Prelude.{◌≡◌, map};
ghost use Rattle.scene_model.specs.World.{component_of};
ghost use Rattle.scene_c.specs.Arguments.{entity_of};
ghost use Rattle.scene_c.specs.Memory.{copied};
ghost use Rattle.scene_c.specs.OpenScene.{world_of};
ghost use Rattle.scene_c.specs.Reads.{Tells, IsGathered, cell_or_absent};

use crate::open_scene::OpenScene;
use crate::reading::Reading;
use crate::value::{SceneCell, SceneEntity, entity_of, shown_cell};
use crate::{BAD, DONE};
use scene_world::World;

/// The shape of a component that isn't there (`SCENE_ABSENT`).
pub(crate) const ABSENT: u32 = 5;

/// A component as C sees it, or that it isn't there.
fn cell_or_absent(world: &World, kind: u8, entity: SceneEntity) -> SceneCell
    ensures { result ≡ cell_or_absent kind (component_of world.now.world (entity_of entity) kind) }
{
    match world.get(entity_of(entity), kind) {
        Ok(cell) => shown_cell(kind, Reading::numbers_of(cell.value)),
        Err(_) => SceneCell {
            kind: u32::from(kind),
            shape: ABSENT,
            x: 0,
            y: 0,
            z: 0,
        },
    }
}

/// Writes the components of a kind that entities have, as many as there is room for.
fn fill_cells(world: &World, kind: u8, entities: &[SceneEntity], room: &mut [SceneCell])
    ensures { room.new ≡ copied (map (λ e. cell_or_absent kind (component_of world.now.world (entity_of e) kind)) entities.now) room.old }
{
    'cells: for at in 0..entities.len().min(room.len()) {
        room[at] = cell_or_absent(world, kind, entities[at]);
    }
}

impl OpenScene {
    /// Tells the components of a kind that entities have.
    pub(crate) fn gather(&self, entities: &[SceneEntity], kind: u8, at: &mut [SceneCell]) -> u32
        ensures { Tells (at.new ≡ at.old)
            (IsGathered (map (λ e. cell_or_absent kind (component_of (world_of self.now) (entity_of e) kind)) entities.now) at.old at.new)
            self.now result }
    {
        let Some(world) = self.world() else {
            return BAD;
        };
        fill_cells(world, kind, entities, at);
        DONE
    }
}
