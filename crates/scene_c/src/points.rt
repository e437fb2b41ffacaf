//! What an open scene tells of a component, with the last answer as it was.
ghost use Rattle.std.specs.Prelude.{◌≡◌};
ghost use Rattle.scene_model.specs.World.{component_of};
ghost use Rattle.scene_c.specs.OpenScene.{world_of};
ghost use Rattle.scene_c.specs.Reads.{Tells, TellsCell, TellsText, text_at};

use crate::open_scene::OpenScene;
use crate::reading::Reading;
use crate::shown::SceneTicks;
use crate::texts::copy_bytes;
use crate::value::{SceneCell, shown_cell};
use crate::{BAD, DONE, REFUSED};
use scene_kinds::{Entity, Value};

impl OpenScene {
    /// Tells a component by its numbers, with its ticks.
    pub(crate) fn component(
        &self,
        entity: Entity,
        kind: u8,
        out: &mut SceneCell,
        ticks: &mut SceneTicks,
    ) -> u32
        ensures { Tells ((out.new ≡ out.old) × (ticks.new ≡ ticks.old))
            (TellsCell kind (component_of (world_of self.now) entity kind) out.old out.new ticks.old ticks.new) self.now result }
    {
        let Some(world) = self.world() else {
            return BAD;
        };
        match world.get(entity, kind) {
            Ok(cell) => {
                *out = shown_cell(kind, Reading::numbers_of(cell.value));
                *ticks = SceneTicks {
                    added: cell.added,
                    changed: cell.changed,
                };
                DONE
            }
            Err(_) => REFUSED,
        }
    }

    /// Tells the text that a component is.
    pub(crate) fn component_text(
        &self,
        entity: Entity,
        kind: u8,
        from: usize,
        at: &mut [u8],
        total: &mut usize,
    ) -> u32
        ensures { Tells ((at.new ≡ at.old) × (total.new ≡ total.old))
            (TellsText (text_at (component_of (world_of self.now) entity kind)) from at.old at.new total.old total.new) self.now result }
    {
        let Some(world) = self.world() else {
            return BAD;
        };
        let Ok(cell) = world.get(entity, kind) else {
            return REFUSED;
        };
        match cell.value {
            Value::Text(text) => {
                *total = text.as_str().len();
                copy_bytes(text.as_str().as_bytes(), from, at);
                DONE
            }
            _ => REFUSED,
        }
    }
}
