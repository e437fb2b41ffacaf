//! What an open scene tells of its resources.
ghost use Rattle.std.specs.Prelude.{◌≡◌, option_copied, slice_get};
ghost use Rattle.scene_resources.specs.Resources.{names_of};
ghost use Rattle.scene_c.specs.OpenScene.{world_of};
ghost use Rattle.scene_c.specs.Reads.{ListsIf, OrNoMemory, Tells, TellsHeld, TellsText, resource_in, text_held};

use crate::kinds::text_in;
use crate::open_scene::OpenScene;
use crate::reading::Reading;
use crate::shown::SceneTicks;
use crate::texts::copy_bytes;
use crate::value::{SceneCell, shown_cell};
use crate::{BAD, DONE, NO_MEMORY, REFUSED};
use scene_kinds::{Cell, Value};
use scene_world::World;

/// The resource of a name, which no other bytes than a text are.
fn resource_of<'a>(world: &'a World, name: &[u8]) -> Option<&'a Cell>
    ensures { option_copied result ≡ resource_in world.now.world name.now }
{
    let name = text_in(name)?;
    world.resources().get(name)
}

/// Tells the name of a resource, by its place in their order.
fn tell_name(world: &World, place: usize, from: usize, at: &mut [u8], total: &mut usize) -> u32
    ensures { OrNoMemory ((at.new ≡ at.old) × (total.new ≡ total.old))
        (ListsIf ((at.new ≡ at.old) × (total.new ≡ total.old)) (slice_get (names_of world.now.world.resources) place)
        from at.old at.new total.new) result }
{
    let Ok(names) = world.resources().names() else {
        return NO_MEMORY;
    };
    let Some(name) = names.get(place) else {
        return BAD;
    };
    *total = name.len();
    copy_bytes(name.as_bytes(), from, at);
    DONE
}

/// Tells a resource by its numbers, with its ticks.
fn tell_resource(world: &World, name: &[u8], out: &mut SceneCell, ticks: &mut SceneTicks) -> u32
    ensures { TellsHeld (resource_in world.now.world name.now) out.old out.new ticks.old ticks.new result }
{
    let Some(cell) = resource_of(world, name) else {
        return REFUSED;
    };
    *out = shown_cell(0, Reading::numbers_of(&cell.value));
    *ticks = SceneTicks {
        added: cell.added,
        changed: cell.changed,
    };
    DONE
}

/// Tells the text that a resource is.
fn tell_text(world: &World, name: &[u8], from: usize, at: &mut [u8], total: &mut usize) -> u32
    ensures { TellsText (text_held (resource_in world.now.world name.now)) from at.old at.new total.old total.new result }
{
    let Some(cell) = resource_of(world, name) else {
        return REFUSED;
    };
    match &cell.value {
        Value::Text(text) => {
            *total = text.as_str().len();
            copy_bytes(text.as_str().as_bytes(), from, at);
            DONE
        }
        _ => REFUSED,
    }
}

impl OpenScene {
    /// Tells the name of a resource, by its place in their order.
    pub(crate) fn resource_name(
        &self,
        place: usize,
        from: usize,
        at: &mut [u8],
        total: &mut usize,
    ) -> u32
        ensures { Tells ((at.new ≡ at.old) × (total.new ≡ total.old))
            (OrNoMemory ((at.new ≡ at.old) × (total.new ≡ total.old))
            (ListsIf ((at.new ≡ at.old) × (total.new ≡ total.old)) (slice_get (names_of (world_of self.now).resources) place)
            from at.old at.new total.new)) self.now result }
    {
        let Some(world) = self.world() else {
            return BAD;
        };
        tell_name(world, place, from, at, total)
    }

    /// Tells a resource by its numbers, with its ticks.
    pub(crate) fn resource(&self, name: &[u8], out: &mut SceneCell, ticks: &mut SceneTicks) -> u32
        ensures { Tells ((out.new ≡ out.old) × (ticks.new ≡ ticks.old))
            (TellsHeld (resource_in (world_of self.now) name.now) out.old out.new ticks.old ticks.new) self.now result }
    {
        let Some(world) = self.world() else {
            return BAD;
        };
        tell_resource(world, name, out, ticks)
    }

    /// Tells the text that a resource is.
    pub(crate) fn resource_text(
        &self,
        name: &[u8],
        from: usize,
        at: &mut [u8],
        total: &mut usize,
    ) -> u32
        ensures { Tells ((at.new ≡ at.old) × (total.new ≡ total.old))
            (TellsText (text_held (resource_in (world_of self.now) name.now)) from at.old at.new total.old total.new) self.now result }
    {
        let Some(world) = self.world() else {
            return BAD;
        };
        tell_text(world, name, from, at, total)
    }
}
