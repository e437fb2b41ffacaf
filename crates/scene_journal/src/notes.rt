//! The delta of a command, as the world before it tells.
ghost use Rattle.std.specs.Prelude.{◌≡◌, ◌∷◌, [], IfOk};
ghost use Rattle.std.specs.Option.{option_map};
ghost use Rattle.scene_kinds.specs.Cells.{put_over, shown};
ghost use Rattle.scene_links.specs.Forest.{link_in};
ghost use Rattle.scene_resources.specs.Resources.{cell_of as resource_of};
ghost use Rattle.scene_model.specs.CommandRaw.{last_link};
ghost use Rattle.scene_model.specs.World.{World as WorldValue};
ghost use Rattle.scene_world.specs.Despawned.{IsDespawnOf};
ghost use Rattle.scene_model.specs.Perform.{Despawn, PutResource, RemoveResource};
ghost use Rattle.scene_deltas.specs.Notes.{deltas_of};

use scene_deltas::{Delta, ResourceCell, count_without};
use scene_kinds::{Cell, CellRef, Entity, Text, Value};
use scene_world::{DespawnedRow, World};
use std::alloc::{AllocError, Global};

/// The link of an entity, or `None` where it has no parent.
pub(crate) fn link_of(world: &World, entity: Entity) -> Option<(Entity, u32)>
    ensures { result ≡ link_in world.now.world.children entity }
{
    // This tells the prover that the world is valid.
    let _tick = world.tick();
    let parent = world.links().parent_of(entity)?;
    let place = world.links().place_of(entity)?;
    Some((parent, place as u32))
}

/// The last place in a parent's list without the child.
pub(crate) fn last_link(world: &World, child: Entity, parent: Entity) -> (Entity, u32)
    ensures { result ≡ last_link world.now.world.children child parent }
{
    // This tells the prover that the world is valid.
    let _tick = world.tick();
    (parent, count_without(world.links(), parent, child) as u32)
}

/// The cell of a resource, or `None` where it isn't there.
fn resource<'a>(world: &'a World, name: &str) -> Option<CellRef<'a>>
    ensures { option_map shown result ≡ resource_of world.now.world.resources name.now }
{
    let cell = world.resources().get(name)?;
    Some(CellRef {
        value: &cell.value,
        added: cell.added,
        changed: cell.changed,
    })
}

/// A copy of a cell that may be there.
fn copy_of(cell: Option<CellRef<'_>>) -> Result<Option<Cell>, AllocError>
    ensures { IfOk result (λ copy. copy ≡ option_map shown cell.entry) }
{
    match cell {
        Some(cell) => Ok(Some(cell.try_to_cell()?)),
        None => Ok(None),
    }
}

/// The cell with a value that is put, at a tick, where this cell may stand.
fn put_over(before: Option<CellRef<'_>>, value: &Value, tick: u64) -> Result<Cell, AllocError>
    ensures { IfOk result (λ cell. cell ≡ put_over (option_map shown before.entry) value.now tick) }
{
    let added = match before {
        Some(cell) => cell.added,
        None => tick,
    };
    Ok(Cell {
        value: value.try_clone()?,
        added,
        changed: tick,
    })
}

/// The text of a name.
fn text_of(alloc: Global, name: &str) -> Result<Text, AllocError>
    ensures { IfOk result (λ text. text ≡ name.now) }
{
    Ok(Text::from(String::from_str(alloc, name)?))
}

/// The delta of a despawn: the row that went.
pub(crate) fn despawned(entity: Entity, row: DespawnedRow) -> Delta
    ensures { (w : WorldValue) → IsDespawnOf w entity row.place row.cells row.link row.retired → result ∷ [] ≡ deltas_of w (Despawn entity) }
{
    Delta::Despawned {
        entity,
        place: row.place,
        cells: row.cells,
        link: row.link,
        retired: row.retired,
    }
}

/// The delta of a resource that is put.
pub(crate) fn put(
    alloc: Global,
    world: &World,
    name: &str,
    value: &Value,
) -> Result<Delta, AllocError>
    ensures { IfOk result (λ delta. delta ∷ [] ≡ deltas_of world.now.world (PutResource name.now value.now)) }
{
    let there = resource(world, name);
    Ok(Delta::ResourceSet {
        name: text_of(alloc, name)?,
        before: ResourceCell::new(alloc, copy_of(there)?)?,
        after: ResourceCell::new(alloc, Some(put_over(there, value, world.tick())?))?,
    })
}

/// The delta of a resource that is taken away.
pub(crate) fn taken(alloc: Global, world: &World, name: &str) -> Result<Delta, AllocError>
    ensures { IfOk result (λ delta. delta ∷ [] ≡ deltas_of world.now.world (RemoveResource name.now)) }
{
    Ok(Delta::ResourceSet {
        name: text_of(alloc, name)?,
        before: ResourceCell::new(alloc, copy_of(resource(world, name))?)?,
        after: ResourceCell::new(alloc, None)?,
    })
}
