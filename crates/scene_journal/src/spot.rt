//! Where a cell of a world stands.
ghost use Rattle.std.specs.Prelude.{◌≡◌, ◌∷◌, ◌++◌, [], OnOk, option_map};
ghost use Rattle.std.specs.List.{list_all};
ghost use Rattle.scene_kinds.specs.Cells.{cell_of};
ghost use Rattle.scene_resources.specs.Resources.{cell_of as resource_of};
ghost use Rattle.scene_model.specs.Raw.{cells_of};
ghost use Rattle.scene_journal.specs.Newest.{changed_in, was_changed_otherwise};

use scene_deltas::standing;
use scene_kinds::{Entity, Text};
use scene_world::World;
use std::alloc::{AllocError, Global};
use std::marker::Model;

/// Where a cell stands, if there is one.
#[derive(Drop, Debug)]
pub(crate) enum Spot {
    /// In the row of an entity.
    Component { entity: Entity, kind: u8 },
    /// At a name.
    Resource { name: Text },
}

/// The tick at which a component was changed, or `None` where it isn't there.
fn component_changed(world: &World, entity: Entity, kind: u8) -> Option<u64>
    ensures { result ≡ option_map (λ c. c.changed) (cell_of (cells_of world.now.world entity) kind) }
{
    let (table, place) = standing(world, entity)?;
    let cell = table.cell(place as usize, kind)?;
    Some(cell.changed)
}

/// The tick at which a resource was changed, or `None` where it isn't there.
fn resource_changed(world: &World, name: &str) -> Option<u64>
    ensures { result ≡ option_map (λ c. c.changed) (resource_of world.now.world.resources name.now) }
{
    let cell = world.resources().get(name)?;
    Some(cell.changed)
}

/// The tick at which the cell at a spot was changed, or `None` where there is no cell.
fn changed_in(world: &World, spot: &Spot) -> Option<u64>
    ensures { result ≡ changed_in world.now.world spot.now }
{
    match spot {
        Spot::Component { entity, kind } => component_changed(world, *entity, *kind),
        Spot::Resource { name } => resource_changed(world, name.as_str()),
    }
}

/// Whether the cell at a spot, if there is one, was changed at another tick.
fn was_changed_otherwise(world: &World, spot: &Spot, tick: u64) -> bool
    ensures { result ≡ was_changed_otherwise world.now.world tick spot.now }
{
    match changed_in(world, spot) {
        Some(changed) => changed != tick,
        None => true,
    }
}

/// Whether the cells at all of some spots were.
pub(crate) fn were_changed_otherwise(world: &World, spots: &[Spot], tick: u64) -> bool
    ensures { result ≡ list_all (was_changed_otherwise world.now.world tick) spots.now }
{
    spots
        .iter()
        .all(|spot| was_changed_otherwise(world, spot, tick))
}

/// Spots of cells. Contracts see the list.
#[derive(Drop, Debug)]
pub(crate) struct Spots {
    items: Vec<Spot>,
}

impl Model for Spots {
    ghost use Rattle.std.specs.Prelude.{List};
    ghost use Rattle.scene_journal.specs.declared.spot.Spot.{Spot};

    ghost Value = { List Spot };

    ghost view = { λ s. s.items.items };
}

impl Spots {
    /// No spots. It takes no memory.
    pub(crate) fn new(alloc: Global) -> Spots
        ensures { result ≡ [] }
    {
        Spots {
            items: Vec::new(alloc),
        }
    }

    /// One more.
    pub(crate) fn push(&mut self, spot: Spot) -> Result<(), AllocError>
        ensures { OnOk result (self.new ≡ self.old ++ spot ∷ []) }
    {
        self.items.push(spot)?;
        Ok(())
    }

    /// The list.
    pub(crate) fn as_slice(&self) -> &[Spot]
        ensures { result.now ≡ self.now }
    {
        self.items.as_slice()
    }
}
