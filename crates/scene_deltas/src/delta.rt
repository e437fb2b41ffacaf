//! One change of a world.
ghost use Rattle.std.specs.Prelude.{◌≡◌, IfOk};
ghost use Rattle.scene_deltas.specs.Deltas.{fits_on, fits_back};
ghost use Rattle.scene_deltas.specs.declared.delta.Delta.TheVariants.{CellSet, ResourceSet};

use crate::resource_cell::ResourceCell;
use crate::{fits, fits_back};
use scene_kinds::{Cell, Cells, Entity, Text};
use scene_world::World;
use std::alloc::AllocError;

/// One change of a world, with what it brings and what it takes away, so that it can be made again and taken back
/// (docs/JOURNAL.md, "The six deltas").
///
/// A place is that of a row in its table, or of a child in its parent's list without the child, from 0. A link is a
/// parent with such a place.
#[derive(Drop, Debug)]
pub enum Delta {
    /// A row was put last in its table, with these cells; `fresh` where its entity got a new slot.
    Spawned {
        entity: Entity,
        cells: Cells,
        fresh: bool,
    },
    /// A row left its table, with its cells and its link; `retired` where its index was retired with it.
    Despawned {
        entity: Entity,
        place: u32,
        cells: Cells,
        link: Option<(Entity, u32)>,
        retired: bool,
    },
    /// A row left a place of its table for another table, where it went last: with the cell of one more kind where
    /// `inward`, else without the cell of a kind.
    Shifted {
        entity: Entity,
        place: u32,
        kind: u8,
        cell: Cell,
        inward: bool,
    },
    /// A cell of a row was set.
    CellSet {
        entity: Entity,
        kind: u8,
        before: Cell,
        after: Cell,
    },
    /// An entity got another link, or none.
    Linked {
        entity: Entity,
        before: Option<(Entity, u32)>,
        after: Option<(Entity, u32)>,
    },
    /// A resource got another cell, or none.
    ResourceSet {
        name: Text,
        before: ResourceCell,
        after: ResourceCell,
    },
}

impl Delta {
    /// An equal delta, or an error where no memory was found. It copies the cells.
    pub fn try_clone(&self) -> Result<Delta, AllocError>
        ensures { IfOk result (λ copy. copy ≡ self.now) }
    {
        self.clone()
    }

    /// Whether the delta fits on a world, so that it can be made there: the world has what the delta takes away, and
    /// may get what it brings (docs/JOURNAL.md, "Where a delta fits").
    ///
    /// It takes no memory. It costs a look at the delta's cells, and for a link a walk up from the parent and one over
    /// the children there.
    pub fn fits_on(&self, world: &World) -> bool
        ensures { result ≡ fits_on self.now world.now.world }
    {
        match self {
            Delta::Spawned {
                entity,
                cells,
                fresh,
            } => fits::can_put(world, *entity, cells, *fresh),
            Delta::Despawned {
                entity,
                place,
                cells,
                link,
                retired,
            } => fits::can_cut(world, *entity, *place, cells, *link, *retired),
            Delta::Shifted {
                entity,
                place,
                kind,
                cell,
                inward,
            } => fits::can_shift(world, *entity, *place, *kind, cell, *inward),
            Delta::CellSet {
                entity,
                kind,
                before,
                after,
            } => fits::can_set_cell(world, *entity, *kind, before, after),
            Delta::Linked {
                entity,
                before,
                after,
            } => fits::can_set_link(world, *entity, *before, *after),
            Delta::ResourceSet {
                name,
                before,
                after,
            } => fits::can_set_resource(world, name, before, after),
        }
    }

    /// Whether the delta fits back on a world, so that it can be taken back there (docs/JOURNAL.md, "Where a delta
    /// fits").
    ///
    /// It takes no memory. It costs what `fits_on` costs, and for a despawn a look over the free list.
    pub fn fits_back(&self, world: &World) -> bool
        ensures { result ≡ fits_back self.now world.now.world }
    {
        match self {
            Delta::Spawned {
                entity,
                cells,
                fresh,
            } => fits_back::can_drop(world, *entity, cells, *fresh),
            Delta::Despawned {
                entity,
                place,
                cells,
                link,
                retired,
            } => fits_back::can_uncut(world, *entity, *place, cells, *link, *retired),
            Delta::Shifted {
                entity,
                place,
                kind,
                cell,
                inward,
            } => fits_back::can_unshift(world, *entity, *place, *kind, cell, *inward),
            Delta::CellSet {
                entity,
                kind,
                before,
                after,
            } => fits::can_set_cell(world, *entity, *kind, after, before),
            Delta::Linked {
                entity,
                before,
                after,
            } => fits::can_set_link(world, *entity, *after, *before),
            Delta::ResourceSet {
                name,
                before,
                after,
            } => fits::can_set_resource(world, name, after, before),
        }
    }
}

/// A copy of the delta of a cell.
fn copy_of_cell(entity: Entity, kind: u8, before: &Cell, after: &Cell) -> Result<Delta, AllocError>
    ensures { IfOk result (λ copy. copy ≡ CellSet entity kind before.now after.now) }
{
    let before = before.try_clone()?;
    let after = after.try_clone()?;
    Ok(Delta::CellSet {
        entity,
        kind,
        before,
        after,
    })
}

/// A copy of the delta of a resource.
fn copy_of_resource(
    name: &Text,
    before: &ResourceCell,
    after: &ResourceCell,
) -> Result<Delta, AllocError>
    ensures { IfOk result (λ copy. copy ≡ ResourceSet name.now before.now after.now) }
{
    let name = name.try_clone()?;
    let before = before.clone()?;
    let after = after.clone()?;
    Ok(Delta::ResourceSet {
        name,
        before,
        after,
    })
}

/// An equal delta, or an error where no memory was found.
// By hand, since a derived copy has all its ways out in one function, which is dear to prove.
impl Clone for Delta {
    ghost is_clone = { λ a b. b ≡ a };

    fn clone(&self) -> Result<Delta, AllocError> {
        match self {
            Delta::Spawned {
                entity,
                cells,
                fresh,
            } => Ok(Delta::Spawned {
                entity: *entity,
                cells: cells.try_clone()?,
                fresh: *fresh,
            }),
            Delta::Despawned {
                entity,
                place,
                cells,
                link,
                retired,
            } => Ok(Delta::Despawned {
                entity: *entity,
                place: *place,
                cells: cells.try_clone()?,
                link: *link,
                retired: *retired,
            }),
            Delta::Shifted {
                entity,
                place,
                kind,
                cell,
                inward,
            } => Ok(Delta::Shifted {
                entity: *entity,
                place: *place,
                kind: *kind,
                cell: cell.try_clone()?,
                inward: *inward,
            }),
            Delta::CellSet {
                entity,
                kind,
                before,
                after,
            } => copy_of_cell(*entity, *kind, before, after),
            Delta::Linked {
                entity,
                before,
                after,
            } => Ok(Delta::Linked {
                entity: *entity,
                before: *before,
                after: *after,
            }),
            Delta::ResourceSet {
                name,
                before,
                after,
            } => copy_of_resource(name, before, after),
        }
    }
}
