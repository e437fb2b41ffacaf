//! Deltas that are made again and taken back in a World by reference: their cells are copied.
ghost use Rattle.std.specs.Prelude.{◌≡◌, IfOk, OnOk, OnErr};
ghost use Rattle.scene_deltas.specs.Deltas.{back, fwd, FitsBack, FitsOn};
ghost use Rattle.scene_world.specs.Room.{IsWider};

use crate::delta::Delta;
use crate::resource_cell::ResourceCell;
use crate::steps::wide;
use scene_kinds::Cell;
use scene_table::RowCells;
use scene_world::{RawChanges, World};
use std::alloc::AllocError;

/// A copy of the cell of a resource, where there is one.
fn copied(cell: &ResourceCell) -> Result<Option<Cell>, AllocError>
    ensures { IfOk result (λ copy. copy ≡ cell.now) }
{
    match cell.get() {
        Some(cell) => Ok(Some(cell.try_clone()?)),
        None => Ok(None),
    }
}

/// Makes a delta again, where it fits (docs/JOURNAL.md, "The six deltas"). It makes the room that the world needs, and
/// copies the cells that come, so it takes memory where a row, a cell, a link or a resource comes.
///
/// It fails only where no memory was found: then the world is as it was.
pub fn redo_delta(world: &mut World, delta: &Delta) -> Result<(), AllocError>
    requires { FitsOn delta.now world.old.world }
    ensures done { OnOk result (world.new.world ≡ fwd delta.now world.old.world) }
    ensures full { OnErr result (world.new.world ≡ world.old.world) }
    ensures wide { IsWider world.old.room world.new.room }
{
    let _tick = world.tick();
    match delta {
        Delta::Spawned {
            entity,
            cells,
            fresh,
        } => world.put_row(*entity, RowCells::copied(cells)?, *fresh),
        Delta::Despawned { entity, .. } => {
            world.cut_row(*entity);
            Ok(())
        }
        Delta::Shifted {
            entity,
            kind,
            cell,
            inward,
            ..
        } => world.shift_row(*entity, *kind, cell.try_clone()?, *inward),
        Delta::CellSet {
            entity,
            kind,
            after,
            ..
        } => {
            let _before = world.set_cell(*entity, *kind, after.try_clone()?);
            Ok(())
        }
        Delta::Linked { entity, after, .. } => world.set_link(*entity, wide(*after)),
        Delta::ResourceSet { name, after, .. } => {
            let _before = world.set_resource(name.as_str(), copied(after)?)?;
            Ok(())
        }
    }
}

/// Takes a delta back, where it fits back (docs/JOURNAL.md, "The six deltas"). It makes the room that the world needs,
/// and copies the cells that come back, so it takes memory where a row, a cell, a link or a resource comes back.
///
/// It fails only where no memory was found: then the world is as it was.
pub fn undo_delta(world: &mut World, delta: &Delta) -> Result<(), AllocError>
    requires { FitsBack delta.now world.old.world }
    ensures done { OnOk result (world.new.world ≡ back delta.now world.old.world) }
    ensures full { OnErr result (world.new.world ≡ world.old.world) }
    ensures wide { IsWider world.old.room world.new.room }
{
    let _tick = world.tick();
    match delta {
        Delta::Spawned { entity, fresh, .. } => {
            world.drop_last(*entity, *fresh);
            Ok(())
        }
        Delta::Despawned {
            entity,
            place,
            cells,
            link,
            retired,
        } => {
            let cells = RowCells::copied(cells)?;
            world.uncut_row(*entity, *place as usize, cells, wide(*link), *retired)
        }
        Delta::Shifted {
            entity,
            place,
            kind,
            cell,
            inward,
        } => {
            let cell = cell.try_clone()?;
            world.unshift_row(*entity, *place as usize, *kind, cell, *inward)
        }
        Delta::CellSet {
            entity,
            kind,
            before,
            ..
        } => {
            let _after = world.set_cell(*entity, *kind, before.try_clone()?);
            Ok(())
        }
        Delta::Linked { entity, before, .. } => world.set_link(*entity, wide(*before)),
        Delta::ResourceSet { name, before, .. } => {
            let _after = world.set_resource(name.as_str(), copied(before)?)?;
            Ok(())
        }
    }
}
