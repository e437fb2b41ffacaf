//! What row steps make of the matching rows, in one thread or in many.
ghost use Rattle.std.specs.Prelude.{◌≡◌, ◌<◌, ◌^◌, ◌++◌, IfOk, OnOk, Some, length, map, slice_get, option_map};
ghost use Rattle.scene_pass.specs.Changes.{change_of, changes, first_fault};

use crate::change::change;
use crate::fault::fault_of;
use crate::row_change::RowChange;
use crate::row_in_place::RowInPlace;
use crate::tables::matching_tables;
use rayon::prelude::*;
use scene_kinds::Entity;
use scene_systems::{Filter, RowStep};
use scene_table::Table;
use scene_world::World;
use std::alloc::{AllocError, Global};
use std::thread::Threads;

/// From how many rows on `map_rows` parts a table among threads. A smaller table isn't worth the start of threads.
pub const PARTED_ROWS: usize = 2048;

/// Adds what the steps make of each row of a table, in order. The room for all of them is made first.
fn push_changes(
    alloc: Global,
    made: &mut Vec<RowChange>,
    table: &Table,
    steps: &[RowStep],
) -> Result<(), AllocError>
    requires { length steps.now < 2 ^ 32 }
    ensures { OnOk result (made.new.items ≡ made.old.items ++ map (change_of steps.now) table.now.rows) }
{
    made.reserve(table.len())?;
    'rows: for at in 0..table.len() {
        let row = RowInPlace::new(table, at);
        made.push(change(alloc, &row, steps)?)?;
    }
    Ok(())
}

/// What the steps make of each matching row, by ascending kind set, then by place (docs/MODEL.md, "The rule of
/// systems"). The world stays as it is. There must be fewer than 2 ^ 32 steps.
///
/// An error only where no memory was found. It costs the number of kind sets times its logarithm, and for each matching
/// row a walk over its cells for each step. No row is copied: of a row only the values that are written are held. A
/// step that is alone reads of a row just the values that it names.
pub fn map_rows_alone(
    alloc: Global,
    world: &World,
    filter: Filter,
    steps: &[RowStep],
) -> Result<Vec<RowChange>, AllocError>
    requires { length steps.now < 2 ^ 32 }
    ensures { IfOk result (λ made. made.items ≡ changes world.now.world filter steps.now) }
{
    let tables = matching_tables(world, filter)?;
    let mut made = Vec::new(alloc);
    'tables: for table in &tables {
        push_changes(alloc, &mut made, table, steps)?;
    }
    Ok(made)
}

/// The first row of a table of which a sum doesn't fit, by its entity, with the place of that step from 0; `None` where
/// all fit (docs/MODEL.md, "The rule of systems"). There must be fewer than 2 ^ 32 steps.
///
/// An error only where no memory was found. It costs the steps over the rows up to that row.
pub fn first_fault_in(
    alloc: Global,
    table: &Table,
    steps: &[RowStep],
) -> Result<Option<(Entity, u32)>, AllocError>
    requires { length steps.now < 2 ^ 32 }
    ensures { IfOk result (λ fault. fault ≡ first_fault (map (change_of steps.now) table.now.rows)) }
{
    'rows: for at in 0..table.len() {
        let tested = RowInPlace::new(table, at);
        let made = change(alloc, &tested, steps)?;
        if let Some(fault) = fault_of(&made) {
            return Ok(Some(fault));
        }
    }
    Ok(None)
}

/// What the steps make of the row at a place of a table.
fn change_at(
    alloc: Global,
    table: &Table,
    at: usize,
    steps: &[RowStep],
) -> Result<RowChange, AllocError>
    requires within { at < length table.now.rows }
    requires few { length steps.now < 2 ^ 32 }
    ensures { IfOk result (λ made. slice_get (map (change_of steps.now) table.now.rows) at ≡ Some made) }
{
    change(alloc, &RowInPlace::new(table, at), steps)
}

/// What the steps make of each row of a table, in order, from as many threads as there are processors.
fn parted_changes(
    rt: &(impl Threads + Sync),
    alloc: Global,
    table: &Table,
    steps: &[RowStep],
) -> Result<Vec<RowChange>, AllocError>
    requires { length steps.now < 2 ^ 32 }
    ensures { IfOk result (λ made. made.items ≡ map (change_of steps.now) table.now.rows) }
{
    let made: Result<Vec<RowChange>, AllocError> = (0..table.len())
        .into_par_iter()
        .map(
            |at: usize| -> Result<RowChange, AllocError>
                requires { (at < length table.now.rows) × (length steps.now < 2 ^ 32) }
                ensures { IfOk result (λ made. slice_get (map (change_of steps.entry.now) table.entry.now.rows) at ≡ Some made) }
            { change_at(alloc, table, at, steps) },
        )
        .collect(rt, alloc)?;
    made
}

/// Adds what the steps make of each row of a table, in order: in this thread where the table is small.
fn push_parted(
    rt: &(impl Threads + Sync),
    alloc: Global,
    made: &mut Vec<RowChange>,
    table: &Table,
    steps: &[RowStep],
) -> Result<(), AllocError>
    requires { length steps.now < 2 ^ 32 }
    ensures { OnOk result (made.new.items ≡ made.old.items ++ map (change_of steps.now) table.now.rows) }
{
    if table.len() < PARTED_ROWS {
        return push_changes(alloc, made, table, steps);
    }
    let mut parted = parted_changes(rt, alloc, table, steps)?;
    made.append(&mut parted)?;
    Ok(())
}

/// What `map_rows_alone` answers, the same rows in the same order, from as many threads as there are processors
/// (docs/MODEL.md, "The rule of systems"). A table of fewer than 2,048 rows (`PARTED_ROWS`) isn't parted, so that a
/// small pass starts no thread. There must be fewer than 2 ^ 32 steps.
///
/// An error only where no memory was found.
pub fn map_rows(
    rt: &(impl Threads + Sync),
    alloc: Global,
    world: &World,
    filter: Filter,
    steps: &[RowStep],
) -> Result<Vec<RowChange>, AllocError>
    requires { length steps.now < 2 ^ 32 }
    ensures { IfOk result (λ made. made.items ≡ changes world.now.world filter steps.now) }
{
    let tables = matching_tables(world, filter)?;
    let mut made = Vec::new(alloc);
    'tables: for table in &tables {
        push_parted(rt, alloc, &mut made, table, steps)?;
    }
    Ok(made)
}
