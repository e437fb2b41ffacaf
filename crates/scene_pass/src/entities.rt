//! The entities of matching rows.
ghost use Rattle.std.specs.Prelude.{◌≡◌, IfOk, map};
ghost use Rattle.std.specs.List.{flat_map};
ghost use Rattle.scene_pass.specs.Pass.{matching};

use crate::tables::matching_tables;
use scene_kinds::Entity;
use scene_systems::Filter;
use scene_table::Table;
use scene_world::World;
use std::alloc::{AllocError, Global};

/// The entities of the rows of tables, in order.
fn entities_of(alloc: Global, tables: &[&Table]) -> Result<Vec<Entity>, AllocError>
    ensures { IfOk result (λ entities. entities.items ≡ flat_map (λ table. map (λ row. row.entity) table.now.rows) tables.now) }
{
    tables
        .iter()
        .flat_map(|table| table.entities().iter())
        .copied()
        .collect(alloc)
}

/// The entities whose kind set a filter matches, by ascending kind set, then by their places in the table
/// (docs/MODEL.md, "The rule of queries").
///
/// An error only where no memory was found. It costs the number of kind sets times its logarithm, and the matching
/// rows; the rows of other kind sets aren't read.
pub fn matching(alloc: Global, world: &World, filter: Filter) -> Result<Vec<Entity>, AllocError>
    ensures { IfOk result (λ entities. entities.items ≡ matching world.now.world filter) }
{
    let tables = matching_tables(world, filter)?;
    entities_of(alloc, tables.as_slice())
}
