//! The tables that a filter matches.
ghost use Rattle.std.specs.Prelude.{◌≡◌, IfOk};
ghost use Rattle.std.specs.List.{flat_map};
ghost use Rattle.scene_pass.specs.Pass.{matching_rows};

use scene_systems::Filter;
use scene_table::Table;
use scene_world::World;
use std::alloc::AllocError;

/// The tables of the matching kind sets, ascending by kind set, or an error where no memory was found.
///
/// It costs the number of kind sets times its logarithm.
pub fn matching_tables(world: &World, filter: Filter) -> Result<Vec<&Table>, AllocError>
    ensures { IfOk result (λ tables. flat_map (λ table. table.now.rows) tables.items ≡ matching_rows world.now.world filter) }
{
    let mut tables = world.tables_in_order()?;
    tables.retain(|table| filter.matches(table.mask()));
    Ok(tables)
}
