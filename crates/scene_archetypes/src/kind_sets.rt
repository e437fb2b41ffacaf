//! The tables that have rows, in the order of their kind sets.
ghost use Rattle.std.specs.Prelude.{◌≡◌, IfOk, map as each};
ghost use Rattle.scene_table.specs.Tables.{rows_at, masks_of};
ghost use Rattle.scene_archetypes.specs.KindTables.{tables_of, AreApart};

use scene_kinds::KindSet;
use scene_table::Table;
use std::alloc::{AllocError, Global};

/// The tables that have rows, ascending by kind set, or an error where no memory was found. It costs the
/// number of tables times its logarithm.
pub(crate) fn tables_by_kind_set(alloc: Global, tables: &[Table]) -> Result<Vec<&Table>, AllocError>
    requires { AreApart tables.now }
    ensures masks { IfOk result (λ ordered. each (λ t. t.now.mask) ordered.items ≡ masks_of (tables_of tables.now)) }
    ensures rows { IfOk result (λ ordered. each (λ t. t.now.rows) ordered.items
        ≡ each (rows_at (tables_of tables.now)) (masks_of (tables_of tables.now))) }
{
    let mut ordered = Vec::new(alloc);
    for table in tables {
        if !table.is_empty() {
            ordered.push(table)?;
        }
    }
    ordered.sort_by_key(|table| table.mask())?;
    Ok(ordered)
}

/// Their kind sets, at the same cost.
pub(crate) fn kind_sets_of(alloc: Global, tables: &[Table]) -> Result<Vec<KindSet>, AllocError>
    requires { AreApart tables.now }
    ensures { IfOk result (λ sets. sets.items ≡ masks_of (tables_of tables.now)) }
{
    let ordered = tables_by_kind_set(alloc, tables)?;
    ordered.iter().map(|table| table.mask()).collect(alloc)
}
