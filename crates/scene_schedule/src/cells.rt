//! Whether a spawn takes the cells of a child.
//!
//! The three walks here are those of scene_world, which keeps them to itself; once it makes them public, these go.
ghost use Rattle.std.specs.Prelude.{◌≡◌, is_some, nat_eq, not};
ghost use Rattle.std.specs.List.{list_any};
ghost use Rattle.scene_kinds.specs.Schema.{fits_kind};
ghost use Rattle.scene_model.specs.World.{is_unknown};
ghost use Rattle.scene_model.specs.Commands.{any_twice, spawn_fault};

use scene_commands::Components;
use scene_kinds::{Schema, Value};

fn any_unknown(schema: &Schema, cells: &[(u8, Value)]) -> bool
    ensures { result ≡ list_any (λ c. is_unknown schema.now c.0) cells.now }
{
    cells.iter().any(|cell| cell.0 as usize >= schema.len())
}

fn has_kind(cells: &[(u8, Value)], kind: u8) -> bool
    ensures { result ≡ list_any (λ d. nat_eq kind d.0) cells.now }
{
    cells.iter().any(|cell| kind == cell.0)
}

fn any_repeated(cells: &[(u8, Value)]) -> bool
    ensures { result ≡ any_twice cells.now }
{
    for i in 0..cells.len() {
        if has_kind(&cells[i + 1..], cells[i].0) {
            return true;
        }
    }
    false
}

fn any_misfit(schema: &Schema, cells: &[(u8, Value)]) -> bool
    ensures { result ≡ list_any (λ c. not (fits_kind schema.now c.1 c.0)) cells.now }
{
    cells.iter().any(|cell| !schema.fits(&cell.1, cell.0))
}

/// Whether a spawn takes these cells.
pub(crate) fn can_spawn(schema: &Schema, cells: &Components) -> bool
    ensures { result ≡ not (is_some (spawn_fault schema.now cells.now)) }
{
    let cells = cells.as_slice();
    !any_unknown(schema, cells) && !any_repeated(cells) && !any_misfit(schema, cells)
}
