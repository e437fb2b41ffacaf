//! Whether a row's number is 0 once its changes are written.
ghost use Rattle.std.specs.Prelude.{◌≡◌, option_map};
ghost use Rattle.std.specs.Ordering.{nat_cmp};
ghost use Rattle.std.specs.FinMap.Entries.{find};
ghost use Rattle.scene_model.specs.World.{component_of};
ghost use Rattle.scene_schedule.specs.Systems.{is_zero_value};
ghost use Rattle.scene_schedule.specs.AtOnce.{written_of, is_zero_in, is_zero_after};

use scene_kinds::{Entity, Value};
use scene_pass::{Outcome, RowChange};
use scene_world::World;

/// Whether a value is the number 0.
pub(crate) fn is_zero(value: &Value) -> bool
    ensures { result ≡ is_zero_value value.now }
{
    match value {
        Value::Int(number) => *number == 0,
        _ => false,
    }
}

/// Whether the value of a kind is the number 0, if the kind is among these cells.
fn zero_among(cells: &[(u8, Value)], kind: u8) -> Option<bool>
    ensures { result ≡ option_map is_zero_value (find nat_cmp kind cells.now) }
{
    'cells: for at in 0..cells.len() {
        if cells[at].0 == kind {
            return Some(is_zero(&cells[at].1));
        }
    }
    None
}

/// Whether the value that the steps wrote to a kind is the number 0, if they wrote one.
fn zero_written(outcome: &Outcome, kind: u8) -> Option<bool>
    ensures { result ≡ option_map is_zero_value (find nat_cmp kind (written_of outcome.now)) }
{
    match outcome {
        Outcome::Changed(cells) => zero_among(cells.as_slice(), kind),
        Outcome::Overflow(_) => None,
    }
}

/// Whether an entity has the number 0 of a kind.
fn is_zero_in(world: &World, entity: Entity, kind: u8) -> bool
    ensures { result ≡ is_zero_in (component_of world.now.world entity kind) }
{
    match world.get(entity, kind) {
        Ok(cell) => is_zero(cell.value),
        Err(_) => false,
    }
}

/// Whether a row's number of a kind is 0 once its changes are written to the world.
pub(crate) fn is_zero_after(world: &World, kind: u8, change: &RowChange) -> bool
    ensures { result ≡ is_zero_after world.now.world kind change.now }
{
    match zero_written(&change.outcome, kind) {
        Some(zero) => zero,
        None => is_zero_in(world, change.entity, kind),
    }
}
