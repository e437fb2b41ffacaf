//! The entities of a table's rows.
ghost use Rattle.std.specs.Prelude.{◌≡◌, ◌<◌, ◌≤◌, length, slice_get, vec_capacity, Some};
ghost use Rattle.scene_kinds.specs.declared.entity.Entity.{Entity};
ghost use Rattle.scene_table.specs.Rows.{swap_out, put_back};

use scene_kinds::Entity;

/// Moves the entity at a place to a place of another list. The last takes its place; in the other list the one that
/// stood there goes last. It takes no memory.
pub(crate) fn move_entity(source: &mut Vec<Entity>, at: usize, target: &mut Vec<Entity>, to: usize)
    requires within { at < length source.old.items }
    requires place { to ≤ length target.old.items }
    requires room { length target.old.items < vec_capacity target.old }
    ensures left { source.new.items ≡ swap_out source.old.items at }
    ensures left_capacity { vec_capacity source.new ≡ vec_capacity source.old }
    ensures put { (entity : Entity) → slice_get source.old.items at ≡ Some entity → target.new.items ≡ put_back target.old.items to entity }
    ensures put_capacity { vec_capacity target.new ≡ vec_capacity target.old }
{
    let last = target.len();
    target.push_reserved(source.swap_remove(at));
    target.swap(to, last);
}
