//! What an open scene tells of its rows: its tables, their entities, and their columns.
ghost use Rattle.std.specs.Prelude.{◌≡◌, IfNone, IfOk, IfSome, None, Some, length, map, option_map};
ghost use Rattle.std.specs.Option.{option_and_then};
ghost use Rattle.scene_kinds.specs.declared.shape.Shape.TheVariants.{Int, Vec3, Link};
ghost use Rattle.scene_kinds.specs.Schema.{shape_of};
ghost use Rattle.scene_table.specs.Columns.{cells_of};
ghost use Rattle.scene_c.specs.Arguments.{kind_of, shown_entity};
ghost use Rattle.scene_c.specs.Reads.{Lists, ListsIf, Tells, TellsTables, column_in, entities_in, is_of_shape, tables_in, ticks_in, values_in};
ghost use Rattle.scene_c.specs.OpenScene.{world_of};
ghost use Rattle.scene_c.specs.Shown.{int_of, link_of, table_of, vec3_of};

use crate::filling::fill;
use crate::open_scene::OpenScene;
use crate::shown::{SceneTable, SceneVec3};
use crate::value::{SceneEntity, kind_of};
use crate::{BAD, DONE, NO_MEMORY};
use scene_kinds::{Entity, KindSet, KindSetMethods, Schema, Shape, Value};
use scene_systems::Filter;
use scene_table::{ColumnRef, Table};
use scene_world::World;
use std::alloc::AllocError;

/// The tables that a filter matches and that have rows, ascending by kind set, or an error where no memory was found.
fn matching_tables(world: &World, filter: Filter) -> Result<Vec<&Table>, AllocError>
    ensures { IfOk result (λ tables. map (λ table. table_of table.now) tables.items ≡ tables_in world.now.world filter) }
{
    let mut tables = world.tables_in_order()?;
    tables.retain(|table| filter.matches(table.mask()));
    Ok(tables)
}

/// Whether there is a kind, and it has this shape.
fn is_of_shape(schema: &Schema, kind: u32, shape: Shape) -> bool
    ensures { result ≡ is_of_shape shape (option_and_then (shape_of schema.now) (kind_of kind)) }
{
    let Some(kind) = kind_of(kind) else {
        return false;
    };
    match schema.shape_of(kind) {
        Some(other) => other == shape,
        None => false,
    }
}

/// The column of a kind in the rows of a kind set; `None` where the set hasn't the kind.
fn column_of(world: &World, mask: KindSet, kind: u32) -> Option<ColumnRef<'_>>
    ensures none { IfNone result (column_in world.now.world mask (kind_of kind) ≡ None) }
    ensures cells { IfSome result (λ c. column_in world.now.world mask (kind_of kind)
        ≡ Some (map (λ cell. Some cell) (cells_of c.values.now c.added.now c.changed.now))) }
    ensures lists { IfSome result (λ c. (length c.added.now ≡ length c.values.now) × (length c.changed.now ≡ length c.values.now)) }
{
    let kind = kind_of(kind)?;
    if !mask.contains(kind) {
        return None;
    }
    match world.rows_of(mask) {
        Some(table) => table.column(kind),
        None => Some(ColumnRef {
            values: &[],
            added: &[],
            changed: &[],
        }),
    }
}

/// The values of a kind of a shape in the rows of a kind set; `None` where there is no such kind, or the set hasn't it.
#[tactic(auto, using(crate::proofs::ReadRows::values_told))]
pub(crate) fn values_of(world: &World, mask: KindSet, kind: u32, shape: Shape) -> Option<&[Value]>
    ensures { option_map (λ values. values.now) result ≡ values_in world.now.world mask (kind_of kind) shape }
{
    if !is_of_shape(world.schema(), kind, shape) {
        return None;
    }
    Some(column_of(world, mask, kind)?.values)
}

/// The ticks of a kind in the rows of a kind set: for 0 those at which a cell was added, for 1 those at which it was last
/// changed. `None` for another number, and where the set hasn't the kind.
#[tactic(auto, using(crate::proofs::ReadRows::added_told, crate::proofs::ReadRows::changed_told))]
fn ticks_of(world: &World, mask: KindSet, kind: u32, which: u32) -> Option<&[u64]>
    ensures { option_map (λ ticks. ticks.now) result ≡ ticks_in world.now.world mask (kind_of kind) which }
{
    let column = column_of(world, mask, kind)?;
    match which {
        0 => Some(column.added),
        1 => Some(column.changed),
        _ => None,
    }
}

/// The entities of the rows of a kind set.
fn entities_of(world: &World, mask: KindSet) -> &[Entity]
    ensures { result.now ≡ entities_in world.now.world mask }
{
    match world.rows_of(mask) {
        Some(table) => table.entities(),
        None => &[],
    }
}

impl OpenScene {
    /// Lists the tables that have all kinds of a set and none of another.
    pub(crate) fn tables(
        &self,
        filter: Filter,
        from: usize,
        at: &mut [SceneTable],
        total: &mut usize,
    ) -> u32
        ensures { Tells ((at.new ≡ at.old) × (total.new ≡ total.old))
            (TellsTables (tables_in (world_of self.now) filter) from at.old at.new total.old total.new) self.now result }
    {
        let Some(world) = self.world() else {
            return BAD;
        };
        let Ok(tables) = matching_tables(world, filter) else {
            return NO_MEMORY;
        };
        *total = tables.len();
        fill(tables.as_slice(), from, at);
        DONE
    }

    /// Lists the entities of the rows of a kind set.
    pub(crate) fn rows(
        &self,
        mask: KindSet,
        from: usize,
        at: &mut [SceneEntity],
        total: &mut usize,
    ) -> u32
        ensures { Tells ((at.new ≡ at.old) × (total.new ≡ total.old))
            (Lists (map shown_entity (entities_in (world_of self.now) mask)) from at.old at.new total.new) self.now result }
    {
        let Some(world) = self.world() else {
            return BAD;
        };
        let entities = entities_of(world, mask);
        *total = entities.len();
        fill(entities, from, at);
        DONE
    }

    /// Lists the numbers of a kind in the rows of a kind set.
    pub(crate) fn ints(
        &self,
        mask: KindSet,
        kind: u32,
        from: usize,
        at: &mut [i64],
        total: &mut usize,
    ) -> u32
        ensures { Tells ((at.new ≡ at.old) × (total.new ≡ total.old))
            (ListsIf ((at.new ≡ at.old) × (total.new ≡ total.old))
            (option_map (map int_of) (values_in (world_of self.now) mask (kind_of kind) Int))
            from at.old at.new total.new) self.now result }
    {
        let Some(world) = self.world() else {
            return BAD;
        };
        let Some(values) = values_of(world, mask, kind, Shape::Int) else {
            return BAD;
        };
        *total = values.len();
        fill(values, from, at);
        DONE
    }

    /// Lists the vectors of a kind in the rows of a kind set.
    pub(crate) fn vec3s(
        &self,
        mask: KindSet,
        kind: u32,
        from: usize,
        at: &mut [SceneVec3],
        total: &mut usize,
    ) -> u32
        ensures { Tells ((at.new ≡ at.old) × (total.new ≡ total.old))
            (ListsIf ((at.new ≡ at.old) × (total.new ≡ total.old))
            (option_map (map vec3_of) (values_in (world_of self.now) mask (kind_of kind) Vec3))
            from at.old at.new total.new) self.now result }
    {
        let Some(world) = self.world() else {
            return BAD;
        };
        let Some(values) = values_of(world, mask, kind, Shape::Vec3) else {
            return BAD;
        };
        *total = values.len();
        fill(values, from, at);
        DONE
    }

    /// Lists the links of a kind in the rows of a kind set.
    pub(crate) fn links(
        &self,
        mask: KindSet,
        kind: u32,
        from: usize,
        at: &mut [SceneEntity],
        total: &mut usize,
    ) -> u32
        ensures { Tells ((at.new ≡ at.old) × (total.new ≡ total.old))
            (ListsIf ((at.new ≡ at.old) × (total.new ≡ total.old))
            (option_map (map link_of) (values_in (world_of self.now) mask (kind_of kind) Link))
            from at.old at.new total.new) self.now result }
    {
        let Some(world) = self.world() else {
            return BAD;
        };
        let Some(values) = values_of(world, mask, kind, Shape::Link) else {
            return BAD;
        };
        *total = values.len();
        fill(values, from, at);
        DONE
    }

    /// Lists the ticks of a kind in the rows of a kind set: for 0 those at which a cell was added, for 1 those at which
    /// it was last changed.
    pub(crate) fn ticks(
        &self,
        mask: KindSet,
        kind: u32,
        which: u32,
        from: usize,
        at: &mut [u64],
        total: &mut usize,
    ) -> u32
        ensures { Tells ((at.new ≡ at.old) × (total.new ≡ total.old))
            (ListsIf ((at.new ≡ at.old) × (total.new ≡ total.old)) (ticks_in (world_of self.now) mask (kind_of kind) which)
            from at.old at.new total.new) self.now result }
    {
        let Some(world) = self.world() else {
            return BAD;
        };
        let Some(ticks) = ticks_of(world, mask, kind, which) else {
            return BAD;
        };
        *total = ticks.len();
        fill(ticks, from, at);
        DONE
    }
}
