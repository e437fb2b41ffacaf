//! What is asked of parts of a world, as JSON.
ghost use Rattle.std.specs.Prelude.{◌≡◌, OnOk, length};
ghost use Rattle.std.specs.List.{filter as kept};
ghost use Rattle.serde_json.specs.Written.{compact_text};
ghost use Rattle.scene_json.specs.Texts.{Adds};
ghost use Rattle.scene_json_forms.specs.Text.{list_text};
ghost use Rattle.scene_model.specs.World.{kind_sets};
ghost use Rattle.scene_systems.specs.Filter.{is_match};
ghost use Rattle.scene_table.specs.Tables.{rows_at};
ghost use Rattle.scene_kinds.specs.Answers.{refusal_of};
ghost use Rattle.scene_kinds.specs.declared.fault.Fault.TheVariants.{NoSuchEntity};
ghost use Rattle.scene_print.specs.JsonTold.{refused_json};
ghost use Rattle.scene_print.specs.JsonAsked.{child_list, children_answer, maybe_entity, parent_answer, parent_json, resources_answer, table_head, tables_answer};

use crate::json_refused::write_json_refused;
use crate::json_rows::write_kinds;
use crate::json_world::write_resources;
use scene_json::write_count;
use scene_json_forms::{write_comma, write_entities, write_entity};
use scene_kinds::{Entity, Fault, KindSet, Refusal};
use scene_pass::Filter;
use scene_resources::Resources;
use scene_world::World;
use std::alloc::{AllocError, Global};

/// How many rows a kind set has.
fn row_count(world: &World, mask: KindSet) -> usize
    ensures { result ≡ length (rows_at world.now.world.tables mask) }
{
    match world.rows_of(mask) {
        Some(table) => table.len(),
        None => 0,
    }
}

/// Adds a kind set, and how many rows it has.
fn write_table_head(
    alloc: Global,
    out: &mut String,
    world: &World,
    mask: KindSet,
) -> Result<(), AllocError>
    ensures { OnOk result (Adds out.old out.new (compact_text (table_head world.now.world mask))) }
{
    out.push_str("{\"kinds\":")?;
    write_kinds(alloc, out, world.schema(), mask)?;
    out.push_str(",\"rows\":")?;
    write_count(out, row_count(world, mask) as u64)?;
    out.push_str("}")
}

/// Adds the list of kind sets, each with how many rows it has.
fn write_table_heads(
    alloc: Global,
    out: &mut String,
    world: &World,
    masks: &[KindSet],
) -> Result<(), AllocError>
    ensures { OnOk result (Adds out.old out.new (compact_text (list_text (table_head world.now.world) masks.now))) }
{
    let mut later = false;
    out.push_str("[")?;
    'masks: for mask in masks {
        write_comma(out, later)?;
        write_table_head(alloc, out, world, *mask)?;
        later = true;
    }
    out.push_str("]")
}

/// Adds the list of the kind sets with rows that a filter matches.
fn write_matching_heads(
    alloc: Global,
    out: &mut String,
    world: &World,
    filter: Filter,
) -> Result<(), AllocError>
    ensures { OnOk result (Adds out.old out.new
        (compact_text (list_text (table_head world.now.world) (kept (is_match filter) (kind_sets world.now.world))))) }
{
    let mut masks = world.tables()?;
    masks.retain(|mask| filter.matches(*mask));
    write_table_heads(alloc, out, world, masks.as_slice())
}

/// Adds the kind sets with rows that a filter matches as an answer, ascending, each by the names of its kinds with how
/// many rows it has (docs/SHELL.md, "Questions"). It costs the number of kind sets times its logarithm. An error only
/// where no memory was found; a part may be added then.
pub fn write_json_tables(
    alloc: Global,
    out: &mut String,
    world: &World,
    filter: Filter,
) -> Result<(), AllocError>
    ensures { OnOk result (Adds out.old out.new (compact_text (tables_answer world.now.world filter))) }
{
    out.push_str("{\"answer\":\"tables\",\"tables\":")?;
    write_matching_heads(alloc, out, world, filter)?;
    out.push_str("}")
}

/// Adds that there is no such entity.
fn write_no_entity(out: &mut String) -> Result<(), AllocError>
    ensures { OnOk result (Adds out.old out.new (compact_text (refused_json (refusal_of NoSuchEntity)))) }
{
    write_json_refused(out, Refusal::from(Fault::NoSuchEntity))
}

/// Adds entities as the children of one.
fn write_child_list(out: &mut String, children: &[Entity]) -> Result<(), AllocError>
    ensures { OnOk result (Adds out.old out.new (compact_text (child_list children.now))) }
{
    out.push_str("{\"answer\":\"children\",\"entities\":")?;
    write_entities(out, children)?;
    out.push_str("}")
}

/// Adds the children of an entity as an answer, in their order; or, where it isn't alive, the refusal `NoSuchEntity`
/// (docs/SHELL.md, "Questions"). An error only where no memory was found; a part may be added then.
pub fn write_json_children(
    out: &mut String,
    world: &World,
    entity: Entity,
) -> Result<(), AllocError>
    ensures { OnOk result (Adds out.old out.new (compact_text (children_answer world.now.world entity))) }
{
    if world.is_alive(entity) {
        write_child_list(out, world.links().children_of(entity))
    } else {
        write_no_entity(out)
    }
}

/// Adds an entity, or `null`.
fn write_maybe_entity(out: &mut String, entity: Option<Entity>) -> Result<(), AllocError>
    ensures { OnOk result (Adds out.old out.new (compact_text (maybe_entity entity))) }
{
    match entity {
        Some(entity) => write_entity(out, entity),
        None => out.push_str("null"),
    }
}

/// Adds an entity as the parent of one.
fn write_parent(out: &mut String, parent: Option<Entity>) -> Result<(), AllocError>
    ensures { OnOk result (Adds out.old out.new (compact_text (parent_json parent))) }
{
    out.push_str("{\"answer\":\"parent\",\"entity\":")?;
    write_maybe_entity(out, parent)?;
    out.push_str("}")
}

/// Adds the parent of an entity as an answer, or `null` where it has none; or, where the entity isn't alive, the
/// refusal `NoSuchEntity` (docs/SHELL.md, "Questions"). An error only where no memory was found; a part may be added
/// then.
pub fn write_json_parent(out: &mut String, world: &World, entity: Entity) -> Result<(), AllocError>
    ensures { OnOk result (Adds out.old out.new (compact_text (parent_answer world.now.world entity))) }
{
    if world.is_alive(entity) {
        write_parent(out, world.links().parent_of(entity))
    } else {
        write_no_entity(out)
    }
}

/// Adds the resources as an answer, by the bytes of their names (docs/SHELL.md, "Questions"). It costs a look for each.
/// An error only where no memory was found; a part may be added then.
pub fn write_json_resources(
    alloc: Global,
    out: &mut String,
    resources: &Resources,
) -> Result<(), AllocError>
    ensures { OnOk result (Adds out.old out.new (compact_text (resources_answer resources.now.cells))) }
{
    out.push_str("{\"answer\":\"resources\",\"resources\":")?;
    write_resources(alloc, out, resources)?;
    out.push_str("}")
}
