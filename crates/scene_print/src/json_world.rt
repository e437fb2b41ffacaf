//! A whole world as JSON.
ghost use Rattle.std.specs.Prelude.{OnOk, string_bytes, map as each};
ghost use Rattle.serde_json.specs.Written.{compact_text};
ghost use Rattle.scene_json.specs.Texts.{Adds};
ghost use Rattle.scene_links.specs.Forest.{parents};
ghost use Rattle.scene_model.specs.World.{kind_sets};
ghost use Rattle.scene_table.specs.Tables.{rows_at};
ghost use Rattle.scene_json_forms.specs.NamedCells.{named_cells};
ghost use Rattle.scene_json_forms.specs.Text.{list_text};
ghost use Rattle.scene_print.specs.JsonObjects.{object_by};
ghost use Rattle.scene_print.specs.JsonShown.{children_member, resource_member, row_json, table_of, world_answer};
ghost use Rattle.scene_print.specs.JsonSteps.{first_members, last_members, member_text};

use crate::json_rows::{write_kinds, write_rows};
use scene_json::write_json_text;
use scene_json_forms::{
    write_comma, write_counts, write_entities, write_entity, write_resource_cell,
};
use scene_kinds::{Cell, Entity, KindSet};
use scene_links::Links;
use scene_resources::Resources;
use scene_world::World;
use std::alloc::{AllocError, Global};

/// Adds the list of the rows of a kind set.
fn write_rows_of(
    alloc: Global,
    out: &mut String,
    world: &World,
    mask: KindSet,
) -> Result<(), AllocError>
    ensures { OnOk result (Adds out.old out.new (compact_text (list_text (row_json world.now.world.schema) (rows_at world.now.world.tables mask)))) }
{
    match world.rows_of(mask) {
        Some(table) => write_rows(alloc, out, world.schema(), table),
        None => out.push_str("[]"),
    }
}

/// Adds a table: the names of its kinds, and its rows.
fn write_table(
    alloc: Global,
    out: &mut String,
    world: &World,
    mask: KindSet,
) -> Result<(), AllocError>
    ensures { OnOk result (Adds out.old out.new (compact_text (table_of world.now.world mask))) }
{
    out.push_str("{\"kinds\":")?;
    write_kinds(alloc, out, world.schema(), mask)?;
    out.push_str(",\"rows\":")?;
    write_rows_of(alloc, out, world, mask)?;
    out.push_str("}")
}

/// Adds the list of the tables of kind sets.
fn write_tables(
    alloc: Global,
    out: &mut String,
    world: &World,
    masks: &[KindSet],
) -> Result<(), AllocError>
    ensures { OnOk result (Adds out.old out.new (compact_text (list_text (table_of world.now.world) masks.now))) }
{
    let mut later = false;
    out.push_str("[")?;
    'masks: for mask in masks {
        write_comma(out, later)?;
        write_table(alloc, out, world, *mask)?;
        later = true;
    }
    out.push_str("]")
}

/// Adds the list of all tables, ascending by their kind sets.
fn write_archetypes(alloc: Global, out: &mut String, world: &World) -> Result<(), AllocError>
    ensures { OnOk result (Adds out.old out.new (compact_text (list_text (table_of world.now.world) (kind_sets world.now.world)))) }
{
    let masks = world.tables()?;
    write_tables(alloc, out, world, masks.as_slice())
}

/// Adds the children of an entity under its text.
fn write_children(out: &mut String, links: &Links, parent: Entity) -> Result<(), AllocError>
    ensures { OnOk result (Adds out.old out.new (member_text (children_member links.now.forest parent))) }
{
    write_entity(out, parent)?;
    out.push_str(":")?;
    write_entities(out, links.children_of(parent))
}

/// Adds the object of the children of parents.
fn write_parents(out: &mut String, links: &Links, parents: &[Entity]) -> Result<(), AllocError>
    ensures { OnOk result (Adds out.old out.new (compact_text (object_by (children_member links.now.forest) parents.now))) }
{
    let mut later = false;
    out.push_str("{")?;
    'parents: for parent in parents {
        write_comma(out, later)?;
        write_children(out, links, *parent)?;
        later = true;
    }
    out.push_str("}")
}

/// Adds the object of the children of all entities that have some, by the indices of the parents.
fn write_links(out: &mut String, links: &Links) -> Result<(), AllocError>
    ensures { OnOk result (Adds out.old out.new (compact_text (object_by (children_member links.now.forest) (parents links.now.forest)))) }
{
    let parents = links.parents()?;
    write_parents(out, links, parents.as_slice())
}

/// Adds the cell of a resource under its name.
fn write_resource(
    alloc: Global,
    out: &mut String,
    name: &str,
    cell: &Cell,
) -> Result<(), AllocError>
    ensures { OnOk result (Adds out.old out.new (member_text (resource_member (name.now, cell.now)))) }
{
    write_json_text(alloc, out, name)?;
    out.push_str(":")?;
    write_resource_cell(alloc, out, cell)
}

/// Adds the object of the resources of names.
fn write_named(
    alloc: Global,
    out: &mut String,
    resources: &Resources,
    names: &[String],
) -> Result<(), AllocError>
    ensures { OnOk result (Adds out.old out.new
        (compact_text (object_by resource_member (named_cells resources.now.cells (each string_bytes names.now))))) }
{
    let mut later = false;
    out.push_str("{")?;
    'names: for name in names {
        if let Some(cell) = resources.get(name.as_str()) {
            write_comma(out, later)?;
            write_resource(alloc, out, name.as_str(), cell)?;
            later = true;
        }
    }
    out.push_str("}")
}

/// Adds the object of all resources, by the bytes of their names.
#[tactic(auto, using(scene_json_forms::proofs::FoundCells::named_whole))]
pub(crate) fn write_resources(
    alloc: Global,
    out: &mut String,
    resources: &Resources,
) -> Result<(), AllocError>
    ensures { OnOk result (Adds out.old out.new (compact_text (object_by resource_member resources.now.cells.entries))) }
{
    let names = resources.names()?;
    write_named(alloc, out, resources, names.as_slice())
}

/// Adds the members of a world up to its free list.
fn write_first_members(out: &mut String, world: &World) -> Result<(), AllocError>
    ensures { OnOk result (Adds out.old out.new (first_members world.now.world)) }
{
    write!(
        out,
        "{{\"answer\":\"world\",\"tick\":{},\"generations\":",
        world.tick()
    )?;
    write_counts(out, world.slots().generations())?;
    out.push_str(",\"free\":")?;
    write_counts(out, world.slots().free())
}

/// Adds its members from its tables on.
fn write_last_members(alloc: Global, out: &mut String, world: &World) -> Result<(), AllocError>
    ensures { OnOk result (Adds out.old out.new (last_members world.now.world)) }
{
    out.push_str(",\"tables\":")?;
    write_archetypes(alloc, out, world)?;
    out.push_str(",\"children\":")?;
    write_links(out, world.links())?;
    out.push_str(",\"resources\":")?;
    write_resources(alloc, out, world.resources())
}

/// Adds a world as an answer (docs/SHELL.md, "JSON"): its tick, its generations by index, its free list, its tables,
/// ascending by kind set, its children by parent, and its resources by name. It costs a walk over the world, and a
/// look for each kind set, parent and resource. An error only where no memory was found; a part may be added then.
pub fn write_json_world(alloc: Global, out: &mut String, world: &World) -> Result<(), AllocError>
    ensures { OnOk result (Adds out.old out.new (compact_text (world_answer world.now.world))) }
{
    write_first_members(out, world)?;
    write_last_members(alloc, out, world)?;
    out.push_str("}")
}
