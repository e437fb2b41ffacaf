//! A whole world as JSON.
ghost use Rattle.std.specs.Prelude.{◌≡◌, ◌<◌, OnOk, Some, length, slice_get, string_bytes, map as each};
ghost use Rattle.serde_json.specs.Written.{compact_text};
ghost use Rattle.scene_json.specs.Texts.{Adds};
ghost use Rattle.scene_links.specs.Forest.{children_of};
ghost use Rattle.scene_validate.specs.Parts.{lists_of};
ghost use Rattle.scene_json_forms.specs.NamedCells.{named_cells};
ghost use Rattle.scene_json_forms.specs.Text.{list_text};
ghost use Rattle.scene_file.specs.Text.{kind_text, children_text, resource_text, table_text, world_text};
ghost use Rattle.scene_file.specs.Printing.{first_members, last_members};

use crate::write_rows::write_tables;
use scene_json::write_json_text;
use scene_json_forms::{
    write_comma, write_counts, write_entities, write_entity, write_resource_cell,
};
use scene_kinds::{Cell, Entity, Schema, Shape};
use scene_links::Links;
use scene_resources::Resources;
use scene_world::World;
use std::alloc::{AllocError, Global};

/// The name and the shape of a kind that is there.
fn kind_at(schema: &Schema, kind: u8) -> (&str, Shape)
    requires { kind < length schema.now }
    ensures { slice_get schema.now kind ≡ Some (result.0.now, result.1) }
{
    match (schema.name_of(kind), schema.shape_of(kind)) {
        (Some(name), Some(shape)) => (name, shape),
        _ => unreachable!(),
    }
}

/// Adds a kind: its name and its shape.
fn write_kind(alloc: Global, out: &mut String, name: &str, shape: Shape) -> Result<(), AllocError>
    ensures { OnOk result (Adds out.old out.new (compact_text (kind_text (name.now, shape)))) }
{
    out.push_str("[")?;
    write_json_text(alloc, out, name)?;
    out.push_str(",")?;
    write_json_text(alloc, out, shape.name())?;
    out.push_str("]")
}

/// Adds the list of the kinds by number, each with its name and its shape, as a scene text has it
/// (docs/SCENE_FILES.md, "Version 1"). An error only where no memory was found; a part may be added then.
pub fn write_kinds(alloc: Global, out: &mut String, schema: &Schema) -> Result<(), AllocError>
    ensures { OnOk result (Adds out.old out.new (compact_text (list_text kind_text schema.now))) }
{
    let mut later = false;
    out.push_str("[")?;
    'kinds: for kind in 0..schema.len() {
        let (name, shape) = kind_at(schema, kind as u8);
        write_comma(out, later)?;
        write_kind(alloc, out, name, shape)?;
        later = true;
    }
    out.push_str("]")
}

/// Adds a parent with its list of children.
fn write_children(out: &mut String, links: &Links, parent: Entity) -> Result<(), AllocError>
    ensures { OnOk result (Adds out.old out.new (compact_text (children_text (parent, children_of links.now.forest parent)))) }
{
    out.push_str("{\"list\":")?;
    write_entities(out, links.children_of(parent))?;
    out.push_str(",\"parent\":")?;
    write_entity(out, parent)?;
    out.push_str("}")
}

/// Adds the list of parents with their children.
fn write_parents(out: &mut String, links: &Links, parents: &[Entity]) -> Result<(), AllocError>
    ensures { OnOk result (Adds out.old out.new (compact_text (list_text (λ p. children_text (p, children_of links.now.forest p)) parents.now))) }
{
    let mut later = false;
    out.push_str("[")?;
    'parents: for parent in parents {
        write_comma(out, later)?;
        write_children(out, links, *parent)?;
        later = true;
    }
    out.push_str("]")
}

/// Adds the list of all parents with their children, by the indices of the parents.
fn write_links(out: &mut String, links: &Links) -> Result<(), AllocError>
    ensures { OnOk result (Adds out.old out.new (compact_text (list_text children_text (lists_of links.now.forest)))) }
{
    let parents = links.parents()?;
    write_parents(out, links, parents.as_slice())
}

/// Adds a resource: its cell and its name.
fn write_resource(
    alloc: Global,
    out: &mut String,
    name: &str,
    cell: &Cell,
) -> Result<(), AllocError>
    ensures { OnOk result (Adds out.old out.new (compact_text (resource_text (name.now, cell.now)))) }
{
    out.push_str("{\"cell\":")?;
    write_resource_cell(alloc, out, cell)?;
    out.push_str(",\"name\":")?;
    write_json_text(alloc, out, name)?;
    out.push_str("}")
}

/// Adds the list of the resources of names.
fn write_named(
    alloc: Global,
    out: &mut String,
    resources: &Resources,
    names: &[String],
) -> Result<(), AllocError>
    ensures { OnOk result (Adds out.old out.new
        (compact_text (list_text resource_text (named_cells resources.now.cells (each string_bytes names.now))))) }
{
    let mut later = false;
    out.push_str("[")?;
    'names: for name in names {
        if let Some(cell) = resources.get(name.as_str()) {
            write_comma(out, later)?;
            write_resource(alloc, out, name.as_str(), cell)?;
            later = true;
        }
    }
    out.push_str("]")
}

/// Adds the list of all resources, by the bytes of their names.
#[tactic(auto, using(scene_json_forms::proofs::FoundCells::named_whole))]
fn write_resources(alloc: Global, out: &mut String, resources: &Resources) -> Result<(), AllocError>
    ensures { OnOk result (Adds out.old out.new (compact_text (list_text resource_text resources.now.cells.entries))) }
{
    let names = resources.names()?;
    write_named(alloc, out, resources, names.as_slice())
}

/// Adds the list of all tables, ascending by their kind sets.
fn write_archetypes(alloc: Global, out: &mut String, world: &World) -> Result<(), AllocError>
    ensures { OnOk result (Adds out.old out.new (compact_text (list_text table_text (lists_of world.now.world.tables)))) }
{
    let tables = world.tables_in_order()?;
    write_tables(alloc, out, tables.as_slice())
}

/// Adds the first five members of a world: what it was set up with, its slots and its links.
pub(crate) fn write_first_members(
    alloc: Global,
    out: &mut String,
    world: &World,
) -> Result<(), AllocError>
    ensures { OnOk result (Adds out.old out.new (first_members world.now.world)) }
{
    out.push_str("{\"children\":")?;
    write_links(out, world.links())?;
    out.push_str(",\"free\":")?;
    write_counts(out, world.slots().free())?;
    out.push_str(",\"generations\":")?;
    write_counts(out, world.slots().generations())?;
    out.push_str(",\"kinds\":")?;
    write_kinds(alloc, out, world.schema())?;
    write!(out, ",\"limit\":{}", world.slots().limit())?;
    Ok(())
}

/// Adds the other members of a world: its resources, the version of the text, its tables and its tick.
pub(crate) fn write_last_members(
    alloc: Global,
    out: &mut String,
    world: &World,
    version: u32,
) -> Result<(), AllocError>
    ensures { OnOk result (Adds out.old out.new (last_members version world.now.world)) }
{
    out.push_str(",\"resources\":")?;
    write_resources(alloc, out, world.resources())?;
    write!(out, ",\"scene\":{version},\"tables\":")?;
    write_archetypes(alloc, out, world)?;
    write!(out, ",\"tick\":{}", world.tick())?;
    Ok(())
}

/// Adds a world as JSON (docs/SCENE_FILES.md, "Version 1"). It costs a walk over the world, and a look for each parent
/// and each resource.
pub(crate) fn write_world(alloc: Global, out: &mut String, world: &World) -> Result<(), AllocError>
    ensures { OnOk result (Adds out.old out.new (compact_text (world_text world.now.world))) }
{
    write_first_members(alloc, out, world)?;
    write_last_members(alloc, out, world, 1)?;
    out.push_str("}")
}
