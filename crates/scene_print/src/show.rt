//! The printed text of a whole world.
ghost use Rattle.std.specs.Prelude.{◌≡◌, ◌++◌, ◌<◌, OnOk, IfOk, Some, length, map, slice_get, string_bytes, option_map};
ghost use Rattle.scene_json.specs.Texts.{Adds};
ghost use Rattle.scene_kinds.specs.declared.cells.Row.{Row};
ghost use Rattle.scene_model.specs.World.{kind_sets};
ghost use Rattle.scene_table.specs.Tables.{rows_at};
ghost use Rattle.scene_links.specs.Forest.{parents};
ghost use Rattle.scene_resources.specs.Resources.{cell_of};
ghost use Rattle.scene_print.specs.Printed.{cells_text, row_text};
ghost use Rattle.scene_print.specs.Shown.{numbers_text, names_from, more_names, names_text, rows_text, table_text, tables_text, entities_text, link_text, links_text, resource_text, resources_text, head_text, show_text};
ghost use Rattle.scene_print.specs.ShowSteps.{name_in, one_name, one_resource, named_text};

use crate::kind_texts::KindTexts;
use crate::ticks::PrintedTicks;
use crate::values::{write_cell, write_next_cell, write_row_head};
use scene_json::write_count;
use scene_json_forms::write_entity_text;
use scene_kinds::{Cell, Entity, KindSet, KindSetMethods, Schema};
use scene_links::Links;
use scene_resources::Resources;
use scene_table::Table;
use scene_world::World;
use std::alloc::{AllocError, Global};

/// Adds numbers, each after a space.
fn write_numbers(out: &mut String, numbers: &[u32]) -> Result<(), AllocError>
    ensures { OnOk result (Adds out.old out.new (numbers_text numbers.now)) }
{
    'numbers: for n in numbers {
        out.push_str(" ")?;
        write_count(out, *n as u64)?;
    }
    Ok(())
}

/// The name of a kind that a kind set has.
fn name_in(schema: &Schema, mask: KindSet, kind: u8) -> Option<&str>
    ensures { option_map (λ n. n.now) result ≡ name_in schema.now mask kind }
{
    if mask.contains(kind) {
        schema.name_of(kind)
    } else {
        None
    }
}

/// Adds a name where there is one.
fn push_some<'s>(names: &mut Vec<&'s str>, name: Option<&'s str>) -> Result<(), AllocError>
    ensures { OnOk result (map (λ n. n.now) names.new.items ≡ map (λ n. n.now) names.old.items ++ one_name (option_map (λ n. n.now) name.entry)) }
{
    if let Some(name) = name {
        names.push(name)?;
    }
    Ok(())
}

/// The names of the kinds that a kind set has, by their numbers.
fn names_of<'s>(
    alloc: Global,
    schema: &'s Schema,
    mask: KindSet,
) -> Result<Vec<&'s str>, AllocError>
    ensures { IfOk result (λ names. map (λ n. n.now) names.items ≡ names_from schema.now 0 mask) }
{
    let mut names = Vec::new(alloc);
    let count = schema.len();
    let mut kind = 0u8;
    'kinds: while (kind as usize) < count {
        push_some(&mut names, name_in(schema, mask, kind))?;
        kind += 1;
    }
    Ok(names)
}

/// Adds names, each after a comma.
fn write_more_names(out: &mut String, names: &[&str]) -> Result<(), AllocError>
    ensures { OnOk result (Adds out.old out.new (more_names (map (λ n. n.now) names.now))) }
{
    'names: for name in names {
        out.push(',')?;
        out.push_str(name)?;
    }
    Ok(())
}

/// Adds names with commas between them, or `-` where there are none.
fn write_names(out: &mut String, names: &[&str]) -> Result<(), AllocError>
    ensures { OnOk result (Adds out.old out.new (names_text (map (λ n. n.now) names.now))) }
{
    match names {
        [] => out.push_str("-"),
        [first, rest @ ..] => {
            out.push_str(first)?;
            write_more_names(out, rest)
        }
    }
}

/// Adds the cells of the row at a place of a table, each after a space and with the name of its kind.
fn write_row_cells(
    alloc: Global,
    out: &mut String,
    kinds: &KindTexts<'_>,
    table: &Table,
    at: usize,
    ticks: &mut PrintedTicks,
) -> Result<(), AllocError>
    requires { at < length table.now.rows }
    ensures { OnOk result ((row : Row) → slice_get table.now.rows at ≡ Some row
        → Adds out.old out.new (cells_text kinds.now row.cells)) }
{
    'cells: for number in 0..table.cell_count(at) {
        let (kind, cell) = table.nth_cell(at, number);
        write_next_cell(alloc, out, kinds, kind, cell, ticks)?;
    }
    Ok(())
}

/// Adds the row at a place of a table as `write_row` does, where these ticks were printed last.
fn write_next_row(
    alloc: Global,
    out: &mut String,
    kinds: &KindTexts<'_>,
    table: &Table,
    at: usize,
    ticks: &mut PrintedTicks,
) -> Result<(), AllocError>
    requires { at < length table.now.rows }
    ensures { OnOk result ((row : Row) → slice_get table.now.rows at ≡ Some row
        → Adds out.old out.new (row_text kinds.now row)) }
{
    write_row_head(out, table.entity_at(at))?;
    write_row_cells(alloc, out, kinds, table, at, ticks)
}

/// Adds the row at a place of a table, from 0: `row`, its entity, and its cells by kind, each after a space
/// (docs/SCRIPTS.md, "Output"). It adds no line feed. An error only where no memory was found; a part may be added
/// then.
pub fn write_row(
    alloc: Global,
    out: &mut String,
    schema: &Schema,
    table: &Table,
    at: usize,
) -> Result<(), AllocError>
    requires { at < length table.now.rows }
    ensures { OnOk result ((row : Row) → slice_get table.now.rows at ≡ Some row
        → Adds out.old out.new (row_text schema.now row)) }
{
    let kinds = KindTexts::none(alloc, schema);
    let mut ticks = PrintedTicks::new(alloc);
    write_next_row(alloc, out, &kinds, table, at, &mut ticks)
}

/// Adds the rows of a table, a line each.
fn write_rows(
    alloc: Global,
    out: &mut String,
    kinds: &KindTexts<'_>,
    table: &Table,
    ticks: &mut PrintedTicks,
) -> Result<(), AllocError>
    ensures { OnOk result (Adds out.old out.new (rows_text kinds.now table.now.rows)) }
{
    'rows: for at in 0..table.len() {
        write_next_row(alloc, out, kinds, table, at, ticks)?;
        out.push('\n')?;
    }
    Ok(())
}

/// Adds the rows of a kind set, a line each.
fn write_rows_of(
    alloc: Global,
    out: &mut String,
    kinds: &KindTexts<'_>,
    world: &World,
    mask: KindSet,
    ticks: &mut PrintedTicks,
) -> Result<(), AllocError>
    ensures { OnOk result (Adds out.old out.new (rows_text kinds.now (rows_at world.now.world.tables mask))) }
{
    match world.rows_of(mask) {
        Some(table) => write_rows(alloc, out, kinds, table, ticks),
        None => Ok(()),
    }
}

/// Adds a table: the names of its kind set, and its rows.
fn write_table(
    alloc: Global,
    out: &mut String,
    kinds: &KindTexts<'_>,
    world: &World,
    mask: KindSet,
    ticks: &mut PrintedTicks,
) -> Result<(), AllocError>
    ensures { OnOk result (Adds out.old out.new (table_text kinds.now mask
        (rows_at world.now.world.tables mask))) }
{
    let names = names_of(alloc, kinds.schema(), mask)?;
    out.push_str("table ")?;
    write_names(out, names.as_slice())?;
    out.push('\n')?;
    write_rows_of(alloc, out, kinds, world, mask, ticks)
}

/// Adds tables. The texts of the kinds and the ticks that were printed last go from cell to cell.
fn write_tables(
    alloc: Global,
    out: &mut String,
    world: &World,
    masks: &[KindSet],
) -> Result<(), AllocError>
    ensures { OnOk result (Adds out.old out.new (tables_text world.now.world masks.now)) }
{
    let entities = world.slots().generations().len();
    let kinds = KindTexts::for_entities(alloc, world.schema(), entities)?;
    let mut ticks = PrintedTicks::new(alloc);
    'masks: for mask in masks {
        write_table(alloc, out, &kinds, world, *mask, &mut ticks)?;
    }
    Ok(())
}

/// Adds entities, each after a space. An error only where no memory was found; some may be added then.
#[inline(always)]
pub fn write_entities(out: &mut String, entities: &[Entity]) -> Result<(), AllocError>
    ensures { OnOk result (Adds out.old out.new (entities_text entities.now)) }
{
    'entities: for entity in entities {
        out.push_str(" ")?;
        write_entity_text(out, *entity)?;
    }
    Ok(())
}

/// Adds a parent and its children.
fn write_link(out: &mut String, links: &Links, parent: Entity) -> Result<(), AllocError>
    ensures { OnOk result (Adds out.old out.new (link_text links.now.forest parent)) }
{
    out.push_str("link ")?;
    write_entity_text(out, parent)?;
    write_entities(out, links.children_of(parent))?;
    out.push('\n')
}

/// Adds the links of parents, a line each.
fn write_links(out: &mut String, links: &Links, parents: &[Entity]) -> Result<(), AllocError>
    ensures { OnOk result (Adds out.old out.new (links_text links.now.forest parents.now)) }
{
    'parents: for parent in parents {
        write_link(out, links, *parent)?;
    }
    Ok(())
}

/// Adds the tick, the generations by index and the free list.
fn write_head(out: &mut String, world: &World) -> Result<(), AllocError>
    ensures { OnOk result (Adds out.old out.new (head_text world.now.world)) }
{
    write!(out, "tick {}\ngens", world.tick())?;
    write_numbers(out, world.slots().generations())?;
    out.push_str("\nfree")?;
    write_numbers(out, world.slots().free())?;
    out.push_str("\n")
}

/// Adds all tables, ascending by their kind sets.
fn write_archetypes(alloc: Global, out: &mut String, world: &World) -> Result<(), AllocError>
    ensures { OnOk result (Adds out.old out.new (tables_text world.now.world (kind_sets world.now.world))) }
{
    let masks = world.tables()?;
    write_tables(alloc, out, world, masks.as_slice())
}

/// Adds all links, by the indices of the parents.
fn write_forest(out: &mut String, links: &Links) -> Result<(), AllocError>
    ensures { OnOk result (Adds out.old out.new (links_text links.now.forest (parents links.now.forest))) }
{
    let parents = links.parents()?;
    write_links(out, links, parents.as_slice())
}

/// Adds a resource: its name, and its cell with the name of its shape.
fn write_resource(
    alloc: Global,
    out: &mut String,
    name: &str,
    cell: &Cell,
) -> Result<(), AllocError>
    ensures { OnOk result (Adds out.old out.new (resource_text name.now cell.now)) }
{
    write!(out, "resource {name} ")?;
    write_cell(alloc, out, cell.value.shape().name(), cell)?;
    out.push('\n')
}

/// Adds the resource of a name, where there is one.
fn write_named(
    alloc: Global,
    out: &mut String,
    resources: &Resources,
    name: &str,
) -> Result<(), AllocError>
    ensures { OnOk result (Adds out.old out.new (one_resource name.now (cell_of resources.now.cells name.now))) }
{
    match resources.get(name) {
        None => Ok(()),
        Some(cell) => write_resource(alloc, out, name, cell),
    }
}

/// Adds the resources of names, a line each.
fn write_each_named(
    alloc: Global,
    out: &mut String,
    resources: &Resources,
    names: &[String],
) -> Result<(), AllocError>
    ensures { OnOk result (Adds out.old out.new (named_text resources.now.cells (map string_bytes names.now))) }
{
    'names: for name in names {
        write_named(alloc, out, resources, name.as_str())?;
    }
    Ok(())
}

/// Adds all resources, by the bytes of their names.
#[tactic(auto, using(crate::proofs::ResourceLaws::named_whole))]
fn write_resources(alloc: Global, out: &mut String, resources: &Resources) -> Result<(), AllocError>
    ensures { OnOk result (Adds out.old out.new (resources_text resources.now.cells.entries)) }
{
    let names = resources.names()?;
    write_each_named(alloc, out, resources, names.as_slice())
}

/// Adds a world (docs/SCRIPTS.md, "Output"): its tick, its generations by index, its free list, each table by its
/// kind set, ascending, the links of each entity with children, by index, and each resource, by the bytes of its
/// name. It costs a walk over the world, and a look for each name. An error only where no memory was found; a part may
/// be added then.
pub fn write_show(alloc: Global, out: &mut String, world: &World) -> Result<(), AllocError>
    ensures { OnOk result (Adds out.old out.new (show_text world.now.world)) }
{
    write_head(out, world)?;
    write_archetypes(alloc, out, world)?;
    write_forest(out, world.links())?;
    write_resources(alloc, out, world.resources())
}
