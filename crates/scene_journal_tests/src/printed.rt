//! Worlds and deltas as texts, so that tests can compare them.
ghost use Rattle.std.specs.Prelude.{◌<◌, length};

use scene_deltas::Delta;
use scene_kinds::Entity;
use scene_table::Table;
use scene_world::World;
use std::alloc::{AllocError, Global};

/// The kinds, the slots with their limit, and the tick.
fn write_head(world: &World, text: &mut String) -> Result<(), AllocError> {
    let (schema, tick) = (world.schema(), world.tick());
    let slots = world.slots();
    let (limit, generations, free) = (slots.limit(), slots.generations(), slots.free());
    writeln!(text, "tick {tick}, {schema:?}")?;
    writeln!(text, "{limit} slots {generations:?} free {free:?}")
}

/// The cells of a row, each with both ticks.
fn write_cells(table: &Table, at: usize, text: &mut String) -> Result<(), AllocError>
    requires { at < length table.now.rows }
{
    for number in 0..table.cell_count(at) {
        let (kind, cell) = table.nth_cell(at, number);
        writeln!(text, "cell {kind} {cell:?}")?;
    }
    Ok(())
}

/// The rows of a table.
fn write_rows(table: &Table, text: &mut String) -> Result<(), AllocError> {
    let mask = table.mask();
    writeln!(text, "table {mask}")?;
    for at in 0..table.len() {
        let entity = table.entity_at(at);
        writeln!(text, "row {entity:?}")?;
        write_cells(table, at, text)?;
    }
    Ok(())
}

fn write_tables(tables: &[&Table], text: &mut String) -> Result<(), AllocError> {
    for table in tables {
        write_rows(table, text)?;
    }
    Ok(())
}

/// The children of parents, in their order.
fn write_children(world: &World, parents: &[Entity], text: &mut String) -> Result<(), AllocError> {
    for parent in parents {
        let children = world.links().children_of(*parent);
        writeln!(text, "children of {parent:?} {children:?}")?;
    }
    Ok(())
}

fn write_resources(world: &World, names: &[String], text: &mut String) -> Result<(), AllocError> {
    for name in names {
        let cell = world.resources().get(name.as_str());
        writeln!(text, "resource {name:?} {cell:?}")?;
    }
    Ok(())
}

/// The rows, links and resources of a world.
fn write_body(world: &World, text: &mut String) -> Result<(), AllocError> {
    write_tables(world.tables_in_order()?.as_slice(), text)?;
    write_children(world, world.links().parents()?.as_slice(), text)?;
    write_resources(world, world.resources().names()?.as_slice(), text)
}

/// All that a world is: its kinds, slots, free indices, tick, rows, children and resources, in their order. So two
/// worlds are equal just where their texts are; the room that they have isn't told.
pub fn text_of(alloc: Global, world: &World) -> Result<String, AllocError> {
    let mut text = String::new(alloc);
    let written = write_head(world, &mut text).and(write_body(world, &mut text));
    written.map(|()| text)
}

/// A delta with all that it holds.
fn shown(alloc: Global, delta: &Delta) -> Result<String, AllocError> {
    format!(in alloc; "{delta:?}")
}

/// Whether two deltas hold the same, by their texts.
pub fn same_delta(alloc: Global, one: &Delta, other: &Delta) -> bool {
    let Ok(one) = shown(alloc, one) else {
        return false;
    };
    match shown(alloc, other) {
        Ok(other) => one == other,
        Err(_) => false,
    }
}
