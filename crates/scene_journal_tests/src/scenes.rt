//! Small worlds, the entities and cells in them, and commands for queues.
use scene_commands::{Command, Components};
use scene_kinds::{Cell, Cells, Entity, Refusal, Schema, Shape, Value};
use scene_queue::Queue;
use scene_world::World;
use std::alloc::{AllocError, Global};

/// The number of the kind A, an Int.
pub const A: u8 = 0;

/// That of the kind T, a Tag.
pub const T: u8 = 1;

fn schema(alloc: Global) -> Result<Schema, Refusal> {
    let mut schema = Schema::new(alloc);
    for (name, shape) in [("A", Shape::Int), ("T", Shape::Tag)] {
        let _kind = schema.add(String::from_str(alloc, name)?, shape)?;
    }
    Ok(schema)
}

/// A world of tick 0 without entities, which has the kinds A and T and at most 4,096 slots.
pub fn empty_world(alloc: Global) -> Result<World, Refusal> {
    Ok(World::new(alloc, schema(alloc)?, 4096))
}

/// The first entity of an index.
pub const fn first(index: u32) -> Entity {
    Entity {
        index,
        generation: 1,
    }
}

pub fn cell(value: Value, added: u64, changed: u64) -> Cell {
    Cell {
        value,
        added,
        changed,
    }
}

/// A number, with the ticks at which it was added and last changed.
pub fn number(number: i64, added: u64, changed: u64) -> Cell {
    cell(Value::Int(number), added, changed)
}

/// Just a number of the kind A, of one tick.
pub fn one_number(alloc: Global, value: i64, tick: u64) -> Result<Cells, AllocError> {
    let mut cells = Cells::new(alloc);
    cells.put(A, number(value, tick, tick))?;
    Ok(cells)
}

/// Just the Tag, of one tick.
pub fn one_tag(alloc: Global, tick: u64) -> Result<Cells, AllocError> {
    let mut cells = Cells::new(alloc);
    cells.put(T, cell(Value::Tag, tick, tick))?;
    Ok(cells)
}

/// A spawn of an entity with one component.
pub fn spawn(alloc: Global, kind: u8, value: Value) -> Result<Command, AllocError> {
    let components = vec![in alloc; (kind, value)]?;
    Ok(Command::Spawn(Components::from(components)))
}

/// Pushes a command, and answers whether memory was found for it.
pub fn pushed(queue: &mut Queue, command: Result<Command, AllocError>) -> bool {
    match command {
        Ok(command) => queue.push(command).is_ok(),
        Err(_) => false,
    }
}
