//! Parts of a small world. Where no memory is found, the test fails.
use scene_kinds::{Cell, Cells, Entity, Row, Schema, Shape, Value};
use scene_validate::WorldParts;
use std::alloc::Global;
use std::process::Abort;

/// The last entity that the first index ever has.
pub fn last_entity() -> Entity {
    Entity {
        index: 0,
        generation: u32::MAX,
    }
}

/// A row of `last_entity`, with 5 for its one kind, since tick 1.
fn last_row(rt: &impl Abort, alloc: Global) -> Row {
    let cell = Cell {
        value: Value::Int(5),
        added: 1,
        changed: 1,
    };
    let cells = vec![in alloc; (0, cell)].expect(rt, "memory");
    Row {
        entity: last_entity(),
        cells: Cells::from_vec(cells),
    }
}

/// A schema of the kind `A`, a whole number.
fn schema(rt: &impl Abort, alloc: Global) -> Schema {
    let mut schema = Schema::new(alloc);
    let name = String::from_str(alloc, "A").expect(rt, "memory");
    assert_eq!(rt; schema.add(name, Shape::Int), Ok(0));
    schema
}

/// The parts of a world of tick 1, of the kind `A`, a whole number, and of `last_entity`, in which one slot is left.
pub fn last_parts(rt: &impl Abort, alloc: Global) -> WorldParts {
    let rows = vec![in alloc; last_row(rt, alloc)].expect(rt, "memory");
    WorldParts {
        schema: schema(rt, alloc),
        limit: 2,
        tick: 1,
        generations: vec![in alloc; u32::MAX].expect(rt, "memory"),
        free: Vec::new(alloc),
        tables: vec![in alloc; (1, rows)].expect(rt, "memory"),
        children: Vec::new(alloc),
        resources: Vec::new(alloc),
    }
}
