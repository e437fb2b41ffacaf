//! Worlds that are saved and loaded.
use crate::texts::MOVED;
use scene_file::{load, save, save_text};
use scene_kinds::{Entity, KindSet, Refusal, Schema, Shape, Value};
use scene_lower_tests::{Pieces, Taker};
use scene_streams::{Sink, Source};
use scene_world::World;
use std::alloc::Global;
use std::io::ErrorKind;
use std::test::Fail;

/// The number of the kind A, an Int.
const A: u8 = 0;

/// That of the kind T, a Tag.
const T: u8 = 1;

/// The kind set of just A.
const JUST_A: KindSet = 1;

/// The first entity of an index.
fn first(index: u32) -> Entity {
    Entity {
        index,
        generation: 1,
    }
}

/// A world without entities, of the kinds A and T.
fn empty_world(alloc: Global) -> Result<World, Refusal> {
    let mut schema = Schema::new(alloc);
    let _a = schema.add(String::from_str(alloc, "A")?, Shape::Int)?;
    let _t = schema.add(String::from_str(alloc, "T")?, Shape::Tag)?;
    Ok(World::new(alloc, schema, 4))
}

/// An entity with a number comes, on the next tick.
fn spawn(alloc: Global, world: &mut World, number: i64) -> Result<(), Refusal> {
    world.raise_tick()?;
    let _entity = world.spawn(vec![in alloc; (A, Value::Int(number))]?)?;
    Ok(())
}

/// The row of the second of three entities leaves its table for that with T, and comes back, each on a tick of its own.
fn move_rows(alloc: Global, world: &mut World) -> Result<(), Refusal> {
    for number in 0..3 {
        spawn(alloc, world, number)?;
    }
    world.raise_tick()?;
    world.insert(first(1), T, Value::Tag)?;
    world.raise_tick()?;
    world.remove(first(1), T)
}

/// Whether the rows stand as they do after these moves.
fn is_moved(world: &World) -> bool {
    let order = [first(0), first(2), first(1)];
    world.tick() == 5
        && world
            .rows_of(JUST_A)
            .is_some_and(|table| table.entities() == order.as_slice())
        && world.place_of(first(1)) == Some(2)
        && world.get(first(1), T).is_err()
}

/// Whether a save of a world writes this text, to a writer that takes little at a time.
fn saves_as(alloc: Global, world: &World, text: &str) -> bool {
    let mut sink = Sink::new(Taker::new(alloc, 0, true));
    save(alloc, &mut sink, world).is_ok() && sink.get_ref().taken() == text.as_bytes()
}

/// Whether the text of a world is this one.
fn prints_as(alloc: Global, world: &World, text: &str) -> bool {
    save_text(alloc, world).is_ok_and(|found| found.as_str() == text)
}

/// Whether a load of a text, of which a reader gives little at a time, gives the world with the moved rows, which
/// prints so again.
fn loads_moved(alloc: Global, text: &str) -> bool {
    let mut source = Source::new(Pieces::new(text.as_bytes(), 7, 0, ErrorKind::Other));
    match load(alloc, &mut source) {
        Ok(world) => is_moved(&world) && prints_as(alloc, &world, text),
        Err(_) => false,
    }
}

#[test]
fn a_saved_world_with_moved_rows_is_loaded(rt: HostRuntime) -> Result<(), Fail> {
    let mut world = empty_world(rt.alloc())?;
    assert!(rt; move_rows(rt.alloc(), &mut world).is_ok());
    assert!(rt; is_moved(&world));
    assert!(rt; saves_as(rt.alloc(), &world, MOVED));
    assert!(rt; loads_moved(rt.alloc(), MOVED));
    Ok(())
}
