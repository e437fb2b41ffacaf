//! Row steps where they succeed: over vectors, over more rows than a thread gets alone, and over sums that don't fit.
use scene_kinds::{Entity, Refusal, Schema, Shape, Value};
use scene_pass::{Filter, Outcome, RowChange, RowStep, first_fault, map_rows, map_rows_alone};
use scene_world::World;
use std::alloc::Global;
use std::test::Fail;
use std::thread::Threads;

/// The kinds of the worlds: a number, and two vectors.
const NUMBER: u8 = 0;

const PLACE: u8 = 1;

const SPEED: u8 = 2;

/// A world without entities.
fn empty_world(alloc: Global) -> Result<World, Refusal> {
    let mut schema = Schema::new(alloc);
    for (name, shape) in [
        ("Number", Shape::Int),
        ("Place", Shape::Vec3),
        ("Speed", Shape::Vec3),
    ] {
        let _kind = schema.add(String::from_str(alloc, name)?, shape)?;
    }
    Ok(World::new(alloc, schema, 5000))
}

/// Spawns rows that have the numbers from 0 up, one each.
fn spawn_numbers(alloc: Global, world: &mut World, count: i64) -> Result<(), Refusal> {
    for number in 0..count {
        let _entity = world.spawn(vec![in alloc; (NUMBER, Value::Int(number))]?)?;
    }
    Ok(())
}

/// The values that were written of a row.
fn written(change: &RowChange) -> &[(u8, Value)] {
    match &change.outcome {
        Outcome::Changed(cells) => cells.as_slice(),
        Outcome::Overflow(_) => &[],
    }
}

fn number_of(value: &Value) -> Option<i64> {
    match value {
        Value::Int(number) => Some(*number),
        _ => None,
    }
}

fn vector_of(value: &Value) -> Option<[i64; 3]> {
    match value {
        Value::Vec3(vector) => Some(*vector),
        _ => None,
    }
}

/// Whether just a number was written, this one.
fn is_number(change: &RowChange, number: i64) -> bool {
    let cells = written(change);
    if cells.len() != 1 {
        return false;
    }
    cells[0].0 == NUMBER && number_of(&cells[0].1) == Some(number)
}

/// Whether just a place was written, this one.
fn is_place(change: &RowChange, place: [i64; 3]) -> bool {
    let cells = written(change);
    if cells.len() != 1 {
        return false;
    }
    cells[0].0 == PLACE && vector_of(&cells[0].1) == Some(place)
}

/// Whether the numbers that were written count up from a first one, and how many there are.
fn count_up(changes: &[RowChange], first: i64) -> Option<usize> {
    let mut number = first;
    for change in changes {
        if !is_number(change, number) {
            return None;
        }
        number = number.wrapping_add(1);
    }
    Some(changes.len())
}

fn first(index: u32) -> Entity {
    Entity {
        index,
        generation: 1,
    }
}

/// Whether a place is right after two steps, by the speed 10 -2 0.
fn moves_twice(alloc: Global, world: &mut World) -> Result<bool, Refusal> {
    let cells = vec![in alloc;
        (SPEED, Value::Vec3([10, -2, 0])),
        (PLACE, Value::Vec3([1, 2, 3])),
    ]?;
    let _entity = world.spawn(cells)?;
    let step = RowStep::AddVec {
        to: PLACE,
        by: SPEED,
    };
    let made = map_rows_alone(alloc, world, Filter::all(), [step, step].as_slice())?;
    Ok(made.len() == 1 && is_place(&made[0], [21, -2, 3]))
}

/// How many rows count up from 1 after 1 was added to numbers from 0, in one thread and in many.
fn raised<R: Threads + Sync>(
    rt: &R,
    alloc: Global,
    world: &mut World,
    count: i64,
) -> Result<[Option<usize>; 2], Refusal> {
    spawn_numbers(alloc, world, count)?;
    let step = RowStep::AddInt { to: NUMBER, by: 1 };
    let alone = map_rows_alone(alloc, world, Filter::all(), [step].as_slice())?;
    let parted = map_rows(rt, alloc, world, Filter::all(), [step].as_slice())?;
    Ok([
        count_up(alone.as_slice(), 1),
        count_up(parted.as_slice(), 1),
    ])
}

/// The first of 3,000 rows with numbers from 0 whose second sum doesn't fit, in one thread and in many.
fn faults<R: Threads + Sync>(
    rt: &R,
    alloc: Global,
    world: &mut World,
) -> Result<[Option<(Entity, u32)>; 2], Refusal> {
    spawn_numbers(alloc, world, 3000)?;
    let steps = [
        RowStep::AddInt { to: NUMBER, by: 0 },
        RowStep::AddInt {
            to: NUMBER,
            by: i64::MAX - 2499,
        },
    ];
    let alone = map_rows_alone(alloc, world, Filter::all(), steps.as_slice())?;
    let parted = map_rows(rt, alloc, world, Filter::all(), steps.as_slice())?;
    Ok([
        first_fault(alone.as_slice()),
        first_fault(parted.as_slice()),
    ])
}

/// What is tried on a world without entities.
#[derive(Clone, Copy)]
enum Trial {
    /// Vectors are added.
    Vectors,
    /// 1 is added to so many numbers.
    Raises(u32),
    /// The first overflow is named.
    Overflows,
}

impl Trial {
    fn holds<R: Threads + Sync>(self, rt: &R, alloc: Global, world: &mut World) -> bool {
        let want = Some((first(2500), 1));
        match self {
            Trial::Vectors => moves_twice(alloc, world) == Ok(true),
            Trial::Raises(count) => {
                let all = Some(count as usize);
                raised(rt, alloc, world, i64::from(count)) == Ok([all, all])
            }
            Trial::Overflows => faults(rt, alloc, world) == Ok([want, want]),
        }
    }
}

/// Whether it holds. The one function of these tests that drops a world, which is dear to prove.
fn holds<R: Threads + Sync>(rt: &R, alloc: Global, trial: Trial) -> bool {
    match empty_world(alloc) {
        Ok(made) => {
            let mut world = made;
            trial.holds(rt, alloc, &mut world)
        }
        Err(_) => false,
    }
}

#[test]
fn vectors_are_added(rt: HostRuntime) -> Result<(), Fail> {
    assert!(rt; holds(&rt, rt.alloc(), Trial::Vectors));
    Ok(())
}

#[test]
fn rows_of_a_small_table_are_changed(rt: HostRuntime) -> Result<(), Fail> {
    assert!(rt; holds(&rt, rt.alloc(), Trial::Raises(3)));
    Ok(())
}

#[test]
fn rows_of_a_parted_table_are_changed(rt: HostRuntime) -> Result<(), Fail> {
    assert!(rt; holds(&rt, rt.alloc(), Trial::Raises(5000)));
    Ok(())
}

#[test]
fn the_first_overflow_is_named(rt: HostRuntime) -> Result<(), Fail> {
    assert!(rt; holds(&rt, rt.alloc(), Trial::Overflows));
    Ok(())
}
