//! Which schemas a schedule is for.
use scene_commands::Components;
use scene_kinds::{KindSet, Refusal, Schema, Shape, Text, Value};
use scene_schedule::{Schedule, same_schema};
use scene_systems::{Filter, Phase, RowStep, Step, Steps, SystemRule};
use std::alloc::Global;
use std::process::Abort;
use std::test::*;

// The kinds of the tests: two vectors and two numbers.
pub(super) const P: u8 = 0;

pub(super) const V: u8 = 1;

pub(super) const N: u8 = 2;

pub(super) const L: u8 = 3;

/// A step, in short: an `AddInt` adds 1, and the cells of a child are zeros.
#[derive(Clone, Copy)]
pub(super) enum Do {
    AddVec(u8, u8),
    AddInt(u8),
    Zero(u8),
    Child(&'static [u8]),
    Count(&'static str),
}

/// A system, in short.
#[derive(Clone, Copy)]
pub(super) struct System {
    name: &'static str,
    need: KindSet,
    without: KindSet,
    steps: &'static [Do],
}

pub(super) fn needs(need: KindSet, steps: &'static [Do]) -> System {
    System {
        name: "a",
        need,
        without: 0,
        steps,
    }
}

pub(super) fn kinds(alloc: Global) -> Result<Schema, Refusal> {
    let mut schema = Schema::new(alloc);
    for (name, shape) in [
        ("P", Shape::Vec3),
        ("V", Shape::Vec3),
        ("N", Shape::Int),
        ("L", Shape::Int),
    ] {
        let _kind = schema.add(String::from_str(alloc, name)?, shape)?;
    }
    Ok(schema)
}

fn text(alloc: Global, text: &str) -> Result<Text, Refusal> {
    Ok(Text::from(String::from_str(alloc, text)?))
}

fn child(alloc: Global, kinds: &[u8]) -> Result<Components, Refusal> {
    let mut cells = Vec::new(alloc);
    for kind in kinds {
        cells.push((*kind, Value::Int(0)))?;
    }
    Ok(Components::from(cells))
}

fn step(alloc: Global, step: Do) -> Result<Step, Refusal> {
    Ok(match step {
        Do::AddVec(to, by) => Step::Row(RowStep::AddVec { to, by }),
        Do::AddInt(to) => Step::Row(RowStep::AddInt { to, by: 1 }),
        Do::Zero(kind) => Step::DespawnAtZero { kind },
        Do::Child(kinds) => Step::SpawnChild {
            cells: child(alloc, kinds)?,
        },
        Do::Count(name) => Step::CountInto {
            name: text(alloc, name)?,
        },
    })
}

fn rule(alloc: Global, system: System) -> Result<SystemRule, Refusal> {
    let mut steps = Vec::new(alloc);
    for short in system.steps {
        steps.push(step(alloc, *short)?)?;
    }
    Ok(SystemRule {
        name: text(alloc, system.name)?,
        filter: Filter {
            need: system.need,
            without: system.without,
        },
        steps: Steps::from(steps),
    })
}

fn phase(alloc: Global, systems: &[System]) -> Result<Phase, Refusal> {
    let mut phase = Phase::new(alloc);
    for system in systems {
        phase.push(rule(alloc, *system)?)?;
    }
    Ok(phase)
}

pub(super) fn schedule(alloc: Global, phases: &[&[System]]) -> Result<Schedule, Refusal> {
    let mut list = Vec::new(alloc);
    for systems in phases {
        list.push(phase(alloc, systems)?)?;
    }
    Schedule::new(alloc, &kinds(alloc)?, list)
}

/// The kinds, and one more.
fn more_kinds(alloc: Global) -> Result<Schema, Refusal> {
    let mut more = kinds(alloc)?;
    let _kind = more.add(String::from_str(alloc, "M")?, Shape::Int)?;
    Ok(more)
}

/// A schedule is for its own kinds alone, and so is one without systems.
fn is_for_its_own(rt: &impl Abort, alloc: Global, one: &Schedule) {
    let same = kinds(alloc).expect(rt, "a schema");
    assert!(rt; one.is_for(&same));
    let more = more_kinds(alloc).expect(rt, "a schema");
    assert!(rt; !one.is_for(&more));
    let empty = Schedule::new(alloc, &more, Vec::new(alloc)).expect(rt, "a schedule");
    assert!(rt; !empty.is_for(one.schema()));
}

/// A copy of a schedule has its phases and its kinds.
fn copy_is_tried(rt: &impl Abort, copy: &Schedule, one: &Schedule) {
    assert_eq!(rt; copy.phases().len(), 2);
    let first = copy.phases().first().expect(rt, "a phase");
    let system = first.systems().first().expect(rt, "a system");
    assert_eq!(rt; system.name.as_str(), "a");
    assert!(rt; copy.is_for(one.schema()));
}

#[test]
fn a_schedule_is_for_its_schema(rt: HostRuntime) -> Result<(), Fail> {
    let one = schedule(rt.alloc(), &[&[needs(1 << L, &[Do::Zero(L)])], &[]]);
    let one = one.expect(&rt, "a schedule");
    let copy = one.try_clone().expect(&rt, "memory");
    copy_is_tried(&rt, &copy, &one);
    is_for_its_own(&rt, rt.alloc(), &copy);
    Ok(())
}

/// A schema of one kind.
fn one_kind(alloc: Global, name: &str, shape: Shape) -> Result<Schema, Refusal> {
    let mut schema = Schema::new(alloc);
    let _kind = schema.add(String::from_str(alloc, name)?, shape)?;
    Ok(schema)
}

/// Whether each of two schemas is the same as the other one.
fn are_same(one: &Schema, other: &Schema) -> bool {
    same_schema(one, other) && same_schema(other, one)
}

/// Whether a schema is the same as that of one kind.
fn is_one_kind(alloc: Global, schema: &Schema, name: &str, shape: Shape) -> Result<bool, Refusal> {
    let other = one_kind(alloc, name, shape)?;
    Ok(are_same(schema, &other))
}

#[test]
fn schemas_are_the_same_by_name_and_shape(rt: HostRuntime) -> Result<(), Fail> {
    let alloc = rt.alloc();
    let number = one_kind(alloc, "A", Shape::Int).expect(&rt, "a schema");
    for (name, shape, wanted) in [
        ("A", Shape::Int, true),
        ("A", Shape::Tag, false),
        ("B", Shape::Int, false),
    ] {
        let found = is_one_kind(alloc, &number, name, shape);
        assert_eq!(rt; found, Ok(wanted), "{name} {shape:?}");
    }
    assert!(rt; !are_same(&number, &Schema::new(alloc)));
    Ok(())
}
