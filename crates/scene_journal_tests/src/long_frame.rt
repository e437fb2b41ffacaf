//! A long frame of all commands, mixed, on a world that has entities, links, a free index and a resource.
ghost use Rattle.std.specs.Prelude.{◌<◌};

use crate::scenes::{A, T, first, pushed, spawn};
use scene_commands::{Command, Target};
use scene_kinds::{Text, Value};
use scene_queue::Queue;
use std::alloc::{AllocError, Global};

/// How many entities there are before the long frame.
const OLD: u32 = 16;

/// The last of the children that the first entity has then.
const LAST_CHILD: u32 = 8;

/// How often the ten commands are given.
const ROUNDS: u32 = 1000;

fn number(value: u32) -> Value {
    Value::Int(i64::from(value))
}

/// The name of the one resource.
fn light(alloc: Global) -> Result<Text, AllocError> {
    Ok(Text::from(String::from_str(alloc, "light")?))
}

fn put(alloc: Global, value: Value) -> Result<Command, AllocError> {
    Ok(Command::PutResource(light(alloc)?, value))
}

fn drop_light(alloc: Global) -> Result<Command, AllocError> {
    Ok(Command::RemoveResource(light(alloc)?))
}

/// An entity that is there before the long frame.
fn old(index: u32) -> Target {
    Target::Id(first(index))
}

fn push_entities(alloc: Global, queue: &mut Queue) -> bool {
    for index in 0..OLD {
        if !pushed(queue, spawn(alloc, A, number(index))) {
            return false;
        }
    }
    true
}

fn push_children(queue: &mut Queue) -> bool {
    for child in 1..=LAST_CHILD {
        if !pushed(queue, Ok(Command::SetParent(old(child), old(0)))) {
            return false;
        }
    }
    true
}

/// The frame before the long one: sixteen entities, of which the first has eight children and the thirteenth leaves
/// again, and a resource.
pub fn push_opening(alloc: Global, queue: &mut Queue) -> bool {
    push_entities(alloc, queue)
        && push_children(queue)
        && pushed(queue, Ok(Command::Despawn(old(12))))
        && pushed(queue, put(alloc, Value::Tag))
}

/// Two entities come; an old cell is written, and the second one's row moves to another table, and on to a third.
fn push_rows(alloc: Global, queue: &mut Queue, round: u32) -> bool
    requires { round < 1000 }
{
    let second = Target::New(2 * round + 1);
    let written = old(9 + round % 3);
    pushed(queue, spawn(alloc, A, number(round)))
        && pushed(queue, spawn(alloc, T, Value::Tag))
        && pushed(queue, Ok(Command::Insert(written, A, number(round))))
        && pushed(queue, Ok(Command::Insert(second, A, number(round))))
        && pushed(queue, Ok(Command::Remove(second, T)))
}

/// An old child becomes the last one, the new entity goes below an old one, and the resource is put.
fn push_links(alloc: Global, queue: &mut Queue, round: u32) -> bool
    requires { round < 1000 }
{
    let made = Target::New(2 * round);
    let child = old(1 + round % 8);
    pushed(queue, Ok(Command::SetParent(child, old(0))))
        && pushed(queue, Ok(Command::SetParent(made, old(13))))
        && pushed(queue, put(alloc, number(round)))
}

/// The new entity leaves its parent, or, every other time, the resource goes.
fn one_goes(alloc: Global, round: u32) -> Result<Command, AllocError>
    requires { round < 1000 }
{
    if round % 2 == 0 {
        Ok(Command::RemoveParent(Target::New(2 * round)))
    } else {
        drop_light(alloc)
    }
}

/// In four rounds one entity leaves, two are linked and leave together, and one more leaves.
fn some_leave(round: u32) -> Command
    requires { round < 1000 }
{
    let (first, second) = (Target::New(2 * round), Target::New(2 * round + 1));
    let before = Target::New(2 * round.saturating_sub(1));
    match round % 4 {
        0 => Command::Despawn(second),
        1 => Command::SetParent(second, first),
        2 => Command::DespawnAll(before),
        _ => Command::DespawnAllIfAlive(before),
    }
}

/// The long frame: a thousand rounds of ten commands. Each makes one delta, but that every fourth round a despawn takes
/// a child along.
pub fn push_long(alloc: Global, queue: &mut Queue) -> bool {
    for round in 0..ROUNDS {
        if !push_rows(alloc, queue, round)
            || !push_links(alloc, queue, round)
            || !pushed(queue, one_goes(alloc, round))
            || !pushed(queue, Ok(some_leave(round)))
        {
            return false;
        }
    }
    true
}
