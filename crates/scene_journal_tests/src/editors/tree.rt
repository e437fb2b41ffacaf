//! Three entities, a root and its two children, that a first frame spawns and a second fells.
use crate::editors::small::{given, submit_one};
use crate::scenes::first;
use scene_commands::{Command, Target};
use scene_kinds::{Refusal, Value};
use scene_queue::Queue;
use scene_undo::Editor;
use scene_world::World;
use std::alloc::Global;

/// Puts the spawn of a tagged entity last in a queue.
fn spawn(alloc: Global, queue: &mut Queue) -> Result<Target, Refusal> {
    Ok(queue.spawn(given(alloc, Value::Tag)?)?)
}

/// Three entities, of which the first is the parent of the others.
fn tree(alloc: Global) -> Result<Queue, Refusal> {
    let mut queue = Queue::new(alloc);
    let root = spawn(alloc, &mut queue)?;
    for _ in 0..2 {
        let child = spawn(alloc, &mut queue)?;
        queue.push(Command::SetParent(child, root))?;
    }
    Ok(queue)
}

/// Spawns the tree in one frame.
pub fn grow(alloc: Global, editor: &mut Editor) -> Result<(), Refusal> {
    let queue = tree(alloc)?;
    submit_one(alloc, editor, queue)
}

/// Whether a world is of this tick and has these slots.
fn has_slots(world: &World, tick: u64, generations: &[u32], free: &[u32]) -> bool {
    let slots = world.slots();
    world.tick() == tick && slots.generations() == generations && slots.free() == free
}

/// Whether nothing is alive.
fn is_bare(world: &World) -> bool {
    world.rows_of(1).is_none() && world.links().is_empty()
}

/// Whether it is the world between the two frames.
fn has_tree(world: &World) -> bool {
    let Some(table) = world.rows_of(1) else {
        return false;
    };
    let Some(tags) = table.column(0) else {
        return false;
    };
    has_slots(world, 1, &[1, 1, 1], &[])
        && table.entities() == [first(0), first(1), first(2)].as_slice()
        && tags.added == [1, 1, 1].as_slice()
        && tags.changed == [1, 1, 1].as_slice()
        && world.links().children_of(first(0)) == [first(1), first(2)].as_slice()
}

/// Whether it is the world before both frames.
fn is_new(world: &World) -> bool {
    has_slots(world, 0, &[], &[]) && is_bare(world)
}

/// Whether it is the world after both.
fn is_felled(world: &World) -> bool {
    has_slots(world, 2, &[2, 2, 2], &[1, 2, 0]) && is_bare(world)
}

/// Whether both frames can be undone and redone, through the worlds that there were.
pub fn goes_back_and_on(editor: &mut Editor) -> bool {
    is_felled(editor.world())
        && editor.undo().is_ok()
        && has_tree(editor.world())
        && editor.undo().is_ok()
        && is_new(editor.world())
        && goes_on(editor)
}

/// Whether both frames can be redone.
pub fn goes_on(editor: &mut Editor) -> bool {
    editor.redo().is_ok()
        && has_tree(editor.world())
        && editor.redo().is_ok()
        && is_felled(editor.world())
}
