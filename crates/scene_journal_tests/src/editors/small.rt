//! Editors of small worlds.
use scene_commands::{Command, Components};
use scene_kinds::{Refusal, Schema, Shape, Value};
use scene_queue::Queue;
use scene_undo::Editor;
use scene_world::World;
use std::alloc::{AllocError, Global};

/// A component of the kind 0.
pub fn given(alloc: Global, value: Value) -> Result<Components, AllocError> {
    Ok(Components::from(vec![in alloc; (0, value)]?))
}

/// A queue of one command.
pub fn queue_of(alloc: Global, command: Command) -> Result<Queue, Refusal> {
    let mut queue = Queue::new(alloc);
    queue.push(command)?;
    Ok(queue)
}

/// An editor of an empty world of one kind, whose shape is given.
pub fn editor_of(alloc: Global, shape: Shape) -> Result<Editor, Refusal> {
    let mut schema = Schema::new(alloc);
    let _kind = schema.add(String::from_str(alloc, "A")?, shape)?;
    Ok(Editor::new(alloc, World::new(alloc, schema, 8)))
}

/// Submits a frame of one queue.
pub fn submit_one(alloc: Global, editor: &mut Editor, queue: Queue) -> Result<(), Refusal> {
    let queues = vec![in alloc; queue]?;
    let _made = editor.submit(queues.as_slice())?;
    Ok(())
}
