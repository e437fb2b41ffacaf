//! A past that is kept outside, and taken up by another editor.
use crate::editors::small::{editor_of, queue_of, submit_one};
use crate::editors::tree::grow;
use crate::editors::trials::{Then, Trial, taken_up, try_new};
use crate::scenes::first;
use scene_commands::{Command, Target};
use scene_journal::FrameRecord;
use scene_kinds::{Refusal, Schema, Shape};
use scene_undo::{Editor, MOST_FRAMES};
use scene_world::World;
use std::alloc::{AllocError, Global};
use std::process::Abort;
use std::test::Fail;

/// Two frames: the first spawns a tree, the second despawns all of it.
fn grow_and_fell(alloc: Global, editor: &mut Editor) -> Result<(), Refusal> {
    grow(alloc, editor)?;
    let felling = queue_of(alloc, Command::DespawnAll(Target::Id(first(0))))?;
    submit_one(alloc, editor, felling)
}

fn copies(alloc: Global, records: &[FrameRecord]) -> Result<Vec<FrameRecord>, AllocError> {
    let mut copies = Vec::new(alloc);
    for record in records {
        copies.push(record.try_clone()?)?;
    }
    Ok(copies)
}

/// An editor of clones of the world and the records of another.
fn copy_of(rt: &impl Abort, alloc: Global, editor: &Editor) -> Result<Editor, Refusal> {
    let (past, future) = editor.records();
    let past = copies(alloc, past).expect(rt, "memory");
    let future = copies(alloc, future).expect(rt, "memory");
    let world = editor.world().try_clone().expect(rt, "memory");
    Editor::from_parts(alloc, world, past, future, MOST_FRAMES)
}

/// A past that is taken up can be undone and redone, which makes two rewinds.
pub fn past_is_tried(rt: &impl Abort, alloc: Global, editor: &mut Editor) {
    assert!(rt; grow_and_fell(alloc, editor).is_ok());
    let copy = copy_of(rt, alloc, editor);
    assert_eq!(rt; taken_up(copy, Then::BackAndOn), Ok((true, 2)));
}

#[test]
fn kept_past_is_undone_and_redone(rt: HostRuntime) -> Result<(), Fail> {
    try_new(
        &rt,
        rt.alloc(),
        editor_of(rt.alloc(), Shape::Tag),
        Trial::KeptPast,
    );
    Ok(())
}

/// A future that is taken up can be redone, which makes no rewind.
pub fn future_is_tried(rt: &impl Abort, alloc: Global, editor: &mut Editor) {
    assert!(rt; grow_and_fell(alloc, editor).is_ok());
    assert!(rt; editor.undo_by(2).is_ok());
    let copy = copy_of(rt, alloc, editor);
    assert_eq!(rt; taken_up(copy, Then::On), Ok((true, 0)));
}

#[test]
fn kept_future_is_redone(rt: HostRuntime) -> Result<(), Fail> {
    try_new(
        &rt,
        rt.alloc(),
        editor_of(rt.alloc(), Shape::Tag),
        Trial::KeptFuture,
    );
    Ok(())
}

/// The tick of a world after frames without commands, how many of them can be undone, and the tick after these undos.
/// All are redone then.
pub type Seen = (u64, usize, u64);

fn do_nothing(editor: &mut Editor, frames: u32) -> Result<(), Refusal> {
    for _frame in 0..frames {
        let _made = editor.submit(&[])?;
    }
    Ok(())
}

fn after_idle_frames(editor: &mut Editor, frames: u32) -> Result<Seen, Refusal> {
    do_nothing(editor, frames)?;
    let kept = editor.undo_len();
    editor.undo_by(kept)?;
    let back = editor.world().tick();
    editor.redo_by(kept)?;
    Ok((editor.world().tick(), kept, back))
}

pub fn idle_is_tried(rt: &impl Abort, editor: &mut Editor, frames: u32, seen: Seen) {
    assert_eq!(rt; after_idle_frames(editor, frames), Ok(seen));
}

/// An editor of a world without kinds, which keeps so many frames.
fn editor_of_depth(alloc: Global, depth: u32) -> Result<Editor, Refusal> {
    let world = World::new(alloc, Schema::new(alloc), 1);
    Ok(Editor::with_depth(alloc, world, depth))
}

/// An editor of this depth does so many frames without commands.
fn keeps(rt: &impl Abort, alloc: Global, depth: u32, frames: u32, seen: Seen) {
    let trial = Trial::Idle { frames, seen };
    try_new(rt, alloc, editor_of_depth(alloc, depth), trial);
}

#[test]
fn depth_keeps_the_newest_frames(rt: HostRuntime) -> Result<(), Fail> {
    keeps(&rt, rt.alloc(), 1, 2, (2, 1, 1));
    keeps(&rt, rt.alloc(), 3, 40, (40, 3, 37));
    keeps(&rt, rt.alloc(), 0, 2, (2, 0, 2));
    Ok(())
}
