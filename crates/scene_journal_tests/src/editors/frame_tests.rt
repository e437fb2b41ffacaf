//! A frame that is no list of queues, in an editor.
use crate::editors::small::editor_of;
use crate::editors::sweep::sweep_away;
use crate::editors::tree::{goes_back_and_on, grow};
use crate::editors::trials::{Trial, try_new};
use crate::scenes::first;
use scene_kinds::{Refusal, Shape};
use scene_undo::Editor;
use std::alloc::Global;
use std::process::Abort;
use std::test::Fail;

/// Whether a sweep fells a tree, and is undone and redone as a frame of queues is.
fn sweep_goes_back_and_on(alloc: Global, editor: &mut Editor) -> Result<bool, Refusal> {
    grow(alloc, editor)?;
    let made = sweep_away(editor, first(0))?;
    Ok(made.entities.is_empty() && goes_back_and_on(editor))
}

pub fn sweep_is_tried(rt: &impl Abort, alloc: Global, editor: &mut Editor) {
    assert_eq!(rt; sweep_goes_back_and_on(alloc, editor), Ok(true));
}

/// The tick, and how many frames can be undone, after a sweep of an entity that isn't there.
fn after_an_idle_sweep(editor: &mut Editor) -> Result<(u64, usize), Refusal> {
    let _made = sweep_away(editor, first(0))?;
    Ok((editor.world().tick(), editor.undo_len()))
}

pub fn idle_sweep_is_tried(rt: &impl Abort, editor: &mut Editor) {
    assert_eq!(rt; after_an_idle_sweep(editor), Ok((1, 1)));
}

#[test]
fn sweep_is_undone_and_redone(rt: HostRuntime) -> Result<(), Fail> {
    try_new(
        &rt,
        rt.alloc(),
        editor_of(rt.alloc(), Shape::Tag),
        Trial::Sweep,
    );
    Ok(())
}

#[test]
fn sweep_of_nothing_is_a_frame(rt: HostRuntime) -> Result<(), Fail> {
    try_new(
        &rt,
        rt.alloc(),
        editor_of(rt.alloc(), Shape::Tag),
        Trial::IdleSweep,
    );
    Ok(())
}
