//! What is tried on editors. Two functions own one, and lend it to all others, since each function that drops one is
//! dear to prove.
use crate::editors::{fault_tests, frame_tests, kept_tests, tree};
use scene_kinds::{Fault, Refusal};
use scene_undo::Editor;
use std::alloc::Global;
use std::process::Abort;

/// What is tried on an editor that has done nothing so far.
#[derive(Clone, Copy)]
pub enum Trial {
    /// A sweep fells a tree.
    Sweep,
    /// A sweep finds no entity.
    IdleSweep,
    /// The past of two frames is taken up.
    KeptPast,
    /// The future of two frames is taken up.
    KeptFuture,
    /// So many frames without commands are done, and all are undone that can be.
    Idle { frames: u32, seen: kept_tests::Seen },
    /// Records of the past are taken up, each with the fault that it must have.
    PastFaults,
    /// The same of the future.
    FutureFaults,
}

impl Trial {
    fn run(self, rt: &impl Abort, alloc: Global, editor: &mut Editor) {
        match self {
            Trial::Sweep => frame_tests::sweep_is_tried(rt, alloc, editor),
            Trial::IdleSweep => frame_tests::idle_sweep_is_tried(rt, editor),
            Trial::KeptPast => kept_tests::past_is_tried(rt, alloc, editor),
            Trial::KeptFuture => kept_tests::future_is_tried(rt, alloc, editor),
            Trial::Idle { frames, seen } => kept_tests::idle_is_tried(rt, editor, frames, seen),
            Trial::PastFaults => fault_tests::past_is_tried(rt, alloc, editor),
            Trial::FutureFaults => fault_tests::future_is_tried(rt, alloc, editor),
        }
    }
}

/// Tries a new editor.
pub fn try_new(rt: &impl Abort, alloc: Global, made: Result<Editor, Refusal>, trial: Trial) {
    let mut editor = made.expect(rt, "an editor");
    trial.run(rt, alloc, &mut editor);
}

/// What is done with an editor that was made of a world and of records.
#[derive(Clone, Copy)]
pub enum Then {
    Nothing,
    /// Both frames are undone and redone.
    BackAndOn,
    /// Both frames are redone.
    On,
}

impl Then {
    fn goes(self, editor: &mut Editor) -> bool {
        match self {
            Then::Nothing => true,
            Then::BackAndOn => tree::goes_back_and_on(editor),
            Then::On => tree::goes_on(editor),
        }
    }
}

/// Whether that could be done, and how many rewinds there were then; or why there is no such editor.
pub fn taken_up(made: Result<Editor, Refusal>, then: Then) -> Result<(bool, u64), Fault> {
    match made {
        Ok(made) => {
            let mut editor = made;
            let went = then.goes(&mut editor);
            Ok((went, editor.rewinds()))
        }
        Err(refusal) => Err(refusal.fault),
    }
}
