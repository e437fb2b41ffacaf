//! What is tried on worlds. One function owns them, and lends them to all others, since each function that drops one is
//! dear to prove.
use crate::long_tests::{is_world, record_is_tried};
use crate::refusal_tests::{redone_are_tried, undone_are_tried};
use crate::steps::{Step, first_wrong};
use scene_kinds::Refusal;
use scene_world::World;
use std::alloc::Global;
use std::process::Abort;

/// What is tried on a world.
#[derive(Clone, Copy)]
pub enum Trial<'a> {
    /// All steps hold, first those of an opening.
    Steps(&'a [Step<'a>], &'a [Step<'a>]),
    /// Records that don't fit back are refused.
    Undone,
    /// The same of records that are redone.
    Redone,
    /// It is the world of this text.
    IsWorld(&'a str),
    /// The long frame on it is redone and undone.
    LongRecord,
}

/// The steps hold one after another.
fn steps_are_tried(rt: &impl Abort, alloc: Global, world: &mut World, steps: &[Step]) {
    assert_eq!(rt; first_wrong(alloc, world, steps), None);
}

impl<'a> Trial<'a> {
    fn run(self, rt: &impl Abort, alloc: Global, world: &mut World) {
        match self {
            Trial::Steps(opening, steps) => {
                steps_are_tried(rt, alloc, world, opening);
                steps_are_tried(rt, alloc, world, steps);
            }
            Trial::Undone => undone_are_tried(rt, alloc, world),
            Trial::Redone => redone_are_tried(rt, alloc, world),
            Trial::IsWorld(text) => assert!(rt; is_world(alloc, world, text)),
            Trial::LongRecord => record_is_tried(rt, alloc, world),
        }
    }
}

/// Tries a world, and drops it.
pub fn try_world(rt: &impl Abort, alloc: Global, made: Result<World, Refusal>, trial: Trial) {
    let mut world = made.expect(rt, "a world");
    trial.run(rt, alloc, &mut world);
}
