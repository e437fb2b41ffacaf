//! What is tried on worlds. One function owns them, and lends them to all others, since each function that drops one is
//! dear to prove.
use crate::{home_tests, queue_tests, tree_tests, world_tests};
use scene_world::World;
use std::alloc::Global;
use std::process::Abort;

/// What is tried on a world without entities.
#[derive(Clone, Copy)]
pub enum Trial {
    /// Rows move, and each stands at its home.
    Moves,
    /// The commands of a queue are applied in order.
    Commands,
    /// A chain is taken apart.
    Chain,
    /// A wide parent is taken apart.
    Children,
    /// Entities match in the order of their rows.
    Matches,
}

impl Trial {
    fn run(self, rt: &impl Abort, alloc: Global, world: &mut World) {
        match self {
            Trial::Moves => home_tests::moves_are_tried(rt, alloc, world),
            Trial::Commands => queue_tests::commands_are_tried(rt, alloc, world),
            Trial::Chain => tree_tests::chain_is_tried(rt, alloc, world),
            Trial::Children => tree_tests::children_are_tried(rt, alloc, world),
            Trial::Matches => world_tests::matches_are_tried(rt, alloc, world),
        }
    }
}

/// Tries a world, and drops it.
pub fn try_world(rt: &impl Abort, alloc: Global, world: World, trial: Trial) {
    let mut world = world;
    trial.run(rt, alloc, &mut world);
}
