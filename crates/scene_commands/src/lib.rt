//! Commands as values: what a script reads, and what a queue takes.
//!
//! A `Command` is one of the nine of a world, or the recursive despawn that passes over a dead entity (docs/MODEL.md,
//! "The commands"). It names its entities by a `Target`: an entity, or the k-th that the same queue has spawned. What
//! it does, this crate doesn't know; so a reader of scripts stands on it, and on no world.
#![tactic(auto)]

mod command;
mod components;
mod target;

pub use command::Command;
pub use components::Components;
pub use target::Target;
