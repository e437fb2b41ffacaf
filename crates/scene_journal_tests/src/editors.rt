//! Editors whose world and records come from outside, and `Sweep`, a kind of frame that is no list of queues: an editor
//! does, undoes and redoes frames of another crate's own kind.
#[cfg(test)]
mod fault_tests;
#[cfg(test)]
mod frame_tests;
#[cfg(test)]
mod kept_tests;
#[cfg(test)]
mod small;
mod sweep;
#[cfg(test)]
mod tree;
#[cfg(test)]
mod trials;

pub use sweep::{Sweep, sweep_away};
