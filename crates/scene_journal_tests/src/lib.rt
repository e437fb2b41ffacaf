//! Tests of deltas, of records and of editors that are made of them: that they find memory, and give worlds and records
//! that were worked out by hand, there and back, and the first fault. That each is right in general is proved and not
//! tested.
//!
//! They stand here, above the journal and queues, so that no large crate is proved a second time for its tests.
#![tactic(auto)]

#[cfg(test)]
mod changes;
mod editors;
#[cfg(test)]
mod frame_tests;
#[cfg(test)]
mod frames;
#[cfg(test)]
mod long_frame;
#[cfg(test)]
mod long_tests;
#[cfg(test)]
mod printed;
#[cfg(test)]
mod raw_tests;
#[cfg(test)]
mod refusal_tests;
#[cfg(test)]
mod scenes;
#[cfg(test)]
mod slot_tests;
#[cfg(test)]
mod steps;
#[cfg(test)]
mod trials;

pub use editors::{Sweep, sweep_away};
