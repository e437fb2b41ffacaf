//! Tests that need code: streams that fail in a run, or as a scene text is read or written; the limits of a text, and
//! texts that were worked out by hand; worlds that are made of their parts; trees too large for a script; and calls that
//! no line makes. What a script can reach is an example in `examples/`, and what a clause says is proved and not tested.
//!
//! They stand here, above all crates, so that no large crate is proved a second time for its tests.
#![tactic(auto)]

#[cfg(test)]
mod home_tests;
#[cfg(test)]
mod last_parts;
#[cfg(test)]
mod left;
#[cfg(test)]
mod opening_tests;
#[cfg(test)]
mod parts_tests;
#[cfg(test)]
mod queue_tests;
#[cfg(test)]
mod run_tests;
#[cfg(test)]
mod saved_tests;
#[cfg(test)]
mod stream_tests;
#[cfg(test)]
mod text_tests;
#[cfg(test)]
mod texts;
#[cfg(test)]
mod tree_tests;
#[cfg(test)]
mod trials;
#[cfg(test)]
mod world_tests;
