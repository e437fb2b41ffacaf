//! The tests of slots, tables, links, resources and streams: what their contracts can't say, that memory is found and
//! that large lists and deep trees are taken apart in reasonable time. What a script can reach is an example in
//! `examples/`.
//!
//! They stand in one crate, so that none of these is proved a second time for its tests. `Firsts` are links among the
//! first entities of their indices, so that a test may link any two; `steps` has calls of them as data, and `many` such
//! steps of many children, one after another. `Pieces` and `Taker` are a reader and a writer that fail at one call, for
//! the tests of other crates too.
#![tactic(auto)]

mod firsts;
#[cfg(test)]
mod links_tests;
#[cfg(test)]
mod many;
#[cfg(test)]
mod resources_tests;
#[cfg(test)]
mod slots_tests;
#[cfg(test)]
mod steps;
mod streams;
#[cfg(test)]
mod streams_tests;
#[cfg(test)]
mod table_tests;

pub use firsts::{Firsts, first};
pub use streams::{Pieces, Taker};
