//! The rows of all entities of a world: a table for each kind set, found by its kind set at once, and the home of each
//! entity's row by the entity's index.
//!
//! Contracts see the rows of each kind set that has some, for how many rows each kind set has memory, and for how many
//! indices a home can be written. Only `reserve` takes memory; every other change needs the room that it made, and
//! can't fail.
#![tactic(auto)]

mod archetypes;
mod clones;
mod guesses;
mod kind_sets;
mod kind_tables;
mod places;

pub use archetypes::Archetypes;
