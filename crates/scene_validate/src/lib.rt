//! The parts of which a world is built, and which of the ten rules of a valid world they break first.
//!
//! `specs/Parts.antt` has the parts and the world that they make, `specs/Rules.antt` the rules as tests that compute.
//! `laws` says that the tests leave nothing out and ask for no more than there is: parts break no rule exactly where
//! they are those of a valid world. `WorldParts::first_broken` is those tests in code, at the cost of the parts: who
//! lives is told by marks of indices (`marks`), and that walks up end by walking none twice (`climbs`).
#![tactic(auto)]

mod broken;
mod climbs;
mod distinct;
mod laws;
mod link_rules;
mod marks;
mod parts;
mod resource_rules;
mod row_rules;
mod slot_rules;

pub use laws::{unbroken_parts_are_those_of_valid_worlds, worked_parts};
pub use parts::WorldParts;
