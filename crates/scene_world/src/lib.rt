//! The world of a scene, in code: its entities with their components, links and resources, and the nine commands on
//! them.
//!
//! What a world is, and what commands do, is said in the crate `scene_model`; `World` keeps the rows in
//! `scene_archetypes`. All growth comes before the first change, so that a refusal leaves the world as it was.
//! The raw changes, of which commands are made and by which they are taken back, stand apart in `RawChanges`, which is
//! for `scene_journal` and not for a tool.
//!
//! A `Stage` is what the commands can be applied to, a world or a recorder over one, and a `Frame` is what is done on a
//! stage at once, all or nothing.
#![tactic(auto)]

mod built;
mod frame;
mod given;
mod moves;
mod raw_changes;
mod stage;
mod world;

pub use frame::Frame;
pub use raw_changes::RawChanges;
pub use scene_table::Home;
pub use scene_validate::WorldParts;
pub use stage::Stage;
pub use world::{DespawnedRow, InsertedCell, RemovedCell, SpawnedRow, World};
