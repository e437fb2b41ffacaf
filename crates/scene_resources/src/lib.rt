//! The resources of a scene: values that are tied to no entity, each with a name and its ticks.
//!
//! `Resources` is seen as one ordered map, the cell of each name, and as the names that are kept; names are seen as
//! their bytes, and that is their order. `specs/Resources.antt` has the map and what the calls do to it.
//!
//! A put keeps the tick at which a cell was added, and sets the tick at which it was changed; the new value may
//! have another shape. The cell that a put or a take found there, given back by a restore, brings back the
//! resources from before.
//!
//! A name is kept from the first call that gives it a cell or reserves it until a trim that finds it without one. Of
//! the calls that change resources, only one that adds a name to those kept takes memory, and where none is found
//! the resources are as they were. A call on a name costs a search, by the logarithm of how many names are kept.
//!
//! `laws` has what users rely on beside the calls: that cells which are given back bring back the resources from
//! before, that the names ascend and are whole, so that asking `get` for each one that `names` gives meets every
//! cell once, and that names which are kept hold what fewer held.
#![tactic(auto)]

mod laws;
mod resources;

pub use laws::{names_are_whole, restored_comes_back, room_is_never_lost, worked_resources};
pub use resources::Resources;
