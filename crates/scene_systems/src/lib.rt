//! Systems as rules: what a system reads and writes, as data that a file, a script or a tool can make.
//!
//! A `Filter` says which kind sets match. A `SystemRule` has a name, a filter and `Steps`; a `Phase` is a list of
//! systems, which are played one after another. A `Step` either writes cells of the matching rows, as a `RowStep`, or
//! queues commands for them (docs/MODEL.md, "The rule of systems").
//!
//! Nothing here knows a world: scene_pass says what row steps make of rows, and scene_schedule what phases make of a
//! world.
#![tactic(auto)]

mod filter;
mod laws;
mod phase;
mod step;
mod system_rule;

pub use filter::Filter;
pub use laws::filters_say_each_kind;
pub use phase::Phase;
pub use scene_table::RowStep;
pub use step::{Step, Steps};
pub use system_rule::SystemRule;
