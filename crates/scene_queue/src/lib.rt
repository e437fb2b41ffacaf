//! Queues: lists of commands that are applied to a world one after another, or not at all where one is refused.
//!
//! A `Queue` holds commands up to a limit, and `Queue::apply` performs them on any `Stage`, a world among them
//! (docs/MODEL.md, "The rule of frames"). `Queues` are some of them as one `Frame`, which an editor takes. A
//! command alone is a frame by `apply_lone`, which needs no queue.
//!
//! `specs/Queue.antt` says what a queue is, `specs/Requests.antt` what its commands ask of a world; what a list of
//! them does is the fold of `specs/Queue.antt` in scene_machine.
#![tactic(auto)]

mod frame;
mod queue;

pub use frame::Queues;
pub use queue::{Queue, Returned, apply_all, apply_lone, apply_owned};
