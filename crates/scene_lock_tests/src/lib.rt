//! The lock over a small state, by threads: what tests of what its contracts can't say do. The tests stand in
//! scene_session_tests, so that this crate isn't proved a second time for them.
//!
//! The state is a list of notes, each a session with a number. `threads` has many sessions at once; `inside` has looks
//! and changes that wait within the lock for one another, and `beside` what another session gets meanwhile.
#![tactic(auto)]

mod beside;
mod inside;
mod notes;
mod threads;

pub use beside::{
    BesideChange, BesideLook, is_shut_out, look_beside_wanting_write, look_together, read_until,
    try_beside_change, try_beside_look, write_among_readers,
};
pub use inside::{Gate, Meeting, Stay};
pub use notes::{Count, Note, Notes, Write, WriteKnowingHow};
pub use threads::{enter_all, enter_many, meet_in_chain, take_last};
