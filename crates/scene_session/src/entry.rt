//! Entries of a history.
use crate::call::{Call, Reply};

/// A call that was performed, with its reply, and the session that made it (docs/SESSIONS.md, "History").
#[derive(Drop, Debug)]
pub struct Entry {
    /// The number of the session, from 0.
    pub session: u32,
    pub call: Call,
    pub reply: Reply,
}
