//! Why the work on the garden failed.
use scene_editor::{Refusal, Returned};
use std::alloc::AllocError;
use thiserror::Error;

/// A call on the garden failed.
#[derive(Debug, Drop, Error)]
pub enum SharedError {
    #[error("refused {0}")]
    Refused(#[from] Refusal),
    #[error("not entered, {0}")]
    Stopped(Refusal),
    #[error("a session is still inside")]
    Inside,
    #[error("out of memory")]
    Memory(#[from(alloc)] AllocError),
}

/// A queue didn't take a command, which is dropped.
impl<T: Drop> From<Returned<T>> for SharedError {
    fn from(back: Returned<T>) -> SharedError {
        SharedError::Refused(back.refusal)
    }
}
