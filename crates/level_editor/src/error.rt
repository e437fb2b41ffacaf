//! Why the tool couldn't do what it was told.
use scene_editor::{FileFault, Refusal, Returned};
use std::alloc::AllocError;
use thiserror::Error;

/// A call of a level failed, and the level is as it was.
#[derive(Debug, Drop, Error)]
pub enum LevelError {
    #[error("refused {0}")]
    Refused(#[from] Refusal),
    #[error("{0}")]
    File(#[from] FileFault),
    #[error("nothing has that name")]
    NoSuchName,
    #[error("out of memory")]
    Memory(#[from(alloc)] AllocError),
}

/// A queue didn't take a command, which is dropped.
impl<T: Drop> From<Returned<T>> for LevelError {
    fn from(back: Returned<T>) -> LevelError {
        LevelError::Refused(back.refusal)
    }
}
