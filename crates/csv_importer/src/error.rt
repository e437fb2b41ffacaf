//! Why a table wasn't imported.
use scene_editor::{Refusal, Returned};
use std::alloc::AllocError;
use thiserror::Error;

/// A call of an importer failed, and the scene is as it was. Lines and columns are counted from 1.
#[derive(Debug, Drop, Error)]
pub enum ImportError {
    #[error("column {0}: no kind has this name")]
    NoSuchKind(usize),
    #[error("line {line}, column {column}: not a value of its kind")]
    BadValue { line: u64, column: usize },
    #[error("line {0}: not as many fields as the header has")]
    FieldCount(u64),
    #[error("the table can't be read as text")]
    Unreadable,
    #[error("refused {0}")]
    Refused(#[from] Refusal),
    #[error("out of memory")]
    Memory(#[from(alloc)] AllocError),
}

/// A queue didn't take a command, which is dropped.
impl<T: Drop> From<Returned<T>> for ImportError {
    fn from(back: Returned<T>) -> ImportError {
        ImportError::Refused(back.refusal)
    }
}
