//! What want of memory leaves of an interpreter.
use thiserror::Error;

/// No memory was found for a line, and what that leaves of the interpreter. `Display` says it in words.
#[derive(Clone, Copy, Debug, PartialEq, Eq, Error)]
pub enum Halt {
    /// The line isn't done: the interpreter is as it was before it.
    #[error("the line wasn't done")]
    Before,
    /// The line isn't done, but the setup, which it would have ended, is over.
    #[error("the line wasn't done, and the setup is over")]
    Begun,
    /// The line is done, and its answer wasn't said.
    #[error("the line was done, and its answer wasn't said")]
    After,
    /// The line isn't done, and the kinds or the scene that the setup had are lost.
    #[error("the line wasn't done, and what the setup had is lost")]
    Lost,
}
