//! Why a line of a shell is bad.
use scene_requests::BadRequest;
use scene_script::BadLine;
use thiserror::Error;

/// Why a line of a shell is bad, which is a request or a line of a script. `Display` says it in words, on one line.
#[derive(Debug, Drop, Error)]
pub enum BadShellLine {
    /// A line of a script.
    #[error(transparent)]
    Line(BadLine),
    /// A request.
    #[error(transparent)]
    Request(BadRequest),
}
