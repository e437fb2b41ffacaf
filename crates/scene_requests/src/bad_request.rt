//! Why a request is bad.
ghost use Rattle.std.specs.Prelude.{◌≡◌};
ghost use Rattle.scene_requests.specs.Reading.{error_by};

use scene_json_forms::FileFault;
use scene_kinds::Text;
use std::fmt;
use thiserror::Error;

/// Why a request is bad (docs/SHELL.md, "Requests"). `Display` says it in words, on one line.
#[derive(Debug, Drop, Error)]
pub enum BadRequest {
    /// It isn't UTF-8, isn't JSON, or something stands behind the value.
    #[error("the request isn't JSON")]
    NotJson,
    /// It has more than 67,108,864 bytes.
    #[error("the request has more than 67108864 bytes")]
    TooLong,
    /// An object has a key that it may not have: its path, which ends in the key.
    #[error("{} is no key of the request", quoted(.0))]
    UnknownKey(Text),
    /// A value is missing or isn't of its form: its path.
    #[error("{} is missing, or isn't of its form", quoted(.0))]
    BadField(Text),
}

/// Why a request wasn't read.
#[derive(Debug, Drop, Error)]
pub enum RequestError {
    #[error(transparent)]
    Bad(BadRequest),
    /// A growth of memory was refused.
    #[error("no memory")]
    NoMemory,
}

/// A path as a message shows it: in double quotes, and escaped.
#[derive(Clone, Copy)]
struct QuotedPath<'a> {
    path: &'a str,
}

fn quoted(path: &Text) -> QuotedPath<'_> {
    QuotedPath {
        path: path.as_str(),
    }
}

impl<'a> fmt::Display for QuotedPath<'a> {
    fn fmt<W: fmt::Write>(&self, f: &mut fmt::Formatter<W>) -> fmt::Result {
        let path = self.path;
        write!(f, "{path:?}")
    }
}

/// What the first fault of a walk makes of a request.
pub(crate) fn error_of(fault: FileFault) -> RequestError
    ensures { result ≡ error_by fault }
{
    match fault {
        FileFault::NoMemory => RequestError::NoMemory,
        FileFault::UnknownKey(path) => RequestError::Bad(BadRequest::UnknownKey(path)),
        FileFault::BadField(path) => RequestError::Bad(BadRequest::BadField(path)),
        _ => RequestError::Bad(BadRequest::NotJson),
    }
}
