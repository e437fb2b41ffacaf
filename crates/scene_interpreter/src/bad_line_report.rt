//! A bad line of a script.
use scene_script::BadLine;
use thiserror::Error;

/// A bad line: its number, from 1, and its first mistake. `Display` says both.
#[derive(Debug, Drop, Error)]
#[error("line {line}: {reason}")]
pub struct BadLineReport {
    pub line: usize,
    pub reason: BadLine,
}
