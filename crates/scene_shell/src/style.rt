//! How answers are written.

/// How a shell writes its answers (docs/SHELL.md).
#[derive(Clone, Copy, Debug, PartialEq, Eq)]
pub struct AnswerStyle {
    /// Whether an answer is one line of JSON, and not what a script prints.
    pub is_json: bool,
    /// Whether each answer ends with an empty line, so that who reads it knows its end.
    pub is_framed: bool,
}
