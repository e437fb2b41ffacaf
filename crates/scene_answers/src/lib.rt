//! What a request does to an interpreter, and how it is answered (docs/SHELL.md, "Requests").
//!
//! Which request a text is, is scene_requests'; what a line, a question or a declaration does is scene_interpreter's.
//! Here the one is given to the other, for whoever takes requests: a shell, or the library for C. `asked_reply` in
//! `specs/Asked.antt` says what a request comes to, and `AddsAsked` what is answered.
#![tactic(auto)]

mod answered;
mod changing;
mod laws;
mod played;

pub use answered::answer_request;
pub use changing::request_changes;
pub use laws::history_apart_changes_no_request;
pub use played::play_request;
