//! What the questions of requests are answered with, as JSON (docs/SHELL.md, "Questions").
//!
//! `question_json` in `specs/Questions.antt` says what, of a `Question` of scene_requests and an editor as contracts see
//! it: the world now, in the words of scene_print, and the records before and after it, in those of scene texts.
#![tactic(auto)]

mod answers;
mod records;
mod steps;

pub use answers::write_json_answer;
