//! Requests: a JSON object on one line in place of a line of a script, so that its texts may have any characters
//! (docs/SHELL.md, "Requests").
//!
//! A request stands for just one `Line` of scene_script, or asks what no line does, or is bad with the path of its first
//! part that has no form. `request_in` in `specs/Request.antt` says which, by the walk of `specs/Questions.antt` and
//! `specs/Walk.antt`, whose words are those of scene texts in scene_json_forms, as its JSON values are those of
//! scene_json. All of it computes: `worked_requests` has requests read byte by byte. What the line does then is
//! scene_interpreter's, and what a question is answered with scene_questions'.
#![tactic(auto)]

mod bad_request;
mod examples;
mod keys;
mod question;
mod read_cells;
mod read_commands;
mod read_lines;
mod read_questions;
mod read_requests;
mod read_steps;
mod read_words;
mod request;
mod request_form;
mod step_name;

pub use bad_request::{BadRequest, RequestError};
pub use examples::worked_requests;
pub use question::{Page, Question, Side, Way};
pub use request::{Request, is_request, read_request};
