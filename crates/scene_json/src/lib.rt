//! A JSON text that is read in place: it is checked whole, and then looked into, and no tree is made of it.
//!
//! `Document::read` takes just the texts that `serde_json` takes for its `Value`, and keeps them as one flat list of
//! nodes: a value begins with one, which has its number or its text, or how much stands inside it (`specs/NodeData.antt`).
//! A `Part` is a value in the document, and `Parts` are the elements of a list. They are seen as `serde_json`'s data
//! (`specs/View.antt`), so each look answers what the same look into a `Value` does, by the words of its `Find`. A look
//! never fails, as the document was read whole. It takes no memory.
//!
//! `write_json_text` adds a text as a JSON string, as `serde_json` writes it, and `write_count` and `write_int` whole
//! numbers.
#![tactic(auto)]

mod decimal;
mod document;
mod examples;
mod filling;
mod members;
mod node;
mod nodes;
mod number;
mod part;
mod parts;
mod text;

pub use decimal::{write_count, write_int};
pub use document::{Document, DocumentError};
pub use examples::worked_texts;
pub use number::few_digits;
pub use part::Part;
pub use parts::Parts;
pub use text::write_json_text;
