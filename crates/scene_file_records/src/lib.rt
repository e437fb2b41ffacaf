//! The text of records: what a scene text of version 2 says of the past and of the future (docs/SCENE_FILES.md,
//! "Version 2").
//!
//! `specs/Text.antt` has the JSON value of records, and `specs/Walk.antt` the walk through a value, which gives the
//! records that it says or the first fault with its path. All of it computes: `worked_records` has records written and
//! read byte by byte. `specs/Writable.antt` says which records have a text that is read again, and `laws` that they
//! are, and that nothing but the texts of records is read.
//!
//! `write_records` adds the text of records, by printers of their parts, which are there for answers too, and
//! `RecordsForm` reads them, by a `Form` for each word of the walk.
#![tactic(auto)]

mod examples;
mod laws;
mod op;
mod read_cells;
mod read_deltas;
mod read_links;
mod read_records;
mod write_deltas;
mod write_frames;
mod write_parts;

pub use examples::worked_records;
pub use laws::{only_texts_of_records_are_read, written_records_are_read_again};
pub use read_records::RecordsForm;
pub use write_frames::{write_delta_list, write_delta_list_back, write_record, write_records};
