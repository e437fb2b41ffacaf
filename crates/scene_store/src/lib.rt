//! A file of lines that are kept for good: an SQLite database.
#![tactic(auto)]

mod backup;
mod closed;
mod fault;
mod file_lines;
mod holder;
mod kept;
mod look;
mod rewrite;
mod rows;
mod schema;
mod snapshot;
mod statements;
mod store;
mod version;

pub use backup::{BackupFault, back_up, make_store};
pub use fault::{OpenFault, StoreFault, StoreFileFault};
pub use file_lines::{FileLines, lines_at};
pub use holder::{Holder, holder_of};
pub use rows::StoredLines;
pub use snapshot::Snapshot;
pub use sqlite::{Alter, Unknown};
pub use store::Store;
pub use version::Version;
