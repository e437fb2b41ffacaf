//! One state that sessions share, an editor with the history of its calls, and the owner of all its sessions.
//!
//! A `Call` is performed on a `State` for a session and entered in the history with its `Reply`, also where the editor
//! refuses it. Contracts see what the state began as and its history; the editor is what those calls make of that
//! opening, and each reply is the machine's (`IsLegal` in `specs/State.antt`). A `Query` asks about a state, an
//! `EditorQuery` about an editor. A `Session` works through one pass of a `WordLock` over the state, beside those of
//! other threads.
//!
//! A `SessionOwner` has all sessions of a state, so that no other call comes between its own: a `SharedOwner` the lock
//! with its eight passes, a `LoneOwner` an editor without a lock. A `Performer` does its calls: `OnThreads` may start
//! threads and wait, `ThisThread` may not and is for a `LoneOwner` (docs/SESSIONS.md).
#![tactic(auto)]

mod all_passes;
mod call;
mod entry;
mod given;
mod job;
mod log;
mod lone_owner;
mod owner;
mod performer;
mod query;
mod session;
mod shared_owner;
mod state;
mod step;
mod turn;
mod way;

pub use all_passes::{ask_with_all, perform_with_all};
pub use call::{Call, Reply, Stopped};
pub use entry::Entry;
pub use given::{AddedSince, ChangedSince, CursorNow, RowsOf};
pub use lone_owner::LoneOwner;
pub use owner::SessionOwner;
pub use performer::{OnThreads, Performer, ThisThread};
pub use query::{EditorQuery, Query};
pub use scene_undo::Cursor;
pub use session::Session;
pub use shared_owner::SharedOwner;
pub use state::{Beginning, State};
pub use step::{call_editor, call_editor_with};
pub use way::Way;
