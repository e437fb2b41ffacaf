//! The editor: a world with a past and a future, kept as records of what each frame changed.
//!
//! `Editor::submit` does the queues of a frame, all or nothing, `Editor::advance` the systems of a schedule, whose large
//! columns as many threads write as there are workers, `Editor::submit_one` a command without a queue, and `Editor::run`
//! a frame of any kind; `undo` takes the newest frame back and `redo` does the newest undone one again, and `undo_by` and
//! `redo_by` several, all or none. Contracts speak
//! of the machine of saved worlds (`machine_of` in `specs/Editor.antt`), but no world is saved: what was before and
//! after the world now is told by the records (docs/JOURNAL.md, "The editor").
#![tactic(auto)]

mod advance;
mod cursor;
mod direction;
mod editor;
mod made;
mod once;
mod parts;
mod several;
mod stacks;

pub use cursor::Cursor;
pub use editor::{Editor, MOST_FRAMES};
pub use made::Made;
