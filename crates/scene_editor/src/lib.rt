//! The one door for tools: an editor, what it takes, what it gives, and why it refuses.
//!
//! A tool lists this crate alone, and names nothing below it. The crate has no code but `new_state`, beside functions
//! whose contracts say laws: a type comes with its methods and their contracts, and `specs/` passes on the definitions
//! that a tool's own clauses may lean on (docs/LIBRARY.md).
//!
//! A tool makes a `Schema` of its kinds and an `Editor` of a `World`; or it loads the world. A change is a `Queue` of
//! `Command`s, in which a `Target` is an entity or the k-th that the queue spawns; `Editor::submit` does queues as one
//! frame and gives `Made`, the new entities. `undo` and `redo` are the editor's. A `SystemRule` says what is done with
//! each matching row, in `Step`s; a `Schedule` is made of `Phase`s of such rules, and `Editor::advance_alone` does it
//! as one frame, as `Editor::advance` does on several threads. `Editor::world` is read by `World::get`, which lends a
//! `CellRef`, and by the passes, whose `Filter` says which entities they look at. What was written since a `Cursor`
//! comes as `CellName`s. A `Refusal` says by a `Fault` why, and by a `Place` at which command; `Returned` hands back
//! what a queue didn't take. A scene text goes through a `Source` or a `Sink`, and is refused by a `FileFault`.
//!
//! Where several threads work on one scene, each has a `Session` through a `Pass` of a `WordLock` over a `State`, which
//! is an editor with its history (docs/SESSIONS.md).
//!
//! The laws are what lists of changes rely on. `GoesOn` in `specs/GoesOn.antt` says of two worlds that each cell of the
//! later one was changed after the tick of the earlier one, or the earlier one holds an equal cell: so it is after an
//! accepted frame (`frames_go_on`), and after calls of the machine of saved worlds unless one of them is an undo, which
//! the count of rewinds tells (`machines_go_on`). So the answers to `ChangedSince` and `AddedSince` tell the world of
//! then and that of now apart, for each moment at which the cursor could have been taken:
//! `lists_tell_two_worlds_apart`, of states like that of `new_state`.
#![tactic(auto)]

mod laws;
mod opening;
mod since_cursor;

// Editors: frames, undo and redo.
pub use scene_undo::{Cursor, Editor, MOST_FRAMES, Made};

// Changes: lists of commands.
pub use scene_commands::{Command, Components, Target};
pub use scene_queue::{Queue, Returned};

// Systems: rules over rows, in the phases of a schedule, by which an editor advances.
pub use scene_schedule::Schedule;
pub use scene_systems::{Phase, RowStep, Step, Steps, SystemRule};

// What a scene is made of: kinds with shapes, entities, values and cells.
pub use scene_kinds::{
    Cell, CellRef, Entity, Fault, KindSet, KindSetMethods, Place, Refusal, Row, Schema, Shape,
    Text, Value,
};

// Reading: the world, and passes over it.
pub use scene_pass::{CellName, Filter, added_since, changed_since, matching};
pub use scene_world::World;

// Scene texts: loading and saving, of a world, and of an editor with all that it can undo and redo.
pub use scene_file::{
    FileFault, load, load_editor, load_editor_text, load_text, save, save_editor, save_editor_text,
    save_text,
};
pub use scene_streams::{Sink, Source};

// Sessions: threads that share a scene, each through a pass of its own, and the queries that they ask.
pub use scene_lock::{Pass, WordLock};
pub use scene_session::{
    AddedSince, Call, ChangedSince, CursorNow, EditorQuery, Entry, Query, Reply, RowsOf, Session,
    State, Stopped,
};

// What lists of changes rely on.
pub use laws::{frames_go_on, machines_go_on};
pub use opening::new_state;
pub use since_cursor::lists_tell_two_worlds_apart;
