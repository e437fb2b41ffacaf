//! What a request asks of an editor, and no line of a script does.

use scene_kinds::Entity;
use scene_systems::Filter;

/// A part of a list: so many items from a place on, of which the first is 0.
#[derive(Clone, Copy, Debug, PartialEq, Eq)]
pub struct Page {
    pub from: u32,
    pub count: u32,
}

/// Which records of frames: those of the frames that can be undone, the newest first, or of those that can be redone,
/// the next one first.
#[derive(Clone, Copy, Debug, PartialEq, Eq)]
pub enum Side {
    Past,
    Future,
}

/// Which way a frame took the world: forth, as it was done or redone, or back, as it was undone.
#[derive(Clone, Copy, Debug, PartialEq, Eq)]
pub enum Way {
    Forth,
    Back,
}

/// A question that no line of a script has (docs/SHELL.md, "Questions").
#[derive(Clone, Copy, Debug, PartialEq, Eq)]
pub enum Question {
    /// The cursor of now, and how much there is of what.
    Status,
    /// The kinds, by their numbers.
    Kinds,
    /// The kind sets with rows that a filter matches, each with the number of its rows.
    Tables(Filter),
    /// A part of the rows that a filter matches.
    Rows(Filter, Page),
    /// The children of an entity.
    Children(Entity),
    /// The parent of an entity.
    ParentOf(Entity),
    /// The resources.
    Resources,
    /// A part of a list of records, without their deltas.
    Steps(Side, Page),
    /// A record by its place in its list.
    Deltas(Side, u32),
    /// The deltas of the last frame that went this way.
    Step(Way),
    /// The cells that were changed since a cursor, of the rows that a filter matches.
    ChangedSince {
        filter: Filter,
        rewinds: u64,
        tick: u64,
    },
    /// The cells that were added since a cursor, of the rows that a filter matches.
    AddedSince {
        filter: Filter,
        rewinds: u64,
        tick: u64,
    },
}
