//! Cursors.

/// A moment of an editor, since which written cells can be asked for until something is undone (docs/MODEL.md, "The
/// rule of queries").
#[derive(Clone, Copy, Debug, PartialEq, Eq, Drop)]
pub struct Cursor {
    /// How many undos there were.
    pub rewinds: u64,
    /// The tick of the world.
    pub tick: u64,
}
