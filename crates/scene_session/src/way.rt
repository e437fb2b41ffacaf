//! Which way several frames are gone along.

/// A way along the frames of an editor (docs/MODEL.md, "The rule of undo").
#[derive(Clone, Copy, Debug, PartialEq, Eq, Drop)]
pub enum Way {
    /// To the frames before, by undos.
    Back,
    /// To those that were undone, by redos.
    On,
}
