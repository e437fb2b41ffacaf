//! The steps of a system that write cells.
ghost use Rattle.std.specs.Prelude.{◌≡◌};
ghost use Rattle.scene_table.specs.RowStep.{target};

/// A step that writes a cell of each matching row (docs/MODEL.md, "The rule of systems").
///
/// A sum outside of the 64-bit numbers with sign is an `Overflow`.
#[derive(Clone, Copy, Debug, PartialEq, Eq)]
pub enum RowStep {
    /// Adds the vector of the kind `by` to that of the kind `to`, coordinate by coordinate.
    AddVec { to: u8, by: u8 },
    /// Adds a number to that of the kind `to`.
    AddInt { to: u8, by: i64 },
}

impl RowStep {
    /// The kind that the step writes.
    pub fn target(self) -> u8
        ensures { result ≡ target self }
    {
        match self {
            RowStep::AddVec { to, .. } | RowStep::AddInt { to, .. } => to,
        }
    }
}
