//! Which cells are asked for, by their ticks.
ghost use Rattle.std.specs.Prelude.{◌≡◌};
ghost use Rattle.scene_kinds.specs.Cells.{shown};
ghost use Rattle.scene_table.specs.Since.{is_since};

use scene_kinds::CellRef;

/// The cells that were added, or changed, after a tick. One of the very tick isn't one of them.
#[derive(Clone, Copy, Debug)]
pub enum Since {
    Added(u64),
    Changed(u64),
}

impl Since {
    /// Whether a cell is one of them.
    pub fn has(self, cell: CellRef<'_>) -> bool
        ensures { result ≡ is_since self (shown cell.entry) }
    {
        match self {
            Since::Added(tick) => cell.added > tick,
            Since::Changed(tick) => cell.changed > tick,
        }
    }
}
