//! The cell of a resource, or none, as a delta keeps it.
ghost use Rattle.std.specs.Prelude.{◌≡◌, IfOk};
ghost use Rattle.std.specs.Option.{option_map};

use scene_kinds::Cell;
use std::alloc::{AllocError, Global};
use std::fmt;
use std::marker::Model;

/// The cell of a resource, or none. It stands on the heap, since two cells and a name would make every delta as large
/// as those of resources, and most deltas are others.
///
/// Contracts see the cell, where there is one.
#[derive(Drop)]
pub struct ResourceCell {
    cell: Option<Box<Cell>>,
}

impl Model for ResourceCell {
    ghost use Rattle.std.specs.Prelude.{Option};
    ghost use Rattle.std.specs.Option.{option_map};
    ghost use Rattle.scene_kinds.specs.declared.cell.Cell.{Cell};

    ghost Value = { Option Cell };

    ghost view = { λ r. option_map (λ b. b.value) r.cell };
}

impl ResourceCell {
    /// The cell, or none, or an error where no memory was found. None takes no memory.
    pub fn new(alloc: Global, cell: Option<Cell>) -> Result<ResourceCell, AllocError>
        ensures { IfOk result (λ kept. kept ≡ cell) }
    {
        Ok(ResourceCell {
            cell: match cell {
                Some(cell) => Some(Box::new(alloc, cell)?),
                None => None,
            },
        })
    }

    /// The cell, or none.
    pub fn get(&self) -> Option<&Cell>
        ensures { option_map (λ cell. cell.now) result ≡ self.now }
    {
        match &self.cell {
            Some(cell) => Some(&**cell),
            None => None,
        }
    }

    /// The cell itself, or none. It takes no memory.
    pub fn into_cell(self) -> Option<Cell>
        ensures { result ≡ self }
    {
        let ResourceCell { cell } = self;
        match cell {
            Some(cell) => Some(Box::into_inner(cell)),
            None => None,
        }
    }
}

/// An equal cell, or none, or an error where no memory was found.
impl Clone for ResourceCell {
    ghost is_clone = { λ a b. b ≡ a };

    fn clone(&self) -> Result<ResourceCell, AllocError> {
        Ok(ResourceCell {
            cell: match &self.cell {
                Some(cell) => Some(Box::new(*Box::allocator(cell), cell.try_clone()?)?),
                None => None,
            },
        })
    }
}

/// As an `Option` of a cell.
impl fmt::Debug for ResourceCell {
    fn fmt<W: fmt::Write>(&self, f: &mut fmt::Formatter<W>) -> fmt::Result {
        let cell = self.get();
        write!(f, "{cell:?}")
    }
}
