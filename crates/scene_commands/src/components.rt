//! The components that a spawn is given.
ghost use Rattle.std.specs.Prelude.{◌≡◌, IfOk};

use scene_kinds::Value;
use std::alloc::AllocError;
use std::marker::Model;

/// Components, each with its kind, in the order in which they were given. Contracts see a list.
#[derive(Clone, Debug)]
pub struct Components {
    cells: Vec<(u8, Value)>,
}

impl Drop for Components {
    fn drop(self) {
        let Components { cells: _ } = self;
    }
}

impl Model for Components {
    ghost use Rattle.std.specs.Prelude.{List, ℕ};
    ghost use Rattle.scene_kinds.specs.declared.value.Value.{Value as Data};

    ghost Value = { List (ℕ × Data) };

    ghost view = { λ c. c.cells.items };
}

impl Components {
    /// The components as a slice. It takes no memory.
    pub fn as_slice(&self) -> &[(u8, Value)]
        ensures { result.now ≡ self.now }
    {
        self.cells.as_slice()
    }

    /// The components as a list. It takes no memory.
    pub fn into_vec(self) -> Vec<(u8, Value)>
        ensures { result.items ≡ self }
    {
        let Components { cells } = self;
        cells
    }

    /// Equal components, or an error where no memory was found.
    pub fn try_clone(&self) -> Result<Components, AllocError>
        ensures { IfOk result (λ copy. copy ≡ self.now) }
    {
        self.clone()
    }
}

/// The components of a list. It takes no memory.
impl From<Vec<(u8, Value)>> for Components {
    ghost from_gives = { λ list components. components ≡ list.items };

    fn from(cells: Vec<(u8, Value)>) -> Components {
        Components { cells }
    }
}
