//! The steps of a system.
ghost use Rattle.std.specs.Prelude.{◌≡◌, IfOk};

use scene_commands::Components;
use scene_kinds::Text;
use scene_table::RowStep;
use std::alloc::AllocError;
use std::marker::Model;

/// A step of a system: it writes cells of the matching rows, or it queues commands (docs/MODEL.md, "The rule of
/// systems").
#[derive(Drop, Clone, Debug)]
pub enum Step {
    /// Writes a cell of each matching row.
    Row(RowStep),
    /// Queues, for each matching row whose number of this kind is 0 then, that the row's entity and all below it are
    /// despawned if they are alive.
    DespawnAtZero { kind: u8 },
    /// Queues, for each matching row, the spawn of an entity with these components, and that it becomes the last child
    /// of the row's entity.
    SpawnChild { cells: Components },
    /// Queues that the number of matching rows is put at a name.
    CountInto { name: Text },
}

impl Step {
    /// An equal step, or an error where no memory was found.
    pub fn try_clone(&self) -> Result<Step, AllocError>
        ensures { IfOk result (λ copy. copy ≡ self.now) }
    {
        self.clone()
    }
}

/// The steps of a system, first to last. Contracts see a list.
#[derive(Clone, Debug)]
pub struct Steps {
    list: Vec<Step>,
}

impl Drop for Steps {
    fn drop(self) {
        let Steps { list: _ } = self;
    }
}

impl Model for Steps {
    ghost use Rattle.std.specs.Prelude.{List};
    ghost use Rattle.scene_systems.specs.declared.step.Step.{Step as Data};

    ghost Value = { List Data };

    ghost view = { λ s. s.list.items };
}

impl Steps {
    /// The steps as a slice. It takes no memory.
    pub fn as_slice(&self) -> &[Step]
        ensures { result.now ≡ self.now }
    {
        self.list.as_slice()
    }

    /// Equal steps, or an error where no memory was found.
    pub fn try_clone(&self) -> Result<Steps, AllocError>
        ensures { IfOk result (λ copy. copy ≡ self.now) }
    {
        self.clone()
    }
}

/// The steps of a list. It takes no memory.
impl From<Vec<Step>> for Steps {
    ghost from_gives = { λ list steps. steps ≡ list.items };

    fn from(list: Vec<Step>) -> Steps {
        Steps { list }
    }
}
