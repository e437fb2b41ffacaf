//! What a phase made.
ghost use Rattle.std.specs.Prelude.{◌≡◌};

use scene_pass::RowChange;
use scene_queue::Queue;
use std::marker::Model;

/// What a system makes of its rows, one change for each matching row. Contracts see a list.
#[derive(Debug)]
pub struct RowChanges {
    list: Vec<RowChange>,
}

impl Drop for RowChanges {
    fn drop(self) {
        let RowChanges { list: _ } = self;
    }
}

impl Model for RowChanges {
    ghost use Rattle.std.specs.Prelude.{List};
    ghost use Rattle.scene_pass.specs.declared.row_change.RowChange.{RowChange as Data};

    ghost Value = { List Data };

    ghost view = { λ c. c.list.items };
}

impl RowChanges {
    /// The changes, by ascending kind set and in a table by place. It takes no memory.
    pub fn as_slice(&self) -> &[RowChange]
        ensures { result.now ≡ self.now }
    {
        self.list.as_slice()
    }
}

/// The changes of a list. It takes no memory.
impl From<Vec<RowChange>> for RowChanges {
    ghost from_gives = { λ list changes. changes ≡ list.items };

    fn from(list: Vec<RowChange>) -> RowChanges {
        RowChanges { list }
    }
}

/// What the systems of a phase made, by system: their rows, and their queues (docs/MODEL.md, "The rule of schedules").
#[derive(Debug)]
pub struct PhaseOutput {
    pub rows: Vec<RowChanges>,
    pub queues: Vec<Queue>,
}

impl Drop for PhaseOutput {
    fn drop(self) {
        let PhaseOutput { rows: _, queues: _ } = self;
    }
}

impl PhaseOutput {
    /// The rows and the queues, each on its own. It takes no memory.
    pub(crate) fn into_parts(self) -> (Vec<RowChanges>, Vec<Queue>)
        ensures rows { result.0.items ≡ self.rows.items }
        ensures queues { result.1.items ≡ self.queues.items }
    {
        let PhaseOutput { rows, queues } = self;
        (rows, queues)
    }
}
