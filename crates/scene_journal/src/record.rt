//! The deltas of one frame.
ghost use Rattle.std.specs.Prelude.{◌≡◌, IfOk};
ghost use Rattle.scene_journal.specs.Records.{record_of};

use scene_deltas::Deltas;
use std::alloc::{AllocError, Global};
use std::marker::Model;

/// What one frame did: the tick of the world before it, and its deltas in order (docs/JOURNAL.md, "Records").
///
/// Contracts see the tick and the list of deltas.
#[derive(Debug)]
pub struct FrameRecord {
    tick_before: u64,
    deltas: Deltas,
}

impl Drop for FrameRecord {
    fn drop(self) {
        let FrameRecord {
            tick_before: _,
            deltas: _,
        } = self;
    }
}

impl Model for FrameRecord {
    ghost use Rattle.scene_journal.specs.Records.{Record, record_of};

    ghost Value = { Record };

    ghost view = { λ r. record_of r.tick_before r.deltas.items };
}

impl FrameRecord {
    /// The record of a frame on a world of this tick, with these deltas, first to last. It takes no memory.
    pub fn new(tick_before: u64, deltas: Deltas) -> Self
        ensures { result ≡ record_of tick_before deltas.items }
    {
        FrameRecord {
            tick_before,
            deltas,
        }
    }

    /// The tick of the world before the frame.
    pub fn tick_before(&self) -> u64
        ensures { result ≡ self.now.tick_before }
    {
        self.tick_before
    }

    /// The deltas, in the order in which they were made.
    pub fn deltas(&self) -> &Deltas
        ensures { result.now.items ≡ self.now.deltas }
    {
        &self.deltas
    }

    /// Where the deltas have their memory from.
    pub(crate) fn alloc(&self) -> Global {
        self.deltas.alloc()
    }

    /// The tick before the frame, and the deltas. It takes no memory.
    pub fn into_parts(self) -> (u64, Deltas)
        ensures { record_of result.0 result.1.items ≡ self }
    {
        let FrameRecord {
            tick_before,
            deltas,
        } = self;
        (tick_before, deltas)
    }

    /// An equal record, or an error where no memory was found. It copies each delta.
    pub fn try_clone(&self) -> Result<FrameRecord, AllocError>
        ensures { IfOk result (λ copy. copy ≡ self.now) }
    {
        Ok(FrameRecord {
            tick_before: self.tick_before,
            deltas: self.deltas.try_clone()?,
        })
    }
}
