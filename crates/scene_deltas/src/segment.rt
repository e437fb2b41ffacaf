//! What a frame's deltas are made of.
ghost use Rattle.std.specs.Prelude.{◌≡◌, ◌<◌, Some, length, slice_get};
ghost use Rattle.scene_deltas.specs.Segments.{seen, shown, turn_deltas};

use crate::delta::Delta;
use scene_table::Written;
use std::alloc::AllocError;

/// Deltas that stand together: one, or those of all cells that a turn of a run wrote.
#[derive(Drop)]
pub(crate) enum Segment {
    One(Delta),
    Written(Written),
}

/// A delta that is lent, or that is made of what a run knows.
#[derive(Drop)]
pub enum DeltaRef<'a> {
    Kept(&'a Delta),
    Made(Delta),
}

impl<'a> DeltaRef<'a> {
    /// The delta.
    pub fn get(&self) -> &Delta
        ensures { result.now ≡ seen self.now }
    {
        match self {
            DeltaRef::Kept(delta) => delta,
            DeltaRef::Made(delta) => delta,
        }
    }
}

/// The delta of a cell of a number that a turn of a run wrote. It takes no memory.
fn written_delta(written: &Written, number: usize) -> Delta
    requires { number < length (turn_deltas written.now) }
    ensures { slice_get (turn_deltas written.now) number ≡ Some result }
{
    let cell = written.cell(number);
    Delta::CellSet {
        entity: cell.entity,
        kind: cell.kind,
        before: cell.before,
        after: cell.after,
    }
}

impl Segment {
    /// How many deltas it has.
    pub(crate) fn len(&self) -> usize
        ensures { result ≡ length (shown self.now) }
    {
        match self {
            Segment::One(_) => 1,
            Segment::Written(written) => written.len(),
        }
    }

    /// The delta at a place. It takes no memory.
    pub(crate) fn delta_at(&self, at: usize) -> DeltaRef<'_>
        requires { at < length (shown self.now) }
        ensures { slice_get (shown self.now) at ≡ Some (seen result) }
    {
        match self {
            Segment::One(delta) => DeltaRef::Kept(delta),
            Segment::Written(written) => DeltaRef::Made(written_delta(written, at)),
        }
    }
}

/// An equal segment, or an error where no memory was found. A run is shared.
impl Clone for Segment {
    ghost is_clone = { λ a b. b ≡ a };

    fn clone(&self) -> Result<Segment, AllocError> {
        match self {
            Segment::One(delta) => Ok(Segment::One(delta.try_clone()?)),
            Segment::Written(written) => Ok(Segment::Written(written.try_clone()?)),
        }
    }
}
