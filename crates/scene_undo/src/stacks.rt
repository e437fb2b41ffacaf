//! The records of an editor's past and future.
ghost use Rattle.std.specs.Prelude.{◌≡◌, ◌<◌, ◌≤◌, ◌+◌, ◌-◌, ◌∷◌, [], drop, length, reverse, take, List, MatchOption, OnOk, IfOk};
ghost use Rattle.scene_journal.specs.Records.{Record};
ghost use Rattle.scene_undo.specs.Stacks.{AreSame, IsRedone, IsUndone};

use scene_journal::{Deltas, FrameRecord};
use std::alloc::{AllocError, Global};
use std::marker::Model;

/// As many places of dropped records are left empty, however few records there are.
const FEW_PLACES: usize = 64;

/// The records of the frames before the world now, and those of the frames that were undone, in one list: an undo and a
/// redo move the place where the one ends and the other begins, and no record.
///
/// Contracts see the past, the newest first, the future, the next one first, the depth, and for how many frames more
/// there is a place.
#[derive(Drop, Debug)]
pub(crate) struct Stacks {
    alloc: Global,
    /// The empty places of records that were dropped; the past, the oldest first; the future, the next one first.
    records: Vec<FrameRecord>,
    /// How many places of dropped records there are.
    dropped: usize,
    /// Where the future begins.
    middle: usize,
    depth: u32,
}

impl Model for Stacks {
    ghost use Rattle.std.specs.Prelude.{◌≤◌, ◌-◌, reverse, take, drop, length, vec_capacity};
    ghost use Rattle.scene_undo.specs.Stacks.{Stacked};

    ghost Value = { Stacked };

    ghost view = { λ s. record {
      past = reverse (drop s.dropped (take s.middle s.records.items));
      future = drop s.middle s.records.items;
      depth = s.depth;
      places = vec_capacity s.records - s.middle;
    } };

    ghost invariant = { λ s. (s.dropped ≤ s.middle) × (s.middle ≤ length s.records.items) };
}

/// Brings the records from a place on to the front, in their order, where no more stand before that place. It costs as
/// many swaps as they are.
// A rotation moves all records, and takes much room for few of them.
fn bring_forward(records: &mut [FrameRecord], from: usize)
    requires within { from ≤ length records.old }
    requires fewer { length records.old ≤ from + from }
    ensures front { take (length records.old - from) records.new ≡ drop from records.old }
    ensures long { length records.new ≡ length records.old }
{
    for place in 0..records.len() - from {
        records.swap(place, from + place);
    }
}

impl Stacks {
    /// No records, of this depth.
    pub(crate) fn new(alloc: Global, depth: u32) -> Stacks
        ensures past { result.past ≡ [] }
        ensures future { result.future ≡ [] }
        ensures depth { result.depth ≡ depth }
    {
        Stacks {
            alloc,
            records: Vec::new(alloc),
            dropped: 0,
            middle: 0,
            depth,
        }
    }

    /// The newest of these records of a past, the oldest first, as many as the depth keeps, and those of a future, the
    /// next one first.
    pub(crate) fn from_parts(
        alloc: Global,
        past: Vec<FrameRecord>,
        future: Vec<FrameRecord>,
        depth: u32,
    ) -> Result<Stacks, AllocError>
        ensures past { IfOk result (λ s. s.past ≡ take depth (reverse past.items)) }
        ensures future { IfOk result (λ s. s.future ≡ future.items) }
        ensures depth { IfOk result (λ s. s.depth ≡ depth) }
    {
        let middle = past.len();
        let (mut records, mut behind) = (past, future);
        records.append(&mut behind)?;
        let mut stacks = Stacks {
            alloc,
            records,
            dropped: 0,
            middle,
            depth,
        };
        stacks.cut();
        Ok(stacks)
    }

    /// The records of the past, the oldest first, and those of the future, the next one first.
    pub(crate) fn records(&self) -> (&[FrameRecord], &[FrameRecord])
        ensures past { reverse result.0.now ≡ self.now.past }
        ensures future { result.1.now ≡ self.now.future }
    {
        let (done, future) = self.records.as_slice().split_at(self.middle);
        let (_, past) = done.split_at(self.dropped);
        (past, future)
    }

    /// Of how many frames a record is kept.
    pub(crate) fn depth(&self) -> u32
        ensures { result ≡ self.now.depth }
    {
        self.depth
    }

    /// Keeps so many records of a past from now on.
    pub(crate) fn set_depth(&mut self, depth: u32)
        ensures past { self.new.past ≡ take depth self.old.past }
        ensures future { self.new.future ≡ self.old.future }
        ensures depth { self.new.depth ≡ depth }
    {
        self.depth = depth;
        self.cut();
    }

    /// How many records the past has.
    pub(crate) fn past_len(&self) -> usize
        ensures { result ≡ length self.now.past }
    {
        self.middle - self.dropped
    }

    /// How many the future has.
    pub(crate) fn future_len(&self) -> usize
        ensures { result ≡ length self.now.future }
    {
        self.records.len() - self.middle
    }

    /// The record of the newest frame of the past.
    pub(crate) fn newest(&self) -> Option<&FrameRecord>
        ensures { MatchOption result (self.now.past ≡ []) (λ r. (rest : List Record) × (self.now.past ≡ r.now ∷ rest)) }
    {
        let (past, _) = self.records();
        past.last()
    }

    /// The record of the next frame of the future.
    pub(crate) fn next(&self) -> Option<&FrameRecord>
        ensures { MatchOption result (self.now.future ≡ []) (λ r. (rest : List Record) × (self.now.future ≡ r.now ∷ rest)) }
    {
        let (_, future) = self.records();
        future.first()
    }

    /// Makes a place for the record of a further frame.
    pub(crate) fn make_room(&mut self) -> Result<(), AllocError>
        ensures same { AreSame self.new self.old }
        ensures room { OnOk result (0 < self.new.places) }
    {
        if self.middle == self.records.len() {
            self.records.reserve(1)?;
        }
        Ok(())
    }

    /// Keeps the record of a further frame, for which there is a place, and forgets what was undone.
    #[inline(always)]
    pub(crate) fn keep(&mut self, newest: FrameRecord)
        requires { 0 < self.old.places }
        ensures past { self.new.past ≡ take self.old.depth (newest ∷ self.old.past) }
        ensures future { self.new.future ≡ [] }
        ensures depth { self.new.depth ≡ self.old.depth }
    {
        self.records.truncate(self.middle);
        self.records.push_reserved(newest);
        self.middle += 1;
        self.cut();
    }

    /// The newest frame of the past becomes the next one of the future.
    pub(crate) fn undo(&mut self)
        requires { 0 < length self.old.past }
        ensures moved { IsUndone self.old.past self.old.future self.new.past self.new.future }
        ensures depth { self.new.depth ≡ self.old.depth }
    {
        self.middle -= 1;
    }

    /// The next frame of the future becomes the newest one of the past.
    pub(crate) fn redo(&mut self)
        requires { 0 < length self.old.future }
        ensures moved { IsRedone self.old.depth self.old.past self.old.future self.new.past self.new.future }
        ensures depth { self.new.depth ≡ self.old.depth }
    {
        self.middle += 1;
        self.cut();
    }

    /// Drops the oldest records, until there are no more than the depth keeps.
    #[inline(always)]
    fn cut(&mut self)
        ensures past { self.new.past ≡ take self.old.depth self.old.past }
        ensures future { self.new.future ≡ self.old.future }
        ensures depth { self.new.depth ≡ self.old.depth }
    {
        let depth = self.depth as usize;
        while depth < self.past_len() {
            self.drop_oldest();
        }
        self.close_up();
    }

    /// Drops the oldest record of the past, and leaves its place empty.
    fn drop_oldest(&mut self)
        requires { 0 < length self.old.past }
        ensures past { self.new.past ≡ take (length self.old.past - 1) self.old.past }
        ensures future { self.new.future ≡ self.old.future }
        ensures depth { self.new.depth ≡ self.old.depth }
    {
        self.records[self.dropped] = FrameRecord::new(0, Deltas::new(self.alloc));
        self.dropped += 1;
    }

    /// Closes the empty places up, where they are the most and not just a few: so each of them costs a constant time in
    /// the long run.
    fn close_up(&mut self)
        ensures past { self.new.past ≡ self.old.past }
        ensures future { self.new.future ≡ self.old.future }
        ensures depth { self.new.depth ≡ self.old.depth }
    {
        let kept = self.records.len() - self.dropped;
        if kept < self.dropped && self.dropped >= FEW_PLACES {
            bring_forward(self.records.as_mut_slice(), self.dropped);
            self.records.truncate(kept);
            self.middle -= self.dropped;
            self.dropped = 0;
        }
    }
}
