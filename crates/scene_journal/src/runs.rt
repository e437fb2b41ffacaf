//! The runs that a recorder may go on with.
ghost use Rattle.std.specs.Prelude.{◌≡◌, ◌<◌, ◌+ℤ◌, ◌<ℤ◌, ◌^◌, ℕ, pos, true, false, All, length, slice_get, vec_capacity, IfSome, OnOk};
ghost use Rattle.scene_table.specs.RowStep.{is_written};
ghost use Rattle.scene_model.specs.World.{World};
ghost use Rattle.scene_table.specs.LiveRuns.{AreSpared};
ghost use Rattle.scene_journal.specs.LiveRuns.{AreKept, IsLiveIn, IsSpared, IsTurnOf};
ghost use Rattle.scene_journal.specs.Turns.{CanGoOn, IsRunOf};

use scene_kinds::{KindSet, KindSetMethods};
use scene_table::{RowStep, Run};
use std::alloc::{AllocError, Global};
use std::fmt;
use std::sync::Arc;

/// How many runs are kept at most. A world with more tables for its systems makes new ones.
const MOST_RUNS: usize = 1024;

/// A run, and how far it is.
#[derive(Drop)]
pub(crate) struct Last {
    pub(crate) run: Arc<Run>,
    /// How many turns were written.
    pub(crate) turns: i64,
    /// The tick of the last one.
    pub(crate) tick: u64,
    /// Whether nothing has touched the rows of its table, nor the kinds that its steps name, since then.
    pub(crate) live: bool,
}

/// Whether a turn of a run writes a kind that the steps of another over the same table name.
fn touches(run: &Run, other: &Run) -> bool
    requires below { (k : ℕ) → is_written run.now.steps k ≡ true → k < 64 }
    ensures { result ≡ false → other.now.mask ≡ run.now.mask → AreSpared other.now.steps run.now.steps }
{
    if other.mask() != run.mask() {
        return false;
    }
    !other.touched().is_disjoint(run.written())
}

impl Last {
    /// How many turns were written.
    fn turns(&self) -> i64
        ensures { result ≡ self.now.turns }
    {
        self.turns
    }

    /// Whether no sum of the next turn can be outside of the 64-bit numbers with sign, and none of the turns before.
    fn can_go_on(&self) -> bool
        ensures { result ≡ true → CanGoOn self.now.run.value self.now.turns }
    {
        // A run has a cell of each of its columns for each of its entities.
        let _width = self.run.width();
        let turns = self.turns();
        if turns == i64::MAX || !self.run.fits(turns) {
            return false;
        }
        self.run.fits(turns + 1)
    }
}

/// The runs of the frames before, of which each may be gone on with where the same steps are written to the same table
/// again (docs/JOURNAL.md, "Runs").
#[derive(Drop)]
pub(crate) struct Runs {
    list: Vec<Last>,
    /// How many runs of the list were written in this frame.
    used: usize,
    /// Whether some run is live.
    any_live: bool,
}

impl Runs {
    /// No runs. It takes no memory.
    pub(crate) fn new(alloc: Global) -> Runs
        ensures { (w : World) → AreKept w result }
    {
        Runs {
            list: Vec::new(alloc),
            used: 0,
            any_live: false,
        }
    }

    /// How many runs are kept.
    fn len(&self) -> usize
        ensures { result ≡ length self.now.list.items }
    {
        self.list.len()
    }

    /// Whether the run of a number, if there is one, is that of these steps over the table of a kind set.
    fn is_at(&self, at: usize, mask: KindSet, steps: &[RowStep]) -> bool
        ensures within { result ≡ true → at < length self.now.list.items }
        ensures of { result ≡ true → IfSome (slice_get self.now.list.items at) (λ last. IsRunOf mask steps.now last.run.value) }
    {
        at < self.len() && self.list[at].run.is_of(mask, steps)
    }

    /// The number of the run of these steps over the table of a kind set. A frame writes mostly what the one before
    /// did, in the same order.
    fn find(&self, mask: KindSet, steps: &[RowStep]) -> Option<usize>
        ensures within { IfSome result (λ at. at < length self.now.list.items) }
        ensures of { IfSome result (λ at. IfSome (slice_get self.now.list.items at) (λ last. IsRunOf mask steps.now last.run.value)) }
    {
        if self.is_at(self.used, mask, steps) {
            return Some(self.used);
        }
        for at in 0..self.len() {
            if self.is_at(at, mask, steps) {
                return Some(at);
            }
        }
        None
    }

    /// The run of these steps over the table of a kind set, with how far it is, where it has a next turn.
    pub(crate) fn last(&self, mask: KindSet, steps: &[RowStep]) -> Option<&Last>
        ensures of { IfSome result (λ last. IsRunOf mask steps.now last.now.run.value) }
        ensures can { IfSome result (λ last. CanGoOn last.now.run.value last.now.turns) }
        ensures live { IfSome result (λ last. (w : World) → AreKept w self.now → IsLiveIn w last.now) }
    {
        let last = &self.list[self.find(mask, steps)?];
        if last.can_go_on() { Some(last) } else { None }
    }

    /// Makes room to note a run.
    pub(crate) fn reserve(&mut self) -> Result<(), AllocError>
        ensures room { OnOk result (length self.new.list.items < vec_capacity self.new.list) }
        ensures kept { (w : World) → AreKept w self.old → AreKept w self.new }
    {
        self.list.reserve(1)
    }

    /// Whether a turn of a run touches the run of a number.
    fn is_touched(&self, at: usize, run: &Run) -> bool
        requires at { at < length self.now.list.items }
        requires below { (k : ℕ) → is_written run.now.steps k ≡ true → k < 64 }
        ensures { result ≡ false → IfSome (slice_get self.now.list.items at) (IsSpared run.now) }
    {
        touches(run, &*self.list[at].run)
    }

    /// Ends the runs that a turn of a run touches.
    fn end_touched(&mut self, run: &Run)
        requires below { (k : ℕ) → is_written run.now.steps k ≡ true → k < 64 }
        ensures count { length self.new.list.items ≡ length self.old.list.items }
        ensures room { vec_capacity self.new.list ≡ vec_capacity self.old.list }
        ensures others { (w v : World) → ((l : Last) → IsSpared run.now l → IsLiveIn w l → IsLiveIn v l)
            → All (IsLiveIn w) self.old.list.items → All (IsLiveIn v) self.new.list.items }
    {
        for at in 0..self.len() {
            if self.is_touched(at, run) {
                self.list[at].live = false;
            }
        }
    }

    /// Notes that a turn of a run was written, after so many others, at a tick.
    pub(crate) fn note(&mut self, run: Arc<Run>, steps: &[RowStep], turns: i64, tick: u64)
        requires room { length self.old.list.items < vec_capacity self.old.list }
        requires counted { (turns +ℤ pos 1) <ℤ pos (2 ^ 63) }
        requires below { (k : ℕ) → is_written run.value.steps k ≡ true → k < 64 }
        ensures { (w v : World) → AreKept w self.old → IsTurnOf w v run.value turns tick → AreKept v self.new }
    {
        self.end_touched(&*run);
        let found = self.find(run.mask(), steps);
        let last = Last {
            run,
            turns: turns + 1,
            tick,
            live: true,
        };
        self.any_live = true;
        self.put(found, last);
    }

    /// Puts a run in place of the one of a number, or else behind the others, where there are few.
    fn put(&mut self, found: Option<usize>, last: Last)
        requires room { length self.old.list.items < vec_capacity self.old.list }
        requires found { IfSome found (λ at. at < length self.old.list.items) }
        ensures each { (w : World) → All (IsLiveIn w) self.old.list.items → IsLiveIn w last → All (IsLiveIn w) self.new.list.items }
        ensures flag { self.new.any_live ≡ self.old.any_live }
    {
        match found {
            Some(at) => {
                self.list[at] = last;
                self.use_at(at);
            }
            None if self.len() < MOST_RUNS => {
                let at = self.len();
                self.list.push_reserved(last);
                self.use_at(at);
            }
            None => (),
        }
    }

    /// Puts the run of a number behind those that this frame wrote, unless it is one of them.
    fn use_at(&mut self, at: usize)
        requires { at < length self.old.list.items }
        ensures each { (w : World) → All (IsLiveIn w) self.old.list.items → All (IsLiveIn w) self.new.list.items }
        ensures flag { self.new.any_live ≡ self.old.any_live }
    {
        if at >= self.used {
            self.list.swap(at, self.used);
            self.used += 1;
        }
    }

    /// Ends the frame: where it wrote some, only the runs that it wrote are kept.
    #[inline(always)]
    pub(crate) fn finish(&mut self)
        ensures { (w : World) → AreKept w self.old → AreKept w self.new }
    {
        if self.used > 0 {
            self.list.truncate(self.used);
        }
        self.used = 0;
    }

    /// Nothing is known of the rows any more.
    pub(crate) fn end(&mut self)
        requires { self.old.any_live ≡ false → All (λ last. last.live ≡ false) self.old.list.items }
        ensures { (w : World) → AreKept w self.new }
    {
        if !self.any_live {
            return;
        }
        for at in 0..self.len() {
            self.list[at].live = false;
        }
        self.any_live = false;
    }
}

/// As their number.
impl fmt::Debug for Runs {
    fn fmt<W: fmt::Write>(&self, f: &mut fmt::Formatter<W>) -> fmt::Result {
        let count = self.len();
        write!(f, "{count} runs")
    }
}
