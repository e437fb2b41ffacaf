//! The deltas of a frame, one after another.
ghost use Rattle.std.specs.Prelude.{◌≡◌, ◌↔◌, ◌+◌, ◌<◌, ◌≤◌, ◌^◌, ◌++◌, ◌∷◌, [], length, vec_capacity};
ghost use Rattle.std.specs.Prelude.{IsTrue, OnOk, OnErr, IfOk, MatchOption};
ghost use Rattle.scene_deltas.specs.DeltaList.{held_room, held_segments};
ghost use Rattle.scene_deltas.specs.Segments.{flat, shown, turn_deltas};

use crate::delta::Delta;
use crate::segment::Segment;
use crate::walks::{Backward, Forward};
use scene_table::Written;
use std::alloc::{AllocError, Global};
use std::marker::Model;
use std::{fmt, mem, slice};

/// For how many segments a list is made.
const FIRST_ROOM: usize = 4;

/// How segments are held. Most frames make one delta, which needs no list.
#[derive(Drop)]
pub(crate) enum Held {
    Empty,
    Lone(Segment),
    Many(Vec<Segment>),
}

impl Held {
    /// The list of the segments.
    fn as_slice(&self) -> &[Segment]
        ensures { result.now ≡ held_segments self.now }
    {
        match self {
            Held::Empty => &[],
            Held::Lone(segment) => slice::from_ref(segment),
            Held::Many(segments) => segments.as_slice(),
        }
    }

    /// For how many more segments there is room.
    fn room(&self) -> usize
        ensures { result ≡ held_room self.now }
    {
        match self {
            Held::Empty => 1,
            Held::Lone(_) => 0,
            Held::Many(segments) => segments.capacity() - segments.len(),
        }
    }

    /// The segments in a list, for which there is an empty one with room where they have none.
    fn into_list(self, empty: Vec<Segment>) -> Vec<Segment>
        requires empty { empty.items ≡ [] }
        requires room { 0 < vec_capacity empty }
        ensures { result.items ≡ held_segments self }
    {
        let mut list = empty;
        match self {
            Held::Empty => list,
            Held::Lone(segment) => {
                list.push_reserved(segment);
                list
            }
            Held::Many(segments) => segments,
        }
    }

    /// Puts a segment last, for which there is room.
    #[inline(always)]
    fn push(&mut self, segment: Segment)
        requires { 0 < held_room self.old }
        ensures segments { held_segments self.new ≡ held_segments self.old ++ segment ∷ [] }
        ensures room { held_room self.new + 1 ≡ held_room self.old }
    {
        if let Held::Many(segments) = self {
            segments.push_reserved(segment);
            return;
        }
        *self = Held::Lone(segment);
    }

    /// Takes the last segment out, if there is one.
    pub(crate) fn pop(&mut self) -> Option<Segment>
        ensures { MatchOption result ((held_segments self.old ≡ []) × (held_segments self.new ≡ []))
            (λ s. held_segments self.old ≡ held_segments self.new ++ s ∷ []) }
    {
        if let Held::Many(segments) = self {
            return segments.pop();
        }
        match mem::replace(self, Held::Empty) {
            Held::Lone(segment) => Some(segment),
            _ => None,
        }
    }

    /// Puts segments last, for which there is room.
    fn push_list(&mut self, list: Vec<Segment>)
        requires { length list.items ≤ held_room self.old }
        ensures { held_segments self.new ≡ held_segments self.old ++ list.items }
    {
        for segment in list {
            self.push(segment);
        }
    }

    /// Puts other segments last, for which there is room.
    fn push_all(&mut self, more: Held)
        requires { length (held_segments more) ≤ held_room self.old }
        ensures { held_segments self.new ≡ held_segments self.old ++ held_segments more }
    {
        match more {
            Held::Empty => (),
            Held::Lone(segment) => self.push(segment),
            Held::Many(list) => self.push_list(list),
        }
    }
}

/// The segments of a list. It takes no memory.
fn held_of(list: Vec<Segment>) -> Held
    ensures { held_segments result ≡ list.items }
{
    let mut list = list;
    if list.len() > 1 {
        return Held::Many(list);
    }
    match list.pop() {
        Some(segment) => Held::Lone(segment),
        None => Held::Empty,
    }
}

/// The same segments without memory that they don't need.
fn shrunk(held: Held) -> Held
    ensures { held_segments result ≡ held_segments held }
{
    match held {
        Held::Many(segments) => {
            let mut list = segments;
            list.shrink_to_fit();
            held_of(list)
        }
        few => few,
    }
}

/// The deltas of a frame, in the order in which they were made (docs/JOURNAL.md, "Records"). One alone takes no memory
/// of its own, and those that a turn of a run made take as much as one.
///
/// Contracts see the list, and for how many more deltas there is room.
pub struct Deltas {
    alloc: Global,
    held: Held,
    /// How many deltas the segments have.
    count: usize,
}

impl Drop for Deltas {
    fn drop(self) {
        let Deltas {
            alloc: _,
            held: _,
            count: _,
        } = self;
    }
}

impl Model for Deltas {
    ghost use Rattle.std.specs.Prelude.{◌≡◌, length};
    ghost use Rattle.scene_deltas.specs.DeltaList.{DeltaList, held_room, held_segments};
    ghost use Rattle.scene_deltas.specs.Segments.{flat};

    ghost Value = { DeltaList };

    ghost view = { λ d. record { items = flat (held_segments d.held); room = held_room d.held } };

    ghost invariant = { λ d. d.count ≡ length (flat (held_segments d.held)) };
}

impl Deltas {
    /// No deltas. It takes no memory, and there is room for one.
    pub fn new(alloc: Global) -> Deltas
        ensures items { result.items ≡ [] }
        ensures room { result.room ≡ 1 }
    {
        Deltas {
            alloc,
            held: Held::Empty,
            count: 0,
        }
    }

    /// The deltas of a list, or an error where no memory was found.
    pub fn from_list(alloc: Global, list: Vec<Delta>) -> Result<Deltas, AllocError>
        ensures { IfOk result (λ deltas. deltas.items ≡ list.items) }
    {
        let mut deltas = Deltas::new(alloc);
        deltas.reserve(list.len())?;
        for delta in list {
            deltas.push_reserved(delta);
        }
        Ok(deltas)
    }

    /// Where the deltas have their memory from.
    pub fn alloc(&self) -> Global {
        self.alloc
    }

    /// How many deltas there are.
    pub fn len(&self) -> usize
        ensures { result ≡ length self.now.items }
    {
        self.count
    }

    /// Whether there are no deltas.
    pub fn is_empty(&self) -> bool
        ensures { IsTrue result ↔ (self.now.items ≡ []) }
    {
        self.count == 0
    }

    /// The deltas, to be gone through from the first on.
    pub fn forward(&self) -> Forward<'_>
        ensures { result ≡ self.now.items }
    {
        Forward::new(self.held.as_slice(), self.count)
    }

    /// The deltas, to be gone through from the last on.
    pub fn backward(&self) -> Backward<'_>
        ensures { result ≡ self.now.items }
    {
        Backward::new(self.held.as_slice(), self.count)
    }

    /// The segments that have the deltas.
    pub(crate) fn segments(&self) -> &[Segment]
        ensures { flat result.now ≡ self.now.items }
    {
        self.held.as_slice()
    }

    /// The segments that have the deltas, to be taken out from the last on.
    pub(crate) fn into_held(self) -> Held
        ensures { flat (held_segments result) ≡ self.items }
    {
        let Deltas {
            alloc: _,
            held,
            count: _,
        } = self;
        held
    }

    /// Makes room for so many more deltas. It fails only where no memory was found, and the deltas stay.
    #[inline(always)]
    pub fn reserve(&mut self, additional: usize) -> Result<(), AllocError>
        ensures items { self.new.items ≡ self.old.items }
        ensures room { OnOk result (additional ≤ self.new.room) }
        ensures few { OnOk result (length self.new.items + additional < 2 ^ 64) }
    {
        if self.count.checked_add(additional).is_none() {
            return Err(AllocError);
        }
        if additional <= self.held.room() {
            return Ok(());
        }
        let empty = Vec::with_capacity(self.alloc, FIRST_ROOM)?;
        let mut list = mem::replace(&mut self.held, Held::Empty).into_list(empty);
        let made = list.reserve(additional);
        self.held = Held::Many(list);
        made
    }

    /// Makes room for the deltas of a turn of a run, as `reserve` does for others.
    pub fn reserve_written(&mut self, written: &Written) -> Result<(), AllocError>
        ensures items { self.new.items ≡ self.old.items }
        ensures room { OnOk result (0 < self.new.room) }
        ensures few { OnOk result (length self.new.items + length (turn_deltas written.now) < 2 ^ 64) }
    {
        if self.count.checked_add(written.len()).is_none() {
            return Err(AllocError);
        }
        self.reserve(1)
    }

    /// Puts the deltas of a segment last, for which there is room.
    #[inline(always)]
    fn push_segment(&mut self, segment: Segment)
        requires room { 0 < self.old.room }
        requires few { length self.old.items + length (shown segment) < 2 ^ 64 }
        ensures items { self.new.items ≡ self.old.items ++ shown segment }
        ensures room { self.new.room + 1 ≡ self.old.room }
    {
        self.count += segment.len();
        self.held.push(segment);
    }

    /// Puts a delta last, for which there is room.
    #[inline(always)]
    pub fn push_reserved(&mut self, delta: Delta)
        requires room { 0 < self.old.room }
        requires few { length self.old.items + 1 < 2 ^ 64 }
        ensures items { self.new.items ≡ self.old.items ++ delta ∷ [] }
        ensures room { self.new.room + 1 ≡ self.old.room }
    {
        self.push_segment(Segment::One(delta));
    }

    /// Puts the deltas of a turn of a run last, for which there is room.
    pub fn push_written(&mut self, written: Written)
        requires room { 0 < self.old.room }
        requires few { length self.old.items + length (turn_deltas written) < 2 ^ 64 }
        ensures { self.new.items ≡ self.old.items ++ turn_deltas written }
    {
        self.push_segment(Segment::Written(written));
    }

    /// Puts a delta last. Where no memory was found it is dropped, and the others stay.
    #[inline(always)]
    pub fn push(&mut self, delta: Delta) -> Result<(), AllocError>
        ensures done { OnOk result (self.new.items ≡ self.old.items ++ delta ∷ []) }
        ensures full { OnErr result (self.new.items ≡ self.old.items) }
    {
        self.reserve(1)?;
        self.push_reserved(delta);
        Ok(())
    }

    /// Puts other deltas behind these. Where no memory was found all stay as they were.
    pub fn append(&mut self, more: &mut Deltas) -> Result<(), AllocError>
        ensures done { OnOk result (self.new.items ≡ self.old.items ++ more.old.items) }
        ensures full { OnErr result ((self.new.items ≡ self.old.items) × (more.new.items ≡ more.old.items)) }
    {
        if self.is_empty() {
            mem::swap(self, more);
            return Ok(());
        }
        if self.count.checked_add(more.count).is_none() {
            return Err(AllocError);
        }
        self.reserve(more.held.as_slice().len())?;
        self.count += more.count;
        self.held
            .push_all(mem::replace(&mut more.held, Held::Empty));
        more.count = 0;
        Ok(())
    }

    /// Gives back the memory that the deltas don't need.
    pub fn shrink_to_fit(&mut self)
        ensures { self.new.items ≡ self.old.items }
    {
        if let Held::Lone(_) = &self.held {
            return;
        }
        let held = mem::replace(&mut self.held, Held::Empty);
        self.held = shrunk(held);
    }

    /// Equal deltas, or an error where no memory was found. It copies each, but for those of runs, which are shared.
    pub fn try_clone(&self) -> Result<Deltas, AllocError>
        ensures { IfOk result (λ copy. copy.items ≡ self.now.items) }
    {
        let held = match &self.held {
            Held::Empty => Held::Empty,
            Held::Lone(segment) => Held::Lone(segment.clone()?),
            Held::Many(segments) => Held::Many(segments.clone()?),
        };
        Ok(Deltas {
            alloc: self.alloc,
            held,
            count: self.count,
        })
    }
}

/// As a list of deltas.
impl fmt::Debug for Deltas {
    fn fmt<W: fmt::Write>(&self, f: &mut fmt::Formatter<W>) -> fmt::Result {
        write!(f, "[")?;
        let mut later = false;
        let mut left = self.forward();
        while let Some(delta) = left.next() {
            if later {
                write!(f, ", ")?;
            }
            let delta = delta.get();
            write!(f, "{delta:?}")?;
            later = true;
        }
        write!(f, "]")
    }
}
