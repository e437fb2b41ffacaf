//! Deltas that are gone through one after another.
ghost use Rattle.std.specs.Prelude.{◌≡◌, ◌++◌, ◌∷◌, [], drop, length, MatchOption};
ghost use Rattle.scene_deltas.specs.Segments.{flat, front, seen};

use crate::segment::{DeltaRef, Segment};
use std::marker::Model;

/// Deltas that are gone through from the first on. Contracts see those that are left.
#[derive(Drop)]
pub struct Forward<'a> {
    segments: &'a [Segment],
    /// How many deltas of the segments are gone.
    gone: usize,
    left: usize,
}

impl<'a> Model for Forward<'a> {
    ghost use Rattle.std.specs.Prelude.{◌≡◌, List, drop, length};
    ghost use Rattle.scene_deltas.specs.declared.delta.Delta.{Delta};
    ghost use Rattle.scene_deltas.specs.Segments.{flat};

    ghost Value = { List Delta };

    ghost view = { λ w. drop w.gone (flat w.segments.now) };

    ghost invariant = { λ w. w.left ≡ length (drop w.gone (flat w.segments.now)) };
}

/// The first delta of segments behind so many, the segments that have it and those behind it, and how many of their
/// deltas are gone with it.
fn first_behind<'a>(
    segments: &'a [Segment],
    gone: usize,
) -> Option<(DeltaRef<'a>, &'a [Segment], usize)>
    ensures { MatchOption result (drop gone (flat segments.now) ≡ []) (λ r. drop gone (flat segments.now) ≡ seen r.0 ∷ drop r.2 (flat r.1.now)) }
{
    let mut gone = gone;
    let mut left = segments;
    'on: while let Some((first, behind)) = left.split_first() {
        let count = first.len();
        if gone < count {
            return Some((first.delta_at(gone), left, gone + 1));
        }
        gone -= count;
        left = behind;
    }
    None
}

impl<'a> Forward<'a> {
    /// All deltas of segments, which have so many.
    pub(crate) fn new(segments: &'a [Segment], count: usize) -> Forward<'a>
        requires { count ≡ length (flat segments.now) }
        ensures { result ≡ flat segments.now }
    {
        Forward {
            segments,
            gone: 0,
            left: count,
        }
    }

    /// How many are left.
    pub fn len(&self) -> usize
        ensures { result ≡ length self.now }
    {
        self.left
    }

    /// The first that is left, if one is. It takes no memory.
    pub fn next(&mut self) -> Option<DeltaRef<'a>>
        ensures { MatchOption result ((self.old ≡ []) × (self.new ≡ [])) (λ d. self.old ≡ seen d ∷ self.new) }
    {
        let (delta, segments, gone) = first_behind(self.segments, self.gone)?;
        self.segments = segments;
        self.gone = gone;
        self.left -= 1;
        Some(delta)
    }
}

/// Deltas that are gone through from the last on. Contracts see those that are left.
#[derive(Drop)]
pub struct Backward<'a> {
    segments: &'a [Segment],
    /// How many deltas of the segments are gone.
    gone: usize,
    left: usize,
}

impl<'a> Model for Backward<'a> {
    ghost use Rattle.std.specs.Prelude.{◌≡◌, List, length};
    ghost use Rattle.scene_deltas.specs.declared.delta.Delta.{Delta};
    ghost use Rattle.scene_deltas.specs.Segments.{flat, front};

    ghost Value = { List Delta };

    ghost view = { λ w. front w.gone (flat w.segments.now) };

    ghost invariant = { λ w. w.left ≡ length (front w.gone (flat w.segments.now)) };
}

/// The last delta of segments before so many, the segments that have it and those before it, and how many of their
/// deltas are gone with it.
fn last_before<'a>(
    segments: &'a [Segment],
    gone: usize,
) -> Option<(DeltaRef<'a>, &'a [Segment], usize)>
    ensures { MatchOption result (front gone (flat segments.now) ≡ []) (λ r. front gone (flat segments.now) ≡ front r.2 (flat r.1.now) ++ seen r.0 ∷ []) }
{
    let mut gone = gone;
    let mut left = segments;
    'back: while let Some((last, before)) = left.split_last() {
        let count = last.len();
        if gone < count {
            return Some((last.delta_at(count - gone - 1), left, gone + 1));
        }
        gone -= count;
        left = before;
    }
    None
}

impl<'a> Backward<'a> {
    /// All deltas of segments, which have so many.
    pub(crate) fn new(segments: &'a [Segment], count: usize) -> Backward<'a>
        requires { count ≡ length (flat segments.now) }
        ensures { result ≡ flat segments.now }
    {
        Backward {
            segments,
            gone: 0,
            left: count,
        }
    }

    /// How many are left.
    pub fn len(&self) -> usize
        ensures { result ≡ length self.now }
    {
        self.left
    }

    /// The last that is left, if one is. It takes no memory.
    pub fn next(&mut self) -> Option<DeltaRef<'a>>
        ensures { MatchOption result ((self.old ≡ []) × (self.new ≡ [])) (λ d. self.old ≡ self.new ++ seen d ∷ []) }
    {
        let (delta, segments, gone) = last_before(self.segments, self.gone)?;
        self.segments = segments;
        self.gone = gone;
        self.left -= 1;
        Some(delta)
    }
}
