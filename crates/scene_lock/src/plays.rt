//! The kinds of step on the word of a lock: what each does to the state is in `specs/Rule.antt`, and by which words in
//! `specs/Steps.antt`.
//!
//! Beside these a lock is made with one seat for all passes, and closed with the seat of one.
ghost use Rattle.std.specs.Prelude.{ℕ, refl};
ghost use Rattle.scene_lock.specs.declared.knowledge.Kind.{Kind};
ghost use Rattle.scene_lock.specs.declared.knowledge.Kind.TheVariants.{TakeToChange, TakeToShare, PutChanged, PutAsItWas, PutWanted};
ghost use Rattle.scene_lock.specs.Members.{joined_seat, spent_seat, first_seat, others_seat};
ghost use Rattle.scene_lock.specs.Rule.{taken, put, looked};
ghost use Rattle.scene_lock.specs.Shared.{shared_good, shared_entries};
ghost use Rattle.scene_lock.specs.Steps.{Turns};

use crate::kept::Kept;
use crate::knowledge::Knowledge;
use atomic_table::{Join, Play, Split};
use std::marker::PhantomData;
use std::sync::Arc;

/// The state is at home, and nobody asks for it.
pub(crate) const FREE: u64 = 0;

/// The state is out with a thread.
pub(crate) const OUT: u64 = 1;

/// The state is at home, and a `write` wants it: no new share is given out.
pub(crate) const WANTED: u64 = 2;

/// What the state is taken out for: by which kind of step.
pub(crate) trait TakeKind {
    ghost kind: { Kind };
}

/// To be changed, at word 0 or at word 2.
pub(crate) struct ToChange;

impl TakeKind for ToChange {
    ghost kind = { TakeToChange };
}

/// To be shared, at word 0.
pub(crate) struct ToShare;

impl TakeKind for ToShare {
    ghost kind = { TakeToShare };
}

/// The state is taken out.
pub(crate) struct Take<S, T>(PhantomData<(S, T)>);

impl<S: Kept, T: TakeKind> Play<Option<Arc<S>>, Knowledge<S::Entry, S::Opening>> for Take<S, T> {
    ghost then = { taken (shared_good S.good S.opening) (shared_entries S.entries) S.legal S.session T.kind };
}

/// How the state is put back: by which kind of step, and which word that leaves.
pub(crate) trait PutKind {
    const WORD: u64;

    ghost WORD: { ℕ };

    ghost kind: { Kind };

    ghost turns: { Turns kind 1 WORD };
}

/// With one entry more, and free.
pub(crate) struct Changed;

impl PutKind for Changed {
    const WORD: u64 = FREE;

    ghost WORD = { 0 };

    ghost kind = { PutChanged };

    ghost turns = { (refl, refl) };
}

/// As it was, and free.
pub(crate) struct AsItWas;

impl PutKind for AsItWas {
    const WORD: u64 = FREE;

    ghost WORD = { 0 };

    ghost kind = { PutAsItWas };

    ghost turns = { (refl, refl) };
}

/// As it was, and wanted: no new share is given out until it was changed.
pub(crate) struct Wanted;

impl PutKind for Wanted {
    const WORD: u64 = WANTED;

    ghost WORD = { 2 };

    ghost kind = { PutWanted };

    ghost turns = { (refl, refl) };
}

/// The state is put back.
pub(crate) struct Put<S, P>(PhantomData<(S, P)>);

impl<S: Kept, P: PutKind> Play<Option<Arc<S>>, Knowledge<S::Entry, S::Opening>> for Put<S, P> {
    ghost then = { put (shared_entries S.entries) S.legal S.session P.kind };
}

/// The whole history is looked at, and the state stays where it is.
pub(crate) struct Glance<S>(PhantomData<S>);

impl<S: Kept> Play<Option<Arc<S>>, Knowledge<S::Entry, S::Opening>> for Glance<S> {
    ghost then = { looked S.legal S.session };
}

/// The first pass of a seat gets a seat of its own.
pub(crate) struct Part;

impl<E, O> Split<Knowledge<E, O>> for Part {
    ghost left = { first_seat };

    ghost right = { others_seat };
}

/// Two passes get one seat.
pub(crate) struct Together;

impl<E, O> Join<Knowledge<E, O>> for Together {
    ghost both = { joined_seat };

    ghost spent = { spent_seat };
}
