//! What a seat at the table of a lock knows. It exists in proofs alone.
use std::collections::LinkedList;
use std::snapshot::Snapshot;

/// What is fixed when a lock is made: the opening of its state, and the number of its passes. No value of it is made.
pub struct Terms<O> {
    pub opening: O,
    pub passes: u32,
}

/// The kinds of step by which the state leaves the slot of a lock and comes back (docs/LOCK.md, "The steps"). No value of it is
/// made.
pub enum Kind {
    /// The state is taken out to be changed.
    TakeToChange,
    /// The state is taken out to be shared with a look.
    TakeToShare,
    /// The state is put back with one entry more.
    PutChanged,
    /// The state is put back as it was.
    PutAsItWas,
    /// The state is put back as it was, and a `write` wants it.
    PutWanted,
}

/// One such step of a session, with the word before it and after it. No value of it is made.
pub struct Step {
    pub session: u32,
    pub kind: Kind,
    pub before: u64,
    pub after: u64,
}

/// A pass that a seat stands for: its session, the history that it has seen, and the steps that were made through it. No value
/// of it is made.
pub struct Member<E> {
    pub session: u32,
    pub seen: LinkedList<E>,
    pub steps: LinkedList<Step>,
}

/// The passes that a seat stands for, and whether the seat has the state out. No value of it is made.
pub struct Knowledge<E, O> {
    pub terms: Option<Terms<O>>,
    pub members: LinkedList<Member<E>>,
    pub holding: bool,
}

/// What the table of a lock is told when it is made: the state as it begins, and the number of passes.
#[derive(Drop)]
pub struct Founding<S> {
    pub state: Snapshot<S>,
    pub passes: u32,
}
