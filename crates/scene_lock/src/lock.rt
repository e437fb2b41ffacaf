//! The lock: made with its passes, and taken apart.
ghost use Rattle.std.specs.Prelude.{◌≡◌, ◌<◌, ◌≤◌, ◌⊎◌, [], IfOk, IfSome, All, vec_len};
ghost use Rattle.scene_lock.specs.History.{Continues, IsLegal};
ghost use Rattle.scene_lock.specs.Pass.{IsPassOf, first_passes};
ghost use Rattle.scene_lock.specs.Shared.{HasEnded};
ghost use Rattle.scene_lock.specs.Steps.{IsFree};

use crate::kept::Kept;
use crate::knowledge::{Founding, Knowledge};
use crate::pass::Pass;
use crate::plays::OUT;
use atomic_table::{Refused, Seat, Table, TableRule};
use std::alloc::{AllocError, Global};
use std::marker::{Model, PhantomData};
use std::snapshot::Snapshot;
use std::sync::Arc;

pub(crate) struct Law<S>(PhantomData<S>);

impl<S: Kept> TableRule<Option<Arc<S>>, Knowledge<S::Entry, S::Opening>, Founding<S>> for Law<S> {
    ghost use Rattle.scene_lock.specs.Members.{opening_seat};
    ghost use Rattle.scene_lock.specs.Rule.{IsKept};
    ghost use Rattle.scene_lock.specs.Shared.{shared_good, shared_entries};

    ghost holds = { λ f. IsKept (shared_good S.good S.opening) (shared_entries S.entries) S.legal S.session (record { opening = S.opening f.state.value; passes = f.passes }) };

    ghost first = { λ f. opening_seat (record { opening = S.opening f.state.value; passes = f.passes }) };
}

/// A lock over one state. Threads share it by reference; `new` hands out all the passes that it will ever have.
///
/// Contracts see which lock it is, the opening of its state, and the number of its passes.
#[derive(Drop)]
pub struct WordLock<S: Kept> {
    pub(crate) table: Table<
        Option<Arc<S>>,
        Knowledge<S::Entry, S::Opening>,
        Founding<S>,
        Law<S>,
        Global,
    >,
}

impl<S: Kept> Model for WordLock<S> {
    ghost use Rattle.std.specs.Prelude.{◌≡◌};
    ghost use Rattle.scene_lock.specs.Pass.{LockView};

    ghost Value = { LockView S.Opening };

    ghost view = { λ l. record { id = l.table.shared.table_id; terms = record { opening = S.opening l.table.shared.key.state.value; passes = l.table.shared.key.passes } } };

    ghost invariant = { λ l. (l.table.shared.table_id.words ≡ 1) × (l.table.shared.table_id.slots ≡ 1) };
}

impl<S: Kept + Drop> WordLock<S> {
    /// A lock over a good state whose history is empty, and its passes, 0 first. It has 1 to 64 passes.
    ///
    /// `AllocError` where no memory was found: the state is dropped then.
    pub fn new(
        alloc: Global,
        state: S,
        passes: u32,
    ) -> Result<(WordLock<S>, Vec<Pass<S>>), AllocError>
        requires count { (0 < passes) × (passes ≤ 64) }
        requires state { S.good state × (S.entries state ≡ []) }
        ensures lock { IfOk result (λ l. l.0.terms ≡ record { opening = S.opening state; passes = passes }) }
        ensures passes { IfOk result (λ l. l.1.items ≡ first_passes l.0 passes) }
        ensures count { IfOk result (λ l. vec_len l.1 ≡ passes) }
        ensures each { IfOk result (λ l. All (IsPassOf l.0) l.1.items) }
    {
        let founding = Founding {
            state: Snapshot::of(&state),
            passes,
        };
        let dealt = Vec::with_capacity(alloc, passes as usize)?;
        let mut slots = Vec::with_capacity(alloc, 1)?;
        let share = Arc::new(alloc, state)?;
        slots.push_reserved(Some(share));
        match Table::new(alloc, &[0], slots, &founding) {
            Ok((table, seat)) => {
                let lock = WordLock { table };
                let dealt = lock.deal(seat, passes, dealt);
                Ok((lock, dealt))
            }
            Err(Refused { slots: _ }) => Err(AllocError),
        }
    }

    // Takes the lock apart: the word, and what is in the slot.
    fn take_apart(self, pass: Pass<S>) -> Ending<S>
        requires { IsPassOf self pass }
        ensures word { IsFree result.word ⊎ (result.word ≡ 1) }
        ensures home { IsFree result.word → HasEnded S.good S.opening S.entries S.legal S.session self pass result.slot }
    {
        let WordLock { table } = self;
        let Pass { seat, number: _ } = pass;
        let mut closed = table.close_with(seat);
        let word = closed.word(0);
        let slot = closed.take(0);
        closed.free();
        Ending { word, slot }
    }

    /// The state, once no thread is inside. The lock is gone, and what is left of its passes is of no use.
    ///
    /// `None` where the state isn't in its place or is still shared, as where a thread was cut off within a call. It takes no
    /// memory.
    pub fn finish(self, pass: Pass<S>) -> Option<S>
        requires { IsPassOf self pass }
        ensures good { IfSome result (λ s. S.good s × (S.opening s ≡ self.terms.opening)) }
        ensures history { IfSome result (λ s. Continues S.session pass.session pass.seen (S.entries s)
            × IsLegal S.legal S.session self.terms (S.entries s)) }
    {
        let ending = self.take_apart(pass);
        let share = ending.into_share()?;
        Arc::into_inner(share)
    }
}

/// What came out of a lock that was taken apart: the word, and what was in the slot.
#[derive(Drop)]
struct Ending<S> {
    word: u64,
    slot: Option<Arc<S>>,
}

impl<S: Drop> Ending<S> {
    // The state, with whoever else has a share of it, at each word but 1.
    fn into_share(self) -> Option<Arc<S>>
        ensures home { IsFree self.word → result ≡ self.slot }
        ensures out { self.word ≡ 1 → result ≡ None }
    {
        if self.word == OUT { None } else { self.slot }
    }
}
