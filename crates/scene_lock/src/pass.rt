//! A pass: the right of one session to use a lock.
ghost use Rattle.std.specs.Prelude.{◌≡◌};

use crate::kept::Kept;
use crate::knowledge::Knowledge;
use atomic_table::Seat;
use std::marker::Model;
use std::sync::Arc;

/// The right to use a `WordLock` as one session. A call takes the pass and gives it back, so the calls of one session come one
/// after another.
///
/// Contracts see which lock it is of, its session, the history that it has seen, and the steps on the lock's word that were made
/// through it (docs/LOCK.md, "The steps").
#[derive(Drop)]
pub struct Pass<S: Kept> {
    pub(crate) seat: Seat<Option<Arc<S>>, Knowledge<S::Entry, S::Opening>>,
    pub(crate) number: u32,
}

impl<S: Kept> Model for Pass<S> {
    ghost use Rattle.std.specs.Prelude.{◌≡◌, ◌∷◌, [], false};
    ghost use Rattle.scene_lock.specs.Pass.{PassView};
    ghost use Rattle.scene_lock.specs.Members.{member, seen_of, made_by};

    ghost Value = { PassView S.Entry S.Opening };

    ghost view = { λ p. record { id = p.seat.table_id; terms = p.seat.me.0.terms; session = p.number; seen = seen_of p.seat.me.0.members; steps = made_by p.seat.me.0.members } };

    ghost invariant = { λ p. (p.seat.me.0.members ≡ member p.number (seen_of p.seat.me.0.members) (made_by p.seat.me.0.members) ∷ []) × (p.seat.me.1 ≡ []) × (p.seat.me.0.holding ≡ false) };
}

impl<S: Kept> Pass<S> {
    /// Its number, from 0: the session of each entry that is entered through it. It takes no memory.
    pub fn session(&self) -> u32
        ensures { result ≡ self.now.session }
    {
        self.number
    }
}
