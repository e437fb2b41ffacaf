//! The state while a writer has it to itself.
ghost use Rattle.std.specs.Prelude.{◌≡◌};

use crate::kept::Kept;
use crate::knowledge::Knowledge;
use atomic_table::Seat;
use std::marker::Model;
use std::sync::Arc;

/// A pass whose thread has the state out. It has no `Drop`, so that each one ends in a step that puts the state back.
///
/// Contracts see the pass.
pub(crate) struct Holder<S: Kept> {
    pub(crate) seat: Seat<Option<Arc<S>>, Knowledge<S::Entry, S::Opening>>,
    pub(crate) number: u32,
}

impl<S: Kept> Model for Holder<S> {
    ghost use Rattle.std.specs.Prelude.{◌≡◌, ◌∷◌, [], true, None};
    ghost use Rattle.scene_lock.specs.Pass.{PassView};
    ghost use Rattle.scene_lock.specs.Members.{member, seen_of, made_by};

    ghost Value = { PassView S.Entry S.Opening };

    ghost view = { λ h. record { id = h.seat.table_id; terms = h.seat.me.0.terms; session = h.number; seen = seen_of h.seat.me.0.members; steps = made_by h.seat.me.0.members } };

    ghost invariant = { λ h. (h.seat.me.0.members ≡ member h.number (seen_of h.seat.me.0.members) (made_by h.seat.me.0.members) ∷ []) × (h.seat.me.1 ≡ (0, None) ∷ []) × (h.seat.me.0.holding ≡ true) };
}

impl<S: Kept> Holder<S> {
    /// The number of the pass.
    pub(crate) fn session(&self) -> u32
        ensures { result ≡ self.now.session }
    {
        self.number
    }
}
