//! Passes that come to have seen one history: two of them, or all that a caller has.
ghost use Rattle.std.specs.Prelude.{◌≡◌, List, [], false, Some, All, vec_len, vec_capacity};
ghost use Rattle.scene_lock.specs.Pass.{IsPassOf, Follows, HaveMet, all_seen};
ghost use Rattle.scene_lock.specs.History.{Continues};
ghost use Rattle.scene_lock.specs.Members.{seeing};
ghost use Rattle.scene_lock.specs.Rule.{Tells};

use crate::kept::Kept;
use crate::knowledge::Knowledge;
use crate::lock::WordLock;
use crate::pass::Pass;
use crate::plays::{Glance, Part, Together};
use atomic_table::Seat;
use std::sync::Arc;

impl<S: Kept> WordLock<S> {
    /// Both passes have now seen one history: the whole one so far (docs/LOCK.md, "Sessions that meet"). It has of each session
    /// just the entries that its pass had seen of it. It waits for nobody, takes no memory and has no error.
    pub fn meet(&self, one: Pass<S>, other: Pass<S>) -> (Pass<S>, Pass<S>)
        requires { IsPassOf self.now one × IsPassOf self.now other }
        ensures one { Follows S.legal S.session self.now one result.0 }
        ensures other { Follows S.legal S.session self.now other result.1 }
        ensures same { result.1.seen ≡ result.0.seen }
        ensures steps { (result.0.steps ≡ one.steps) × (result.1.steps ≡ other.steps) }
    {
        let Pass { mut seat, number } = one;
        let Pass {
            seat: second,
            number: second_number,
        } = other;
        let shared = &self.table.shared;
        shared.join_seat::<Together>(&mut seat, second);
        shared.load::<Glance<S>>(&mut seat, 0);
        let second = shared.split_seat::<Part>(&mut seat);
        (
            Pass { seat, number },
            Pass {
                seat: second,
                number: second_number,
            },
        )
    }

    // Joins passes to a seat, looks at the history, and parts them from it again.
    fn look_with(
        &self,
        seat: Seat<Option<Arc<S>>, Knowledge<S::Entry, S::Opening>>,
        mut passes: Vec<Pass<S>>,
    ) -> (
        Seat<Option<Arc<S>>, Knowledge<S::Entry, S::Opening>>,
        Vec<Pass<S>>,
    )
        requires lock { seat.table_id ≡ self.now.id }
        requires free { (seat.me.1 ≡ []) × (seat.me.0.holding ≡ false) × (seat.me.0.terms ≡ Some self.now.terms) }
        requires passes { All (IsPassOf self.now) passes.items }
        ensures lock { result.0.table_id ≡ self.now.id }
        ensures seen { (whole : List S.Entry) × (result.0.me ≡ (seeing whole seat.me.0, [])) × Tells S.legal S.session seat.me.0 whole
            × (result.1.items ≡ all_seen whole passes.items) × All (λ p. Continues S.session p.session p.seen whole) passes.items }
        ensures room { (vec_len result.1 ≡ vec_len passes) × (vec_capacity result.1 ≡ vec_capacity passes) }
    {
        let shared = &self.table.shared;
        let Some(pass) = passes.pop() else {
            let mut whole = seat;
            shared.load::<Glance<S>>(&mut whole, 0);
            return (whole, passes);
        };
        let Pass {
            seat: mut mine,
            number,
        } = pass;
        shared.join_seat::<Together>(&mut mine, seat);
        let (mut both, mut met) = self.look_with(mine, passes);
        let others = shared.split_seat::<Part>(&mut both);
        met.push_reserved(Pass { seat: both, number });
        (others, met)
    }

    /// All these passes have now seen one history: the whole one so far (docs/LOCK.md, "Sessions that meet"). It has of each of
    /// their sessions just the entries that its pass had seen of it. So a caller with the passes of all sessions knows that nobody
    /// else came between. The list comes back with the same passes in their order, and with its room.
    ///
    /// It waits for nobody, takes no memory and has no error.
    pub fn meet_all(&self, passes: Vec<Pass<S>>) -> Vec<Pass<S>>
        requires { All (IsPassOf self.now) passes.items }
        ensures met { HaveMet S.legal S.session self.now passes.items result.items }
        ensures each { All (IsPassOf self.now) result.items }
        ensures room { (vec_len result ≡ vec_len passes) × (vec_capacity result ≡ vec_capacity passes) }
    {
        let mut passes = passes;
        let Some(pass) = passes.pop() else {
            return passes;
        };
        let Pass { seat, number } = pass;
        let (seat, mut met) = self.look_with(seat, passes);
        met.push_reserved(Pass { seat, number });
        met
    }
}
