//! The steps of a lock: what becomes of the word and the slot. No other file speaks of them, but for the making and the closing
//! of a lock.
ghost use Rattle.std.specs.Prelude.{◌≡◌, ◌+◌, ◌-◌, ◌≤◌, ◌++◌, ◌∷◌, ℕ, suc, true, [], IfOk, IfErr, MatchResult, None, Some, vec_capacity, vec_len};
ghost use Rattle.std.specs.Arc.{arc_value};
ghost use Rattle.scene_lock.specs.History.{IsLegal};
ghost use Rattle.scene_lock.specs.Members.{member, seen_of, made_by, new_seat, opening_seat};
ghost use Rattle.scene_lock.specs.Pass.{IsPassOf, Follows, first_pass, first_passes};
ghost use Rattle.scene_lock.specs.Shared.{HasTaken, IsStateOf, Carries};
ghost use Rattle.scene_lock.specs.Steps.{IsFree, Turns, Moves, step_of};

use crate::holder::Holder;
use crate::kept::Kept;
use crate::knowledge::Knowledge;
use crate::lock::WordLock;
use crate::pass::Pass;
use crate::plays::{FREE, OUT, Part, Put, PutKind, Take, TakeKind, WANTED};
use atomic_table::Seat;
use std::sync::Arc;

impl<S: Kept> WordLock<S> {
    /// The word at which a change may take the state out, should it still be this one then.
    pub(crate) fn free_word(&self) -> u64
        ensures { IsFree result }
    {
        let word = self.table.shared.peek(0);
        if word == WANTED { WANTED } else { FREE }
    }

    // Takes the state out of the slot, once the word says that it is out with this seat.
    fn lift(
        &self,
        seat: Seat<Option<Arc<S>>, Knowledge<S::Entry, S::Opening>>,
        number: u32,
    ) -> (Arc<S>, Holder<S>)
        requires lock { seat.table_id ≡ self.now.id }
        requires out { Carries seat.me.1 }
        requires holding { seat.me.0.holding ≡ true }
        requires alone { seat.me.0.members ≡ member number (seen_of seat.me.0.members) (made_by seat.me.0.members) ∷ [] }
        ensures state { seat.me.1 ≡ (0, Some result.0) ∷ [] }
        ensures holder { result.1 ≡ record {
          id = self.now.id;
          terms = seat.me.0.terms;
          session = number;
          seen = seen_of seat.me.0.members;
          steps = made_by seat.me.0.members;
        } }
    {
        let mut seat = seat;
        let state = self.table.shared.exchange(&mut seat, 0, None).unwrap();
        (state, Holder { seat, number })
    }

    /// Takes the state out by a step of this kind, at this word. Else the pass has looked at the history.
    pub(crate) fn take<T: TakeKind>(
        &self,
        pass: Pass<S>,
        from: u64,
    ) -> Result<(Arc<S>, Holder<S>), Pass<S>>
        requires lock { IsPassOf self.now pass }
        requires turns { Turns T.kind from 1 }
        ensures taken { IfOk result (λ t. HasTaken S.good S.opening S.entries S.legal S.session self.now pass t.0 t.1) }
        ensures busy { IfErr result (λ p. Follows S.legal S.session self.now pass p) }
        ensures steps { MatchResult result
            (λ t. t.1.steps ≡ pass.steps ++ step_of pass.session T.kind from 1 ∷ []) (λ p. p.steps ≡ pass.steps) }
    {
        let Pass { mut seat, number } = pass;
        let shared = &self.table.shared;
        let found = shared.compare_exchange::<Take<S, T>>(&mut seat, 0, from, OUT);
        if found != from {
            return Err(Pass { seat, number });
        }
        Ok(self.lift(seat, number))
    }

    // Puts the state into the slot, while the word still says that it is out.
    fn fill(
        &self,
        holder: Holder<S>,
        state: Arc<S>,
    ) -> (Seat<Option<Arc<S>>, Knowledge<S::Entry, S::Opening>>, u32)
        requires { holder.id ≡ self.now.id }
        ensures lock { result.0.table_id ≡ self.now.id }
        ensures carries { result.0.me.1 ≡ (0, Some state) ∷ [] }
        ensures holds { (result.0.me.0.holding ≡ true) × (result.0.me.0.terms ≡ holder.terms) }
        ensures pass { (result.1 ≡ holder.session) × (result.0.me.0.members ≡ member holder.session holder.seen holder.steps ∷ []) }
    {
        let Holder { mut seat, number } = holder;
        let old = self.table.shared.exchange(&mut seat, 0, Some(state));
        let None = old else { unreachable!() };
        (seat, number)
    }

    /// Puts the state back by a step of this kind.
    pub(crate) fn put_back<P: PutKind>(&self, holder: Holder<S>, state: Arc<S>) -> Pass<S>
        requires lock { IsPassOf self.now holder }
        requires good { IsStateOf S.good S.opening self.now.terms.opening (arc_value state) }
        requires moved { Moves S.session P.kind holder.session holder.seen (S.entries (arc_value state)) }
        ensures pass { result ≡ record holder {
          seen = S.entries (arc_value state);
          steps = holder.steps ++ step_of holder.session P.kind 1 P.WORD ∷ [];
        } }
        ensures legal { IsLegal S.legal S.session self.now.terms (S.entries (arc_value state)) }
    {
        let (mut seat, number) = self.fill(holder, state);
        self.table.shared.swap::<Put<S, P>>(&mut seat, 0, P::WORD);
        Pass { seat, number }
    }

    // Cuts the first pass off a seat that stands for the passes from `number` on.
    fn part(
        &self,
        seat: Seat<Option<Arc<S>>, Knowledge<S::Entry, S::Opening>>,
        number: u32,
    ) -> (
        Pass<S>,
        Seat<Option<Arc<S>>, Knowledge<S::Entry, S::Opening>>,
    )
        requires lock { seat.table_id ≡ self.now.id }
        requires some { (n : ℕ) × (seat.me ≡ (new_seat self.now.terms (suc n) number, [])) }
        ensures pass { result.0 ≡ first_pass self.now number }
        ensures lock { result.1.table_id ≡ self.now.id }
        ensures others { (n : ℕ) → seat.me ≡ (new_seat self.now.terms (suc n) number, [])
            → result.1.me ≡ (new_seat self.now.terms n (number + 1), []) }
    {
        let mut seat = seat;
        let others = self.table.shared.split_seat::<Part>(&mut seat);
        (Pass { seat, number }, others)
    }

    /// A pass for each member of a new lock's seat, 0 first.
    pub(crate) fn deal(
        &self,
        seat: Seat<Option<Arc<S>>, Knowledge<S::Entry, S::Opening>>,
        passes: u32,
        mut dealt: Vec<Pass<S>>,
    ) -> Vec<Pass<S>>
        requires lock { seat.table_id ≡ self.now.id }
        requires all { (seat.me ≡ (opening_seat self.now.terms, [])) × (passes ≡ self.now.terms.passes) }
        requires room { (dealt.items ≡ []) × (passes ≤ vec_capacity dealt) }
        ensures passes { result.items ≡ first_passes self.now passes }
        ensures count { vec_len result ≡ passes }
    {
        let mut rest = seat;
        for number in 0..passes {
            let (pass, others) = self.part(rest, number);
            dealt.push_reserved(pass);
            rest = others;
        }
        dealt
    }
}
