//! Looks at the state, readers inside together.
ghost use Rattle.std.specs.Prelude.{◌≡◌, IfSome};
ghost use Rattle.scene_lock.specs.Pass.{IsPassOf, Follows};
ghost use Rattle.scene_lock.specs.Shared.{AtState};
ghost use Rattle.scene_lock.specs.Steps.{TriesToRead, Reads};

use crate::kept::Kept;
use crate::lock::WordLock;
use crate::look::Look;
use crate::pass::Pass;
use crate::plays::{AsItWas, FREE, ToShare};
use crossbeam_utils::Backoff;
use std::alloc::Global;
use std::sync::{Arc, Wait};

impl<S: Kept + Drop> WordLock<S> {
    /// The look's answer at once, where the state is in its place and no `write` waits. Else `None`. Either way the pass has seen
    /// more of the history or the same. It takes no memory but what the look takes.
    pub fn try_read<L: Look<S>>(
        &self,
        alloc: Global,
        pass: Pass<S>,
        question: &L,
    ) -> (Pass<S>, Option<L::Answer>)
        requires { IsPassOf self.now pass }
        ensures pass { Follows S.legal S.session self.now pass result.0 }
        ensures answer { IfSome result.1 (λ a. AtState S.good S.opening S.entries self.now.terms.opening result.0.seen
            (λ s. L.answers question.now s a)) }
        ensures steps { TriesToRead pass.session pass.steps result.1 result.0.steps }
    {
        let (state, holder) = match self.take::<ToShare>(pass, FREE) {
            Ok(taken) => taken,
            Err(pass) => return (pass, None),
        };
        let share = Arc::try_clone(&state);
        let pass = self.put_back::<AsItWas>(holder, state);
        match share {
            Ok(share) => (pass, Some(question.look(alloc, &share))),
            Err(_) => (pass, None),
        }
    }

    /// The look's answer, once the state is in its place and no `write` waits. Looks of several threads run at the same time. It
    /// takes no memory but what the look takes.
    pub fn read<L: Look<S>, R: Wait>(
        &self,
        rt: &R,
        alloc: Global,
        pass: Pass<S>,
        question: &L,
    ) -> (Pass<S>, L::Answer)
        requires { IsPassOf self.now pass }
        ensures pass { Follows S.legal S.session self.now pass result.0 }
        ensures answer { AtState S.good S.opening S.entries self.now.terms.opening result.0.seen (λ s. L.answers question.now s result.1) }
        ensures steps { Reads pass.session pass.steps result.0.steps }
    {
        let backoff = Backoff::new();
        let mut pass = pass;
        for _ in rt.forever() {
            let (next, answer) = self.try_read(alloc, pass, question);
            pass = next;
            if let Some(answer) = answer {
                return (pass, answer);
            }
            backoff.snooze();
        }
        unreachable!()
    }
}
