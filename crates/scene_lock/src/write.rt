//! Changes of the state, one writer at a time.
ghost use Rattle.std.specs.Prelude.{◌≡◌, ◌++◌, ◌∷◌, [], IfOk, IfErr};
ghost use Rattle.std.specs.Arc.{arc_value};
ghost use Rattle.scene_lock.specs.Pass.{IsPassOf, IsStill, Follows, Enters};
ghost use Rattle.scene_lock.specs.History.{HasOneMore, IsLegal};
ghost use Rattle.scene_lock.specs.Shared.{FollowsTo, IsStateOf};
ghost use Rattle.scene_lock.specs.Steps.{Moves, TriesToWrite, Attempts, Writes, step_of, put_after};

use crate::change::Change;
use crate::holder::Holder;
use crate::kept::Kept;
use crate::lock::WordLock;
use crate::pass::Pass;
use crate::plays::{AsItWas, Changed, FREE, ToChange, Wanted};
use crossbeam_utils::Backoff;
use std::alloc::Global;
use std::sync::{Arc, Wait};
use std::thread::Threads;

// Does the job where no other share is out. Else the job comes back.
fn change_alone<S: Kept, C: Change<S>>(
    alloc: Global,
    share: &mut Arc<S>,
    job: C,
    session: u32,
) -> Result<Result<C::Done, C::Stopped>, C>
    requires { S.good (arc_value share.old) }
    ensures good { S.good (arc_value share.new) × (S.opening (arc_value share.new) ≡ S.opening (arc_value share.old)) }
    ensures done { IfOk result (λ r. IfOk r (λ d. HasOneMore S.session session (S.entries (arc_value share.old))
        (λ e. C.enters job session d e) (S.entries (arc_value share.new)))) }
    ensures stopped { IfOk result (λ r. IfErr r (λ x. (S.entries (arc_value share.new) ≡ S.entries (arc_value share.old))
        × C.stops job (arc_value share.old) x)) }
    ensures back { IfErr result (λ j. (j ≡ job) × (arc_value share.new ≡ arc_value share.old)) }
{
    match Arc::get_mut(share) {
        Some(state) => Ok(job.change(alloc, state, session)),
        None => Err(job),
    }
}

// The same for a job that may start threads and wait.
fn change_waiting<S: Kept, C: Change<S>, R: Threads + Wait + Sync>(
    rt: &R,
    alloc: Global,
    share: &mut Arc<S>,
    job: C,
    session: u32,
) -> Result<Result<C::Done, C::Stopped>, C>
    requires { S.good (arc_value share.old) }
    ensures good { S.good (arc_value share.new) × (S.opening (arc_value share.new) ≡ S.opening (arc_value share.old)) }
    ensures done { IfOk result (λ r. IfOk r (λ d. HasOneMore S.session session (S.entries (arc_value share.old))
        (λ e. C.enters job session d e) (S.entries (arc_value share.new)))) }
    ensures stopped { IfOk result (λ r. IfErr r (λ x. (S.entries (arc_value share.new) ≡ S.entries (arc_value share.old))
        × C.stops job (arc_value share.old) x)) }
    ensures back { IfErr result (λ j. (j ≡ job) × (arc_value share.new ≡ arc_value share.old)) }
{
    match Arc::get_mut(share) {
        Some(state) => Ok(job.change_with(rt, alloc, state, session)),
        None => Err(job),
    }
}

impl<S: Kept> WordLock<S> {
    // Puts the state back after a job: changed where it was done, and as it was where it was stopped.
    fn put_after<D, Y>(&self, holder: Holder<S>, state: Arc<S>, reply: &Result<D, Y>) -> Pass<S>
        requires lock { IsPassOf self.now holder }
        requires good { IsStateOf S.good S.opening self.now.terms.opening (arc_value state) }
        requires moved { Moves S.session (put_after reply.now) holder.session holder.seen (S.entries (arc_value state)) }
        ensures pass { result ≡ record holder {
          seen = S.entries (arc_value state);
          steps = holder.steps ++ step_of holder.session (put_after reply.now) 1 0 ∷ [];
        } }
        ensures legal { IsLegal S.legal S.session self.now.terms (S.entries (arc_value state)) }
    {
        match reply {
            Ok(_) => self.put_back::<Changed>(holder, state),
            Err(_) => self.put_back::<AsItWas>(holder, state),
        }
    }

    /// Does the job by `change` at once, where no other thread is inside, no look goes on and no `write` waits. Else the job comes
    /// back (`Err`), and the pass has seen more of the history or the same. Either way the word of the lock is left as it was, so
    /// nobody is kept out by it (docs/LOCK.md, "The steps").
    ///
    /// `Ok(Ok(done))`: the history has one entry more, of this pass's session. `Ok(Err(stopped))`: it has none more. It takes no
    /// memory but what the job takes.
    pub fn try_write<C: Change<S>>(
        &self,
        alloc: Global,
        pass: Pass<S>,
        job: C,
    ) -> (Pass<S>, Result<Result<C::Done, C::Stopped>, C>)
        requires { IsPassOf self.now pass }
        ensures pass { IsStill self.now pass result.0 }
        ensures done { IfOk result.1 (λ r. IfOk r (λ d. Enters S.legal S.session self.now pass (λ e. C.enters job pass.session d e) result.0)) }
        ensures stopped { IfOk result.1 (λ r. IfErr r (λ x. FollowsTo S.good S.opening S.entries S.legal S.session self.now pass
            (λ s. C.stops job s x) result.0)) }
        ensures busy { IfErr result.1 (λ j. (j ≡ job) × Follows S.legal S.session self.now pass result.0) }
        ensures steps { TriesToWrite pass.session pass.steps result.1 result.0.steps }
    {
        let (mut share, holder) = match self.take::<ToChange>(pass, FREE) {
            Ok(taken) => taken,
            Err(pass) => return (pass, Err(job)),
        };
        match change_alone(alloc, &mut share, job, holder.session()) {
            Ok(reply) => (self.put_after(holder, share, &reply), Ok(reply)),
            Err(job) => (self.put_back::<AsItWas>(holder, share), Err(job)),
        }
    }

    // Does the job if it can. If a share is out, the state is wanted from then on, and the job comes back.
    fn attempt<C: Change<S>, R: Threads + Wait + Sync>(
        &self,
        rt: &R,
        alloc: Global,
        pass: Pass<S>,
        job: C,
    ) -> (Pass<S>, Result<Result<C::Done, C::Stopped>, C>)
        requires { IsPassOf self.now pass }
        ensures pass { IsStill self.now pass result.0 }
        ensures done { IfOk result.1 (λ r. IfOk r (λ d. Enters S.legal S.session self.now pass (λ e. C.enters job pass.session d e) result.0)) }
        ensures stopped { IfOk result.1 (λ r. IfErr r (λ x. FollowsTo S.good S.opening S.entries S.legal S.session self.now pass
            (λ s. C.stops job s x) result.0)) }
        ensures busy { IfErr result.1 (λ j. (j ≡ job) × Follows S.legal S.session self.now pass result.0) }
        ensures steps { Attempts pass.session pass.steps result.1 result.0.steps }
    {
        let from = self.free_word();
        let (mut share, holder) = match self.take::<ToChange>(pass, from) {
            Ok(taken) => taken,
            Err(pass) => return (pass, Err(job)),
        };
        match change_waiting(rt, alloc, &mut share, job, holder.session()) {
            Ok(reply) => (self.put_after(holder, share, &reply), Ok(reply)),
            Err(job) => (self.put_back::<Wanted>(holder, share), Err(job)),
        }
    }

    /// Does the job by `change_with`, once no other thread is inside and no look goes on. New looks wait from the first time on
    /// that a share keeps it out: the state is left wanted then (docs/LOCK.md, "The steps").
    ///
    /// `Ok(done)`: the history has one entry more, of this pass's session. `Err(stopped)`: it has none more. It takes no memory
    /// but what the job takes.
    pub fn write<C: Change<S>, R: Threads + Wait + Sync>(
        &self,
        rt: &R,
        alloc: Global,
        pass: Pass<S>,
        job: C,
    ) -> (Pass<S>, Result<C::Done, C::Stopped>)
        requires { IsPassOf self.now pass }
        ensures pass { IsStill self.now pass result.0 }
        ensures done { IfOk result.1 (λ d. Enters S.legal S.session self.now pass (λ e. C.enters job pass.session d e) result.0) }
        ensures stopped { IfErr result.1 (λ x. FollowsTo S.good S.opening S.entries S.legal S.session self.now pass (λ s. C.stops job s x) result.0) }
        ensures steps { Writes pass.session pass.steps result.1 result.0.steps }
    {
        let backoff = Backoff::new();
        let mut pass = pass;
        let mut job = job;
        for _ in rt.forever() {
            let (next, reply) = self.attempt(rt, alloc, pass, job);
            match reply {
                Ok(reply) => return (next, reply),
                Err(back) => {
                    pass = next;
                    job = back;
                }
            }
            backoff.snooze();
        }
        unreachable!()
    }
}
