//! A job of a session: what changes the state, or is stopped.
ghost use Rattle.std.specs.Prelude.{◌≡◌, ℕ, IfOk, IfErr};
ghost use Rattle.std.specs.Thread.{IsSync};
ghost use Rattle.scene_lock.specs.History.{HasOneMore};

use crate::kept::Kept;
use std::alloc::Global;
use std::sync::Wait;
use std::thread::Threads;

/// A job that changes a state, and enters that in its history.
///
/// The meanings that contracts use: `enters` says what the entry is, of the job, the session, what was done and the entry;
/// `stops` says why nothing was done, of the job, the state as it was and the answer.
pub trait Change<S: Kept>: Sized {
    /// The answer of a job that was done.
    type Done;
    /// The answer of a job that was stopped. It hands back what the job held, where that must not be lost.
    type Stopped;

    ghost enters: { Self → ℕ → Self.Done → S.Entry → Type 0 };

    ghost stops: { Self → S → Self.Stopped → Type 0 };

    /// Does the job: the history gains one entry, of this session, and nothing more. A job that is stopped leaves the history as
    /// it was. The state stays good and keeps its opening.
    fn change(self, alloc: Global, state: &mut S, session: u32) -> Result<Self::Done, Self::Stopped>
        requires { S.good state.old }
        ensures good { S.good state.new × (S.opening state.new ≡ S.opening state.old) }
        ensures done { IfOk result (λ d. HasOneMore S.session session (S.entries state.old) (λ e. enters self session d e) (S.entries state.new)) }
        ensures stopped { IfErr result (λ x. (S.entries state.new ≡ S.entries state.old) × stops self state.old x) };

    /// The same, for a caller that may start threads and wait for them. `WordLock::write` runs it. Without a body of its own it
    /// is `change`.
    // An `impl` knows the bound `Sync` by its clause alone.
    fn change_with<R: Threads + Wait + Sync>(
        self,
        _rt: &R,
        alloc: Global,
        state: &mut S,
        session: u32,
    ) -> Result<Self::Done, Self::Stopped>
        requires good { S.good state.old }
        requires sync { IsSync R.row }
        ensures good { S.good state.new × (S.opening state.new ≡ S.opening state.old) }
        ensures done { IfOk result (λ d. HasOneMore S.session session (S.entries state.old) (λ e. enters self session d e) (S.entries state.new)) }
        ensures stopped { IfErr result (λ x. (S.entries state.new ≡ S.entries state.old) × stops self state.old x) }
    {
        self.change(alloc, state, session)
    }
}
