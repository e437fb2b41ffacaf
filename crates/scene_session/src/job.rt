//! The state under a lock, and a call as a job of the lock.
ghost use Rattle.std.specs.Prelude.{◌≤◌};
ghost use Rattle.scene_session.specs.Calls.{queue_count};

use crate::call::{Call, Reply, Stopped};
use crate::entry::Entry;
use crate::state::{Beginning, State};
use scene_lock::{Change, Kept};
use std::alloc::Global;
use std::sync::Wait;
use std::thread::Threads;

impl Kept for State {
    type Entry = Entry;

    type Opening = Beginning;

    ghost use Rattle.scene_session.specs.State.{IsLegal};

    ghost opening = { λ s. s.opening };

    ghost entries = { λ s. s.history };

    ghost legal = { IsLegal };

    ghost good = { λ s. IsLegal s.opening s.history };

    ghost session = { λ e. e.session };

    fn history(&self) -> &[Entry] {
        self.history()
    }

    fn session_of(entry: &Entry) -> u32 {
        entry.session
    }

    ghost lawful = { λ s good. good };
}

/// A call that is to be performed, with the number of threads that the systems of an advance may have.
pub(crate) struct Job {
    pub(crate) call: Call,
    pub(crate) workers: usize,
    ghost few: { queue_count call ≤ 4294967295 },
}

impl Change<State> for Job {
    type Done = Reply;

    type Stopped = Stopped;

    ghost use Rattle.std.specs.Prelude.{◌≡◌};
    ghost use Rattle.scene_session.specs.Calls.{asked, told};
    ghost use Rattle.scene_session.specs.State.{IsStopped};

    ghost enters = { λ job session reply e. (asked e.call ≡ asked job.call) × (told e.reply ≡ told reply) };

    ghost stops = { λ job state stopped. IsStopped state.opening state.history job.call stopped };

    fn change(self, _alloc: Global, state: &mut State, session: u32) -> Result<Reply, Stopped> {
        let Job { call, workers: _ } = self;
        state.perform(session, call)
    }

    fn change_with<R: Threads + Wait + Sync>(
        self,
        rt: &R,
        _alloc: Global,
        state: &mut State,
        session: u32,
    ) -> Result<Reply, Stopped> {
        let Job { call, workers } = self;
        state.perform_with(rt, session, call, workers)
    }
}
