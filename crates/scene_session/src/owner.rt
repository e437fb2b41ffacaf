//! The owner of all sessions of one state.
ghost use Rattle.std.specs.Prelude.{◌≡◌, ◌<◌, length};
ghost use Rattle.scene_session.specs.Owner.{with_session};

/// Eight sessions of one state in one owner: a `SharedOwner` over a lock with all its passes, or a `LoneOwner` over an
/// editor that has no lock (docs/SESSIONS.md, "One owner"). A `Performer` of an owner performs its calls and asks its
/// queries; what they come to doesn't depend on which of the two it is.
///
/// The meaning that contracts use: `state` is the machine that the sessions began with, with its records, the greatest
/// number of calls, the calls so far, and whose turn it is.
pub trait SessionOwner: Sized + Drop {
    ghost use Rattle.scene_session.specs.Owner.{OwnerState};

    ghost state: { Self → OwnerState };

    /// Gives the turn to a session, 0 to 7. It takes no memory.
    fn turn_to(&mut self, session: u32)
        requires { session < 8 }
        ensures { state self.new ≡ with_session (state self.old) session };

    /// Whose turn it is, 0 to 7. It takes no memory.
    fn session(&self) -> u32
        ensures { result ≡ (state self.now).session };

    /// How many calls there may be. It takes no memory.
    fn limit(&self) -> u64
        ensures { result ≡ (state self.now).limit };

    /// How many calls there were. It takes no memory.
    fn call_count(&self) -> u64
        ensures { result ≡ length (state self.now).history };
}
