//! A state that a lock keeps, with its history.
ghost use Rattle.std.specs.Prelude.{◌≡◌, ℕ, List};

/// A state that a `WordLock` keeps: it has a history, the entries by which it came to be what it is.
///
/// The meanings that contracts use: `opening` is what the state began as, which no change touches; `entries` is its history;
/// `legal` says of a history that it could have been made from an opening; `good` says what is always true of a state under
/// the lock; `session` is the number of the pass that made an entry. A good state's history is legal from its opening
/// (`lawful`).
pub trait Kept {
    /// What one change adds to the history.
    type Entry;
    /// What a state begins as. Contracts alone see a value of it.
    type Opening;

    ghost opening: { Self → Self.Opening };

    ghost entries: { Self → List Self.Entry };

    ghost legal: { Self.Opening → List Self.Entry → Type 0 };

    ghost good: { Self → Type 0 };

    ghost session: { Self.Entry → ℕ };

    /// The history, oldest entry first.
    fn history(&self) -> &[Self::Entry]
        ensures { result.now ≡ entries self.now };

    /// The number of the pass that made an entry.
    fn session_of(entry: &Self::Entry) -> u32
        ensures { result ≡ session entry.now };

    ghost lawful: { (x : Self) → good x → legal (opening x) (entries x) };
}
