//! Looks and changes that wait within the lock, for a bounded number of turns.
use crate::notes::{Note, Notes};
use scene_lock::{Change, Look};
use std::alloc::Global;
use std::sync::atomic::{AtomicU64, Ordering};
use std::{hint, thread};

/// How long each waits, at most.
pub(crate) const TURNS: u64 = 10_000_000;

/// A number that threads wait for one another to raise.
#[derive(Drop)]
pub struct Gate {
    count: AtomicU64,
}

impl Gate {
    pub fn new() -> Gate {
        Gate {
            count: AtomicU64::new(0),
        }
    }

    pub fn raise(&self) {
        self.count.fetch_add(1, Ordering::SeqCst);
    }

    pub fn is_at(&self, count: u64) -> bool {
        self.count.load(Ordering::SeqCst) >= count
    }

    /// Whether the number came to be so high while it waited.
    pub fn wait_for(&self, count: u64) -> bool {
        for turn in 0..TURNS {
            if self.is_at(count) {
                return true;
            }
            if turn % 64 == 63 {
                thread::yield_now();
            } else {
                hint::spin_loop();
            }
        }
        false
    }
}

/// A look that waits until so many looks are inside. Its answer is whether they came.
#[derive(Drop)]
pub struct Meeting<'a> {
    pub inside: &'a Gate,
    pub wanted: u64,
}

impl<'a> Look<Notes> for Meeting<'a> {
    type Answer = bool;

    ghost answers = { λ look notes came. Unit {0} };

    fn look(&self, _alloc: Global, _state: &Notes) -> bool {
        self.inside.raise();
        self.inside.wait_for(self.wanted)
    }
}

/// A job that says that it is inside, and stays there until it is let go. A look of it answers whether it was let go; a change
/// of it writes the number 1 then, and else is stopped.
#[derive(Drop)]
pub struct Stay<'a> {
    pub inside: &'a Gate,
    pub let_go: &'a Gate,
}

impl<'a> Stay<'a> {
    fn stays(&self) -> bool {
        self.inside.raise();
        self.let_go.wait_for(1)
    }
}

impl<'a> Look<Notes> for Stay<'a> {
    type Answer = bool;

    ghost answers = { λ look notes came. Unit {0} };

    fn look(&self, _alloc: Global, _state: &Notes) -> bool {
        self.stays()
    }
}

impl<'a> Change<Notes> for Stay<'a> {
    type Done = ();

    type Stopped = ();

    ghost use Rattle.std.specs.Prelude.{◌≡◌};

    ghost enters = { λ job session done e. e ≡ record { session = session; number = 1 } };

    ghost stops = { λ job notes back. Unit {0} };

    fn change(self, _alloc: Global, state: &mut Notes, session: u32) -> Result<(), ()> {
        if !self.stays() || state.notes.len() as u64 >= state.limit {
            return Err(());
        }
        match state.notes.push(Note { session, number: 1 }) {
            Ok(()) => Ok(()),
            Err(_) => Err(()),
        }
    }
}
