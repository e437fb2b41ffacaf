//! A state of notes.
ghost use Rattle.std.specs.Prelude.{◌≡◌, ◌≤◌, [], length, All, IfOk};

use scene_lock::{Change, Kept, Look};
use std::alloc::{AllocError, Global};
use std::sync::Wait;
use std::thread::Threads;

/// A number that a session wrote.
#[derive(Clone, Copy, PartialEq, Eq, Debug)]
pub struct Note {
    pub session: u32,
    pub number: u64,
}

/// So many notes at most. Their limit is what the state began with.
#[derive(Drop)]
pub struct Notes {
    pub limit: u64,
    pub notes: Vec<Note>,
}

impl Notes {
    /// No notes. It takes no memory.
    pub fn new(alloc: Global, limit: u64) -> Notes
        ensures limit { result.limit ≡ limit }
        ensures empty { result.notes.items ≡ [] }
    {
        Notes {
            limit,
            notes: Vec::new(alloc),
        }
    }

    /// The numbers of one session, in their order.
    pub fn numbers_of(&self, alloc: Global, session: u32) -> Result<Vec<u64>, AllocError> {
        let mut numbers = Vec::new(alloc);
        for note in &self.notes {
            if note.session == session {
                numbers.push(note.number)?;
            }
        }
        Ok(numbers)
    }
}

impl Kept for Notes {
    type Entry = Note;

    type Opening = u64;

    ghost use Rattle.std.specs.Prelude.{◌≤◌, length};

    ghost opening = { λ n. n.limit };

    ghost entries = { λ n. n.notes.items };

    ghost legal = { λ limit history. length history ≤ limit };

    ghost good = { λ n. length n.notes.items ≤ n.limit };

    ghost session = { λ e. e.session };

    fn history(&self) -> &[Note] {
        self.notes.as_slice()
    }

    fn session_of(entry: &Note) -> u32 {
        entry.session
    }

    ghost lawful = { λ x ok. ok };
}

/// Writes a number. It is stopped, and handed back, where there is no room for it.
#[derive(Drop, Clone, Copy, PartialEq, Eq, Debug)]
pub struct Write {
    pub number: u64,
}

impl Change<Notes> for Write {
    type Done = ();

    type Stopped = Write;

    ghost use Rattle.std.specs.Prelude.{◌≡◌};

    ghost enters = { λ job session done e. e ≡ record { session = session; number = job.number } };

    ghost stops = { λ job notes back. back ≡ job };

    fn change(self, _alloc: Global, state: &mut Notes, session: u32) -> Result<(), Write> {
        if state.notes.len() as u64 >= state.limit {
            return Err(self);
        }
        let number = self.number;
        match state.notes.push(Note { session, number }) {
            Ok(()) => Ok(()),
            Err(_) => Err(Write { number }),
        }
    }
}

/// Writes a number, and answers whether it was run as a job that may start threads and wait.
#[derive(Drop, Clone, Copy, PartialEq, Eq, Debug)]
pub struct WriteKnowingHow {
    pub number: u64,
}

impl Change<Notes> for WriteKnowingHow {
    type Done = bool;

    type Stopped = ();

    ghost use Rattle.std.specs.Prelude.{◌≡◌};

    ghost enters = { λ job session done e. e ≡ record { session = session; number = job.number } };

    ghost stops = { λ job notes back. Unit {0} };

    fn change(self, alloc: Global, state: &mut Notes, session: u32) -> Result<bool, ()> {
        let write = Write {
            number: self.number,
        };
        match write.change(alloc, state, session) {
            Ok(()) => Ok(false),
            Err(_) => Err(()),
        }
    }

    fn change_with<R: Threads + Wait + Sync>(
        self,
        _rt: &R,
        alloc: Global,
        state: &mut Notes,
        session: u32,
    ) -> Result<bool, ()> {
        let write = Write {
            number: self.number,
        };
        match write.change(alloc, state, session) {
            Ok(()) => Ok(true),
            Err(_) => Err(()),
        }
    }
}

/// How many notes there are.
pub struct Count;

impl Look<Notes> for Count {
    type Answer = usize;

    ghost use Rattle.std.specs.Prelude.{◌≡◌, length};

    ghost answers = { λ look notes n. n ≡ length notes.notes.items };

    fn look(&self, _alloc: Global, state: &Notes) -> usize {
        state.notes.len()
    }
}
