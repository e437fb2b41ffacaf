//! What a session has seen of a history: who made each entry, and what it asks for.
ghost use Rattle.std.specs.Prelude.{◌≡◌, map, IfOk};
ghost use Rattle.shared_scene.specs.Seen.{kind_of, seen_of};

use scene_editor::{Call, Entry, Query, State};
use std::alloc::{AllocError, Global};

/// What a call asks for.
#[derive(Clone, Copy, PartialEq, Eq, Debug)]
pub enum Kind {
    Submit,
    Advance,
    Undo,
    Redo,
}

impl Kind {
    /// What this call asks for.
    fn of(call: &Call) -> Kind
        ensures { result ≡ kind_of call.now }
    {
        match call {
            Call::Submit(_) => Kind::Submit,
            Call::Advance(_) => Kind::Advance,
            Call::Undo => Kind::Undo,
            Call::Redo => Kind::Redo,
        }
    }

    /// The word for it.
    pub fn name(self) -> &'static str {
        match self {
            Kind::Submit => "submit",
            Kind::Advance => "advance",
            Kind::Undo => "undo",
            Kind::Redo => "redo",
        }
    }
}

/// An entry: the number of the session that made it, and what it asks for.
#[derive(Clone, Copy, PartialEq, Eq, Debug)]
pub struct Seen {
    pub session: u32,
    pub kind: Kind,
}

/// The entries of a history, the oldest first.
pub fn entries_seen(alloc: Global, history: &[Entry]) -> Result<Vec<Seen>, AllocError>
    ensures { IfOk result (λ seen. seen.items ≡ map seen_of history.now) }
{
    let mut seen = Vec::new(alloc);
    for entry in history {
        seen.push(Seen {
            session: entry.session,
            kind: Kind::of(&entry.call),
        })?;
    }
    Ok(seen)
}

/// Asks which entries there are. A query changes nothing, and its answer is of just the history that the session has
/// then seen.
#[derive(Clone, Copy)]
pub struct EntriesNow;

impl Query for EntriesNow {
    type Answer = Result<Vec<Seen>, AllocError>;

    ghost use Rattle.std.specs.Prelude.{◌≡◌, map, IfOk};
    ghost use Rattle.shared_scene.specs.Seen.{seen_of};

    ghost answers = { λ q s a. IfOk a (λ seen. seen.items ≡ map seen_of s.history) };

    fn answer(&self, alloc: Global, state: &State) -> Result<Vec<Seen>, AllocError> {
        entries_seen(alloc, state.history())
    }
}
