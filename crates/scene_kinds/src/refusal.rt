//! A refusal: a fault, and where in a frame it came.
ghost use Rattle.std.specs.Prelude.{◌≡◌, Some};
ghost use Rattle.scene_kinds.specs.Answers.{refusal_of};
ghost use Rattle.scene_kinds.specs.Fault.{place_text, refusal_text};
ghost use Rattle.scene_kinds.specs.declared.fault.Fault.TheVariants.{NoMemory};

use crate::fault::Fault;
use std::alloc::{AllocError, AllocFailed};
use std::error::Error;
use std::fmt;

/// The place of a command in a frame: its phase, its queue in the phase, and its place in the queue, each
/// from 0.
#[derive(Clone, Copy, Debug, PartialEq, Eq)]
pub struct Place {
    pub phase: u32,
    pub queue: u32,
    pub command: u32,
}

/// Why a call was refused, and, for a command of a frame, where it stood.
#[derive(Clone, Copy, Debug, PartialEq, Eq)]
pub struct Refusal {
    pub fault: Fault,
    pub place: Option<Place>,
}

/// A refusal without a place.
impl From<Fault> for Refusal {
    ghost from_gives = { λ fault r. r ≡ refusal_of fault };

    fn from(fault: Fault) -> Refusal {
        Refusal { fault, place: None }
    }
}

/// Want of memory is the refusal `NoMemory`, without a place.
impl From<AllocError> for Refusal {
    ghost from_gives = { λ _ r. r ≡ refusal_of NoMemory };

    fn from(_error: AllocError) -> Refusal {
        Refusal::from(Fault::NoMemory)
    }
}

/// Want of memory is the refusal `NoMemory`, without a place; what wasn't stored is dropped.
impl<T: Drop> From<AllocFailed<T>> for Refusal {
    ghost from_gives = { λ _ r. r ≡ refusal_of NoMemory };

    fn from(_error: AllocFailed<T>) -> Refusal {
        Refusal::from(AllocError)
    }
}

/// In words, as `phase 0, queue 0, command 2`.
impl fmt::Display for Place {
    ghost output = { λ p. Some (place_text p) };

    fn fmt<W: fmt::Write>(&self, f: &mut fmt::Formatter<W>) -> fmt::Result {
        write!(
            f,
            "phase {}, queue {}, command {}",
            self.phase, self.queue, self.command
        )
    }
}

/// The fault's text, and ` at ` with the place where there is one, as `8 Cycle at phase 0, queue 0, command 2`.
impl fmt::Display for Refusal {
    ghost output = { λ r. Some (refusal_text r) };

    fn fmt<W: fmt::Write>(&self, f: &mut fmt::Formatter<W>) -> fmt::Result {
        match self.place {
            Some(place) => write!(f, "{} at {}", self.fault, place),
            None => write!(f, "{}", self.fault),
        }
    }
}

impl Error for Refusal {}
