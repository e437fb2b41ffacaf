//! Streams of bytes that remember their faults: a reader is read to its end, and bytes are written whole.
//!
//! A `Source` reads its reader in turns, of which it has so many, up to a limit of bytes. A `Sink` writes to its
//! writer until all the bytes are taken. Each remembers whether a call of what it holds failed, and calls it no
//! more after that.
//!
//! Where a reader or a writer tells its bytes, the bytes that are answered and those that are written are exact,
//! also after a refusal. Nothing tells that a call fails, so the mark stands in for it: a fault is answered
//! exactly where the mark is set after the call (docs/MODEL.md, "Faults").
//!
//! `Keep` and `KeptLines` are what keeps lines for good, as a store does: what was kept stays, and lines come behind
//! it.
//!
//! `specs/Source.antt` and `specs/Sink.antt` have what a clause sees of the two, `specs/Limits.antt` how much is read,
//! and `specs/Known.antt` what is known of a stream after a refusal. `specs/Read.antt` and `specs/Written.antt` say in
//! one record each what a caller knows once it has read a source, and once it has written to a sink.
#![tactic(auto)]

mod app_fault;
mod keep;
mod sink;
mod source;

pub use app_fault::AppFault;
pub use keep::{Keep, KeptLines, KeptText};
pub use sink::{Sink, WriteError};
pub use source::{MOST_BYTES, MOST_TURNS, ReadError, Source};
