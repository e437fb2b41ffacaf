//! A lock over one state with a history, whose passes see that history grow.
//!
//! Threads share a `WordLock` by reference, and each works through `Pass`es of its own. `write` runs a `Change`, which enters
//! one entry; `read` has a `Look` answer a question, at the same time as other looks. A pass shows contracts the history that
//! it has seen: it only grows, it is legal, and the entries of the pass's session in it are those that were entered through
//! the pass. Two passes that `meet` have seen one history. docs/LOCK.md has the rule in words, and `specs/Rule.antt` as
//! definitions.
#![tactic(auto)]

mod change;
mod holder;
mod kept;
mod knowledge;
mod lock;
mod look;
mod meet;
mod pass;
mod plays;
mod read;
mod steps;
mod write;

pub use change::Change;
pub use kept::Kept;
pub use knowledge::{Founding, Knowledge, Terms};
pub use lock::WordLock;
pub use look::Look;
pub use pass::Pass;
