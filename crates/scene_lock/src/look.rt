//! A question to the state.
use crate::kept::Kept;
use std::alloc::Global;

/// A question about a state.
///
/// The meaning that contracts use: `answers` says what the answer is, of the look, the state and the answer.
pub trait Look<S: Kept> {
    type Answer;

    ghost answers: { Self → S → Self.Answer → Type 0 };

    /// Answers the question. Other looks may run at the same time, and no change does.
    fn look(&self, alloc: Global, state: &S) -> Self::Answer
        requires { S.good state.now }
        ensures { answers self.now state.now result };
}
