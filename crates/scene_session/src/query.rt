//! Questions about a state.
use crate::state::State;
use scene_lock::Look;
use scene_undo::Editor;
use std::alloc::Global;

/// A question about a state (docs/SESSIONS.md, "What it has seen").
///
/// The meaning that contracts use: `answers` says what the answer is, of the question, the state and the answer.
pub trait Query {
    /// What is answered.
    type Answer;

    ghost use Rattle.scene_session.specs.State.{StateView};

    ghost answers: { Self → StateView → Self.Answer → Type 0 };

    /// Answers the question, and changes nothing. Other questions may be answered at the same time.
    fn answer(&self, alloc: Global, state: &State) -> Self::Answer
        ensures { answers self.now state.now result };
}

/// A question about an editor. Each is a `Query` as well: of a state it asks the editor as it is after the history.
///
/// The meaning that contracts use: `finds` says what is found, of the question, the editor's machine with its records,
/// and what was found.
pub trait EditorQuery {
    /// What is found.
    type Found;

    ghost use Rattle.scene_session.specs.Whole.{Whole, whole_of};

    ghost finds: { Self → Whole → Self.Found → Type 0 };

    /// Answers the question, and changes nothing.
    fn find(&self, alloc: Global, editor: &Editor) -> Self::Found
        ensures { finds self.now (whole_of editor.now) result };
}

impl<Q: EditorQuery> Query for Q {
    type Answer = Q::Found;

    ghost use Rattle.scene_session.specs.State.{replayed};

    ghost answers = { λ q s a. Q.finds q (replayed s.opening s.history) a };

    fn answer(&self, alloc: Global, state: &State) -> Q::Found {
        self.find(alloc, state.editor())
    }
}

/// A query as a look of the lock.
#[derive(Drop)]
pub(crate) struct Question<'a, Q> {
    pub(crate) query: &'a Q,
}

impl<'a, Q: Query> Look<State> for Question<'a, Q> {
    type Answer = Q::Answer;

    ghost answers = { λ l s a. Q.answers l.query.now s a };

    fn look(&self, alloc: Global, state: &State) -> Q::Answer {
        self.query.answer(alloc, state)
    }
}
