//! The owners whose sessions a script may have.
ghost use Rattle.std.specs.Prelude.{◌≡◌, IfOk, IfSome};
ghost use Rattle.scene_session.specs.Owner.{opening_owner, whole_at};
ghost use Rattle.scene_session.specs.Whole.{whole_of};

use scene_script::Limit;
use scene_session::{LoneOwner, SessionOwner, SharedOwner};
use scene_undo::Editor;
use std::alloc::{AllocError, Global};

/// An owner in which the setup of a script can end: how it takes the limit of its calls, and how it begins
/// (docs/SCRIPTS.md, "Setup").
///
/// The meaning that contracts use: `most` is how many calls there may be by a limit.
pub trait ScriptOwner: SessionOwner {
    /// How many calls there may be.
    type CallLimit: Drop;

    ghost use Rattle.std.specs.Prelude.{ℕ};

    ghost most: { Self.CallLimit → ℕ };

    /// The limit that the line `calls` sets. It takes no memory.
    fn limit_to(calls: Limit) -> Self::CallLimit
        ensures { most result ≡ calls };

    /// A limit as a number. It takes no memory.
    fn number_of(limit: &Self::CallLimit) -> u64
        ensures { result ≡ most limit.now };

    /// The editor, where no lock is over it: it can be read then without a call. It takes no memory.
    fn lone_editor(&self) -> Option<&Editor>
        ensures { IfSome result (λ editor. whole_of editor.now ≡ whole_at (Self.state self.now)) };

    /// The owner with which a run begins. `AllocError` where no memory was found: the editor is dropped then.
    fn open(alloc: Global, editor: Editor, limit: &Self::CallLimit) -> Result<Self, AllocError>
        ensures { IfOk result (λ owner. Self.state owner ≡ opening_owner (whole_of editor) (most limit.now)) };
}

// The state under its lock keeps as many calls as a line can allow.
impl ScriptOwner for SharedOwner {
    type CallLimit = Limit;

    ghost most = { λ limit. limit };

    fn limit_to(calls: Limit) -> Limit {
        calls
    }

    fn number_of(limit: &Limit) -> u64 {
        u64::from(limit.get())
    }

    fn lone_editor(&self) -> Option<&Editor> {
        None
    }

    fn open(alloc: Global, editor: Editor, limit: &Limit) -> Result<SharedOwner, AllocError> {
        SharedOwner::new(alloc, editor, limit.get())
    }
}

// Its calls are only counted, so there may be more than a line can allow; 0 is taken as 1.
impl ScriptOwner for LoneOwner {
    type CallLimit = u64;

    ghost use Rattle.std.specs.Prelude.{max};

    ghost most = { λ limit. max limit 1 };

    fn limit_to(calls: Limit) -> u64 {
        u64::from(calls.get())
    }

    fn number_of(limit: &u64) -> u64 {
        (*limit).max(1)
    }

    fn lone_editor(&self) -> Option<&Editor> {
        Some(self.editor())
    }

    fn open(_alloc: Global, editor: Editor, limit: &u64) -> Result<LoneOwner, AllocError> {
        Ok(LoneOwner::new(editor, (*limit).max(1)))
    }
}
