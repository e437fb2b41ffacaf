//! Several frames along a way, by one call of an editor.
ghost use Rattle.std.specs.Prelude.{◌≡◌, IfErr, OnOk, Ok, Err};
ghost use Rattle.scene_kinds.specs.Answers.{Answers};
ghost use Rattle.scene_session.specs.Logged.{logged};
ghost use Rattle.scene_session.specs.Turns.{turned, whole_by};
ghost use Rattle.scene_session.specs.Whole.{Whole, whole_of};

use crate::call::{Call, Reply};
use crate::log::{Logged, LoggedCall};
use crate::way::Way;
use scene_kinds::Refusal;
use scene_undo::Editor;

impl Way {
    /// A call of a session that went one frame along the way.
    pub(crate) fn done_by(self, session: u32) -> Logged
        ensures { logged result ≡ turned session self }
    {
        match self {
            Way::Back => Logged {
                session,
                call: LoggedCall::of_call(&Call::Undo),
                reply: Reply::Undone,
            },
            Way::On => Logged {
                session,
                call: LoggedCall::of_call(&Call::Redo),
                reply: Reply::Redone,
            },
        }
    }

    /// Goes so many frames of an editor along the way, all or none. After a refusal the editor is as it was.
    pub(crate) fn turn(self, editor: &mut Editor, count: usize) -> Result<(), Refusal>
        ensures { Answers result (whole_of editor.old) (whole_of editor.new) (whole_by self count (whole_of editor.old)) }
    {
        editor.undo_and_redo_come_back();
        match self {
            Way::Back => editor.undo_by(count),
            Way::On => editor.redo_by(count),
        }
    }

    /// Whether an editor can go so many frames along the way, where memory is found.
    pub(crate) fn may_turn(self, editor: &Editor, count: usize) -> Result<(), Refusal>
        ensures done { OnOk result ((w : Whole) × (whole_by self count (whole_of editor.now) ≡ Ok (tt, w))) }
        ensures refused { IfErr result (λ r. whole_by self count (whole_of editor.now) ≡ Err r) }
    {
        editor.undo_and_redo_come_back();
        match self {
            Way::Back => editor.may_undo_by(count),
            Way::On => editor.may_redo_by(count),
        }
    }
}
