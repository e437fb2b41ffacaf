//! The calls of an owner without a lock, for clauses alone.
ghost use Rattle.std.specs.Prelude.{◌≡◌, ◌++◌, ◌∷◌, [], List};
ghost use Rattle.std.specs.Coded.{coded_list};
ghost use Rattle.scene_session.specs.OwnerCodes.{made_code};
ghost use Rattle.scene_session.specs.Owner.{MadeCall};
ghost use Rattle.scene_session.specs.Calls.{Submit, asked};
ghost use Rattle.scene_session.specs.Earlier.{earlier_calls};
ghost use Rattle.scene_session.specs.Logged.{asked_in, logged};
ghost use Rattle.scene_queue.specs.Frames.{lone_frame};
ghost use base.Fml.{ftrue};

use crate::call::{Call, Reply};
use scene_commands::Command;
use scene_undo::Editor;
use std::marker::Model;
use std::snapshot::Snapshot;

/// A call as clauses see it once it is used up.
#[derive(Drop)]
pub(crate) enum LoggedCall {
    /// A call of any kind.
    Whole(Snapshot<Call>),
    /// A frame of one command, for which there was no queue.
    Lone(Snapshot<Command>),
}

impl LoggedCall {
    /// A call, before it is used up.
    #[inline(always)]
    pub(crate) fn of_call(call: &Call) -> LoggedCall
        ensures { asked_in result ≡ asked call.now }
    {
        LoggedCall::Whole(Snapshot::of(call))
    }

    /// A command that is to be a frame of its own, before it is used up.
    #[inline(always)]
    pub(crate) fn of_command(command: &Command) -> LoggedCall
        ensures { asked_in result ≡ Submit (lone_frame command.now) }
    {
        LoggedCall::Lone(Snapshot::of(command))
    }
}

/// What the log takes of a call: which session made it, and its reply.
#[derive(Drop)]
pub(crate) struct Logged {
    pub(crate) session: u32,
    pub(crate) call: LoggedCall,
    pub(crate) reply: Reply,
}

/// Calls of which only the number is known, and what they left.
#[derive(Drop)]
pub(crate) struct Earlier {
    pub(crate) calls: u64,
    pub(crate) left: Snapshot<Editor>,
}

/// The calls that were made, the oldest first. Clauses alone see them: it takes no memory, and its functions do nothing
/// when they run.
#[derive(Drop)]
pub(crate) struct Log {
    pub(crate) ghost calls: { List MadeCall } by { coded_list made_code },
}

impl Model for Log {
    ghost also_owns = { λ _. ftrue };
}

impl Log {
    /// No calls.
    pub(crate) fn new() -> Log
        ensures { result.calls ≡ [] }
    {
        Log {}
    }

    /// So many calls that aren't known.
    #[inline(always)]
    pub(crate) fn of_earlier(_earlier: &Earlier) -> Log
        ensures { result.calls ≡ earlier_calls _earlier.now }
    {
        Log {}
    }

    /// One call more.
    #[inline(always)]
    pub(crate) fn and(&self, _logged: &Logged) -> Log
        ensures { result.calls ≡ self.now.calls ++ logged _logged.now ∷ [] }
    {
        Log {}
    }
}
