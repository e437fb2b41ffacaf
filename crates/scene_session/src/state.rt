//! The state: an editor with the history of its calls.
ghost use Rattle.std.specs.Prelude.{◌≡◌, ◌≤◌, ◌<◌, [], length, vec_len, vec_capacity, None, Some, IfSome, IfOk, IfErr, OnOk};
ghost use Rattle.scene_kinds.specs.Answers.{refusal_of};
ghost use Rattle.scene_kinds.specs.declared.fault.Fault.TheVariants.{NoMemory};
ghost use Rattle.scene_session.specs.declared.call.Reply.{Reply as Told};
ghost use Rattle.scene_session.specs.Calls.{asked, queue_count, told};
ghost use Rattle.scene_session.specs.Whole.{whole_of};
ghost use Rattle.scene_session.specs.State.{HasEntered, IsLegal, IsStopped, answer_after, replayed, stopping_at};

use crate::call::{Call, Reply, Stopped};
use crate::entry::Entry;
use crate::step::{do_call, do_call_with};
use scene_kinds::{Fault, Refusal};
use scene_undo::Editor;
use std::alloc::Global;
use std::marker::Model;
use std::snapshot::Snapshot;
use std::thread::Threads;

/// What a state began as: its editor, and the greatest length of its history. No value of it is made: contracts alone
/// speak of it.
pub struct Beginning {
    pub editor: Editor,
    pub limit: u32,
}

/// An editor with the calls by which it came to be what it is (docs/SESSIONS.md, "History").
///
/// Contracts see what it began as and the history. The editor is what the calls of the history make of that opening,
/// and each entry has the machine's reply after those before it.
pub struct State {
    opening: Snapshot<Editor>,
    limit: u32,
    history: Vec<Entry>,
    editor: Editor,
}

impl Drop for State {
    fn drop(self) {
        let State {
            opening: _,
            limit: _,
            history: _,
            editor: _,
        } = self;
    }
}

impl Model for State {
    ghost use Rattle.scene_session.specs.State.{StateView, IsReplayOf};

    ghost Value = { StateView };

    ghost view = { λ s. record { opening = record { editor = s.opening.value; limit = s.limit }; history = s.history.items } };

    ghost invariant = { λ s. ∥ IsReplayOf (record { editor = s.opening.value; limit = s.limit }) s.history.items s.editor ∥₁ };
}

/// Makes room for one more entry where the limit allows one, or says why there is none.
fn make_room(history: &mut Vec<Entry>, limit: u32) -> Result<(), Refusal>
    ensures items { history.new.items ≡ history.old.items }
    ensures room { OnOk result (vec_len history.new < vec_capacity history.new) }
    ensures few { OnOk result (length history.old.items < limit) }
    ensures stopped { IfErr result (λ r. r ≡ stopping_at limit (length history.old.items)) }
{
    if history.len() >= limit as usize {
        return Err(Refusal::from(Fault::HistoryFull(u64::from(limit))));
    }
    history.reserve(1)?;
    Ok(())
}

/// Enters a call with its reply, which was made twice, and gives the reply. Where none was made, no memory was found:
/// the call is handed back.
fn enter(
    history: &mut Vec<Entry>,
    session: u32,
    call: Call,
    replies: Option<(Reply, Reply)>,
) -> Result<Reply, Stopped>
    requires room { vec_len history.old < vec_capacity history.old }
    requires twice { IfSome replies (λ p. told p.1 ≡ told p.0) }
    ensures entered { IfOk result (λ r. HasEntered history.old.items session call r history.new.items) }
    ensures reply { IfOk result (λ r. (p : Told × Told) × (replies ≡ Some p) × (told r ≡ told p.0)) }
    ensures stopped { IfErr result (λ x. (replies ≡ None) × (history.new.items ≡ history.old.items)
        × (x.call ≡ call) × (x.refusal ≡ refusal_of NoMemory)) }
{
    match replies {
        Some((given, kept)) => {
            history.push_reserved(Entry {
                session,
                call: call.shrunk(),
                reply: kept,
            });
            Ok(given)
        }
        None => {
            let refusal = Refusal::from(Fault::NoMemory);
            Err(Stopped { refusal, call })
        }
    }
}

impl State {
    /// A state of this editor, whose history is empty and may have at most `limit` entries, 1 to 1,048,576. It takes no
    /// memory.
    pub fn new(alloc: Global, editor: Editor, limit: u32) -> State
        requires { (1 ≤ limit) × (limit ≤ 1048576) }
        ensures state { result ≡ record { opening = record { editor = editor; limit = limit }; history = [] } }
        ensures legal { IsLegal result.opening result.history }
    {
        State {
            opening: Snapshot::of(&editor),
            limit,
            history: Vec::new(alloc),
            editor,
        }
    }

    /// The editor as it is after the history. It takes no memory.
    pub fn editor(&self) -> &Editor
        ensures { whole_of result.now ≡ replayed self.now.opening self.now.history }
    {
        &self.editor
    }

    /// The editor as it is after the history, which is dropped. It takes no memory.
    pub fn into_editor(self) -> Editor
        ensures { whole_of result ≡ replayed self.opening self.history }
    {
        let State {
            editor: last,
            opening: _,
            limit: _,
            history: _,
        } = self;
        last
    }

    /// The calls so far, the oldest first, each with its session and its reply (docs/SESSIONS.md, "History"). It takes
    /// no memory.
    pub fn history(&self) -> &[Entry]
        ensures entries { result.now ≡ self.now.history }
        ensures legal { IsLegal self.now.opening self.now.history }
    {
        self.history.as_slice()
    }

    /// Performs a call of a session on this thread, and enters it with its reply (docs/SESSIONS.md, "What a session
    /// promises"). What the editor refuses is entered with the reply `Refused`, and leaves the editor as it was. It
    /// costs what the editor's own call costs, and the entry: the call itself, and a copy of the list of the entities
    /// that it spawned.
    ///
    /// Stopped, in this order, and then nothing is entered, the state is as it was and the call is handed back:
    /// `HistoryFull` with the limit where the history has as many entries as it may; `NoMemory`.
    pub fn perform(&mut self, session: u32, call: Call) -> Result<Reply, Stopped>
        requires { queue_count call ≤ 4294967295 }
        ensures opening { self.new.opening ≡ self.old.opening }
        ensures legal { IsLegal self.new.opening self.new.history }
        ensures entered { IfOk result (λ r. HasEntered self.old.history session call r self.new.history) }
        ensures reply { IfOk result (λ r. told r ≡ answer_after self.old.opening self.old.history (asked call)) }
        ensures stopped { IfErr result (λ x. (self.new ≡ self.old) × IsStopped self.old.opening self.old.history call x) }
    {
        if let Err(refusal) = make_room(&mut self.history, self.limit) {
            return Err(Stopped { refusal, call });
        }
        let replies = do_call(&mut self.editor, &call);
        enter(&mut self.history, session, call, replies)
    }

    /// Performs a call as `perform` does, with the large columns of an advance written by as many threads as there are
    /// workers; a number below 1 is taken as 1, and one above 16 as 16. What is answered, entered and refused is the
    /// same for every number (docs/MODEL.md, "Many threads, one answer").
    ///
    /// Stopped as `perform` is, with the same left behind.
    pub fn perform_with<R: Threads + Sync>(
        &mut self,
        rt: &R,
        session: u32,
        call: Call,
        workers: usize,
    ) -> Result<Reply, Stopped>
        requires { queue_count call ≤ 4294967295 }
        ensures opening { self.new.opening ≡ self.old.opening }
        ensures legal { IsLegal self.new.opening self.new.history }
        ensures entered { IfOk result (λ r. HasEntered self.old.history session call r self.new.history) }
        ensures reply { IfOk result (λ r. told r ≡ answer_after self.old.opening self.old.history (asked call)) }
        ensures stopped { IfErr result (λ x. (self.new ≡ self.old) × IsStopped self.old.opening self.old.history call x) }
    {
        if let Err(refusal) = make_room(&mut self.history, self.limit) {
            return Err(Stopped { refusal, call });
        }
        let replies = do_call_with(rt, &mut self.editor, &call, workers);
        enter(&mut self.history, session, call, replies)
    }
}
