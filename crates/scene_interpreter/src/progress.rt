//! How far an interpreter has come, and going on from there.
ghost use Rattle.std.specs.Prelude.{◌≡◌, IsTrue, false};
ghost use Rattle.scene_interpreter.specs.Interpreter.{interpreter_of};
ghost use Rattle.scene_interpreter.specs.Play.{state_by};
ghost use Rattle.scene_interpreter.specs.Progress.{Resumes, StateResumes, may_resume, progress_in, progress_of, state_may_resume};

use crate::interpreter::{Interpreter, Mode};
use crate::play_state::PlayState;
use scene_session::{Cursor, LoneOwner, SessionOwner};

/// How far an interpreter has come: what lines that lead to its scene don't say.
#[derive(Clone, Copy, Debug, PartialEq, Eq, Drop)]
pub struct Progress {
    /// How many calls there were.
    pub calls: u64,
    /// How many undos there were.
    pub rewinds: u64,
    /// The cursor that the last mark took.
    pub cursor: Cursor,
}

impl PlayState<LoneOwner> {
    /// How far the state has come.
    fn progress(&self) -> Progress
        ensures { result ≡ progress_of (state_by (λ owner. owner) self.now) }
    {
        Progress {
            calls: self.owner.call_count(),
            rewinds: self.owner.editor().rewinds(),
            cursor: self.cursor,
        }
    }

    /// Goes on from there, unless a frame is open or there may not be so many calls. It says whether it does.
    fn resume(&mut self, progress: Progress) -> bool
        ensures may { result ≡ state_may_resume progress (state_by (λ owner. owner) self.old) }
        ensures resumed { IsTrue result → StateResumes progress (state_by (λ owner. owner) self.old) (state_by (λ owner. owner) self.new) }
        ensures same { result ≡ false → state_by (λ owner. owner) self.new ≡ state_by (λ owner. owner) self.old }
    {
        if self.frame.is_some() {
            return false;
        }
        if progress.calls > self.owner.limit() {
            return false;
        }
        self.owner.resume(progress.rewinds, progress.calls);
        self.cursor = progress.cursor;
        true
    }
}

impl Interpreter<LoneOwner> {
    /// How far the interpreter has come. `None` only in the setup. It takes no memory.
    pub fn progress(&self) -> Option<Progress>
        ensures { result ≡ progress_in (interpreter_of self.now) }
    {
        match &self.mode {
            Mode::Setting(_) => None,
            Mode::Playing(state) => Some(state.progress()),
        }
    }

    /// Goes on from where another interpreter has come, of whose calls only the number is known: `calls`, `rewinds` and
    /// the cursor are those from then on. Scene, systems, kinds, turn and limits stay. An interpreter that is like the
    /// other one in these then answers every further line as the other does (`history_apart_changes_no_answer`).
    ///
    /// `false` where it is in its setup, where a frame is open, or where there may not be so many calls; then nothing
    /// changes. It takes no memory.
    pub fn resume(&mut self, progress: Progress) -> bool
        ensures may { result ≡ may_resume progress (interpreter_of self.old) }
        ensures resumed { IsTrue result → Resumes progress (interpreter_of self.old) (interpreter_of self.new) }
        ensures same { result ≡ false → interpreter_of self.new ≡ interpreter_of self.old }
    {
        match &mut self.mode {
            Mode::Setting(_) => false,
            Mode::Playing(state) => state.resume(progress),
        }
    }
}
