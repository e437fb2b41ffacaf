//! The interpreter: the lines of a script one at a time.
ghost use Rattle.std.specs.Prelude.{◌≡◌, ◌≢◌, Ok, Err, IfOk, IfErr, IfNone, IfSome, MatchResult, OnErr, OnOk, string_bytes};
ghost use Rattle.scene_session.specs.Owner.{whole_at};
ghost use Rattle.scene_script.specs.Script.{line_in};
ghost use Rattle.scene_session.specs.Whole.{whole_of};
ghost use Rattle.scene_interpreter.specs.Answer.{Says};
ghost use Rattle.scene_interpreter.specs.Changes.{changes, frame_is_open, said_changes};
ghost use Rattle.scene_interpreter.specs.Play.{first_owner, first_state, said_reply, state_by};
ghost use Rattle.scene_interpreter.specs.Interpreter.{HaltsSetup, Interpreter as Reached, IsAnswered, IsSetting, Playing, Tells, begun, first_interpreter, halted, interpreter_kinds, interpreter_of, interpreter_reply, interpreter_said, lone_interpreter, owner_of, reached, systems_of, without_frame};
ghost use Rattle.scene_interpreter.specs.Setup.{setup_by};
ghost use Rattle.scene_interpreter.specs.WholeFrame.{at_depth};
ghost use Rattle.scene_interpreter.specs.declared.halt.Halt.TheVariants.{After, Begun};

use crate::answer::LineAnswer;
use crate::changes::{changes_setup, changes_state};
use crate::halt::Halt;
use crate::play_state::PlayState;
use crate::script_owner::ScriptOwner;
use crate::settings::InterpreterSettings;
use crate::setup::{Base, Setup};
use crate::setup_line::{SetupAnswer, answer_setup};
use crate::state_line::answer;
use crate::usual::{tell_usual, told};
use scene_kinds::Schema;
use scene_print::write_show;
use scene_script::{BadLine, Limit, Line, LineError, read_line, usual_line};
use scene_session::{LoneOwner, Performer};
use scene_systems::Phase;
use scene_undo::Editor;
use std::alloc::{AllocError, Global};

/// Where an interpreter is.
#[derive(Drop)]
pub(crate) enum Mode<O: ScriptOwner> {
    /// In the setup.
    Setting(Setup<O>),
    /// Behind the setup.
    Playing(PlayState<O>),
}

/// What the lines of a script so far have come to: the setup, or the sessions of the state, the frame that is open, the
/// systems and the cursor (docs/SCRIPTS.md, "Lines"). It takes a line at a time, and keeps none of them. What lines are
/// answered with doesn't depend on the owner of the sessions (`a_lock_changes_no_answer`).
pub struct Interpreter<O: ScriptOwner> {
    pub(crate) alloc: Global,
    pub(crate) mode: Mode<O>,
}

impl<O: ScriptOwner> Drop for Interpreter<O> {
    fn drop(self) {
        let Interpreter { alloc: _, mode: _ } = self;
    }
}

/// What any line says, or why it is bad.
fn read_said(
    alloc: Global,
    schema: &Schema,
    bytes: &[u8],
) -> Result<Result<Line, BadLine>, AllocError>
    ensures { IfOk result (λ said. said ≡ line_in schema.now bytes.now) }
{
    match read_line(alloc, schema, bytes) {
        Ok(line) => Ok(Ok(line)),
        Err(LineError::Bad(reason)) => Ok(Err(reason)),
        Err(LineError::NoMemory) => Err(AllocError),
    }
}

/// What a line says, mostly a usual one, or why it is bad.
pub(crate) fn said_in(
    alloc: Global,
    schema: &Schema,
    bytes: &[u8],
) -> Result<Result<Line, BadLine>, AllocError>
    ensures { IfOk result (λ said. said ≡ line_in schema.now bytes.now) }
{
    match usual_line(alloc, schema, bytes) {
        Some(said) => Ok(Ok(said.into_line())),
        None => read_said(alloc, schema, bytes),
    }
}

/// Ends the setup by a line, and answers it in the state that follows. The state is there also where no memory is found
/// for the line itself.
fn begin<O: ScriptOwner, P: Performer<O>>(
    performer: &P,
    alloc: Global,
    setup: &mut Setup<O>,
    line: Line,
) -> Result<(PlayState<O>, Result<LineAnswer, AllocError>), Halt>
    ensures begun { IfOk result (λ p. MatchResult p.1
        (λ answer. Says answer (state_by O.state p.0) (said_reply (first_state (setup_by O.most setup.old)) (Ok line)))
        (λ _. state_by O.state p.0 ≡ first_state (setup_by O.most setup.old))) }
    ensures halted { IfErr result (λ h. HaltsSetup h (setup_by O.most setup.old) (setup_by O.most setup.new)) }
{
    let mut state = setup.begin(alloc)?;
    let answered = answer(performer, alloc, &mut state, Ok(line));
    Ok((state, answered))
}

/// The sessions of a state, of which all else is dropped.
fn owner_of_state<O: ScriptOwner>(state: PlayState<O>) -> O
    ensures { result ≡ state.owner }
{
    let PlayState { owner, .. } = state;
    owner
}

/// The sessions in which a setup ends, of which all else is dropped.
fn owner_of_setup<O: ScriptOwner>(alloc: Global, setup: Setup<O>) -> Result<O, AllocError>
    ensures { IfOk result (λ owner. O.state owner ≡ first_owner (setup_by O.most setup)) }
{
    let mut setup = setup;
    setup.take_owner(alloc)
}

/// What a line that ended the setup came to.
pub(crate) fn after_begin(answered: Result<LineAnswer, AllocError>) -> Result<LineAnswer, Halt>
    ensures { MatchResult answered (λ answer. result ≡ Ok answer) (λ _. result ≡ Err Begun) }
{
    match answered {
        Ok(answer) => Ok(answer),
        Err(AllocError) => Err(Halt::Begun),
    }
}

impl Interpreter<LoneOwner> {
    /// The interpreter before its first line, whose sessions will have no lock, with these limits. Its calls are only
    /// counted, and so may be more than a lock keeps. It takes no memory.
    pub fn alone(alloc: Global, settings: InterpreterSettings) -> Self
        ensures { interpreter_of result ≡ lone_interpreter settings.depth settings.calls }
    {
        let InterpreterSettings { depth, calls } = settings;
        let base = Base::Declared(Schema::new(alloc), Limit::most());
        Interpreter {
            alloc,
            mode: Mode::Setting(Setup { base, calls, depth }),
        }
    }

    /// The editor behind the setup, to read without a copy. `None` only in the setup. It takes no memory.
    pub fn editor(&self) -> Option<&Editor>
        ensures editor { IfSome result (λ editor. whole_of editor.now ≡ whole_at (owner_of (interpreter_of self.now))) }
        ensures missing { IfNone result (IsSetting (interpreter_of self.now)) }
    {
        match &self.mode {
            Mode::Setting(_) => None,
            Mode::Playing(state) => Some(state.owner.editor()),
        }
    }

    /// Sets of how many frames a record is kept, in the setup as the line `depth` does, and behind it at any time: then
    /// those beyond it are dropped, the oldest first, and the calls begin anew, counted from 0 (docs/MODEL.md, "The rule
    /// of undo"). An open frame stays. It takes no memory, and costs the records that are dropped.
    pub fn set_depth(&mut self, depth: Limit)
        ensures { interpreter_of self.new ≡ at_depth depth (interpreter_of self.old) }
    {
        match &mut self.mode {
            Mode::Setting(setup) => setup.depth = depth,
            Mode::Playing(state) => state.owner.set_depth(depth.get()),
        }
    }
}

impl<O: ScriptOwner> Interpreter<O> {
    /// The interpreter before its first line, with the limits with which the run of a script begins. It takes no
    /// memory.
    pub fn new(alloc: Global) -> Self
        ensures { reached O.state O.most result ≡ first_interpreter }
    {
        Interpreter {
            alloc,
            mode: Mode::Setting(Setup::new(alloc)),
        }
    }

    /// The kinds so far.
    pub fn schema(&self) -> &Schema
        ensures { result.now ≡ interpreter_kinds (reached O.state O.most self.now) }
    {
        match &self.mode {
            Mode::Setting(setup) => setup.schema(),
            Mode::Playing(state) => &state.schema,
        }
    }

    /// Whether a frame is open: a line `begin` without its `commit`.
    pub fn has_open_frame(&self) -> bool
        ensures { result ≡ frame_is_open (reached O.state O.most self.now) }
    {
        match &self.mode {
            Mode::Setting(_) => false,
            Mode::Playing(state) => state.frame.is_some(),
        }
    }

    /// The systems that the lines so far have given, phase by phase (docs/SCRIPTS.md, "Systems"). In the setup there
    /// are none. It takes no memory.
    pub fn systems(&self) -> &[Phase]
        ensures { result.now ≡ systems_of (reached O.state O.most self.now) }
    {
        match &self.mode {
            Mode::Setting(_) => &[],
            Mode::Playing(state) => state.phases.as_slice(),
        }
    }

    /// The session whose turn it is, 0 to 7; in the setup 0. It takes no memory.
    pub fn session(&self) -> u32
        ensures { result ≡ (owner_of (reached O.state O.most self.now)).session }
    {
        match &self.mode {
            Mode::Setting(_) => 0,
            Mode::Playing(state) => state.owner.session(),
        }
    }

    /// How many calls there may be, those included that were made. It takes no memory.
    pub fn call_limit(&self) -> u64
        ensures { result ≡ (owner_of (reached O.state O.most self.now)).limit }
    {
        match &self.mode {
            Mode::Setting(setup) => O::number_of(&setup.calls),
            Mode::Playing(state) => state.owner.limit(),
        }
    }

    /// Drops the frame that is open, with its commands, and makes no call. It says whether there was one; all else
    /// stays. It takes no memory.
    pub fn drop_frame(&mut self) -> bool
        ensures open { result ≡ frame_is_open (reached O.state O.most self.old) }
        ensures dropped { reached O.state O.most self.new ≡ without_frame (reached O.state O.most self.old) }
    {
        match &mut self.mode {
            Mode::Setting(_) => false,
            Mode::Playing(state) => state.frame.take().is_some(),
        }
    }

    /// Whether a line, given without its line break, may change the interpreter. One of which this is false only asks,
    /// is empty or is bad: who keeps lines to play them again can leave it out
    /// (`a_line_that_changes_nothing_leaves_the_interpreter`). It is true of each line that ends the setup, and of one
    /// that is refused. The line isn't played; it costs a walk over it.
    ///
    /// `AllocError` where no memory was found for what it says.
    pub fn changes(&self, bytes: &[u8]) -> Result<bool, AllocError>
        ensures { IfOk result (λ b. b ≡ changes (reached O.state O.most self.now) bytes.now) }
    {
        let said = said_in(self.alloc, self.schema(), bytes)?;
        Ok(self.said_changes(&said))
    }

    /// Whether a line that says this, or is bad for this, may change the interpreter: `changes` for callers that make a
    /// `Line` themselves. It takes no memory.
    pub fn said_changes(&self, said: &Result<Line, BadLine>) -> bool
        ensures { result ≡ said_changes (reached O.state O.most self.now) said.now }
    {
        match &self.mode {
            Mode::Setting(setup) => changes_setup(&setup.base, said),
            Mode::Playing(state) => changes_state(&state.frame, said),
        }
    }

    /// Plays what a line says to the setup, which it may end. Only there is it called.
    // A function pays at entry for the room of its locals, and a line behind the setup needs none of these.
    #[inline(never)]
    fn set_said<P: Performer<O>>(
        &mut self,
        performer: &P,
        said: Result<Line, BadLine>,
    ) -> Result<LineAnswer, Halt>
        ensures answer { IfOk result (λ answer. Tells answer (reached O.state O.most self.new)
            (interpreter_said (reached O.state O.most self.old) said)) }
        ensures halted { IfErr result (λ h. reached O.state O.most self.new
            ≡ halted h (reached O.state O.most self.old) (interpreter_said (reached O.state O.most self.old) said).interpreter) }
        ensures undone { IfErr result (λ h. h ≢ After) }
    {
        let Mode::Setting(setup) = &mut self.mode else {
            return Err(Halt::Before);
        };
        match answer_setup(self.alloc, setup, said) {
            Err(AllocError) => Err(Halt::Before),
            Ok(SetupAnswer::Given(answer)) => Ok(answer),
            Ok(SetupAnswer::Ends(line)) => match begin(performer, self.alloc, setup, line) {
                Err(halt) => Err(halt),
                Ok((state, answered)) => {
                    self.go_to(state);
                    after_begin(answered)
                }
            },
        }
    }

    /// Plays what a line says, or why it is bad, as `play` does with the line: for callers that make a `Line`
    /// themselves. No text is read. `interpreter_said` is its meaning, of which that of `play` is a case.
    ///
    /// Halted as `play` is.
    #[tactic(auto, using(crate::proofs::InterpreterLaws::told))]
    #[inline(always)]
    pub fn play_said<P: Performer<O>>(
        &mut self,
        performer: &P,
        said: Result<Line, BadLine>,
    ) -> Result<LineAnswer, Halt>
        ensures answer { IfOk result (λ answer. Tells answer (reached O.state O.most self.new)
            (interpreter_said (reached O.state O.most self.old) said)) }
        ensures halted { IfErr result (λ h. reached O.state O.most self.new
            ≡ halted h (reached O.state O.most self.old) (interpreter_said (reached O.state O.most self.old) said).interpreter) }
        ensures undone { IfErr result (λ h. h ≢ After) }
    {
        match &mut self.mode {
            Mode::Playing(state) => match answer(performer, self.alloc, state, said) {
                Ok(answer) => Ok(answer),
                Err(AllocError) => Err(Halt::Before),
            },
            Mode::Setting(_) => self.set_said(performer, said),
        }
    }

    /// Plays a line, which is given without its line break (docs/SCRIPTS.md, "Lines"). A bad line, and one that is
    /// refused, is answered, and changes nothing. It costs what the line asks for, over a lock some thirty loads of a
    /// word, and the memory of a call.
    ///
    /// Halted only for want of memory: `Before` and `Begun`, where the line isn't done; `Lost`, where it would have
    /// ended the setup, whose kinds or scene are lost.
    pub fn play<P: Performer<O>>(&mut self, performer: &P, bytes: &[u8]) -> Result<LineAnswer, Halt>
        ensures answer { IfOk result (λ answer. Tells answer (reached O.state O.most self.new)
            (interpreter_reply (reached O.state O.most self.old) bytes.now)) }
        ensures halted { IfErr result (λ h. reached O.state O.most self.new
            ≡ halted h (reached O.state O.most self.old) (interpreter_reply (reached O.state O.most self.old) bytes.now).interpreter) }
        ensures undone { IfErr result (λ h. h ≢ After) }
    {
        let Ok(said) = said_in(self.alloc, self.schema(), bytes) else {
            return Err(Halt::Before);
        };
        self.play_said(performer, said)
    }

    /// Plays a line, and adds its answer as a script prints it. It gives why the line is bad, where it is.
    ///
    /// Halted only for want of memory, as `play` is, or `After`, where the line is done. A part of the answer may be
    /// added then.
    pub fn line<P: Performer<O>>(
        &mut self,
        performer: &P,
        bytes: &[u8],
        out: &mut String,
    ) -> Result<Option<BadLine>, Halt>
        ensures answer { IfOk result (λ bad. IsAnswered (string_bytes out.old) (string_bytes out.new) (reached O.state O.most self.new) bad
            (interpreter_reply (reached O.state O.most self.old) bytes.now)) }
        ensures halted { IfErr result (λ h. reached O.state O.most self.new
            ≡ halted h (reached O.state O.most self.old) (interpreter_reply (reached O.state O.most self.old) bytes.now).interpreter) }
    {
        if let Mode::Playing(state) = &mut self.mode {
            if let Some(said) = usual_line(self.alloc, &state.schema, bytes) {
                return tell_usual(performer, self.alloc, state, said, out);
            }
        }
        self.other_line(performer, bytes, out)
    }

    /// Plays a line as `line` does that is mostly no usual one.
    // A function pays for the room of its locals, and a usual line needs none of these.
    #[inline(never)]
    fn other_line<P: Performer<O>>(
        &mut self,
        performer: &P,
        bytes: &[u8],
        out: &mut String,
    ) -> Result<Option<BadLine>, Halt>
        ensures answer { IfOk result (λ bad. IsAnswered (string_bytes out.old) (string_bytes out.new) (reached O.state O.most self.new) bad
            (interpreter_reply (reached O.state O.most self.old) bytes.now)) }
        ensures halted { IfErr result (λ h. reached O.state O.most self.new
            ≡ halted h (reached O.state O.most self.old) (interpreter_reply (reached O.state O.most self.old) bytes.now).interpreter) }
    {
        let Ok(said) = read_said(self.alloc, self.schema(), bytes) else {
            return Err(Halt::Before);
        };
        if let Some(world) = self.shown_world(&said) {
            return told(write_show(self.alloc, out, world), None);
        }
        let answer = self.play_said(performer, said)?;
        match answer.tell(self.alloc, self.schema(), out) {
            Ok(bad) => Ok(bad),
            Err(AllocError) => Err(Halt::After),
        }
    }

    /// Goes to the state behind the setup.
    pub(crate) fn go_to(&mut self, state: PlayState<O>)
        ensures { reached O.state O.most self.new ≡ Playing (state_by O.state state) }
    {
        self.mode = Mode::Playing(state);
    }

    /// Ends the setup, where it isn't over: what follows is as behind a line that ends it. It costs what that line
    /// costs.
    ///
    /// Halted only for want of memory: `Before`; `Lost`, where the kinds or the scene of the setup are lost.
    pub fn end_setup(&mut self) -> Result<(), Halt>
        ensures begun { OnOk result (reached O.state O.most self.new ≡ begun (reached O.state O.most self.old)) }
        ensures halted { IfErr result (λ h. (next : Reached)
            → reached O.state O.most self.new ≡ halted h (reached O.state O.most self.old) next) }
    {
        match &mut self.mode {
            Mode::Playing(_) => Ok(()),
            Mode::Setting(setup) => match setup.begin(self.alloc) {
                Err(halt) => Err(halt),
                Ok(state) => {
                    self.go_to(state);
                    Ok(())
                }
            },
        }
    }

    /// The sessions as the lines so far leave them. A frame that is still open is dropped.
    ///
    /// `AllocError` where no memory was found, which only an interpreter in its setup needs.
    pub fn into_owner(self) -> Result<O, AllocError>
        ensures { IfOk result (λ owner. O.state owner ≡ owner_of (reached O.state O.most self)) }
    {
        let Interpreter { alloc, mode } = self;
        match mode {
            Mode::Playing(state) => Ok(owner_of_state(state)),
            Mode::Setting(setup) => owner_of_setup(alloc, setup),
        }
    }
}
