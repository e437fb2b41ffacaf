//! The lines of a script one at a time, each answered by one line of JSON.
ghost use Rattle.std.specs.Prelude.{◌≡◌, ℕ, List, IfErr, IfOk, None, Ok, OnOk, Some, string_bytes};
ghost use Rattle.scene_script.specs.declared.bad_line.BadLine.TheVariants.{FrameOpen};
ghost use Rattle.scene_script.specs.declared.script_line.Line.TheVariants.{Show};
ghost use Rattle.scene_interpreter.specs.declared.halt.Halt.TheVariants.{After};
ghost use Rattle.scene_json.specs.Texts.{Adds};
ghost use Rattle.scene_session.specs.Owner.{whole_at};
ghost use Rattle.scene_interpreter.specs.JsonAnswer.{bad_json, json_line};
ghost use Rattle.scene_interpreter.specs.JsonLine.{AddsJson, IsAnsweredAsJson, IsAsked, IsSaidAsJson, asked_by, question_of};
ghost use Rattle.scene_interpreter.specs.JsonQuestion.{asked_json};
ghost use Rattle.scene_interpreter.specs.Play.{first_state, state_by};
ghost use Rattle.scene_interpreter.specs.Interpreter.{HaltsSetup, Interpreter as Reached, begun, halted, reached, interpreter_reply, interpreter_said, owner_of};
ghost use Rattle.scene_interpreter.specs.Setup.{setup_by};

use crate::answer::LineAnswer;
use crate::halt::Halt;
use crate::interpreter::{Interpreter, Mode, said_in};
use crate::json_question::StateJson;
use crate::play_state::PlayState;
use crate::script_owner::ScriptOwner;
use crate::setup::Setup;
use scene_requests::Question;
use scene_script::{BadLine, Line};
use scene_session::{Performer, SessionOwner};
use std::alloc::{AllocError, Global};

/// What a line asks of the state, where it asks for a text of it.
fn question_of(said: &Result<Line, BadLine>) -> Option<StateJson>
    ensures { result ≡ question_of said.now }
{
    match said {
        Ok(Line::Show) => Some(StateJson::Show),
        Ok(Line::Get(entity)) => Some(StateJson::Get(*entity)),
        Ok(Line::Dump) => Some(StateJson::Dump),
        Ok(Line::DumpAll) => Some(StateJson::DumpAll),
        _ => None,
    }
}

/// Asks the state behind the setup, which stays as it is.
fn ask_state<O: SessionOwner, P: Performer<O>>(
    performer: &P,
    alloc: Global,
    state: &mut PlayState<O>,
    asked: StateJson,
) -> Result<String, AllocError>
    ensures text { IfOk result (λ text. string_bytes text ≡ json_line (asked_json asked (whole_at (O.state state.old.owner)))) }
    ensures same { state_by O.state state.new ≡ state_by O.state state.old }
{
    performer.ask(alloc, &mut state.owner, &asked)
}

/// Ends the setup by a line that asks the state that follows. The state is there also where no memory is found for
/// the answer.
fn begin_asked<O: ScriptOwner, P: Performer<O>>(
    performer: &P,
    alloc: Global,
    setup: &mut Setup<O>,
    asked: StateJson,
) -> Result<(PlayState<O>, Result<String, AllocError>), Halt>
    ensures begun { IfOk result (λ p. state_by O.state p.0 ≡ first_state (setup_by O.most setup.old)) }
    ensures text { IfOk result (λ p. IfOk p.1 (λ text. string_bytes text
        ≡ json_line (asked_json asked (whole_at (first_state (setup_by O.most setup.old)).owner)))) }
    ensures halted { IfErr result (λ h. HaltsSetup h (setup_by O.most setup.old) (setup_by O.most setup.new)) }
{
    let mut state = setup.begin(alloc)?;
    let answered = ask_state(performer, alloc, &mut state, asked);
    Ok((state, answered))
}

impl<O: ScriptOwner> Interpreter<O> {
    /// What a line that says this asks of the state, where it does.
    fn asked_by(&self, said: &Result<Line, BadLine>) -> Option<StateJson>
        ensures { result ≡ asked_by (reached O.state O.most self.now) said.now }
    {
        if self.has_open_frame() {
            return None;
        }
        question_of(said)
    }

    /// Asks the state, and ends the setup where it hasn't ended.
    fn ask<P: Performer<O>>(&mut self, performer: &P, asked: StateJson) -> Result<String, Halt>
        ensures text { IfOk result (λ text. string_bytes text ≡ json_line (asked_json asked (whole_at (owner_of (reached O.state O.most self.old))))) }
        ensures begun { IfOk result (λ _. reached O.state O.most self.new ≡ begun (reached O.state O.most self.old)) }
        ensures halted { IfErr result (λ h. (next : Reached)
            → reached O.state O.most self.new ≡ halted h (reached O.state O.most self.old) next) }
    {
        match &mut self.mode {
            Mode::Playing(state) => match ask_state(performer, self.alloc, state, asked) {
                Ok(text) => Ok(text),
                Err(AllocError) => Err(Halt::Before),
            },
            Mode::Setting(setup) => match begin_asked(performer, self.alloc, setup, asked) {
                Err(halt) => Err(halt),
                Ok((state, answered)) => {
                    self.go_to(state);
                    match answered {
                        Ok(text) => Ok(text),
                        Err(AllocError) => Err(Halt::Begun),
                    }
                }
            },
        }
    }

    /// Adds what the state is asked for.
    fn show_json<P: Performer<O>>(
        &mut self,
        performer: &P,
        asked: StateJson,
        out: &mut String,
    ) -> Result<Option<BadLine>, Halt>
        ensures bad { IfOk result (λ bad. bad ≡ None) }
        ensures begun { IfOk result (λ _. reached O.state O.most self.new ≡ begun (reached O.state O.most self.old)) }
        ensures text { OnOk result (Adds out.old out.new (json_line (asked_json asked (whole_at (owner_of (reached O.state O.most self.old)))))) }
        ensures halted { IfErr result (λ h. reached O.state O.most self.new
            ≡ halted h (reached O.state O.most self.old) (begun (reached O.state O.most self.old))) }
    {
        let text = self.ask(performer, asked)?;
        match out.push_str(text.as_str()) {
            Ok(()) => Ok(None),
            Err(AllocError) => Err(Halt::After),
        }
    }

    /// Plays what a line says, and adds its answer.
    fn play_json<P: Performer<O>>(
        &mut self,
        performer: &P,
        said: Result<Line, BadLine>,
        out: &mut String,
    ) -> Result<Option<BadLine>, Halt>
        ensures bad { IfOk result (λ bad. bad ≡ (interpreter_said (reached O.state O.most self.old) said).bad) }
        ensures interpreter { OnOk result (reached O.state O.most self.new
            ≡ (interpreter_said (reached O.state O.most self.old) said).interpreter) }
        ensures text { OnOk result (AddsJson (string_bytes out.old) (string_bytes out.new)
            (reached O.state O.most self.old) (reached O.state O.most self.new) said None) }
        ensures halted { IfErr result (λ h. reached O.state O.most self.new
            ≡ halted h (reached O.state O.most self.old) (interpreter_said (reached O.state O.most self.old) said).interpreter) }
    {
        let answer = self.play_said(performer, said)?;
        match answer.write_json(self.alloc, self.schema(), out) {
            Ok(()) => Ok(answer.into_bad_line()),
            Err(AllocError) => Err(Halt::After),
        }
    }

    /// Plays what a line says, or why it is bad, as `line_json` does with the line: for callers that make a `Line`
    /// themselves. No text is read.
    ///
    /// Halted as `line_json` is.
    pub fn said_json<P: Performer<O>>(
        &mut self,
        performer: &P,
        said: Result<Line, BadLine>,
        out: &mut String,
    ) -> Result<Option<BadLine>, Halt>
        ensures answer { IfOk result (λ bad. IsSaidAsJson (string_bytes out.old) (string_bytes out.new)
            (reached O.state O.most self.old) (reached O.state O.most self.new) said bad) }
        ensures halted { IfErr result (λ h. reached O.state O.most self.new
            ≡ halted h (reached O.state O.most self.old) (interpreter_said (reached O.state O.most self.old) said).interpreter) }
    {
        match self.asked_by(&said) {
            Some(asked) => self.show_json(performer, asked, out),
            None => self.play_json(performer, said, out),
        }
    }

    /// Plays a line, and adds its answer as one line of JSON (docs/SHELL.md, "JSON"). It gives why the line is bad,
    /// where it is. `show`, `get`, `dump` and `dumpall` add what they ask for by its parts, and any other line its
    /// `LineAnswer`. It costs what `line` costs.
    ///
    /// Halted only for want of memory, as `line` is. A part of the answer may be added then.
    pub fn line_json<P: Performer<O>>(
        &mut self,
        performer: &P,
        bytes: &[u8],
        out: &mut String,
    ) -> Result<Option<BadLine>, Halt>
        ensures answer { IfOk result (λ bad. IsAnsweredAsJson (string_bytes out.old) (string_bytes out.new)
            (reached O.state O.most self.old) (reached O.state O.most self.new) bytes.now bad) }
        ensures halted { IfErr result (λ h. reached O.state O.most self.new
            ≡ halted h (reached O.state O.most self.old) (interpreter_reply (reached O.state O.most self.old) bytes.now).interpreter) }
    {
        let Ok(said) = said_in(self.alloc, self.schema(), bytes) else {
            return Err(Halt::Before);
        };
        self.said_json(performer, said, out)
    }

    /// Adds that a question is bad, since a frame is open.
    fn refuse_question(&self, out: &mut String) -> Result<Option<BadLine>, Halt>
        ensures bad { IfOk result (λ bad. bad ≡ Some FrameOpen) }
        ensures text { OnOk result ((words : List ℕ) × (Adds out.old out.new (json_line (bad_json words)))) }
        ensures halted { IfErr result (λ h. h ≡ After) }
    {
        let answer = LineAnswer::Bad(BadLine::FrameOpen);
        match answer.write_json(self.alloc, self.schema(), out) {
            Ok(()) => Ok(Some(BadLine::FrameOpen)),
            Err(AllocError) => Err(Halt::After),
        }
    }

    /// Answers a question that no line has, and adds the answer as one line of JSON (docs/SHELL.md, "Questions"). It is
    /// to the interpreter as the line `show` is: it ends the setup, and where a frame is open it is bad, which is added
    /// and given. Else it changes nothing. It costs what `write_json_answer` of scene_questions costs.
    ///
    /// Halted only for want of memory, as `line` is. A part of the answer may be added then.
    pub fn question_json<P: Performer<O>>(
        &mut self,
        performer: &P,
        question: Question,
        out: &mut String,
    ) -> Result<Option<BadLine>, Halt>
        ensures answer { IfOk result (λ bad. IsAsked (string_bytes out.old) (string_bytes out.new)
            (reached O.state O.most self.old) (reached O.state O.most self.new) question bad) }
        ensures halted { IfErr result (λ h. reached O.state O.most self.new
            ≡ halted h (reached O.state O.most self.old) (interpreter_said (reached O.state O.most self.old) (Ok Show)).interpreter) }
    {
        if self.has_open_frame() {
            self.refuse_question(out)
        } else {
            self.show_json(performer, StateJson::Ask(question), out)
        }
    }
}
