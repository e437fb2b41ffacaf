//! Lines that were played, whose answers wait until they are kept.
ghost use Rattle.std.specs.Prelude.{◌≡◌, ◌++◌, ◌<◌, ◌≤◌, [], IfErr, IfOk, OnErr, OnOk, if◌then◌else◌, length, string_bytes};
ghost use Rattle.std.specs.Io.KnownBytes.{Appends, Keeps};
ghost use Rattle.scene_streams.specs.declared.app_fault.AppFault.TheVariants.{NoMemory, WriteFault};
ghost use Rattle.scene_interpreter.specs.Interpreter.{interpreter_of, interpreter_reply};
ghost use Rattle.scene_shell.specs.ShellLine.{IsLineAnswer, shell_changes, shell_reply};
ghost use Rattle.scene_streams.specs.Keep.{Grows, StaysKept};
ghost use Rattle.scene_shell.specs.Kept.{Beginning, Continues, MaySend, ended, kept_line};
ghost use Rattle.scene_shell.specs.Waits.{FailsToSettle, HasCome, IsBad, IsPlayed, MaySettle, Standing, keeping_of, pending_of, stands_with};
ghost use Rattle.scene_shell.specs.Shell.{AddsAnswer, IsAnswer, IsSent};

use crate::bad_shell_line::BadShellLine;
use crate::keep::KeptWriter;
use crate::kept_fault::KeptFault;
use crate::kept_line::push_kept_line;
use crate::request_line::{answer_request, of_line, request_changes};
use crate::streams::{tell_bad, tell_halt};
use crate::style::AnswerStyle;
use scene_interpreter::{Halt, Interpreter};
use scene_requests::is_request;
use scene_script::{BadLine, first_line};
use scene_session::{LoneOwner, Performer};
use scene_streams::AppFault;
use std::alloc::{AllocError, Global};
use std::io::Write;

/// How many bytes wait at most before they are kept and sent, but for those of one line.
const MOST_WAITING: usize = 65_536;

/// What waits: lines that are to be kept, and the answers that may be sent only then.
#[derive(Drop)]
pub(crate) struct Waiting {
    alloc: Global,
    /// The lines that are due, which no open frame holds back.
    pub(crate) due: Vec<u8>,
    /// The lines of the open frame.
    pub(crate) held: Vec<u8>,
    /// The answers.
    pub(crate) answers: Vec<u8>,
    /// The answer to the line that is played.
    answer: String,
}

/// Plays a line of a script, and adds its answer. It gives why the line is bad, where it is.
#[tactic(auto, using(crate::proofs::SaidLaws::is_json_answer))]
fn answer_alone<P: Performer<LoneOwner>>(
    performer: &P,
    interpreter: &mut Interpreter<LoneOwner>,
    is_json: bool,
    line: &[u8],
    answer: &mut String,
) -> Result<Option<BadLine>, Halt>
    requires { string_bytes answer.old ≡ [] }
    ensures answer { OnOk result (IsLineAnswer is_json (interpreter_of interpreter.old) line.now (string_bytes answer.new)) }
    ensures interpreter { OnOk result (interpreter_of interpreter.new ≡ (interpreter_reply (interpreter_of interpreter.old) line.now).interpreter) }
    ensures bad { IfOk result (λ bad. bad ≡ (interpreter_reply (interpreter_of interpreter.old) line.now).bad) }
{
    if is_json {
        interpreter.line_json(performer, line, answer)
    } else {
        interpreter.line(performer, line, answer)
    }
}

/// Plays a line, a request or not, and puts its answer in the place of the one before. It gives why the line is bad,
/// where it is.
#[tactic(auto, using(crate::proofs::Requests::requests))]
fn answer_any<P: Performer<LoneOwner>>(
    performer: &P,
    alloc: Global,
    interpreter: &mut Interpreter<LoneOwner>,
    is_json: bool,
    line: &[u8],
    answer: &mut String,
) -> Result<Option<BadShellLine>, Halt>
    ensures answer { OnOk result (IsAnswer is_json (interpreter_of interpreter.old) line.now (string_bytes answer.new)) }
    ensures interpreter { OnOk result (interpreter_of interpreter.new ≡ (shell_reply (interpreter_of interpreter.old) line.now).interpreter) }
    ensures bad { IfOk result (λ bad. bad ≡ (shell_reply (interpreter_of interpreter.old) line.now).bad) }
{
    answer.clear();
    if is_request(line) {
        return answer_request(performer, alloc, interpreter, line, answer);
    }
    match answer_alone(performer, interpreter, is_json, line, answer) {
        Ok(bad) => Ok(of_line(bad)),
        Err(halt) => Err(halt),
    }
}

/// Whether a line, a request or not, may change the interpreter.
#[tactic(auto, using(crate::proofs::Requests::requests))]
fn line_changes(
    alloc: Global,
    interpreter: &Interpreter<LoneOwner>,
    line: &[u8],
) -> Result<bool, AllocError>
    ensures { IfOk result (λ b. b ≡ shell_changes (interpreter_of interpreter.now) line.now) }
{
    if is_request(line) {
        return request_changes(alloc, interpreter, line);
    }
    interpreter.changes(line)
}

/// Plays a line, and puts its answer, as it is sent, in the place of the one before. It gives why the line is bad, where
/// it is.
fn answer_line<P: Performer<LoneOwner>>(
    performer: &P,
    alloc: Global,
    interpreter: &mut Interpreter<LoneOwner>,
    style: AnswerStyle,
    line: &[u8],
    answer: &mut String,
) -> Result<Option<BadShellLine>, Halt>
    ensures answer { OnOk result (IsSent style (interpreter_of interpreter.old) line.now (string_bytes answer.new)) }
    ensures interpreter { OnOk result (interpreter_of interpreter.new ≡ (shell_reply (interpreter_of interpreter.old) line.now).interpreter) }
    ensures bad { IfOk result (λ bad. bad ≡ (shell_reply (interpreter_of interpreter.old) line.now).bad) }
{
    let bad = answer_any(performer, alloc, interpreter, style.is_json, line, answer)?;
    if style.is_framed && answer.push('\n').is_err() {
        return Err(Halt::After);
    }
    Ok(bad)
}

impl Waiting {
    /// Nothing waits.
    pub(crate) fn new(alloc: Global) -> Waiting
        ensures due { result.due.items ≡ [] }
        ensures held { result.held.items ≡ [] }
        ensures answers { result.answers.items ≡ [] }
    {
        Waiting {
            alloc,
            due: Vec::new(alloc),
            held: Vec::new(alloc),
            answers: Vec::new(alloc),
            answer: String::new(alloc),
        }
    }

    /// Whether so much waits that no line more should.
    pub(crate) fn is_full(&self) -> bool {
        self.answers.len() >= MOST_WAITING || self.due.len() >= MOST_WAITING
    }

    /// The lines of the frame are due.
    fn release(&mut self) -> Result<(), AllocError>
        ensures due { OnOk result (self.new.due.items ≡ self.old.due.items ++ self.old.held.items) }
        ensures held { OnOk result (self.new.held.items ≡ []) }
        ensures same { OnErr result (self.new.due.items ≡ self.old.due.items) }
        ensures answers { self.new.answers ≡ self.old.answers }
    {
        self.due.extend_from_slice(self.held.as_slice())?;
        self.held.clear();
        Ok(())
    }

    /// Notes a line, where it may have changed the interpreter; and then its frame is open or not.
    fn note(&mut self, line: &[u8], is_changed: bool, is_frame_open: bool) -> Result<(), AllocError>
        ensures due { OnOk result (self.new.due.items ≡ (if is_frame_open then self.old.due.items
            else self.old.due.items ++ (self.old.held.items ++ (if is_changed then ended line.now else [])))) }
        ensures held { OnOk result (self.new.held.items
            ≡ (if is_frame_open then self.old.held.items ++ (if is_changed then ended line.now else []) else [])) }
        ensures same { OnErr result (self.new.due.items ≡ self.old.due.items) }
        ensures answers { self.new.answers ≡ self.old.answers }
    {
        if is_changed {
            push_kept_line(&mut self.held, line)?;
        }
        if is_frame_open {
            Ok(())
        } else {
            self.release()
        }
    }

    /// Plays a line, which is given without its line break, and notes it and its answer.
    #[tactic(auto, using(crate::proofs::KeptLaws::noted_line))]
    fn play_line<P: Performer<LoneOwner>>(
        &mut self,
        performer: &P,
        interpreter: &mut Interpreter<LoneOwner>,
        style: AnswerStyle,
        line: &[u8],
    ) -> Result<Option<BadShellLine>, Halt>
        ensures kept { OnOk result (keeping_of interpreter.new self.new
            ≡ kept_line (keeping_of interpreter.old self.old) line.now) }
        ensures answer { OnOk result (AddsAnswer style (interpreter_of interpreter.old) line.now
            self.old.answers.items self.new.answers.items) }
        ensures bad { IfOk result (λ bad. bad ≡ (shell_reply (interpreter_of interpreter.old) line.now).bad) }
        ensures due { OnErr result (self.new.due.items ≡ self.old.due.items) }
        ensures unsaid { OnErr result (self.new.answers.items ≡ self.old.answers.items) }
    {
        let Ok(is_changed) = line_changes(self.alloc, &*interpreter, line) else {
            return Err(Halt::Before);
        };
        let bad = answer_line(
            performer,
            self.alloc,
            interpreter,
            style,
            line,
            &mut self.answer,
        )?;
        let before = self.answers.len();
        if self
            .answers
            .extend_from_slice(self.answer.as_bytes())
            .is_err()
        {
            return Err(Halt::After);
        }
        match self.note(line, is_changed, interpreter.has_open_frame()) {
            Ok(()) => Ok(bad),
            Err(AllocError) => {
                self.answers.truncate(before);
                Err(Halt::After)
            }
        }
    }

    /// Plays a line, and notes it and its answer. It tells why the line is bad, and gives 1 for a bad line, 0 for any
    /// other.
    pub(crate) fn play<P: Performer<LoneOwner>, E: Write>(
        &mut self,
        performer: &P,
        interpreter: &mut Interpreter<LoneOwner>,
        style: AnswerStyle,
        number: u64,
        line: &[u8],
        errors: &mut E,
    ) -> Result<u64, AppFault>
        requires { 0 < length line.now }
        ensures played { OnOk result (IsPlayed style line.now (pending_of (interpreter_of interpreter.old) self.old)
            (pending_of (interpreter_of interpreter.new) self.new)) }
        ensures bad { IfOk result (λ bad. IsBad line.now (interpreter_of interpreter.old) bad) }
        ensures one { IfOk result (λ bad. bad ≤ 1) }
        ensures fault { IfErr result (λ f. f ≡ NoMemory) }
        ensures due { OnErr result (self.new.due.items ≡ self.old.due.items) }
        ensures unsaid { OnErr result (self.new.answers.items ≡ self.old.answers.items) }
    {
        let (bytes, _) = first_line(line);
        match self.play_line(performer, interpreter, style, bytes) {
            Ok(None) => Ok(0),
            Ok(Some(reason)) => {
                tell_bad(errors, number, &reason);
                Ok(1)
            }
            Err(halt) => {
                tell_halt(errors, number, halt);
                Err(AppFault::NoMemory)
            }
        }
    }

    /// Keeps the lines that are due.
    #[tactic(auto, using(crate::proofs::KeptLaws::grows_none))]
    fn keep_due<K: KeptWriter>(&mut self, keeper: &mut K) -> Result<(), K::Fault>
        ensures kept { OnOk result (Grows K.meaning.keeps keeper.old keeper.new self.old.due.items) }
        ensures unsaid { Keeps (K.meaning.contents keeper.old) (K.meaning.contents keeper.new) }
        ensures begun { Continues K.meaning keeper.old keeper.new }
        ensures due { OnOk result (self.new.due.items ≡ []) }
        ensures held { self.new.held ≡ self.old.held }
        ensures answers { self.new.answers ≡ self.old.answers }
    {
        if self.due.is_empty() {
            return Ok(());
        }
        match keeper.keep(self.due.as_slice()) {
            Ok(()) => {
                self.due.clear();
                Ok(())
            }
            Err(fault) => Err(fault),
        }
    }

    /// Sends the answers.
    fn send_answers<K: KeptWriter>(&mut self, keeper: &mut K) -> Result<(), AppFault>
        requires { MaySend K.meaning keeper.old self.old.answers.items }
        ensures sent { OnOk result (Appends (K.meaning.contents keeper.old) (K.meaning.contents keeper.new)
            self.old.answers.items) }
        ensures answers { OnOk result (self.new.answers.items ≡ []) }
        ensures fault { IfErr result (λ f. f ≡ WriteFault) }
        ensures kept { StaysKept K.meaning.keeps keeper.old keeper.new }
        ensures begun { Continues K.meaning keeper.old keeper.new }
        ensures due { self.new.due ≡ self.old.due }
        ensures held { self.new.held ≡ self.old.held }
    {
        match keeper.send(self.answers.as_slice()) {
            Ok(()) => {
                self.answers.clear();
                Ok(())
            }
            Err(fault) => Err(fault),
        }
    }

    /// Keeps the lines that are due, and then sends the answers.
    pub(crate) fn settle<K: KeptWriter>(
        &mut self,
        keeper: &mut K,
    ) -> Result<(), KeptFault<K::Fault>>
        requires { MaySettle K.meaning keeper.old self.old.due.items self.old.answers.items }
        ensures kept { OnOk result (Grows K.meaning.keeps keeper.old keeper.new self.old.due.items) }
        ensures sent { OnOk result (Appends (K.meaning.contents keeper.old) (K.meaning.contents keeper.new)
            self.old.answers.items) }
        ensures begun { OnOk result (Continues K.meaning keeper.old keeper.new) }
        ensures due { OnOk result (self.new.due.items ≡ []) }
        ensures held { OnOk result (self.new.held ≡ self.old.held) }
        ensures answers { OnOk result (self.new.answers.items ≡ []) }
        ensures fails { IfErr result (FailsToSettle K.meaning keeper.old keeper.new self.old.due.items) }
    {
        match self.keep_due(keeper) {
            Ok(()) => {}
            Err(fault) => return Err(KeptFault::Keep(fault)),
        }
        match self.send_answers(keeper) {
            Ok(()) => Ok(()),
            Err(fault) => Err(KeptFault::Ended(fault)),
        }
    }

    /// Does so where it is due.
    #[tactic(auto, using(crate::proofs::KeptLaws::comes_on))]
    pub(crate) fn settle_where<K: KeptWriter>(
        &mut self,
        is_due: bool,
        keeper: &mut K,
    ) -> Result<(), KeptFault<K::Fault>>
        requires { MaySettle K.meaning keeper.old self.old.due.items self.old.answers.items }
        ensures come { OnOk result ((shell : Beginning K) (here : Standing K)
            → HasCome K.meaning shell (stands_with here keeper.old self.old)
            → HasCome K.meaning shell (stands_with here keeper.new self.new)) }
        ensures fails { IfErr result (FailsToSettle K.meaning keeper.old keeper.new self.old.due.items) }
    {
        if is_due { self.settle(keeper) } else { Ok(()) }
    }
}
