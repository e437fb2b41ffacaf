//! Calls of an open scene: lines, by their bytes and as values.
ghost use Rattle.std.specs.Prelude.{◌≡◌, ◌≢◌, [], IfErr, IfOk, OnErr, OnOk, Ok, false, is_some, string_bytes, true};
ghost use Rattle.scene_interpreter.specs.Answer.{said_of};
ghost use Rattle.scene_interpreter.specs.Changes.{frame_is_open};
ghost use Rattle.scene_interpreter.specs.Interpreter.{Interpreter as Reached, Tells, begun, halted, interpreter_kinds, interpreter_of, interpreter_reply, interpreter_said, without_frame};
ghost use Rattle.scene_interpreter.specs.Said.{bad_in, said_text};
ghost use Rattle.scene_interpreter.specs.WholeFrame.{queue_said};
ghost use Rattle.scene_interpreter.specs.declared.halt.Halt.TheVariants.{After};
ghost use Rattle.scene_c.specs.Calls.{IsJsonOf};
ghost use Rattle.scene_c.specs.OpenScene.{HasHalted, KeepsAnswer};

use crate::open_scene::OpenScene;
use scene_interpreter::{Halt, LineAnswer};
use scene_queue::Queue;
use scene_script::Line;
use scene_session::ThisThread;
use std::alloc::{AllocError, Global};

impl OpenScene {
    /// Keeps an answer with its text; where no memory is found for that, without one.
    pub(crate) fn keep(&mut self, alloc: Global, answer: LineAnswer) -> Result<(), Halt>
        ensures answer { self.new.answer ≡ answer }
        ensures text { OnOk result (string_bytes self.new.text
            ≡ said_text (interpreter_kinds (interpreter_of self.old.interpreter)) (said_of answer)) }
        ensures halted { IfErr result (λ h. (h ≡ After) × (string_bytes self.new.text ≡ [])) }
        ensures interpreter { interpreter_of self.new.interpreter ≡ interpreter_of self.old.interpreter }
        ensures cells { self.new.cells.items ≡ self.old.cells.items }
    {
        let mut text = String::new(alloc);
        let told = answer.write_text(alloc, self.interpreter.schema(), &mut text);
        self.answer = answer;
        match told {
            Ok(()) => {
                self.text = text;
                Ok(())
            }
            Err(AllocError) => {
                self.text = String::new(alloc);
                Err(Halt::After)
            }
        }
    }

    /// Plays a line, which is given without its line break, and keeps its answer with its text (docs/SCRIPTS.md,
    /// "Lines").
    ///
    /// Halted as `Interpreter::line` is. Where the line is done, its answer is kept without a text; else the last
    /// answer stays.
    pub fn line(&mut self, alloc: Global, bytes: &[u8]) -> Result<(), Halt>
        ensures answer { OnOk result (Tells self.new.answer (interpreter_of self.new.interpreter)
            (interpreter_reply (interpreter_of self.old.interpreter) bytes.now)) }
        ensures text { OnOk result (string_bytes self.new.text ≡ (interpreter_reply (interpreter_of self.old.interpreter) bytes.now).text) }
        ensures halted { IfErr result (λ h. HasHalted h self.old self.new (interpreter_reply (interpreter_of self.old.interpreter) bytes.now)) }
        ensures cells { self.new.cells.items ≡ self.old.cells.items }
    {
        let answer = self.interpreter.play(&ThisThread, bytes)?;
        self.keep(alloc, answer)
    }

    /// Plays a line that is a value, and keeps its answer with its text.
    ///
    /// Halted as `line` is.
    pub fn tell(&mut self, alloc: Global, line: Line) -> Result<(), Halt>
        ensures answer { OnOk result (Tells self.new.answer (interpreter_of self.new.interpreter)
            (interpreter_said (interpreter_of self.old.interpreter) (Ok line))) }
        ensures text { OnOk result (string_bytes self.new.text ≡ (interpreter_said (interpreter_of self.old.interpreter) (Ok line)).text) }
        ensures halted { IfErr result (λ h. HasHalted h self.old self.new (interpreter_said (interpreter_of self.old.interpreter) (Ok line))) }
        ensures cells { self.new.cells.items ≡ self.old.cells.items }
    {
        let answer = self.interpreter.play_said(&ThisThread, Ok(line))?;
        self.keep(alloc, answer)
    }

    /// Plays a line that is a value, and keeps its answer without a text.
    ///
    /// Halted as `Interpreter::play` is, so never behind the line: then the last answer stays.
    #[inline(always)]
    pub fn say(&mut self, line: Line) -> Result<(), Halt>
        ensures answer { OnOk result (Tells self.new.answer (interpreter_of self.new.interpreter)
            (interpreter_said (interpreter_of self.old.interpreter) (Ok line))) }
        ensures text { OnOk result (string_bytes self.new.text ≡ []) }
        ensures halted { IfErr result (λ h. HasHalted h self.old self.new (interpreter_said (interpreter_of self.old.interpreter) (Ok line))) }
        ensures undone { IfErr result (λ h. h ≢ After) }
        ensures cells { self.new.cells.items ≡ self.old.cells.items }
    {
        self.answer = self.interpreter.play_said(&ThisThread, Ok(line))?;
        self.text.clear();
        Ok(())
    }

    /// Does a frame of one queue, all or nothing, and keeps its answer without a text.
    ///
    /// Halted as `Interpreter::submit` is: then the last answer stays.
    #[tactic(auto, using(crate::proofs::OpenSceneLaws::has_halted))]
    pub fn submit(&mut self, queue: Queue) -> Result<(), Halt>
        ensures answer { OnOk result (Tells self.new.answer (interpreter_of self.new.interpreter)
            (queue_said (interpreter_of self.old.interpreter) queue)) }
        ensures text { OnOk result (string_bytes self.new.text ≡ []) }
        ensures halted { IfErr result (λ h. HasHalted h self.old self.new (queue_said (interpreter_of self.old.interpreter) queue)) }
        ensures cells { self.new.cells.items ≡ self.old.cells.items }
    {
        self.answer = self.interpreter.submit(&ThisThread, queue)?;
        self.text.clear();
        Ok(())
    }

    /// Drops the frame that is open, with its commands, and makes no call. It says whether there was one. The last
    /// answer stays, and so do the components of the next spawn. It takes no memory.
    pub fn drop_frame(&mut self) -> bool
        ensures open { result ≡ frame_is_open (interpreter_of self.old.interpreter) }
        ensures dropped { interpreter_of self.new.interpreter ≡ without_frame (interpreter_of self.old.interpreter) }
        ensures kept { KeepsAnswer self.old self.new × (self.new.cells.items ≡ self.old.cells.items) }
    {
        self.interpreter.drop_frame()
    }

    /// Says in words why the last line was bad (docs/SCRIPTS.md, "Bad lines"): they are the text of its answer then. It
    /// says whether the last line was bad; where it wasn't, the text stays.
    ///
    /// `AllocError` where the line was bad, and no memory was found: then the text stays too.
    pub fn explain(&mut self, alloc: Global) -> Result<bool, AllocError>
        ensures bad { IfOk result (λ b. b ≡ is_some (bad_in (said_of self.old.answer))) }
        ensures text { IfOk result (λ b. b ≡ false → string_bytes self.new.text ≡ string_bytes self.old.text) }
        ensures memory { OnErr result (is_some (bad_in (said_of self.old.answer)) ≡ true) }
        ensures same { OnErr result (string_bytes self.new.text ≡ string_bytes self.old.text) }
        ensures answer { self.new.answer ≡ self.old.answer }
        ensures interpreter { interpreter_of self.new.interpreter ≡ interpreter_of self.old.interpreter }
        ensures cells { self.new.cells.items ≡ self.old.cells.items }
    {
        let LineAnswer::Bad(reason) = &self.answer else {
            return Ok(false);
        };
        let text = format!(in alloc; "{reason}")?;
        self.text = text;
        Ok(true)
    }

    /// Puts the last answer into one line of JSON (docs/SHELL.md, "JSON"), as the text of its answer.
    ///
    /// `AllocError` where no memory was found: then the text stays.
    pub fn tell_json(&mut self, alloc: Global) -> Result<(), AllocError>
        ensures json { OnOk result (IsJsonOf self.old (string_bytes self.new.text)) }
        ensures same { OnErr result (string_bytes self.new.text ≡ string_bytes self.old.text) }
        ensures answer { self.new.answer ≡ self.old.answer }
        ensures interpreter { interpreter_of self.new.interpreter ≡ interpreter_of self.old.interpreter }
        ensures cells { self.new.cells.items ≡ self.old.cells.items }
    {
        let mut text = String::new(alloc);
        self.answer
            .write_json(alloc, self.interpreter.schema(), &mut text)?;
        self.text = text;
        Ok(())
    }

    /// Ends the setup, where it isn't over, and keeps the last answer.
    ///
    /// Halted as `Interpreter::end_setup` is.
    pub fn end_setup(&mut self) -> Result<(), Halt>
        ensures begun { OnOk result (interpreter_of self.new.interpreter ≡ begun (interpreter_of self.old.interpreter)) }
        ensures halted { IfErr result (λ h. (next : Reached)
            → interpreter_of self.new.interpreter ≡ halted h (interpreter_of self.old.interpreter) next) }
        ensures undone { IfErr result (λ h. h ≢ After) }
        ensures kept { KeepsAnswer self.old self.new × (self.new.cells.items ≡ self.old.cells.items) }
    {
        self.interpreter.end_setup()
    }
}
