//! The open scene: an interpreter and its last answer.
ghost use Rattle.std.specs.Prelude.{◌≡◌, ◌++◌, ◌∷◌, [], OnErr, OnOk, string_bytes};
ghost use Rattle.scene_interpreter.specs.Interpreter.{interpreter_of, lone_interpreter};
ghost use Rattle.scene_interpreter.specs.declared.answer.LineAnswer.TheVariants.{Nothing};

use scene_interpreter::{Interpreter, InterpreterSettings, LineAnswer};
use scene_kinds::Value;
use scene_session::LoneOwner;
use std::alloc::{AllocError, Global};
use std::mem;

/// An interpreter without a lock, its last answer, the text of that answer where one was asked for, and the components
/// that the next spawn is given.
#[derive(Drop)]
pub struct OpenScene {
    pub(crate) interpreter: Interpreter<LoneOwner>,
    pub(crate) answer: LineAnswer,
    pub(crate) text: String,
    pub(crate) cells: Vec<(u8, Value)>,
}

impl OpenScene {
    /// The open scene before its first line. Its calls are counted in 64 bits, and as many as that can be made. It
    /// takes no memory.
    pub fn new(alloc: Global) -> Self
        ensures interpreter { interpreter_of result.interpreter ≡ lone_interpreter 1048576 18446744073709551615 }
        ensures answer { result.answer ≡ Nothing }
        ensures text { string_bytes result.text ≡ [] }
        ensures cells { result.cells.items ≡ [] }
    {
        OpenScene {
            interpreter: Interpreter::alone(alloc, InterpreterSettings::unlimited()),
            answer: LineAnswer::Nothing,
            text: String::new(alloc),
            cells: Vec::new(alloc),
        }
    }

    /// The last answer. It takes no memory.
    pub fn answer(&self) -> &LineAnswer
        ensures { result.now ≡ self.now.answer }
    {
        &self.answer
    }

    /// The text of the last answer, empty where none was asked for. It takes no memory.
    pub fn text(&self) -> &str
        ensures { result.now ≡ string_bytes self.now.text }
    {
        self.text.as_str()
    }

    /// Gives the next spawn a component of a kind, behind those that it was given before.
    ///
    /// `AllocError` where no memory was found: then it is given none more.
    pub fn give(&mut self, kind: u8, value: Value) -> Result<(), AllocError>
        ensures given { OnOk result (self.new.cells.items ≡ self.old.cells.items ++ (kind, value) ∷ []) }
        ensures same { OnErr result (self.new.cells.items ≡ self.old.cells.items) }
        ensures answer { self.new.answer ≡ self.old.answer }
        ensures text { string_bytes self.new.text ≡ string_bytes self.old.text }
        ensures interpreter { interpreter_of self.new.interpreter ≡ interpreter_of self.old.interpreter }
    {
        self.cells.push((kind, value))?;
        Ok(())
    }

    /// Takes the components that the next spawn was given, so that it has none. It takes no memory.
    pub fn take_cells(&mut self, alloc: Global) -> Vec<(u8, Value)>
        ensures taken { result.items ≡ self.old.cells.items }
        ensures left { self.new.cells.items ≡ [] }
        ensures answer { self.new.answer ≡ self.old.answer }
        ensures text { string_bytes self.new.text ≡ string_bytes self.old.text }
        ensures interpreter { interpreter_of self.new.interpreter ≡ interpreter_of self.old.interpreter }
    {
        mem::replace(&mut self.cells, Vec::new(alloc))
    }
}
