//! A stream without a store.
use crate::keep::KeptWriter;
use crate::streams::send;
use crate::style::AnswerStyle;
use scene_interpreter::Interpreter;
use scene_session::LoneOwner;
use scene_streams::AppFault;
use std::convert::Infallible;
use std::io::Write;

/// A stream that takes the answers of a shell whose lines aren't kept.
#[derive(Drop)]
pub(crate) struct Unkept<W> {
    /// What takes the answers.
    pub(crate) writer: W,
}

impl<W: Write + Drop> KeptWriter for Unkept<W> {
    type Fault = Infallible;

    ghost use Rattle.std.specs.Prelude.{⊤};

    ghost meaning = { record { keeps = λ _ _. ⊤; contents = λ s. W.contents s.writer; begun = λ _ _ _ _. ⊤ } };

    fn begin(&mut self, _interpreter: &Interpreter<LoneOwner>, _style: AnswerStyle) {}

    fn keep(&mut self, _lines: &[u8]) -> Result<(), Infallible> {
        Ok(())
    }

    fn send(&mut self, answers: &[u8]) -> Result<(), AppFault> {
        send(&mut self.writer, answers)
    }
}
