//! A store and a stream in one.
use crate::keep::KeptWriter;
use crate::streams::send;
use crate::style::AnswerStyle;
use scene_interpreter::Interpreter;
use scene_session::LoneOwner;
use scene_streams::{AppFault, Keep};
use std::io::Write;

/// A store beside the stream that takes the answers of a shell on it.
#[derive(Drop)]
pub struct StoreWriter<K, W> {
    /// What keeps the lines.
    pub store: K,
    /// What takes the answers.
    pub writer: W,
}

impl<K: Keep + Drop, W: Write + Drop> KeptWriter for StoreWriter<K, W> {
    type Fault = K::Fault;

    ghost use Rattle.scene_shell.specs.Kept.{both_mean};

    ghost meaning = { both_mean K.keeps W.contents };

    fn begin(&mut self, _interpreter: &Interpreter<LoneOwner>, _style: AnswerStyle) {}

    fn keep(&mut self, lines: &[u8]) -> Result<(), K::Fault> {
        self.store.keep(lines)
    }

    fn send(&mut self, answers: &[u8]) -> Result<(), AppFault> {
        send(&mut self.writer, answers)
    }
}
