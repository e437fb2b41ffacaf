//! What keeps the lines of a shell and writes its answers.
use crate::style::AnswerStyle;
use scene_interpreter::Interpreter;
use scene_session::LoneOwner;
use scene_streams::AppFault;
use std::alloc::Global;

/// What keeps the lines of a shell for good and writes its answers: those of lines that are kept alone (docs/SHELL.md,
/// "A store"). A shell on it has no other way to write an answer.
///
/// The `meaning` that contracts use: `keeps` says that these are the bytes of all lines that are kept, and `contents`
/// gives what is written, where that is known. `begun` says which shell it is at: what it was when the shell began, the
/// interpreter before its first line, and the style of its answers. It may say less, as that of a writer that has no
/// notes of them; each call keeps what it says.
pub trait KeptWriter {
    /// Why lines weren't kept.
    type Fault: Drop;

    ghost use Rattle.std.specs.Prelude.{◌≡◌, OnOk, IfErr};
    ghost use Rattle.std.specs.Io.KnownBytes.{Appends, Keeps};
    ghost use Rattle.scene_streams.specs.declared.app_fault.AppFault.TheVariants.{WriteFault};
    ghost use Rattle.scene_interpreter.specs.Interpreter.{interpreter_of};
    ghost use Rattle.scene_streams.specs.Keep.{Grows, StaysKept};
    ghost use Rattle.scene_shell.specs.Kept.{Continues, MaySend, Meaning};

    ghost meaning: { Meaning Self };

    /// A shell begins, which answers by this interpreter in this style.
    fn begin(&mut self, interpreter: &Interpreter<LoneOwner>, style: AnswerStyle)
        ensures begun { meaning.begun self.new self.new (interpreter_of interpreter.now) style }
        ensures kept { StaysKept meaning.keeps self.old self.new }
        ensures written { meaning.contents self.new ≡ meaning.contents self.old };

    /// Keeps lines, each with its line break, behind those that are kept. Where it gives an error nothing says which
    /// are kept.
    fn keep(&mut self, lines: &[u8]) -> Result<(), Self::Fault>
        ensures kept { OnOk result (Grows meaning.keeps self.old self.new lines.now) }
        ensures unsaid { Keeps (meaning.contents self.old) (meaning.contents self.new) }
        ensures begun { Continues meaning self.old self.new };

    /// Writes answers behind those that were written, and hands them on at once. What the lines of all of them have to
    /// keep is kept.
    ///
    /// `WriteFault` where they weren't written whole.
    fn send(&mut self, answers: &[u8]) -> Result<(), AppFault>
        requires { MaySend meaning self.old answers.now }
        ensures sent { OnOk result (Appends (meaning.contents self.old) (meaning.contents self.new) answers.now) }
        ensures fault { IfErr result (λ f. f ≡ WriteFault) }
        ensures kept { StaysKept meaning.keeps self.old self.new }
        ensures begun { Continues meaning self.old self.new };
}
