//! The streams of a shell.
ghost use Rattle.std.specs.Prelude.{◌≡◌, IfErr, OnOk, IfSome};
ghost use Rattle.std.specs.Io.{StopsAt};
ghost use Rattle.std.specs.Io.KnownBytes.{Appends, Consumes};
ghost use Rattle.std.specs.Io.BufRead.{DropsThrough, take_through};
ghost use Rattle.scene_streams.specs.declared.app_fault.AppFault.TheVariants.{WriteFault};
ghost use Rattle.scene_shell.specs.Waits.{IsUnread};

use crate::bad_shell_line::BadShellLine;
use scene_interpreter::Halt;
use scene_streams::AppFault;
use std::io::{BufRead, ErrorKind, Write};

/// Says on a stream of errors why a line is bad. A stream that can't be written changes nothing.
pub(crate) fn tell_bad<E: Write>(errors: &mut E, number: u64, reason: &BadShellLine) {
    let _told = writeln!(errors, "scene: line {number}: {reason}");
}

/// Says on a stream of errors what want of memory left of a line.
pub(crate) fn tell_halt<E: Write>(errors: &mut E, number: u64, halt: Halt) {
    let _told = writeln!(errors, "scene: line {number}: {halt}");
}

/// Writes an answer, and hands it on at once.
pub(crate) fn send<W: Write>(writer: &mut W, answer: &[u8]) -> Result<(), AppFault>
    ensures sent { OnOk result (Appends (W.contents writer.old) (W.contents writer.new) answer.now) }
    ensures fault { IfErr result (λ f. f ≡ WriteFault) }
{
    match writer.write_all(answer) {
        Ok(()) => {}
        Err(_) => return Err(AppFault::WriteFault),
    }
    match writer.flush() {
        Ok(()) => Ok(()),
        Err(_) => Err(AppFault::WriteFault),
    }
}

/// The next line of a reader, with its line break, in the place of the one before; it is empty at the end. After an
/// error it is what was read of the line.
pub(crate) fn read_line<B: BufRead>(reader: &mut B, line: &mut Vec<u8>) -> Result<(), AppFault>
    ensures line { OnOk result (IfSome (B.remaining reader.old) (λ rest. line.new.items ≡ take_through 10 rest)) }
    ensures rest { OnOk result (DropsThrough (B.remaining reader.old) (B.remaining reader.new) 10) }
    ensures part { StopsAt line.new.items 10 }
    ensures taken { Consumes (B.remaining reader.old) (B.remaining reader.new) line.new.items }
    ensures fault { IfErr result IsUnread }
{
    line.clear();
    match reader.read_until(b'\n', line) {
        Ok(_) => Ok(()),
        Err(error) => match error.kind() {
            ErrorKind::OutOfMemory => Err(AppFault::NoMemory),
            _ => Err(AppFault::ReadFault),
        },
    }
}
