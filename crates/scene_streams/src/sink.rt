//! Writing all of some bytes.
ghost use Rattle.std.specs.Prelude.{◌≡◌, ◌≢◌, ◌<◌, ◌≤◌, ◌⊎◌, true, false, [], length, take, Ok, IfOk, IsErr, OnOk, OnErr};
ghost use Rattle.std.specs.Io.KnownBytes.{Appends, Keeps};
ghost use Rattle.scene_streams.specs.Known.{AppendsPrefix};

use std::io;
use std::io::Write;
use thiserror::Error;

/// That a write failed or took no byte, now or before (docs/MODEL.md, "Faults").
#[derive(Clone, Copy, Debug, PartialEq, Eq, Error)]
#[error("a write failed or took no byte")]
pub struct WriteError;

/// How many bytes an answer of the writer says that it took.
fn taken_of(answer: io::Result<usize>) -> Result<usize, WriteError>
    ensures some { IfOk answer (λ n. 0 < n → result ≡ Ok n) }
    ensures nothing { IfOk answer (λ n. n ≡ 0 → IsErr result) }
    ensures failed { OnErr answer (IsErr result) }
{
    match answer {
        Ok(n) if n > 0 => Ok(n),
        _ => Err(WriteError),
    }
}

/// A writer, and whether a call of it failed or took no byte; after that it is written to no more.
#[derive(Drop, Debug)]
pub struct Sink<W> {
    writer: W,
    has_failed: bool,
}

impl<W> Sink<W> {
    ghost use Rattle.scene_streams.specs.Sink.{writer_of, write_failed};

    /// A sink of which no call failed.
    pub fn new(writer: W) -> Self
        ensures writer { writer_of result ≡ writer }
        ensures mark { write_failed result ≡ false }
    {
        Sink {
            writer,
            has_failed: false,
        }
    }

    /// Whether a call of the writer failed or took no byte.
    pub fn has_failed(&self) -> bool
        ensures { result ≡ write_failed self.now }
    {
        self.has_failed
    }

    /// The writer, as it stands.
    pub fn get_ref(&self) -> &W
        ensures { result.now ≡ writer_of self.now }
    {
        &self.writer
    }

    /// The writer, without the mark.
    pub fn into_inner(self) -> W
        ensures { result ≡ writer_of self }
    {
        self.writer
    }
}

impl<W: Write> Sink<W> {
    ghost use Rattle.scene_streams.specs.Sink.{writer_of, write_failed};

    /// One call of the writer: how many of the bytes it took.
    fn write_some(&mut self, bytes: &[u8]) -> Result<usize, WriteError>
        requires unmarked { write_failed self.old ≡ false }
        ensures some { IfOk result (λ n. 0 < n) }
        ensures bound { IfOk result (λ n. n ≤ length bytes.now) }
        ensures ok { IfOk result (λ n. Appends (W.contents (writer_of self.old)) (W.contents (writer_of self.new)) (take n bytes.now)) }
        ensures err { OnErr result (Keeps (W.contents (writer_of self.old)) (W.contents (writer_of self.new))) }
        ensures mark { OnErr result (write_failed self.new ≡ true) }
        ensures unmarked { OnOk result (write_failed self.new ≡ false) }
    {
        let taken = taken_of(self.writer.write(bytes));
        self.has_failed = taken.is_err();
        taken
    }

    /// Writes all the bytes.
    ///
    /// Refused where a call of the writer fails or takes no byte, which is marked, or did so before. So where
    /// nothing failed before, it isn't refused for no bytes. After a refusal a prefix of the bytes is written, and
    /// nothing of them where a call failed before. It costs a call of the writer for each part that it takes.
    pub fn write_all(&mut self, bytes: &[u8]) -> Result<(), WriteError>
        ensures ok { OnOk result (Appends (W.contents (writer_of self.old)) (W.contents (writer_of self.new)) bytes.now) }
        ensures prefix { OnErr result (AppendsPrefix (W.contents (writer_of self.old)) (W.contents (writer_of self.new)) bytes.now) }
        ensures mark { OnErr result (write_failed self.new ≡ true) }
        ensures unmarked { OnOk result (write_failed self.new ≡ false) }
        ensures stays { write_failed self.old ≡ true → self.new ≡ self.old }
        ensures some { OnErr result ((bytes.now ≢ []) ⊎ (write_failed self.old ≡ true)) }
    {
        if self.has_failed {
            return Err(WriteError);
        }
        let mut written = 0;
        while written < bytes.len() {
            written += self.write_some(&bytes[written..])?;
        }
        Ok(())
    }
}
