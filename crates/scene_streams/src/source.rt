//! Reading to the end, within a limit of bytes and of turns.
ghost use Rattle.std.specs.Prelude.{◌≡◌, ◌≢◌, ◌+◌, ◌<◌, ◌≤◌, ◌⊎◌, ◌↔◌, true, false, length, vec_len, Ok, Err, IfOk, IfErr, OnOk, OnErr, IfSome};
ghost use Rattle.std.specs.IoError.{error_kind};
ghost use Rattle.std.specs.Io.KnownBytes.{IsAtEnd};
ghost use Rattle.scene_streams.specs.Known.{ConsumesSome};
ghost use Rattle.scene_streams.specs.Limits.{most_bytes, most_turns};
ghost use Rattle.scene_streams.specs.declared.source.ReadError.TheVariants.{Fault, TooLong, NoMemory};
ghost use Rattle.scene_streams.specs.declared.source.Turn.TheVariants.{End, Bytes, Again};

use std::alloc::{AllocError, Global};
use std::io;
use std::io::{ErrorKind, Read};
use thiserror::Error;

/// The most bytes that a source gives in one reading (docs/SCRIPTS.md, "Exit status").
pub const MOST_BYTES: usize = 67_108_864;

/// The most calls that a source makes of its reader, those included that were interrupted (docs/SCRIPTS.md, "Exit
/// status").
pub const MOST_TURNS: u32 = 1_048_576;

const CHUNK: usize = 8192;

/// Why a reader wasn't read to its end (docs/MODEL.md, "Faults").
#[derive(Clone, Copy, Debug, PartialEq, Eq, Error)]
pub enum ReadError {
    /// A call of the reader failed, now or before, other than by an interruption.
    #[error("a read failed")]
    Fault,
    /// There were more than `MOST_BYTES` bytes, or no turn was left before the end.
    #[error("more than {} bytes, or more than {} reads", MOST_BYTES, MOST_TURNS)]
    TooLong,
    /// A growth of memory was refused.
    #[error("no memory")]
    NoMemory,
}

impl From<AllocError> for ReadError {
    ghost from_gives = { λ _ e. e ≡ NoMemory };

    fn from(_error: AllocError) -> ReadError {
        ReadError::NoMemory
    }
}

/// What one turn of a reader gave.
#[derive(Clone, Copy, Debug, PartialEq, Eq)]
enum Turn {
    End,
    Bytes(usize),
    /// The call was interrupted, and is to be made again.
    Again,
}

/// What an answer of the reader means, where there is room for so many bytes.
fn turn_of(answer: io::Result<usize>, room: usize) -> Result<Turn, ReadError>
    ensures end { answer ≡ Ok 0 → result ≡ Ok End }
    ensures bytes { IfOk answer (λ n. 0 < n → n ≤ room → result ≡ Ok (Bytes n)) }
    ensures long { IfOk answer (λ n. room < n → result ≡ Err TooLong) }
    ensures failed { IfErr answer (λ e. ((error_kind e ≡ ErrorKind.Interrupted) × (result ≡ Ok Again))
        ⊎ ((error_kind e ≢ ErrorKind.Interrupted) × (result ≡ Err Fault))) }
{
    match answer {
        Ok(0) => Ok(Turn::End),
        Ok(n) => {
            if n <= room {
                Ok(Turn::Bytes(n))
            } else {
                Err(ReadError::TooLong)
            }
        }
        Err(error) => {
            if error.kind() == ErrorKind::Interrupted {
                Ok(Turn::Again)
            } else {
                Err(ReadError::Fault)
            }
        }
    }
}

/// A reader that is read in turns, each one call of it. It keeps how many turns are left, and whether one of them
/// failed; after that it reads no more.
#[derive(Drop, Debug)]
pub struct Source<R> {
    reader: R,
    turns: u32,
    has_failed: bool,
}

impl<R> Source<R> {
    ghost use Rattle.scene_streams.specs.Source.{reader_of, turns_left, read_failed};

    /// A source with all its `MOST_TURNS` turns left, none of which failed.
    pub fn new(reader: R) -> Self
        ensures reader { reader_of result ≡ reader }
        ensures turns { turns_left result ≡ most_turns }
        ensures mark { read_failed result ≡ false }
    {
        Source {
            reader,
            turns: MOST_TURNS,
            has_failed: false,
        }
    }

    /// Whether a call of the reader failed, other than by an interruption.
    pub fn has_failed(&self) -> bool
        ensures { result ≡ read_failed self.now }
    {
        self.has_failed
    }

    /// How many more calls of the reader the source makes.
    pub fn turns_left(&self) -> u32
        ensures { result ≡ turns_left self.now }
    {
        self.turns
    }

    /// The reader, as it stands.
    pub fn get_ref(&self) -> &R
        ensures { result.now ≡ reader_of self.now }
    {
        &self.reader
    }

    /// The reader, without what the source kept of it.
    pub fn into_inner(self) -> R
        ensures { result ≡ reader_of self }
    {
        self.reader
    }
}

impl<R: Read> Source<R> {
    ghost use Rattle.scene_streams.specs.Read.{IsRead};
    ghost use Rattle.scene_streams.specs.Source.{reader_of, turns_left, read_failed};
    ghost use Rattle.scene_streams.specs.Turns.{TurnGives};

    /// One call of the reader. The bytes that it gave stand at the front of the chunk.
    fn turn(&mut self, chunk: &mut [u8], room: usize) -> Result<Turn, ReadError>
        requires some_left { 0 < turns_left self.old }
        requires unmarked { read_failed self.old ≡ false }
        requires place { 0 < length chunk.old }
        ensures spent { turns_left self.new + 1 ≡ turns_left self.old }
        ensures mark { (result ≡ Err Fault) ↔ (read_failed self.new ≡ true) }
        ensures size { length chunk.new ≡ length chunk.old }
        ensures bytes { TurnGives (R.remaining (reader_of self.old)) (R.remaining (reader_of self.new)) chunk.new room result }
    {
        self.turns -= 1;
        let turn = turn_of(self.reader.read(chunk), room);
        self.has_failed = turn == Err(ReadError::Fault);
        turn
    }

    /// All the bytes of the reader, from where it stands. A call that is interrupted is made again, and counts as
    /// a turn.
    ///
    /// Refused: `Fault` where a call of the reader fails, which is marked, or failed before, and then the source
    /// stays as it is; `TooLong` where more than `MOST_BYTES` bytes come, or the turns run out before the end;
    /// `NoMemory`. After a refusal the reader has given some of its bytes, which are lost. It costs the bytes read
    /// and the turns taken.
    pub fn read_all(&mut self, alloc: Global) -> Result<Vec<u8>, ReadError>
        ensures all { IfOk result (λ v. IfSome (R.remaining (reader_of self.old)) (λ bytes. v.items ≡ bytes)) }
        ensures within { IfOk result (λ v. vec_len v ≤ most_bytes) }
        ensures read { IsRead R.remaining self.old self.new result Fault TooLong }
        ensures spent { turns_left self.new ≤ turns_left self.old }
        ensures some { OnErr result (ConsumesSome (R.remaining (reader_of self.old)) (R.remaining (reader_of self.new))) }
    {
        if self.has_failed {
            return Err(ReadError::Fault);
        }
        let mut bytes = Vec::new(alloc);
        let mut chunk = [0u8; CHUNK];
        'turns: while self.turns > 0 {
            match self.turn(&mut chunk, MOST_BYTES - bytes.len())? {
                Turn::End => return Ok(bytes),
                Turn::Bytes(n) => bytes.extend_from_slice(&chunk[..n])?,
                Turn::Again => {}
            }
        }
        Err(ReadError::TooLong)
    }
}
