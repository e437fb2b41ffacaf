//! The faults of scene files.
ghost use Rattle.std.specs.Prelude.{◌≡◌};
ghost use Rattle.scene_json_forms.specs.Fault.{file_number, file_name, of_read_error};
ghost use Rattle.scene_json_forms.specs.declared.fault.FileFault.TheVariants.{NoMemory, WriteFault};

use scene_kinds::Text;
use scene_streams::{ReadError, WriteError};
use std::alloc::{AllocError, AllocFailed};
use thiserror::Error;

/// Why a scene text wasn't read or written (docs/SCENE_FILES.md, "File faults").
#[derive(Debug, Drop, Error)]
#[error("fault {n} {name}", n = self.number(), name = self.name())]
pub enum FileFault {
    /// A growth of memory was refused.
    NoMemory,
    /// The parts make no valid world: the number of the first broken rule.
    BadWorld(u8),
    /// A record doesn't fit.
    BadRecord { frame: u64, delta: u64 },
    /// The text isn't JSON.
    NotJson,
    /// An object has a key that it may not have: its path, which ends in the key.
    UnknownKey(Text),
    /// A value is missing or isn't of its form: its path.
    BadField(Text),
    /// The version isn't read.
    BadVersion(u64),
    /// A read failed.
    ReadFault,
    /// A write failed, or took 0 bytes.
    WriteFault,
    /// The text is above its limits.
    TooLong,
}

/// What is read of a scene text, or why it wasn't read.
pub type FileResult<T> = Result<T, FileFault>;

impl FileFault {
    /// The fault's number, one for the whole product.
    pub fn number(&self) -> u8
        ensures { result ≡ file_number self.now }
    {
        match self {
            FileFault::NoMemory => 20,
            FileFault::BadWorld(_) => 40,
            FileFault::BadRecord { .. } => 41,
            FileFault::NotJson => 50,
            FileFault::UnknownKey(_) => 51,
            FileFault::BadField(_) => 52,
            FileFault::BadVersion(_) => 53,
            FileFault::ReadFault => 54,
            FileFault::WriteFault => 55,
            FileFault::TooLong => 56,
        }
    }

    /// The fault's name: that of the variant.
    pub fn name(&self) -> &'static str
        ensures { result.now ≡ file_name self.now }
    {
        match self {
            FileFault::NoMemory => "NoMemory",
            FileFault::BadWorld(_) => "BadWorld",
            FileFault::BadRecord { .. } => "BadRecord",
            FileFault::NotJson => "NotJson",
            FileFault::UnknownKey(_) => "UnknownKey",
            FileFault::BadField(_) => "BadField",
            FileFault::BadVersion(_) => "BadVersion",
            FileFault::ReadFault => "ReadFault",
            FileFault::WriteFault => "WriteFault",
            FileFault::TooLong => "TooLong",
        }
    }
}

impl From<AllocError> for FileFault {
    ghost from_gives = { λ _ fault. fault ≡ NoMemory };

    fn from(_error: AllocError) -> FileFault {
        FileFault::NoMemory
    }
}

/// What wasn't stored is dropped.
impl<T: Drop> From<AllocFailed<T>> for FileFault {
    ghost from_gives = { λ _ fault. fault ≡ NoMemory };

    fn from(_error: AllocFailed<T>) -> FileFault {
        FileFault::NoMemory
    }
}

impl From<ReadError> for FileFault {
    ghost from_gives = { λ error fault. fault ≡ of_read_error error };

    fn from(error: ReadError) -> FileFault {
        match error {
            ReadError::Fault => FileFault::ReadFault,
            ReadError::TooLong => FileFault::TooLong,
            ReadError::NoMemory => FileFault::NoMemory,
        }
    }
}

impl From<WriteError> for FileFault {
    ghost from_gives = { λ _ fault. fault ≡ WriteFault };

    fn from(_error: WriteError) -> FileFault {
        FileFault::WriteFault
    }
}
