//! The faults that end a run.
ghost use Rattle.std.specs.Prelude.{◌≡◌};
ghost use Rattle.scene_streams.specs.AppFault.{app_number, app_name, of_read_error};
ghost use Rattle.scene_streams.specs.declared.app_fault.AppFault.TheVariants.{WriteFault, NoMemory};

use crate::sink::WriteError;
use crate::source::ReadError;
use std::alloc::AllocError;
use thiserror::Error;

/// Why a run ended without all its output (docs/MODEL.md, "Faults"). With `WriteFault` a prefix of the
/// output is written, with the others nothing is.
#[derive(Clone, Copy, Debug, PartialEq, Eq, Error)]
#[error("fault {n} {name}", n = self.number(), name = self.name())]
pub enum AppFault {
    NoMemory,
    ReadFault,
    WriteFault,
    TooLong,
}

impl AppFault {
    /// The fault's number, one for the whole product.
    pub fn number(self) -> u8
        ensures { result ≡ app_number self }
    {
        match self {
            AppFault::NoMemory => 20,
            AppFault::ReadFault => 54,
            AppFault::WriteFault => 55,
            AppFault::TooLong => 56,
        }
    }

    /// The fault's name: that of the variant.
    pub fn name(self) -> &'static str
        ensures { result.now ≡ app_name self }
    {
        match self {
            AppFault::NoMemory => "NoMemory",
            AppFault::ReadFault => "ReadFault",
            AppFault::WriteFault => "WriteFault",
            AppFault::TooLong => "TooLong",
        }
    }
}

impl From<ReadError> for AppFault {
    ghost from_gives = { λ error fault. fault ≡ of_read_error error };

    fn from(error: ReadError) -> AppFault {
        match error {
            ReadError::Fault => AppFault::ReadFault,
            ReadError::TooLong => AppFault::TooLong,
            ReadError::NoMemory => AppFault::NoMemory,
        }
    }
}

impl From<WriteError> for AppFault {
    ghost from_gives = { λ _ fault. fault ≡ WriteFault };

    fn from(_error: WriteError) -> AppFault {
        AppFault::WriteFault
    }
}

impl From<AllocError> for AppFault {
    ghost from_gives = { λ _ fault. fault ≡ NoMemory };

    fn from(_error: AllocError) -> AppFault {
        AppFault::NoMemory
    }
}
