//! Why a store can't be used.
ghost use Rattle.std.specs.Prelude.{◌≡◌};
ghost use Rattle.scene_store.specs.Fault.{store_number, store_name, store_reason, open_reason, statement_fault, IsOfUse};
ghost use Rattle.scene_store.specs.Fault.{open_fault};
ghost use Rattle.scene_store.specs.declared.fault.StoreFault.TheVariants.{NoMemory};

use sqlite::{Error as SqlError, ErrorCode};
use std::alloc::AllocError;
use std::fmt;
use thiserror::Error;

/// Why a store's file can't be opened.
#[derive(Clone, Copy, Debug, PartialEq, Eq)]
pub enum OpenFault {
    /// No file has the name.
    NoFile,
    /// A file has the name that a new one was to have.
    FileThere,
    /// This user may not read or write the file, or make one beside it.
    NoRights,
    /// The file has another name too, a hard link, under which its log isn't found.
    HardLink,
    /// What has the name is no regular file: a folder, for one.
    NotAFile,
    /// The path is empty, a URI or `:memory:`.
    BadPath,
    /// SQLite left a journal beside the file, which only it can play back.
    HasJournal,
    /// The system gives another reason.
    Other,
}

impl OpenFault {
    /// The reason in words.
    pub fn reason(self) -> &'static str
        ensures { result.now ≡ open_reason self }
    {
        match self {
            OpenFault::NoFile => "there is no such file",
            OpenFault::FileThere => "there is such a file already",
            OpenFault::NoRights => "there are no rights to it, or to its folder",
            OpenFault::HardLink => "it has another name too, a hard link",
            OpenFault::NotAFile => "it isn't a file",
            OpenFault::BadPath => "no file can have this name",
            OpenFault::HasJournal => "SQLite left a journal beside it",
            OpenFault::Other => "the system doesn't open it",
        }
    }
}

/// Why a store can't be used (docs/MODEL.md, "Faults").
#[derive(Clone, Copy, Debug, PartialEq, Eq, Error)]
#[error("fault {n} {name}", n = self.number(), name = self.name())]
pub enum StoreFault {
    /// No memory was found.
    NoMemory,
    /// Another program has the file open.
    StoreInUse,
    /// The file isn't a store.
    NotAStore,
    /// The file's bytes aren't those that were written.
    StoreDamaged,
    /// The store is of a newer version.
    NewerStore,
    /// The file can't be opened, for this reason.
    StoreUnopened(OpenFault),
    /// The disk is full, or the lines are more than a row can take, a billion bytes.
    DiskFull,
    /// The disk failed. The store takes no more calls; another open may find it well.
    DiskFault,
}

impl StoreFault {
    /// The fault's number, one for the whole product.
    pub fn number(self) -> u8
        ensures { result ≡ store_number self }
    {
        match self {
            StoreFault::NoMemory => 20,
            StoreFault::StoreInUse => 60,
            StoreFault::NotAStore => 61,
            StoreFault::StoreDamaged => 62,
            StoreFault::NewerStore => 63,
            StoreFault::StoreUnopened(_) => 64,
            StoreFault::DiskFull => 65,
            StoreFault::DiskFault => 66,
        }
    }

    /// The fault's name: that of the variant.
    pub fn name(self) -> &'static str
        ensures { result.now ≡ store_name self }
    {
        match self {
            StoreFault::NoMemory => "NoMemory",
            StoreFault::StoreInUse => "StoreInUse",
            StoreFault::NotAStore => "NotAStore",
            StoreFault::StoreDamaged => "StoreDamaged",
            StoreFault::NewerStore => "NewerStore",
            StoreFault::StoreUnopened(_) => "StoreUnopened",
            StoreFault::DiskFull => "DiskFull",
            StoreFault::DiskFault => "DiskFault",
        }
    }

    /// The fault's cause in words, as said of the store's file.
    pub fn reason(self) -> &'static str
        ensures { result.now ≡ store_reason self }
    {
        match self {
            StoreFault::NoMemory => "no memory was found",
            StoreFault::StoreInUse => "another program has it open",
            StoreFault::NotAStore => "it isn't a store",
            StoreFault::StoreDamaged => "its bytes aren't those that were written",
            StoreFault::NewerStore => "it is a store of a newer version",
            StoreFault::StoreUnopened(why) => why.reason(),
            StoreFault::DiskFull => "the disk is full",
            StoreFault::DiskFault => "the disk failed",
        }
    }

    /// The fault that an error of a statement on a store is. Such a statement is refused for nothing else than the
    /// disk, memory and size, unless the database isn't what it was opened as.
    pub(crate) fn of(error: SqlError) -> StoreFault
        ensures value { result ≡ statement_fault error }
        ensures trouble { IsOfUse result }
    {
        match error {
            SqlError::SqliteFailure(ErrorCode::OutOfMemory) => StoreFault::NoMemory,
            SqlError::SqliteFailure(ErrorCode::DiskFull | ErrorCode::TooBig) =>
                StoreFault::DiskFull,
            SqlError::SqliteFailure(ErrorCode::SystemIoFailure | ErrorCode::Closed) =>
                StoreFault::DiskFault,
            _ => StoreFault::StoreDamaged,
        }
    }

    /// The fault that an error of an open is, where this is why the system doesn't open the file, if it doesn't.
    pub(crate) fn of_open(error: SqlError, why: OpenFault) -> StoreFault
        ensures { result ≡ open_fault error why }
    {
        match error {
            SqlError::SqliteFailure(ErrorCode::NotADatabase) => StoreFault::NotAStore,
            SqlError::SqliteFailure(ErrorCode::DatabaseBusy) => StoreFault::StoreInUse,
            SqlError::SqliteFailure(ErrorCode::CannotOpen) => StoreFault::StoreUnopened(why),
            other => StoreFault::of(other),
        }
    }
}

impl From<SqlError> for StoreFault {
    ghost from_gives = { λ error fault. fault ≡ statement_fault error };

    fn from(error: SqlError) -> StoreFault {
        StoreFault::of(error)
    }
}

impl From<AllocError> for StoreFault {
    ghost from_gives = { λ _ fault. fault ≡ NoMemory };

    fn from(_error: AllocError) -> StoreFault {
        StoreFault::NoMemory
    }
}

/// A fault and the path of the file that it is of. `Display` says both, and the cause:
/// `fault 64 StoreUnopened "level.db": there is no such file`.
#[derive(Clone, Copy)]
pub struct StoreFileFault<'a> {
    pub path: &'a str,
    pub fault: StoreFault,
}

impl<'a> fmt::Display for StoreFileFault<'a> {
    fn fmt<W: fmt::Write>(&self, f: &mut fmt::Formatter<W>) -> fmt::Result {
        let (path, fault, reason) = (self.path, self.fault, self.fault.reason());
        write!(f, "{fault} {path:?}: {reason}")
    }
}
