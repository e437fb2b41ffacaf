//! A copy of a store.
use crate::fault::{OpenFault, StoreFault};
use crate::file_lines::{FileLines, connection, lines_at};
use crate::look::{beside, stands, unopened};
use crate::store::Store;
use sqlite::Unknown;
use std::fs::{self, OpenOptions};
use std::os::unix::fs::{OpenOptionsExt, PermissionsExt};

/// A fault of a backup, and of which of the two files it is.
#[derive(Clone, Copy, Debug, PartialEq, Eq)]
pub enum BackupFault {
    /// The store that was to be copied. No copy is made.
    Store(StoreFault),
    /// The file that the copy was to be. What was made of it is removed.
    Copy(StoreFault),
}

/// Makes an empty file of this mode where nothing stands, nor a log or a journal of it.
fn make_empty(rt: &HostRuntime, path: &str, mode: u32) -> Result<(), StoreFault> {
    let (log, journal) = (beside(rt, path, "-wal")?, beside(rt, path, "-journal")?);
    if stands(rt, log.as_str())? || stands(rt, journal.as_str())? {
        return Err(StoreFault::StoreUnopened(OpenFault::FileThere));
    }
    let mut options = OpenOptions::new();
    match options
        .read(true)
        .write(true)
        .create_new(true)
        .mode(mode & 0o777)
        .open(rt, path)
    {
        Ok(_) => Ok(()),
        Err(error) => Err(unopened(error)),
    }
}

/// Writes the text of a store into an empty file, as a store of its own.
fn write_copy(rt: &HostRuntime, path: &str, text: &[u8]) -> Result<(), StoreFault> {
    let conn = connection(rt, path, Unknown)?;
    let copy: FileLines<Unknown> = Store::filled(conn, text)?;
    copy.close(rt, path)
}

/// Removes a file that was to be a copy, and its log.
fn remove_copy(rt: &HostRuntime, path: &str) -> Result<(), StoreFault> {
    let log = beside(rt, path, "-wal")?;
    let _removed = fs::remove_file(rt, path);
    let _removed = fs::remove_file(rt, log.as_str());
    Ok(())
}

/// The mode of a file, by which its copy is made.
fn mode_of(rt: &HostRuntime, path: &str) -> Result<u32, StoreFault> {
    match fs::metadata(rt, path) {
        Ok(found) => Ok(found.permissions().mode()),
        Err(error) => Err(unopened(error)),
    }
}

/// Makes a file with a copy of these lines where nothing stands.
fn make_copy(rt: &HostRuntime, path: &str, mode: u32, text: &[u8]) -> Result<(), StoreFault> {
    make_empty(rt, path, mode)?;
    match write_copy(rt, path, text) {
        Ok(()) => Ok(()),
        Err(fault) => {
            let _removed = remove_copy(rt, path);
            Err(fault)
        }
    }
}

/// Makes a store of these lines in a file of its own, where nothing stands, with the mode of a file that is there. The
/// lines begin with a head, and the store is of its version; it has no log beside it.
///
/// - `Store`: as `lines_at` says of the file that is there.
/// - `Copy`: `StoreUnopened` where a file has the name already, or the log or the journal of one, or none can be made;
///   `NotAStore` or `NewerStore` where the lines begin otherwise; `DiskFull`, `DiskFault`, `StoreDamaged` or `NoMemory`
///   where it couldn't be written. What was made of it is removed.
pub fn make_store(
    rt: &HostRuntime,
    like: &str,
    path: &str,
    text: &[u8],
) -> Result<(), BackupFault> {
    let mode = match mode_of(rt, like) {
        Ok(mode) => mode,
        Err(fault) => return Err(BackupFault::Store(fault)),
    };
    match make_copy(rt, path, mode, text) {
        Ok(()) => Ok(()),
        Err(fault) => Err(BackupFault::Copy(fault)),
    }
}

/// Makes a copy of the store in the file at a path: a store in a file of its own, which keeps the same lines, is of the
/// same version and has no log beside it. A shell may have the store open, and goes on; the copy has each line that was
/// answered before the call. It is refused as `make_store` is.
pub fn back_up(rt: &HostRuntime, path: &str, copy: &str) -> Result<(), BackupFault> {
    match lines_at(rt, path) {
        Ok(lines) => make_store(rt, path, copy, lines.text.as_slice()),
        Err(fault) => Err(BackupFault::Store(fault)),
    }
}
