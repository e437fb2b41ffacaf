//! What stands at a path, looked at without a change of it.
use crate::fault::{OpenFault, StoreFault};
use crate::snapshot::Snapshot;
use std::fs::{self, File, OpenOptions};
use std::io::{self, ErrorKind, Read, Seek, SeekFrom};
use std::os::unix::fs::MetadataExt;
use std::path::PathBuf;

/// The length of a log's header.
const LOG_HEADER: usize = 32;

/// How often files are read again that change while they are read.
const TRIES: usize = 1000;

/// The store's fault where the system doesn't open a file.
pub(crate) fn unopened(error: io::Error) -> StoreFault {
    match error.kind() {
        ErrorKind::OutOfMemory => StoreFault::NoMemory,
        ErrorKind::NotFound => StoreFault::StoreUnopened(OpenFault::NoFile),
        ErrorKind::PermissionDenied | ErrorKind::ReadOnlyFilesystem => StoreFault::StoreUnopened(
            OpenFault::NoRights,
        ),
        ErrorKind::IsADirectory | ErrorKind::NotADirectory => StoreFault::StoreUnopened(
            OpenFault::NotAFile,
        ),
        ErrorKind::AlreadyExists => StoreFault::StoreUnopened(OpenFault::FileThere),
        _ => StoreFault::StoreUnopened(OpenFault::Other),
    }
}

/// The store's fault where the system doesn't read a file that is open.
fn unread(error: io::Error) -> StoreFault {
    if error.kind() == ErrorKind::OutOfMemory {
        StoreFault::NoMemory
    } else {
        StoreFault::DiskFault
    }
}

/// The path of a file beside another, whose name ends so.
pub(crate) fn beside(rt: &HostRuntime, path: &str, ending: &str) -> Result<String, StoreFault> {
    Ok(format!(in rt.alloc(); "{path}{ending}")?)
}

/// Whether something stands at a path.
pub(crate) fn stands(rt: &HostRuntime, path: &str) -> Result<bool, StoreFault> {
    match fs::symlink_metadata(rt, path) {
        Ok(_) => Ok(true),
        Err(error) if error.kind() == ErrorKind::NotFound => Ok(false),
        Err(error) => Err(unopened(error)),
    }
}

/// Finds that a regular file with one name stands at a path that has no link in it.
fn check_file(rt: &HostRuntime, path: &str) -> Result<(), StoreFault> {
    match fs::symlink_metadata(rt, path) {
        Ok(found) if !found.is_file() => Err(StoreFault::StoreUnopened(OpenFault::NotAFile)),
        Ok(found) if found.nlink() != 1 => Err(StoreFault::StoreUnopened(OpenFault::HardLink)),
        Ok(_) => Ok(()),
        Err(error) => Err(unopened(error)),
    }
}

/// Finds that no journal of SQLite has to be played back: one that is missing, is empty or begins with a zero hasn't.
fn check_journal(rt: &HostRuntime, path: &str) -> Result<(), StoreFault> {
    let journal = beside(rt, path, "-journal")?;
    if !stands(rt, journal.as_str())? {
        return Ok(());
    }
    check_file(rt, journal.as_str())?;
    let mut first = [0];
    let mut file = fs::open(rt, journal.as_str()).map_err(unopened)?;
    match file.read(&mut first) {
        Ok(1) if first[0] != 0 => Err(StoreFault::StoreUnopened(OpenFault::HasJournal)),
        Ok(_) => Ok(()),
        Err(error) => Err(unread(error)),
    }
}

/// Whether the database would take the path for something else than a file's.
fn is_no_file_name(path: &str) -> bool {
    path.is_empty() || path == ":memory:" || path.starts_with("file:")
}

/// The path of a store's file with no link in it. The file is regular, and has one name and no journal.
///
/// - `StoreUnopened`: it isn't so, or no file is there.
/// - `NoMemory`: no memory was found.
pub(crate) fn found(rt: &HostRuntime, path: &str) -> Result<PathBuf, StoreFault> {
    if is_no_file_name(path) {
        return Err(StoreFault::StoreUnopened(OpenFault::BadPath));
    }
    let real = fs::canonicalize(rt, path).map_err(unopened)?;
    check_file(rt, real.as_str())?;
    check_journal(rt, real.as_str())?;
    Ok(real)
}

/// Why a file of a store isn't opened to be written.
fn why_unwritten(rt: &HostRuntime, path: &str) -> Result<(), StoreFault> {
    check_file(rt, path)?;
    match OpenOptions::new().read(true).write(true).open(rt, path) {
        Ok(_) => Ok(()),
        Err(error) => Err(unopened(error)),
    }
}

/// Finds why a store at a path, which the database didn't open, can't be opened.
fn check_writable(rt: &HostRuntime, path: &str) -> Result<(), StoreFault> {
    let real = found(rt, path)?;
    why_unwritten(rt, real.as_str())?;
    let log = beside(rt, real.as_str(), "-wal")?;
    if stands(rt, log.as_str())? {
        why_unwritten(rt, log.as_str())
    } else {
        // It is the log, which is made first, that couldn't be made.
        Err(StoreFault::StoreUnopened(OpenFault::NoRights))
    }
}

/// Why a store at a path can't be opened.
pub(crate) fn why_unopened(rt: &HostRuntime, path: &str) -> OpenFault {
    match check_writable(rt, path) {
        Err(StoreFault::StoreUnopened(why)) => why,
        _ => OpenFault::Other,
    }
}

/// All bytes of a file.
fn whole(rt: &HostRuntime, file: &mut File) -> Result<Vec<u8>, StoreFault> {
    let mut bytes = Vec::new(rt.alloc());
    file.seek(SeekFrom::Start(0)).map_err(unread)?;
    file.read_to_end(&mut bytes).map_err(unread)?;
    Ok(bytes)
}

/// All bytes of a log; none where there is no log.
fn whole_log(rt: &HostRuntime, path: &str) -> Result<Vec<u8>, StoreFault> {
    if !stands(rt, path)? {
        return Ok(Vec::new(rt.alloc()));
    }
    check_file(rt, path)?;
    let mut file = fs::open(rt, path).map_err(unopened)?;
    whole(rt, &mut file)
}

/// Whether two logs have the same header, so that the second is the first, or goes on from it.
fn goes_on(first: &[u8], second: &[u8]) -> bool {
    let length = first.len().min(LOG_HEADER);
    second.starts_with(&first[..length])
}

/// What the two files hold at one moment; nothing where they changed while they were read.
///
/// The file is read twice, and between the two the log. Where it reads alike, nothing was written into it in between,
/// and where the log's header stays, the log was only added to. So the file and the log that was read belong together:
/// what was being added to the log is no commit yet.
fn read_once(
    rt: &HostRuntime,
    file: &mut File,
    log_path: &str,
) -> Result<Option<Snapshot>, StoreFault> {
    let db = whole(rt, file)?;
    let log = whole_log(rt, log_path)?;
    let again = whole(rt, file)?;
    let later = whole_log(rt, log_path)?;
    let is_one = db.as_slice() == again.as_slice() && goes_on(log.as_slice(), later.as_slice());
    Ok(if is_one {
        Some(Snapshot { log, db })
    } else {
        None
    })
}

/// What the two files of a store hold, of which nothing is changed. Another program may have them open, and write.
///
/// - `StoreUnopened`: the file isn't there, or can't be read.
/// - `StoreInUse`: another program wrote into the files each time that they were read.
/// - `DiskFault`: the disk failed.
/// - `NoMemory`: no memory was found.
pub(crate) fn look(rt: &HostRuntime, path: &str) -> Result<Snapshot, StoreFault> {
    let real = found(rt, path)?;
    let log_path = beside(rt, real.as_str(), "-wal")?;
    let mut file = fs::open(rt, real.as_str()).map_err(unopened)?;
    for _ in 0..TRIES {
        if let Some(snapshot) = read_once(rt, &mut file, log_path.as_str())? {
            return Ok(snapshot);
        }
    }
    Err(StoreFault::StoreInUse)
}
