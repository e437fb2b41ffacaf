//! A store in a file.
ghost use Rattle.std.specs.Prelude.{◌≡◌, IfOk};
ghost use Rattle.sqlite.specs.Files.{IsOpened, file_state, over_files};
ghost use Rattle.sqlite.specs.Start.{FindsIn};
ghost use Rattle.sqlite.specs.State.{HasCleanDisk};
ghost use Rattle.sqlite.specs.WalFiles.{image_at};
ghost use Rattle.sqlite_wal.specs.Recovery.{Image};
ghost use Rattle.scene_store.specs.Files.{FindsFiles, IsAsOpened, LeavesAlone, OpensOn};
ghost use Rattle.scene_store.specs.Store.{IsStore};

use crate::closed::{begins_as_store, is_closed};
use crate::fault::{OpenFault, StoreFault};
use crate::look::{beside, found, look, why_unopened};
use crate::rows::StoredLines;
use crate::store::Store;
use sqlite::{Connection, FileFrom, FileStore, Files, Start};
use sqlite_disk::Disk;
use std::fs;

/// How many bytes a log has at least that holds anything: its header's, and those of a frame's.
const SHORTEST_LOG: u64 = 56;

/// A store in a file, with its log beside it, PATH-wal, as long as it is open. `S` says what is known of the two as
/// they are opened; `Unknown` knows nothing.
pub type FileLines<S> = Store<FileStore<FileFrom<S>>>;

/// Finds that the file at a path is no other than a store, as its table and its first row say, or that there is none or
/// an empty one. One that was closed says it by a few pages, and the open looks at the others.
fn check_before(rt: &HostRuntime, path: &str) -> Result<(), StoreFault> {
    if is_closed(rt, path) {
        return Ok(());
    }
    match look(rt, path) {
        Ok(snapshot) => snapshot.check(rt.alloc()),
        Err(StoreFault::StoreUnopened(OpenFault::NoFile)) => Ok(()),
        Err(fault) => Err(fault),
    }
}

/// The lines of the store in the file at a path, of which nothing is changed, nor anything beside it. It may be one
/// that can't be written, or that another program has open: then they are those that it kept before the call, and
/// perhaps some that it keeps meanwhile.
///
/// - `StoreUnopened`: there is no file, or the system doesn't open it.
/// - `StoreInUse`: another program wrote into the file each of a thousand times that it was read.
/// - `NotAStore`: the file is no database, or has other tables than a store, or none.
/// - `NewerStore`: it is a store of a newer version.
/// - `StoreDamaged`, `DiskFault`: its bytes aren't those that were written, or the disk failed.
/// - `NoMemory`: no memory was found. It needs some four times the memory of the file.
pub fn lines_at(rt: &HostRuntime, path: &str) -> Result<StoredLines, StoreFault> {
    look(rt, path)?.lines(rt.alloc())
}

/// A connection to the database in the file at a path, which is made where there is none.
pub(crate) fn connection<S: Start>(
    rt: &HostRuntime,
    path: &str,
    start: S,
) -> Result<Connection<FileStore<FileFrom<S>>>, StoreFault>
    ensures opened { IfOk result (λ conn. HasCleanDisk (file_state conn) → IsOpened conn) }
    ensures found { IfOk result (λ conn. HasCleanDisk (file_state conn) → FindsIn (image_at S.Start) (file_state conn)) }
{
    match Connection::open_from(rt, path, true, start) {
        Ok(conn) => Ok(conn),
        Err((error, left)) => {
            let fault = StoreFault::of_open(error, why_unopened(rt, path));
            if left.is_some() {
                let _removed = forget_log(rt, path);
            }
            drop(left);
            Err(fault)
        }
    }
}

impl<S: Start> FileLines<S> {
    /// Opens the store in the file at a path, or makes it where there is no file or an empty one. What is opened is a
    /// store, whatever lines it keeps; and it keeps what `S` says that the files held. Of a new file it keeps the head.
    ///
    /// - `StoreInUse`: another program has the file open.
    /// - `StoreUnopened`: the system doesn't open the file, or the path is empty, a URI or `:memory:`.
    /// - `NotAStore`: the file is no database, or has other tables than a store.
    /// - `NewerStore`: it is a store of a newer version.
    /// - `StoreDamaged`, `DiskFull`, `DiskFault`: the file's pages are unsound, or the disk is full or failed.
    /// - `NoMemory`: no memory was found.
    ///
    /// A file that is no store is left as it is, and nothing is made beside it. It reads the whole file; and twice, with
    /// its log, where it wasn't closed.
    pub fn open(rt: &HostRuntime, path: &str, start: S) -> Result<FileLines<S>, StoreFault>
        ensures store { IfOk result (IsStore over_files) }
        ensures found { IfOk result (OpensOn (image_at S.Start)) }
    {
        match check_before(rt, path) {
            Ok(()) => Store::over_files(connection(rt, path, start), false),
            Err(fault) => Err(fault),
        }
    }

    /// Opens the store in the file at a path, which has to be there. The rest is as `open` says, but that a database
    /// that has nothing in it is refused as `NotAStore`.
    pub fn open_there(rt: &HostRuntime, path: &str, start: S) -> Result<FileLines<S>, StoreFault>
        ensures store { IfOk result (IsStore over_files) }
        ensures found { IfOk result (OpensOn (image_at S.Start)) }
    {
        match lines_at(rt, path) {
            Ok(_) => {}
            Err(fault) => return Err(fault),
        }
        Store::over_files(connection(rt, path, start), true)
    }

    /// Ends the use of the file at the path that it was opened at: its log is copied into it, and removed. The file
    /// alone has what the store keeps. A store that is dropped loses nothing, but leaves lines in the log, and the two
    /// files have to be kept together.
    ///
    /// - `DiskFull`, `DiskFault`, `StoreDamaged`, `NoMemory`: the log wasn't copied whole. The two files still
    ///   belong together.
    ///
    /// It writes each page of the log once.
    pub fn close(self, rt: &HostRuntime, path: &str) -> Result<(), StoreFault> {
        let files = self.into_files()?;
        // The file is locked until the files are dropped, so no other has the log open. One that can't be removed
        // stays, and has nothing in it that the file hasn't.
        let _removed = remove_log(rt, path);
        drop(files);
        Ok(())
    }
}

/// Removes what an open has made beside a file that it refused, which is a store by its first pages.
fn forget_log(rt: &HostRuntime, path: &str) -> Result<(), StoreFault> {
    if begins_as_store(rt, path) {
        remove_log(rt, path)
    } else {
        Ok(())
    }
}

/// Removes the log of a store's file, where it is too short to hold anything.
fn remove_log(rt: &HostRuntime, path: &str) -> Result<(), StoreFault> {
    let real = found(rt, path)?;
    let log = beside(rt, real.as_str(), "-wal")?;
    if let Ok(found) = fs::symlink_metadata(rt, log.as_str()) {
        if found.is_file() && found.len() < SHORTEST_LOG {
            let _removed = fs::remove_file(rt, log.as_str());
        }
    }
    Ok(())
}

impl<D: Disk + Drop> Store<FileStore<D>> {
    /// What `over_as` makes of the database in files, where it was opened. It alone calls that at a store in files.
    fn over_files(
        opened: Result<Connection<FileStore<D>>, StoreFault>,
        is_there: bool,
    ) -> Result<Store<FileStore<D>>, StoreFault>
        ensures store { IfOk opened IsAsOpened → IfOk result (IsStore over_files) }
        ensures found { (image : Image) → IfOk opened IsAsOpened → IfOk opened (FindsFiles image) → IfOk result (OpensOn image) }
    {
        match opened {
            Ok(conn) => Store::over_as(conn, is_there),
            Err(fault) => Err(fault),
        }
    }

    /// Copies the log into the database file, and gives the two back. The database file alone has what the store keeps.
    ///
    /// - `DiskFull`, `DiskFault`, `StoreDamaged`, `NoMemory`: the log wasn't copied whole. The two still belong
    /// together.
    pub fn into_files(self) -> Result<Files<D>, StoreFault>
        ensures { IfOk result (LeavesAlone self) }
    {
        let conn = self.into_connection();
        match conn.close_files() {
            Ok(files) => Ok(files),
            Err((error, store)) => {
                drop(store.close());
                Err(StoreFault::of(error))
            }
        }
    }
}
