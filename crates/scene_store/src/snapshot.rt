//! A store that is read from the bytes of its two files, in memory alone.
ghost use Rattle.std.specs.Prelude.{◌≡◌, List, ℕ, IsTrue, IfOk};
ghost use Rattle.sqlite_disk.specs.Memory.{memory_bytes, memory_is_usable};
ghost use Rattle.sqlite.specs.Files.{file_state, IsOpened};
ghost use Rattle.sqlite.specs.Start.{FindsIn};
ghost use Rattle.sqlite.specs.State.{HasCleanDisk};
ghost use Rattle.scene_store.specs.Files.{HoldsText};
ghost use Rattle.scene_store.specs.Head.{head_of, Begins};

use crate::fault::{OpenFault, StoreFault};
use crate::rows::StoredLines;
use crate::store::{Store, check_over};
use sqlite::{Connection, FileStore, Files, Options};
use sqlite_disk::{Disk, Memory};
use std::alloc::Global;

/// The bytes of a store's log and of its file at one moment.
pub struct Snapshot {
    /// Those of the log; none where there is no log.
    pub log: Vec<u8>,
    /// Those of the file.
    pub db: Vec<u8>,
}

impl Drop for Snapshot {
    fn drop(self) {
        let Snapshot { log: _, db: _ } = self;
    }
}

/// A file in memory that has these bytes.
fn memory_of(alloc: Global, bytes: &[u8]) -> Result<Memory, StoreFault>
    ensures bytes { IfOk result (λ file. memory_bytes file ≡ bytes.now) }
    ensures usable { IfOk result (λ file. IsTrue (memory_is_usable file)) }
{
    let mut file = Memory::new(alloc);
    if bytes.is_empty() {
        return Ok(file);
    }
    match file.write_at(0, bytes) {
        Ok(()) => Ok(file),
        Err(_) => Err(StoreFault::NoMemory),
    }
}

/// A connection to the database that the bytes hold, in memory.
fn connected(
    alloc: Global,
    snapshot: &Snapshot,
) -> Result<Connection<FileStore<Memory>>, StoreFault>
    ensures clean { IfOk result (λ conn. HasCleanDisk (file_state conn)) }
    ensures opened { IfOk result IsOpened }
    ensures found { IfOk result (λ conn. FindsIn (record { log = snapshot.now.log.items; db = snapshot.now.db.items }) (file_state conn)) }
{
    let log = memory_of(alloc, snapshot.log.as_slice())?;
    let db = memory_of(alloc, snapshot.db.as_slice())?;
    match Connection::open_files(alloc, Files { log, db }, Options::new(0)) {
        Ok(conn) => Ok(conn),
        Err((error, _)) => Err(StoreFault::of_open(error, OpenFault::Other)),
    }
}

impl Snapshot {
    /// The lines of the store that the bytes hold.
    ///
    /// - `NotAStore`: they hold no database, or another than a store.
    /// - `NewerStore`: they hold a store of a newer version.
    /// - `StoreDamaged`: they aren't those that were written.
    /// - `NoMemory`: no memory was found.
    ///
    /// It needs some three times the memory of the two files.
    pub fn lines(&self, alloc: Global) -> Result<StoredLines, StoreFault>
        ensures found { IfOk result (λ found. (text : List ℕ)
            → HoldsText (record { log = self.now.log.items; db = self.now.db.items }) text → found.text.items ≡ text) }
        ensures head { IfOk result (λ found. Begins found.text.items (head_of found.version)) }
    {
        match connected(alloc, self) {
            Ok(conn) => Store::lines_over(conn, alloc),
            Err(fault) => Err(fault),
        }
    }

    /// Finds that the bytes hold a store of a version that is known, or a database that has nothing in it, or none yet.
    /// It looks at no row but the first.
    pub(crate) fn check(&self, alloc: Global) -> Result<(), StoreFault> {
        match connected(alloc, self) {
            Ok(conn) => check_over(conn),
            Err(fault) => Err(fault),
        }
    }
}
