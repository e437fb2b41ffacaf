//! A store of lines.
ghost use Rattle.std.specs.Prelude.{◌≡◌, ◌≢◌, ◌⊎◌, List, ℕ, ◌++◌, Err, IfOk, IfErr, IfSome, IsOkAnd, OnOk, OnErr};
ghost use Rattle.sqlite.specs.Files.{file_state};
ghost use Rattle.sqlite.specs.Held.{state};
ghost use Rattle.sqlite.specs.State.{HasCleanDisk, IsLive, Survives};
ghost use Rattle.scene_store.specs.Head.{head_line, head_of, Begins, MayRefuse};
ghost use Rattle.scene_store.specs.Store.{no_schema, store_schema, IsAlwaysClean, IsStore, StartsIdle, within};
ghost use Rattle.scene_store.specs.Store.{Keeps, KeepsOn, KeepsIfOpen, LeavesMore, LeavesOthers};
ghost use Rattle.scene_store.specs.declared.fault.StoreFault.TheVariants.{NotAStore};

use crate::fault::StoreFault;
use crate::rewrite::{fill, rewrite, start};
use crate::rows::{StoredLines, headed, text_of, version_of};
use crate::schema::{is_blank, is_store};
use crate::statements::{add, all_rows, first_row};
use sqlite::{Alter, Connection, FileStore};
use sqlite_disk::Disk;
use std::alloc::Global;

/// Lines that are kept for good: each call of `keep` is one row of an SQLite database, which a crash leaves whole or
/// not at all. The first row is the head, the comment line `# scene store 2`, so all lines together are a script.
///
/// What a store keeps is known where the disk has returned what was written (`HasCleanDisk`). After a failure of the
/// disk the database may be shut: then each call answers `DiskFault`, and another open may find the store well.
pub struct Store<S: Alter + Drop> {
    pub(crate) conn: Connection<S>,
}

impl<S: Alter + Drop> Drop for Store<S> {
    fn drop(self) {
        let Store { conn: _ } = self;
    }
}

/// Finds that a database is a store of a version that is known, as its first row says, or has nothing in it.
pub(crate) fn check_over<S: Alter + Drop>(conn: Connection<S>) -> Result<(), StoreFault> {
    let mut conn = conn;
    if is_blank(conn.schema()) {
        return Ok(());
    }
    if !is_store(conn.schema()) {
        return Err(StoreFault::NotAStore);
    }
    match first_row(&mut conn)? {
        Some(row) => {
            version_of(row.get::<Vec<u8>>(0)?.as_slice())?;
            Ok(())
        }
        None => Err(StoreFault::NotAStore),
    }
}

impl<S: Alter + Drop> Store<S> {
    /// The store of a database outside a transaction, which has nothing in it or is a store. One that has nothing in
    /// it is made a store of the newest version, which keeps just the head. A store is left as it is, whatever its
    /// version.
    ///
    /// - `NotAStore`: the database has something else than the table of a store. It is as it was.
    /// - `DiskFull`, `DiskFault`, `StoreDamaged`, `NoMemory`: the disk or the memory failed while the store was made,
    ///   in one commit: the next `over` finds nothing, or a store that keeps just the head.
    pub fn over(conn: Connection<S>) -> Result<Store<S>, StoreFault>
        ensures made { (state S.Store conn).now.schema ≡ no_schema → StartsIdle (state S.Store conn)
            → IfOk result (λ store. Keeps S.Store store head_line) }
        ensures there { (state S.Store conn).now.schema ≡ store_schema → IsOkAnd result (λ store. store.conn ≡ conn) }
        ensures other { (state S.Store conn).now.schema ≢ no_schema → (state S.Store conn).now.schema ≢ store_schema
            → result ≡ Err NotAStore }
        ensures known { OnOk result (((state S.Store conn).now.schema ≡ no_schema) ⊎ ((state S.Store conn).now.schema ≡ store_schema)) }
        ensures store { StartsIdle (state S.Store conn) → IfOk result (IsStore S.Store) }
        ensures clean { IfOk result (λ store. HasCleanDisk (within S.Store store) → HasCleanDisk (state S.Store conn)) }
    {
        let mut conn = conn;
        if is_blank(conn.schema()) {
            match start(&mut conn) {
                Ok(()) => Ok(Store { conn }),
                Err(fault) => Err(fault),
            }
        } else {
            Store::over_store(conn)
        }
    }

    /// The store of a database that is one, outside a transaction. It is left as it is, whatever its version.
    ///
    /// - `NotAStore`: the database hasn't just the table of a store. It is as it was.
    pub fn over_store(conn: Connection<S>) -> Result<Store<S>, StoreFault>
        ensures there { (state S.Store conn).now.schema ≡ store_schema → IsOkAnd result (λ store. store.conn ≡ conn) }
        ensures other { (state S.Store conn).now.schema ≢ store_schema → result ≡ Err NotAStore }
        ensures known { OnOk result ((state S.Store conn).now.schema ≡ store_schema) }
        ensures store { StartsIdle (state S.Store conn) → IfOk result (IsStore S.Store) }
    {
        if is_store(conn.schema()) {
            Ok(Store { conn })
        } else {
            Err(StoreFault::NotAStore)
        }
    }

    /// The same, of which all is true that `over_as` says.
    fn over_there(conn: Connection<S>) -> Result<Store<S>, StoreFault>
        ensures made { (state S.Store conn).now.schema ≡ no_schema → StartsIdle (state S.Store conn)
            → IfOk result (λ store. Keeps S.Store store head_line) }
        ensures there { (state S.Store conn).now.schema ≡ store_schema → IsOkAnd result (λ store. store.conn ≡ conn) }
        ensures known { OnOk result (((state S.Store conn).now.schema ≡ no_schema) ⊎ ((state S.Store conn).now.schema ≡ store_schema)) }
        ensures store { StartsIdle (state S.Store conn) → IfOk result (IsStore S.Store) }
        ensures clean { IfOk result (λ store. HasCleanDisk (within S.Store store) → HasCleanDisk (state S.Store conn)) }
    {
        Store::over_store(conn)
    }

    /// What `over_store` says where the store has to be there, else what `over` says. Who calls it at a store in files
    /// calls one function of any `S` and not two, since each such call is dear to prove.
    pub(crate) fn over_as(conn: Connection<S>, is_there: bool) -> Result<Store<S>, StoreFault>
        ensures made { (state S.Store conn).now.schema ≡ no_schema → StartsIdle (state S.Store conn)
            → IfOk result (λ store. Keeps S.Store store head_line) }
        ensures there { (state S.Store conn).now.schema ≡ store_schema → IsOkAnd result (λ store. store.conn ≡ conn) }
        ensures known { OnOk result (((state S.Store conn).now.schema ≡ no_schema) ⊎ ((state S.Store conn).now.schema ≡ store_schema)) }
        ensures store { StartsIdle (state S.Store conn) → IfOk result (IsStore S.Store) }
        ensures clean { IfOk result (λ store. HasCleanDisk (within S.Store store) → HasCleanDisk (state S.Store conn)) }
    {
        if is_there {
            Store::over_there(conn)
        } else {
            Store::over(conn)
        }
    }

    /// The lines of the store of a database that is one, outside a transaction, which is given up. It refuses what
    /// `over_store` and `lines` refuse.
    pub(crate) fn lines_over(conn: Connection<S>, alloc: Global) -> Result<StoredLines, StoreFault>
        ensures found { IsAlwaysClean S.Store → IfOk result (λ found. (text : List ℕ)
            → ((state S.Store conn).now.schema ≡ store_schema → Keeps S.Store (record { conn = conn }) text)
            → found.text.items ≡ text) }
        ensures head { IfOk result (λ found. Begins found.text.items (head_of found.version)) }
    {
        let mut store = Store::over_store(conn)?;
        store.lines(alloc)
    }

    /// A store of these lines, in a database outside a transaction that has nothing in it: a copy of the store whose
    /// lines they are, of the same version.
    ///
    /// - `NotAStore`: the database has something in it; it is as it was. Or the first line is no head.
    /// - `NewerStore`: the first line is the head of another version.
    /// - `DiskFull`, `DiskFault`, `StoreDamaged`, `NoMemory`: the disk or the memory failed. All is made in one commit:
    ///   the next `over` finds nothing, or a store that keeps all these lines. `DiskFull` also where the lines are more
    ///   than a row can take.
    pub fn filled(conn: Connection<S>, text: &[u8]) -> Result<Store<S>, StoreFault>
        ensures made { StartsIdle (state S.Store conn) → IfOk result (λ store. Keeps S.Store store text.now) }
        ensures blank { OnOk result ((state S.Store conn).now.schema ≡ no_schema) }
        ensures other { (state S.Store conn).now.schema ≢ no_schema → result ≡ Err NotAStore }
    {
        let mut conn = conn;
        if !is_blank(conn.schema()) {
            return Err(StoreFault::NotAStore);
        }
        let (head, lines) = match split_head(text) {
            Ok(parts) => parts,
            Err(fault) => return Err(fault),
        };
        match fill(&mut conn, head, lines) {
            Ok(()) => Ok(Store { conn }),
            Err(fault) => Err(fault),
        }
    }

    /// Keeps lines, each with its line feed, behind those that are kept. A crash at any moment of the call leaves
    /// what it could leave before, or the rows of before and the new one. (The database syncs a commit before it
    /// returns, which no clause says.)
    ///
    /// - `DiskFull`: the disk is full, or the lines are more than a row can take.
    /// - `DiskFault`, `StoreDamaged`: the disk failed, now or before.
    /// - `NoMemory`: no memory was found.
    ///
    /// After an error the store keeps what it kept, unless the database is shut. One row costs one commit, whatever the
    /// store keeps.
    pub fn keep(&mut self, lines: &[u8]) -> Result<(), StoreFault>
        ensures kept { OnOk result ((text : List ℕ) → Keeps S.Store self.old text
            → Keeps S.Store self.new (text ++ lines.now)) }
        ensures err { OnErr result (KeepsIfOpen S.Store self.old self.new) }
        ensures survives { Survives (within S.Store self.old) (within S.Store self.new)
            (LeavesMore (within S.Store self.old) lines.now) }
    {
        add(&mut self.conn, lines)
    }

    /// All lines that are kept, the head first, and the version that it says. Of a store that was opened they are what
    /// it keeps from then on, and what it was known to keep they are.
    ///
    /// - `NewerStore`: the first line is the head of another version.
    /// - `NotAStore`: the first line is no head.
    /// - `StoreDamaged`: the rows aren't numbered in turn, or other bytes were read than were written.
    /// - `DiskFault`, `NoMemory`: the disk failed, now or before, or no memory was found.
    ///
    /// Nothing is changed. It reads all rows, and holds their lines twice for a while.
    pub fn lines(&mut self, alloc: Global) -> Result<StoredLines, StoreFault>
        ensures whole { IsStore S.Store self.old → IfOk result (λ found. Keeps S.Store self.new found.text.items) }
        ensures found { HasCleanDisk (within S.Store self.new)
            → IfOk result (λ found. (text : List ℕ) → Keeps S.Store self.old text → found.text.items ≡ text) }
        ensures head { IfOk result (λ found. Begins found.text.items (head_of found.version)) }
        ensures refused { HasCleanDisk (within S.Store self.new)
            → IfErr result (λ fault. (text : List ℕ) → Keeps S.Store self.old text → MayRefuse text fault) }
        ensures same { OnOk result (KeepsOn S.Store self.old self.new) }
        ensures err { OnErr result (KeepsIfOpen S.Store self.old self.new) }
        ensures survives { Survives (within S.Store self.old) (within S.Store self.new)
            (λ _. (within S.Store self.old).now.schema ≢ store_schema) }
    {
        let rows = all_rows(&mut self.conn)?;
        let text = text_of(alloc, rows.as_slice())?;
        headed(text)
    }

    /// Puts the head of the newest version and these lines in place of all that is kept, in one commit, so that a store
    /// whose lines say less than they are long gets short. A crash at any moment of the call leaves what it could leave
    /// before, or the two new rows.
    ///
    /// - `DiskFull`: the disk is full, or the lines are more than a row can take.
    /// - `DiskFault`, `StoreDamaged`: the disk failed, now or before.
    /// - `NotAStore`: the database is in a transaction, as that of no store is.
    /// - `NoMemory`: no memory was found.
    ///
    /// After an error the store keeps what it kept, unless the database is shut. It costs in proportion to the rows.
    pub fn replace(&mut self, lines: &[u8]) -> Result<(), StoreFault>
        ensures replaced { OnOk result ((text : List ℕ) → Keeps S.Store self.old text
            → Keeps S.Store self.new (head_line ++ lines.now)) }
        ensures err { OnErr result (KeepsIfOpen S.Store self.old self.new) }
        ensures survives { Survives (within S.Store self.old) (within S.Store self.new)
            (LeavesOthers (within S.Store self.old) lines.now) }
    {
        rewrite(&mut self.conn, lines)
    }
}

impl<D: Disk + Drop> Store<FileStore<D>> {
    /// The connection, as it is. It takes no memory.
    pub(crate) fn into_connection(self) -> Connection<FileStore<D>>
        ensures same { result ≡ self.conn }
        ensures live { IsLive (file_state self.conn) }
    {
        let Store { conn } = self;
        let _schema = conn.schema();
        conn
    }
}

/// The first line of a store's text, and the others.
fn split_head(text: &[u8]) -> Result<(&[u8], &[u8]), StoreFault>
    ensures { IfOk result (λ parts. text.now ≡ parts.0.now ++ parts.1.now) }
{
    match version_of(text) {
        Ok(version) => Ok(text.split_at(version.head().len())),
        Err(fault) => Err(fault),
    }
}
