//! A store's first row, a copy of a store, and other lines in place of all that one has. Each is some statements in one
//! transaction, which rolls back where `?` drops it.
ghost use Rattle.std.specs.Prelude.{◌≡◌, List, ℕ, [], ◌∷◌, false, IsTrue, OnOk, OnErr};
ghost use Rattle.sqlite.specs.Held.{state};
ghost use Rattle.sqlite.specs.State.{HasCleanDisk, Survives};
ghost use Rattle.scene_store.specs.Head.{head_line};
ghost use Rattle.scene_store.specs.Store.{no_schema, Holds, LeavesHead, LeavesOthers};

use crate::fault::StoreFault;
use crate::version::Version;
use sqlite::{Alter, Connection, params};

/// The text that makes the table of a store.
const TABLE: &str = "CREATE TABLE batch (number INTEGER PRIMARY KEY, lines BLOB NOT NULL) STRICT";

/// The text that adds a row behind the others.
const ADD: &str = "INSERT INTO batch (lines) VALUES (?1)";

/// Makes the table of a store and its first row, the head, in a database that has nothing in it.
pub(crate) fn start<S: Alter>(conn: &mut Connection<S>) -> Result<(), StoreFault>
    ensures made { HasCleanDisk (state S.Store conn.new)
        → OnOk result ((state S.Store conn.old).now.schema ≡ no_schema → Holds (state S.Store conn.new) (head_line ∷ [])) }
    ensures crash { Survives (state S.Store conn.old) (state S.Store conn.new) (LeavesHead (state S.Store conn.old)) }
{
    if !conn.is_autocommit() {
        return Err(StoreFault::NotAStore);
    }
    let mut tx = conn.transaction();
    tx.execute(TABLE, &[])?;
    tx.execute(ADD, params![Version::NEWEST.head()])?;
    tx.commit()?;
    Ok(())
}

/// Makes the table of a store, the first row and one with the other lines, in a database that has nothing in it.
pub(crate) fn fill<S: Alter>(
    conn: &mut Connection<S>,
    head: &[u8],
    lines: &[u8],
) -> Result<(), StoreFault>
    ensures { HasCleanDisk (state S.Store conn.new) → OnOk result ((state S.Store conn.old).now.schema ≡ no_schema
        → Holds (state S.Store conn.new) (head.now ∷ lines.now ∷ [])) }
{
    if !conn.is_autocommit() {
        return Err(StoreFault::NotAStore);
    }
    let mut tx = conn.transaction();
    tx.execute(TABLE, &[])?;
    tx.execute(ADD, params![head])?;
    tx.execute(ADD, params![lines])?;
    tx.commit()?;
    Ok(())
}

/// Puts the head and these lines in place of all rows, in one transaction.
pub(crate) fn rewrite<S: Alter>(conn: &mut Connection<S>, lines: &[u8]) -> Result<(), StoreFault>
    ensures done { HasCleanDisk (state S.Store conn.new) → OnOk result ((batches : List (List ℕ))
        → Holds (state S.Store conn.old) batches → Holds (state S.Store conn.new) (head_line ∷ lines.now ∷ [])) }
    ensures mode { (state S.Store conn.old).in_transaction ≡ false
        → (state S.Store conn.new).in_transaction ≡ false }
    ensures neither { HasCleanDisk (state S.Store conn.new) → IsTrue (state S.Store conn.new).is_open
        → OnErr result (((state S.Store conn.new).now ≡ (state S.Store conn.old).now)
        × ((state S.Store conn.new).committed ≡ (state S.Store conn.old).committed)) }
    ensures crash { Survives (state S.Store conn.old) (state S.Store conn.new)
        (LeavesOthers (state S.Store conn.old) lines.now) }
{
    if !conn.is_autocommit() {
        return Err(StoreFault::NotAStore);
    }
    let mut tx = conn.transaction();
    tx.execute("DELETE FROM batch", &[])?;
    tx.execute(ADD, params![Version::NEWEST.head()])?;
    tx.execute(ADD, params![lines])?;
    tx.commit()?;
    Ok(())
}
