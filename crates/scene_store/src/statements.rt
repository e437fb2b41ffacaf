//! The statements of a store, each in a function of its own.
ghost use Rattle.std.specs.Prelude.{◌≡◌, ◌≢◌, List, ℕ, [], ◌∷◌, ◌++◌, IfOk, IfErr, OnOk, OnErr};
ghost use Rattle.sqlite.specs.Held.{state};
ghost use Rattle.sqlite.specs.State.{HasCleanDisk, IsLive, Survives, Shown};
ghost use Rattle.scene_store.specs.Fault.{IsOfUse};
ghost use Rattle.scene_store.specs.Store.{all_text, store_schema, Holds, IsQuiet, LeavesMore};

use crate::fault::StoreFault;
use sqlite::{Alter, Connection, Row, params};

/// Adds a row with these lines behind the others.
pub(crate) fn add<S: Alter>(conn: &mut Connection<S>, lines: &[u8]) -> Result<(), StoreFault>
    ensures added { HasCleanDisk (state S.Store conn.new) → OnOk result ((batches : List (List ℕ))
        → Holds (state S.Store conn.old) batches → Holds (state S.Store conn.new) (batches ++ lines.now ∷ [])) }
    ensures err { HasCleanDisk (state S.Store conn.new)
        → OnErr result (IsQuiet (state S.Store conn.old) (state S.Store conn.new)) }
    ensures survives { Survives (state S.Store conn.old) (state S.Store conn.new)
        (LeavesMore (state S.Store conn.old) lines.now) }
{
    match conn.execute("INSERT INTO batch (lines) VALUES (?1)", params![lines]) {
        Ok(_) => Ok(()),
        Err(error) => Err(StoreFault::of(error)),
    }
}

/// All rows, in some order, of a database that obeys its schema.
pub(crate) fn all_rows<S: Alter>(conn: &mut Connection<S>) -> Result<Vec<Row>, StoreFault>
    ensures shown { HasCleanDisk (state S.Store conn.new)
        → IfOk result (λ rows. Shown all_text [] (state S.Store conn.old) (state S.Store conn.new) rows.items) }
    ensures err { HasCleanDisk (state S.Store conn.new)
        → OnErr result (IsQuiet (state S.Store conn.old) (state S.Store conn.new)) }
    ensures fault { IfErr result IsOfUse }
    ensures survives { Survives (state S.Store conn.old) (state S.Store conn.new)
        (λ _. (state S.Store conn.old).now.schema ≢ store_schema) }
    ensures live { IsLive (state S.Store conn.old) }
{
    let _schema = conn.schema();
    match conn.query_all("SELECT number, lines FROM batch", &[]) {
        Ok(rows) => Ok(rows),
        Err(error) => Err(StoreFault::of(error)),
    }
}

/// The first row, its lines alone, where there is one.
pub(crate) fn first_row<S: Alter>(conn: &mut Connection<S>) -> Result<Option<Row>, StoreFault> {
    let _schema = conn.schema();
    match conn.query_all("SELECT lines FROM batch WHERE number = 1", &[]) {
        Ok(mut rows) => Ok(rows.pop()),
        Err(error) => Err(StoreFault::of(error)),
    }
}
