//! The rows of a store, as a query shows them, and its first line.
ghost use Rattle.std.specs.Prelude.{◌≡◌, IfOk, IfErr, OnOk};
ghost use Rattle.scene_store.specs.Fault.{IsOfUse};
ghost use Rattle.scene_store.specs.Head.{IsReadAs, SaysVersion};
ghost use Rattle.scene_store.specs.Store.{AddsRow, HoldText};

use crate::fault::StoreFault;
use crate::version::Version;
use sqlite::Row;
use std::alloc::Global;

/// What the first line of a store begins with, whatever its version is.
const MARK: &[u8] = b"# scene store ";

/// All lines of a store, the first of which says of which version the store is. As a comment, it is part of a script.
#[derive(Drop)]
pub struct StoredLines {
    pub version: Version,
    pub text: Vec<u8>,
}

/// Adds the lines of a row, which is the one of this number.
fn add_row(lines: &mut Vec<u8>, row: &Row, number: u64) -> Result<(), StoreFault>
    ensures added { OnOk result (AddsRow number row.now lines.old.items lines.new.items) }
    ensures fault { IfErr result IsOfUse }
{
    if row.get::<u64>(0)? != number {
        return Err(StoreFault::StoreDamaged);
    }
    let more = row.get::<Vec<u8>>(1)?;
    lines.extend_from_slice(more.as_slice())?;
    Ok(())
}

/// The lines of all rows, which are numbered in turn.
pub(crate) fn text_of(alloc: Global, rows: &[Row]) -> Result<Vec<u8>, StoreFault>
    ensures text { IfOk result (λ text. HoldText rows.now text.items) }
    ensures fault { IfErr result IsOfUse }
{
    let mut lines = Vec::new(alloc);
    for at in 0..rows.len() {
        match add_row(&mut lines, &rows[at], at as u64 + 1) {
            Ok(()) => {}
            Err(fault) => return Err(fault),
        }
    }
    Ok(lines)
}

/// The version of a store whose lines are these, as the first of them says.
pub(crate) fn version_of(text: &[u8]) -> Result<Version, StoreFault>
    ensures { SaysVersion text.now result }
{
    if text.starts_with(Version::First.head()) {
        Ok(Version::First)
    } else if text.starts_with(Version::Second.head()) {
        Ok(Version::Second)
    } else if text.starts_with(MARK) {
        Err(StoreFault::NewerStore)
    } else {
        Err(StoreFault::NotAStore)
    }
}

/// The text of a store, of the version that its first line says.
pub(crate) fn headed(text: Vec<u8>) -> Result<StoredLines, StoreFault>
    ensures { IsReadAs text.items result }
{
    match version_of(text.as_slice()) {
        Ok(version) => Ok(StoredLines { version, text }),
        Err(fault) => Err(fault),
    }
}
