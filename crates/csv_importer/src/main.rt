//! Imports a table of comma-separated values into a scene: standard input has a header row of kinds and a row for each
//! entity. All rows are one frame, so a table is taken whole or not at all, and one undo takes it back. A table that
//! isn't taken ends the program with status 1, and says which line is bad.
#![tactic(auto)]

mod error;
mod fields;
mod importer;

use crate::importer::Importer;
use anyhow::Result;
use std::io;

/// Tables that no scene takes: a wrong number, a missing field, and an unknown kind.
const BAD_TABLES: [&str; 3] = [
    "Name,Health\nghost,9\nimp,many\n",
    "Name,Health\nghost,9\nimp\n",
    "Name,Speed\nghost,9\n",
];

/// Prints how many entities there are.
fn count(rt: &impl Print, what: &str, importer: &Importer) -> Result<()> {
    let count = importer.count()?;
    println!(rt; "{what}: {count} entities")?;
    Ok(())
}

/// Prints how many entities a table gave, or why it was refused.
fn try_import(rt: &impl Print, importer: &mut Importer, table: &str) -> io::Result<()> {
    match importer.import(table.as_bytes()) {
        Ok(count) => println!(rt; "imported {count}"),
        Err(error) => println!(rt; "refused, {error}"),
    }
}

/// Imports the table on standard input, takes the import back and makes it again, and then tries tables that are bad.
fn run(rt: &(impl Input + Print), importer: &mut Importer) -> Result<()> {
    let spawned = importer.import(rt.reader())?;
    println!(rt; "imported {spawned} rows in one frame")?;
    importer.undo()?;
    count(rt, "undone", importer)?;
    importer.redo()?;
    count(rt, "redone", importer)?;
    for table in BAD_TABLES {
        try_import(rt, importer, table)?;
    }
    count(rt, "still", importer)
}

fn main(rt: HostRuntime) -> Result<()> {
    let mut importer = Importer::open(rt.alloc())?;
    run(&rt, &mut importer)
}
