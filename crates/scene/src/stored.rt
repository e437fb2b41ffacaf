//! Compaction of a store (docs/SHELL.md, "A store").
use crate::ending::Ending;
use crate::store_looks::{settings_of, told_store};
use scene_app::AppFault;
use scene_kept_lines::{CompactFault, compacted};
use scene_store::{Alter, FileLines, Store, StoreFault, StoredLines, Unknown, Version};
use std::alloc::Global;

/// Why a store wasn't compacted.
enum Uncompacted {
    /// Its file couldn't be used.
    Store(StoreFault),
    /// No scene text was made of its lines.
    Lines(CompactFault),
}

/// How many lines a text has that are no comments, and the head, which each store has. The last line ends as the others
/// do.
fn line_count(lines: &[u8]) -> usize {
    let mut count = 1usize;
    let mut begins = true;
    for byte in lines {
        if begins && *byte != b'#' {
            count = count.saturating_add(1);
        }
        begins = *byte == b'\n';
    }
    count
}

/// Puts fewer lines in the place of those of a store that is open. It gives how many lines there were and are.
fn compact_over<S: Alter + Drop>(
    alloc: Global,
    store: &mut Store<S>,
) -> Result<(usize, usize), Uncompacted> {
    let StoredLines { version, text } = match store.lines(alloc) {
        Ok(lines) => lines,
        Err(fault) => return Err(Uncompacted::Store(fault)),
    };
    let before = line_count(text.as_slice());
    let (settings, again) = (settings_of(version), settings_of(Version::NEWEST));
    match compacted(alloc, settings, text.as_slice(), again, usize::MAX) {
        Ok(Some(fewer)) => match store.replace(fewer.as_slice()) {
            Ok(()) => Ok((before, line_count(fewer.as_slice()))),
            Err(fault) => Err(Uncompacted::Store(fault)),
        },
        Ok(None) => Ok((before, before)),
        Err(fault) => Err(Uncompacted::Lines(fault)),
    }
}

/// Says how many lines there were and are, or why the store is as it was.
fn tell_compacted(
    rt: &HostRuntime,
    path: &str,
    counts: Result<(usize, usize), Uncompacted>,
) -> Ending {
    match counts {
        Ok((before, after)) => match println!(rt; "lines {before}, now {after}") {
            Ok(()) => Ending::Done,
            Err(_) => Ending::Fault(AppFault::WriteFault),
        },
        Err(Uncompacted::Store(fault)) => told_store(rt, path, fault),
        Err(Uncompacted::Lines(fault)) => {
            let _told = eprintln!(rt; "scene: {path:?}: {fault}");
            Ending::Told
        }
    }
}

/// The end of what was done with a store, which is closed.
fn closed(rt: &HostRuntime, path: &str, store: FileLines<Unknown>, ending: Ending) -> Ending {
    match (store.close(rt, path), ending) {
        (Err(fault), Ending::Done) => told_store(rt, path, fault),
        (_, ending) => ending,
    }
}

/// Puts fewer lines in the place of those of a store, and says how many there were and are.
pub fn compact_store(rt: &HostRuntime, path: &str) -> Ending {
    let mut store = match FileLines::open_there(rt, path, Unknown) {
        Ok(store) => store,
        Err(fault) => return told_store(rt, path, fault),
    };
    let counts = compact_over(rt.alloc(), &mut store);
    let ending = tell_compacted(rt, path, counts);
    closed(rt, path, store, ending)
}
