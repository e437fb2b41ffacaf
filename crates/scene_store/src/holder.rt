//! Which process has a store's file open.
use std::fs::{self, DirEntry};
use std::io;

/// A process that has a file open.
#[derive(Debug, Drop)]
pub struct Holder {
    /// Its number.
    pub process: u32,
    /// The words of its command line, with a space between two; none where the system doesn't tell them.
    pub words: String,
}

/// The path of something below a folder.
fn below(rt: &HostRuntime, folder: &str, name: &str) -> io::Result<String> {
    Ok(format!(in rt.alloc(); "{folder}/{name}")?)
}

/// Whether an entry of a process's list of open files is this file.
fn is_file(rt: &HostRuntime, open: &DirEntry, real: &str) -> bool {
    match fs::read_link(rt, open.path()) {
        Ok(path) => path.as_str() == real,
        Err(_) => false,
    }
}

/// Whether the process with this folder has a file open.
fn has_open(rt: &HostRuntime, folder: &str, real: &str) -> io::Result<bool> {
    let list = below(rt, folder, "fd")?;
    for open in fs::read_dir(rt, list.as_str())? {
        if is_file(rt, &open?, real) {
            return Ok(true);
        }
    }
    Ok(false)
}

/// The words of the command line of the process with this folder.
fn words_of(rt: &HostRuntime, folder: &str) -> io::Result<String> {
    let path = below(rt, folder, "cmdline")?;
    let line = fs::read_to_string(rt, path.as_str())?;
    let mut words = String::new(rt.alloc());
    for word in line.split('\0') {
        if !word.is_empty() && !words.is_empty() {
            words.push(' ')?;
        }
        words.push_str(word)?;
    }
    Ok(words)
}

/// The process with a number, where it isn't this one, and has a file open.
fn holder_by(
    rt: &HostRuntime,
    process: u32,
    folder: &str,
    this: &str,
    real: &str,
) -> Option<Holder> {
    if folder == this || !has_open(rt, folder, real).unwrap_or(false) {
        return None;
    }
    let words = words_of(rt, folder).unwrap_or(String::new(rt.alloc()));
    Some(Holder { process, words })
}

/// A process that has a file open, of which this is the path without links.
fn found_holder(rt: &HostRuntime, real: &str) -> io::Result<Option<Holder>> {
    let this = fs::canonicalize(rt, "/proc/self")?;
    for entry in fs::read_dir(rt, "/proc")? {
        let folder = entry?;
        let Ok(process) = folder.file_name().parse::<u32>() else {
            continue;
        };
        let held = holder_by(rt, process, folder.path().as_str(), this.as_str(), real);
        if held.is_some() {
            return Ok(held);
        }
    }
    Ok(None)
}

/// Another process that has the file at a path open, so that nobody else can write it; nothing where the system doesn't
/// tell it, as of a process of another user, or has no folder of processes. It looks through all open files of this
/// user's processes.
pub fn holder_of(rt: &HostRuntime, path: &str) -> Option<Holder> {
    let real = fs::canonicalize(rt, path).ok()?;
    found_holder(rt, real.as_str()).unwrap_or(None)
}
