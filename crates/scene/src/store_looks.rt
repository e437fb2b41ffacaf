//! What the program does with a store that it doesn't change (docs/SHELL.md, "A store").
use crate::ending::Ending;
use crate::printed;
use scene_app::AppFault;
use scene_command_line::{BackupWords, DumpWords, RestoreWords};
use scene_interpreter::InterpreterSettings;
use scene_kept_lines::{
    KeptLineFault, LinesEnd, LogCounts, dump_lines, lines_to_entry, show_lines, write_log,
};
use scene_script::Limit;
use scene_store::{
    BackupFault, Holder, StoreFault, StoreFileFault, StoredLines, Version, back_up, holder_of,
    lines_at, make_store,
};

/// Says on standard error why kept lines weren't played, which is a fault.
pub fn told_lines(rt: &HostRuntime, fault: &KeptLineFault) -> Ending {
    let _told = eprintln!(rt; "scene: {fault}");
    Ending::Told
}

/// Says on standard error what is wrong with the store at a path, which is a fault, and which process has it open,
/// where that is wrong.
pub fn told_store(rt: &HostRuntime, path: &str, fault: StoreFault) -> Ending {
    let holder = if fault == StoreFault::StoreInUse {
        holder_of(rt, path)
    } else {
        None
    };
    let fault = StoreFileFault { path, fault };
    let _told = match holder {
        Some(Holder { process, words }) => eprintln!(rt;
            "scene: {fault}: process {process}, {words:?}"
        ),
        None => eprintln!(rt; "scene: {fault}"),
    };
    Ending::Told
}

/// With which settings an interpreter plays the lines of a store of a version.
pub fn settings_of(version: Version) -> InterpreterSettings {
    InterpreterSettings {
        depth: Limit::most(),
        calls: version.call_limit(),
    }
}

/// The lines of the store at a path, which stays as it is.
fn lines_of(rt: &HostRuntime, path: &str) -> Result<StoredLines, Ending> {
    match lines_at(rt, path) {
        Ok(lines) => Ok(lines),
        Err(fault) => Err(told_store(rt, path, fault)),
    }
}

/// Shows the world of a store.
pub fn show_store(rt: &HostRuntime, path: &str) -> Ending {
    let lines = match lines_of(rt, path) {
        Ok(lines) => lines,
        Err(ending) => return ending,
    };
    let mut world = String::new(rt.alloc());
    match show_lines(
        rt.alloc(),
        settings_of(lines.version),
        lines.text.as_slice(),
        &mut world,
    ) {
        Ok(()) => printed(rt, world.as_str()),
        Err(fault) => told_lines(rt, &fault),
    }
}

/// Prints a scene text, or the fault that stands in its place.
fn printed_scene(rt: &HostRuntime, scene: &str) -> Ending {
    match printed(rt, scene) {
        Ending::Done => Ending::after_scene(scene.starts_with('{')),
        ending => ending,
    }
}

/// Prints the scene text of a store.
pub fn dump_store(rt: &HostRuntime, words: &DumpWords) -> Ending {
    let lines = match lines_of(rt, words.file.as_str()) {
        Ok(lines) => lines,
        Err(ending) => return ending,
    };
    let mut scene = String::new(rt.alloc());
    match dump_lines(
        rt.alloc(),
        settings_of(lines.version),
        lines.text.as_slice(),
        words.is_whole,
        &mut scene,
    ) {
        Ok(()) => printed_scene(rt, scene.as_str()),
        Err(fault) => told_lines(rt, &fault),
    }
}

/// Says how many calls came to what.
fn tell_counts(rt: &HostRuntime, counts: LogCounts) -> Ending {
    match println!(rt; "{counts}") {
        Ok(()) => Ending::Done,
        Err(_) => Ending::Fault(AppFault::WriteFault),
    }
}

/// Writes what the lines of a store have done, and at the end how many frames there were.
pub fn log_store(rt: &HostRuntime, path: &str) -> Ending {
    let lines = match lines_of(rt, path) {
        Ok(lines) => lines,
        Err(ending) => return ending,
    };
    match write_log(
        rt.alloc(),
        settings_of(lines.version),
        lines.text.as_slice(),
        &mut rt.stdout(),
    ) {
        Ok(counts) => tell_counts(rt, counts),
        Err(fault) => told_lines(rt, &fault),
    }
}

/// Says which of two stores is at fault, where one is.
fn told_copy(rt: &HostRuntime, file: &str, copy: &str, made: Result<(), BackupFault>) -> Ending {
    match made {
        Ok(()) => Ending::Done,
        Err(BackupFault::Store(fault)) => told_store(rt, file, fault),
        Err(BackupFault::Copy(fault)) => told_store(rt, copy, fault),
    }
}

/// Copies a store into another file.
pub fn backup_store(rt: &HostRuntime, words: &BackupWords) -> Ending {
    let (file, copy) = (words.file.as_str(), words.copy.as_str());
    told_copy(rt, file, copy, back_up(rt, file, copy))
}

/// Makes a store of the lines of another, up to an entry of its log.
pub fn restore_store(rt: &HostRuntime, words: &RestoreWords) -> Ending {
    let (file, copy) = (words.file.as_str(), words.copy.as_str());
    let StoredLines { version, text } = match lines_of(rt, file) {
        Ok(lines) => lines,
        Err(ending) => return ending,
    };
    match lines_to_entry(rt.alloc(), settings_of(version), text.as_slice(), words.at) {
        Ok(LinesEnd::At(length)) => told_copy(
            rt,
            file,
            copy,
            make_store(rt, file, copy, &text.as_slice()[..length]),
        ),
        Ok(LinesEnd::Beyond(entries)) => {
            let _told = eprintln!(rt;
                "scene: {file:?}: its log has {entries} entries; no store was made"
            );
            Ending::Told
        }
        Err(fault) => told_lines(rt, &fault),
    }
}
