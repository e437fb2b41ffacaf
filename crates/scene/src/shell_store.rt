//! A shell on the store in a file (docs/SHELL.md, "A store").
use crate::ending::Ending;
use crate::store_looks::told_store;
use crate::{performer_of, style_of};
use scene_app::AppFault;
use scene_command_line::ShellWords;
use scene_kept_lines::{OpeningLimits, StorePlace, StoreShellFault, run_store_shell};
use scene_shell::KeptFault;
use scene_store::{FileLines, StoreFault, Unknown};
use scene_streams::Keep;
use std::io::{BufReader, Read};
use std::sync::Wait;
use std::thread::Threads;

/// The file of a store.
#[derive(Drop)]
struct StoreFile<'a> {
    rt: &'a HostRuntime,
    path: &'a str,
}

impl<'a> StorePlace for StoreFile<'a> {
    type Store = FileLines<Unknown>;

    ghost use Rattle.std.specs.Prelude.{⊤};

    // The kit says nothing of a file that is closed.
    ghost closes = { λ _. ⊤ };

    fn open(&self) -> Result<FileLines<Unknown>, StoreFault> {
        FileLines::open(self.rt, self.path, Unknown)
    }

    fn close(&self, store: FileLines<Unknown>) -> Result<(), StoreFault> {
        store.close(self.rt, self.path)
    }
}

/// How a shell on the store at a path ended.
fn shell_ending(
    rt: &HostRuntime,
    path: &str,
    ended: Result<u64, StoreShellFault<StoreFault>>,
) -> Ending {
    match ended {
        Ok(bad_lines) => Ending::after_bad_lines(u32::from(bad_lines > 0)),
        Err(StoreShellFault::Lines(fault)) => {
            let _told = eprintln!(rt; "scene: {fault}");
            Ending::Told
        }
        Err(StoreShellFault::Shell(KeptFault::Ended(fault))) => Ending::Fault(fault),
        Err(
            StoreShellFault::Unopened(fault)
            | StoreShellFault::Unclosed(fault)
            | StoreShellFault::Shell(KeptFault::Keep(fault)),
        ) => told_store(rt, path, fault),
    }
}

/// Answers the lines of a reader one by one, and keeps those that change something in the store at a place, with the
/// moment.
// Of a place of any kind, so that what `run_store_shell` says needn't be worked out for one whose stores are deep.
fn shell_on<S: StorePlace, R: Read>(
    rt: &HostRuntime,
    threads: &(impl Threads + Wait + Sync),
    place: &S,
    words: &ShellWords,
    reader: &mut BufReader<R>,
) -> Result<u64, StoreShellFault<<S::Store as Keep>::Fault>> {
    let (ended, _stdout) = run_store_shell(
        &performer_of(threads, words),
        rt.alloc(),
        style_of(words),
        place,
        OpeningLimits::usual(),
        rt,
        reader,
        rt.stdout(),
        &mut rt.stderr(),
    );
    ended
}

/// Answers the lines on standard input one by one, and keeps those that change something in the store at a path, which
/// is made where there is none.
pub fn stored_shell(
    rt: &HostRuntime,
    threads: &(impl Threads + Wait + Sync),
    path: &str,
    words: &ShellWords,
) -> Ending {
    let Ok(mut reader) = BufReader::new(rt.alloc(), rt.stdin()) else {
        return Ending::Fault(AppFault::NoMemory);
    };
    let ended = shell_on(rt, threads, &StoreFile { rt, path }, words, &mut reader);
    shell_ending(rt, path, ended)
}
