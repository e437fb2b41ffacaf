//! What a command line asks for.
ghost use Rattle.std.specs.Prelude.{◌≡◌, IfOk, option_map, string_bytes};
ghost use Rattle.scene_command_line.specs.Asks.{ToCompact, ToDump, ToLog, ToShow, asks_of};
ghost use Rattle.scene_command_line.specs.Words.{backup_asked, depth_given, entry_given, file_asked, file_given, file_in, number_to, restore_asked, run_asked, shell_asked, shell_by, workers_given};

use std::alloc::{AllocError, Global};

/// How many workers an advance has at most.
const MOST_WORKERS: u8 = 16;

/// Of how many frames a shell keeps a record at most, and where the words don't say it.
const MOST_DEPTH: u32 = 1_048_576;

/// What the words of a command line ask the program for (docs/SCRIPTS.md, "Command line").
#[derive(Debug, Drop)]
pub enum Asked {
    /// `scene run`: to play the script on standard input, with so many workers, 1 to 16.
    Run(u8),
    /// `scene shell`: to answer each line on standard input before the next one is awaited.
    Shell(ShellWords),
    /// `scene check`: to say whether the scene text on standard input is good.
    Check,
    /// `scene print`: to show the scene of the scene text on standard input.
    Print,
    /// `scene show FILE`: to show the world of the store in this file.
    Show(String),
    /// `scene dump FILE`: to print the scene text of the store in a file.
    Dump(DumpWords),
    /// `scene log FILE`: to tell what the lines of the store in this file have done.
    Log(String),
    /// `scene compact FILE`: to make the store in this file shorter.
    Compact(String),
    /// `scene backup FILE TO`: to copy the store in a file into another.
    Backup(BackupWords),
    /// `scene restore FILE TO --at N`: to make a store, in another file, of what one has up to an entry of its log.
    Restore(RestoreWords),
    /// `scene --help` and its kin: to print this help text.
    Help(String),
    /// Nothing, since the command line is bad.
    Bad,
}

/// How a shell is asked for.
#[derive(Debug, Drop)]
pub struct ShellWords {
    /// `--workers N`: how many threads write large columns, 1 to 16, and 1 without the option.
    pub workers: u8,
    /// `--depth N`: of how many frames a record is kept, 1 to 1,048,576, and the most of them without the option. No
    /// store is named beside it, since a store tells its depth itself.
    pub depth: u32,
    /// `--framed`: whether each answer ends with an empty line.
    pub is_framed: bool,
    /// `--json`: whether each answer is JSON.
    pub is_json: bool,
    /// `--store FILE`: the file that keeps the lines, whose name isn't empty. Without the option no file does.
    pub store: Option<String>,
}

/// How a scene text is asked for.
#[derive(Debug, Drop)]
pub struct DumpWords {
    /// The file of the store, whose name isn't empty.
    pub file: String,
    /// `--all`: whether the text has the past and the future too.
    pub is_whole: bool,
}

/// How a backup is asked for.
#[derive(Debug, Drop)]
pub struct BackupWords {
    /// The file of the store, whose name isn't empty.
    pub file: String,
    /// The file that the copy is to be, whose name isn't empty.
    pub copy: String,
}

/// How a restore is asked for.
#[derive(Debug, Drop)]
pub struct RestoreWords {
    /// The file of the store, whose name isn't empty.
    pub file: String,
    /// The file that the copy is to be, whose name isn't empty.
    pub copy: String,
    /// `--at N`: the number of the last entry of `scene log` that the copy has, from 1.
    pub at: u64,
}

/// The number of workers that a word is, 1 to 16.
#[tactic(auto, using(crate::proofs::NumberLaws::workers_read))]
fn workers_in(word: &str) -> Option<u8>
    ensures { result ≡ number_to 16 word.now }
{
    let workers = word.parse::<u8>().unwrap_or(0);
    if 0 < workers && workers <= MOST_WORKERS {
        Some(workers)
    } else {
        None
    }
}

/// The depth that a word is, 1 to 1,048,576.
#[tactic(auto, using(crate::proofs::NumberLaws::depth_read))]
fn depth_in(word: &str) -> Option<u32>
    ensures { result ≡ number_to 1048576 word.now }
{
    let depth = word.parse::<u32>().unwrap_or(0);
    if 0 < depth && depth <= MOST_DEPTH {
        Some(depth)
    } else {
        None
    }
}

/// The number of an entry that a word is, 1 to 18,446,744,073,709,551,615.
#[tactic(auto, using(crate::proofs::NumberLaws::entry_read))]
fn entry_in(word: &str) -> Option<u64>
    ensures { result ≡ number_to 18446744073709551615 word.now }
{
    let entry = word.parse::<u64>().unwrap_or(0);
    if 0 < entry { Some(entry) } else { None }
}

/// The name of a file that a word is: any word but the empty one.
fn file_in(word: &str) -> Option<&str>
    ensures { option_map (λ w. w.now) result ≡ file_in word.now }
{
    if word.is_empty() { None } else { Some(word) }
}

/// The number of workers that a word says, if one does, and else one.
fn workers_given(word: Option<&str>) -> Option<u8>
    ensures { result ≡ workers_given (option_map (λ w. w.now) word.entry) }
{
    match word {
        Some(word) => workers_in(word),
        None => Some(1),
    }
}

/// The depth that a word says, if one does, and else the most.
fn depth_given(word: Option<&str>) -> Option<u32>
    ensures { result ≡ depth_given (option_map (λ w. w.now) word.entry) }
{
    match word {
        Some(word) => depth_in(word),
        None => Some(MOST_DEPTH),
    }
}

/// The number of an entry that a word says, if one does.
fn entry_given(word: Option<&str>) -> Option<u64>
    ensures { result ≡ entry_given (option_map (λ w. w.now) word.entry) }
{
    match word {
        Some(word) => entry_in(word),
        None => None,
    }
}

/// The file that a word names, if one does. It is refused only for want of memory.
fn file_given(alloc: Global, word: Option<&str>) -> Result<Option<String>, AllocError>
    ensures { IfOk result (λ file. option_map string_bytes file ≡ file_given (option_map (λ w. w.now) word.entry)) }
{
    match word {
        Some(word) => match file_in(word) {
            Some(name) => Ok(Some(String::from_str(alloc, name)?)),
            None => Ok(None),
        },
        None => Ok(None),
    }
}

/// A run with the workers that a word says, if one does.
pub(crate) fn run_asked(workers: Option<&str>) -> Asked
    ensures { asks_of result ≡ run_asked (option_map (λ w. w.now) workers.entry) }
{
    match workers_given(workers) {
        Some(workers) => Asked::Run(workers),
        None => Asked::Bad,
    }
}

/// A shell with these workers and this depth, where both are numbers that it may have.
fn shell_by(
    workers: Option<u8>,
    depth: Option<u32>,
    is_framed: bool,
    is_json: bool,
    store: Option<String>,
) -> Asked
    ensures { asks_of result ≡ shell_by workers depth is_framed is_json (option_map string_bytes store) }
{
    match (workers, depth) {
        (Some(workers), Some(depth)) => Asked::Shell(ShellWords {
            workers,
            depth,
            is_framed,
            is_json,
            store,
        }),
        _ => Asked::Bad,
    }
}

/// A shell with the workers, the depth and the store that words say, if words do. A depth beside a store is bad. It is
/// refused only for want of memory.
pub(crate) fn shell_asked(
    alloc: Global,
    workers: Option<&str>,
    depth: Option<&str>,
    is_framed: bool,
    is_json: bool,
    store: Option<&str>,
) -> Result<Asked, AllocError>
    ensures { IfOk result (λ asked. asks_of asked ≡ shell_asked (option_map (λ w. w.now) workers.entry)
        (option_map (λ w. w.now) depth.entry) is_framed is_json (option_map (λ w. w.now) store.entry)) }
{
    let workers = workers_given(workers);
    match (store, depth) {
        (None, depth) => Ok(shell_by(workers, depth_given(depth), is_framed, is_json, None)),
        (Some(_), Some(_)) => Ok(Asked::Bad),
        (Some(_), None) => match file_given(alloc, store)? {
            Some(file) => Ok(shell_by(workers, depth_given(None), is_framed, is_json, Some(file))),
            None => Ok(Asked::Bad),
        },
    }
}

/// The world of a store in the file that a word names, if one does. It is refused only for want of memory.
pub(crate) fn show_asked(alloc: Global, file: Option<&str>) -> Result<Asked, AllocError>
    ensures { IfOk result (λ asked. asks_of asked ≡ file_asked ToShow (option_map (λ w. w.now) file.entry)) }
{
    match file_given(alloc, file)? {
        Some(file) => Ok(Asked::Show(file)),
        None => Ok(Asked::Bad),
    }
}

/// The scene text of a store in the file that a word names, if one does. It is refused only for want of memory.
pub(crate) fn dump_asked(
    alloc: Global,
    is_whole: bool,
    file: Option<&str>,
) -> Result<Asked, AllocError>
    ensures { IfOk result (λ asked. asks_of asked ≡ file_asked (ToDump is_whole) (option_map (λ w. w.now) file.entry)) }
{
    match file_given(alloc, file)? {
        Some(file) => Ok(Asked::Dump(DumpWords { file, is_whole })),
        None => Ok(Asked::Bad),
    }
}

/// What the lines of a store have done, in the file that a word names, if one does. It is refused only for want of
/// memory.
pub(crate) fn log_asked(alloc: Global, file: Option<&str>) -> Result<Asked, AllocError>
    ensures { IfOk result (λ asked. asks_of asked ≡ file_asked ToLog (option_map (λ w. w.now) file.entry)) }
{
    match file_given(alloc, file)? {
        Some(file) => Ok(Asked::Log(file)),
        None => Ok(Asked::Bad),
    }
}

/// A shorter store in the file that a word names, if one does. It is refused only for want of memory.
pub(crate) fn compact_asked(alloc: Global, file: Option<&str>) -> Result<Asked, AllocError>
    ensures { IfOk result (λ asked. asks_of asked ≡ file_asked ToCompact (option_map (λ w. w.now) file.entry)) }
{
    match file_given(alloc, file)? {
        Some(file) => Ok(Asked::Compact(file)),
        None => Ok(Asked::Bad),
    }
}

/// A copy of a store, in the files that two words name, if they do. It is refused only for want of memory.
pub(crate) fn backup_asked(
    alloc: Global,
    file: Option<&str>,
    copy: Option<&str>,
) -> Result<Asked, AllocError>
    ensures { IfOk result (λ asked. asks_of asked ≡ backup_asked (option_map (λ w. w.now) file.entry)
        (option_map (λ w. w.now) copy.entry)) }
{
    let file = file_given(alloc, file)?;
    let copy = file_given(alloc, copy)?;
    match (file, copy) {
        (Some(file), Some(copy)) => Ok(Asked::Backup(BackupWords { file, copy })),
        _ => Ok(Asked::Bad),
    }
}

/// A store as it was at the entry that a word says, in the files that two words name, if they do. It is refused only for
/// want of memory.
pub(crate) fn restore_asked(
    alloc: Global,
    file: Option<&str>,
    copy: Option<&str>,
    entry: Option<&str>,
) -> Result<Asked, AllocError>
    ensures { IfOk result (λ asked. asks_of asked ≡ restore_asked (option_map (λ w. w.now) file.entry)
        (option_map (λ w. w.now) copy.entry) (option_map (λ w. w.now) entry.entry)) }
{
    let file = file_given(alloc, file)?;
    let copy = file_given(alloc, copy)?;
    match (file, copy, entry_given(entry)) {
        (Some(file), Some(copy), Some(at)) => Ok(Asked::Restore(RestoreWords { file, copy, at })),
        _ => Ok(Asked::Bad),
    }
}
