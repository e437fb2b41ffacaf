//! The program `scene`: plays a script, or looks at a scene text, that it reads from standard input
//! (docs/SCRIPTS.md, "Command line").
//!
//! What the words of the command line ask for is scene_command_line's, and what is read and printed is scene_app's.
//! Here the streams are joined to them, and it is said with which exit status the program ends and what standard error
//! tells.
#![tactic(auto)]

mod ending;
mod shell_store;
mod store_looks;
mod stored;

use crate::ending::Ending;
use crate::shell_store::stored_shell;
use crate::store_looks::{backup_store, dump_store, log_store, restore_store, show_store};
use crate::stored::compact_store;
use scene_app::{AloneEnd, AppFault, BadLines, check_scene, print_scene, run_alone};
use scene_command_line::{Asked, ShellWords, mistake_in, read_words};
use scene_interpreter::InterpreterSettings;
use scene_script::Limit;
use scene_session::OnThreads;
use scene_shell::{AnswerStyle, ShellSettings, run_shell};
use scene_streams::{Sink, Source};
use std::fmt::Display;
use std::io::{BufReader, ErrorKind, IsTerminal};
use std::mem::ManuallyDrop;
use std::process::ExitCode;
use std::sync::Wait;
use std::thread::Threads;
use std::{env, io};

/// The words of the command line, the program's own name first.
fn words_given(rt: &HostRuntime) -> io::Result<Vec<String>> {
    Ok(env::args(rt)?.collect(rt.alloc())?)
}

/// Says on standard error where the first bad lines are and why, and how many more there are.
fn tell_bad_lines(rt: &HostRuntime, bad: &BadLines) -> io::Result<()> {
    for report in &bad.first {
        eprintln!(rt; "scene: {report}")?;
    }
    match (bad.count as usize).saturating_sub(bad.first.len()) {
        0 => Ok(()),
        1 => eprintln!(rt; "scene: 1 more bad line"),
        more => eprintln!(rt; "scene: {more} more bad lines"),
    }
}

/// Plays the script on standard input, with so many workers for an advance.
fn run(rt: &HostRuntime, threads: &(impl Threads + Wait + Sync), workers: u8) -> Ending {
    let mut source = Source::new(rt.stdin());
    let mut sink = Sink::new(rt.stdout());
    match run_alone(
        threads,
        rt.alloc(),
        workers as usize,
        &mut source,
        &mut sink,
    ) {
        Ok(end) => {
            let AloneEnd { bad, owner } = end;
            // The process ends, and its memory with it: to take the scene apart first costs a quarter of a run.
            let _left = ManuallyDrop::new(owner);
            // A standard error that can't be written changes no status.
            let _told = tell_bad_lines(rt, &bad);
            Ending::after_bad_lines(bad.count)
        }
        Err(fault) => Ending::Fault(fault),
    }
}

/// How the answers of a shell are written, by the words that ask for it.
pub(crate) fn style_of(words: &ShellWords) -> AnswerStyle {
    AnswerStyle {
        is_json: words.is_json,
        is_framed: words.is_framed,
    }
}

/// Who performs the calls of a shell, by the words that ask for it.
pub(crate) fn performer_of<'a, T: Threads + Sync>(
    threads: &'a T,
    words: &ShellWords,
) -> OnThreads<&'a T> {
    OnThreads::new(threads, words.workers as usize)
}

/// How a shell is to be, by the words that ask for it; nothing where its depth is out of range, which no words ask for.
fn shell_settings(words: &ShellWords) -> Option<ShellSettings> {
    let depth = Limit::new(words.depth)?;
    let InterpreterSettings { calls, .. } = InterpreterSettings::unlimited();
    Some(ShellSettings {
        interpreter: InterpreterSettings { depth, calls },
        style: style_of(words),
    })
}

/// Answers the lines on standard input one by one.
fn shell(rt: &HostRuntime, threads: &(impl Threads + Wait + Sync), words: ShellWords) -> Ending {
    if let Some(path) = &words.store {
        return stored_shell(rt, threads, path.as_str(), &words);
    }
    let Some(settings) = shell_settings(&words) else {
        return Ending::BadCommandLine;
    };
    let Ok(mut reader) = BufReader::new(rt.alloc(), rt.stdin()) else {
        return Ending::Fault(AppFault::NoMemory);
    };
    let (ended, _stdout) = run_shell(
        &performer_of(threads, &words),
        rt.alloc(),
        settings,
        &mut reader,
        rt.stdout(),
        &mut rt.stderr(),
    );
    match ended {
        Ok(bad_lines) => Ending::after_bad_lines(u32::from(bad_lines > 0)),
        Err(fault) => Ending::Fault(fault),
    }
}

/// Says whether the scene text on standard input is good.
fn check(rt: &HostRuntime) -> Ending {
    let mut source = Source::new(rt.stdin());
    let mut sink = Sink::new(rt.stdout());
    match check_scene(rt.alloc(), &mut source, &mut sink) {
        Ok(accepted) => Ending::after_scene(accepted),
        Err(fault) => Ending::Fault(fault),
    }
}

/// Shows the world of the scene text on standard input.
fn print(rt: &HostRuntime) -> Ending {
    let mut source = Source::new(rt.stdin());
    let mut sink = Sink::new(rt.stdout());
    match print_scene(rt.alloc(), &mut source, &mut sink) {
        Ok(accepted) => Ending::after_scene(accepted),
        Err(fault) => Ending::Fault(fault),
    }
}

/// Prints a text.
pub(crate) fn printed(rt: &HostRuntime, text: &str) -> Ending {
    match rt.print(text) {
        Ok(()) => Ending::Done,
        Err(_) => Ending::Fault(AppFault::WriteFault),
    }
}

/// Does what the words of the command line ask for.
fn end(rt: &HostRuntime, threads: &(impl Threads + Wait + Sync), words: &[String]) -> Ending {
    match read_words(rt.alloc(), words) {
        Ok(Asked::Run(workers)) => run(rt, threads, workers),
        Ok(Asked::Shell(words)) => shell(rt, threads, words),
        Ok(Asked::Check) => check(rt),
        Ok(Asked::Print) => print(rt),
        Ok(Asked::Show(path)) => show_store(rt, path.as_str()),
        Ok(Asked::Dump(words)) => dump_store(rt, &words),
        Ok(Asked::Log(path)) => log_store(rt, path.as_str()),
        Ok(Asked::Compact(path)) => compact_store(rt, path.as_str()),
        Ok(Asked::Backup(words)) => backup_store(rt, &words),
        Ok(Asked::Restore(words)) => restore_store(rt, &words),
        Ok(Asked::Help(text)) => printed(rt, text.as_str()),
        Ok(Asked::Bad) => Ending::BadCommandLine,
        Err(_) => Ending::Fault(AppFault::NoMemory),
    }
}

/// Says on standard error that the command line is bad, and where that is a terminal, what is wrong with it.
fn tell_bad_words(rt: &HostRuntime, why: &impl Display) -> io::Result<()> {
    eprintln!(rt; "scene: bad command line")?;
    if rt.stderr().is_terminal() {
        eprintln!(rt; "scene: {why}")?;
    }
    Ok(())
}

/// Says on standard error why the program ends, where its output doesn't say it. The words are those that were read, so
/// that no want of memory keeps back what is wrong with them.
fn tell(rt: &HostRuntime, ending: Ending, words: &[String]) -> io::Result<()> {
    match ending {
        Ending::Done | Ending::Refused | Ending::Told => Ok(()),
        Ending::Store(fault) => eprintln!(rt; "scene: {fault}"),
        Ending::BadCommandLine => tell_bad_words(rt, &mistake_in(words)),
        Ending::Fault(fault) => eprintln!(rt; "scene: {fault}"),
    }
}

/// Says on standard error why the words of the command line weren't read.
fn tell_unread(rt: &HostRuntime, error: &io::Error) -> io::Result<Ending> {
    if error.kind() == ErrorKind::OutOfMemory {
        eprintln!(rt; "scene: {}", AppFault::NoMemory)?;
        Ok(Ending::Fault(AppFault::NoMemory))
    } else {
        tell_bad_words(rt, &"a word is no UTF-8")?;
        Ok(Ending::BadCommandLine)
    }
}

/// Does what the command line asks for, and says why the program ends.
fn end_told(rt: &HostRuntime, threads: &(impl Threads + Wait + Sync)) -> io::Result<Ending> {
    match words_given(rt) {
        Ok(words) => {
            let ending = end(rt, threads, words.as_slice());
            tell(rt, ending, words.as_slice())?;
            Ok(ending)
        }
        Err(error) => tell_unread(rt, &error),
    }
}

fn main(rt: HostRuntime) -> ExitCode {
    match end_told(&rt, &rt) {
        Ok(ending) => ending.exit_code(),
        Err(_) => ExitCode::from(3),
    }
}
