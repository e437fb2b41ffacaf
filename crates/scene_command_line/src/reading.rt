//! The words of a command line, read by `clap`.
ghost use Rattle.std.specs.Prelude.{◌≡◌, true, false, IfOk, IsErr, map, string_bytes};
ghost use Rattle.clap.specs.Words.{app_of, found_of, kind_of, rows_of, rule_of, shape_of, subcommand_rows_of, with_subcommand};
ghost use Rattle.clap.specs.declared.builder.command.Command.TheViews.{out-Command as fields_of};
ghost use Rattle.clap.specs.Simple.{new_shape};
ghost use Rattle.clap.specs.declared.error.kind.ErrorKind.TheVariants.{OutOfMemory};
ghost use Rattle.scene_command_line.specs.Asks.{ToHelp, asks_of};
ghost use Rattle.scene_command_line.specs.Plain.{AsksForDump, AsksForRestore, AsksForShell, are_plain, asks_for_backup, asks_for_file, asks_for_help, asks_for_workers, plainly_asked, workers_asked};
ghost use Rattle.scene_command_line.specs.Words.{AsksFor, argument_rule, backup_shape, bare_line, by_kind, command_named, command_of, dump_shape, file_rule, file_shape, flag_rule, has_flag, line_without_file, option_rule, required_option_rule, restore_shape, run_shape, scene_line, shell_shape, workers_rule};

use crate::asked::{
    Asked, backup_asked, compact_asked, dump_asked, log_asked, restore_asked, run_asked,
    shell_asked, show_asked,
};
use crate::texts;
use clap::error::ErrorKind;
use clap::{Arg, ArgAction, ArgMatches, Command, Error};
use std::alloc::{AllocError, Global};

/// A command with its help texts, which takes no arguments.
fn command<'a>(alloc: Global, name: &'a str, about: &'a str, more: &'a str) -> Command<'a>
    ensures shape { shape_of result ≡ new_shape name.entry.now }
    ensures local { (fields_of result).has_globals ≡ false }
{
    Command::new(alloc, name).about(about).after_help(more)
}

/// An option that takes one word, which the help text calls `value`.
fn option<'a>(alloc: Global, name: &'a str, value: &'a str, help: &'a str) -> Arg<'a>
    ensures rule { rule_of result ≡ option_rule name.entry.now }
    ensures local { result.global ≡ false }
{
    Arg::new(alloc, name)
        .long(name)
        .action(ArgAction::Set)
        .value_name(value)
        .help(help)
}

/// An option that takes one word and has to be given.
fn required_option<'a>(alloc: Global, name: &'a str, value: &'a str, help: &'a str) -> Arg<'a>
    ensures rule { rule_of result ≡ required_option_rule name.entry.now }
    ensures local { result.global ≡ false }
{
    option(alloc, name, value, help).required(true)
}

/// An option that takes no word.
fn flag<'a>(alloc: Global, name: &'a str, help: &'a str) -> Arg<'a>
    ensures rule { rule_of result ≡ flag_rule name.entry.now }
    ensures local { result.global ≡ false }
{
    Arg::new(alloc, name)
        .long(name)
        .action(ArgAction::SetTrue)
        .help(help)
}

/// The option `--workers`.
fn workers_option<'a>(alloc: Global) -> Arg<'a>
    ensures rule { rule_of result ≡ workers_rule }
    ensures local { result.global ≡ false }
{
    option(alloc, "workers", "N", texts::WORKERS)
}

/// The command `run` with its option.
fn run_command<'a>(alloc: Global) -> Result<Command<'a>, AllocError>
    ensures shape { IfOk result (λ c. shape_of c ≡ run_shape) }
    ensures local { IfOk result (λ c. (fields_of c).has_globals ≡ false) }
{
    command(alloc, "run", texts::RUN, texts::RUN_MORE).arg(workers_option(alloc))
}

/// The command `shell` with its options.
fn shell_command<'a>(alloc: Global) -> Result<Command<'a>, AllocError>
    ensures shape { IfOk result (λ c. shape_of c ≡ shell_shape) }
    ensures local { IfOk result (λ c. (fields_of c).has_globals ≡ false) }
{
    command(alloc, "shell", texts::SHELL, texts::SHELL_MORE)
        .arg(workers_option(alloc))?
        .arg(option(alloc, "depth", "N", texts::DEPTH))?
        .arg(flag(alloc, "framed", texts::FRAMED))?
        .arg(flag(alloc, "json", texts::JSON))?
        .arg(option(alloc, "store", "FILE", texts::STORE))
}

/// A word that has to be given, which the help text calls `value`.
fn argument<'a>(alloc: Global, name: &'a str, value: &'a str, help: &'a str) -> Arg<'a>
    ensures rule { rule_of result ≡ argument_rule name.entry.now }
    ensures local { result.global ≡ false }
{
    Arg::new(alloc, name)
        .required(true)
        .action(ArgAction::Set)
        .value_name(value)
        .help(help)
}

/// The name of a store's file.
fn file_argument<'a>(alloc: Global) -> Arg<'a>
    ensures rule { rule_of result ≡ file_rule }
    ensures local { result.global ≡ false }
{
    argument(alloc, "file", "FILE", texts::FILE)
}

/// A command with its help texts, which takes the name of a store's file.
fn file_command<'a>(
    alloc: Global,
    name: &'a str,
    about: &'a str,
    more: &'a str,
) -> Result<Command<'a>, AllocError>
    ensures shape { IfOk result (λ c. shape_of c ≡ file_shape name.entry.now) }
    ensures local { IfOk result (λ c. (fields_of c).has_globals ≡ false) }
{
    command(alloc, name, about, more).arg(file_argument(alloc))
}

/// The command `dump` with the name of a store's file and its option.
fn dump_command<'a>(alloc: Global) -> Result<Command<'a>, AllocError>
    ensures shape { IfOk result (λ c. shape_of c ≡ dump_shape) }
    ensures local { IfOk result (λ c. (fields_of c).has_globals ≡ false) }
{
    command(alloc, "dump", texts::DUMP, texts::DUMP_MORE)
        .arg(file_argument(alloc))?
        .arg(flag(alloc, "all", texts::ALL))
}

/// The command `backup` with the names of the two files.
fn backup_command<'a>(alloc: Global) -> Result<Command<'a>, AllocError>
    ensures shape { IfOk result (λ c. shape_of c ≡ backup_shape) }
    ensures local { IfOk result (λ c. (fields_of c).has_globals ≡ false) }
{
    command(alloc, "backup", texts::BACKUP, texts::BACKUP_MORE)
        .arg(file_argument(alloc))?
        .arg(argument(alloc, "copy", "TO", texts::COPY))
}

/// The command `restore` with the names of the two files and its option.
fn restore_command<'a>(alloc: Global) -> Result<Command<'a>, AllocError>
    ensures shape { IfOk result (λ c. shape_of c ≡ restore_shape) }
    ensures local { IfOk result (λ c. (fields_of c).has_globals ≡ false) }
{
    command(alloc, "restore", texts::RESTORE, texts::RESTORE_MORE)
        .arg(file_argument(alloc))?
        .arg(argument(alloc, "copy", "TO", texts::COPY))?
        .arg(required_option(alloc, "at", "N", texts::AT))
}

/// The line with the command `run` behind its others.
fn with_run_command<'a>(alloc: Global, line: Command<'a>) -> Result<Command<'a>, AllocError>
    ensures { IfOk result (λ c. app_of c ≡ with_subcommand (app_of line.entry) run_shape) }
{
    let run = run_command(alloc)?;
    line.subcommand(run)
}

/// The line with the command `shell` behind its others.
fn with_shell_command<'a>(alloc: Global, line: Command<'a>) -> Result<Command<'a>, AllocError>
    ensures { IfOk result (λ c. app_of c ≡ with_subcommand (app_of line.entry) shell_shape) }
{
    let shell = shell_command(alloc)?;
    line.subcommand(shell)
}

/// The line with a command behind its others that takes the name of a store's file.
fn with_file_command<'a>(
    alloc: Global,
    line: Command<'a>,
    name: &'a str,
    about: &'a str,
    more: &'a str,
) -> Result<Command<'a>, AllocError>
    ensures { IfOk result (λ c. app_of c ≡ with_subcommand (app_of line.entry) (file_shape name.entry.now)) }
{
    let command = file_command(alloc, name, about, more)?;
    line.subcommand(command)
}

/// The line with the command `dump` behind its others.
fn with_dump_command<'a>(alloc: Global, line: Command<'a>) -> Result<Command<'a>, AllocError>
    ensures { IfOk result (λ c. app_of c ≡ with_subcommand (app_of line.entry) dump_shape) }
{
    let dump = dump_command(alloc)?;
    line.subcommand(dump)
}

/// The line with the command `backup` behind its others.
fn with_backup_command<'a>(alloc: Global, line: Command<'a>) -> Result<Command<'a>, AllocError>
    ensures { IfOk result (λ c. app_of c ≡ with_subcommand (app_of line.entry) backup_shape) }
{
    let backup = backup_command(alloc)?;
    line.subcommand(backup)
}

/// The line with the command `restore` behind its others.
fn with_restore_command<'a>(alloc: Global, line: Command<'a>) -> Result<Command<'a>, AllocError>
    ensures { IfOk result (λ c. app_of c ≡ with_subcommand (app_of line.entry) restore_shape) }
{
    let restore = restore_command(alloc)?;
    line.subcommand(restore)
}

/// The program before it has commands, as `clap` reads it.
fn bare_line<'a>(alloc: Global) -> Result<Command<'a>, AllocError>
    ensures { IfOk result (λ c. app_of c ≡ bare_line) }
{
    Command::new(alloc, "scene")
        .about(texts::PROGRAM)
        .after_help(texts::PROGRAM_MORE)
        .subcommand_required(true)
        .bin_name("scene")
}

/// The commands that no file follows, as `clap` reads them. Each command is made where it is added, so that a failure
/// has nothing else to drop.
fn commands_without_file<'a>(alloc: Global) -> Result<Command<'a>, AllocError>
    ensures { IfOk result (λ c. app_of c ≡ line_without_file) }
{
    let line = bare_line(alloc)?;
    let line = with_run_command(alloc, line)?;
    let line = with_shell_command(alloc, line)?;
    line.subcommand(command(alloc, "check", texts::CHECK, texts::CHECK_MORE))?
        .subcommand(command(alloc, "print", texts::PRINT, texts::PRINT_MORE))
}

/// The commands of the program, as `clap` reads them.
fn commands<'a>(alloc: Global) -> Result<Command<'a>, AllocError>
    ensures { IfOk result (λ c. app_of c ≡ scene_line) }
{
    let line = commands_without_file(alloc)?;
    let line = with_file_command(alloc, line, "show", texts::SHOW, texts::SHOW_MORE)?;
    let line = with_dump_command(alloc, line)?;
    let line = with_file_command(alloc, line, "log", texts::LOG, texts::LOG_MORE)?;
    let line = with_file_command(alloc, line, "compact", texts::COMPACT, texts::COMPACT_MORE)?;
    let line = with_backup_command(alloc, line)?;
    with_restore_command(alloc, line)
}

/// Whether the flag of this name is given.
fn has_flag(options: &ArgMatches<'_>, name: &str) -> bool
    ensures { result ≡ has_flag name.now (rows_of (found_of options.now)) }
{
    options.get_one::<bool>(name).unwrap_or(false)
}

/// The command of this name, with its options. It is refused only for want of memory.
fn command_named(alloc: Global, name: &str, options: &ArgMatches<'_>) -> Result<Asked, AllocError>
    ensures { IfOk result (λ asked. asks_of asked ≡ command_named name.now (rows_of (found_of options.now))) }
{
    match name {
        "run" => Ok(run_asked(options.get_str("workers"))),
        "shell" => shell_asked(
            alloc,
            options.get_str("workers"),
            options.get_str("depth"),
            has_flag(options, "framed"),
            has_flag(options, "json"),
            options.get_str("store"),
        ),
        "check" => Ok(Asked::Check),
        "print" => Ok(Asked::Print),
        "show" => show_asked(alloc, options.get_str("file")),
        "dump" => dump_asked(alloc, has_flag(options, "all"), options.get_str("file")),
        "log" => log_asked(alloc, options.get_str("file")),
        "compact" => compact_asked(alloc, options.get_str("file")),
        "backup" => backup_asked(alloc, options.get_str("file"), options.get_str("copy")),
        "restore" => restore_asked(
            alloc,
            options.get_str("file"),
            options.get_str("copy"),
            options.get_str("at"),
        ),
        _ => Ok(Asked::Bad),
    }
}

/// The command whose name stands among the words. It is refused only for want of memory.
fn command_met(alloc: Global, matches: &ArgMatches<'_>) -> Result<Asked, AllocError>
    ensures { IfOk result (λ asked. asks_of asked ≡ command_of (subcommand_rows_of matches.now)) }
{
    match matches.subcommand() {
        Some((name, options)) => command_named(alloc, name, options),
        None => Ok(Asked::Bad),
    }
}

/// What the words ask for where `clap` finds no command in them. It is refused only for want of memory.
fn without_command(alloc: Global, error: &Error) -> Result<Asked, AllocError>
    ensures asked { IfOk result (λ asked. asks_of asked ≡ by_kind (kind_of error.now)) }
    ensures memory { kind_of error.now ≡ OutOfMemory → IsErr result }
{
    match error.kind() {
        ErrorKind::OutOfMemory => Err(AllocError),
        ErrorKind::DisplayHelp => Ok(Asked::Help(error.to_string(alloc)?)),
        _ => Ok(Asked::Bad),
    }
}

/// What the words of a command line ask for, the program's own name first (docs/SCRIPTS.md, "Command line"). It is
/// refused only for want of memory, and costs as much as the library takes to look through the words.
pub fn read_words<'a>(alloc: Global, words: &'a [String]) -> Result<Asked, AllocError>
    ensures asked { IfOk result (λ asked. AsksFor (asks_of asked) (map string_bytes words.now)) }
    ensures plain { are_plain (map string_bytes words.now) ≡ true
        → IfOk result (λ asked. asks_of asked ≡ plainly_asked (map string_bytes words.now)) }
    ensures workers { asks_for_workers (map string_bytes words.now) ≡ true
        → IfOk result (λ asked. asks_of asked ≡ workers_asked (map string_bytes words.now)) }
    ensures shell { IfOk result (λ asked. AsksForShell (asks_of asked) (map string_bytes words.now)) }
    ensures dump { IfOk result (λ asked. AsksForDump (asks_of asked) (map string_bytes words.now)) }
    ensures restore { IfOk result (λ asked. AsksForRestore (asks_of asked) (map string_bytes words.now)) }
    ensures file { asks_for_file (map string_bytes words.now) ≡ true
        → IfOk result (λ asked. asks_of asked ≡ plainly_asked (map string_bytes words.now)) }
    ensures backup { asks_for_backup (map string_bytes words.now) ≡ true
        → IfOk result (λ asked. asks_of asked ≡ plainly_asked (map string_bytes words.now)) }
    ensures help { asks_for_help (map string_bytes words.now) ≡ true → IfOk result (λ asked. asks_of asked ≡ ToHelp) }
{
    let commands = commands(alloc)?;
    match commands.try_get_matches_from(words) {
        Ok(matches) => command_met(alloc, &matches),
        Err(error) => without_command(alloc, &error),
    }
}
