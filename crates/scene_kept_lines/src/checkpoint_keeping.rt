//! When a checkpoint is kept: behind a long opening, and at a shell's end (docs/SHELL.md, "Checkpoints").
ghost use Rattle.std.specs.Prelude.{OnOk};
ghost use Rattle.scene_streams.specs.Keep.{StaysKept};

use crate::checkpoint_text::checkpoint_of;
use crate::kept_notes::KeptNotes;
use crate::new_lines::NewLines;
use crate::opening::{Opening, OpeningLimits, tell_opening};
use crate::play_again::Note;
use crate::played_lines::PlayedLines;
use crate::system_lines::SystemLines;
use scene_interpreter::Interpreter;
use scene_kinds::Schema;
use scene_script::first_line;
use scene_session::LoneOwner;
use std::alloc::{AllocError, Global};
use std::io::Write;

/// Keeps a checkpoint of an interpreter, whose systems these lines give, where there can be one. It says whether it did.
fn keep_checkpoint<S: KeptNotes>(
    alloc: Global,
    store: &mut S,
    interpreter: &Interpreter<LoneOwner>,
    systems: &[u8],
    calls: u64,
) -> Result<bool, S::Fault>
    ensures { OnOk result (StaysKept S.keeps store.old store.new) }
{
    match checkpoint_of(alloc, interpreter, systems, calls) {
        Some(text) => match store.note(text.as_slice()) {
            Ok(()) => Ok(true),
            Err(fault) => Err(fault),
        },
        None => Ok(false),
    }
}

/// How many rows and records the scene text of an interpreter has; none in the setup.
fn parts_of(interpreter: &Interpreter<LoneOwner>) -> u64 {
    let Some(editor) = interpreter.editor() else {
        return 0;
    };
    let (past, future) = editor.records();
    let records = past.len().saturating_add(future.len());
    editor.world().slots().len().saturating_add(records) as u64
}

/// Keeps a checkpoint where an opening was long, and cost more than one from there will, and tells of a long one on a
/// stream of errors. It says how many lines were played and stand behind the newest checkpoint.
pub(crate) fn end_opening<S: KeptNotes, E: Write>(
    alloc: Global,
    store: &mut S,
    played: &PlayedLines,
    calls: u64,
    limits: OpeningLimits,
    errors: &mut E,
) -> Result<u64, S::Fault>
    ensures { OnOk result (StaysKept S.keeps store.old store.new) }
{
    let PlayedLines {
        interpreter,
        systems,
        opening,
    } = played;
    if !opening.is_long(limits) {
        return Ok(opening.lines);
    }
    if !opening.outweighs(parts_of(interpreter)) {
        tell_opening(errors, *opening, false);
        return Ok(opening.lines);
    }
    match keep_checkpoint(alloc, store, interpreter, systems.lines.as_slice(), calls) {
        Ok(is_kept) => {
            tell_opening(errors, *opening, is_kept);
            Ok(if is_kept { 0 } else { opening.lines })
        }
        Err(fault) => Err(fault),
    }
}

/// Notes the lines of systems among others, by these kinds.
fn note_lines(
    alloc: Global,
    systems: &mut SystemLines,
    schema: &Schema,
    text: &[u8],
) -> Result<(), AllocError> {
    let mut rest = text;
    'lines: while !rest.is_empty() {
        let (line, more) = first_line(rest);
        systems.note(alloc, schema, line)?;
        rest = more;
    }
    Ok(())
}

/// Notes those among the lines that were kept behind the ones that were played.
fn note_systems(
    alloc: Global,
    played: &mut PlayedLines,
    new_lines: &NewLines,
) -> Result<(), AllocError> {
    let PlayedLines {
        interpreter,
        systems,
        ..
    } = played;
    match &new_lines.of_systems {
        Some(text) => note_lines(alloc, systems, interpreter.schema(), text.as_slice()),
        None => Err(AllocError),
    }
}

/// Keeps a checkpoint as a shell ends, where the lines behind the newest one are many, and to play them costs more than
/// one from here will. So many of them were played as it began.
pub(crate) fn end_shell<S: KeptNotes>(
    alloc: Global,
    store: &mut S,
    played: &mut PlayedLines,
    behind: u64,
    calls: u64,
    limits: OpeningLimits,
) -> Result<(), S::Fault>
    ensures { OnOk result (StaysKept S.keeps store.old store.new) }
{
    let lines = behind.saturating_add(store.new_lines().count);
    let next = Opening {
        lines,
        millis: None,
    };
    if !next.is_long(limits) || !next.outweighs(parts_of(&played.interpreter)) {
        return Ok(());
    }
    if note_systems(alloc, played, store.new_lines()).is_err() {
        return Ok(());
    }
    let PlayedLines {
        interpreter,
        systems,
        ..
    } = &*played;
    match keep_checkpoint(alloc, store, interpreter, systems.lines.as_slice(), calls) {
        Ok(_) => Ok(()),
        Err(fault) => Err(fault),
    }
}
