//! What a line of a script says, or why it is bad.
ghost use Rattle.std.specs.Prelude.{◌≡◌, Err};
ghost use Rattle.scene_script.specs.Reading.{Reads, ended, ended_behind};
ghost use Rattle.scene_script.specs.declared.bad_line.BadLine.TheVariants as bad;
ghost use Rattle.scene_script.specs.Script.{line_in, line_of_words, named_line, line_of_form, kind_line, limit_said, slots_line, load_line, calls_line, depth_line, spawn_line, insert_line, despawn_line, remove_line, parent_line, unparent_line, despawnall_line, despawnifalive_line, put_line, drop_line, get_line, system_line, session_said, as_line};

use crate::bad_line::{BadLine, LineError, text_of};
use crate::cell::{cell_word, cell_words, is_text, kind_word, shape_word, shaped_value_word};
use crate::form::LineForm;
use crate::limit::Limit;
use crate::number::{bad_number, entity_word};
use crate::session_number::SessionNumber;
use crate::system::system_rule;
use crate::target::target_word;
use crate::word::behind_first;
use crate::words::Words;
use scene_commands::Command;
use scene_kinds::{Entity, Schema, Shape, Text, read_count};
use scene_systems::SystemRule;
use std::alloc::{AllocError, Global};

/// The meaning of a line (docs/SCRIPTS.md, "Lines").
#[derive(Drop, Debug)]
pub enum Line {
    /// No words, or a comment.
    Empty,
    /// A kind is declared: its name and its shape.
    Kind(Text, Shape),
    /// The slot limit.
    Slots(Limit),
    /// A scene text, in place of all that the setup has so far.
    Load(Text),
    /// The greatest number of calls in the history.
    Calls(Limit),
    /// How many frames can be undone.
    Depth(Limit),
    /// A command, which is a frame by itself where none is open.
    Do(Command),
    /// A frame is opened.
    Begin,
    /// A further queue of the open frame.
    Queue,
    /// The open frame is submitted.
    Commit,
    Undo,
    Redo,
    Show,
    Get(Entity),
    Mark,
    Changed,
    Added,
    /// A further empty phase.
    Phase,
    /// A system more in the last phase.
    System(SystemRule),
    /// All phases are dropped.
    Clear,
    /// The schedule of the phases is made, and advances the world.
    Advance,
    /// The scene text of the world.
    Dump,
    /// The scene text of the world with all that can be undone and redone.
    DumpAll,
    /// The session whose calls the next ones are.
    As(SessionNumber),
    /// How many calls the history has.
    History,
}

/// The mistake of a word too many.
#[cold]
#[inline(never)]
fn extra_word(alloc: Global, form: LineForm, word: &str) -> Result<Line, LineError>
    ensures { Reads result (Err (bad.ExtraWord word.now form)) }
{
    Err(LineError::Bad(BadLine::ExtraWord(text_of(alloc, word)?, form)))
}

/// The mistake of a word behind a text, which was meant as a part of it.
#[cold]
#[inline(never)]
fn word_behind_text(alloc: Global, word: &str) -> Result<Line, LineError>
    ensures { Reads result (Err (bad.BehindText word.now)) }
{
    Err(LineError::Bad(BadLine::BehindText(text_of(alloc, word)?)))
}

/// A line that ends here says this. Inlined, since a line is much to hand through a call.
#[inline(always)]
fn ended(alloc: Global, form: LineForm, words: Words, line: Line) -> Result<Line, LineError>
    ensures { Reads result (ended form words.entry line) }
{
    match words.split_first() {
        None => Ok(line),
        Some((word, _)) => extra_word(alloc, form, word),
    }
}

/// A line that ends here, behind a value, says this. Behind a text, a further word was meant as a part of it.
#[inline(always)]
fn ended_behind(
    alloc: Global,
    behind_text: bool,
    form: LineForm,
    words: Words,
    line: Line,
) -> Result<Line, LineError>
    ensures { Reads result (ended_behind behind_text form words.entry line) }
{
    match words.split_first() {
        None => Ok(line),
        Some((word, _)) if behind_text => word_behind_text(alloc, word),
        Some((word, _)) => extra_word(alloc, form, word),
    }
}

// Each form is read by a function of its own, so that a line pays only for the room that its form takes.

/// `kind NAME SHAPE`.
#[inline(never)]
fn kind_line(alloc: Global, words: Words) -> Result<Line, LineError>
    ensures { Reads result (kind_line words.entry) }
{
    let Some((name, rest)) = words.split_first() else {
        return Err(LineError::Bad(BadLine::MissingWord(LineForm::Kind)));
    };
    let Some((shape, rest)) = rest.split_first() else {
        return Err(LineError::Bad(BadLine::MissingWord(LineForm::Kind)));
    };
    let shape = shape_word(alloc, shape)?;
    let name = text_of(alloc, name)?;
    ended(alloc, LineForm::Kind, rest, Line::Kind(name, shape))
}

/// The limit that a word is.
fn limit_word(alloc: Global, word: &str) -> Result<Limit, LineError>
    ensures { Reads result (limit_said word.now) }
{
    match read_count(word).and_then(Limit::new) {
        Some(limit) => Ok(limit),
        None => Err(LineError::Bad(bad_number(alloc, word, 1, 1_048_576)?)),
    }
}

/// `slots N`.
#[inline(never)]
fn slots_line(alloc: Global, words: Words) -> Result<Line, LineError>
    ensures { Reads result (slots_line words.entry) }
{
    let Some((word, rest)) = words.split_first() else {
        return Err(LineError::Bad(BadLine::MissingWord(LineForm::Slots)));
    };
    let limit = limit_word(alloc, word)?;
    ended(alloc, LineForm::Slots, rest, Line::Slots(limit))
}

/// `load TEXT`.
#[inline(never)]
fn load_line(alloc: Global, line: &str) -> Result<Line, LineError>
    ensures { Reads result (load_line line.now) }
{
    Ok(Line::Load(text_of(alloc, behind_first(line))?))
}

/// `calls N`.
#[inline(never)]
fn calls_line(alloc: Global, words: Words) -> Result<Line, LineError>
    ensures { Reads result (calls_line words.entry) }
{
    let Some((word, rest)) = words.split_first() else {
        return Err(LineError::Bad(BadLine::MissingWord(LineForm::Calls)));
    };
    let limit = limit_word(alloc, word)?;
    ended(alloc, LineForm::Calls, rest, Line::Calls(limit))
}

/// `depth N`.
#[inline(never)]
fn depth_line(alloc: Global, words: Words) -> Result<Line, LineError>
    ensures { Reads result (depth_line words.entry) }
{
    let Some((word, rest)) = words.split_first() else {
        return Err(LineError::Bad(BadLine::MissingWord(LineForm::Depth)));
    };
    let limit = limit_word(alloc, word)?;
    ended(alloc, LineForm::Depth, rest, Line::Depth(limit))
}

/// `spawn CELL..`.
#[inline(never)]
fn spawn_line(alloc: Global, schema: &Schema, words: Words) -> Result<Line, LineError>
    ensures { Reads result (spawn_line schema.now words.entry) }
{
    let cells = cell_words(alloc, schema, words)?;
    Ok(Line::Do(Command::Spawn(cells)))
}

/// `insert T CELL`.
#[inline(never)]
fn insert_line(alloc: Global, schema: &Schema, words: Words) -> Result<Line, LineError>
    ensures { Reads result (insert_line schema.now words.entry) }
{
    let Some((target, rest)) = words.split_first() else {
        return Err(LineError::Bad(BadLine::MissingWord(LineForm::Insert)));
    };
    let target = target_word(alloc, target)?;
    let Some((cell, rest)) = rest.split_first() else {
        return Err(LineError::Bad(BadLine::MissingWord(LineForm::Insert)));
    };
    let (kind, value) = cell_word(alloc, schema, cell)?;
    let behind_text = is_text(&value);
    ended_behind(
        alloc,
        behind_text,
        LineForm::Insert,
        rest,
        Line::Do(Command::Insert(target, kind, value)),
    )
}

/// `despawn T`.
#[inline(never)]
fn despawn_line(alloc: Global, words: Words) -> Result<Line, LineError>
    ensures { Reads result (despawn_line words.entry) }
{
    let Some((target, rest)) = words.split_first() else {
        return Err(LineError::Bad(BadLine::MissingWord(LineForm::Despawn)));
    };
    let target = target_word(alloc, target)?;
    ended(
        alloc,
        LineForm::Despawn,
        rest,
        Line::Do(Command::Despawn(target)),
    )
}

/// `remove T NAME`.
#[inline(never)]
fn remove_line(alloc: Global, schema: &Schema, words: Words) -> Result<Line, LineError>
    ensures { Reads result (remove_line schema.now words.entry) }
{
    let Some((target, rest)) = words.split_first() else {
        return Err(LineError::Bad(BadLine::MissingWord(LineForm::Remove)));
    };
    let target = target_word(alloc, target)?;
    let Some((name, rest)) = rest.split_first() else {
        return Err(LineError::Bad(BadLine::MissingWord(LineForm::Remove)));
    };
    let kind = kind_word(alloc, schema, name)?;
    ended(
        alloc,
        LineForm::Remove,
        rest,
        Line::Do(Command::Remove(target, kind)),
    )
}

/// `parent T T`, the child and then its parent.
#[inline(never)]
fn parent_line(alloc: Global, words: Words) -> Result<Line, LineError>
    ensures { Reads result (parent_line words.entry) }
{
    let Some((child, rest)) = words.split_first() else {
        return Err(LineError::Bad(BadLine::MissingWord(LineForm::Parent)));
    };
    let child = target_word(alloc, child)?;
    let Some((parent, rest)) = rest.split_first() else {
        return Err(LineError::Bad(BadLine::MissingWord(LineForm::Parent)));
    };
    let parent = target_word(alloc, parent)?;
    ended(
        alloc,
        LineForm::Parent,
        rest,
        Line::Do(Command::SetParent(child, parent)),
    )
}

/// `unparent T`.
#[inline(never)]
fn unparent_line(alloc: Global, words: Words) -> Result<Line, LineError>
    ensures { Reads result (unparent_line words.entry) }
{
    let Some((child, rest)) = words.split_first() else {
        return Err(LineError::Bad(BadLine::MissingWord(LineForm::Unparent)));
    };
    let child = target_word(alloc, child)?;
    ended(
        alloc,
        LineForm::Unparent,
        rest,
        Line::Do(Command::RemoveParent(child)),
    )
}

/// `despawnall T`.
#[inline(never)]
fn despawnall_line(alloc: Global, words: Words) -> Result<Line, LineError>
    ensures { Reads result (despawnall_line words.entry) }
{
    let Some((target, rest)) = words.split_first() else {
        return Err(LineError::Bad(BadLine::MissingWord(LineForm::DespawnAll)));
    };
    let target = target_word(alloc, target)?;
    ended(
        alloc,
        LineForm::DespawnAll,
        rest,
        Line::Do(Command::DespawnAll(target)),
    )
}

/// `despawnifalive T`.
#[inline(never)]
fn despawnifalive_line(alloc: Global, words: Words) -> Result<Line, LineError>
    ensures { Reads result (despawnifalive_line words.entry) }
{
    let Some((target, rest)) = words.split_first() else {
        return Err(LineError::Bad(BadLine::MissingWord(LineForm::DespawnIfAlive)));
    };
    let target = target_word(alloc, target)?;
    ended(
        alloc,
        LineForm::DespawnIfAlive,
        rest,
        Line::Do(Command::DespawnAllIfAlive(target)),
    )
}

/// `put NAME SHAPE` for a tag, else `put NAME SHAPE=VALUE`.
#[inline(never)]
fn put_line(alloc: Global, words: Words) -> Result<Line, LineError>
    ensures { Reads result (put_line words.entry) }
{
    let Some((name, rest)) = words.split_first() else {
        return Err(LineError::Bad(BadLine::MissingWord(LineForm::Put)));
    };
    let Some((value, rest)) = rest.split_first() else {
        return Err(LineError::Bad(BadLine::MissingWord(LineForm::Put)));
    };
    let value = shaped_value_word(alloc, value)?;
    let behind_text = is_text(&value);
    let name = text_of(alloc, name)?;
    ended_behind(
        alloc,
        behind_text,
        LineForm::Put,
        rest,
        Line::Do(Command::PutResource(name, value)),
    )
}

/// `drop NAME`.
#[inline(never)]
fn drop_line(alloc: Global, words: Words) -> Result<Line, LineError>
    ensures { Reads result (drop_line words.entry) }
{
    let Some((name, rest)) = words.split_first() else {
        return Err(LineError::Bad(BadLine::MissingWord(LineForm::Drop)));
    };
    let name = text_of(alloc, name)?;
    ended(
        alloc,
        LineForm::Drop,
        rest,
        Line::Do(Command::RemoveResource(name)),
    )
}

/// `get T`.
#[inline(never)]
fn get_line(alloc: Global, words: Words) -> Result<Line, LineError>
    ensures { Reads result (get_line words.entry) }
{
    let Some((word, rest)) = words.split_first() else {
        return Err(LineError::Bad(BadLine::MissingWord(LineForm::Get)));
    };
    let entity = entity_word(alloc, word)?;
    ended(alloc, LineForm::Get, rest, Line::Get(entity))
}

/// `system NAME [need=N,N] [without=N,N] STEP..`.
#[inline(never)]
fn system_line(alloc: Global, schema: &Schema, words: Words) -> Result<Line, LineError>
    ensures { Reads result (system_line schema.now words.entry) }
{
    let Some((name, rest)) = words.split_first() else {
        return Err(LineError::Bad(BadLine::MissingWord(LineForm::System)));
    };
    Ok(Line::System(system_rule(alloc, schema, name, rest)?))
}

/// The session that a word is.
fn session_word(alloc: Global, word: &str) -> Result<SessionNumber, LineError>
    ensures { Reads result (session_said word.now) }
{
    match read_count(word).and_then(SessionNumber::new) {
        Some(session) => Ok(session),
        None => Err(LineError::Bad(bad_number(alloc, word, 0, 7)?)),
    }
}

/// `as N`.
#[inline(never)]
fn as_line(alloc: Global, words: Words) -> Result<Line, LineError>
    ensures { Reads result (as_line words.entry) }
{
    let Some((word, rest)) = words.split_first() else {
        return Err(LineError::Bad(BadLine::MissingWord(LineForm::As)));
    };
    let session = session_word(alloc, word)?;
    ended(alloc, LineForm::As, rest, Line::As(session))
}

/// A line by its form and the words behind the first.
#[inline(always)]
fn line_of_form(
    alloc: Global,
    schema: &Schema,
    form: LineForm,
    line: &str,
    words: Words,
) -> Result<Line, LineError>
    ensures { Reads result (line_of_form schema.now form line.now words.entry) }
{
    match form {
        LineForm::Kind => kind_line(alloc, words),
        LineForm::Slots => slots_line(alloc, words),
        LineForm::Load => load_line(alloc, line),
        LineForm::Calls => calls_line(alloc, words),
        LineForm::Depth => depth_line(alloc, words),
        LineForm::Spawn => spawn_line(alloc, schema, words),
        LineForm::Insert => insert_line(alloc, schema, words),
        LineForm::Despawn => despawn_line(alloc, words),
        LineForm::Remove => remove_line(alloc, schema, words),
        LineForm::Parent => parent_line(alloc, words),
        LineForm::Unparent => unparent_line(alloc, words),
        LineForm::DespawnAll => despawnall_line(alloc, words),
        LineForm::DespawnIfAlive => despawnifalive_line(alloc, words),
        LineForm::Put => put_line(alloc, words),
        LineForm::Drop => drop_line(alloc, words),
        LineForm::Begin => ended(alloc, form, words, Line::Begin),
        LineForm::Queue => ended(alloc, form, words, Line::Queue),
        LineForm::Commit => ended(alloc, form, words, Line::Commit),
        LineForm::Undo => ended(alloc, form, words, Line::Undo),
        LineForm::Redo => ended(alloc, form, words, Line::Redo),
        LineForm::Show => ended(alloc, form, words, Line::Show),
        LineForm::Get => get_line(alloc, words),
        LineForm::Mark => ended(alloc, form, words, Line::Mark),
        LineForm::Changed => ended(alloc, form, words, Line::Changed),
        LineForm::Added => ended(alloc, form, words, Line::Added),
        LineForm::Phase => ended(alloc, form, words, Line::Phase),
        LineForm::System => system_line(alloc, schema, words),
        LineForm::Clear => ended(alloc, form, words, Line::Clear),
        LineForm::Advance => ended(alloc, form, words, Line::Advance),
        LineForm::Dump => ended(alloc, form, words, Line::Dump),
        LineForm::DumpAll => ended(alloc, form, words, Line::DumpAll),
        LineForm::As => as_line(alloc, words),
        LineForm::History => ended(alloc, form, words, Line::History),
    }
}

/// A line by its first word and the others.
#[inline(always)]
fn named_line(
    alloc: Global,
    schema: &Schema,
    line: &str,
    first: &str,
    rest: Words,
) -> Result<Line, LineError>
    ensures { Reads result (named_line schema.now line.now first.now rest.entry) }
{
    match LineForm::named(first) {
        Some(form) => line_of_form(alloc, schema, form, line, rest),
        None => Err(LineError::Bad(BadLine::UnknownCommand(text_of(alloc, first)?))),
    }
}

/// A line by its words.
#[inline(always)]
fn line_of_words(
    alloc: Global,
    schema: &Schema,
    line: &str,
    words: Words,
) -> Result<Line, LineError>
    ensures { Reads result (line_of_words schema.now line.now words.entry) }
{
    let Some((first, rest)) = words.split_first() else {
        return Ok(Line::Empty);
    };
    if first.starts_with('#') {
        return Ok(Line::Empty);
    }
    named_line(alloc, schema, line, first, rest)
}

/// What a line says, where these kinds are declared. It costs a walk over the line.
///
/// Refused: `Bad` with the first mistake, read from the left, where the line has no form of the language, and
/// `NoMemory`.
pub fn read_line(alloc: Global, schema: &Schema, bytes: &[u8]) -> Result<Line, LineError>
    ensures { Reads result (line_in schema.now bytes.now) }
{
    match str::from_utf8(bytes) {
        Err(_) => Err(LineError::Bad(BadLine::NotUtf8)),
        Ok(text) => line_of_words(alloc, schema, text, Words::of(text)),
    }
}
