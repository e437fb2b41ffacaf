//! Lines that long scripts have most, where they have no mistake: each is read in the fewest steps.
ghost use Rattle.std.specs.Prelude.{◌≡◌, ℕ, List, ◌∷◌, [], Ok, IfSome};
ghost use Rattle.scene_script.specs.Cells.{cell_said, cells_said, lone_name, value_said, vec3_said};
ghost use Rattle.scene_script.specs.Script.{despawn_line, insert_line, line_in, line_of_form, line_of_words, parent_line, remove_line, spawn_line, unparent_line};
ghost use Rattle.scene_script.specs.Usual.{line_of};
ghost use Rattle.scene_script.specs.Words.{words_of};
ghost use Rattle.scene_script.specs.declared.script_line.Line.TheVariants.{Do};

use crate::bad_line::text_of;
use crate::cell::CELLS_AT_ONCE;
use crate::form::LineForm;
use crate::number::read_number;
use crate::script_line::Line;
use crate::target::read_target;
use crate::words::Words;
use scene_commands::{Command, Components};
use scene_kinds::{Schema, Shape, Value, cut, read_entity};
use std::alloc::Global;

/// What a line of a usual form says.
#[derive(Drop, Debug)]
pub enum UsualLine {
    /// A command.
    Do(Command),
    Undo,
    Redo,
}

impl UsualLine {
    /// The line, among all lines.
    pub fn into_line(self) -> Line
        ensures { result ≡ line_of self }
    {
        match self {
            UsualLine::Do(command) => Line::Do(command),
            UsualLine::Undo => Line::Undo,
            UsualLine::Redo => Line::Redo,
        }
    }
}

/// Three whole numbers with commas between them.
fn vec3(text: &str) -> Option<[i64; 3]>
    ensures { IfSome result (λ v. vec3_said text.now ≡ Ok v) }
{
    let (x, rest) = cut(text, ',')?;
    let (y, z) = cut(rest, ',')?;
    Some([read_number(x)?, read_number(y)?, read_number(z)?])
}

/// The value of a shape that a text behind a name is.
#[inline(always)]
fn value(alloc: Global, name: &str, shape: Shape, text: &str) -> Option<Value>
    ensures { IfSome result (λ v. value_said name.now shape text.now ≡ Ok v) }
{
    match shape {
        Shape::Tag => None,
        Shape::Int => Some(Value::Int(read_number(text)?)),
        Shape::Vec3 => Some(Value::Vec3(vec3(text)?)),
        Shape::Text => Some(Value::Text(text_of(alloc, text).ok()?)),
        Shape::Link => Some(Value::Link(read_entity(text)?)),
    }
}

/// The tag whose name a word is.
fn tag(schema: &Schema, word: &str) -> Option<(u8, Value)>
    ensures { IfSome result (λ c. lone_name schema.now word.now ≡ Ok c) }
{
    let kind = schema.number_of(word)?;
    if schema.fits(&Value::Tag, kind) {
        Some((kind, Value::Tag))
    } else {
        None
    }
}

/// The kind and the value that a word names.
#[inline(always)]
fn cell(alloc: Global, schema: &Schema, word: &str) -> Option<(u8, Value)>
    ensures { IfSome result (λ c. cell_said schema.now word.now ≡ Ok c) }
{
    let Some((name, text)) = cut(word, '=') else {
        return tag(schema, word);
    };
    let kind = schema.number_of(name)?;
    let shape = schema.shape_of(kind)?;
    Some((kind, value(alloc, name, shape, text)?))
}

/// The components that words name.
#[inline(always)]
fn cells(alloc: Global, schema: &Schema, words: Words) -> Option<Components>
    ensures { IfSome result (λ cells. cells_said schema.now words.entry ≡ Ok cells) }
{
    let mut cells = Vec::with_capacity(alloc, words.most().min(CELLS_AT_ONCE)).ok()?;
    let mut words = words;
    'words: while let Some((word, rest)) = words.split_first() {
        cells.push(cell(alloc, schema, word)?).ok()?;
        words = rest;
    }
    Some(Components::from(cells))
}

/// The word of a line that has no other.
#[inline(always)]
fn only<'a>(words: Words<'a>) -> Option<&'a str>
    ensures { IfSome result (λ w. words.entry ≡ w.now ∷ []) }
{
    match words.split_first() {
        Some((word, rest)) if rest.split_first().is_none() => Some(word),
        _ => None,
    }
}

/// `spawn CELL..`.
#[inline(always)]
fn spawn(alloc: Global, schema: &Schema, words: Words) -> Option<Command>
    ensures { IfSome result (λ command. spawn_line schema.now words.entry ≡ Ok (Do command)) }
{
    Some(Command::Spawn(cells(alloc, schema, words)?))
}

/// `insert T CELL`.
#[inline(always)]
fn insert(alloc: Global, schema: &Schema, words: Words) -> Option<Command>
    ensures { IfSome result (λ command. insert_line schema.now words.entry ≡ Ok (Do command)) }
{
    let (target, rest) = words.split_first()?;
    let target = read_target(target)?;
    let (kind, value) = cell(alloc, schema, only(rest)?)?;
    Some(Command::Insert(target, kind, value))
}

/// `remove T NAME`.
#[inline(always)]
fn remove(schema: &Schema, words: Words) -> Option<Command>
    ensures { IfSome result (λ command. remove_line schema.now words.entry ≡ Ok (Do command)) }
{
    let (target, rest) = words.split_first()?;
    let target = read_target(target)?;
    let kind = schema.number_of(only(rest)?)?;
    Some(Command::Remove(target, kind))
}

/// `parent T T`, the child and then its parent.
#[inline(always)]
fn parent(words: Words) -> Option<Command>
    ensures { IfSome result (λ command. parent_line words.entry ≡ Ok (Do command)) }
{
    let (child, rest) = words.split_first()?;
    let child = read_target(child)?;
    let parent = read_target(only(rest)?)?;
    Some(Command::SetParent(child, parent))
}

/// `despawn T`.
#[inline(always)]
fn despawn(words: Words) -> Option<Command>
    ensures { IfSome result (λ command. despawn_line words.entry ≡ Ok (Do command)) }
{
    let target = read_target(only(words)?)?;
    Some(Command::Despawn(target))
}

/// `unparent T`.
#[inline(always)]
fn unparent(words: Words) -> Option<Command>
    ensures { IfSome result (λ command. unparent_line words.entry ≡ Ok (Do command)) }
{
    let child = read_target(only(words)?)?;
    Some(Command::RemoveParent(child))
}

/// A line of a usual form, by the words behind the first.
#[inline(always)]
fn line_of_form(alloc: Global, schema: &Schema, form: LineForm, words: Words) -> Option<UsualLine>
    ensures { IfSome result (λ said. (line : List ℕ) → line_of_form schema.now form line words.entry ≡ Ok (line_of said)) }
{
    match form {
        LineForm::Spawn => Some(UsualLine::Do(spawn(alloc, schema, words)?)),
        LineForm::Insert => Some(UsualLine::Do(insert(alloc, schema, words)?)),
        LineForm::Despawn => Some(UsualLine::Do(despawn(words)?)),
        LineForm::Remove => Some(UsualLine::Do(remove(schema, words)?)),
        LineForm::Parent => Some(UsualLine::Do(parent(words)?)),
        LineForm::Unparent => Some(UsualLine::Do(unparent(words)?)),
        LineForm::Undo if words.split_first().is_none() => Some(UsualLine::Undo),
        LineForm::Redo if words.split_first().is_none() => Some(UsualLine::Redo),
        _ => None,
    }
}

/// A line by its text.
#[inline(always)]
fn usual_text(alloc: Global, schema: &Schema, line: &str) -> Option<UsualLine>
    ensures { IfSome result (λ said. line_of_words schema.now line.now (words_of line.now) ≡ Ok (line_of said)) }
{
    let (first, rest) = Words::of(line).split_first()?;
    if first.starts_with('#') {
        return None;
    }
    line_of_form(alloc, schema, LineForm::named(first)?, rest)
}

/// What a line says, where it has one of the forms that long scripts have most, and no mistake. `None` tells nothing of
/// the line, which is then `read_line`'s to read: it has another form, or a mistake, or no memory was found. It costs a
/// walk over the line.
pub fn usual_line(alloc: Global, schema: &Schema, bytes: &[u8]) -> Option<UsualLine>
    ensures { IfSome result (λ said. line_in schema.now bytes.now ≡ Ok (line_of said)) }
{
    match bytes {
        b"undo" => Some(UsualLine::Undo),
        b"redo" => Some(UsualLine::Redo),
        _ => match str::from_utf8(bytes) {
            Ok(text) => usual_text(alloc, schema, text),
            Err(_) => None,
        },
    }
}
