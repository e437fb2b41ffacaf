//! Values, cells, kinds and shapes as words.
ghost use Rattle.std.specs.Prelude.{◌≡◌, Err};
ghost use Rattle.scene_script.specs.declared.bad_line.BadLine.TheVariants as bad;
ghost use Rattle.scene_script.specs.Cells.{vec3_said, value_said, is_text, kind_said, lone_name, cell_said, cell_name, next_cell, cells_said, shape_said, lone_shape, shaped_value_said};
ghost use Rattle.scene_script.specs.Reading.{Reads};

use crate::bad_line::{BadLine, LineError, text_of};
use crate::number::{entity_word, number_word};
use crate::words::Words;
use scene_commands::Components;
use scene_kinds::{ParseShapeError, Schema, Shape, Value, cut};
use std::alloc::Global;

/// For how many cells at most a list has room at once. A line of many spaces has fewer words than it seems.
pub(crate) const CELLS_AT_ONCE: usize = 8;

/// Three whole numbers with commas between them.
fn vec3(alloc: Global, text: &str) -> Result<[i64; 3], LineError>
    ensures { Reads result (vec3_said text.now) }
{
    let Some((x, rest)) = cut(text, ',') else {
        return Err(LineError::Bad(BadLine::NoVec3(text_of(alloc, text)?)));
    };
    let Some((y, z)) = cut(rest, ',') else {
        return Err(LineError::Bad(BadLine::NoVec3(text_of(alloc, text)?)));
    };
    let x = number_word(alloc, x)?;
    let y = number_word(alloc, y)?;
    let z = number_word(alloc, z)?;
    Ok([x, y, z])
}

/// The value of a shape that a text behind a name is (docs/SCRIPTS.md, "Words"): a whole number, three of them joined
/// by commas, the text itself, also an empty one, or an entity text. A tag has no value.
#[inline(always)]
fn value(alloc: Global, name: &str, shape: Shape, text: &str) -> Result<Value, LineError>
    ensures { Reads result (value_said name.now shape text.now) }
{
    match shape {
        Shape::Tag => Err(LineError::Bad(BadLine::ValueOfTag(text_of(alloc, name)?))),
        Shape::Int => Ok(Value::Int(number_word(alloc, text)?)),
        Shape::Vec3 => Ok(Value::Vec3(vec3(alloc, text)?)),
        Shape::Text => Ok(Value::Text(text_of(alloc, text)?)),
        Shape::Link => Ok(Value::Link(entity_word(alloc, text)?)),
    }
}

/// The mistake of a name that no kind has.
#[cold]
#[inline(never)]
fn unknown_kind(alloc: Global, name: &str) -> Result<u8, LineError>
    ensures { Reads result (Err (bad.UnknownKind name.now)) }
{
    Err(LineError::Bad(BadLine::UnknownKind(text_of(alloc, name)?)))
}

/// The kind of a name.
#[inline(always)]
pub(crate) fn kind_word(alloc: Global, schema: &Schema, name: &str) -> Result<u8, LineError>
    ensures { Reads result (kind_said schema.now name.now) }
{
    match schema.number_of(name) {
        Some(kind) => Ok(kind),
        None => unknown_kind(alloc, name),
    }
}

/// A word that is the name of a tag.
fn tag_word(alloc: Global, schema: &Schema, name: &str) -> Result<(u8, Value), LineError>
    ensures { Reads result (lone_name schema.now name.now) }
{
    let kind = kind_word(alloc, schema, name)?;
    if schema.fits(&Value::Tag, kind) {
        Ok((kind, Value::Tag))
    } else {
        Err(LineError::Bad(BadLine::MissingValue(text_of(alloc, name)?)))
    }
}

/// The kind and the value that a word names (docs/SCRIPTS.md, "Words"): `NAME` of a tag, else `NAME=VALUE`.
pub(crate) fn cell_word(
    alloc: Global,
    schema: &Schema,
    word: &str,
) -> Result<(u8, Value), LineError>
    ensures { Reads result (cell_said schema.now word.now) }
{
    let Some((name, text)) = cut(word, '=') else {
        return tag_word(alloc, schema, word);
    };
    let kind = kind_word(alloc, schema, name)?;
    let Some(shape) = schema.shape_of(kind) else {
        return Err(LineError::Bad(BadLine::UnknownKind(text_of(alloc, name)?)));
    };
    Ok((kind, value(alloc, name, shape, text)?))
}

/// Whether a value is a text, which ends at the next space.
pub(crate) fn is_text(value: &Value) -> bool
    ensures { result ≡ is_text value.now }
{
    match value {
        Value::Text(_) => true,
        _ => false,
    }
}

/// The name that a word has as a cell: what stands before its `=`, or all of it.
fn cell_name(word: &str) -> &str
    ensures { result.now ≡ cell_name word.now }
{
    match cut(word, '=') {
        Some((name, _)) => name,
        None => word,
    }
}

/// A cell behind others. Where the last one is a text, a word that names no kind was meant as a further part of it.
fn next_cell_word(
    alloc: Global,
    schema: &Schema,
    behind_text: bool,
    word: &str,
) -> Result<(u8, Value), LineError>
    ensures { Reads result (next_cell schema.now behind_text word.now) }
{
    if behind_text && schema.number_of(cell_name(word)).is_none() {
        return Err(LineError::Bad(BadLine::BehindText(text_of(alloc, word)?)));
    }
    cell_word(alloc, schema, word)
}

/// The shape of a name.
pub(crate) fn shape_word(alloc: Global, name: &str) -> Result<Shape, LineError>
    ensures { Reads result (shape_said name.now) }
{
    match name.parse() {
        Ok(shape) => Ok(shape),
        Err(ParseShapeError) => {
            Err(LineError::Bad(BadLine::UnknownShape(text_of(alloc, name)?)))
        }
    }
}

/// The value of a shape that needs no text, which is `Tag` alone.
fn lone_shape(alloc: Global, name: &str, shape: Shape) -> Result<Value, LineError>
    ensures { Reads result (lone_shape name.now shape) }
{
    match shape {
        Shape::Tag => Ok(Value::Tag),
        _ => Err(LineError::Bad(BadLine::MissingValue(text_of(alloc, name)?))),
    }
}

/// The value that a word names with its shape (docs/SCRIPTS.md, "Words"): `SHAPE` of a tag, else `SHAPE=VALUE`.
pub(crate) fn shaped_value_word(alloc: Global, word: &str) -> Result<Value, LineError>
    ensures { Reads result (shaped_value_said word.now) }
{
    let Some((name, text)) = cut(word, '=') else {
        let shape = shape_word(alloc, word)?;
        return lone_shape(alloc, word, shape);
    };
    let shape = shape_word(alloc, name)?;
    value(alloc, name, shape, text)
}

/// The components that words name.
pub(crate) fn cell_words(
    alloc: Global,
    schema: &Schema,
    words: Words,
) -> Result<Components, LineError>
    ensures { Reads result (cells_said schema.now words.entry) }
{
    let mut cells = Vec::with_capacity(alloc, words.most().min(CELLS_AT_ONCE))?;
    let mut behind_text = false;
    let mut words = words;
    'words: while let Some((word, rest)) = words.split_first() {
        let (kind, value) = next_cell_word(alloc, schema, behind_text, word)?;
        behind_text = is_text(&value);
        cells.push((kind, value))?;
        words = rest;
    }
    Ok(Components::from(cells))
}
