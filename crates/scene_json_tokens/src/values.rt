//! Values and cells.
ghost use Rattle.std.specs.Prelude.{◌≡◌, ◌∷◌, IfSome};
ghost use Rattle.json.specs.Token.{string};
ghost use Rattle.scene_kinds.specs.declared.shape.Shape.TheVariants as shape;
ghost use Rattle.scene_kinds.specs.declared.value.Value.TheVariants as value;
ghost use Rattle.scene_json_forms.specs.Walk.{cell_at, entity_at, value_at};
ghost use Rattle.scene_json_tokens.specs.Taken.{IsTaken};

use crate::numbers::{take_count, take_int};
use crate::punctuation::{take_list, take_list_end};
use json::{Reader, Token};
use scene_kinds::{Cell, Entity, Shape, Text, Value, read_entity};
use std::alloc::Global;

/// Takes a string.
#[inline(always)]
fn take_string<'a>(reader: &mut Reader<'a>) -> Option<&'a str>
    ensures { IfSome result (λ text. reader.old ≡ string text.now ∷ reader.new) }
{
    match reader.next()? {
        Token::String(text) => Some(text),
        _ => None,
    }
}

/// Takes an entity, by its text.
#[inline(always)]
pub(crate) fn take_entity(reader: &mut Reader<'_>) -> Option<Entity>
    ensures { IfSome result (IsTaken entity_at 0 reader.old reader.new) }
{
    let text = take_string(reader)?;
    read_entity(text)
}

/// Takes a list of three whole numbers.
#[inline(always)]
fn take_three(reader: &mut Reader<'_>) -> Option<[i64; 3]>
    ensures { IfSome result (λ three. IsTaken (value_at shape.Vec3) 1 reader.old reader.new (value.Vec3 three)) }
{
    take_list(reader)?;
    let x = take_int(reader)?;
    let y = take_int(reader)?;
    let z = take_int(reader)?;
    take_list_end(reader)?;
    Some([x, y, z])
}

/// Takes the value of a tag.
#[inline(always)]
fn take_tag(reader: &mut Reader<'_>) -> Option<Value>
    ensures { IfSome result (IsTaken (value_at shape.Tag) 1 reader.old reader.new) }
{
    match reader.next()? {
        Token::Bool(true) => Some(Value::Tag),
        _ => None,
    }
}

/// Takes a text.
#[inline(always)]
fn take_text(alloc: Global, reader: &mut Reader<'_>) -> Option<Value>
    ensures { IfSome result (IsTaken (value_at shape.Text) 1 reader.old reader.new) }
{
    let text = take_string(reader)?;
    let text = String::from_str(alloc, text).ok()?;
    Some(Value::Text(Text::from(text)))
}

/// Takes a value of a shape.
#[inline(always)]
fn take_value(alloc: Global, shape: Shape, reader: &mut Reader<'_>) -> Option<Value>
    ensures { IfSome result (IsTaken (value_at shape) 1 reader.old reader.new) }
{
    match shape {
        Shape::Tag => take_tag(reader),
        Shape::Int => {
            let number = take_int(reader)?;
            Some(Value::Int(number))
        }
        Shape::Vec3 => {
            let three = take_three(reader)?;
            Some(Value::Vec3(three))
        }
        Shape::Text => take_text(alloc, reader),
        Shape::Link => {
            let entity = take_entity(reader)?;
            Some(Value::Link(entity))
        }
    }
}

/// Takes the cell of a component of a shape: a list of its value and its two ticks. `None` says nothing of the text: it
/// isn't a usual one, or memory ran out. Some tokens were taken then.
#[inline(always)]
pub fn take_cell(alloc: Global, shape: Shape, reader: &mut Reader<'_>) -> Option<Cell>
    ensures { IfSome result (IsTaken (cell_at shape) 2 reader.old reader.new) }
{
    take_list(reader)?;
    let value = take_value(alloc, shape, reader)?;
    let added = take_count(reader)?;
    let changed = take_count(reader)?;
    take_list_end(reader)?;
    Some(Cell {
        value,
        added,
        changed,
    })
}
