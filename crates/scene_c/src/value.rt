//! What crosses to C and back, and what it names here.
ghost use Rattle.std.specs.Prelude.{◌≡◌, IfOk, OnErr, Some, is_some, true};
ghost use Rattle.std.specs.Option.{option_map};
ghost use Rattle.std.specs.Str.{is_utf8};
ghost use Rattle.scene_c.specs.Arguments.{both_of, component_of_cell, cursor_of, entity_of, kind_of, link_by, shape_number, shown_cell, shown_entity, shown_name, shown_refusal, small, target_of, text_component, text_of, value_of};

use crate::reading::Reading;
use crate::shown::SceneMoment;
use scene_commands::Target;
use scene_kinds::{Entity, Refusal, Shape, Text, Value};
use scene_pass::CellName;
use scene_undo::Cursor;
use std::alloc::{AllocError, Global};

/// An entity (`scene_entity`).
#[repr(C)]
#[derive(Clone, Copy)]
pub struct SceneEntity {
    pub index: u32,
    pub generation: u32,
}

/// A component but for a text (`scene_cell`).
#[repr(C)]
#[derive(Clone, Copy)]
pub struct SceneCell {
    pub kind: u32,
    pub shape: u32,
    pub x: i64,
    pub y: i64,
    pub z: i64,
}

/// A cell by its entity and its kind (`scene_name`).
#[repr(C)]
#[derive(Clone, Copy)]
pub struct SceneName {
    pub entity: SceneEntity,
    pub kind: u32,
}

/// Why a call was refused, and where in its frame (`scene_refusal`).
#[repr(C)]
#[derive(Clone, Copy)]
pub struct SceneRefusal {
    pub fault: u32,
    pub has_place: u32,
    pub phase: u32,
    pub queue: u32,
    pub command: u32,
}

/// The entity that a target names.
pub(crate) fn target_of(entity: SceneEntity) -> Target
    ensures { result ≡ target_of entity }
{
    if entity.generation == 0 {
        Target::New(entity.index)
    } else {
        Target::Id(entity_of(entity))
    }
}

/// An entity as the world knows it.
pub(crate) fn entity_of(entity: SceneEntity) -> Entity
    ensures { result ≡ entity_of entity }
{
    Entity {
        index: entity.index,
        generation: entity.generation,
    }
}

/// An entity as C sees it.
pub(crate) fn shown_entity(entity: Entity) -> SceneEntity
    ensures { result ≡ shown_entity entity }
{
    SceneEntity {
        index: entity.index,
        generation: entity.generation,
    }
}

/// The moment that C names.
pub(crate) fn cursor_of(moment: SceneMoment) -> Cursor
    ensures { result ≡ cursor_of moment }
{
    Cursor {
        rewinds: moment.rewinds,
        tick: moment.tick,
    }
}

/// A cell's name as C sees it.
pub(crate) fn shown_name(name: CellName) -> SceneName
    ensures { result ≡ shown_name name }
{
    SceneName {
        entity: shown_entity(name.entity),
        kind: u32::from(name.kind),
    }
}

/// A refusal as C sees it; where it has no place, the numbers of the place are 0.
pub(crate) fn shown_refusal(refusal: Refusal) -> SceneRefusal
    ensures { result ≡ shown_refusal refusal }
{
    let fault = u32::from(refusal.fault.number());
    match refusal.place {
        None => SceneRefusal {
            fault,
            has_place: 0,
            phase: 0,
            queue: 0,
            command: 0,
        },
        Some(place) => SceneRefusal {
            fault,
            has_place: 1,
            phase: place.phase,
            queue: place.queue,
            command: place.command,
        },
    }
}

/// A component as C sees it.
pub(crate) fn shown_cell(kind: u8, reading: Reading) -> SceneCell
    ensures { result ≡ shown_cell kind reading }
{
    let [x, y, z] = reading.numbers;
    SceneCell {
        kind: u32::from(kind),
        shape: shape_number(reading.shape),
        x,
        y,
        z,
    }
}

/// The number of a shape.
pub(crate) fn shape_number(shape: Shape) -> u32
    ensures { result ≡ shape_number shape }
{
    match shape {
        Shape::Tag => 0,
        Shape::Int => 1,
        Shape::Vec3 => 2,
        Shape::Text => 3,
        Shape::Link => 4,
    }
}

/// A kind, which is a number of 8 bits.
pub(crate) fn kind_of(kind: u32) -> Option<u8>
    ensures { result ≡ kind_of kind }
{
    if kind < 256 { Some(kind as u8) } else { None }
}

/// A number of 32 bits.
fn small(number: i64) -> Option<u32>
    ensures { result ≡ small number }
{
    if number >= 0 && number < 4_294_967_296 {
        Some(number as u32)
    } else {
        None
    }
}

/// An entity by its two numbers.
fn link_by(index: Option<u32>, generation: Option<u32>) -> Option<Value>
    ensures { result ≡ link_by index generation }
{
    match (index, generation) {
        (Some(index), Some(generation)) => Some(Value::Link(Entity { index, generation })),
        _ => None,
    }
}

/// The value that a cell names.
pub(crate) fn value_of(cell: SceneCell) -> Option<Value>
    ensures { result ≡ value_of cell }
{
    match cell.shape {
        0 => Some(Value::Tag),
        1 => Some(Value::Int(cell.x)),
        2 => Some(Value::Vec3([cell.x, cell.y, cell.z])),
        4 => link_by(small(cell.x), small(cell.y)),
        _ => None,
    }
}

/// The component that a cell names.
pub(crate) fn component_of_cell(cell: SceneCell) -> Option<(u8, Value)>
    ensures { result ≡ component_of_cell cell }
{
    match (kind_of(cell.kind), value_of(cell)) {
        (Some(kind), Some(value)) => Some((kind, value)),
        _ => None,
    }
}

/// Whether bytes are a text.
pub(crate) fn is_text(bytes: &[u8]) -> bool
    ensures { result ≡ is_utf8 bytes.now }
{
    match str::from_utf8(bytes) {
        Ok(_) => true,
        Err(_) => false,
    }
}

/// The text that bytes are. Only one that they are can want memory.
pub(crate) fn text_of(alloc: Global, bytes: &[u8]) -> Result<Option<Text>, AllocError>
    ensures text { IfOk result (λ text. text ≡ text_of bytes.now) }
    ensures memory { OnErr result (text_of bytes.now ≡ Some bytes.now) }
{
    match str::from_utf8(bytes) {
        Ok(text) => Ok(Some(Text::from(String::from_str(alloc, text)?))),
        Err(_) => Ok(None),
    }
}

/// A component that is a text. Only one that the arguments name can want memory.
pub(crate) fn text_component(
    alloc: Global,
    kind: u32,
    bytes: &[u8],
) -> Result<Option<(u8, Value)>, AllocError>
    ensures component { IfOk result (λ found. found ≡ text_component kind bytes.now) }
    ensures memory { OnErr result (is_some (text_component kind bytes.now) ≡ true) }
{
    let Some(kind) = kind_of(kind) else {
        return Ok(None);
    };
    match text_of(alloc, bytes)? {
        Some(text) => Ok(Some((kind, Value::Text(text)))),
        None => Ok(None),
    }
}
