//! Texts: names, and the texts of entities and shapes.
ghost use Rattle.std.specs.Prelude.{◌≡◌, string_bytes};
ghost use Rattle.scene_json.specs.View.{view};
ghost use Rattle.scene_kinds.specs.Shape.{shape_named as named_shape};
ghost use Rattle.scene_kinds.specs.EntityReading.{entity_in};
ghost use Rattle.scene_json_forms.specs.Outcome.{ReadsAs};
ghost use Rattle.scene_json_forms.specs.Paths.{path_bytes};
ghost use Rattle.scene_json_forms.specs.Reading.{string_at};

use crate::fault::FileResult;
use crate::form::{Form, field};
use crate::path::{Path, bad_field};
use scene_json::Part;
use scene_kinds::{Entity, Shape, good_name, read_entity};
use std::alloc::Global;

/// The text of a value that is a string. It copies nothing.
///
/// Refused: `BadField` at the path where it is none, or `NoMemory` in its place.
#[tactic(auto, using(crate::proofs::Walking::walking))]
pub fn string_at<'a>(alloc: Global, path: &Path<'_>, value: &Part<'_, 'a>) -> FileResult<&'a str>
    ensures { ReadsAs (λ text. text.now) result (string_at (path_bytes path.now) (view value.now)) }
{
    match value.as_str() {
        Some(text) => Ok(text),
        None => Err(bad_field(alloc, path)),
    }
}

/// The entity of a text.
fn entity_in(text: &str) -> Option<Entity>
    ensures { result ≡ entity_in text.now }
{
    read_entity(text)
}

/// The form of entities: strings of their texts, as `"0v1"`.
#[derive(Drop)]
pub struct EntityForm;

impl Form for EntityForm {
    ghost use Rattle.std.specs.Prelude.{true};
    ghost use Rattle.scene_kinds.specs.declared.entity.Entity.{Entity};
    ghost use Rattle.scene_json_forms.specs.Walk.{entity_at};

    type Item = Entity;

    ghost Meant = { Entity };

    ghost meant = { λ entity. entity };

    ghost word = { λ _. entity_at };

    ghost follows = { λ _ _. true };

    fn read(&self, alloc: Global, path: &Path<'_>, value: &Part<'_, '_>) -> FileResult<Self::Item> {
        let entity = value.as_str().and_then(entity_in);
        field(alloc, path, entity)
    }
}

/// The shape of a name.
fn shape_named(name: &str) -> Option<Shape>
    ensures { result ≡ named_shape name.now }
{
    name.parse().ok()
}

/// The form of shapes: strings of their names.
#[derive(Drop)]
pub struct ShapeForm;

impl Form for ShapeForm {
    ghost use Rattle.std.specs.Prelude.{true};
    ghost use Rattle.scene_kinds.specs.declared.shape.Shape.{Shape};
    ghost use Rattle.scene_json_forms.specs.Walk.{shape_at};

    type Item = Shape;

    ghost Meant = { Shape };

    ghost meant = { λ shape. shape };

    ghost word = { λ _. shape_at };

    ghost follows = { λ _ _. true };

    fn read(&self, alloc: Global, path: &Path<'_>, value: &Part<'_, '_>) -> FileResult<Self::Item> {
        let shape = value.as_str().and_then(shape_named);
        field(alloc, path, shape)
    }
}

/// The form of names of resources: strings that are good names (docs/MODEL.md, "The rule of names"). The name read is a
/// copy.
#[derive(Drop)]
pub struct NameForm;

impl Form for NameForm {
    ghost use Rattle.std.specs.Prelude.{ℕ, List, true};
    ghost use Rattle.scene_json_forms.specs.Walk.{name_at};

    type Item = String;

    ghost Meant = { List ℕ };

    ghost meant = { λ name. string_bytes name };

    ghost word = { λ _. name_at };

    ghost follows = { λ _ _. true };

    #[tactic(auto, using(crate::proofs::Walking::walking))]
    fn read(&self, alloc: Global, path: &Path<'_>, value: &Part<'_, '_>) -> FileResult<Self::Item> {
        let name = string_at(alloc, path, value)?;
        if !good_name(name) {
            return Err(bad_field(alloc, path));
        }
        let name = String::from_str(alloc, name)?;
        Ok(name)
    }
}
