//! Values and cells.
ghost use Rattle.std.specs.Prelude.{◌<◌, [], ◌∷◌};
ghost use Rattle.scene_json.specs.View.{view, views};
ghost use Rattle.scene_json_forms.specs.Outcome.{Reads};
ghost use Rattle.scene_json_forms.specs.Paths.{path_bytes};
ghost use Rattle.scene_json_forms.specs.Reading.{each_at};
ghost use Rattle.scene_json_forms.specs.Walk.{cell_from, cell_parts, int_at, resource_cell_parts, three_of};

use crate::fault::FileResult;
use crate::form::{Form, field, if_good, list_at};
use crate::path::{Path, bad_field};
use crate::read_numbers::{IntForm, TickForm};
use crate::read_texts::{EntityForm, ShapeForm, string_at};
use scene_json::{Part, Parts};
use scene_kinds::{Cell, Shape, Text, Value};
use std::alloc::Global;

/// The numbers of three values, the first elements of a list.
#[tactic(auto, using(crate::proofs::Walking::walking))]
fn three_from(
    alloc: Global,
    path: &Path<'_>,
    x: &Part<'_, '_>,
    y: &Part<'_, '_>,
    z: &Part<'_, '_>,
) -> FileResult<[i64; 3]>
    ensures { Reads result (each_at int_at (path_bytes path.now) 0 (view x.now ∷ view y.now ∷ view z.now ∷ [])) }
{
    let x = IntForm.read(alloc, &Path::Item(&*path, 0), x)?;
    let y = IntForm.read(alloc, &Path::Item(&*path, 1), y)?;
    let z = IntForm.read(alloc, &Path::Item(&*path, 2), z)?;
    Ok([x, y, z])
}

/// Three whole numbers.
#[tactic(auto, using(crate::proofs::Walking::walking, crate::proofs::Parted::parted))]
fn three_of(alloc: Global, path: &Path<'_>, parts: Parts<'_, '_>) -> FileResult<[i64; 3]>
    ensures { Reads result (three_of (path_bytes path.now) (views parts.entry)) }
{
    match parts.three() {
        Some((x, y, z)) => three_from(alloc, path, &x, &y, &z),
        None => Err(bad_field(alloc, path)),
    }
}

/// The form of values of a shape (docs/SCENE_FILES.md, "Version 1"). The bytes of a text are copied.
#[derive(Drop)]
pub struct ValueForm(pub Shape);

impl Form for ValueForm {
    ghost use Rattle.std.specs.Prelude.{true};
    ghost use Rattle.scene_kinds.specs.declared.value.Value.{Value};
    ghost use Rattle.scene_json_forms.specs.Walk.{value_at};

    type Item = Value;

    ghost Meant = { Value };

    ghost meant = { λ value. value };

    ghost word = { λ form. value_at form.0 };

    ghost follows = { λ _ _. true };

    #[tactic(auto, using(crate::proofs::Walking::walking))]
    fn read(&self, alloc: Global, path: &Path<'_>, value: &Part<'_, '_>) -> FileResult<Self::Item> {
        match self.0 {
            Shape::Tag => {
                let there = field(alloc, path, value.as_bool())?;
                if_good(alloc, path, there, Value::Tag)
            }
            Shape::Int => {
                let number = IntForm.read(alloc, path, value)?;
                Ok(Value::Int(number))
            }
            Shape::Vec3 => {
                let parts = list_at(alloc, path, value)?;
                let three = three_of(alloc, path, parts)?;
                Ok(Value::Vec3(three))
            }
            Shape::Text => {
                let text = string_at(alloc, path, value)?;
                let text = String::from_str(alloc, text)?;
                Ok(Value::Text(Text::from(text)))
            }
            Shape::Link => {
                let entity = EntityForm.read(alloc, path, value)?;
                Ok(Value::Link(entity))
            }
        }
    }
}

/// A cell of a shape: its value and its two ticks, which stand in a list from a place on.
///
/// Refused: the fault of the first of the three that has one, at its place; or `NoMemory`.
#[tactic(auto, using(crate::proofs::Walking::walking))]
pub fn cell_from(
    alloc: Global,
    shape: Shape,
    path: &Path<'_>,
    place: usize,
    value: &Part<'_, '_>,
    added: &Part<'_, '_>,
    changed: &Part<'_, '_>,
) -> FileResult<Cell>
    requires { place < 2 }
    ensures { Reads result
        (cell_from shape (path_bytes path.now) place (view value.now) (view added.now) (view changed.now)) }
{
    let value = ValueForm(shape).read(alloc, &Path::Item(&*path, place), value)?;
    let added = TickForm.read(alloc, &Path::Item(&*path, place + 1), added)?;
    let changed = TickForm.read(alloc, &Path::Item(&*path, place + 2), changed)?;
    Ok(Cell {
        value,
        added,
        changed,
    })
}

/// The cell of a component of a shape, of the parts of its list.
#[tactic(auto, using(crate::proofs::Walking::walking, crate::proofs::Parted::parted))]
fn cell_parts(
    alloc: Global,
    shape: Shape,
    path: &Path<'_>,
    parts: Parts<'_, '_>,
) -> FileResult<Cell>
    ensures { Reads result (cell_parts shape (path_bytes path.now) (views parts.entry)) }
{
    match parts.three() {
        Some((value, added, changed)) => {
            cell_from(alloc, shape, path, 0, &value, &added, &changed)
        }
        None => Err(bad_field(alloc, path)),
    }
}

/// The form of the cell of a component, of a kind of this shape: a list of its value and its two ticks.
#[derive(Drop)]
pub struct CellForm(pub Shape);

impl Form for CellForm {
    ghost use Rattle.std.specs.Prelude.{true};
    ghost use Rattle.scene_kinds.specs.declared.cell.Cell.{Cell};
    ghost use Rattle.scene_json_forms.specs.Walk.{cell_at};

    type Item = Cell;

    ghost Meant = { Cell };

    ghost meant = { λ cell. cell };

    ghost word = { λ form. cell_at form.0 };

    ghost follows = { λ _ _. true };

    #[tactic(auto, using(crate::proofs::Walking::walking))]
    fn read(&self, alloc: Global, path: &Path<'_>, value: &Part<'_, '_>) -> FileResult<Self::Item> {
        let parts = list_at(alloc, path, value)?;
        cell_parts(alloc, self.0, path, parts)
    }
}

/// The cell of a resource, whose shape stands first.
#[tactic(auto, using(crate::proofs::Walking::walking))]
fn shaped_cell(
    alloc: Global,
    path: &Path<'_>,
    shape: &Part<'_, '_>,
    value: &Part<'_, '_>,
    added: &Part<'_, '_>,
    changed: &Part<'_, '_>,
) -> FileResult<Cell>
    ensures { Reads result
        (resource_cell_parts (path_bytes path.now) (view shape.now ∷ view value.now ∷ view added.now ∷ view changed.now ∷ [])) }
{
    let shape = ShapeForm.read(alloc, &Path::Item(&*path, 0), shape)?;
    cell_from(alloc, shape, path, 1, value, added, changed)
}

/// The cell of a resource, of the parts of its list.
#[tactic(auto, using(crate::proofs::Walking::walking, crate::proofs::Parted::parted))]
fn resource_cell_parts(alloc: Global, path: &Path<'_>, parts: Parts<'_, '_>) -> FileResult<Cell>
    ensures { Reads result (resource_cell_parts (path_bytes path.now) (views parts.entry)) }
{
    match parts.four() {
        Some((shape, value, added, changed)) => {
            shaped_cell(alloc, path, &shape, &value, &added, &changed)
        }
        None => Err(bad_field(alloc, path)),
    }
}

/// The form of the cell of a resource: a list of its shape, its value and its two ticks.
#[derive(Drop)]
pub struct ResourceCellForm;

impl Form for ResourceCellForm {
    ghost use Rattle.std.specs.Prelude.{true};
    ghost use Rattle.scene_kinds.specs.declared.cell.Cell.{Cell};
    ghost use Rattle.scene_json_forms.specs.Walk.{resource_cell_at};

    type Item = Cell;

    ghost Meant = { Cell };

    ghost meant = { λ cell. cell };

    ghost word = { λ _. resource_cell_at };

    ghost follows = { λ _ _. true };

    #[tactic(auto, using(crate::proofs::Walking::walking))]
    fn read(&self, alloc: Global, path: &Path<'_>, value: &Part<'_, '_>) -> FileResult<Self::Item> {
        let parts = list_at(alloc, path, value)?;
        resource_cell_parts(alloc, path, parts)
    }
}
