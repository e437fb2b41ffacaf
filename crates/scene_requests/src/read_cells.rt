//! Cells.
ghost use Rattle.std.specs.Prelude.{◌≡◌, ◌++◌, [], IfOk, OnOk, map as each, slice_get, unwrap_or};
ghost use Rattle.scene_json.specs.View.{view};
ghost use Rattle.scene_json_forms.specs.Members.{members_in};
ghost use Rattle.scene_json_forms.specs.Outcome.{ReadsAs};
ghost use Rattle.scene_json_forms.specs.Paths.{path_bytes};
ghost use Rattle.scene_kinds.specs.Schema.{name_of};
ghost use Rattle.scene_requests.specs.Cells.{cell_numbered, listed};
ghost use Rattle.scene_requests.specs.Walk.{cells_from};

use scene_commands::Components;
use scene_json::Part;
use scene_json_forms::{FileResult, Form, Path, ValueForm, object_at};
use scene_kinds::{Schema, Value};
use std::alloc::{AllocError, Global};

/// The name of a kind, or an empty text where there is none of that number.
fn name_at(schema: &Schema, kind: u8) -> &str
    ensures { result.now ≡ unwrap_or (name_of schema.now kind) [] }
{
    schema.name_of(kind).unwrap_or("")
}

/// The names of all kinds, by their numbers.
#[tactic(auto, using(crate::proofs::CellLists::names_all))]
fn names_of(alloc: Global, schema: &Schema) -> Result<Vec<&str>, AllocError>
    ensures { IfOk result (λ names. each (λ name. name.now) names.items ≡ each (λ k. k.0) schema.now) }
{
    let mut names = Vec::with_capacity(alloc, schema.len())?;
    'kinds: for kind in 0..schema.len() as u8 {
        names.push(name_at(schema, kind))?;
    }
    Ok(names)
}

/// The cell of a kind, where its name is a key of an object.
#[tactic(auto, using(scene_json_forms::proofs::Walking::walking, crate::proofs::CellLists::cell_laws))]
fn cell_of(
    alloc: Global,
    schema: &Schema,
    path: &Path<'_>,
    object: &Part<'_, '_>,
    kind: u8,
) -> FileResult<Option<(u8, Value)>>
    ensures { ReadsAs listed result (cell_numbered (path_bytes path.now) (members_in (view object.now)) kind (slice_get schema.now kind)) }
{
    let Some(name) = schema.name_of(kind) else {
        return Ok(None);
    };
    let Some(shape) = schema.shape_of(kind) else {
        return Ok(None);
    };
    let Some(part) = object.get(name) else {
        return Ok(None);
    };
    let value = ValueForm(shape).read(alloc, &Path::Key(&*path, name), &part)?;
    Ok(Some((kind, value)))
}

/// Puts a cell behind others, where there is one.
fn push_listed(cells: &mut Vec<(u8, Value)>, cell: Option<(u8, Value)>) -> Result<(), AllocError>
    ensures { OnOk result (cells.new.items ≡ cells.old.items ++ listed cell) }
{
    match cell {
        Some(cell) => {
            cells.push(cell)?;
            Ok(())
        }
        None => Ok(()),
    }
}

/// The cells of an object of which each key is the name of a kind.
#[tactic(auto, using(scene_json_forms::proofs::Walking::walking, crate::proofs::CellLists::cells_all))]
fn cells_of(
    alloc: Global,
    schema: &Schema,
    path: &Path<'_>,
    object: &Part<'_, '_>,
) -> FileResult<Vec<(u8, Value)>>
    ensures { ReadsAs (λ cells. cells.items) result
        (cells_from (path_bytes path.now) (members_in (view object.now)) 0 schema.now) }
{
    let mut cells = Vec::new(alloc);
    'kinds: for kind in 0..schema.len() as u8 {
        let cell = cell_of(alloc, schema, path, object, kind)?;
        push_listed(&mut cells, cell)?;
    }
    Ok(cells)
}

/// The form of cells: objects of the names of kinds and values of their shapes. They are read by the numbers of their
/// kinds, and cost a look for each kind.
#[derive(Drop)]
pub(crate) struct CellsForm<'a> {
    pub(crate) schema: &'a Schema,
}

impl Form for CellsForm<'_> {
    ghost use Rattle.std.specs.Prelude.{ℕ, List, true};
    ghost use Rattle.scene_kinds.specs.declared.value.Value.{Value};
    ghost use Rattle.scene_requests.specs.Walk.{cells_at};

    type Item = Components;

    ghost Meant = { List (ℕ × Value) };

    ghost meant = { λ cells. cells };

    ghost word = { λ form. cells_at form.schema.now };

    ghost follows = { λ _ _. true };

    #[tactic(auto, using(scene_json_forms::proofs::Walking::walking))]
    fn read(&self, alloc: Global, path: &Path<'_>, value: &Part<'_, '_>) -> FileResult<Self::Item> {
        let names = names_of(alloc, self.schema)?;
        object_at(alloc, path, value, names.as_slice())?;
        let cells = cells_of(alloc, self.schema, path, value)?;
        Ok(Components::from(cells))
    }
}
