//! Cells with their kinds, and cells of resources that may be missing.
ghost use Rattle.std.specs.Prelude.{[], ◌∷◌};
ghost use Rattle.scene_json.specs.View.{view, views};
ghost use Rattle.scene_json_forms.specs.Outcome.{Reads};
ghost use Rattle.scene_json_forms.specs.Paths.{path_bytes};
ghost use Rattle.scene_file_records.specs.Walk.{kind_at, kcell_parts};

use scene_json::{Part, Parts};
use scene_json_forms::{
    FileResult, Form, KindNumberForm, Ordered, Path, ResourceCellForm, Rising, bad_field,
    cell_from, field, list_at,
};
use scene_kinds::{Cell, Cells, Schema, Shape};
use std::alloc::Global;

/// The number of a kind, with its shape.
#[tactic(auto, using(scene_json_forms::proofs::Walking::walking))]
fn kind_at(
    alloc: Global,
    schema: &Schema,
    path: &Path<'_>,
    value: &Part<'_, '_>,
) -> FileResult<(u8, Shape)>
    ensures { Reads result (kind_at schema.now (path_bytes path.now) (view value.now)) }
{
    let form = KindNumberForm {
        count: schema.len() as u8,
    };
    let kind = form.read(alloc, path, value)?;
    let shape = field(alloc, path, schema.shape_of(kind))?;
    Ok((kind, shape))
}

/// A cell, whose kind stands first.
#[tactic(auto, using(scene_json_forms::proofs::Walking::walking))]
fn cell_of_kind(
    alloc: Global,
    schema: &Schema,
    path: &Path<'_>,
    kind: &Part<'_, '_>,
    value: &Part<'_, '_>,
    added: &Part<'_, '_>,
    changed: &Part<'_, '_>,
) -> FileResult<(u8, Cell)>
    ensures { Reads result
        (kcell_parts schema.now (path_bytes path.now) (view kind.now ∷ view value.now ∷ view added.now ∷ view changed.now ∷ [])) }
{
    let kind = kind_at(alloc, schema, &Path::Item(&*path, 0), kind)?;
    let cell = cell_from(alloc, kind.1, path, 1, value, added, changed)?;
    Ok((kind.0, cell))
}

/// A cell with its kind, of the parts of its list.
#[tactic(auto, using(scene_json_forms::proofs::Walking::walking, crate::proofs::Parted::parted))]
fn kcell_parts(
    alloc: Global,
    schema: &Schema,
    path: &Path<'_>,
    parts: Parts<'_, '_>,
) -> FileResult<(u8, Cell)>
    ensures { Reads result (kcell_parts schema.now (path_bytes path.now) (views parts.entry)) }
{
    match parts.four() {
        Some((kind, value, added, changed)) => {
            cell_of_kind(alloc, schema, path, &kind, &value, &added, &changed)
        }
        None => Err(bad_field(alloc, path)),
    }
}

/// The form of cells with their kinds. In a list they rise by these.
#[derive(Drop)]
pub(crate) struct KCellForm<'a> {
    pub(crate) schema: &'a Schema,
}

impl Form for KCellForm<'_> {
    ghost use Rattle.std.specs.Prelude.{ℕ};
    ghost use Rattle.scene_kinds.specs.declared.cell.Cell.{Cell};
    ghost use Rattle.scene_file_records.specs.Walk.{kcell_at, kind_follows};

    type Item = (u8, Cell);

    ghost Meant = { ℕ × Cell };

    ghost meant = { λ cell. cell };

    ghost word = { λ form. kcell_at form.schema.now };

    ghost follows = { kind_follows };

    #[tactic(auto, using(scene_json_forms::proofs::Walking::walking))]
    fn read(&self, alloc: Global, path: &Path<'_>, value: &Part<'_, '_>) -> FileResult<Self::Item> {
        let parts = list_at(alloc, path, value)?;
        kcell_parts(alloc, self.schema, path, parts)
    }
}

impl Ordered for KCellForm<'_> {
    fn follows(&self, before: &(u8, Cell), item: &(u8, Cell)) -> bool {
        before.0 < item.0
    }
}

/// The form of lists of cells with their kinds.
#[derive(Drop)]
pub(crate) struct KCellsForm<'a> {
    pub(crate) schema: &'a Schema,
}

impl Form for KCellsForm<'_> {
    ghost use Rattle.std.specs.Prelude.{ℕ, List, true};
    ghost use Rattle.scene_kinds.specs.declared.cell.Cell.{Cell};
    ghost use Rattle.scene_file_records.specs.Walk.{kcells_at};

    type Item = Cells;

    ghost Meant = { List (ℕ × Cell) };

    ghost meant = { λ cells. cells };

    ghost word = { λ form. kcells_at form.schema.now };

    ghost follows = { λ _ _. true };

    #[tactic(auto, using(scene_json_forms::proofs::Walking::walking, crate::proofs::SameLists::kept))]
    fn read(&self, alloc: Global, path: &Path<'_>, value: &Part<'_, '_>) -> FileResult<Self::Item> {
        let form = Rising(KCellForm {
            schema: self.schema,
        });
        let cells = form.read(alloc, path, value)?;
        Ok(Cells::from_vec(cells))
    }
}

/// The form of cells of resources, or `null`.
#[derive(Drop)]
pub(crate) struct MaybeResourceCellForm;

impl Form for MaybeResourceCellForm {
    ghost use Rattle.std.specs.Prelude.{Option, true};
    ghost use Rattle.scene_kinds.specs.declared.cell.Cell.{Cell};
    ghost use Rattle.scene_file_records.specs.Walk.{maybe_resource_cell_at};

    type Item = Option<Cell>;

    ghost Meant = { Option Cell };

    ghost meant = { λ cell. cell };

    ghost word = { λ _. maybe_resource_cell_at };

    ghost follows = { λ _ _. true };

    #[tactic(auto, using(scene_json_forms::proofs::Walking::walking))]
    fn read(&self, alloc: Global, path: &Path<'_>, value: &Part<'_, '_>) -> FileResult<Self::Item> {
        if value.is_null() {
            return Ok(None);
        }
        let cell = ResourceCellForm.read(alloc, path, value)?;
        Ok(Some(cell))
    }
}
