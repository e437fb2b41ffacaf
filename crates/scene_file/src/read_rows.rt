//! Rows and tables.
ghost use Rattle.std.specs.Prelude.{◌≡◌, None, IfOk, length};
ghost use Rattle.std.specs.List.{zip};
ghost use Rattle.scene_json.specs.View.{views};
ghost use Rattle.scene_file.specs.TableKinds.{AreRising};
ghost use Rattle.scene_json_forms.specs.Outcome.{ReadsAs};
ghost use Rattle.scene_json_forms.specs.Paths.{path_bytes};
ghost use Rattle.scene_file.specs.Walk.{cells_from, set_of, shapes_of};

use scene_json::{Part, Parts};
use scene_json_forms::{
    CellForm, EntityForm, FileResult, Form, KindNumberForm, ListOf, Ordered, Path, Rising,
    bad_field, key_of, list_at, object_at, two_keys,
};
use scene_kinds::{Cell, Cells, KindSet, Row, Schema, Shape};
use std::alloc::{AllocError, Global};

/// The cells of a row, one for each of its table's kinds.
#[tactic(auto, using(scene_json_forms::proofs::Walking::walking))]
fn cells_from(
    alloc: Global,
    path: &Path<'_>,
    shapes: &[Shape],
    parts: Parts<'_, '_>,
) -> FileResult<Vec<Cell>>
    requires { length shapes.now ≡ length (views parts) }
    ensures { ReadsAs (λ cells. cells.items) result
        (cells_from shapes.now (path_bytes path.now) 0 (views parts.entry)) }
{
    let mut parts = parts;
    let mut cells = Vec::with_capacity(alloc, parts.len())?;
    'cells: while let Some(part) = parts.next() {
        let place = cells.len();
        let form = CellForm(shapes[place]);
        let cell = form.read(alloc, &Path::Item(&*path, place), &part)?;
        cells.push(cell)?;
    }
    Ok(cells)
}

/// Cells of these shapes.
#[derive(Drop)]
struct CellsForm<'a> {
    shapes: &'a [Shape],
}

impl Form for CellsForm<'_> {
    ghost use Rattle.std.specs.Prelude.{List, true};
    ghost use Rattle.scene_kinds.specs.declared.cell.Cell.{Cell};
    ghost use Rattle.scene_file.specs.Walk.{cells_at};

    type Item = Vec<Cell>;

    ghost Meant = { List Cell };

    ghost meant = { λ cells. cells.items };

    ghost word = { λ form. cells_at form.shapes.now };

    ghost follows = { λ _ _. true };

    #[tactic(auto, using(scene_json_forms::proofs::Walking::walking))]
    fn read(&self, alloc: Global, path: &Path<'_>, value: &Part<'_, '_>) -> FileResult<Self::Item> {
        let parts = list_at(alloc, path, value)?;
        if parts.len() != self.shapes.len() {
            return Err(bad_field(alloc, path));
        }
        cells_from(alloc, path, self.shapes, parts)
    }
}

/// Cells with their kinds.
fn with_kinds(alloc: Global, kinds: &[u8], cells: Vec<Cell>) -> Result<Vec<(u8, Cell)>, AllocError>
    ensures { IfOk result (λ row. row.items ≡ zip kinds.now cells.items) }
{
    let mut row = Vec::with_capacity(alloc, cells.len())?;
    row.extend(kinds.iter().copied().zip(cells))?;
    Ok(row)
}

/// Rows of kinds with these shapes.
#[derive(Drop)]
pub(crate) struct RowForm<'a> {
    pub(crate) kinds: &'a [u8],
    pub(crate) shapes: &'a [Shape],
}

impl Form for RowForm<'_> {
    ghost use Rattle.std.specs.Prelude.{true};
    ghost use Rattle.scene_kinds.specs.declared.cells.Row.{Row};
    ghost use Rattle.scene_file.specs.Walk.{row_at};

    type Item = Row;

    ghost Meant = { Row };

    ghost meant = { λ row. row };

    ghost word = { λ form. row_at form.kinds.now form.shapes.now };

    ghost follows = { λ _ _. true };

    #[tactic(auto, using(scene_json_forms::proofs::Walking::walking))]
    fn read(&self, alloc: Global, path: &Path<'_>, value: &Part<'_, '_>) -> FileResult<Self::Item> {
        let cells = CellsForm {
            shapes: self.shapes,
        };
        let (cells, entity) = two_keys(alloc, path, value, &cells, "cells", &EntityForm, "entity")?;
        let cells = with_kinds(alloc, self.kinds, cells)?;
        Ok(Row {
            entity,
            cells: Cells::from_vec(cells),
        })
    }
}

/// The shapes of kinds.
pub(crate) fn shapes_of(
    alloc: Global,
    schema: &Schema,
    kinds: &[u8],
) -> Result<Vec<Shape>, AllocError>
    ensures { IfOk result (λ shapes. shapes.items ≡ shapes_of schema.now kinds.now) }
{
    kinds
        .iter()
        .filter_map(|kind| schema.shape_of(*kind))
        .collect(alloc)
}

/// The kind set of kinds.
pub(crate) fn set_of(kinds: &[u8]) -> KindSet
    requires { AreRising 64 None kinds.now }
    ensures { result ≡ set_of kinds.now }
{
    let mut set: KindSet = 0;
    for kind in kinds {
        set += 1u64 << *kind;
    }
    set
}

/// Tables of these kinds.
#[derive(Drop)]
pub(crate) struct TableForm<'a> {
    pub(crate) schema: &'a Schema,
}

impl Form for TableForm<'_> {
    ghost use Rattle.std.specs.Prelude.{ℕ, List};
    ghost use Rattle.scene_kinds.specs.declared.cells.Row.{Row};
    ghost use Rattle.scene_file.specs.Walk.{table_at, table_follows};

    type Item = (KindSet, Vec<Row>);

    ghost Meant = { ℕ × List Row };

    ghost meant = { λ table. (table.0, table.1.items) };

    ghost word = { λ form. table_at form.schema.now };

    ghost follows = { table_follows };

    #[tactic(auto, using(scene_json_forms::proofs::Walking::walking, crate::proofs::TableKinds::kinds, crate::proofs::SceneSteps::table_steps))]
    fn read(&self, alloc: Global, path: &Path<'_>, value: &Part<'_, '_>) -> FileResult<Self::Item> {
        object_at(alloc, path, value, &["kinds", "rows"])?;
        let form = Rising(KindNumberForm {
            count: self.schema.len() as u8,
        });
        let kinds = key_of(alloc, &form, path, value, "kinds")?;
        let shapes = shapes_of(alloc, self.schema, kinds.as_slice())?;
        let form = ListOf(RowForm {
            kinds: kinds.as_slice(),
            shapes: shapes.as_slice(),
        });
        let rows = key_of(alloc, &form, path, value, "rows")?;
        Ok((set_of(kinds.as_slice()), rows))
    }
}

impl Ordered for TableForm<'_> {
    fn follows(&self, before: &(KindSet, Vec<Row>), item: &(KindSet, Vec<Row>)) -> bool {
        before.0 < item.0
    }
}
