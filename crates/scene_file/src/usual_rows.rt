//! Rows, tables and lists of children, straight from the tokens of a text.
ghost use Rattle.std.specs.Prelude.{◌≡◌, IfSome, List};
ghost use Rattle.scene_kinds.specs.declared.cell.Cell.{Cell as CellSeen};
ghost use Rattle.std.specs.List.{zip};
ghost use Rattle.scene_file.specs.Walk.{cells_at};
ghost use Rattle.scene_json_tokens.specs.Taken.{IsTaken};

use crate::read_rows::{RowForm, TableForm, set_of, shapes_of};
use crate::read_scene::ChildrenForm;
use json::Reader;
use scene_json_forms::{EntityForm, Form, KindNumberForm, Ordered};
use scene_json_tokens::{
    Taken, TakenInOrder, take_cell, take_key, take_list, take_list_end, take_list_of, take_object,
    take_object_end, take_rising,
};
use scene_kinds::{Cell, Cells, Entity, KindSet, Row, Shape};
use std::alloc::Global;

/// Takes the cells of a row, with their kinds.
#[inline(always)]
fn take_cells(
    alloc: Global,
    kinds: &[u8],
    shapes: &[Shape],
    reader: &mut Reader<'_>,
) -> Option<Vec<(u8, Cell)>>
    ensures { IfSome result (λ row. (cells : List CellSeen) × (row.items ≡ zip kinds.now cells)
        × IsTaken (cells_at shapes.now) 3 reader.old reader.new cells) }
{
    if kinds.len() != shapes.len() {
        return None;
    }
    take_list(reader)?;
    let mut row = Vec::with_capacity(alloc, kinds.len()).ok()?;
    'cells: while row.len() < kinds.len() {
        let place = row.len();
        let cell = take_cell(alloc, shapes[place], reader)?;
        row.push((kinds[place], cell)).ok()?;
    }
    take_list_end(reader)?;
    Some(row)
}

impl Taken for RowForm<'_> {
    ghost levels = { 4 };

    #[inline(always)]
    fn take(&self, alloc: Global, reader: &mut Reader<'_>) -> Option<Self::Item> {
        take_object(reader)?;
        take_key(reader, "cells")?;
        let cells = take_cells(alloc, self.kinds, self.shapes, reader)?;
        take_key(reader, "entity")?;
        let entity = EntityForm.take(alloc, reader)?;
        take_object_end(reader)?;
        Some(Row {
            entity,
            cells: Cells::from_vec(cells),
        })
    }
}

impl Taken for TableForm<'_> {
    ghost levels = { 6 };

    fn take(&self, alloc: Global, reader: &mut Reader<'_>) -> Option<Self::Item> {
        take_object(reader)?;
        take_key(reader, "kinds")?;
        let form = KindNumberForm {
            count: self.schema.len() as u8,
        };
        let kinds = take_rising(alloc, &form, reader)?;
        let shapes = shapes_of(alloc, self.schema, kinds.as_slice()).ok()?;
        take_key(reader, "rows")?;
        let form = RowForm {
            kinds: kinds.as_slice(),
            shapes: shapes.as_slice(),
        };
        let rows = take_list_of(alloc, &form, reader)?;
        take_object_end(reader)?;
        Some((set_of(kinds.as_slice()), rows))
    }
}

impl TakenInOrder for TableForm<'_> {
    fn stands_after(&self, before: &(KindSet, Vec<Row>), item: &(KindSet, Vec<Row>)) -> bool {
        self.follows(before, item)
    }
}

impl Taken for ChildrenForm {
    ghost levels = { 2 };

    fn take(&self, alloc: Global, reader: &mut Reader<'_>) -> Option<Self::Item> {
        take_object(reader)?;
        take_key(reader, "list")?;
        let list = take_list_of(alloc, &EntityForm, reader)?;
        take_key(reader, "parent")?;
        let parent = EntityForm.take(alloc, reader)?;
        take_object_end(reader)?;
        Some((parent, list))
    }
}

impl TakenInOrder for ChildrenForm {
    fn stands_after(&self, before: &(Entity, Vec<Entity>), item: &(Entity, Vec<Entity>)) -> bool {
        self.follows(before, item)
    }
}
