//! Deltas.
ghost use Rattle.scene_json.specs.View.{view};
ghost use Rattle.scene_json_forms.specs.Members.{members_in};
ghost use Rattle.scene_json_forms.specs.Outcome.{Reads, ReadsAs};
ghost use Rattle.scene_json_forms.specs.Paths.{path_bytes};
ghost use Rattle.scene_json_forms.specs.Reading.{object_at};
ghost use Rattle.scene_file_records.specs.Op.{op_keys};
ghost use Rattle.scene_file_records.specs.Walk.{op_of, spawned_of, despawned_of, shifted_of, cell_set_of, linked_of, resource_set_of, delta_of};

use crate::op::{Op, OpForm};
use crate::read_cells::{KCellForm, KCellsForm, MaybeResourceCellForm};
use crate::read_links::{FlagForm, LinkForm};
use scene_deltas::{Delta, ResourceCell};
use scene_json::Part;
use scene_json_forms::{
    EntityForm, FileResult, Form, NameForm, Path, U32Form, bad_field, if_good, key_of, object_at,
};
use scene_kinds::{Schema, Text};
use std::alloc::Global;

const DESPAWNED_KEYS: [&str; 6] = ["cells", "entity", "link", "op", "place", "retired"];

/// The delta of a spawn, of an object of its keys.
#[tactic(auto, using(scene_json_forms::proofs::Walking::walking))]
fn spawned_of(
    alloc: Global,
    schema: &Schema,
    path: &Path<'_>,
    value: &Part<'_, '_>,
) -> FileResult<Delta>
    ensures { Reads result (spawned_of schema.now (path_bytes path.now) (members_in (view value.now))) }
{
    let cells = key_of(alloc, &KCellsForm { schema }, path, value, "cells")?;
    let entity = key_of(alloc, &EntityForm, path, value, "entity")?;
    let fresh = key_of(alloc, &FlagForm, path, value, "fresh")?;
    Ok(Delta::Spawned {
        entity,
        cells,
        fresh,
    })
}

/// The delta of a despawn.
#[tactic(auto, using(scene_json_forms::proofs::Walking::walking))]
fn despawned_of(
    alloc: Global,
    schema: &Schema,
    path: &Path<'_>,
    value: &Part<'_, '_>,
) -> FileResult<Delta>
    ensures { Reads result (despawned_of schema.now (path_bytes path.now) (members_in (view value.now))) }
{
    let cells = key_of(alloc, &KCellsForm { schema }, path, value, "cells")?;
    let entity = key_of(alloc, &EntityForm, path, value, "entity")?;
    let link = key_of(alloc, &LinkForm, path, value, "link")?;
    let place = key_of(alloc, &U32Form, path, value, "place")?;
    let retired = key_of(alloc, &FlagForm, path, value, "retired")?;
    Ok(Delta::Despawned {
        entity,
        place,
        cells,
        link,
        retired,
    })
}

/// The delta of a row that moved.
#[tactic(auto, using(scene_json_forms::proofs::Walking::walking))]
fn shifted_of(
    alloc: Global,
    schema: &Schema,
    path: &Path<'_>,
    value: &Part<'_, '_>,
) -> FileResult<Delta>
    ensures { Reads result (shifted_of schema.now (path_bytes path.now) (members_in (view value.now))) }
{
    let (kind, cell) = key_of(alloc, &KCellForm { schema }, path, value, "cell")?;
    let entity = key_of(alloc, &EntityForm, path, value, "entity")?;
    let inward = key_of(alloc, &FlagForm, path, value, "inward")?;
    let place = key_of(alloc, &U32Form, path, value, "place")?;
    Ok(Delta::Shifted {
        entity,
        place,
        kind,
        cell,
        inward,
    })
}

/// The delta of a cell, whose two kinds are one.
#[tactic(auto, using(scene_json_forms::proofs::Walking::walking))]
fn cell_set_of(
    alloc: Global,
    schema: &Schema,
    path: &Path<'_>,
    value: &Part<'_, '_>,
) -> FileResult<Delta>
    ensures { Reads result (cell_set_of schema.now (path_bytes path.now) (members_in (view value.now))) }
{
    let form = KCellForm { schema };
    let (kind, after) = key_of(alloc, &form, path, value, "after")?;
    let (other, before) = key_of(alloc, &form, path, value, "before")?;
    let entity = key_of(alloc, &EntityForm, path, value, "entity")?;
    let delta = Delta::CellSet {
        entity,
        kind,
        before,
        after,
    };
    if_good(alloc, &Path::Key(&*path, "after"), kind == other, delta)
}

/// The delta of a link.
#[tactic(auto, using(scene_json_forms::proofs::Walking::walking))]
fn linked_of(alloc: Global, path: &Path<'_>, value: &Part<'_, '_>) -> FileResult<Delta>
    ensures { Reads result (linked_of (path_bytes path.now) (members_in (view value.now))) }
{
    let after = key_of(alloc, &LinkForm, path, value, "after")?;
    let before = key_of(alloc, &LinkForm, path, value, "before")?;
    let entity = key_of(alloc, &EntityForm, path, value, "entity")?;
    Ok(Delta::Linked {
        entity,
        before,
        after,
    })
}

/// The delta of a resource.
#[tactic(auto, using(scene_json_forms::proofs::Walking::walking))]
fn resource_set_of(alloc: Global, path: &Path<'_>, value: &Part<'_, '_>) -> FileResult<Delta>
    ensures { Reads result (resource_set_of (path_bytes path.now) (members_in (view value.now))) }
{
    let after = key_of(alloc, &MaybeResourceCellForm, path, value, "after")?;
    let before = key_of(alloc, &MaybeResourceCellForm, path, value, "before")?;
    let name = key_of(alloc, &NameForm, path, value, "name")?;
    Ok(Delta::ResourceSet {
        name: Text::from(name),
        before: ResourceCell::new(alloc, before)?,
        after: ResourceCell::new(alloc, after)?,
    })
}

/// What a delta does, which is an object.
#[tactic(auto, using(scene_json_forms::proofs::Walking::walking))]
fn op_of(alloc: Global, path: &Path<'_>, value: &Part<'_, '_>) -> FileResult<Op>
    ensures { Reads result (op_of (path_bytes path.now) (view value.now)) }
{
    if !value.is_object() {
        return Err(bad_field(alloc, path));
    }
    key_of(alloc, &OpForm, path, value, "op")
}

/// Sees that a delta has no other keys than those of its `op`.
fn known_keys(alloc: Global, op: Op, path: &Path<'_>, value: &Part<'_, '_>) -> FileResult<()>
    ensures { ReadsAs (λ _. members_in (view value.now)) result
        (object_at (op_keys op) (path_bytes path.now) (view value.now)) }
{
    match op {
        Op::Spawned => object_at(alloc, path, value, &["cells", "entity", "fresh", "op"]),
        Op::Despawned => object_at(alloc, path, value, &DESPAWNED_KEYS),
        Op::Shifted => object_at(
            alloc,
            path,
            value,
            &["cell", "entity", "inward", "op", "place"],
        ),
        Op::CellSet => object_at(alloc, path, value, &["after", "before", "entity", "op"]),
        Op::Linked => object_at(alloc, path, value, &["after", "before", "entity", "op"]),
        Op::ResourceSet => object_at(alloc, path, value, &["after", "before", "name", "op"]),
    }
}

/// The delta of an object of the keys of an `op`.
fn delta_of(
    alloc: Global,
    schema: &Schema,
    op: Op,
    path: &Path<'_>,
    value: &Part<'_, '_>,
) -> FileResult<Delta>
    ensures { Reads result (delta_of schema.now op (path_bytes path.now) (members_in (view value.now))) }
{
    match op {
        Op::Spawned => spawned_of(alloc, schema, path, value),
        Op::Despawned => despawned_of(alloc, schema, path, value),
        Op::Shifted => shifted_of(alloc, schema, path, value),
        Op::CellSet => cell_set_of(alloc, schema, path, value),
        Op::Linked => linked_of(alloc, path, value),
        Op::ResourceSet => resource_set_of(alloc, path, value),
    }
}

/// The form of deltas.
#[derive(Drop)]
pub(crate) struct DeltaForm<'a> {
    pub(crate) schema: &'a Schema,
}

impl Form for DeltaForm<'_> {
    ghost use Rattle.std.specs.Prelude.{true};
    ghost use Rattle.scene_deltas.specs.declared.delta.Delta.{Delta};
    ghost use Rattle.scene_file_records.specs.Walk.{delta_at};

    type Item = Delta;

    ghost Meant = { Delta };

    ghost meant = { λ delta. delta };

    ghost word = { λ form. delta_at form.schema.now };

    ghost follows = { λ _ _. true };

    #[tactic(auto, using(scene_json_forms::proofs::Walking::walking))]
    fn read(&self, alloc: Global, path: &Path<'_>, value: &Part<'_, '_>) -> FileResult<Self::Item> {
        let op = op_of(alloc, path, value)?;
        known_keys(alloc, op, path, value)?;
        delta_of(alloc, self.schema, op, path, value)
    }
}
