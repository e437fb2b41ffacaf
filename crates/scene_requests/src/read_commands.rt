//! Commands.
ghost use Rattle.scene_json.specs.View.{view};
ghost use Rattle.scene_json_forms.specs.Members.{members_in};
ghost use Rattle.scene_json_forms.specs.Outcome.{Reads};
ghost use Rattle.scene_json_forms.specs.Paths.{path_bytes};
ghost use Rattle.scene_requests.specs.Walk.{spawn_of, insert_of, despawn_of, despawnall_of, despawnifalive_of, remove_of, parent_of, unparent_of, put_of, drop_of};

use crate::read_cells::CellsForm;
use crate::read_words::{KindForm, TargetForm, TextForm};
use scene_commands::Command;
use scene_json::Part;
use scene_json_forms::{FileResult, Path, ShapeForm, ValueForm, key_of};
use scene_kinds::Schema;
use scene_script::Line;
use std::alloc::Global;

// Each is read of an object of its keys (docs/SHELL.md, "Requests").

/// A spawn.
#[tactic(auto, using(scene_json_forms::proofs::Walking::walking))]
pub(crate) fn spawn_of(
    alloc: Global,
    schema: &Schema,
    path: &Path<'_>,
    value: &Part<'_, '_>,
) -> FileResult<Line>
    ensures { Reads result (spawn_of schema.now (path_bytes path.now) (members_in (view value.now))) }
{
    let cells = key_of(alloc, &CellsForm { schema }, path, value, "cells")?;
    Ok(Line::Do(Command::Spawn(cells)))
}

/// An insert.
#[tactic(auto, using(scene_json_forms::proofs::Walking::walking))]
pub(crate) fn insert_of(
    alloc: Global,
    schema: &Schema,
    path: &Path<'_>,
    value: &Part<'_, '_>,
) -> FileResult<Line>
    ensures { Reads result (insert_of schema.now (path_bytes path.now) (members_in (view value.now))) }
{
    let target = key_of(alloc, &TargetForm, path, value, "entity")?;
    let (kind, shape) = key_of(alloc, &KindForm { schema }, path, value, "kind")?;
    let value = key_of(alloc, &ValueForm(shape), path, value, "value")?;
    Ok(Line::Do(Command::Insert(target, kind, value)))
}

/// A despawn.
#[tactic(auto, using(scene_json_forms::proofs::Walking::walking))]
pub(crate) fn despawn_of(alloc: Global, path: &Path<'_>, value: &Part<'_, '_>) -> FileResult<Line>
    ensures { Reads result (despawn_of (path_bytes path.now) (members_in (view value.now))) }
{
    let target = key_of(alloc, &TargetForm, path, value, "entity")?;
    Ok(Line::Do(Command::Despawn(target)))
}

/// A despawn of an entity and all below it.
#[tactic(auto, using(scene_json_forms::proofs::Walking::walking))]
pub(crate) fn despawnall_of(
    alloc: Global,
    path: &Path<'_>,
    value: &Part<'_, '_>,
) -> FileResult<Line>
    ensures { Reads result (despawnall_of (path_bytes path.now) (members_in (view value.now))) }
{
    let target = key_of(alloc, &TargetForm, path, value, "entity")?;
    Ok(Line::Do(Command::DespawnAll(target)))
}

/// The same of a live entity.
#[tactic(auto, using(scene_json_forms::proofs::Walking::walking))]
pub(crate) fn despawnifalive_of(
    alloc: Global,
    path: &Path<'_>,
    value: &Part<'_, '_>,
) -> FileResult<Line>
    ensures { Reads result (despawnifalive_of (path_bytes path.now) (members_in (view value.now))) }
{
    let target = key_of(alloc, &TargetForm, path, value, "entity")?;
    Ok(Line::Do(Command::DespawnAllIfAlive(target)))
}

/// A removal of a component.
#[tactic(auto, using(scene_json_forms::proofs::Walking::walking))]
pub(crate) fn remove_of(
    alloc: Global,
    schema: &Schema,
    path: &Path<'_>,
    value: &Part<'_, '_>,
) -> FileResult<Line>
    ensures { Reads result (remove_of schema.now (path_bytes path.now) (members_in (view value.now))) }
{
    let target = key_of(alloc, &TargetForm, path, value, "entity")?;
    let (kind, _) = key_of(alloc, &KindForm { schema }, path, value, "kind")?;
    Ok(Line::Do(Command::Remove(target, kind)))
}

/// A parent of a child.
#[tactic(auto, using(scene_json_forms::proofs::Walking::walking))]
pub(crate) fn parent_of(alloc: Global, path: &Path<'_>, value: &Part<'_, '_>) -> FileResult<Line>
    ensures { Reads result (parent_of (path_bytes path.now) (members_in (view value.now))) }
{
    let child = key_of(alloc, &TargetForm, path, value, "child")?;
    let parent = key_of(alloc, &TargetForm, path, value, "parent")?;
    Ok(Line::Do(Command::SetParent(child, parent)))
}

/// A child without a parent.
#[tactic(auto, using(scene_json_forms::proofs::Walking::walking))]
pub(crate) fn unparent_of(alloc: Global, path: &Path<'_>, value: &Part<'_, '_>) -> FileResult<Line>
    ensures { Reads result (unparent_of (path_bytes path.now) (members_in (view value.now))) }
{
    let child = key_of(alloc, &TargetForm, path, value, "child")?;
    Ok(Line::Do(Command::RemoveParent(child)))
}

/// A resource.
#[tactic(auto, using(scene_json_forms::proofs::Walking::walking))]
pub(crate) fn put_of(alloc: Global, path: &Path<'_>, value: &Part<'_, '_>) -> FileResult<Line>
    ensures { Reads result (put_of (path_bytes path.now) (members_in (view value.now))) }
{
    let name = key_of(alloc, &TextForm, path, value, "name")?;
    let shape = key_of(alloc, &ShapeForm, path, value, "shape")?;
    let value = key_of(alloc, &ValueForm(shape), path, value, "value")?;
    Ok(Line::Do(Command::PutResource(name, value)))
}

/// A removal of a resource.
#[tactic(auto, using(scene_json_forms::proofs::Walking::walking))]
pub(crate) fn drop_of(alloc: Global, path: &Path<'_>, value: &Part<'_, '_>) -> FileResult<Line>
    ensures { Reads result (drop_of (path_bytes path.now) (members_in (view value.now))) }
{
    let name = key_of(alloc, &TextForm, path, value, "name")?;
    Ok(Line::Do(Command::RemoveResource(name)))
}
