//! The steps of systems.
ghost use Rattle.scene_json.specs.View.{view};
ghost use Rattle.scene_json_forms.specs.Members.{members_in};
ghost use Rattle.scene_json_forms.specs.Outcome.{Reads};
ghost use Rattle.scene_json_forms.specs.Paths.{path_bytes};
ghost use Rattle.scene_requests.specs.Walk.{addvec_of, addint_of, step_name_of, step_of};

use crate::keys::known_step_keys;
use crate::read_cells::CellsForm;
use crate::read_words::{KindForm, TextForm};
use crate::step_name::{StepName, StepNameForm};
use scene_json::Part;
use scene_json_forms::{FileResult, Form, IntForm, Path, bad_field, key_of};
use scene_kinds::Schema;
use scene_systems::{RowStep, Step};
use std::alloc::Global;

/// The step that adds a vector, of an object of its keys.
#[tactic(auto, using(scene_json_forms::proofs::Walking::walking))]
fn addvec_of(
    alloc: Global,
    schema: &Schema,
    path: &Path<'_>,
    value: &Part<'_, '_>,
) -> FileResult<Step>
    ensures { Reads result (addvec_of schema.now (path_bytes path.now) (members_in (view value.now))) }
{
    let form = KindForm { schema };
    let (by, _) = key_of(alloc, &form, path, value, "by")?;
    let (to, _) = key_of(alloc, &form, path, value, "to")?;
    Ok(Step::Row(RowStep::AddVec { to, by }))
}

/// The step that adds a number.
#[tactic(auto, using(scene_json_forms::proofs::Walking::walking))]
fn addint_of(
    alloc: Global,
    schema: &Schema,
    path: &Path<'_>,
    value: &Part<'_, '_>,
) -> FileResult<Step>
    ensures { Reads result (addint_of schema.now (path_bytes path.now) (members_in (view value.now))) }
{
    let by = key_of(alloc, &IntForm, path, value, "by")?;
    let (to, _) = key_of(alloc, &KindForm { schema }, path, value, "to")?;
    Ok(Step::Row(RowStep::AddInt { to, by }))
}

/// The step of a name, of an object of its keys.
#[tactic(auto, using(scene_json_forms::proofs::Walking::walking))]
fn step_of(
    alloc: Global,
    schema: &Schema,
    name: StepName,
    path: &Path<'_>,
    value: &Part<'_, '_>,
) -> FileResult<Step>
    ensures { Reads result (step_of schema.now name (path_bytes path.now) (members_in (view value.now))) }
{
    match name {
        StepName::AddVec => addvec_of(alloc, schema, path, value),
        StepName::AddInt => addint_of(alloc, schema, path, value),
        StepName::Zero => {
            let (kind, _) = key_of(alloc, &KindForm { schema }, path, value, "kind")?;
            Ok(Step::DespawnAtZero { kind })
        }
        StepName::Child => {
            let cells = key_of(alloc, &CellsForm { schema }, path, value, "cells")?;
            Ok(Step::SpawnChild { cells })
        }
        StepName::Count => {
            let name = key_of(alloc, &TextForm, path, value, "name")?;
            Ok(Step::CountInto { name })
        }
    }
}

/// The name of a step, which is an object.
#[tactic(auto, using(scene_json_forms::proofs::Walking::walking))]
fn step_name_of(alloc: Global, path: &Path<'_>, value: &Part<'_, '_>) -> FileResult<StepName>
    ensures { Reads result (step_name_of (path_bytes path.now) (view value.now)) }
{
    if !value.is_object() {
        return Err(bad_field(alloc, path));
    }
    key_of(alloc, &StepNameForm, path, value, "step")
}

/// The form of steps.
#[derive(Drop)]
pub(crate) struct StepForm<'a> {
    pub(crate) schema: &'a Schema,
}

impl Form for StepForm<'_> {
    ghost use Rattle.std.specs.Prelude.{true};
    ghost use Rattle.scene_systems.specs.declared.step.Step.{Step};
    ghost use Rattle.scene_requests.specs.Walk.{step_at};

    type Item = Step;

    ghost Meant = { Step };

    ghost meant = { λ step. step };

    ghost word = { λ form. step_at form.schema.now };

    ghost follows = { λ _ _. true };

    #[tactic(auto, using(scene_json_forms::proofs::Walking::walking))]
    fn read(&self, alloc: Global, path: &Path<'_>, value: &Part<'_, '_>) -> FileResult<Self::Item> {
        let name = step_name_of(alloc, path, value)?;
        known_step_keys(alloc, name, path, value)?;
        step_of(alloc, self.schema, name, path, value)
    }
}
