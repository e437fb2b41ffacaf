//! The names of the steps of systems.
ghost use Rattle.std.specs.Prelude.{◌≡◌};
ghost use Rattle.scene_requests.specs.Keys.{step_named as named_step};

use scene_json::Part;
use scene_json_forms::{FileResult, Form, Path, field};
use std::alloc::Global;

/// What a step does, as its key `step` says it (docs/SHELL.md, "Requests").
#[derive(Clone, Copy)]
pub(crate) enum StepName {
    AddVec,
    AddInt,
    Zero,
    Child,
    Count,
}

/// The step of a name.
fn step_named(name: &str) -> Option<StepName>
    ensures { result ≡ named_step name.now }
{
    match name {
        "addvec" => Some(StepName::AddVec),
        "addint" => Some(StepName::AddInt),
        "zero" => Some(StepName::Zero),
        "child" => Some(StepName::Child),
        "count" => Some(StepName::Count),
        _ => None,
    }
}

/// The form of the values of `step`.
#[derive(Drop)]
pub(crate) struct StepNameForm;

impl Form for StepNameForm {
    ghost use Rattle.std.specs.Prelude.{true};
    ghost use Rattle.scene_requests.specs.declared.step_name.StepName.{StepName};
    ghost use Rattle.scene_requests.specs.Walk.{step_name_at};

    type Item = StepName;

    ghost Meant = { StepName };

    ghost meant = { λ name. name };

    ghost word = { λ _. step_name_at };

    ghost follows = { λ _ _. true };

    fn read(&self, alloc: Global, path: &Path<'_>, value: &Part<'_, '_>) -> FileResult<Self::Item> {
        let name = value.as_str().and_then(step_named);
        field(alloc, path, name)
    }
}
