//! The keys of requests, of questions and of steps.
ghost use Rattle.scene_json.specs.View.{view};
ghost use Rattle.scene_json_forms.specs.Members.{members_in};
ghost use Rattle.scene_json_forms.specs.Outcome.{ReadsAs};
ghost use Rattle.scene_json_forms.specs.Paths.{path_bytes};
ghost use Rattle.scene_json_forms.specs.Reading.{object_at};
ghost use Rattle.scene_requests.specs.Asked.{question_keys, request_keys};
ghost use Rattle.scene_requests.specs.Keys.{form_keys, step_keys};

use crate::request_form::{QuestionForm, RequestForm};
use crate::step_name::StepName;
use scene_json::Part;
use scene_json_forms::{FileResult, Path, object_at};
use scene_script::LineForm;
use std::alloc::Global;

/// Sees that a request has no other keys than those of the line that it stands for.
fn known_form_keys(
    alloc: Global,
    form: LineForm,
    path: &Path<'_>,
    value: &Part<'_, '_>,
) -> FileResult<()>
    ensures { ReadsAs (λ _. members_in (view value.now)) result
        (object_at (form_keys form) (path_bytes path.now) (view value.now)) }
{
    match form {
        LineForm::Kind => object_at(alloc, path, value, &["do", "name", "shape"]),
        LineForm::Slots | LineForm::Calls | LineForm::Depth => {
            object_at(alloc, path, value, &["do", "limit"])
        }
        LineForm::Load => object_at(alloc, path, value, &["do", "text"]),
        LineForm::Spawn => object_at(alloc, path, value, &["cells", "do"]),
        LineForm::Insert => object_at(alloc, path, value, &["do", "entity", "kind", "value"]),
        LineForm::Despawn | LineForm::DespawnAll | LineForm::DespawnIfAlive | LineForm::Get => {
            object_at(alloc, path, value, &["do", "entity"])
        }
        LineForm::Remove => object_at(alloc, path, value, &["do", "entity", "kind"]),
        LineForm::Parent => object_at(alloc, path, value, &["child", "do", "parent"]),
        LineForm::Unparent => object_at(alloc, path, value, &["child", "do"]),
        LineForm::Put => object_at(alloc, path, value, &["do", "name", "shape", "value"]),
        LineForm::Drop => object_at(alloc, path, value, &["do", "name"]),
        LineForm::System => object_at(
            alloc,
            path,
            value,
            &["do", "name", "need", "steps", "without"],
        ),
        LineForm::As => object_at(alloc, path, value, &["do", "session"]),
        LineForm::Undo | LineForm::Redo => object_at(alloc, path, value, &["count", "do"]),
        _ => object_at(alloc, path, value, &["do"]),
    }
}

/// Sees that a question has no other keys than those of what it asks for.
fn known_question_keys(
    alloc: Global,
    form: QuestionForm,
    path: &Path<'_>,
    value: &Part<'_, '_>,
) -> FileResult<()>
    ensures { ReadsAs (λ _. members_in (view value.now)) result
        (object_at (question_keys form) (path_bytes path.now) (view value.now)) }
{
    match form {
        QuestionForm::Tables => object_at(alloc, path, value, &["do", "need", "without"]),
        QuestionForm::Rows => object_at(
            alloc,
            path,
            value,
            &["count", "do", "from", "need", "without"],
        ),
        QuestionForm::Children | QuestionForm::ParentOf => {
            object_at(alloc, path, value, &["do", "entity"])
        }
        QuestionForm::Past | QuestionForm::Future => {
            object_at(alloc, path, value, &["count", "do", "from"])
        }
        QuestionForm::Deltas => object_at(alloc, path, value, &["do", "of", "step"]),
        QuestionForm::Step => object_at(alloc, path, value, &["do", "way"]),
        QuestionForm::ChangedSince | QuestionForm::AddedSince => object_at(
            alloc,
            path,
            value,
            &["do", "need", "rewinds", "tick", "without"],
        ),
        _ => object_at(alloc, path, value, &["do"]),
    }
}

/// Sees that a request has no other keys than those of what it asks for.
pub(crate) fn known_request_keys(
    alloc: Global,
    form: RequestForm,
    path: &Path<'_>,
    value: &Part<'_, '_>,
) -> FileResult<()>
    ensures { ReadsAs (λ _. members_in (view value.now)) result
        (object_at (request_keys form) (path_bytes path.now) (view value.now)) }
{
    match form {
        RequestForm::Line(form) => known_form_keys(alloc, form, path, value),
        RequestForm::Ask(form) => known_question_keys(alloc, form, path, value),
        RequestForm::DropFrame => object_at(alloc, path, value, &["do"]),
        RequestForm::Declare => object_at(alloc, path, value, &["do", "name", "shape"]),
    }
}

/// Sees that a step has no other keys than those of its name.
pub(crate) fn known_step_keys(
    alloc: Global,
    name: StepName,
    path: &Path<'_>,
    value: &Part<'_, '_>,
) -> FileResult<()>
    ensures { ReadsAs (λ _. members_in (view value.now)) result
        (object_at (step_keys name) (path_bytes path.now) (view value.now)) }
{
    match name {
        StepName::AddVec | StepName::AddInt => {
            object_at(alloc, path, value, &["by", "step", "to"])
        }
        StepName::Zero => object_at(alloc, path, value, &["kind", "step"]),
        StepName::Child => object_at(alloc, path, value, &["cells", "step"]),
        StepName::Count => object_at(alloc, path, value, &["name", "step"]),
    }
}
