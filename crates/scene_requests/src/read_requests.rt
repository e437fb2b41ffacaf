//! What requests ask for.
ghost use Rattle.scene_json.specs.View.{view};
ghost use Rattle.scene_json_forms.specs.Members.{members_in};
ghost use Rattle.scene_json_forms.specs.Outcome.{Reads};
ghost use Rattle.scene_json_forms.specs.Paths.{path_bytes};
ghost use Rattle.scene_requests.specs.Questions.{count_of, declare_of, form_of, line_request_of, request_at, request_of, turn_of};

use crate::keys::known_request_keys;
use crate::question::Way;
use crate::read_lines::line_of;
use crate::read_questions::question_of;
use crate::read_words::TextForm;
use crate::request::Request;
use crate::request_form::{AskedForm, RequestForm};
use scene_json::Part;
use scene_json_forms::{FileResult, Form, Path, ShapeForm, U32Form, bad_field, key_of};
use scene_kinds::Schema;
use scene_script::{Line, LineForm};
use std::alloc::Global;

/// A kind that is to be declared.
#[tactic(auto, using(scene_json_forms::proofs::Walking::walking))]
fn declare_of(alloc: Global, path: &Path<'_>, value: &Part<'_, '_>) -> FileResult<Request>
    ensures { Reads result (declare_of (path_bytes path.now) (members_in (view value.now))) }
{
    let name = key_of(alloc, &TextForm, path, value, "name")?;
    let shape = key_of(alloc, &ShapeForm, path, value, "shape")?;
    Ok(Request::Declare(name, shape))
}

/// How many frames a request is for, where it says so.
#[tactic(auto, using(scene_json_forms::proofs::Walking::walking))]
fn count_of(alloc: Global, path: &Path<'_>, value: &Part<'_, '_>) -> FileResult<Option<u32>>
    ensures { Reads result (count_of (path_bytes path.now) (members_in (view value.now))) }
{
    let Some(count) = value.get("count") else {
        return Ok(None);
    };
    let count = U32Form.read(alloc, &Path::Key(&*path, "count"), &count)?;
    Ok(Some(count))
}

/// A request for frames of one way, or for one of them by a line.
#[tactic(auto, using(scene_json_forms::proofs::Walking::walking))]
fn turn_of(
    alloc: Global,
    way: Way,
    line: Line,
    path: &Path<'_>,
    value: &Part<'_, '_>,
) -> FileResult<Request>
    ensures { Reads result (turn_of way line (path_bytes path.now) (members_in (view value.now))) }
{
    match count_of(alloc, path, value)? {
        Some(count) => Ok(Request::Turn(way, count)),
        None => Ok(Request::Line(line)),
    }
}

/// What stands for a line, or for several undos or redos.
#[tactic(auto, using(scene_json_forms::proofs::Walking::walking))]
fn line_request_of(
    alloc: Global,
    schema: &Schema,
    form: LineForm,
    path: &Path<'_>,
    value: &Part<'_, '_>,
) -> FileResult<Request>
    ensures { Reads result (line_request_of schema.now form (path_bytes path.now) (members_in (view value.now))) }
{
    match form {
        LineForm::Undo => turn_of(alloc, Way::Back, Line::Undo, path, value),
        LineForm::Redo => turn_of(alloc, Way::Forth, Line::Redo, path, value),
        form => {
            let line = line_of(alloc, schema, form, path, value)?;
            Ok(Request::Line(line))
        }
    }
}

/// What a request of the keys of what it asks for says.
#[tactic(auto, using(scene_json_forms::proofs::Walking::walking))]
fn request_of(
    alloc: Global,
    schema: &Schema,
    form: RequestForm,
    path: &Path<'_>,
    value: &Part<'_, '_>,
) -> FileResult<Request>
    ensures { Reads result (request_of schema.now form (path_bytes path.now) (members_in (view value.now))) }
{
    match form {
        RequestForm::Line(form) => line_request_of(alloc, schema, form, path, value),
        RequestForm::Ask(form) => {
            let question = question_of(alloc, schema, form, path, value)?;
            Ok(Request::Ask(question))
        }
        RequestForm::DropFrame => Ok(Request::DropFrame),
        RequestForm::Declare => declare_of(alloc, path, value),
    }
}

/// What a request asks for, which is an object.
#[tactic(auto, using(scene_json_forms::proofs::Walking::walking))]
fn form_of(alloc: Global, path: &Path<'_>, value: &Part<'_, '_>) -> FileResult<RequestForm>
    ensures { Reads result (form_of (path_bytes path.now) (view value.now)) }
{
    if !value.is_object() {
        return Err(bad_field(alloc, path));
    }
    key_of(alloc, &AskedForm, path, value, "do")
}

/// What a request says.
#[tactic(auto, using(scene_json_forms::proofs::Walking::walking))]
pub(crate) fn request_at(
    alloc: Global,
    schema: &Schema,
    path: &Path<'_>,
    value: &Part<'_, '_>,
) -> FileResult<Request>
    ensures { Reads result (request_at schema.now (path_bytes path.now) (view value.now)) }
{
    let form = form_of(alloc, path, value)?;
    known_request_keys(alloc, form, path, value)?;
    request_of(alloc, schema, form, path, value)
}
