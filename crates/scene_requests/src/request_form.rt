//! What requests ask for, by the word of their key `do`.
ghost use Rattle.std.specs.Prelude.{◌≡◌};
ghost use Rattle.scene_requests.specs.Asked.{question_named as named_question, request_named as named_request, shell_named as named_shell};

use crate::question::{Side, Way};
use scene_json::Part;
use scene_json_forms::{FileResult, Form, Path, field};
use scene_script::LineForm;
use std::alloc::Global;

/// What a question asks for (docs/SHELL.md, "Questions").
#[derive(Clone, Copy)]
pub(crate) enum QuestionForm {
    Status,
    Kinds,
    Tables,
    Rows,
    Children,
    ParentOf,
    Resources,
    Past,
    Future,
    Deltas,
    Step,
    ChangedSince,
    AddedSince,
}

/// What a request asks for.
#[derive(Clone, Copy)]
pub(crate) enum RequestForm {
    /// A line of a script.
    Line(LineForm),
    /// A question.
    Ask(QuestionForm),
    /// The open frame is to be dropped.
    DropFrame,
    /// A kind is to be declared.
    Declare,
}

/// The question of a word.
fn question_named(word: &str) -> Option<QuestionForm>
    ensures { result ≡ named_question word.now }
{
    match word {
        "status" => Some(QuestionForm::Status),
        "kinds" => Some(QuestionForm::Kinds),
        "tables" => Some(QuestionForm::Tables),
        "rows" => Some(QuestionForm::Rows),
        "children" => Some(QuestionForm::Children),
        "parentof" => Some(QuestionForm::ParentOf),
        "resources" => Some(QuestionForm::Resources),
        "past" => Some(QuestionForm::Past),
        "future" => Some(QuestionForm::Future),
        "deltas" => Some(QuestionForm::Deltas),
        "step" => Some(QuestionForm::Step),
        "changedsince" => Some(QuestionForm::ChangedSince),
        "addedsince" => Some(QuestionForm::AddedSince),
        _ => None,
    }
}

/// What a word asks for that is no first word of a line.
fn shell_named(word: &str) -> Option<RequestForm>
    ensures { result ≡ named_shell word.now }
{
    match word {
        "dropframe" => Some(RequestForm::DropFrame),
        "declare" => Some(RequestForm::Declare),
        _ => match question_named(word) {
            Some(form) => Some(RequestForm::Ask(form)),
            None => None,
        },
    }
}

/// What a word asks for.
fn request_named(word: &str) -> Option<RequestForm>
    ensures { result ≡ named_request word.now }
{
    match LineForm::named(word) {
        Some(form) => Some(RequestForm::Line(form)),
        None => shell_named(word),
    }
}

/// The form of what a request asks for.
#[derive(Drop)]
pub(crate) struct AskedForm;

impl Form for AskedForm {
    ghost use Rattle.std.specs.Prelude.{true};
    ghost use Rattle.scene_requests.specs.declared.request_form.RequestForm.{RequestForm};
    ghost use Rattle.scene_requests.specs.Questions.{form_at};

    type Item = RequestForm;

    ghost Meant = { RequestForm };

    ghost meant = { λ form. form };

    ghost word = { λ _. form_at };

    ghost follows = { λ _ _. true };

    fn read(&self, alloc: Global, path: &Path<'_>, value: &Part<'_, '_>) -> FileResult<Self::Item> {
        let form = value.as_str().and_then(request_named);
        field(alloc, path, form)
    }
}
