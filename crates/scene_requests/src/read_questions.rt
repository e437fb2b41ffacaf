//! The questions of requests.
ghost use Rattle.std.specs.Prelude.{◌≡◌};
ghost use Rattle.scene_json.specs.View.{view};
ghost use Rattle.scene_json_forms.specs.Members.{members_in};
ghost use Rattle.scene_json_forms.specs.Outcome.{Reads};
ghost use Rattle.scene_json_forms.specs.Paths.{path_bytes};
ghost use Rattle.scene_requests.specs.Asked.{side_named as named_side, way_named as named_way};
ghost use Rattle.scene_requests.specs.Questions.{deltas_of, filter_of, page_of, question_of, rows_of, since_of};
ghost use Rattle.scene_requests.specs.declared.question.Question.TheVariants.{AddedSince, ChangedSince};

use crate::question::{Page, Question, Side, Way};
use crate::read_words::KindsForm;
use crate::request_form::QuestionForm;
use scene_json::Part;
use scene_json_forms::{EntityForm, FileResult, Form, Path, TickForm, U32Form, field, key_of};
use scene_kinds::Schema;
use scene_systems::Filter;
use std::alloc::Global;

/// The side of a word.
fn side_named(word: &str) -> Option<Side>
    ensures { result ≡ named_side word.now }
{
    match word {
        "past" => Some(Side::Past),
        "future" => Some(Side::Future),
        _ => None,
    }
}

/// The way of a word.
fn way_named(word: &str) -> Option<Way>
    ensures { result ≡ named_way word.now }
{
    match word {
        "forth" => Some(Way::Forth),
        "back" => Some(Way::Back),
        _ => None,
    }
}

/// The form of sides.
#[derive(Drop)]
struct SideForm;

impl Form for SideForm {
    ghost use Rattle.std.specs.Prelude.{true};
    ghost use Rattle.scene_requests.specs.declared.question.Side.{Side};
    ghost use Rattle.scene_requests.specs.Questions.{side_at};

    type Item = Side;

    ghost Meant = { Side };

    ghost meant = { λ side. side };

    ghost word = { λ _. side_at };

    ghost follows = { λ _ _. true };

    fn read(&self, alloc: Global, path: &Path<'_>, value: &Part<'_, '_>) -> FileResult<Self::Item> {
        let side = value.as_str().and_then(side_named);
        field(alloc, path, side)
    }
}

/// The form of ways.
#[derive(Drop)]
struct WayForm;

impl Form for WayForm {
    ghost use Rattle.std.specs.Prelude.{true};
    ghost use Rattle.scene_requests.specs.declared.question.Way.{Way};
    ghost use Rattle.scene_requests.specs.Questions.{way_at};

    type Item = Way;

    ghost Meant = { Way };

    ghost meant = { λ way. way };

    ghost word = { λ _. way_at };

    ghost follows = { λ _ _. true };

    fn read(&self, alloc: Global, path: &Path<'_>, value: &Part<'_, '_>) -> FileResult<Self::Item> {
        let way = value.as_str().and_then(way_named);
        field(alloc, path, way)
    }
}

/// A part of a list.
#[tactic(auto, using(scene_json_forms::proofs::Walking::walking))]
fn page_of(alloc: Global, path: &Path<'_>, value: &Part<'_, '_>) -> FileResult<Page>
    ensures { Reads result (page_of (path_bytes path.now) (members_in (view value.now))) }
{
    let count = key_of(alloc, &U32Form, path, value, "count")?;
    let from = key_of(alloc, &U32Form, path, value, "from")?;
    Ok(Page { from, count })
}

/// A filter.
#[tactic(auto, using(scene_json_forms::proofs::Walking::walking))]
fn filter_of(
    alloc: Global,
    schema: &Schema,
    path: &Path<'_>,
    value: &Part<'_, '_>,
) -> FileResult<Filter>
    ensures { Reads result (filter_of schema.now (path_bytes path.now) (members_in (view value.now))) }
{
    let kinds = KindsForm { schema };
    let need = key_of(alloc, &kinds, path, value, "need")?;
    let without = key_of(alloc, &kinds, path, value, "without")?;
    Ok(Filter { need, without })
}

/// A question for a part of the rows.
#[tactic(auto, using(scene_json_forms::proofs::Walking::walking))]
fn rows_of(
    alloc: Global,
    schema: &Schema,
    path: &Path<'_>,
    value: &Part<'_, '_>,
) -> FileResult<Question>
    ensures { Reads result (rows_of schema.now (path_bytes path.now) (members_in (view value.now))) }
{
    let page = page_of(alloc, path, value)?;
    let filter = filter_of(alloc, schema, path, value)?;
    Ok(Question::Rows(filter, page))
}

/// A question for a record.
#[tactic(auto, using(scene_json_forms::proofs::Walking::walking))]
fn deltas_of(alloc: Global, path: &Path<'_>, value: &Part<'_, '_>) -> FileResult<Question>
    ensures { Reads result (deltas_of (path_bytes path.now) (members_in (view value.now))) }
{
    let side = key_of(alloc, &SideForm, path, value, "of")?;
    let place = key_of(alloc, &U32Form, path, value, "step")?;
    Ok(Question::Deltas(side, place))
}

/// A question for the cells that were changed since a cursor.
#[tactic(auto, using(scene_json_forms::proofs::Walking::walking))]
fn changed_of(
    alloc: Global,
    schema: &Schema,
    path: &Path<'_>,
    value: &Part<'_, '_>,
) -> FileResult<Question>
    ensures { Reads result (since_of ChangedSince schema.now (path_bytes path.now) (members_in (view value.now))) }
{
    let kinds = KindsForm { schema };
    let need = key_of(alloc, &kinds, path, value, "need")?;
    let rewinds = key_of(alloc, &TickForm, path, value, "rewinds")?;
    let tick = key_of(alloc, &TickForm, path, value, "tick")?;
    let without = key_of(alloc, &kinds, path, value, "without")?;
    Ok(Question::ChangedSince {
        filter: Filter { need, without },
        rewinds,
        tick,
    })
}

/// A question for those that were added.
#[tactic(auto, using(scene_json_forms::proofs::Walking::walking))]
fn added_of(
    alloc: Global,
    schema: &Schema,
    path: &Path<'_>,
    value: &Part<'_, '_>,
) -> FileResult<Question>
    ensures { Reads result (since_of AddedSince schema.now (path_bytes path.now) (members_in (view value.now))) }
{
    let kinds = KindsForm { schema };
    let need = key_of(alloc, &kinds, path, value, "need")?;
    let rewinds = key_of(alloc, &TickForm, path, value, "rewinds")?;
    let tick = key_of(alloc, &TickForm, path, value, "tick")?;
    let without = key_of(alloc, &kinds, path, value, "without")?;
    Ok(Question::AddedSince {
        filter: Filter { need, without },
        rewinds,
        tick,
    })
}

/// The question of an object of the keys of what it asks for.
#[tactic(auto, using(scene_json_forms::proofs::Walking::walking))]
pub(crate) fn question_of(
    alloc: Global,
    schema: &Schema,
    form: QuestionForm,
    path: &Path<'_>,
    value: &Part<'_, '_>,
) -> FileResult<Question>
    ensures { Reads result (question_of schema.now form (path_bytes path.now) (members_in (view value.now))) }
{
    match form {
        QuestionForm::Status => Ok(Question::Status),
        QuestionForm::Kinds => Ok(Question::Kinds),
        QuestionForm::Tables => {
            let filter = filter_of(alloc, schema, path, value)?;
            Ok(Question::Tables(filter))
        }
        QuestionForm::Rows => rows_of(alloc, schema, path, value),
        QuestionForm::Children => {
            let entity = key_of(alloc, &EntityForm, path, value, "entity")?;
            Ok(Question::Children(entity))
        }
        QuestionForm::ParentOf => {
            let entity = key_of(alloc, &EntityForm, path, value, "entity")?;
            Ok(Question::ParentOf(entity))
        }
        QuestionForm::Resources => Ok(Question::Resources),
        QuestionForm::Past => {
            let page = page_of(alloc, path, value)?;
            Ok(Question::Steps(Side::Past, page))
        }
        QuestionForm::Future => {
            let page = page_of(alloc, path, value)?;
            Ok(Question::Steps(Side::Future, page))
        }
        QuestionForm::Deltas => deltas_of(alloc, path, value),
        QuestionForm::Step => {
            let way = key_of(alloc, &WayForm, path, value, "way")?;
            Ok(Question::Step(way))
        }
        QuestionForm::ChangedSince => changed_of(alloc, schema, path, value),
        QuestionForm::AddedSince => added_of(alloc, schema, path, value),
    }
}
