//! The lines that requests stand for.
ghost use Rattle.scene_json.specs.View.{view};
ghost use Rattle.scene_json_forms.specs.Members.{members_in};
ghost use Rattle.scene_json_forms.specs.Outcome.{Reads};
ghost use Rattle.scene_json_forms.specs.Paths.{path_bytes};
ghost use Rattle.scene_requests.specs.Walk.{kind_of, slots_of, load_of, calls_of, depth_of, get_of, system_of, as_of, line_of};

use crate::read_commands::{
    despawn_of, despawnall_of, despawnifalive_of, drop_of, insert_of, parent_of, put_of, remove_of,
    spawn_of, unparent_of,
};
use crate::read_steps::StepForm;
use crate::read_words::{KindsForm, LimitForm, SessionForm, TextForm};
use scene_json::Part;
use scene_json_forms::{EntityForm, FileResult, ListOf, Path, ShapeForm, key_of};
use scene_kinds::Schema;
use scene_script::{Line, LineForm};
use scene_systems::{Filter, Steps, SystemRule};
use std::alloc::Global;

/// A kind that is declared.
#[tactic(auto, using(scene_json_forms::proofs::Walking::walking))]
fn kind_of(alloc: Global, path: &Path<'_>, value: &Part<'_, '_>) -> FileResult<Line>
    ensures { Reads result (kind_of (path_bytes path.now) (members_in (view value.now))) }
{
    let name = key_of(alloc, &TextForm, path, value, "name")?;
    let shape = key_of(alloc, &ShapeForm, path, value, "shape")?;
    Ok(Line::Kind(name, shape))
}

/// The slot limit.
#[tactic(auto, using(scene_json_forms::proofs::Walking::walking))]
fn slots_of(alloc: Global, path: &Path<'_>, value: &Part<'_, '_>) -> FileResult<Line>
    ensures { Reads result (slots_of (path_bytes path.now) (members_in (view value.now))) }
{
    let limit = key_of(alloc, &LimitForm, path, value, "limit")?;
    Ok(Line::Slots(limit))
}

/// A scene text.
#[tactic(auto, using(scene_json_forms::proofs::Walking::walking))]
fn load_of(alloc: Global, path: &Path<'_>, value: &Part<'_, '_>) -> FileResult<Line>
    ensures { Reads result (load_of (path_bytes path.now) (members_in (view value.now))) }
{
    let text = key_of(alloc, &TextForm, path, value, "text")?;
    Ok(Line::Load(text))
}

/// The greatest number of calls.
#[tactic(auto, using(scene_json_forms::proofs::Walking::walking))]
fn calls_of(alloc: Global, path: &Path<'_>, value: &Part<'_, '_>) -> FileResult<Line>
    ensures { Reads result (calls_of (path_bytes path.now) (members_in (view value.now))) }
{
    let limit = key_of(alloc, &LimitForm, path, value, "limit")?;
    Ok(Line::Calls(limit))
}

/// How many frames can be undone.
#[tactic(auto, using(scene_json_forms::proofs::Walking::walking))]
fn depth_of(alloc: Global, path: &Path<'_>, value: &Part<'_, '_>) -> FileResult<Line>
    ensures { Reads result (depth_of (path_bytes path.now) (members_in (view value.now))) }
{
    let limit = key_of(alloc, &LimitForm, path, value, "limit")?;
    Ok(Line::Depth(limit))
}

/// A look at an entity.
#[tactic(auto, using(scene_json_forms::proofs::Walking::walking))]
fn get_of(alloc: Global, path: &Path<'_>, value: &Part<'_, '_>) -> FileResult<Line>
    ensures { Reads result (get_of (path_bytes path.now) (members_in (view value.now))) }
{
    let entity = key_of(alloc, &EntityForm, path, value, "entity")?;
    Ok(Line::Get(entity))
}

/// A system.
#[tactic(auto, using(scene_json_forms::proofs::Walking::walking, crate::proofs::SameLists::kept))]
fn system_of(
    alloc: Global,
    schema: &Schema,
    path: &Path<'_>,
    value: &Part<'_, '_>,
) -> FileResult<Line>
    ensures { Reads result (system_of schema.now (path_bytes path.now) (members_in (view value.now))) }
{
    let kinds = KindsForm { schema };
    let name = key_of(alloc, &TextForm, path, value, "name")?;
    let need = key_of(alloc, &kinds, path, value, "need")?;
    let steps = key_of(alloc, &ListOf(StepForm { schema }), path, value, "steps")?;
    let without = key_of(alloc, &kinds, path, value, "without")?;
    Ok(Line::System(SystemRule {
        name,
        filter: Filter { need, without },
        steps: Steps::from(steps),
    }))
}

/// A turn of a session.
#[tactic(auto, using(scene_json_forms::proofs::Walking::walking))]
fn as_of(alloc: Global, path: &Path<'_>, value: &Part<'_, '_>) -> FileResult<Line>
    ensures { Reads result (as_of (path_bytes path.now) (members_in (view value.now))) }
{
    let session = key_of(alloc, &SessionForm, path, value, "session")?;
    Ok(Line::As(session))
}

/// The line of an object of the keys of what it asks for.
pub(crate) fn line_of(
    alloc: Global,
    schema: &Schema,
    form: LineForm,
    path: &Path<'_>,
    value: &Part<'_, '_>,
) -> FileResult<Line>
    ensures { Reads result (line_of schema.now form (path_bytes path.now) (members_in (view value.now))) }
{
    match form {
        LineForm::Kind => kind_of(alloc, path, value),
        LineForm::Slots => slots_of(alloc, path, value),
        LineForm::Load => load_of(alloc, path, value),
        LineForm::Calls => calls_of(alloc, path, value),
        LineForm::Depth => depth_of(alloc, path, value),
        LineForm::Spawn => spawn_of(alloc, schema, path, value),
        LineForm::Insert => insert_of(alloc, schema, path, value),
        LineForm::Despawn => despawn_of(alloc, path, value),
        LineForm::Remove => remove_of(alloc, schema, path, value),
        LineForm::Parent => parent_of(alloc, path, value),
        LineForm::Unparent => unparent_of(alloc, path, value),
        LineForm::DespawnAll => despawnall_of(alloc, path, value),
        LineForm::DespawnIfAlive => despawnifalive_of(alloc, path, value),
        LineForm::Put => put_of(alloc, path, value),
        LineForm::Drop => drop_of(alloc, path, value),
        LineForm::Begin => Ok(Line::Begin),
        LineForm::Queue => Ok(Line::Queue),
        LineForm::Commit => Ok(Line::Commit),
        LineForm::Undo => Ok(Line::Undo),
        LineForm::Redo => Ok(Line::Redo),
        LineForm::Show => Ok(Line::Show),
        LineForm::Get => get_of(alloc, path, value),
        LineForm::Mark => Ok(Line::Mark),
        LineForm::Changed => Ok(Line::Changed),
        LineForm::Added => Ok(Line::Added),
        LineForm::Phase => Ok(Line::Phase),
        LineForm::System => system_of(alloc, schema, path, value),
        LineForm::Clear => Ok(Line::Clear),
        LineForm::Advance => Ok(Line::Advance),
        LineForm::Dump => Ok(Line::Dump),
        LineForm::DumpAll => Ok(Line::DumpAll),
        LineForm::As => as_of(alloc, path, value),
        LineForm::History => Ok(Line::History),
    }
}
