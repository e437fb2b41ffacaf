//! The whole of a scene text of version 1 or 2, with records.
ghost use Rattle.scene_json.specs.View.{view};
ghost use Rattle.scene_json_forms.specs.Members.{members_in};
ghost use Rattle.scene_json_forms.specs.Outcome.{ReadsAs};
ghost use Rattle.scene_file.specs.EditorWalk.{first_saved, saved_by, saved_in, saved_of, second_saved};
ghost use Rattle.scene_file.specs.SeenEditor.{saved_seen};

use crate::read_scene::{first_parts, head_of, tail_of, top_key, version_of};
use scene_file_records::RecordsForm;
use scene_journal::FrameRecord;
use scene_json::Part;
use scene_json_forms::{FileFault, FileResult, Path, object_at};
use scene_validate::WorldParts;
use std::alloc::Global;

/// The keys of a scene with records, by their bytes.
const EDITOR_KEYS: [&str; 11] = [
    "children",
    "free",
    "generations",
    "kinds",
    "limit",
    "redo",
    "resources",
    "scene",
    "tables",
    "tick",
    "undo",
];

/// The parts of a world, the records of its past, the oldest first, and those of its future, the next one first.
#[derive(Drop)]
pub(crate) struct SavedParts {
    pub(crate) parts: WorldParts,
    pub(crate) past: Vec<FrameRecord>,
    pub(crate) future: Vec<FrameRecord>,
}

/// The parts and the records that the keys of a scene say.
#[tactic(auto, using(scene_json_forms::proofs::Walking::walking))]
fn saved_of(alloc: Global, scene: &Part<'_, '_>) -> FileResult<SavedParts>
    ensures { ReadsAs saved_seen result (saved_of (members_in (view scene.now))) }
{
    let head = head_of(alloc, scene)?;
    let form = RecordsForm {
        schema: &head.schema,
    };
    let future = top_key(alloc, &form, scene, "redo")?;
    let parts = tail_of(alloc, head, scene)?;
    let form = RecordsForm {
        schema: &parts.schema,
    };
    let past = top_key(alloc, &form, scene, "undo")?;
    Ok(SavedParts {
        parts,
        past,
        future,
    })
}

/// What a text of version 1 says, in which no records stand.
#[tactic(auto, using(scene_json_forms::proofs::Walking::walking))]
fn first_saved(alloc: Global, value: &Part<'_, '_>) -> FileResult<SavedParts>
    ensures { ReadsAs saved_seen result (first_saved (view value.now)) }
{
    let parts = first_parts(alloc, value)?;
    Ok(SavedParts {
        parts,
        past: Vec::new(alloc),
        future: Vec::new(alloc),
    })
}

/// What a text of version 2 says.
#[tactic(auto, using(scene_json_forms::proofs::Walking::walking))]
fn second_saved(alloc: Global, value: &Part<'_, '_>) -> FileResult<SavedParts>
    ensures { ReadsAs saved_seen result (second_saved (view value.now)) }
{
    object_at(alloc, &Path::Root, value, &EDITOR_KEYS)?;
    saved_of(alloc, value)
}

/// What a text of a version says.
fn saved_by(alloc: Global, version: u64, value: &Part<'_, '_>) -> FileResult<SavedParts>
    ensures { ReadsAs saved_seen result (saved_by version (view value.now)) }
{
    match version {
        1 => first_saved(alloc, value),
        2 => second_saved(alloc, value),
        _ => Err(FileFault::BadVersion(version)),
    }
}

/// The parts and the records that a scene text of version 1 or 2 says, or its first fault of form
/// (docs/SCENE_FILES.md, "The walk").
#[tactic(auto, using(scene_json_forms::proofs::Walking::walking))]
pub(crate) fn saved_in(alloc: Global, value: &Part<'_, '_>) -> FileResult<SavedParts>
    ensures { ReadsAs saved_seen result (saved_in (view value.now)) }
{
    let version = version_of(alloc, value)?;
    saved_by(alloc, version, value)
}
