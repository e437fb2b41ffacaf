//! The whole of a scene text of version 1, and what version 2 shares with it.
ghost use Rattle.std.specs.Prelude.{[]};
ghost use Rattle.scene_json.specs.View.{view};
ghost use Rattle.scene_validate.specs.Seen.{seen};
ghost use Rattle.scene_json_forms.specs.Members.{members_in};
ghost use Rattle.scene_json_forms.specs.Outcome.{Reads, ReadsAs};
ghost use Rattle.scene_json_forms.specs.Reading.{key_of};
ghost use Rattle.scene_file.specs.Walk.{first_parts, head_of, parts_in, parts_of, tail_of, version_of};
ghost use Rattle.scene_file.specs.SeenHead.{head_seen};

use crate::read_kinds::KindsForm;
use crate::read_rows::TableForm;
use scene_json::Part;
use scene_json_forms::{
    EntityForm, FileFault, FileResult, Form, ListOf, NameForm, Ordered, Path, ResourceCellForm,
    Rising, TickForm, U32Form, bad_field, if_good, key_of, object_at, two_keys,
};
use scene_kinds::{Cell, Entity, Schema};
use scene_validate::WorldParts;
use std::alloc::Global;

/// The keys of a scene, by their bytes.
const SCENE_KEYS: [&str; 9] = [
    "children",
    "free",
    "generations",
    "kinds",
    "limit",
    "resources",
    "scene",
    "tables",
    "tick",
];

const MOST_SLOTS: u64 = 1_048_576;

/// Slot limits.
#[derive(Drop)]
pub(crate) struct LimitForm;

impl Form for LimitForm {
    ghost use Rattle.std.specs.Prelude.{ℕ, true};
    ghost use Rattle.scene_file.specs.Walk.{limit_at};

    type Item = u32;

    ghost Meant = { ℕ };

    ghost meant = { λ number. number };

    ghost word = { λ _. limit_at };

    ghost follows = { λ _ _. true };

    #[tactic(auto, using(scene_json_forms::proofs::Walking::walking))]
    fn read(&self, alloc: Global, path: &Path<'_>, value: &Part<'_, '_>) -> FileResult<Self::Item> {
        let number = TickForm.read(alloc, path, value)?;
        let limit = if_good(alloc, path, 1 <= number && number <= MOST_SLOTS, number)?;
        Ok(limit as u32)
    }
}

/// Parents with their lists.
#[derive(Drop)]
pub(crate) struct ChildrenForm;

impl Form for ChildrenForm {
    ghost use Rattle.std.specs.Prelude.{List};
    ghost use Rattle.scene_kinds.specs.declared.entity.Entity.{Entity};
    ghost use Rattle.scene_file.specs.Walk.{children_at, parent_follows};

    type Item = (Entity, Vec<Entity>);

    ghost Meant = { Entity × List Entity };

    ghost meant = { λ children. (children.0, children.1.items) };

    ghost word = { λ _. children_at };

    ghost follows = { parent_follows };

    #[tactic(auto, using(scene_json_forms::proofs::Walking::walking))]
    fn read(&self, alloc: Global, path: &Path<'_>, value: &Part<'_, '_>) -> FileResult<Self::Item> {
        let list = ListOf(EntityForm);
        let (list, parent) = two_keys(alloc, path, value, &list, "list", &EntityForm, "parent")?;
        Ok((parent, list))
    }
}

impl Ordered for ChildrenForm {
    fn follows(&self, before: &(Entity, Vec<Entity>), item: &(Entity, Vec<Entity>)) -> bool {
        before.0.index < item.0.index
    }
}

/// Resources.
#[derive(Drop)]
pub(crate) struct ResourceForm;

impl Form for ResourceForm {
    ghost use Rattle.std.specs.Prelude.{ℕ, List, string_bytes};
    ghost use Rattle.scene_kinds.specs.declared.cell.Cell.{Cell};
    ghost use Rattle.scene_file.specs.Walk.{name_follows, resource_at};

    type Item = (String, Cell);

    ghost Meant = { List ℕ × Cell };

    ghost meant = { λ resource. (string_bytes resource.0, resource.1) };

    ghost word = { λ _. resource_at };

    ghost follows = { name_follows };

    #[tactic(auto, using(scene_json_forms::proofs::Walking::walking))]
    fn read(&self, alloc: Global, path: &Path<'_>, value: &Part<'_, '_>) -> FileResult<Self::Item> {
        object_at(alloc, path, value, &["cell", "name"])?;
        let cell = key_of(alloc, &ResourceCellForm, path, value, "cell")?;
        let name = key_of(alloc, &NameForm, path, value, "name")?;
        Ok((name, cell))
    }
}

impl Ordered for ResourceForm {
    fn follows(&self, before: &(String, Cell), item: &(String, Cell)) -> bool {
        before.0 < item.0
    }
}

/// The value of a key of a scene, which must be there, read as a form.
#[tactic(auto, using(scene_json_forms::proofs::Walking::walking))]
pub(crate) fn top_key<F: Form>(
    alloc: Global,
    form: &F,
    scene: &Part<'_, '_>,
    key: &str,
) -> FileResult<F::Item>
    ensures { ReadsAs F.meant result (key_of (F.word form.now) [] key.now (members_in (view scene.now))) }
{
    key_of(alloc, form, &Path::Root, scene, key)
}

/// What the first five keys of a scene say.
#[derive(Drop)]
pub(crate) struct SceneHead {
    pub(crate) children: Vec<(Entity, Vec<Entity>)>,
    pub(crate) free: Vec<u32>,
    pub(crate) generations: Vec<u32>,
    pub(crate) schema: Schema,
    pub(crate) limit: u32,
}

/// What the first five keys of a scene say, up to its slot limit.
#[tactic(auto, using(scene_json_forms::proofs::Walking::walking))]
pub(crate) fn head_of(alloc: Global, scene: &Part<'_, '_>) -> FileResult<SceneHead>
    ensures { ReadsAs head_seen result (head_of (members_in (view scene.now))) }
{
    let children = top_key(alloc, &Rising(ChildrenForm), scene, "children")?;
    let free = top_key(alloc, &ListOf(U32Form), scene, "free")?;
    let generations = top_key(alloc, &ListOf(U32Form), scene, "generations")?;
    let schema = top_key(alloc, &KindsForm, scene, "kinds")?;
    let limit = top_key(alloc, &LimitForm, scene, "limit")?;
    Ok(SceneHead {
        children,
        free,
        generations,
        schema,
        limit,
    })
}

/// The parts that the keys of a scene say, of which the first five were read.
#[tactic(auto, using(scene_json_forms::proofs::Walking::walking))]
pub(crate) fn tail_of(
    alloc: Global,
    head: SceneHead,
    scene: &Part<'_, '_>,
) -> FileResult<WorldParts>
    ensures { ReadsAs seen result (tail_of (head_seen head) (members_in (view scene.now))) }
{
    let resources = top_key(alloc, &Rising(ResourceForm), scene, "resources")?;
    let form = Rising(TableForm {
        schema: &head.schema,
    });
    let tables = top_key(alloc, &form, scene, "tables")?;
    let tick = top_key(alloc, &TickForm, scene, "tick")?;
    Ok(WorldParts {
        schema: head.schema,
        limit: head.limit,
        tick,
        generations: head.generations,
        free: head.free,
        tables,
        children: head.children,
        resources,
    })
}

/// The parts that the keys of a scene say.
#[tactic(auto, using(scene_json_forms::proofs::Walking::walking))]
fn parts_of(alloc: Global, scene: &Part<'_, '_>) -> FileResult<WorldParts>
    ensures { ReadsAs seen result (parts_of (members_in (view scene.now))) }
{
    let head = head_of(alloc, scene)?;
    tail_of(alloc, head, scene)
}

/// The version of a text, which is an object.
#[tactic(auto, using(scene_json_forms::proofs::Walking::walking))]
pub(crate) fn version_of(alloc: Global, value: &Part<'_, '_>) -> FileResult<u64>
    ensures { Reads result (version_of (view value.now)) }
{
    let root = Path::Root;
    if !value.is_object() {
        return Err(bad_field(alloc, &root));
    }
    key_of(alloc, &TickForm, &root, value, "scene")
}

/// The parts of a text whose version is 1.
#[tactic(auto, using(scene_json_forms::proofs::Walking::walking))]
pub(crate) fn first_parts(alloc: Global, value: &Part<'_, '_>) -> FileResult<WorldParts>
    ensures { ReadsAs seen result (first_parts (view value.now)) }
{
    object_at(alloc, &Path::Root, value, &SCENE_KEYS)?;
    parts_of(alloc, value)
}

/// The parts that a scene text of version 1 says, or its first fault of form (docs/SCENE_FILES.md, "The walk").
#[tactic(auto, using(scene_json_forms::proofs::Walking::walking))]
pub(crate) fn parts_in(alloc: Global, value: &Part<'_, '_>) -> FileResult<WorldParts>
    ensures { ReadsAs seen result (parts_in (view value.now)) }
{
    let version = version_of(alloc, value)?;
    if version != 1 {
        return Err(FileFault::BadVersion(version));
    }
    first_parts(alloc, value)
}
