//! A usual scene text, read from its tokens, key by key. Of the values of its keys the long ones are taken as they come;
//! each other one is read into a document of its own, which is given back before the next key.
ghost use Rattle.std.specs.Prelude.{◌≡◌, IfSome, Ok};
ghost use Rattle.scene_file.specs.EditorScene.{said_in};
ghost use Rattle.scene_file.specs.SeenEditor.{saved_seen};
ghost use Rattle.scene_file.specs.SeenHead.{head_seen};
ghost use Rattle.scene_file.specs.Taken.{IsFirst, IsHead, IsMember, IsScene, IsSecond, IsTail, IsValueOf};
ghost use Rattle.scene_validate.specs.Seen.{seen};

use crate::read_editor::SavedParts;
use crate::read_kinds::KindsForm;
use crate::read_rows::TableForm;
use crate::read_scene::{ChildrenForm, LimitForm, ResourceForm, SceneHead};
use json::{Reader, Scratch};
use scene_file_records::RecordsForm;
use scene_json::Document;
use scene_json_forms::{Form, Path, Rising, TickForm, U32Form};
use scene_json_tokens::{take_key, take_list_of, take_object, take_object_end, take_rising};
use scene_validate::WorldParts;
use std::alloc::Global;

/// How many levels may be open in the value of a key.
const VALUE_LEVELS: usize = 126;

/// Takes the value of a key, by a document of its own.
fn take_value<F: Form>(
    alloc: Global,
    form: &F,
    key: &str,
    reader: &mut Reader<'_>,
) -> Option<F::Item>
    ensures { IfSome result (λ item. IsValueOf (F.word form.now) key.now reader.old reader.new (F.meant item)) }
{
    let Ok(document) = Document::read_next(alloc, reader, VALUE_LEVELS) else {
        return None;
    };
    let Ok(item) = form.read(alloc, &Path::Key(&Path::Root, &*key), &document.root()) else {
        return None;
    };
    Some(item)
}

/// Takes a key and its value.
fn take_member<F: Form>(
    alloc: Global,
    form: &F,
    key: &str,
    reader: &mut Reader<'_>,
) -> Option<F::Item>
    ensures { IfSome result (λ item. IsMember (F.word form.now) key.now reader.old reader.new (F.meant item)) }
{
    take_key(reader, key)?;
    take_value(alloc, form, key, reader)
}

/// Takes the first five keys of a scene.
fn take_head(alloc: Global, reader: &mut Reader<'_>) -> Option<SceneHead>
    ensures { IfSome result (λ head. IsHead reader.old reader.new (head_seen head)) }
{
    take_key(reader, "children")?;
    let children = take_rising(alloc, &ChildrenForm, reader)?;
    take_key(reader, "free")?;
    let free = take_list_of(alloc, &U32Form, reader)?;
    take_key(reader, "generations")?;
    let generations = take_list_of(alloc, &U32Form, reader)?;
    let schema = take_member(alloc, &KindsForm, "kinds", reader)?;
    let limit = take_member(alloc, &LimitForm, "limit", reader)?;
    Some(SceneHead {
        children,
        free,
        generations,
        schema,
        limit,
    })
}

/// Takes the value of the resources, and the keys behind them to the tick.
fn take_tail(
    alloc: Global,
    head: SceneHead,
    version: u64,
    reader: &mut Reader<'_>,
) -> Option<WorldParts>
    ensures { IfSome result (λ parts. IsTail (head_seen head) version reader.old reader.new (seen parts)) }
{
    let resources = take_value(alloc, &Rising(ResourceForm), "resources", reader)?;
    if take_member(alloc, &TickForm, "scene", reader)? != version {
        return None;
    }
    take_key(reader, "tables")?;
    let form = TableForm {
        schema: &head.schema,
    };
    let tables = take_rising(alloc, &form, reader)?;
    let tick = take_member(alloc, &TickForm, "tick", reader)?;
    Some(WorldParts {
        schema: head.schema,
        limit: head.limit,
        tick,
        generations: head.generations,
        free: head.free,
        tables,
        children: head.children,
        resources,
    })
}

/// Takes the rest of a scene of version 1, behind the key of its resources.
fn take_first(alloc: Global, head: SceneHead, reader: &mut Reader<'_>) -> Option<SavedParts>
    ensures { IfSome result (λ saved. IsFirst (head_seen head) reader.old reader.new (saved_seen saved)) }
{
    let parts = take_tail(alloc, head, 1, reader)?;
    take_object_end(reader)?;
    Some(SavedParts {
        parts,
        past: Vec::new(alloc),
        future: Vec::new(alloc),
    })
}

/// Takes the rest of a scene of version 2, behind the key of its records to redo.
fn take_second(alloc: Global, head: SceneHead, reader: &mut Reader<'_>) -> Option<SavedParts>
    ensures { IfSome result (λ saved. IsSecond (head_seen head) reader.old reader.new (saved_seen saved)) }
{
    let form = RecordsForm {
        schema: &head.schema,
    };
    let future = take_value(alloc, &form, "redo", reader)?;
    take_key(reader, "resources")?;
    let parts = take_tail(alloc, head, 2, reader)?;
    let form = RecordsForm {
        schema: &parts.schema,
    };
    let past = take_member(alloc, &form, "undo", reader)?;
    take_object_end(reader)?;
    Some(SavedParts {
        parts,
        past,
        future,
    })
}

/// Takes a scene of either version.
fn take_scene(alloc: Global, reader: &mut Reader<'_>) -> Option<SavedParts>
    ensures { IfSome result (λ saved. IsScene reader.old reader.new (saved_seen saved)) }
{
    take_object(reader)?;
    let head = take_head(alloc, reader)?;
    let Ok(Some(key)) = reader.next_key() else {
        return None;
    };
    match key {
        "resources" => take_first(alloc, head, reader),
        "redo" => take_second(alloc, head, reader),
        _ => None,
    }
}

/// What a usual text of either version says: one with just its keys, in byte order, and with no fault of form. `None`
/// says nothing of the text; it may be want of memory too.
pub(crate) fn usual_saved(alloc: Global, text: &[u8]) -> Option<SavedParts>
    ensures { IfSome result (λ saved. said_in text.now ≡ Ok (saved_seen saved)) }
{
    let Ok(text) = str::from_utf8(text) else {
        return None;
    };
    let mut scratch = Scratch::new(alloc);
    let Ok(mut reader) = Reader::new(text, &mut scratch) else {
        return None;
    };
    let saved = take_scene(alloc, &mut reader)?;
    if reader.next().is_some() {
        return None;
    }
    Some(saved)
}
