//! What the values of a form are read as, and the parts of which forms are made.
ghost use Rattle.std.specs.Prelude.{◌≡◌, [], IfOk, map as each};
ghost use Rattle.scene_json.specs.View.{view, views};
ghost use Rattle.scene_json_forms.specs.Outcome.{Reads, ReadsAs};
ghost use Rattle.scene_json_forms.specs.Paths.{path_bytes};
ghost use Rattle.scene_json_forms.specs.Reading.{field, if_good, list_at, each_at};

use crate::fault::FileResult;
use crate::path::{Path, bad_field};
use scene_json::{Part, Parts};
use std::alloc::{AllocError, Global};

/// For how many items room is made before the first of them is read.
const MOST_AT_ONCE: usize = 4096;

/// A form of values. Each word of a walk, as those of `specs/Walk.antt`, has one, which reads a value as the word does
/// (docs/SCENE_FILES.md, "The walk"). A form of a crate above gives its own word.
pub trait Form {
    ghost use Rattle.std.specs.Prelude.{ℕ, List, Result, Bool};
    ghost use Rattle.serde_json.specs.Data.{Data};
    ghost use Rattle.scene_json_forms.specs.declared.fault.FileFault.{FileFault};

    /// What a value is read as.
    type Item;

    // What the word says, and how it is seen in an item.
    ghost Meant: { Type 0 };

    ghost meant: { Self.Item → Meant };

    ghost word: { Self → List ℕ → Data → Result Meant FileFault };

    // Which item may stand after which in a list; each may, where the form has no order.
    ghost follows: { Meant → Meant → Bool };

    /// The item of the value at a path, or its first fault: `UnknownKey` or `BadField` with its path, or `NoMemory`.
    fn read(&self, alloc: Global, path: &Path<'_>, value: &Part<'_, '_>) -> FileResult<Self::Item>
        ensures { ReadsAs meant result (word self.now (path_bytes path.now) (view value.now)) };
}

/// What is there.
///
/// Refused: `BadField` at the path where nothing is, or `NoMemory` in its place.
#[tactic(auto, using(crate::proofs::Walking::walking))]
pub fn field<T>(alloc: Global, path: &Path<'_>, item: Option<T>) -> FileResult<T>
    ensures { Reads result (field (path_bytes path.now) item) }
{
    match item {
        Some(item) => Ok(item),
        None => Err(bad_field(alloc, path)),
    }
}

/// What was read, where it is good.
///
/// Refused: `BadField` at the path where it isn't, and then it is dropped; or `NoMemory` in its place.
#[tactic(auto, using(crate::proofs::Walking::walking))]
pub fn if_good<T: Drop>(alloc: Global, path: &Path<'_>, good: bool, item: T) -> FileResult<T>
    ensures { Reads result (if_good (path_bytes path.now) good item) }
{
    if good {
        Ok(item)
    } else {
        Err(bad_field(alloc, path))
    }
}

/// The elements of a value that is a list. It copies nothing.
///
/// Refused: `BadField` at the path where it is none, or `NoMemory` in its place.
#[tactic(auto, using(crate::proofs::Walking::walking))]
pub fn list_at<'t, 'a>(
    alloc: Global,
    path: &Path<'_>,
    value: &Part<'t, 'a>,
) -> FileResult<Parts<'t, 'a>>
    ensures { ReadsAs views result (list_at (path_bytes path.now) (view value.now)) }
{
    match value.parts() {
        Some(parts) => Ok(parts),
        None => Err(bad_field(alloc, path)),
    }
}

/// An empty list with room for as many items as there are parts, but not for all of very many: the first may have a
/// fault.
pub(crate) fn room_for<T>(alloc: Global, parts: &Parts<'_, '_>) -> Result<Vec<T>, AllocError>
    ensures { IfOk result (λ items. items.items ≡ []) }
{
    Vec::with_capacity(alloc, parts.len().min(MOST_AT_ONCE))
}

/// Each element of a list, read as a form, at its place below the path of the list.
///
/// Refused: the fault of the first element that has one, or `NoMemory`.
#[tactic(auto, using(crate::proofs::Walking::walking))]
pub fn each_at<F: Form>(
    alloc: Global,
    form: &F,
    path: &Path<'_>,
    parts: Parts<'_, '_>,
) -> FileResult<Vec<F::Item>>
where
    F::Item: Drop,
    ensures { ReadsAs (λ items. each F.meant items.items) result
        (each_at (F.word form.now) (path_bytes path.now) 0 (views parts.entry)) }
{
    let mut parts = parts;
    let mut items = room_for(alloc, &parts)?;
    'parts: while let Some(part) = parts.next() {
        let item = form.read(alloc, &Path::Item(&*path, items.len()), &part)?;
        items.push(item)?;
    }
    Ok(items)
}

/// The form of a list whose elements are of a form.
#[derive(Drop)]
pub struct ListOf<F>(pub F);

impl<F: Form> Form for ListOf<F>
where
    F::Item: Drop,
{
    ghost use Rattle.std.specs.Prelude.{List, true};
    ghost use Rattle.scene_json_forms.specs.Reading.{list_of};

    type Item = Vec<F::Item>;

    ghost Meant = { List F.Meant };

    ghost meant = { λ items. each F.meant items.items };

    ghost word = { λ list. list_of (F.word list.0) };

    ghost follows = { λ _ _. true };

    #[tactic(auto, using(crate::proofs::Walking::walking))]
    fn read(&self, alloc: Global, path: &Path<'_>, value: &Part<'_, '_>) -> FileResult<Self::Item> {
        let parts = list_at(alloc, path, value)?;
        each_at(alloc, &self.0, path, parts)
    }
}
