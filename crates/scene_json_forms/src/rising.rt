//! Lists whose elements follow one another in an order.
ghost use Rattle.std.specs.Prelude.{◌≡◌, ◌-◌, None, length, slice_get, map as each};
ghost use Rattle.scene_json.specs.View.{views};
ghost use Rattle.scene_json_forms.specs.Outcome.{ReadsAs};
ghost use Rattle.scene_json_forms.specs.Paths.{path_bytes};
ghost use Rattle.scene_json_forms.specs.Reading.{may_follow, rising_at};

use crate::fault::FileResult;
use crate::form::{Form, list_at, room_for};
use crate::path::{Path, bad_field};
use scene_json::{Part, Parts};
use std::alloc::Global;

/// A form whose values may stand in lists in an order, as in a `Rising`.
pub trait Ordered: Form {
    /// Whether an item may stand after another.
    fn follows(&self, before: &Self::Item, item: &Self::Item) -> bool
        ensures { result ≡ Self.follows (Self.meant before.now) (Self.meant item.now) };
}

/// Whether an item may stand after those before it.
#[tactic(auto, using(crate::proofs::Lists::lists))]
fn may_follow<F: Ordered>(form: &F, before: &[F::Item], item: &F::Item) -> bool
    ensures { result ≡ may_follow F.follows (slice_get (each F.meant before.now) (length before.now - 1)) (F.meant item.now) }
{
    match before.last() {
        Some(last) => form.follows(last, item),
        None => true,
    }
}

/// Each element of a list, read as a form; one that may not follow the one before it is a bad field, after its own
/// parts.
#[tactic(auto, using(crate::proofs::Walking::walking))]
fn rising_at<F: Ordered>(
    alloc: Global,
    form: &F,
    path: &Path<'_>,
    parts: Parts<'_, '_>,
) -> FileResult<Vec<F::Item>>
where
    F::Item: Drop,
    ensures { ReadsAs (λ items. each F.meant items.items) result
        (rising_at (F.word form.now) F.follows (path_bytes path.now) 0 None (views parts.entry)) }
{
    let mut parts = parts;
    let mut items = room_for(alloc, &parts)?;
    'parts: while let Some(part) = parts.next() {
        let at = Path::Item(&*path, items.len());
        let item = form.read(alloc, &at, &part)?;
        if !may_follow(form, items.as_slice(), &item) {
            return Err(bad_field(alloc, &at));
        }
        items.push(item)?;
    }
    Ok(items)
}

/// The form of a list whose elements are of a form, each of which may stand after the one before it.
#[derive(Drop)]
pub struct Rising<F>(pub F);

impl<F: Ordered> Form for Rising<F>
where
    F::Item: Drop,
{
    ghost use Rattle.std.specs.Prelude.{List, true};
    ghost use Rattle.scene_json_forms.specs.Reading.{rising_of};

    type Item = Vec<F::Item>;

    ghost Meant = { List F.Meant };

    ghost meant = { λ items. each F.meant items.items };

    ghost word = { λ list. rising_of (F.word list.0) F.follows };

    ghost follows = { λ _ _. true };

    #[tactic(auto, using(crate::proofs::Walking::walking))]
    fn read(&self, alloc: Global, path: &Path<'_>, value: &Part<'_, '_>) -> FileResult<Self::Item> {
        let parts = list_at(alloc, path, value)?;
        rising_at(alloc, &self.0, path, parts)
    }
}
