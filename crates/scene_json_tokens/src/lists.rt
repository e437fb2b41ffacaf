//! Lists of values of one form.
ghost use Rattle.std.specs.Prelude.{◌≡◌, ◌+◌, ◌-◌, IfSome, length, map as each, slice_get};
ghost use Rattle.scene_json_forms.specs.Reading.{list_of, may_follow, rising_of};
ghost use Rattle.scene_json_tokens.specs.Taken.{IsTaken};

use crate::punctuation::take_list;
use crate::taken::{Taken, TakenInOrder};
use json::Reader;
use scene_json_forms::Form;
use std::alloc::Global;

/// Takes a list whose elements are all of a form. `None` says nothing of the text; some tokens were taken then.
///
/// It costs the taking of the elements.
pub fn take_list_of<F: Taken>(
    alloc: Global,
    form: &F,
    reader: &mut Reader<'_>,
) -> Option<Vec<F::Item>>
where
    F::Item: Drop,
    ensures { IfSome result (λ items. IsTaken (list_of (F.word form.now)) (F.levels + 1) reader.old reader.new (each F.meant items.items)) }
{
    take_list(reader)?;
    let mut items = Vec::new(alloc);
    'items: while !reader.take_end_array() {
        let item = form.take(alloc, reader)?;
        items.push(item).ok()?;
    }
    Some(items)
}

/// Whether an item may stand after those before it.
fn may_follow<F: TakenInOrder>(form: &F, before: &[F::Item], item: &F::Item) -> bool
    ensures { result ≡ may_follow F.follows (slice_get (each F.meant before.now) (length before.now - 1)) (F.meant item.now) }
{
    match before.last() {
        Some(last) => form.stands_after(last, item),
        None => true,
    }
}

/// Takes a list whose elements are all of a form, each of which may stand after the one before it. `None` says nothing
/// of the text; some tokens were taken then.
///
/// It costs the taking of the elements.
pub fn take_rising<F: TakenInOrder>(
    alloc: Global,
    form: &F,
    reader: &mut Reader<'_>,
) -> Option<Vec<F::Item>>
where
    F::Item: Drop,
    ensures { IfSome result (λ items. IsTaken (rising_of (F.word form.now) F.follows) (F.levels + 1) reader.old reader.new (each F.meant items.items)) }
{
    take_list(reader)?;
    let mut items = Vec::new(alloc);
    'items: while !reader.take_end_array() {
        let item = form.take(alloc, reader)?;
        if !may_follow(form, items.as_slice(), &item) {
            return None;
        }
        items.push(item).ok()?;
    }
    Some(items)
}
