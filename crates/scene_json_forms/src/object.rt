//! Objects and their members.
ghost use Rattle.std.specs.Prelude.{◌≢◌, map as each};
ghost use Rattle.scene_json.specs.View.{view};
ghost use Rattle.scene_json_forms.specs.Members.{members_in};
ghost use Rattle.scene_json_forms.specs.Outcome.{ReadsAs};
ghost use Rattle.scene_json_forms.specs.Paths.{path_bytes};
ghost use Rattle.scene_json_forms.specs.Reading.{key_of, object_at, two_keys};

use crate::fault::FileResult;
use crate::form::Form;
use crate::path::{Path, bad_field, unknown_key};
use scene_json::Part;
use std::alloc::Global;

/// Sees that a value is an object of just these keys, of which none need be there (docs/SCENE_FILES.md, "The walk"). It
/// costs the number of its keys times that of the keys known.
///
/// Refused: `BadField` at the path where it is no object; `UnknownKey` for the first key, by bytes, that is none of
/// them, with the path that ends in it; or `NoMemory` in place of either.
#[tactic(auto, using(crate::proofs::Walking::walking))]
pub fn object_at(
    alloc: Global,
    path: &Path<'_>,
    value: &Part<'_, '_>,
    known: &[&str],
) -> FileResult<()>
    ensures { ReadsAs (λ _. members_in (view value.now)) result
        (object_at (each (λ k. k.now) known.now) (path_bytes path.now) (view value.now)) }
{
    if !value.is_object() {
        return Err(bad_field(alloc, path));
    }
    match value.first_unknown(known) {
        Some(key) => Err(unknown_key(alloc, &Path::Key(&*path, key))),
        None => Ok(()),
    }
}

/// The value of a key of an object, which must be there, read as a form. It costs a walk over the keys of the object,
/// and the reading.
///
/// Refused: `BadField` at the path of the key where it is missing; the first fault of its value; or `NoMemory`.
#[tactic(auto, using(crate::proofs::Walking::walking))]
pub fn key_of<F: Form>(
    alloc: Global,
    form: &F,
    path: &Path<'_>,
    object: &Part<'_, '_>,
    key: &str,
) -> FileResult<F::Item>
    ensures { ReadsAs F.meant result
        (key_of (F.word form.now) (path_bytes path.now) key.now (members_in (view object.now))) }
{
    let at = Path::Key(&*path, &*key);
    match object.get(key) {
        Some(value) => form.read(alloc, &at, &value),
        None => Err(bad_field(alloc, &at)),
    }
}

/// What two keys of an object say, whatever their order.
#[tactic(auto, using(crate::proofs::Walking::walking))]
fn keys_in_any_order<F: Form, G: Form>(
    alloc: Global,
    path: &Path<'_>,
    object: &Part<'_, '_>,
    first: &F,
    key: &str,
    second: &G,
    other: &str,
) -> FileResult<(F::Item, G::Item)>
where
    F::Item: Drop,
    ensures { ReadsAs (λ both. (F.meant both.0, G.meant both.1)) result
        (two_keys (F.word first.now) key.now (G.word second.now) other.now (path_bytes path.now) (view object.now)) }
{
    object_at(alloc, path, object, &[key, other])?;
    let a = key_of(alloc, first, path, object, key)?;
    let b = key_of(alloc, second, path, object, other)?;
    Ok((a, b))
}

/// What the two keys say that an object has, each value read as a form. Where they stand in this order, as in a saved text,
/// it costs a look at them, and the reading; else a walk over the keys for each of them besides.
///
/// Refused, in this order: as by `object_at` of the two keys, as by `key_of` of the first, as by `key_of` of the other.
#[tactic(auto, using(crate::proofs::Walking::walking))]
pub fn two_keys<F: Form, G: Form>(
    alloc: Global,
    path: &Path<'_>,
    object: &Part<'_, '_>,
    first: &F,
    key: &str,
    second: &G,
    other: &str,
) -> FileResult<(F::Item, G::Item)>
where
    F::Item: Drop,
    requires { key.now ≢ other.now }
    ensures { ReadsAs (λ both. (F.meant both.0, G.meant both.1)) result
        (two_keys (F.word first.now) key.now (G.word second.now) other.now (path_bytes path.now) (view object.now)) }
{
    let Some((value, last)) = object.pair(key, other) else {
        return keys_in_any_order(alloc, path, object, first, key, second, other);
    };
    let a = first.read(alloc, &Path::Key(&*path, &*key), &value)?;
    let b = second.read(alloc, &Path::Key(&*path, &*other), &last)?;
    Ok((a, b))
}
