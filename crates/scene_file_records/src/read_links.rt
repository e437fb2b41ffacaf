//! Links, and marks that are true or false.
ghost use Rattle.std.specs.Prelude.{[], ◌∷◌};
ghost use Rattle.scene_json.specs.View.{view, views};
ghost use Rattle.scene_json_forms.specs.Outcome.{Reads};
ghost use Rattle.scene_json_forms.specs.Paths.{path_bytes};
ghost use Rattle.scene_file_records.specs.Walk.{parent_parts};

use scene_json::{Part, Parts};
use scene_json_forms::{EntityForm, FileResult, Form, Path, U32Form, bad_field, field, list_at};
use scene_kinds::Entity;
use std::alloc::Global;

/// The form of marks: true or false.
#[derive(Drop)]
pub(crate) struct FlagForm;

impl Form for FlagForm {
    ghost use Rattle.std.specs.Prelude.{Bool, true};
    ghost use Rattle.scene_file_records.specs.Walk.{flag_at};

    type Item = bool;

    ghost Meant = { Bool };

    ghost meant = { λ flag. flag };

    ghost word = { λ _. flag_at };

    ghost follows = { λ _ _. true };

    fn read(&self, alloc: Global, path: &Path<'_>, value: &Part<'_, '_>) -> FileResult<Self::Item> {
        field(alloc, path, value.as_bool())
    }
}

/// A parent and a place in its list.
#[tactic(auto, using(scene_json_forms::proofs::Walking::walking))]
fn parent_from(
    alloc: Global,
    path: &Path<'_>,
    parent: &Part<'_, '_>,
    place: &Part<'_, '_>,
) -> FileResult<(Entity, u32)>
    ensures { Reads result (parent_parts (path_bytes path.now) (view parent.now ∷ view place.now ∷ [])) }
{
    let parent = EntityForm.read(alloc, &Path::Item(&*path, 0), parent)?;
    let place = U32Form.read(alloc, &Path::Item(&*path, 1), place)?;
    Ok((parent, place))
}

/// A parent and a place in its list, of the parts of a list.
#[tactic(auto, using(scene_json_forms::proofs::Walking::walking, crate::proofs::Parted::parted))]
fn parent_parts(alloc: Global, path: &Path<'_>, parts: Parts<'_, '_>) -> FileResult<(Entity, u32)>
    ensures { Reads result (parent_parts (path_bytes path.now) (views parts.entry)) }
{
    match parts.two() {
        Some((parent, place)) => parent_from(alloc, path, &parent, &place),
        None => Err(bad_field(alloc, path)),
    }
}

/// The form of links, or `null`.
#[derive(Drop)]
pub(crate) struct LinkForm;

impl Form for LinkForm {
    ghost use Rattle.std.specs.Prelude.{ℕ, Option, true};
    ghost use Rattle.scene_kinds.specs.declared.entity.Entity.{Entity};
    ghost use Rattle.scene_file_records.specs.Walk.{link_at};

    type Item = Option<(Entity, u32)>;

    ghost Meant = { Option (Entity × ℕ) };

    ghost meant = { λ link. link };

    ghost word = { λ _. link_at };

    ghost follows = { λ _ _. true };

    #[tactic(auto, using(scene_json_forms::proofs::Walking::walking))]
    fn read(&self, alloc: Global, path: &Path<'_>, value: &Part<'_, '_>) -> FileResult<Self::Item> {
        if value.is_null() {
            return Ok(None);
        }
        let parts = list_at(alloc, path, value)?;
        let link = parent_parts(alloc, path, parts)?;
        Ok(Some(link))
    }
}
