//! Kinds.
ghost use Rattle.std.specs.Prelude.{◌≡◌, [], ◌∷◌};
ghost use Rattle.scene_json.specs.View.{view, views};
ghost use Rattle.scene_kinds.specs.Answers.{refusal_of};
ghost use Rattle.scene_kinds.specs.Schema.{with_kind};
ghost use Rattle.scene_kinds.specs.declared.fault.Fault.TheVariants.{NoMemory};
ghost use Rattle.scene_json_forms.specs.Outcome.{Means, Reads, ReadsAs};
ghost use Rattle.scene_json_forms.specs.Paths.{path_bytes};
ghost use Rattle.scene_file.specs.Walk.{added, kind_parts, kinds_from};
ghost use Rattle.scene_json_forms.specs.declared.fault.FileFault.TheVariants.{BadField, NoMemory as NoRoom};

use scene_json::{Part, Parts};
use scene_json_forms::{
    FileFault, FileResult, Form, Path, ShapeForm, bad_field, list_at, string_at,
};
use scene_kinds::{Fault, Refusal, Schema, Shape};
use std::alloc::Global;

/// A kind's name and its shape.
#[tactic(auto, using(scene_json_forms::proofs::Walking::walking))]
fn kind_from<'a>(
    alloc: Global,
    path: &Path<'_>,
    name: &Part<'_, 'a>,
    shape: &Part<'_, '_>,
) -> FileResult<(&'a str, Shape)>
    ensures { ReadsAs (λ kind. (kind.0.now, kind.1)) result
        (kind_parts (path_bytes path.now) (view name.now ∷ view shape.now ∷ [])) }
{
    let name = string_at(alloc, &Path::Item(&*path, 0), name)?;
    let shape = ShapeForm.read(alloc, &Path::Item(&*path, 1), shape)?;
    Ok((name, shape))
}

/// A kind's name and its shape, of the parts of its list.
#[tactic(auto, using(scene_json_forms::proofs::Walking::walking, crate::proofs::Parted::parted))]
fn kind_parts<'a>(
    alloc: Global,
    path: &Path<'_>,
    parts: Parts<'_, 'a>,
) -> FileResult<(&'a str, Shape)>
    ensures { ReadsAs (λ kind. (kind.0.now, kind.1)) result (kind_parts (path_bytes path.now) (views parts.entry)) }
{
    match parts.two() {
        Some((name, shape)) => kind_from(alloc, path, &name, &shape),
        None => Err(bad_field(alloc, path)),
    }
}

/// The fault of a kind that was refused: it is a bad field, unless memory ran out.
fn refused_kind(alloc: Global, path: &Path<'_>, refusal: Refusal) -> FileFault
    ensures field { Means result (BadField (path_bytes path.now)) }
    ensures memory { refusal ≡ refusal_of NoMemory → result ≡ NoRoom }
{
    match refusal.fault {
        Fault::NoMemory => FileFault::NoMemory,
        _ => bad_field(alloc, path),
    }
}

/// Adds a kind, whose name is good and not taken, and which isn't the 65th.
#[tactic(auto, using(scene_json_forms::proofs::Walking::walking, crate::proofs::TableKinds::kinds))]
fn add_kind(
    alloc: Global,
    path: &Path<'_>,
    schema: &mut Schema,
    name: &str,
    shape: Shape,
) -> FileResult<()>
    ensures { ReadsAs (λ _. schema.new) result (added (path_bytes path.now) (with_kind schema.old name.now shape)) }
{
    let name = String::from_str(alloc, name)?;
    match schema.add(name, shape) {
        Ok(_) => Ok(()),
        Err(refusal) => Err(refused_kind(alloc, path, refusal)),
    }
}

/// Kinds, one after another.
#[tactic(auto, using(scene_json_forms::proofs::Walking::walking))]
fn kinds_from(alloc: Global, path: &Path<'_>, parts: Parts<'_, '_>) -> FileResult<Schema>
    ensures { Reads result (kinds_from (path_bytes path.now) 0 [] (views parts.entry)) }
{
    let mut parts = parts;
    let mut schema = Schema::new(alloc);
    for place in 0..parts.len() {
        let Some(part) = parts.next() else {
            break;
        };
        let at = Path::Item(&*path, place);
        let kind = kind_parts(alloc, &at, list_at(alloc, &at, &part)?)?;
        add_kind(alloc, &at, &mut schema, kind.0, kind.1)?;
    }
    Ok(schema)
}

/// Lists of kinds.
#[derive(Drop)]
pub(crate) struct KindsForm;

impl Form for KindsForm {
    ghost use Rattle.std.specs.Prelude.{true};
    ghost use Rattle.scene_kinds.specs.Schema.{Kinds};
    ghost use Rattle.scene_file.specs.Walk.{kinds_at};

    type Item = Schema;

    ghost Meant = { Kinds };

    ghost meant = { λ schema. schema };

    ghost word = { λ _. kinds_at };

    ghost follows = { λ _ _. true };

    #[tactic(auto, using(scene_json_forms::proofs::Walking::walking))]
    fn read(&self, alloc: Global, path: &Path<'_>, value: &Part<'_, '_>) -> FileResult<Self::Item> {
        let parts = list_at(alloc, path, value)?;
        kinds_from(alloc, path, parts)
    }
}
