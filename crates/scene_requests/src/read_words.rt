//! Texts, limits, sessions, targets and kinds.
ghost use Rattle.std.specs.Prelude.{◌≡◌};
ghost use Rattle.scene_script.specs.Cells.{target_in as target_of};
ghost use Rattle.scene_requests.specs.Walk.{union_of};

use scene_commands::Target;
use scene_json::Part;
use scene_json_forms::{FileResult, Form, ListOf, Path, U32Form, field, string_at};
use scene_kinds::{KindSet, Schema, Shape, Text, set_with};
use scene_script::{Limit, SessionNumber, read_target};
use std::alloc::Global;

/// The form of any text. The text read is a copy.
#[derive(Drop)]
pub(crate) struct TextForm;

impl Form for TextForm {
    ghost use Rattle.std.specs.Prelude.{ℕ, List, true};
    ghost use Rattle.scene_json_forms.specs.Reading.{string_at};

    type Item = Text;

    ghost Meant = { List ℕ };

    ghost meant = { λ text. text };

    ghost word = { λ _. string_at };

    ghost follows = { λ _ _. true };

    #[tactic(auto, using(scene_json_forms::proofs::Walking::walking))]
    fn read(&self, alloc: Global, path: &Path<'_>, value: &Part<'_, '_>) -> FileResult<Self::Item> {
        let text = string_at(alloc, path, value)?;
        let text = String::from_str(alloc, text)?;
        Ok(Text::from(text))
    }
}

/// The form of limits.
#[derive(Drop)]
pub(crate) struct LimitForm;

impl Form for LimitForm {
    ghost use Rattle.std.specs.Prelude.{ℕ, true};
    ghost use Rattle.scene_requests.specs.Walk.{limit_at};

    type Item = Limit;

    ghost Meant = { ℕ };

    ghost meant = { λ limit. limit };

    ghost word = { λ _. limit_at };

    ghost follows = { λ _ _. true };

    #[tactic(auto, using(scene_json_forms::proofs::Walking::walking))]
    fn read(&self, alloc: Global, path: &Path<'_>, value: &Part<'_, '_>) -> FileResult<Self::Item> {
        let number = U32Form.read(alloc, path, value)?;
        field(alloc, path, Limit::new(number))
    }
}

/// The form of the numbers of sessions.
#[derive(Drop)]
pub(crate) struct SessionForm;

impl Form for SessionForm {
    ghost use Rattle.std.specs.Prelude.{ℕ, true};
    ghost use Rattle.scene_requests.specs.Walk.{session_at};

    type Item = SessionNumber;

    ghost Meant = { ℕ };

    ghost meant = { λ session. session };

    ghost word = { λ _. session_at };

    ghost follows = { λ _ _. true };

    #[tactic(auto, using(scene_json_forms::proofs::Walking::walking))]
    fn read(&self, alloc: Global, path: &Path<'_>, value: &Part<'_, '_>) -> FileResult<Self::Item> {
        let number = U32Form.read(alloc, path, value)?;
        field(alloc, path, SessionNumber::new(number))
    }
}

/// The target of a text.
fn target_in(text: &str) -> Option<Target>
    ensures { result ≡ target_of text.now }
{
    read_target(text)
}

/// The form of targets: strings of the texts that they have in lines, as `"0v1"` and `"+0"`.
#[derive(Drop)]
pub(crate) struct TargetForm;

impl Form for TargetForm {
    ghost use Rattle.std.specs.Prelude.{true};
    ghost use Rattle.scene_commands.specs.declared.target.Target.{Target};
    ghost use Rattle.scene_requests.specs.Walk.{target_at};

    type Item = Target;

    ghost Meant = { Target };

    ghost meant = { λ target. target };

    ghost word = { λ _. target_at };

    ghost follows = { λ _ _. true };

    fn read(&self, alloc: Global, path: &Path<'_>, value: &Part<'_, '_>) -> FileResult<Self::Item> {
        let target = value.as_str().and_then(target_in);
        field(alloc, path, target)
    }
}

/// The form of kinds: strings of the names of those that are declared. A kind is read with its shape.
#[derive(Drop)]
pub(crate) struct KindForm<'a> {
    pub(crate) schema: &'a Schema,
}

impl Form for KindForm<'_> {
    ghost use Rattle.std.specs.Prelude.{ℕ, true};
    ghost use Rattle.scene_kinds.specs.declared.shape.Shape.{Shape};
    ghost use Rattle.scene_requests.specs.Walk.{kind_at};

    type Item = (u8, Shape);

    ghost Meant = { ℕ × Shape };

    ghost meant = { λ kind. kind };

    ghost word = { λ form. kind_at form.schema.now };

    ghost follows = { λ _ _. true };

    #[tactic(auto, using(scene_json_forms::proofs::Walking::walking))]
    fn read(&self, alloc: Global, path: &Path<'_>, value: &Part<'_, '_>) -> FileResult<Self::Item> {
        let name = string_at(alloc, path, value)?;
        let kind = field(alloc, path, self.schema.number_of(name))?;
        let shape = field(alloc, path, self.schema.shape_of(kind))?;
        Ok((kind, shape))
    }
}

/// The form of sets of one kind, by its name.
#[derive(Drop)]
struct OneKindForm<'a> {
    schema: &'a Schema,
}

impl Form for OneKindForm<'_> {
    ghost use Rattle.std.specs.Prelude.{ℕ, true};
    ghost use Rattle.scene_requests.specs.Walk.{one_kind_at};

    type Item = KindSet;

    ghost Meant = { ℕ };

    ghost meant = { λ set. set };

    ghost word = { λ form. one_kind_at form.schema.now };

    ghost follows = { λ _ _. true };

    #[tactic(auto, using(scene_json_forms::proofs::Walking::walking, crate::proofs::KindNames::kind_below))]
    fn read(&self, alloc: Global, path: &Path<'_>, value: &Part<'_, '_>) -> FileResult<Self::Item> {
        // A schema has at most 64 kinds, so each has its bit.
        let _count = self.schema.len();
        let form = KindForm {
            schema: self.schema,
        };
        let (kind, _) = form.read(alloc, path, value)?;
        Ok(set_with(0, kind))
    }
}

/// The kinds that are in any of some sets.
fn union_of(sets: &[KindSet]) -> KindSet
    ensures { result ≡ union_of sets.now }
{
    let mut union = 0;
    for set in sets {
        union = union | *set;
    }
    union
}

/// The form of sets of kinds: lists of their names.
#[derive(Drop)]
pub(crate) struct KindsForm<'a> {
    pub(crate) schema: &'a Schema,
}

impl Form for KindsForm<'_> {
    ghost use Rattle.std.specs.Prelude.{ℕ, true};
    ghost use Rattle.scene_requests.specs.Walk.{kinds_at};

    type Item = KindSet;

    ghost Meant = { ℕ };

    ghost meant = { λ set. set };

    ghost word = { λ form. kinds_at form.schema.now };

    ghost follows = { λ _ _. true };

    #[tactic(auto, using(scene_json_forms::proofs::Walking::walking, crate::proofs::SameLists::kept))]
    fn read(&self, alloc: Global, path: &Path<'_>, value: &Part<'_, '_>) -> FileResult<Self::Item> {
        let form = ListOf(OneKindForm {
            schema: self.schema,
        });
        let sets = form.read(alloc, path, value)?;
        Ok(union_of(sets.as_slice()))
    }
}
