//! Numbers.
ghost use Rattle.std.specs.Prelude.{◌<◌, IfOk};
ghost use Rattle.scene_json.specs.View.{view};
ghost use Rattle.scene_json_forms.specs.Outcome.{Reads};
ghost use Rattle.scene_json_forms.specs.Paths.{path_bytes};
ghost use Rattle.scene_json_forms.specs.Reading.{below};

use crate::fault::FileResult;
use crate::form::{Form, field, if_good};
use crate::path::Path;
use crate::rising::Ordered;
use scene_json::Part;
use std::alloc::Global;

/// A whole number below a bound.
///
/// Refused: `BadField` at the path where it is none, or `NoMemory` in its place.
#[tactic(auto, using(crate::proofs::Walking::walking))]
pub fn below(alloc: Global, path: &Path<'_>, value: &Part<'_, '_>, bound: u64) -> FileResult<u64>
    ensures read { Reads result (below bound (path_bytes path.now) (view value.now)) }
    ensures small { IfOk result (λ number. number < bound) }
{
    let number = field(alloc, path, value.as_u64())?;
    if_good(alloc, path, number < bound, number)
}

/// The form of whole numbers of 32 bits without a sign, as generations and places are.
#[derive(Drop)]
pub struct U32Form;

impl Form for U32Form {
    ghost use Rattle.std.specs.Prelude.{ℕ, true};
    ghost use Rattle.scene_json_forms.specs.Walk.{u32_at};

    type Item = u32;

    ghost Meant = { ℕ };

    ghost meant = { λ number. number };

    ghost word = { λ _. u32_at };

    ghost follows = { λ _ _. true };

    #[tactic(auto, using(crate::proofs::Walking::walking))]
    fn read(&self, alloc: Global, path: &Path<'_>, value: &Part<'_, '_>) -> FileResult<Self::Item> {
        let number = below(alloc, path, value, 1 << 32)?;
        Ok(number as u32)
    }
}

/// The form of ticks: whole numbers of 64 bits without a sign.
#[derive(Drop)]
pub struct TickForm;

impl Form for TickForm {
    ghost use Rattle.std.specs.Prelude.{ℕ, true};
    ghost use Rattle.scene_json_forms.specs.Walk.{tick_at};

    type Item = u64;

    ghost Meant = { ℕ };

    ghost meant = { λ number. number };

    ghost word = { λ _. tick_at };

    ghost follows = { λ _ _. true };

    fn read(&self, alloc: Global, path: &Path<'_>, value: &Part<'_, '_>) -> FileResult<Self::Item> {
        field(alloc, path, value.as_u64())
    }
}

/// The form of whole numbers of 64 bits with a sign.
#[derive(Drop)]
pub struct IntForm;

impl Form for IntForm {
    ghost use Rattle.std.specs.Prelude.{ℤ, true};
    ghost use Rattle.scene_json_forms.specs.Walk.{int_at};

    type Item = i64;

    ghost Meant = { ℤ };

    ghost meant = { λ number. number };

    ghost word = { λ _. int_at };

    ghost follows = { λ _ _. true };

    fn read(&self, alloc: Global, path: &Path<'_>, value: &Part<'_, '_>) -> FileResult<Self::Item> {
        field(alloc, path, value.as_i64())
    }
}

/// The form of the number of a kind, of so many kinds that there are. In a list they ascend strictly.
#[derive(Drop)]
pub struct KindNumberForm {
    /// How many kinds there are.
    pub count: u8,
}

impl Form for KindNumberForm {
    ghost use Rattle.std.specs.Prelude.{ℕ, nat_lt};

    type Item = u8;

    ghost Meant = { ℕ };

    ghost meant = { λ number. number };

    ghost word = { λ form. below form.count };

    ghost follows = { nat_lt };

    #[tactic(auto, using(crate::proofs::Walking::walking))]
    fn read(&self, alloc: Global, path: &Path<'_>, value: &Part<'_, '_>) -> FileResult<Self::Item> {
        let number = below(alloc, path, value, u64::from(self.count))?;
        Ok(number as u8)
    }
}

impl Ordered for KindNumberForm {
    fn follows(&self, before: &u8, item: &u8) -> bool {
        before < item
    }
}
