//! The rules of resources.
ghost use Rattle.std.specs.Prelude.{◌≡◌, ◌≤◌, All, IfOk, map as each, string_bytes, true};
ghost use Rattle.std.specs.List.{list_all};
ghost use Rattle.scene_kinds.specs.Ranges.{is_in_range};
ghost use Rattle.scene_kinds.specs.Schema.{is_good_name};
ghost use Rattle.scene_alloc.specs.Slots.{highest};
ghost use Rattle.scene_model.specs.Valid.{is_timely};
ghost use Rattle.scene_validate.specs.Parts.{AreInRange};
ghost use Rattle.scene_validate.specs.Rules.{names_are_sound, ticks_are_sound};
ghost use Rattle.scene_validate.specs.Seen.{named_seen, seen};

use crate::distinct::are_distinct;
use crate::parts::WorldParts;
use crate::row_rules::{is_timely, tables_timely};
use scene_kinds::{Cell, good_name};
use std::alloc::{AllocError, Global};

/// The names of resources.
fn names_of<'a>(alloc: Global, resources: &'a [(String, Cell)]) -> Result<Vec<&'a str>, AllocError>
    ensures { IfOk result (λ names. each (λ name. name.now) names.items ≡ each (λ r. string_bytes r.0) resources.now) }
{
    let mut names = Vec::new(alloc);
    for resource in resources {
        names.push(resource.0.as_str())?;
    }
    Ok(names)
}

fn names_good(resources: &[(String, Cell)]) -> bool
    ensures { result ≡ list_all (λ r. is_good_name (string_bytes r.0)) resources.now }
{
    resources
        .iter()
        .all(|resource| good_name(resource.0.as_str()))
}

/// Whether the names of resources are good and distinct.
pub(crate) fn names_are_sound(alloc: Global, parts: &WorldParts) -> Result<bool, AllocError>
    ensures { IfOk result (λ sound. sound ≡ names_are_sound (seen parts.now)) }
{
    let resources = parts.resources.as_slice();
    if !names_good(resources) {
        return Ok(false);
    }
    let names = names_of(alloc, resources)?;
    let distinct = are_distinct(alloc, names.as_slice())?;
    Ok(distinct)
}

fn resources_timely(tick: u64, resources: &[(String, Cell)]) -> bool
    ensures { result ≡ list_all (λ r. is_timely tick r.1) resources.now }
{
    resources
        .iter()
        .all(|resource| is_timely(tick, &resource.1))
}

/// Whether each cell of a row or a resource is timely.
pub(crate) fn ticks_are_sound(parts: &WorldParts) -> bool
    ensures { result ≡ ticks_are_sound (seen parts.now) }
{
    if !tables_timely(parts.tick, parts.tables.as_slice()) {
        return false;
    }
    resources_timely(parts.tick, parts.resources.as_slice())
}

/// Reads each value of resources: it is in the range of its type.
fn resources_in_range(resources: &[(String, Cell)])
    ensures { list_all (λ r. is_in_range r.1.value) (named_seen resources.now) ≡ true }
{
    for resource in resources {
        let _shape = resource.1.value.shape();
    }
}

/// Reads generations: each has 32 bits.
fn generations_in_range(generations: &[u32])
    ensures { All (λ g. g ≤ highest) generations.now }
{
    let _count = generations.len();
}

impl WorldParts {
    /// A law of every value: its numbers and texts are in the ranges of their types. It changes nothing, and costs a
    /// walk over the resources.
    pub fn are_in_range(&self)
        ensures { AreInRange (seen self.now) }
    {
        let _kinds = self.schema.len();
        let _tick = self.tick;
        generations_in_range(self.generations.as_slice());
        resources_in_range(self.resources.as_slice());
    }
}
