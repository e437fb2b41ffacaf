//! The first rule that parts break.
ghost use Rattle.std.specs.Prelude.{◌≡◌, true, IfOk, length, map as each};
ghost use Rattle.scene_validate.specs.Marks.{AreMarks};
ghost use Rattle.scene_validate.specs.Rules.{broken_from_4, broken_from_7, first_broken, limit_holds, rows_are_current, rows_in};
ghost use Rattle.scene_validate.specs.Seen.{seen};

use crate::link_rules::links_are_sound;
use crate::marks::{any_marked, marks_of};
use crate::parts::WorldParts;
use crate::resource_rules::{names_are_sound, ticks_are_sound};
use crate::row_rules::{row_indices, rows_are_current, tables_are_sound};
use crate::slot_rules::{all_accounted, generations_begin, limit_holds};
use std::alloc::{AllocError, Global};

/// The first broken rule from 7 on. `live` marks the indices of the rows' entities.
fn broken_from_7(alloc: Global, parts: &WorldParts, live: &[bool]) -> Result<Option<u8>, AllocError>
    requires current { rows_are_current (seen parts.now) ≡ true }
    requires live { AreMarks (length parts.now.generations.items) (each (λ r. r.entity.index) (rows_in (seen parts.now))) live.now }
    ensures { IfOk result (λ rule. rule ≡ broken_from_7 (seen parts.now)) }
{
    if !tables_are_sound(alloc, parts)? {
        return Ok(Some(7));
    }
    if !links_are_sound(alloc, parts, live)? {
        return Ok(Some(8));
    }
    if !names_are_sound(alloc, parts)? {
        return Ok(Some(9));
    }
    if !ticks_are_sound(parts) {
        return Ok(Some(10));
    }
    Ok(None)
}

/// The first broken rule from 4 on.
fn broken_from_4(alloc: Global, parts: &WorldParts) -> Result<Option<u8>, AllocError>
    requires limit { limit_holds (seen parts.now) ≡ true }
    requires current { rows_are_current (seen parts.now) ≡ true }
    ensures { IfOk result (λ rule. rule ≡ broken_from_4 (seen parts.now)) }
{
    let generations = parts.generations.as_slice();
    let found = row_indices(alloc, parts)?;
    let indices = found.as_slice();
    let Some(live) = marks_of(alloc, generations.len(), indices)? else {
        return Ok(Some(4));
    };
    let Some(free) = marks_of(alloc, generations.len(), parts.free.as_slice())? else {
        return Ok(Some(5));
    };
    if any_marked(free.as_slice(), indices) {
        return Ok(Some(5));
    }
    if !all_accounted(generations, live.as_slice(), free.as_slice()) {
        return Ok(Some(6));
    }
    let later = broken_from_7(alloc, parts, live.as_slice())?;
    Ok(later)
}

impl WorldParts {
    /// The number of the first rule that these parts break, 1 to 10, or `None` where they are those of a valid world
    /// (docs/MODEL.md, "A valid world"); or an error where no memory was found.
    ///
    /// It costs the slots and a few walks over the parts, and for the kind sets of tables and the names of resources
    /// their number times its logarithm.
    pub fn first_broken(&self, alloc: Global) -> Result<Option<u8>, AllocError>
        ensures { IfOk result (λ rule. rule ≡ first_broken (seen self.now)) }
    {
        if !limit_holds(self) {
            return Ok(Some(1));
        }
        if !generations_begin(self) {
            return Ok(Some(2));
        }
        if !rows_are_current(self) {
            return Ok(Some(3));
        }
        broken_from_4(alloc, self)
    }
}
