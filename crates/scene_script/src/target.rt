//! Targets of commands as words.
ghost use Rattle.std.specs.Prelude.{◌≡◌, Err};
ghost use Rattle.scene_script.specs.declared.bad_line.BadLine.TheVariants as bad;
ghost use Rattle.scene_script.specs.Cells.{target_in, target_said};
ghost use Rattle.scene_script.specs.Reading.{Reads};

use crate::bad_line::{BadLine, LineError, text_of};
use scene_commands::Target;
use scene_kinds::{read_count, read_entity};
use std::alloc::Global;

/// The target that a word is (docs/SCRIPTS.md, "Words"): an entity text, or `+K` for the K-th entity, from 0, that the
/// same queue has spawned. `None` only where it is neither an entity text nor `+` with a number of 32 bits.
#[inline(always)]
pub fn read_target(word: &str) -> Option<Target>
    ensures { result ≡ target_in word.now }
{
    match word.strip_prefix('+') {
        Some(digits) => read_count(digits).map(Target::New),
        None => read_entity(word).map(Target::Id),
    }
}

/// The mistake of a word that is no target.
#[cold]
#[inline(never)]
fn no_target(alloc: Global, word: &str) -> Result<Target, LineError>
    ensures { Reads result (Err (bad.NoTarget word.now)) }
{
    Err(LineError::Bad(BadLine::NoTarget(text_of(alloc, word)?)))
}

/// The target that a word is.
#[inline(always)]
pub(crate) fn target_word(alloc: Global, word: &str) -> Result<Target, LineError>
    ensures { Reads result (target_said word.now) }
{
    match read_target(word) {
        Some(target) => Ok(target),
        None => no_target(alloc, word),
    }
}
