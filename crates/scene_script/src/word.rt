//! Where a word is cut.
ghost use Rattle.std.specs.Prelude.{◌≡◌, ◌<◌, ◌==◌, IfOk, map};
ghost use Rattle.std.specs.List.{slice_split};
ghost use Rattle.scene_script.specs.Words.{without_spaces, behind_first};

use scene_kinds::cut;
use std::alloc::{AllocError, Global};

/// The parts of a word between its marks, also empty ones. A word without a mark is one part.
pub(crate) fn parts(alloc: Global, word: &str, mark: char) -> Result<Vec<&str>, AllocError>
    requires { mark < 128 }
    ensures { IfOk result (λ v. map (λ p. p.now) v.items ≡ slice_split (λ b. b == mark) word.now) }
{
    word.split(mark).collect(alloc)
}

/// A text without the spaces that it begins with.
pub(crate) fn without_spaces(text: &str) -> &str
    ensures { result.now ≡ without_spaces text.now }
{
    let mut rest = text;
    'spaces: while let Some(after) = rest.strip_prefix(' ') {
        rest = after;
    }
    rest
}

/// What stands behind the first word of a line and the spaces there, as it stands (docs/SCRIPTS.md, "Words"); nothing
/// where nothing follows. It costs a walk over the word and the spaces.
pub fn behind_first(line: &str) -> &str
    ensures { result.now ≡ behind_first line.now }
{
    match cut(without_spaces(line), ' ') {
        Some((_, rest)) => without_spaces(rest),
        None => "",
    }
}
