//! The words of a line, read as they are asked for.
ghost use Rattle.std.specs.Prelude.{◌≡◌, ◌≤◌, ◌∷◌, [], length, MatchOption};
ghost use Rattle.scene_script.specs.Words.{words_of};

use crate::word::without_spaces;
use scene_kinds::cut;
use std::marker::Model;

/// Words that one or more spaces part (docs/SCRIPTS.md, "Words"), of which none was read yet. Spaces at the ends don't
/// count, and no other byte parts words. It takes no memory: a word is a part of the line.
#[derive(Drop)]
pub(crate) struct Words<'a> {
    line: &'a str,
}

impl<'a> Model for Words<'a> {
    ghost use Rattle.std.specs.Prelude.{ℕ, List};
    ghost use Rattle.std.specs.Coded.{coded_ℕ, coded_list};
    ghost use Rattle.scene_script.specs.Words.{words_of};

    ghost Value = { List (List ℕ) };

    ghost coded = { coded_list (coded_list coded_ℕ) };

    ghost view = { λ w. words_of w.line.now };
}

impl<'a> Words<'a> {
    /// The words of a line.
    pub(crate) fn of(line: &'a str) -> Words<'a>
        ensures { result ≡ words_of line.now }
    {
        Words { line }
    }

    /// As many as these words are at most: one more than the spaces. It costs a walk over them.
    pub(crate) fn most(&self) -> usize
        ensures { length self.now ≤ result }
    {
        self.line.bytes().filter(|byte| *byte == b' ').count() + 1
    }

    /// The first word, and those behind it; or `None` where there is none. It costs a walk over that word and the
    /// spaces before it.
    #[inline(always)]
    pub(crate) fn split_first(&self) -> Option<(&'a str, Words<'a>)>
        ensures { MatchOption result (self.now ≡ []) (λ p. self.now ≡ p.0.now ∷ p.1) }
    {
        let line = without_spaces(self.line);
        if line.is_empty() {
            return None;
        }
        match cut(line, ' ') {
            Some((word, rest)) => Some((word, Words { line: rest })),
            None => Some((line, Words { line: "" })),
        }
    }
}
