//! What a column's numbers have become after so many turns.
ghost use Rattle.std.specs.Prelude.{◌≡◌, ◌≤◌, drop, length, take};
ghost use Rattle.scene_table.specs.Grown.{values_in};
ghost use Rattle.scene_table.specs.Runs.{AreInRange};

use crate::series::{put_ints, put_vecs};
use scene_kinds::Value;

/// The numbers of a column before the first turn, or of a part of its places, and what each of so many turns adds: the
/// same number to each, or to each vector its own.
#[derive(Clone, Copy, Debug)]
pub enum Grown<'a> {
    Ints {
        base: &'a [i64],
        by: i64,
        turns: i64,
    },
    Vecs {
        base: &'a [[i64; 3]],
        by: &'a [[i64; 3]],
        turns: i64,
    },
}

impl<'a> Grown<'a> {
    /// Those before a place, and those from it on.
    pub(crate) fn split_at(self, at: usize) -> (Grown<'a>, Grown<'a>)
        requires { at ≤ length (values_in self) }
        ensures front { values_in result.0 ≡ take at (values_in self.entry) }
        ensures back { values_in result.1 ≡ drop at (values_in self.entry) }
    {
        match self {
            Grown::Ints { base, by, turns } => {
                let (front, back) = base.split_at(at);
                let front = Grown::Ints {
                    base: front,
                    by,
                    turns,
                };
                let back = Grown::Ints {
                    base: back,
                    by,
                    turns,
                };
                (front, back)
            }
            Grown::Vecs { base, by, turns } => {
                let (front, back) = base.split_at(at);
                let (front_by, back_by) = by.split_at(at);
                let front = Grown::Vecs {
                    base: front,
                    by: front_by,
                    turns,
                };
                let back = Grown::Vecs {
                    base: back,
                    by: back_by,
                    turns,
                };
                (front, back)
            }
        }
    }

    /// Writes the values that these are after the turns in place of others.
    pub fn put(self, values: &mut [Value])
        requires range { AreInRange (values_in self) }
        requires long { length (values_in self) ≡ length values.old }
        ensures { values.new ≡ values_in self.entry }
    {
        match self {
            Grown::Ints { base, by, turns } => put_ints(values, base, by, turns),
            Grown::Vecs { base, by, turns } => put_vecs(values, base, by, turns),
        }
    }
}
