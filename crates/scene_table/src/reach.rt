//! How far numbers are from zero, so that one test says of a whole column that its sums fit.
ghost use Rattle.std.specs.Prelude.{◌≡◌, ◌+◌, ◌*◌, ◌^◌, ◌<◌, All, IsTrue, ◌↔◌, unsigned_abs};
ghost use Rattle.scene_table.specs.Runs.{AreNear, IsBound, IsNear};

use crate::series::Series;

/// The farthest of three numbers.
fn farthest(vector: [i64; 3]) -> u64
    ensures { IsNear result vector }
{
    let [x, y, z] = vector;
    x.unsigned_abs().max(y.unsigned_abs()).max(z.unsigned_abs())
}

/// The farthest of numbers; 0 where there are none.
fn farthest_int(ints: &[i64]) -> u64
    ensures { AreNear result ints.now }
{
    let mut most = 0;
    for number in ints {
        most = most.max(number.unsigned_abs());
    }
    most
}

/// The farthest number of vectors.
fn farthest_vec(vecs: &[[i64; 3]]) -> u64
    ensures { All (IsNear result) vecs.now }
{
    let mut most = 0;
    for vector in vecs {
        most = most.max(farthest(*vector));
    }
    most
}

/// Bounds of a series: no number is farther from zero before the first turn, and none that a turn adds.
#[derive(Clone, Copy, Debug)]
pub(crate) struct Reach {
    pub(crate) before: u64,
    pub(crate) each: u64,
}

impl Reach {
    /// The bounds of a series. It costs a walk over its numbers.
    pub(crate) fn of(series: &Series) -> Reach
        ensures { IsBound result series.now }
    {
        match series {
            Series::Ints { base, by } => Reach {
                before: farthest_int(base.as_slice()),
                each: by.unsigned_abs(),
            },
            Series::Vecs { base, by } => Reach {
                before: farthest_vec(base.as_slice()),
                each: farthest_vec(by.as_slice()),
            },
        }
    }

    /// Whether no number can be outside of the 64-bit numbers with sign after so many turns, by these bounds.
    pub(crate) fn fits(&self, turns: i64) -> bool
        ensures { IsTrue result ↔ (self.now.before + self.now.each * unsigned_abs turns < 2 ^ 63) }
    {
        match self.each.checked_mul(turns.unsigned_abs()) {
            Some(way) => match self.before.checked_add(way) {
                Some(most) => most <= i64::MAX as u64,
                None => false,
            },
            None => false,
        }
    }
}
