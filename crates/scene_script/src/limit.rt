//! The limits that a script sets.
ghost use Rattle.std.specs.Prelude.{◌≡◌, ◌≤◌};
ghost use Rattle.scene_script.specs.Script.{limit_of};

use std::marker::Model;

/// A limit of slots or of the history's calls, from 1 to 1,048,576.
#[derive(Drop, Debug)]
pub struct Limit {
    number: u32,
}

impl Model for Limit {
    ghost use Rattle.std.specs.Prelude.{ℕ, ◌≤◌};

    ghost Value = { ℕ };

    ghost view = { λ l. l.number };

    ghost invariant = { λ l. (1 ≤ l.number) × (l.number ≤ 1048576) };
}

impl Limit {
    /// The greatest limit, which holds where a script gives none.
    pub fn most() -> Self
        ensures { result ≡ 1048576 }
    {
        Limit { number: 1_048_576 }
    }

    /// The limit of a number, or `None` only where it is 0 or above 1,048,576.
    pub fn new(number: u32) -> Option<Self>
        ensures { result ≡ limit_of number }
    {
        if 0 < number && number <= 1_048_576 {
            Some(Limit { number })
        } else {
            None
        }
    }

    /// The limit as a number.
    pub fn get(&self) -> u32
        ensures number { result ≡ self.now }
        ensures least { 1 ≤ result }
        ensures most { result ≤ 1048576 }
    {
        self.number
    }
}
