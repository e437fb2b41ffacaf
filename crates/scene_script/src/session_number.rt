//! The numbers of sessions.
ghost use Rattle.std.specs.Prelude.{◌≡◌, ◌<◌};
ghost use Rattle.scene_script.specs.Script.{session_of};

use std::marker::Model;

/// The number of one of the eight sessions that a script speaks for, from 0 to 7 (docs/SCRIPTS.md, "Sessions").
#[derive(Drop, Debug)]
pub struct SessionNumber {
    number: u32,
}

impl Model for SessionNumber {
    ghost use Rattle.std.specs.Prelude.{ℕ, ◌<◌};

    ghost Value = { ℕ };

    ghost view = { λ n. n.number };

    ghost invariant = { λ n. n.number < 8 };
}

impl SessionNumber {
    /// The session whose calls are made before a script names one.
    pub fn first() -> Self
        ensures { result ≡ 0 }
    {
        SessionNumber { number: 0 }
    }

    /// The session of a number, or `None` only where it is above 7.
    pub fn new(number: u32) -> Option<Self>
        ensures { result ≡ session_of number }
    {
        if number < 8 {
            Some(SessionNumber { number })
        } else {
            None
        }
    }

    /// The session as a number.
    pub fn get(&self) -> u32
        ensures number { result ≡ self.now }
        ensures below { result < 8 }
    {
        self.number
    }
}
