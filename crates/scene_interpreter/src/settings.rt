//! The limits of an interpreter over a lone owner.
ghost use Rattle.std.specs.Prelude.{◌≡◌};

use scene_script::Limit;

/// The limits with which an interpreter over a lone owner begins (docs/SCRIPTS.md, "Setup"). The lines `depth` and
/// `calls` set them anew.
#[derive(Drop, Debug)]
pub struct InterpreterSettings {
    /// How many frames can be undone.
    pub depth: Limit,
    /// How many calls there may be; 0 is taken as 1.
    pub calls: u64,
}

impl InterpreterSettings {
    /// As many calls as a counter of 64 bits holds, and the greatest depth.
    pub fn unlimited() -> Self
        ensures depth { result.depth ≡ 1048576 }
        ensures calls { result.calls ≡ 18446744073709551615 }
    {
        InterpreterSettings {
            depth: Limit::most(),
            calls: u64::MAX,
        }
    }

    /// The limits with which the run of a script begins: 1,048,576 calls, and the greatest depth.
    pub fn of_a_run() -> Self
        ensures depth { result.depth ≡ 1048576 }
        ensures calls { result.calls ≡ 1048576 }
    {
        InterpreterSettings {
            depth: Limit::most(),
            calls: 1_048_576,
        }
    }
}
