//! What a shell says of the opening of a store that was long.
ghost use Rattle.std.specs.Prelude.{◌≡◌};
ghost use Rattle.scene_kept_lines.specs.Opening.{is_long};

use std::fmt;
use std::io::Write;
use std::time::{Clock, Instant};

/// From when on the opening of a store is long: at so many lines, or so many milliseconds.
#[derive(Clone, Copy, Debug)]
pub struct OpeningLimits {
    pub lines: u64,
    pub millis: u64,
}

impl OpeningLimits {
    /// Those of the program: 262,144 lines, or two seconds.
    pub fn usual() -> Self {
        OpeningLimits {
            lines: 262_144,
            millis: 2_000,
        }
    }
}

/// How a store was opened. `Display` says it on one line.
#[derive(Clone, Copy, Debug)]
pub struct Opening {
    /// How many lines were played, behind the checkpoint where it began at one.
    pub lines: u64,
    /// How many milliseconds that took, where the clock could be read.
    pub millis: Option<u64>,
}

impl Opening {
    /// The opening that began at this moment, where the clock could be read, and played so many lines.
    pub fn since<C: Clock>(clock: &C, began: Option<Instant>, lines: u64) -> Self {
        Opening {
            lines,
            millis: match began {
                Some(start) => millis_since(clock, start),
                None => None,
            },
        }
    }

    /// Whether it was long.
    pub fn is_long(&self, limits: OpeningLimits) -> bool
        ensures { result ≡ is_long self.now limits }
    {
        self.lines >= limits.lines
            || match self.millis {
                Some(millis) => millis >= limits.millis,
                None => false,
            }
    }
}

/// What a row or a record of a scene text costs to be read, in lines that are played, and in microseconds.
const PART_LINES: u64 = 4;

const PART_MICROS: u64 = 8;

impl Opening {
    /// Whether it cost more than to read the text of a scene that has so many rows and records.
    pub fn outweighs(&self, parts: u64) -> bool {
        self.lines / PART_LINES >= parts
            || match self.millis {
                Some(millis) => millis.saturating_mul(1_000 / PART_MICROS) >= parts,
                None => false,
            }
    }
}

/// How many milliseconds have gone by.
fn millis_since<C: Clock>(clock: &C, start: Instant) -> Option<u64> {
    match start.elapsed(clock) {
        Ok(elapsed) => {
            let millis = u64::from(elapsed.subsec_millis());
            Some(
                elapsed
                    .as_secs()
                    .saturating_mul(1_000)
                    .saturating_add(millis),
            )
        }
        Err(_) => None,
    }
}

impl fmt::Display for Opening {
    fn fmt<W: fmt::Write>(&self, f: &mut fmt::Formatter<W>) -> fmt::Result {
        let Opening { lines, millis } = *self;
        write!(f, "opening played {lines} lines")?;
        if let Some(millis) = millis {
            let (seconds, tenths) = (millis / 1_000, millis / 100 % 10);
            write!(f, ", which took {seconds}.{tenths} s")?;
        }
        Ok(())
    }
}

/// Says on a stream of errors that a store was opened so, which was long, and whether a checkpoint is kept behind its
/// lines. A stream that can't be written changes nothing.
pub fn tell_opening<E: Write>(errors: &mut E, opening: Opening, is_kept: bool) {
    let _told = if is_kept {
        writeln!(
            errors,
            "scene: {opening}; a checkpoint is kept, at which the next one begins"
        )
    } else {
        writeln!(
            errors,
            "scene: {opening}; scene compact FILE would put one scene text in their place, and drop the log, the history and the cursor"
        )
    };
}
