//! Why kept lines weren't played, and why none were put in their place.
ghost use Rattle.std.specs.Prelude.{◌≡◌};
ghost use Rattle.scene_kept_lines.specs.Replayed.{fault_behind};

use scene_interpreter::Halt;
use scene_shell::BadShellLine;
use thiserror::Error;

/// Why kept lines weren't played to their end (docs/MODEL.md, "Faults"). A number is that of the line that stopped it,
/// from 1.
#[derive(Debug, Drop, Error)]
pub enum KeptLineFault {
    /// A line is bad, which none was when it was kept.
    #[error("fault 67 StoredLineBad {0}: {1}")]
    Bad(u64, BadShellLine),
    /// No memory was found for a line.
    #[error("fault 20 NoMemory {0}: {1}")]
    Halted(u64, Halt),
    /// No memory was found for what the lines have come to.
    #[error("fault 20 NoMemory")]
    NoMemory,
    /// What was to be written couldn't be.
    #[error("fault 55 WriteFault")]
    Unwritten,
}

impl KeptLineFault {
    /// The same of lines behind so many others.
    pub(crate) fn behind(self, skipped: u64) -> KeptLineFault
        ensures { result ≡ fault_behind skipped self }
    {
        match self {
            KeptLineFault::Bad(number, reason) => KeptLineFault::Bad(
                number.saturating_add(skipped),
                reason,
            ),
            KeptLineFault::Halted(number, halt) => KeptLineFault::Halted(
                number.saturating_add(skipped),
                halt,
            ),
            fault => fault,
        }
    }
}

/// Why no scene text was put in the place of kept lines. `Display` says it in words, on one line.
#[derive(Debug, Drop, Error)]
pub enum CompactFault {
    /// The lines can't be played.
    #[error("{0}; nothing was compacted")]
    Lines(KeptLineFault),
    /// No memory was found for the text of the scene, or for playing it.
    #[error("fault 20 NoMemory: none was found for the text of the scene; nothing was compacted")]
    NoMemory,
    /// The text of the scene would be longer than a load reads.
    #[error("fault 56 TooLong: the text of the scene would have more than 67108864 bytes, which no load reads; nothing was compacted")]
    TooLong,
    /// The lines in their place would be longer than they may be, so many bytes.
    #[error("the text of the scene and the systems would have more than {0} bytes; nothing was compacted")]
    OverMost(usize),
    /// A frame is open behind the lines, as behind those of no shell.
    #[error("a frame is open behind the lines; nothing was compacted")]
    FrameOpen,
    /// What the text of the scene leads to isn't what the lines lead to.
    #[error("the text of the scene doesn't lead to what the lines do; nothing was compacted")]
    Differs,
}

impl From<KeptLineFault> for CompactFault {
    ghost use Rattle.std.specs.Prelude.{◌≡◌};
    ghost use Rattle.scene_kept_lines.specs.declared.line_fault.CompactFault.TheVariants.{Lines};

    ghost from_gives = { λ fault made. made ≡ Lines fault };

    fn from(fault: KeptLineFault) -> CompactFault {
        CompactFault::Lines(fault)
    }
}
