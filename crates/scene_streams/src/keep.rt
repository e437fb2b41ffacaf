//! What keeps lines for good.
use std::alloc::Global;

/// What keeps lines for good, as a file does (docs/SHELL.md, "A store").
///
/// The meaning that contracts use: `keeps` says that these are the bytes of all lines that are kept.
pub trait Keep {
    /// Why lines weren't kept.
    type Fault: Drop;

    ghost use Rattle.std.specs.Prelude.{ℕ, List, OnOk};
    ghost use Rattle.scene_streams.specs.Keep.{Grows};

    ghost keeps: { Self → List ℕ → Type 0 };

    /// Keeps lines, each with its line break, behind those that are kept. Where it gives an error nothing says which
    /// are kept.
    fn keep(&mut self, lines: &[u8]) -> Result<(), Self::Fault>
        ensures { OnOk result (Grows keeps self.old self.new lines.now) };
}

/// The lines that were kept, as a text.
#[derive(Drop)]
pub struct KeptText {
    /// How many calls the interpreter takes that plays the lines.
    pub calls: u64,
    /// The lines, each with its line break.
    pub text: Vec<u8>,
}

/// What has kept lines, which can be read again.
///
/// The meaning that contracts use: `is_store` says that lines are kept as they have to be, whichever they are; and
/// `plays` that an interpreter plays this text which takes so many calls.
pub trait KeptLines: Keep {
    ghost use Rattle.std.specs.Prelude.{ℕ, List, IfOk, OnOk};
    ghost use Rattle.scene_streams.specs.Keep.{StaysKept};

    ghost is_store: { Self → Type 0 };

    ghost plays: { List ℕ → ℕ → Type 0 };

    /// All lines that are kept. After an error what was kept is kept.
    fn lines(&mut self, alloc: Global) -> Result<KeptText, Self::Fault>
        ensures whole { is_store self.old → IfOk result (λ found. Self.keeps self.new found.text.items) }
        ensures calls { IfOk result (λ found. plays found.text.items found.calls) }
        ensures same { OnOk result (StaysKept Self.keeps self.old self.new) };
}
