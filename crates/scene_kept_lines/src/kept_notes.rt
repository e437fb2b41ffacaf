//! Comments beside kept lines.
use crate::new_lines::NewLines;
use scene_streams::KeptLines;

/// What keeps lines, and comments beside them that change nothing.
pub trait KeptNotes: KeptLines {
    ghost use Rattle.std.specs.Prelude.{OnOk};
    ghost use Rattle.scene_streams.specs.Keep.{StaysKept};
    ghost use Rattle.scene_kept_lines.specs.Checkpoints.{AreNotes};

    /// The lines that were kept since it was opened. No clause says which.
    fn new_lines(&self) -> &NewLines;

    /// Keeps comments, each with its line break, behind all that is kept, where they can stand there; no clause says that
    /// they are. The lines that are kept stay, as what plays like them.
    fn note(&mut self, notes: &[u8]) -> Result<(), Self::Fault>
        requires { AreNotes notes.now }
        ensures { OnOk result (StaysKept Self.keeps self.old self.new) };
}
