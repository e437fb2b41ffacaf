//! The printed ticks of a cell, which mostly are those of the cell before.
ghost use Rattle.std.specs.Prelude.{◌≡◌, OnOk, Some};
ghost use Rattle.scene_json.specs.Texts.{Adds};
ghost use Rattle.scene_print.specs.Printed.{ticks_text};

use scene_json::write_count;
use std::alloc::{AllocError, Global};
use std::marker::Model;

/// Adds the ticks at which a cell was added and last changed: `@ADDED/CHANGED`.
pub(crate) fn write_ticks(out: &mut String, added: u64, changed: u64) -> Result<(), AllocError>
    ensures { OnOk result (Adds out.old out.new (ticks_text added changed)) }
{
    out.push_str("@")?;
    write_count(out, added)?;
    out.push_str("/")?;
    write_count(out, changed)
}

/// The ticks that were printed last, and their text. Contracts see the ticks.
#[derive(Drop)]
pub(crate) struct PrintedTicks {
    kept: Option<(u64, u64)>,
    text: String,
}

impl Model for PrintedTicks {
    ghost use Rattle.std.specs.Prelude.{ℕ, Option, string_bytes};
    ghost use Rattle.scene_print.specs.Ticks.{AreTicks};

    ghost Value = { Option (ℕ × ℕ) };

    ghost view = { λ t. t.kept };

    ghost invariant = { λ t. AreTicks t.kept (string_bytes t.text) };
}

impl PrintedTicks {
    /// No ticks.
    pub(crate) fn new(alloc: Global) -> PrintedTicks {
        PrintedTicks {
            kept: None,
            text: String::new(alloc),
        }
    }

    /// Keeps these ticks instead.
    fn renew(&mut self, added: u64, changed: u64) -> Result<(), AllocError>
        ensures { OnOk result (self.new ≡ Some (added, changed)) }
    {
        self.kept = None;
        self.text.clear();
        write_ticks(&mut self.text, added, changed)?;
        self.kept = Some((added, changed));
        Ok(())
    }

    /// Keeps these ticks, which may be there.
    fn keep(&mut self, added: u64, changed: u64) -> Result<(), AllocError>
        ensures { OnOk result (self.new ≡ Some (added, changed)) }
    {
        match self.kept {
            Some(ticks) if ticks.0 == added && ticks.1 == changed => Ok(()),
            _ => self.renew(added, changed),
        }
    }

    /// Adds these ticks.
    pub(crate) fn write(
        &mut self,
        out: &mut String,
        added: u64,
        changed: u64,
    ) -> Result<(), AllocError>
        ensures { OnOk result (Adds out.old out.new (ticks_text added changed)) }
    {
        self.keep(added, changed)?;
        out.push_str(self.text.as_str())
    }
}
