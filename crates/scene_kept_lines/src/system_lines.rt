//! The lines of systems among others.
use crate::play_again::Note;
use scene_kinds::Schema;
use scene_script::Line;
use scene_shell::{push_kept_line, shell_line_said};
use std::alloc::{AllocError, Global};

/// The lines that give the systems, from the last `clear` on, as a store keeps them.
#[derive(Drop)]
pub(crate) struct SystemLines {
    pub(crate) lines: Vec<u8>,
}

impl SystemLines {
    /// No line.
    pub(crate) fn new(alloc: Global) -> Self {
        SystemLines {
            lines: Vec::new(alloc),
        }
    }
}

impl Note for SystemLines {
    fn note(&mut self, alloc: Global, schema: &Schema, line: &[u8]) -> Result<(), AllocError> {
        match shell_line_said(alloc, schema, line)? {
            Some(Line::Phase | Line::System(_)) => push_kept_line(&mut self.lines, line),
            Some(Line::Clear) => {
                self.lines.clear();
                Ok(())
            }
            Some(_) | None => Ok(()),
        }
    }
}
