//! A line as it is kept.
ghost use Rattle.std.specs.Prelude.{◌≡◌, ◌++◌, OnOk};
ghost use Rattle.scene_shell.specs.Kept.{break_of, ended};

use std::alloc::AllocError;

/// The line break that a line is kept with. A carriage return that is part of the line needs one more behind it, since
/// the one before a line feed is dropped.
fn break_of(line: &[u8]) -> &'static [u8]
    ensures { result.now ≡ break_of line.now }
{
    let n = line.len();
    if n > 0 && line[n - 1] == b'\r' {
        b"\r\n"
    } else {
        b"\n"
    }
}

/// Adds a line, which is given without its line break, as it is kept: `first_line` gives it back byte for byte.
///
/// `AllocError` where no memory was found; a part may be added then.
pub fn push_kept_line(lines: &mut Vec<u8>, line: &[u8]) -> Result<(), AllocError>
    ensures { OnOk result (lines.new.items ≡ lines.old.items ++ ended line.now) }
{
    lines.extend_from_slice(line)?;
    lines.extend_from_slice(break_of(line))
}
