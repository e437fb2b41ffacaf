//! Comments, and what they may stand behind.
ghost use Rattle.std.specs.Prelude.{◌≡◌, IsTrue, false, true};
ghost use Rattle.std.specs.Str.{is_utf8};
ghost use Rattle.scene_kept_lines.specs.Dated.{EndsLine, IsComment};

/// Whether lines end within a line.
#[tactic(auto, using(crate::proofs::Comments::ends_by_last))]
pub(crate) fn end_within(lines: &[u8]) -> bool
    ensures { result ≡ false → EndsLine lines.now }
{
    let n = lines.len();
    n > 0 && lines[n - 1] != b'\n'
}

/// Whether bytes are UTF-8.
#[tactic(auto, using(crate::proofs::Comments::is_utf8_text))]
fn is_text(line: &[u8]) -> bool
    ensures { IsTrue result → is_utf8 line.now ≡ true }
{
    match str::from_utf8(line) {
        Ok(_) => true,
        Err(_) => false,
    }
}

/// Whether a line is a comment.
#[tactic(auto, using(crate::proofs::Comments::comment_by))]
pub(crate) fn is_comment(line: &[u8]) -> bool
    ensures { IsTrue result → IsComment line.now }
{
    if line.is_empty() || line[0] != b'#' || line.contains(&b'\n') {
        return false;
    }
    is_text(line)
}
