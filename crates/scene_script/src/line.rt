//! The lines of a script.
ghost use Rattle.std.specs.Prelude.{◌≡◌, ◌==◌, ◌∷◌, ◌<◌, length, position};
ghost use Rattle.std.specs.Str.Lines.{lines, strip_carriage_return};

use memchr::memchr;

/// A line without the carriage return that stands before its line feed.
fn without_return(line: &[u8]) -> &[u8]
    ensures { result.now ≡ strip_carriage_return line.now }
{
    let n = line.len();
    if n > 0 && line[n - 1] == b'\r' {
        &line[..n - 1]
    } else {
        line
    }
}

/// The place of the first line feed, or `None` where there is none.
fn line_feed(bytes: &[u8]) -> Option<usize>
    ensures { result ≡ position (λ b. b == 10) bytes.now }
{
    memchr(b'\n', bytes)
}

/// The first line without its line break, and what follows the break (docs/SCRIPTS.md, "Lines").
///
/// A line feed ends a line, and one carriage return before it is dropped with it. The last line may lack its
/// line feed; a carriage return at its end then stays. It costs a walk over the line.
#[tactic(auto, using(crate::proofs::LineLaws::line_laws))]
pub fn first_line(bytes: &[u8]) -> (&[u8], &[u8])
    requires { 0 < length bytes.now }
    ensures first { lines bytes.now ≡ result.0.now ∷ lines result.1.now }
    ensures shorter { length result.1.now < length bytes.now }
{
    match line_feed(bytes) {
        None => (bytes, &[]),
        Some(at) => (without_return(&bytes[..at]), &bytes[at + 1..]),
    }
}
