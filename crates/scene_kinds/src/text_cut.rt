//! Where a text is cut.
ghost use Rattle.std.specs.Prelude.{◌≡◌, ◌<◌, ◌==◌, position};
ghost use Rattle.std.specs.Option.{option_map};
ghost use Rattle.scene_kinds.specs.EntityReading.{cut_at};

/// The place of the first such byte, or `None` where there is none.
pub fn place_of(bytes: &[u8], mark: u8) -> Option<usize>
    ensures { result ≡ position (λ b. b == mark) bytes.now }
{
    bytes.iter().position(|byte| *byte == mark)
}

/// What stands before and after the first such ASCII mark in a text, or `None` where the text has none.
pub fn cut(text: &str, mark: char) -> Option<(&str, &str)>
    requires { mark < 128 }
    ensures { option_map (λ p. (p.0.now, p.1.now)) result ≡ cut_at mark text.now }
{
    // The mark is one byte, and no other character has such a byte in it.
    match place_of(text.as_bytes(), mark as u8) {
        Some(at) => Some((&text[..at], &text[at + 1..])),
        None => None,
    }
}
