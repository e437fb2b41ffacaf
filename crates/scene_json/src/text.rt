//! A text as a JSON string.
ghost use Rattle.std.specs.Prelude.{◌≡◌, [], ◌∷◌, OnOk};
ghost use Rattle.std.specs.Bool.{OnTrue};
ghost use Rattle.json.specs.Print.{escape, escape_byte};
ghost use Rattle.scene_json.specs.Texts.{Adds, json_text};

use std::alloc::{AllocError, Global};

/// Whether a byte stands in a JSON string as it is.
#[tactic(auto, using(crate::proofs::Plain::plain_byte))]
fn is_plain_byte(byte: u8) -> bool
    ensures { OnTrue result (escape_byte byte ≡ byte ∷ []) }
{
    byte >= b' ' && byte != b'"' && byte != b'\\'
}

/// Whether a text stands in a JSON string as it is. It looks at each byte, with no way out, so that the loop takes many
/// at a time.
#[tactic(auto, using(crate::proofs::Plain::more_plain))]
fn is_plain(text: &[u8]) -> bool
    ensures { OnTrue result (escape text.now ≡ text.now) }
{
    let mut plain = true;
    'bytes: for byte in text {
        plain = plain & is_plain_byte(*byte);
    }
    plain
}

/// Adds a text with an escape as a JSON string.
fn write_escaped(alloc: Global, out: &mut String, text: &str) -> Result<(), AllocError>
    ensures { OnOk result (Adds out.old out.new (json_text text.now)) }
{
    let quoted = serde_json::Value::try_from_str(alloc, text)?.to_string(alloc)?;
    out.push_str(quoted.as_str())
}

/// Adds a text as a JSON string, as `serde_json` writes it. A text without an escape, as most are, takes no memory of
/// its own.
pub fn write_json_text(alloc: Global, out: &mut String, text: &str) -> Result<(), AllocError>
    ensures { OnOk result (Adds out.old out.new (json_text text.now)) }
{
    if !is_plain(text.as_bytes()) {
        return write_escaped(alloc, out, text);
    }
    out.push_str("\"")?;
    out.push_str(text)?;
    out.push_str("\"")
}
