//! Numbers that are written the one way: digits alone, no sign, no leading zero.
ghost use Rattle.std.specs.Prelude.{◌≡◌, IsTrue, ◌↔◌};
ghost use Rattle.scene_kinds.specs.EntityReading.{count_in};
ghost use Rattle.scene_kinds.specs.Number.{BeginsPlainly};

use crate::digits::digits_number;

/// Whether a text begins as a number does that is written the one way.
fn begins_plainly(bytes: &[u8]) -> bool
    ensures { IsTrue result ↔ BeginsPlainly bytes.now }
{
    match bytes {
        [] => false,
        [b'+', ..] => false,
        [b'0', _, ..] => false,
        _ => true,
    }
}

/// The number of 32 bits whose text this is: digits alone, with no leading zero. `None` only where the text
/// is no such number.
#[tactic(auto, using(crate::proofs::CountLaws::count_laws))]
pub fn read_count(text: &str) -> Option<u32>
    ensures { result ≡ count_in text.now }
{
    let bytes = text.as_bytes();
    if bytes.len() > 10 || !begins_plainly(bytes) {
        return None;
    }
    let Ok(number) = digits_number(bytes) else {
        return None;
    };
    if number > 4_294_967_295 {
        return None;
    }
    Some(number as u32)
}
