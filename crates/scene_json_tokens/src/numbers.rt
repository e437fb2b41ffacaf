//! Whole numbers of few digits.
ghost use Rattle.std.specs.Prelude.{◌≡◌, ◌<◌, IfSome, IsTrue, length, slice_index};
ghost use Rattle.scene_json_forms.specs.Walk.{int_at, tick_at};
ghost use Rattle.scene_json_tokens.specs.Taken.{IsInt, IsTaken};

use json::{Reader, Token};
use scene_json::few_digits;

/// Whether a number is below zero, or is -0.
#[inline(always)]
fn has_minus(bytes: &[u8]) -> bool
    ensures there { IsTrue result → 0 < length bytes.now }
    ensures first { IsTrue result → slice_index bytes.now 0 ≡ 45 }
{
    match bytes.first() {
        Some(first) => *first == b'-',
        None => false,
    }
}

/// The number of few digits, or of a minus and few digits.
#[inline(always)]
fn few_signed(bytes: &[u8]) -> Option<i64>
    ensures { IfSome result (IsInt bytes.now) }
{
    if !has_minus(bytes) {
        let number = few_digits(bytes)?;
        return Some(number as i64);
    }
    let number = few_digits(&bytes[1..])?;
    if number == 0 {
        return None;
    }
    Some(-(number as i64))
}

/// Takes a whole number without a sign, of few digits.
#[inline(always)]
pub(crate) fn take_count(reader: &mut Reader<'_>) -> Option<u64>
    ensures { IfSome result (IsTaken tick_at 0 reader.old reader.new) }
{
    match reader.next()? {
        Token::Number(text) => few_digits(text.as_bytes()),
        _ => None,
    }
}

/// Takes a whole number of few digits.
#[inline(always)]
pub(crate) fn take_int(reader: &mut Reader<'_>) -> Option<i64>
    ensures { IfSome result (IsTaken int_at 0 reader.old reader.new) }
{
    match reader.next()? {
        Token::Number(text) => few_signed(text.as_bytes()),
        _ => None,
    }
}
