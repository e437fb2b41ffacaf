//! Numbers and entities as words.
ghost use Rattle.std.specs.Prelude.{◌≡◌, ◌≢◌, ◌≤◌, ◌↔◌, ℤ, pos, negsuc, FitsSigned, IsTrue, Some, Err, IfOk, IfSome, length, slice_index};
ghost use Rattle.std.specs.Char.{is_ascii_digit};
ghost use Rattle.std.specs.Fmt.{signed_decimal};
ghost use Rattle.std.specs.Int.{w64};
ghost use Rattle.std.specs.List.{list_all};
ghost use Rattle.std.specs.Str.Parse.{ParsesSigned};
ghost use Rattle.scene_script.specs.Numbers.{number_in, is_digits, is_whole, bad_number, number_said, entity_said};
ghost use Rattle.scene_script.specs.declared.bad_line.BadLine.TheVariants as bad;
ghost use Rattle.scene_script.specs.Begins.{BeginsWhole};
ghost use Rattle.scene_script.specs.Reading.{Reads};

use crate::bad_line::{BadLine, LineError, text_of};
use scene_kinds::{Entity, NoDigits, digits_number, read_entity};
use std::alloc::{AllocError, Global};

/// Whether a text begins as a whole number does that is written the one way.
fn begins_whole(bytes: &[u8]) -> bool
    ensures { IsTrue result ↔ BeginsWhole bytes.now }
{
    match bytes {
        [b'+', ..] => false,
        [b'0', _, ..] => false,
        [b'-', b'0', ..] => false,
        _ => true,
    }
}

/// So many digits are a number of 64 bits, whatever they are.
const SURE_DIGITS: usize = 18;

/// The whole number that a few bytes are, as `parse` reads it, but for a `+`.
#[tactic(auto, using(crate::proofs::NumberLaws::short_laws))]
fn short_number(bytes: &[u8]) -> Result<i64, NoDigits>
    requires few { length bytes.now ≤ 18 }
    requires no_plus { slice_index bytes.now 0 ≢ 43 }
    ensures { ParsesSigned w64 10 bytes.now result }
{
    match bytes {
        [b'-', digits @ ..] => {
            let number = digits_number(digits)?;
            Ok(-(number as i64))
        }
        _ => {
            let number = digits_number(bytes)?;
            Ok(number as i64)
        }
    }
}

/// The whole number of 64 bits whose text this is (docs/SCRIPTS.md, "Words"): digits, perhaps after one `-`,
/// with no `+`, no leading zero, and no `-0`. `None` only where the text is no such number.
#[tactic(auto, using(crate::proofs::NumberLaws::whole_laws))]
pub fn read_number(text: &str) -> Option<i64>
    ensures value { result ≡ number_in text.now }
    ensures found { IfSome result (λ z. text.now ≡ signed_decimal z) }
    ensures only { (z : ℤ) → FitsSigned w64 z → text.now ≡ signed_decimal z → result ≡ Some z }
{
    let bytes = text.as_bytes();
    if !begins_whole(bytes) {
        return None;
    }
    if bytes.len() <= SURE_DIGITS {
        return short_number(bytes).ok();
    }
    text.parse::<i64>().ok()
}

/// Whether each byte is a digit.
fn are_digits(bytes: &[u8]) -> bool
    ensures { result ≡ list_all is_ascii_digit bytes.now }
{
    bytes.iter().all(|byte| byte.is_ascii_digit())
}

/// Whether bytes are digits, the first no zero.
fn is_digits(bytes: &[u8]) -> bool
    ensures { result ≡ is_digits bytes.now }
{
    match bytes {
        [] => false,
        [first, ..] => *first != b'0' && are_digits(bytes),
    }
}

/// Whether bytes are written as a whole number, however large.
fn is_whole(bytes: &[u8]) -> bool
    ensures { result ≡ is_whole bytes.now }
{
    match bytes {
        [b'-', digits @ ..] => is_digits(digits),
        [b'0', rest @ ..] => rest.is_empty(),
        _ => is_digits(bytes),
    }
}

/// Why a word is no number from the least to the most.
pub(crate) fn bad_number(
    alloc: Global,
    word: &str,
    least: i64,
    most: i64,
) -> Result<BadLine, AllocError>
    ensures { IfOk result (λ reason. reason ≡ bad_number word.now least most) }
{
    let text = text_of(alloc, word)?;
    if is_whole(word.as_bytes()) {
        Ok(BadLine::OutOfRange(text, least, most))
    } else {
        Ok(BadLine::NoNumber(text))
    }
}

/// The mistake of a word that is no whole number of 64 bits.
#[cold]
#[inline(never)]
fn no_number(alloc: Global, word: &str) -> Result<i64, LineError>
    ensures { Reads result (Err (bad_number word.now (negsuc 9223372036854775807) (pos 9223372036854775807))) }
{
    Err(LineError::Bad(bad_number(alloc, word, i64::MIN, i64::MAX)?))
}

/// The whole number of 64 bits that a word is.
#[inline(always)]
pub(crate) fn number_word(alloc: Global, word: &str) -> Result<i64, LineError>
    ensures { Reads result (number_said word.now) }
{
    match read_number(word) {
        Some(number) => Ok(number),
        None => no_number(alloc, word),
    }
}

/// The mistake of a word that is no entity.
#[cold]
#[inline(never)]
fn no_entity(alloc: Global, word: &str) -> Result<Entity, LineError>
    ensures { Reads result (Err (bad.NoEntity word.now)) }
{
    Err(LineError::Bad(BadLine::NoEntity(text_of(alloc, word)?)))
}

/// The entity that a word is.
#[inline(always)]
pub(crate) fn entity_word(alloc: Global, word: &str) -> Result<Entity, LineError>
    ensures { Reads result (entity_said word.now) }
{
    match read_entity(word) {
        Some(entity) => Ok(entity),
        None => no_entity(alloc, word),
    }
}
