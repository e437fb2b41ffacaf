//! Numbers, by their texts.
ghost use Rattle.std.specs.Prelude.{◌≡◌, ◌==◌, ◌<◌, ◌^◌, IsTrue, None, IfSome, MatchOption, is_some, length, option_and_then, slice_index, true, false};
ghost use Rattle.std.specs.Float.{binary64, float_is_finite};
ghost use Rattle.std.specs.Str.Parse.{IsNumeral, digits_value};
ghost use Rattle.fast_float.specs.Text.{minus, nearest};
ghost use Rattle.serde_json.specs.Data.{unsigned as whole_number};
ghost use Rattle.serde_json.specs.Find.{as_i64, as_u64};
ghost use Rattle.serde_json.specs.Read.{number_from, number_of};
ghost use Rattle.scene_json.specs.NodeData.{IsNumber};

use crate::node::Node;
use fast_float::Numeral;
use scene_kinds::digits_number;

/// Whether a number is below zero, or is -0.
fn has_minus(text: &[u8]) -> bool
    ensures sign { result ≡ (slice_index text.now 0 == minus) }
    ensures there { IsTrue result → 0 < length text.now }
{
    match text.first() {
        Some(first) => *first == b'-',
        None => false,
    }
}

/// A whole number without a sign.
#[tactic(auto, using(crate::proofs::Numbers::numbers))]
fn unsigned(numeral: &Numeral<'_>) -> Option<u64>
    ensures { result ≡ option_and_then as_u64 (number_from false numeral.now) }
{
    numeral.to_u64()
}

/// A whole number below zero, of what stands behind its sign.
#[tactic(auto, using(crate::proofs::Numbers::numbers))]
fn negative(numeral: &Numeral<'_>) -> Option<i64>
    ensures { result ≡ option_and_then as_i64 (number_from true numeral.now) }
{
    match numeral.to_i64(true) {
        Some(number) if number < 0 => Some(number),
        _ => None,
    }
}

/// Whether a number is within the finite floats.
fn is_finite(negative: bool, numeral: &Numeral<'_>) -> bool
    ensures { result ≡ float_is_finite (nearest binary64 negative numeral.now) }
{
    numeral.to_float::<f64>(negative).is_finite()
}

/// The whole number of 64 bits without a sign that a text says.
pub(crate) fn u64_of(text: &str) -> Option<u64>
    ensures { result ≡ option_and_then as_u64 (number_of text.now) }
{
    let text = text.as_bytes();
    if has_minus(text) {
        return None;
    }
    unsigned(&Numeral::scan(text))
}

/// A whole number without a sign as one with a sign, where it fits.
pub(crate) fn signed(number: u64) -> Option<i64>
    ensures { result ≡ as_i64 (whole_number number) }
{
    if number <= i64::MAX as u64 {
        Some(number as i64)
    } else {
        None
    }
}

/// The whole number of 64 bits with a sign that a text says.
pub(crate) fn i64_of(text: &str) -> Option<i64>
    ensures { result ≡ option_and_then as_i64 (number_of text.now) }
{
    let text = text.as_bytes();
    if has_minus(text) {
        return negative(&Numeral::scan(&text[1..]));
    }
    signed(unsigned(&Numeral::scan(text))?)
}

/// Whether a text says a number that is in range. Only one that is no whole number of 64 bits is read as a float.
fn is_in_range(text: &str) -> bool
    ensures { result ≡ is_some (number_of text.now) }
{
    let text = text.as_bytes();
    if has_minus(text) {
        let numeral = Numeral::scan(&text[1..]);
        return negative(&numeral).is_some() || is_finite(true, &numeral);
    }
    let numeral = Numeral::scan(text);
    unsigned(&numeral).is_some() || is_finite(false, &numeral)
}

/// So many digits are a number of 64 bits, whatever they are.
const SURE_DIGITS: usize = 18;

/// The number that at most 18 digits are. `None` where there are more or none, or another byte stands among them.
#[inline(always)]
pub fn few_digits(bytes: &[u8]) -> Option<u64>
    ensures { IfSome result (λ n. IsNumeral 10 bytes.now × (n ≡ digits_value 10 bytes.now) × (n < 10 ^ 18)) }
{
    if bytes.len() > SURE_DIGITS {
        return None;
    }
    digits_number(bytes).ok()
}

/// The node of a number, where the number is in range. A whole one is read here, once, and another is kept as its text.
#[inline(always)]
pub(crate) fn number_node(text: &str) -> Option<Node<'_>>
    ensures { MatchOption result (number_of text.now ≡ None) (λ node. IsNumber text.now node) }
{
    if let Some(count) = few_digits(text.as_bytes()) {
        return Some(Node::Count(count));
    }
    if let Some(count) = u64_of(text) {
        return Some(Node::Count(count));
    }
    if let Some(number) = i64_of(text) {
        return Some(Node::Below(number));
    }
    if is_in_range(text) {
        Some(Node::Number(text))
    } else {
        None
    }
}
