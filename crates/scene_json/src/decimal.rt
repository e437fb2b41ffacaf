//! Whole numbers in decimal.
ghost use Rattle.std.specs.Prelude.{◌<◌, OnOk, decimal};
ghost use Rattle.std.specs.Fmt.{signed_decimal};
ghost use Rattle.scene_json.specs.Texts.{Adds};

use itoa::Buffer;
use std::alloc::AllocError;

/// Adds a number of one digit, as most generations are, and many ticks.
#[tactic(auto, using(std::proofs::lemmas::Fmt::decimal_digit))]
#[inline(always)]
fn write_digit(out: &mut String, digit: u8) -> Result<(), AllocError>
    requires { digit < 10 }
    ensures { OnOk result (Adds out.old out.new (decimal digit)) }
{
    out.push((b'0' + digit) as char)
}

/// Adds a count in decimal. `write!` does the same through a formatter, at several times the cost.
pub fn write_count(out: &mut String, count: u64) -> Result<(), AllocError>
    ensures { OnOk result (Adds out.old out.new (decimal count)) }
{
    if count < 10 {
        return write_digit(out, count as u8);
    }
    let mut buffer = Buffer::new();
    out.push_str(buffer.format(count))
}

/// Adds a whole number in decimal, behind a minus sign where it is negative.
pub fn write_int(out: &mut String, number: i64) -> Result<(), AllocError>
    ensures { OnOk result (Adds out.old out.new (signed_decimal number)) }
{
    if 0 <= number && number < 10 {
        return write_digit(out, number as u8);
    }
    let mut buffer = Buffer::new();
    out.push_str(buffer.format(number))
}
