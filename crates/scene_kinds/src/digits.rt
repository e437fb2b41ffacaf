//! Digits, as numbers.
ghost use Rattle.std.specs.Prelude.{◌≡◌, ◌≤◌, ◌<◌, ◌^◌, IfOk, length};
ghost use Rattle.std.specs.Result.{OkIff};
ghost use Rattle.std.specs.Str.Parse.{IsNumeral, digits_value};

/// A byte that is no digit, or no byte.
#[derive(Drop, Debug)]
pub struct NoDigits;

/// The number that at most 18 digits are, which 64 bits hold whatever the digits are. Leading zeros count for nothing.
///
/// `NoDigits` only where a byte is no digit, or there is none.
pub fn digits_number(bytes: &[u8]) -> Result<u64, NoDigits>
    requires { length bytes.now ≤ 18 }
    ensures value { OkIff result (IsNumeral 10 bytes.now) (digits_value 10 bytes.now) }
    ensures small { IfOk result (λ n. n < 10 ^ 18) }
{
    if bytes.is_empty() {
        return Err(NoDigits);
    }
    let mut number = 0u64;
    for byte in bytes {
        if !byte.is_ascii_digit() {
            return Err(NoDigits);
        }
        number = number * 10 + (*byte - b'0') as u64;
    }
    Ok(number)
}
