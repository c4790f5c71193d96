//! Integers.

ghost use Rattle.std.specs.Prelude.{◌≡◌, ◌<◌, ◌^◌, ℕ, ℤ, pos, FitsSigned, IfSome, Some};
ghost use Rattle.std.specs.Int.{w32, w64};
ghost use Rattle.std.specs.Option.{SomeIff};
ghost use Rattle.pb_json_scalars.specs.Numbers.{IsIntegerText};
ghost use Rattle.pb_json_scalars.specs.Scanned.{unsigned};

use crate::numbers::scan_number;

/// The 64-bit signed integer that a number equals, whatever way it is written: `-5`, `1e3`, `1.0`.
pub fn read_i64(characters: &[u8]) -> Option<i64>
    ensures read { IfSome result (IsIntegerText characters.now) }
    ensures all { (z : ℤ) → IsIntegerText characters.now z → FitsSigned w64 z → result ≡ Some z }
{
    let Some(number) = scan_number(characters) else {
        return None;
    };
    number.size.whole_i64(number.is_negative)
}

/// The 32-bit signed integer that a number equals.
pub fn read_i32(characters: &[u8]) -> Option<i32>
    ensures read { IfSome result (IsIntegerText characters.now) }
    ensures all { (z : ℤ) → IsIntegerText characters.now z → FitsSigned w32 z → result ≡ Some z }
{
    let Some(number) = read_i64(characters) else {
        return None;
    };
    i32::try_from(number).ok()
}

/// The 64-bit unsigned integer that a number equals.
pub fn read_u64(characters: &[u8]) -> Option<u64>
    ensures read { IfSome result (λ n. IsIntegerText characters.now (pos n)) }
    ensures all { (n : ℕ) → IsIntegerText characters.now (pos n) → n < 2 ^ 64 → result ≡ Some n }
{
    let Some(number) = scan_number(characters) else {
        return None;
    };
    unsigned(number.is_negative, number.size.whole_u64()?)
}

/// A number of this size, where it is not below 0.
pub(crate) fn unsigned(is_negative: bool, size: u64) -> Option<u64>
    ensures { result ≡ unsigned is_negative size }
{
    if is_negative && size != 0 {
        None
    } else {
        Some(size)
    }
}

/// The 32-bit unsigned integer that a number equals.
pub fn read_u32(characters: &[u8]) -> Option<u32>
    ensures read { IfSome result (λ n. IsIntegerText characters.now (pos n)) }
    ensures all { (n : ℕ) → IsIntegerText characters.now (pos n) → n < 2 ^ 32 → result ≡ Some n }
{
    let Some(number) = read_u64(characters) else {
        return None;
    };
    narrowed(number)
}

/// The number, where 32 bits hold it.
pub(crate) fn narrowed(number: u64) -> Option<u32>
    ensures { SomeIff result (number < 2 ^ 32) number }
{
    u32::try_from(number).ok()
}
