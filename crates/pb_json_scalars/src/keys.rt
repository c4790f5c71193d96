//! Keys of maps.

ghost use Rattle.std.specs.Prelude.{◌≡◌, ◌<◌, ◌^◌, ℕ, ℤ, pos, FitsSigned, IfSome, Some};
ghost use Rattle.std.specs.Int.{w32, w64};
ghost use Rattle.pb_json_scalars.specs.Keys.{bool_key, IsKeyText};

use crate::integers::{narrowed, unsigned};
use crate::numbers::scan_number;

/// The key of a map with `bool` keys.
pub fn read_bool_key(characters: &[u8]) -> Option<bool>
    ensures { result ≡ bool_key characters.now }
{
    if characters == b"true".as_slice() {
        Some(true)
    } else if characters == b"false".as_slice() {
        Some(false)
    } else {
        None
    }
}

/// The key of a map with 64-bit signed keys: a decimal integer without a fraction or an exponent.
pub fn read_i64_key(characters: &[u8]) -> Option<i64>
    ensures read { IfSome result (IsKeyText characters.now) }
    ensures all { (z : ℤ) → IsKeyText characters.now z → FitsSigned w64 z → result ≡ Some z }
{
    let Some(number) = scan_number(characters) else {
        return None;
    };
    number.size.to_i64(number.is_negative)
}

/// The key of a map with 32-bit signed keys.
pub fn read_i32_key(characters: &[u8]) -> Option<i32>
    ensures read { IfSome result (IsKeyText characters.now) }
    ensures all { (z : ℤ) → IsKeyText characters.now z → FitsSigned w32 z → result ≡ Some z }
{
    let Some(number) = read_i64_key(characters) else {
        return None;
    };
    i32::try_from(number).ok()
}

/// The key of a map with 64-bit unsigned keys.
pub fn read_u64_key(characters: &[u8]) -> Option<u64>
    ensures read { IfSome result (λ n. IsKeyText characters.now (pos n)) }
    ensures all { (n : ℕ) → IsKeyText characters.now (pos n) → n < 2 ^ 64 → result ≡ Some n }
{
    let Some(number) = scan_number(characters) else {
        return None;
    };
    unsigned(number.is_negative, number.size.to_u64()?)
}

/// The key of a map with 32-bit unsigned keys.
pub fn read_u32_key(characters: &[u8]) -> Option<u32>
    ensures read { IfSome result (λ n. IsKeyText characters.now (pos n)) }
    ensures all { (n : ℕ) → IsKeyText characters.now (pos n) → n < 2 ^ 32 → result ≡ Some n }
{
    let Some(number) = read_u64_key(characters) else {
        return None;
    };
    narrowed(number)
}
