//! Floats.

ghost use Rattle.std.specs.Prelude.{◌≡◌, ℕ, IfSome, Some, option_map, to_bits, true};
ghost use Rattle.std.specs.Float.{binary32, binary64, float_is_finite};
ghost use Rattle.std.specs.Option.{SomeIff};
ghost use Rattle.pb_json_scalars.specs.Numbers.{float_word, IsFloatString, IsFloatText};

use crate::numbers::scan_number;
use std::num::{f32_to_bits_with_nan, f64_to_bits_with_nan};

/// The bits of the `double` nearest to a number; none where the number is too large for one.
pub fn read_double(characters: &[u8]) -> Option<u64>
    ensures read { IfSome result (IsFloatText binary64 characters.now) }
    ensures all { (bits : ℕ) → IsFloatText binary64 characters.now bits → result ≡ Some bits }
{
    let Some(number) = scan_number(characters) else {
        return None;
    };
    finite_double(number.size.to_float(number.is_negative))
}

/// The bits of the `float` nearest to a number, rounded once; none where the number is too large for one.
pub fn read_float(characters: &[u8]) -> Option<u32>
    ensures read { IfSome result (IsFloatText binary32 characters.now) }
    ensures all { (bits : ℕ) → IsFloatText binary32 characters.now bits → result ≡ Some bits }
{
    let Some(number) = scan_number(characters) else {
        return None;
    };
    finite_float(number.size.to_float(number.is_negative))
}

/// The bits of the `double` that a string means: a number, `NaN`, `Infinity` or `-Infinity`.
pub fn read_double_string(characters: &[u8]) -> Option<u64>
    ensures read { IfSome result (IsFloatString binary64 characters.now) }
    ensures all { (bits : ℕ) → IsFloatString binary64 characters.now bits → result ≡ Some bits }
{
    match double_word(characters) {
        Some(word) => Some(f64_to_bits_with_nan(word)),
        None => read_double(characters),
    }
}

/// The bits of the `float` that a string means: a number, `NaN`, `Infinity` or `-Infinity`.
pub fn read_float_string(characters: &[u8]) -> Option<u32>
    ensures read { IfSome result (IsFloatString binary32 characters.now) }
    ensures all { (bits : ℕ) → IsFloatString binary32 characters.now bits → result ≡ Some bits }
{
    match float_word(characters) {
        Some(word) => Some(f32_to_bits_with_nan(word)),
        None => read_float(characters),
    }
}

fn finite_double(number: f64) -> Option<u64>
    ensures { SomeIff result (float_is_finite number ≡ true) (to_bits binary64 number) }
{
    if number.is_finite() {
        Some(f64_to_bits_with_nan(number))
    } else {
        None
    }
}

fn finite_float(number: f32) -> Option<u32>
    ensures { SomeIff result (float_is_finite number ≡ true) (to_bits binary32 number) }
{
    if number.is_finite() {
        Some(f32_to_bits_with_nan(number))
    } else {
        None
    }
}

fn double_word(characters: &[u8]) -> Option<f64>
    ensures { result ≡ float_word characters.now }
{
    if characters == b"NaN".as_slice() {
        Some(f64::NAN)
    } else if characters == b"Infinity".as_slice() {
        Some(f64::INFINITY)
    } else if characters == b"-Infinity".as_slice() {
        Some(f64::NEG_INFINITY)
    } else {
        None
    }
}

fn float_word(characters: &[u8]) -> Option<f32>
    ensures { result ≡ float_word characters.now }
{
    if characters == b"NaN".as_slice() {
        Some(f32::NAN)
    } else if characters == b"Infinity".as_slice() {
        Some(f32::INFINITY)
    } else if characters == b"-Infinity".as_slice() {
        Some(f32::NEG_INFINITY)
    } else {
        None
    }
}
