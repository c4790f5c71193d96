//! Numbers (Text Format Language Specification, "Numeric Literals").

ghost use Rattle.std.specs.Prelude.{◌≡◌, ◌≤◌, length, false};
ghost use Rattle.std.specs.Char.{is_ascii_digit};
ghost use Rattle.std.specs.List.{list_all};
ghost use Rattle.pb_text_tokens.specs.Numbers.{after_point, after_sign, after_whole, digits_len, goes_on, has_suffix, is_decimal, is_digits, is_exponent, is_float_literal, is_floating, is_hexadecimal, is_hexadecimal_digit, is_letter_e, is_octal, is_octal_digit, is_pointed, kind_of_number, may_be_exponent, number_rest};

use crate::bytes::{begins_digit, continues_word};
use crate::token::TokenKind;

/// Whether the byte is an `e`, which a sign may follow.
fn is_letter_e(byte: u8) -> bool
    ensures { result ≡ is_letter_e byte }
{
    byte == b'e' || byte == b'E'
}

/// Whether the byte goes on a number, which it does after an `e` if it is a sign.
fn goes_on(after_e: bool, byte: u8) -> bool
    ensures { result ≡ goes_on after_e byte }
{
    continues_word(byte) || byte == b'.' || (after_e && (byte == b'+' || byte == b'-'))
}

/// How many bytes go on a number that has begun.
pub(crate) fn number_rest(bytes: &[u8]) -> usize
    ensures is { result ≡ number_rest false bytes.now }
    ensures within { result ≤ length bytes.now }
{
    let mut after_e = false;
    for i in 0..bytes.len() {
        if !goes_on(after_e, bytes[i]) {
            return i;
        }
        after_e = is_letter_e(bytes[i]);
    }
    bytes.len()
}

/// How many digits there are at the start.
fn digits_len(bytes: &[u8]) -> usize
    ensures is { result ≡ digits_len bytes.now }
    ensures within { result ≤ length bytes.now }
{
    for i in 0..bytes.len() {
        if !bytes[i].is_ascii_digit() {
            return i;
        }
    }
    bytes.len()
}

/// Whether each byte is a decimal digit.
fn are_decimal(bytes: &[u8]) -> bool
    ensures { result ≡ list_all is_ascii_digit bytes.now }
{
    for &byte in bytes {
        if !byte.is_ascii_digit() {
            return false;
        }
    }
    true
}

/// Whether each byte is an octal digit.
fn are_octal(bytes: &[u8]) -> bool
    ensures { result ≡ list_all is_octal_digit bytes.now }
{
    for &byte in bytes {
        if !char::from(byte).is_digit(8) {
            return false;
        }
    }
    true
}

/// Whether each byte is a hexadecimal digit.
fn are_hexadecimal(bytes: &[u8]) -> bool
    ensures { result ≡ list_all is_hexadecimal_digit bytes.now }
{
    for &byte in bytes {
        if !char::from(byte).is_digit(16) {
            return false;
        }
    }
    true
}

/// Whether the bytes are one decimal digit or more.
fn is_digits(bytes: &[u8]) -> bool
    ensures { result ≡ is_digits bytes.now }
{
    0 < bytes.len() && are_decimal(bytes)
}

/// Whether the bytes are a decimal integer: `0`, or digits of which the first is not `0`.
fn is_decimal(bytes: &[u8]) -> bool
    ensures { result ≡ is_decimal bytes.now }
{
    is_digits(bytes) && (bytes.len() == 1 || bytes[0] != b'0')
}

/// Whether the bytes are `0` and one octal digit or more.
fn is_octal(bytes: &[u8]) -> bool
    ensures { result ≡ is_octal bytes.now }
{
    1 < bytes.len() && bytes[0] == b'0' && are_octal(&bytes[1..])
}

/// Whether the bytes are `0x` and one hexadecimal digit or more.
fn is_hexadecimal(bytes: &[u8]) -> bool
    ensures { result ≡ is_hexadecimal bytes.now }
{
    2 < bytes.len()
        && bytes[0] == b'0'
        && (bytes[1] == b'x' || bytes[1] == b'X')
        && are_hexadecimal(&bytes[2..])
}

/// What follows a sign, if the bytes begin with one.
fn after_sign(bytes: &[u8]) -> &[u8]
    ensures { result.now ≡ after_sign bytes.now }
{
    match bytes {
        [b'+' | b'-', rest @ ..] => rest,
        _ => bytes,
    }
}

/// Whether the bytes are an exponent.
fn is_exponent(bytes: &[u8]) -> bool
    ensures { result ≡ is_exponent bytes.now }
{
    match bytes {
        [letter, rest @ ..] => is_letter_e(*letter) && is_digits(after_sign(rest)),
        [] => false,
    }
}

/// Whether the bytes are digits, and an exponent if there is one.
fn after_point(bytes: &[u8]) -> bool
    ensures { result ≡ after_point bytes.now }
{
    let rest = &bytes[digits_len(bytes)..];
    rest.is_empty() || is_exponent(rest)
}

/// Whether the bytes follow the whole part of a float.
fn after_whole(bytes: &[u8]) -> bool
    ensures { result ≡ after_whole bytes.now }
{
    match bytes {
        [b'.', rest @ ..] => after_point(rest),
        _ => is_exponent(bytes),
    }
}

/// Whether the bytes are a float that begins with its point.
fn is_pointed(bytes: &[u8]) -> bool
    ensures { result ≡ is_pointed bytes.now }
{
    match bytes {
        [b'.', rest @ ..] => begins_digit(rest) && after_point(rest),
        _ => false,
    }
}

/// Whether the bytes are a float without an `f`.
fn is_float_literal(bytes: &[u8]) -> bool
    ensures { result ≡ is_float_literal bytes.now }
{
    let len = digits_len(bytes);
    is_pointed(bytes) || (is_decimal(&bytes[..len]) && after_whole(&bytes[len..]))
}

/// Whether the last byte is an `f`.
fn has_suffix(bytes: &[u8]) -> bool
    ensures { result ≡ has_suffix bytes.now }
{
    if bytes.is_empty() {
        return false;
    }
    let last = bytes[bytes.len() - 1];
    last == b'f' || last == b'F'
}

/// Whether the bytes are a float.
fn is_floating(bytes: &[u8]) -> bool
    ensures { result ≡ is_floating bytes.now }
{
    if is_float_literal(bytes) {
        return true;
    }
    if !has_suffix(bytes) {
        return false;
    }
    let shorter = &bytes[..bytes.len() - 1];
    is_float_literal(shorter) || is_decimal(shorter)
}

/// What number the bytes are.
pub(crate) fn kind_of_number(bytes: &[u8]) -> Option<TokenKind>
    ensures { result ≡ kind_of_number bytes.now }
{
    if is_decimal(bytes) {
        return Some(TokenKind::Decimal);
    }
    if is_octal(bytes) {
        return Some(TokenKind::Octal);
    }
    if is_hexadecimal(bytes) {
        return Some(TokenKind::Hexadecimal);
    }
    if is_floating(bytes) {
        return Some(TokenKind::Floating);
    }
    None
}
