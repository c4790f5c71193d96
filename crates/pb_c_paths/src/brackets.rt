//! What is in brackets: indexes and keys that are no strings.

ghost use Rattle.std.specs.Prelude.{◌≡◌, ◌<◌, ◌≤◌, ◌^◌, None, Some};
ghost use Rattle.pb_c_paths.specs.Brackets.{below, decimal, has_minus, key_bits, key_kind, signed_bits, truth, with_digit};

use pb_schema::Kind;

/// The number with one digit more, if 64 bits hold it.
fn with_digit(number: u64, digit: u8) -> Option<u64>
    ensures { result ≡ with_digit number digit }
{
    if digit < 48 || digit > 57 {
        return None;
    }
    number.checked_mul(10)?.checked_add(u64::from(digit - 48))
}

/// The number of one digit or more, if 64 bits hold it.
pub(crate) fn decimal(digits: &[u8]) -> Option<u64>
    ensures { result ≡ decimal digits.now }
{
    if digits.is_empty() {
        return None;
    }
    let mut number = 0;
    for digit in digits {
        number = with_digit(number, *digit)?;
    }
    Some(number)
}

/// A number below a limit.
fn below(limit: u64, number: Option<u64>) -> Option<u64>
    ensures { result ≡ below limit number }
{
    match number {
        Some(number) => { if number < limit { Some(number) } else { None } }
        None => None,
    }
}

fn has_minus(text: &[u8]) -> bool
    ensures { result ≡ has_minus text.now }
{
    !text.is_empty() && text[0] == 45
}

/// The 64 bits of a number that is perhaps below zero: below the limit, and at least as much under zero.
fn signed_bits(limit: u64, text: &[u8]) -> Option<u64>
    requires limit { limit ≤ 2 ^ 63 }
    ensures { result ≡ signed_bits limit text.now }
{
    if !has_minus(text) {
        return below(limit, decimal(text));
    }
    match below(limit + 1, decimal(&text[1..])) {
        Some(0) => Some(0),
        Some(number) => Some(u64::MAX - (number - 1)),
        None => None,
    }
}

/// 1 for `true`, 0 for `false`.
fn truth(text: &[u8]) -> Option<u64>
    ensures { result ≡ truth text.now }
{
    if text == b"true".as_slice() {
        Some(1)
    } else if text == b"false".as_slice() {
        Some(0)
    } else {
        None
    }
}

/// The kind of a key, by the numbers of `value`.
pub(crate) fn key_kind(key: Kind) -> u32
    ensures { result ≡ key_kind key }
{
    match key {
        Kind::Int32 | Kind::Sint32 | Kind::Sfixed32 => 5,
        Kind::Int64 | Kind::Sint64 | Kind::Sfixed64 => 3,
        Kind::Uint32 | Kind::Fixed32 => 13,
        Kind::Uint64 | Kind::Fixed64 => 4,
        Kind::Bool => 8,
        _ => 9,
    }
}

/// The number of a key of a kind that is no string, as a step has it.
pub(crate) fn key_bits(key: Kind, text: &[u8]) -> Option<u64>
    ensures { result ≡ key_bits key text.now }
{
    match key {
        Kind::Int32 | Kind::Sint32 | Kind::Sfixed32 => signed_bits(0x8000_0000, text),
        Kind::Int64 | Kind::Sint64 | Kind::Sfixed64 => signed_bits(0x8000_0000_0000_0000, text),
        Kind::Uint32 | Kind::Fixed32 => below(0x1_0000_0000, decimal(text)),
        Kind::Uint64 | Kind::Fixed64 => decimal(text),
        Kind::Bool => truth(text),
        _ => None,
    }
}
