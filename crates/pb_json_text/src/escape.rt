//! Escapes in strings (RFC 8259, section 7).

ghost use Rattle.std.specs.Prelude.{◌≡◌, ◌≤◌, ◌<◌, ◌+◌, ◌-◌, ◌⊎◌, ℕ, List, [], ◌++◌, length, drop, slice_index, encode_utf8, IfOk, IfErr};
ghost use Rattle.pb_json_text.specs.Grammar.{meaning_of_letter, surrogates};
ghost use Rattle.pb_json_text.specs.Loops.Machine as machine;
ghost use Rattle.pb_json_text.specs.Loops.Machine.{Stack, text, string_next, unit_next, goes, Target, stop, run, in_string};
ghost use Rattle.pb_json_text.specs.Loops.Escapes.{part_of, IsPart, IsHigh, IsNext, digit_in};

use crate::fault::JsonFault;

/// What is read of an escape: its backslash; `\u`, and the number of its digits so far; after a high surrogate the same of the low one.
#[derive(Clone, Copy, Debug, PartialEq, Eq)]
pub(crate) enum EscapePart {
    Backslash,
    Digits0,
    Digits1(u32),
    Digits2(u32),
    Digits3(u32),
    High(u32),
    HighBackslash(u32),
    Low0(u32),
    Low1(u32),
    Low2(u32, u32),
    Low3(u32, u32),
}

/// What a byte makes of an escape.
#[derive(Clone, Copy, Debug, PartialEq, Eq)]
pub(crate) enum EscapeNext {
    Part(EscapePart),
    Character(char),
    Refused,
}

/// What a letter after a backslash means.
fn meaning_of_letter(letter: u8) -> Option<u8>
    ensures { result ≡ meaning_of_letter letter }
{
    match letter {
        b'"' | b'\\' | b'/' => Some(letter),
        b'b' => Some(8),
        b'f' => Some(12),
        b'n' => Some(b'\n'),
        b'r' => Some(b'\r'),
        b't' => Some(b'\t'),
        _ => None,
    }
}

/// The hexadecimal digit, if it is from `least` to `most`.
fn digit_in(least: u32, most: u32, byte: u8) -> Option<u32>
    requires { most < 16 }
    ensures { result ≡ digit_in least most byte }
{
    let digit = char::from(byte).to_digit(16)?;
    if least <= digit && digit <= most {
        Some(digit)
    } else {
        None
    }
}

/// After a backslash.
fn after_backslash(byte: u8) -> EscapeNext
    ensures { IsNext (string_next machine.backslash byte) result }
{
    if byte == b'u' {
        return EscapeNext::Part(EscapePart::Digits0);
    }
    match meaning_of_letter(byte) {
        Some(meaning) => EscapeNext::Character(char::from(meaning)),
        None => EscapeNext::Refused,
    }
}

/// After no digit.
fn first_digit(byte: u8) -> EscapeNext
    ensures { IsNext (string_next machine.digits0 byte) result }
{
    match digit_in(0, 15, byte) {
        Some(digit) => EscapeNext::Part(EscapePart::Digits1(digit)),
        None => EscapeNext::Refused,
    }
}

/// After one digit: no low surrogate is first.
fn second_digit(first: u32, byte: u8) -> EscapeNext
    requires { first < 16 }
    ensures { IsNext (string_next (machine.digits1 first) byte) result }
{
    let most = if first == 13 { 11 } else { 15 };
    match digit_in(0, most, byte) {
        Some(digit) => EscapeNext::Part(EscapePart::Digits2(first * 16 + digit)),
        None => EscapeNext::Refused,
    }
}

/// After two digits.
fn third_digit(value: u32, byte: u8) -> EscapeNext
    requires { IsPart (EscapePart.Digits2 value) }
    ensures { IsNext (string_next (machine.digits2 value) byte) result }
{
    match digit_in(0, 15, byte) {
        Some(digit) => EscapeNext::Part(EscapePart::Digits3(value * 16 + digit)),
        None => EscapeNext::Refused,
    }
}

/// After the four digits of a code unit that is no low surrogate.
fn unit(value: u32) -> EscapeNext
    requires { (value < 56320) ⊎ ((57344 ≤ value) × (value < 65536)) }
    ensures { IsNext (unit_next value) result }
{
    match char::from_u32(value) {
        Some(character) => EscapeNext::Character(character),
        None => EscapeNext::Part(EscapePart::High(value)),
    }
}

/// After three digits.
fn fourth_digit(value: u32, byte: u8) -> EscapeNext
    requires { IsPart (EscapePart.Digits3 value) }
    ensures { IsNext (string_next (machine.digits3 value) byte) result }
{
    match digit_in(0, 15, byte) {
        Some(digit) => unit(value * 16 + digit),
        None => EscapeNext::Refused,
    }
}

/// After `\u` of a low surrogate.
fn first_low(high: u32, byte: u8) -> EscapeNext
    requires { IsHigh high }
    ensures { IsNext (string_next (machine.low0 high) byte) result }
{
    match digit_in(13, 13, byte) {
        Some(_) => EscapeNext::Part(EscapePart::Low1(high)),
        None => EscapeNext::Refused,
    }
}

/// After one digit of a low surrogate.
fn second_low(high: u32, byte: u8) -> EscapeNext
    requires { IsHigh high }
    ensures { IsNext (string_next (machine.low1 high) byte) result }
{
    match digit_in(12, 15, byte) {
        Some(digit) => EscapeNext::Part(EscapePart::Low2(high, 208 + digit)),
        None => EscapeNext::Refused,
    }
}

/// After two digits of a low surrogate.
fn third_low(high: u32, value: u32, byte: u8) -> EscapeNext
    requires { IsPart (EscapePart.Low2 high value) }
    ensures { IsNext (string_next (machine.low2 high value) byte) result }
{
    match digit_in(0, 15, byte) {
        Some(digit) => EscapeNext::Part(EscapePart::Low3(high, value * 16 + digit)),
        None => EscapeNext::Refused,
    }
}

/// The character of a pair of surrogates.
fn surrogates(high: u32, low: u32) -> EscapeNext
    requires high { IsHigh high }
    requires low { (56320 ≤ low) × (low < 57344) }
    ensures { IsNext (goes text (encode_utf8 (surrogates high low))) result }
{
    match char::from_u32(65536 + (high - 55296) * 1024 + (low - 56320)) {
        Some(character) => EscapeNext::Character(character),
        None => EscapeNext::Refused,
    }
}

/// After three digits of a low surrogate.
fn fourth_low(high: u32, value: u32, byte: u8) -> EscapeNext
    requires { IsPart (EscapePart.Low3 high value) }
    ensures { IsNext (string_next (machine.low3 high value) byte) result }
{
    match digit_in(0, 15, byte) {
        Some(digit) => surrogates(high, value * 16 + digit),
        None => EscapeNext::Refused,
    }
}

/// After a high surrogate.
fn after_high(high: u32, byte: u8) -> EscapeNext
    requires { IsHigh high }
    ensures { IsNext (string_next (machine.high high) byte) result }
{
    if byte == b'\\' {
        EscapeNext::Part(EscapePart::HighBackslash(high))
    } else {
        EscapeNext::Refused
    }
}

/// After a high surrogate and a backslash.
fn after_high_backslash(high: u32, byte: u8) -> EscapeNext
    requires { IsHigh high }
    ensures { IsNext (string_next (machine.high_backslash high) byte) result }
{
    if byte == b'u' {
        EscapeNext::Part(EscapePart::Low0(high))
    } else {
        EscapeNext::Refused
    }
}

impl EscapePart {
    /// What the next byte makes of the escape.
    fn next(self, byte: u8) -> EscapeNext
        requires { IsPart self }
        ensures { IsNext (string_next (part_of self) byte) result }
    {
        match self {
            EscapePart::Backslash => after_backslash(byte),
            EscapePart::Digits0 => first_digit(byte),
            EscapePart::Digits1(first) => second_digit(first, byte),
            EscapePart::Digits2(value) => third_digit(value, byte),
            EscapePart::Digits3(value) => fourth_digit(value, byte),
            EscapePart::High(high) => after_high(high, byte),
            EscapePart::HighBackslash(high) => after_high_backslash(high, byte),
            EscapePart::Low0(high) => first_low(high, byte),
            EscapePart::Low1(high) => second_low(high, byte),
            EscapePart::Low2(high, value) => third_low(high, value, byte),
            EscapePart::Low3(high, value) => fourth_low(high, value, byte),
        }
    }
}

/// The character of an escape, and where it ends; its backslash is before this place.
pub(crate) fn escape(bytes: &[u8], from: usize) -> Result<(char, usize), JsonFault>
    requires { from ≤ length bytes.now }
    ensures within { IfOk result (λ r. (from < r.1) × (r.1 ≤ length bytes.now)) }
    ensures ascii { IfOk result (λ r. slice_index bytes.now (r.1 - 1) < 128) }
    ensures ok { IfOk result (λ r. (s : List ℕ) (at : ℕ) (t : Target) (l : ℕ) (k : Stack)
        → run (in_string machine.backslash s at t l k) from (drop from bytes.now)
        ≡ run (in_string text (s ++ encode_utf8 r.0) at t l k) r.1 (drop r.1 bytes.now)) }
    ensures fault { IfErr result (λ e. (s : List ℕ) (at : ℕ) (t : Target) (l : ℕ) (k : Stack)
        → run (in_string machine.backslash s at t l k) from (drop from bytes.now) ≡ stop e.byte e.cause) }
{
    let mut part = EscapePart::Backslash;
    let mut at = from;
    'digits: while at < bytes.len() {
        match part.next(bytes[at]) {
            EscapeNext::Part(next) => part = next,
            EscapeNext::Character(character) => return Ok((character, at + 1)),
            EscapeNext::Refused => return Err(JsonFault::unexpected(at)),
        }
        at += 1;
    }
    Err(JsonFault::end(at))
}
