//! Escapes in strings (Text Format Language Specification, "String Literals").

ghost use Rattle.std.specs.Prelude.{◌≡◌, ◌≤◌, ◌<◌, ◌+◌, length, IfSome};
ghost use Rattle.pb_text_tokens.specs.Strings.{escape_of, hexadecimal_of, is_scalar, low_at, octal_of, pair_of, short_escape, surrogates, unicode_of};

use crate::digits::number_at;

/// What an escape means.
#[derive(Clone, Copy, Debug, PartialEq, Eq)]
pub(crate) enum Meant {
    Byte(u8),
    /// A character of Unicode, by its number.
    Character(u32),
}

/// An escape: how many bytes it has after its `\`, and what it means.
#[derive(Clone, Copy, Debug, PartialEq, Eq)]
pub(crate) struct Escape {
    pub len: usize,
    pub meant: Meant,
}

/// Whether the number is a Unicode scalar value.
fn is_scalar(number: u32) -> bool
    ensures { result ≡ is_scalar number }
{
    number < 0xd800 || (0xdfff < number && number < 0x110000)
}

/// What the byte means after a `\`, where it is an escape alone.
fn short_escape(byte: u8) -> Option<u8>
    ensures { result ≡ short_escape byte }
{
    match byte {
        b'a' => Some(7),
        b'b' => Some(8),
        b'f' => Some(12),
        b'n' => Some(10),
        b'r' => Some(13),
        b't' => Some(9),
        b'v' => Some(11),
        b'\\' | b'\'' | b'"' | b'?' => Some(byte),
        _ => None,
    }
}

/// The escape of one or two hexadecimal digits after `\x`.
fn hexadecimal(after: &[u8]) -> Option<Escape>
    ensures is { result ≡ hexadecimal_of after.now }
    ensures within { IfSome result (λ e. (0 < e.len) × (e.len ≤ 1 + length after.now)) }
{
    let (len, number) = number_at(16, 2, after);
    if len == 0 {
        return None;
    }
    let meant = Meant::Byte((number % 256) as u8);
    Some(Escape {
        len: 1 + len,
        meant,
    })
}

/// The escape of one to three octal digits.
fn octal(bytes: &[u8]) -> Option<Escape>
    ensures is { result ≡ octal_of bytes.now }
    ensures within { IfSome result (λ e. (0 < e.len) × (e.len ≤ length bytes.now)) }
{
    let (len, number) = number_at(8, 3, bytes);
    if len == 0 {
        return None;
    }
    let meant = Meant::Byte((number % 256) as u8);
    Some(Escape { len, meant })
}

/// The second half of a pair of surrogates, where the bytes begin with one as `\u` and four digits.
fn low_at(bytes: &[u8]) -> Option<u32>
    ensures is { result ≡ low_at bytes.now }
    ensures within { IfSome result (λ n. (6 ≤ length bytes.now) × (56320 ≤ n) × (n < 57344)) }
{
    if bytes.len() < 2 {
        return None;
    }
    if bytes[0] != b'\\' || bytes[1] != b'u' {
        return None;
    }
    let (len, number) = number_at(16, 4, &bytes[2..]);
    if len == 4 && 0xdc00 <= number && number < 0xe000 {
        Some(number)
    } else {
        None
    }
}

/// The character of two surrogates.
fn surrogates(high: u32, low: u32) -> u32
    requires high { (55296 ≤ high) × (high < 56320) }
    requires low { (56320 ≤ low) × (low < 57344) }
    ensures { result ≡ surrogates high low }
{
    0x10000 + (high - 0xd800) * 0x400 + (low - 0xdc00)
}

/// The escape of a pair of surrogates, of which the first is given with its length, and the bytes after it.
fn pair(len: usize, high: u32, rest: &[u8]) -> Option<Escape>
    requires { len ≤ 9 }
    ensures is { result ≡ pair_of len high rest.now }
    ensures within { IfSome result (λ e. (0 < e.len) × (e.len ≤ len + length rest.now)) }
{
    if high < 0xd800 || 0xdbff < high {
        return None;
    }
    let low = low_at(rest)?;
    let meant = Meant::Character(surrogates(high, low));
    Some(Escape {
        len: len + 6,
        meant,
    })
}

/// The escape of this many hexadecimal digits after `\u` or `\U`, or of a pair of surrogates.
fn unicode(digits: usize, after: &[u8]) -> Option<Escape>
    requires { digits ≤ 8 }
    ensures is { result ≡ unicode_of digits after.now }
    ensures within { IfSome result (λ e. (0 < e.len) × (e.len ≤ 1 + length after.now)) }
{
    let (len, number) = number_at(16, digits, after);
    if len != digits {
        return None;
    }
    if is_scalar(number) {
        let meant = Meant::Character(number);
        return Some(Escape {
            len: 1 + digits,
            meant,
        });
    }
    pair(1 + digits, number, &after[digits..])
}

/// The escape that the bytes after a `\` begin with.
pub(crate) fn escape_of(bytes: &[u8]) -> Option<Escape>
    ensures is { result ≡ escape_of bytes.now }
    ensures within { IfSome result (λ e. (0 < e.len) × (e.len ≤ length bytes.now)) }
{
    if bytes.is_empty() {
        return None;
    }
    let byte = bytes[0];
    let after = &bytes[1..];
    if let Some(meant) = short_escape(byte) {
        return Some(Escape {
            len: 1,
            meant: Meant::Byte(meant),
        });
    }
    match byte {
        b'x' => hexadecimal(after),
        b'u' => unicode(4, after),
        b'U' => unicode(8, after),
        _ => octal(bytes),
    }
}
