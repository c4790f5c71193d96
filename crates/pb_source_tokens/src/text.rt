//! Texts and their escapes (Protocol Buffers Language Specification (Proto3), "String literals").

ghost use Rattle.std.specs.Prelude.{◌≡◌, ◌≤◌, ◌<◌, length};
ghost use Rattle.pb_source_tokens.specs.Tokens.{is_plain, is_closed, short_escape};
ghost use Rattle.pb_source_tokens.specs.Texts.{digit_of, number_from, is_scalar, escape_len, units_len};

/// What a digit of a base counts.
pub(crate) fn digit_of(base: u32, byte: u8) -> Option<u32>
    requires two { 2 ≤ base }
    requires base { base ≤ 16 }
    ensures { result ≡ digit_of base byte }
{
    char::from(byte).to_digit(base)
}

/// How many digits the bytes begin with, at most this many, and their number.
pub(crate) fn number_at(base: u32, limit: usize, bytes: &[u8]) -> (usize, u32)
    requires two { 2 ≤ base }
    requires base { base ≤ 16 }
    requires limit { limit ≤ 8 }
    ensures { result ≡ number_from base 0 limit bytes.now }
{
    let mut value = 0;
    for i in 0..limit {
        if i >= bytes.len() {
            return (i, value);
        }
        match digit_of(base, bytes[i]) {
            Some(digit) => {
                value = value * base + digit;
            }
            None => {
                return (i, value);
            }
        }
    }
    (limit, value)
}

/// Whether the number is a Unicode scalar value.
fn is_scalar(number: u32) -> bool
    ensures { result ≡ is_scalar number }
{
    number < 0xd800 || (0xdfff < number && number < 0x110000)
}

/// What the byte means after a `\`, where it is an escape alone.
pub(crate) fn short_escape(byte: u8) -> Option<u8>
    ensures { result ≡ short_escape byte }
{
    match byte {
        b'a' => Some(7),
        b'b' => Some(8),
        b'f' => Some(12),
        b'n' => Some(10),
        b'r' => Some(13),
        b't' => Some(9),
        b'v' => Some(11),
        b'\\' | b'\'' | b'"' | b'?' => Some(byte),
        _ => None,
    }
}

/// How many bytes after a `\` make an escape with it; 0 where there is none.
pub(crate) fn escape_len(bytes: &[u8]) -> usize
    ensures is { result ≡ escape_len bytes.now }
    ensures within { result ≤ length bytes.now }
{
    if bytes.is_empty() {
        return 0;
    }
    let byte = bytes[0];
    let after = &bytes[1..];
    if short_escape(byte).is_some() {
        return 1;
    }
    if byte == b'x' || byte == b'X' {
        let (len, _) = number_at(16, 2, after);
        return if len == 0 { 0 } else { len + 1 };
    }
    if byte == b'u' {
        let (len, number) = number_at(16, 4, after);
        return if len == 4 && is_scalar(number) { 5 } else { 0 };
    }
    if byte == b'U' {
        let (len, number) = number_at(16, 8, after);
        return if len == 8 && is_scalar(number) { 9 } else { 0 };
    }
    let (len, _) = number_at(8, 3, bytes);
    len
}

/// Whether the byte means itself in a string with this quote.
pub(crate) fn is_plain(quote: u8, byte: u8) -> bool
    ensures { result ≡ is_plain quote byte }
{
    !(byte == quote || byte == b'\\' || byte == b'\n' || byte == 0)
}

/// How many bytes at the front are whole units of a text with this quote.
pub(crate) fn units_len(quote: u8, bytes: &[u8]) -> usize
    ensures is { result ≡ units_len quote bytes.now }
    ensures within { result ≤ length bytes.now }
{
    let mut at = 0;
    while at < bytes.len() {
        if is_plain(quote, bytes[at]) {
            at += 1;
            continue;
        }
        if bytes[at] != b'\\' {
            return at;
        }
        let len = escape_len(&bytes[at + 1..]);
        if len == 0 {
            return at;
        }
        at += 1 + len;
    }
    at
}

/// Whether the quote comes before a line feed and the end, not counting what comes after a `\`.
pub(crate) fn is_closed(quote: u8, bytes: &[u8]) -> bool
    ensures { result ≡ is_closed quote bytes.now }
{
    let mut escaped = false;
    for &byte in bytes {
        if byte == b'\n' {
            return false;
        }
        if !escaped && byte == quote {
            return true;
        }
        escaped = !escaped && byte == b'\\';
    }
    false
}
