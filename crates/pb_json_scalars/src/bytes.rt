//! Bytes as base64.

ghost use Rattle.std.specs.Prelude.{◌≡◌, ◌+◌, ◌<◌, ◌≤◌, ◌++◌, length, drop, IfOk, IfSome, option_map};
ghost use Rattle.pb_json_scalars.specs.Base64.{base64_bytes, bytes_of, joined, of_four, of_three, of_two, padding, pads_at, symbol, without_padding};

use std::alloc::{AllocError, Global};

/// The bytes that base64 encodes (RFC 4648), in either alphabet, with its padding or with none. Bits that are left over at the end
/// are not read. Nothing where the characters are no base64.
pub fn read_base64(alloc: Global, characters: &[u8]) -> Result<Option<Vec<u8>>, AllocError>
    ensures { IfOk result (λ read. option_map (λ v. v.items) read ≡ base64_bytes characters.now) }
{
    let symbols = without_padding(characters);
    let mut bytes = Vec::with_capacity(alloc, symbols.len() / 4 * 3 + 2)?;
    let mut at = 0;
    'groups: while symbols.len() - at >= 4 {
        let Some(group) = four(
            symbols[at],
            symbols[at + 1],
            symbols[at + 2],
            symbols[at + 3],
        ) else {
            return Ok(None);
        };
        bytes.extend_from_slice(&group)?;
        at += 4;
    }
    with_last(bytes, &symbols[at..])
}

/// The bytes, and those of the last characters, of which there are fewer than four.
fn with_last(mut bytes: Vec<u8>, symbols: &[u8]) -> Result<Option<Vec<u8>>, AllocError>
    requires { length symbols.now < 4 }
    ensures { IfOk result (λ read. option_map (λ v. v.items) read ≡ option_map (λ rest. bytes.items ++ rest) (bytes_of symbols.now)) }
{
    match symbols {
        [] => Ok(Some(bytes)),
        [a, b] => {
            let Some(byte) = two(*a, *b) else {
                return Ok(None);
            };
            bytes.extend_from_slice(&byte)?;
            Ok(Some(bytes))
        }
        [a, b, c] => {
            let Some(pair) = three(*a, *b, *c) else {
                return Ok(None);
            };
            bytes.extend_from_slice(&pair)?;
            Ok(Some(bytes))
        }
        _ => Ok(None),
    }
}

fn two(a: u8, b: u8) -> Option<[u8; 1]>
    ensures { result ≡ of_two (symbol a) (symbol b) }
{
    let (a, b) = (symbol(a)?, symbol(b)?);
    Some([a * 4 + b / 16])
}

fn three(a: u8, b: u8, c: u8) -> Option<[u8; 2]>
    ensures { result ≡ of_three (symbol a) (symbol b) (symbol c) }
{
    let (a, b, c) = (symbol(a)?, symbol(b)?, symbol(c)?);
    Some([a * 4 + b / 16, b % 16 * 16 + c / 4])
}

fn four(a: u8, b: u8, c: u8, d: u8) -> Option<[u8; 3]>
    ensures { result ≡ of_four (symbol a) (symbol b) (symbol c) (symbol d) }
{
    let (a, b, c, d) = (symbol(a)?, symbol(b)?, symbol(c)?, symbol(d)?);
    Some([a * 4 + b / 16, b % 16 * 16 + c / 4, c % 4 * 64 + d])
}

/// The number of a character, which has six bits.
fn symbol(character: u8) -> Option<u8>
    ensures is { result ≡ symbol character }
    ensures six_bits { IfSome result (λ n. n < 64) }
{
    match character {
        b'A'..=b'Z' => Some(character - b'A'),
        b'a'..=b'z' => Some(character - b'a' + 26),
        b'0'..=b'9' => Some(character - b'0' + 52),
        b'+' | b'-' => Some(62),
        b'/' | b'_' => Some(63),
        _ => None,
    }
}

/// The characters before the padding.
fn without_padding(characters: &[u8]) -> &[u8]
    ensures { result.now ≡ without_padding characters.now }
{
    &characters[..characters.len() - padding(characters)]
}

/// How many characters of padding there are at the end.
fn padding(characters: &[u8]) -> usize
    ensures is { result ≡ padding characters.now }
    ensures within { result ≤ length characters.now }
{
    if characters.len() % 4 == 0 && pads_at(1, characters) {
        if pads_at(2, characters) { 2 } else { 1 }
    } else {
        0
    }
}

fn pads_at(from_end: usize, characters: &[u8]) -> bool
    ensures is { result ≡ pads_at from_end characters.now }
{
    let at = characters.len().saturating_sub(from_end);
    at < characters.len() && characters[at] == b'='
}
