//! Strings (RFC 8259, section 7).

ghost use Rattle.std.specs.Prelude.{◌≡◌, ◌≤◌, ◌<◌, ◌+◌, ◌++◌, ℕ, List, [], length, drop, slice_index, slice_range, string_bytes, IfOk, IfErr, false};
ghost use Rattle.std.specs.Str.{IsCharBoundary};
ghost use Rattle.pb_json_text.specs.Loops.Machine.{Stack, text, Target, run, in_string, named};
ghost use Rattle.pb_json_text.specs.Loops.States.{IsStop, is_plain};

use crate::escape::escape;
use crate::fault::JsonFault;
use std::alloc::Global;

/// Whether the byte is a character, or a part of one, that is itself.
fn is_plain(byte: u8) -> bool
    ensures { result ≡ is_plain byte }
{
    byte != b'"' && byte != b'\\' && byte >= 0x20
}

/// The first byte from here on that is not itself.
fn plain_end(bytes: &[u8], from: usize) -> usize
    requires { from ≤ length bytes.now }
    ensures within { (from ≤ result) × (result ≤ length bytes.now) }
    ensures stops { result < length bytes.now → is_plain (slice_index bytes.now result) ≡ false }
    ensures runs { (s : List ℕ) (at : ℕ) (t : Target) (l : ℕ) (k : Stack) → run (in_string text s at t l k) from (drop from bytes.now)
        ≡ run (in_string text (s ++ slice_range bytes.now from result) at t l k) result (drop result bytes.now) }
{
    let mut at = from;
    while at < bytes.len() && is_plain(bytes[at]) {
        at += 1;
    }
    at
}

/// The characters of a string up to its closing quotation mark, and where it ends; the opening one is before this place.
pub(crate) fn string(alloc: Global, input: &str, from: usize) -> Result<(String, usize), JsonFault>
    requires within { from ≤ length input.now }
    requires boundary { IsCharBoundary input.now from }
    ensures within { IfOk result (λ r. (from < r.1) × (r.1 ≤ length input.now)) }
    ensures ok { IfOk result (λ r. (at : ℕ) (t : Target) (l : ℕ) (k : Stack) → run (in_string text [] at t l k) from (drop from input.now)
        ≡ run (named t (string_bytes r.0) at l k) r.1 (drop r.1 input.now)) }
    ensures fault { IfErr result (λ e. (at : ℕ) (t : Target) (l : ℕ) (k : Stack) → IsStop e (run (in_string text [] at t l k) from (drop from input.now))) }
{
    let bytes = input.as_bytes();
    let mut characters = String::new(alloc);
    let mut at = from;
    'runs: loop {
        let end = plain_end(bytes, at);
        characters.push_str(&input[at..end])?;
        if end == bytes.len() {
            return Err(JsonFault::end(end));
        }
        if bytes[end] == b'"' {
            return Ok((characters, end + 1));
        }
        if bytes[end] != b'\\' {
            return Err(JsonFault::unexpected(end));
        }
        let (character, next) = escape(bytes, end + 1)?;
        characters.push(character)?;
        at = next;
    }
}
