//! Bytes between values.

ghost use Rattle.std.specs.Prelude.{◌≡◌, ◌≤◌, ◌<◌, ◌+◌, ◌-◌, ◌++◌, ℕ, List, [], length, drop, slice_index, slice_range, IfOk, IfErr, false};
ghost use Rattle.pb_json_text.specs.Json.{Json, number};
ghost use Rattle.pb_json_text.specs.Grammar.{is_blank};
ghost use Rattle.pb_json_text.specs.Loops.Machine.{Mode, Stack, run, finish, after_value, in_number, word_left};
ghost use Rattle.pb_json_text.specs.Loops.States.{Skips, IsStop};
ghost use Rattle.pb_json_text.specs.declared.number.NumberPart.TheVariants.{Start};

use crate::fault::{JsonCause, JsonFault};
use crate::number::NumberPart;

fn is_blank(byte: u8) -> bool
    ensures { result ≡ is_blank byte }
{
    byte == b' ' || byte == b'\t' || byte == b'\n' || byte == b'\r'
}

/// The first byte from here on that is no blank.
fn blanks_end(bytes: &[u8], from: usize) -> usize
    requires { from ≤ length bytes.now }
    ensures within { result ≤ length bytes.now }
    ensures passed { from ≤ result }
    ensures stops { result < length bytes.now → is_blank (slice_index bytes.now result) ≡ false }
    ensures runs { (m : Mode) → Skips m → run m from (drop from bytes.now) ≡ run m result (drop result bytes.now) }
{
    let mut at = from;
    while at < bytes.len() && is_blank(bytes[at]) {
        at += 1;
    }
    at
}

/// The next byte that is no blank, and where it is.
pub(crate) fn next_byte(bytes: &[u8], from: usize) -> Result<(u8, usize), JsonFault>
    requires { from ≤ length bytes.now }
    ensures within { IfOk result (λ r. (from ≤ r.1) × (r.1 < length bytes.now)) }
    ensures byte { IfOk result (λ r. (slice_index bytes.now r.1 ≡ r.0) × (is_blank r.0 ≡ false)) }
    ensures runs { IfOk result (λ r. (m : Mode) → Skips m → run m from (drop from bytes.now) ≡ run m r.1 (drop r.1 bytes.now)) }
    ensures fault { IfErr result (λ e. (m : Mode) → Skips m → run m from (drop from bytes.now) ≡ finish m e.byte) }
    ensures end { IfErr result (λ e. (e.byte ≡ length bytes.now) × (e.cause ≡ JsonCause.UnexpectedEnd)) }
{
    let at = blanks_end(bytes, from);
    if at == bytes.len() {
        return Err(JsonFault::end(at));
    }
    Ok((bytes[at], at))
}

/// The end of a word of which these bytes are left.
pub(crate) fn word_end(bytes: &[u8], from: usize, word: &[u8]) -> Result<usize, JsonFault>
    requires { from ≤ length bytes.now }
    ensures within { IfOk result (λ end. (from ≤ end) × (end ≤ length bytes.now)) }
    ensures ok { IfOk result (λ end. (at : ℕ) (j : Json) (l : ℕ) (k : Stack) → run (word_left word.now at j l k) from (drop from bytes.now)
        ≡ run (after_value l at j k) end (drop end bytes.now)) }
    ensures fault { IfErr result (λ e. (at : ℕ) (j : Json) (l : ℕ) (k : Stack) → IsStop e (run (word_left word.now at j l k) from (drop from bytes.now))) }
{
    let mut at = from;
    for &letter in word {
        if at == bytes.len() {
            return Err(JsonFault::end(at));
        }
        if bytes[at] != letter {
            return Err(JsonFault::unexpected(at));
        }
        at += 1;
    }
    Ok(at)
}

/// The end of the number that begins here.
pub(crate) fn number_end(bytes: &[u8], from: usize) -> Result<usize, JsonFault>
    requires { from ≤ length bytes.now }
    ensures within { IfOk result (λ end. (from < end) × (end ≤ length bytes.now)) }
    ensures ok { IfOk result (λ end. (at l : ℕ) (k : Stack) → run (in_number Start [] at l k) from (drop from bytes.now)
        ≡ run (after_value l at (number (slice_range bytes.now from end)) k) end (drop end bytes.now)) }
    ensures fault { IfErr result (λ e. (at l : ℕ) (k : Stack) → IsStop e (run (in_number Start [] at l k) from (drop from bytes.now))) }
{
    let mut part = NumberPart::Start;
    let mut at = from;
    'bytes: while at < bytes.len() {
        match part.next(bytes[at]) {
            Some(next) => {
                part = next;
                at += 1;
            }
            None if part.is_final() => return Ok(at),
            None => return Err(JsonFault::unexpected(at)),
        }
    }
    if part.is_final() {
        Ok(at)
    } else {
        Err(JsonFault::end(at))
    }
}
