//! Integers.

ghost use Rattle.std.specs.Prelude.{◌≡◌, ◌≤◌, ◌<◌, ◌^◌, min, length, IfOk, option_map, pos, neg_ℤ, ◌*◌, ◌+◌};
ghost use Rattle.pb_source_tokens.specs.SymbolView.{symbol_of};
ghost use Rattle.pb_source_tokens.specs.Integers.{integer_of};
ghost use Rattle.pb_source_tokens.specs.Readers.Forms.{mapped, symbol, plain};
ghost use Rattle.pb_source_tokens.specs.Readers.Phrases.{integer_in, limited_reader, counted_reader, signed_reader};
ghost use Rattle.pb_source_tokens.specs.Digits.{digits_of, capped};
ghost use Rattle.pb_source_tokens.specs.Readers.Given.{Reads};

use crate::parsing::single::{begins_with_mark, mark, symbol_at};
use crate::refusal::Refusal;
use crate::rule::Rule;
use crate::symbol::{Placed, Symbol};
use crate::text::digit_of;

/// The number for each integer that is above the greatest u32.
const TOO_LARGE: u64 = 1 << 32;

/// The number of these digits, at most `TOO_LARGE`.
pub(crate) fn digits(base: u32, bytes: &[u8]) -> Option<u64>
    requires two { 2 ≤ base }
    requires base { base ≤ 16 }
    ensures { result ≡ option_map capped (digits_of base bytes.now) }
{
    let mut value = 0;
    for &byte in bytes {
        let Some(digit) = digit_of(base, byte) else {
            return None;
        };
        value = next_value(base, value, digit);
    }
    Some(value)
}

/// A number with a digit after it, at most `TOO_LARGE`.
fn next_value(base: u32, value: u64, digit: u32) -> u64
    requires two { 2 ≤ base }
    requires base { base ≤ 16 }
    requires value { value ≤ 2 ^ 32 }
    ensures { result ≡ min (value * base + digit) (2 ^ 32) }
{
    let next = value * u64::from(base) + u64::from(digit);
    if next < TOO_LARGE { next } else { TOO_LARGE }
}

/// The integer that a number word spells, at most `TOO_LARGE`.
pub(crate) fn integer_of(word: &[u8]) -> Option<u64>
    ensures { result ≡ option_map capped (integer_of word.now) }
{
    if word.is_empty() {
        return None;
    }
    if word.len() == 1 || word[0] != b'0' {
        return digits(10, word);
    }
    if word[1] != b'x' && word[1] != b'X' {
        return digits(8, &word[1..]);
    }
    if word.len() == 2 {
        return None;
    }
    digits(16, &word[2..])
}

/// The integer that a symbol spells, at most `TOO_LARGE`.
fn integer_in(symbol: &Symbol) -> Option<u64>
    ensures { result ≡ option_map capped (integer_in (symbol_of symbol.now)) }
{
    match symbol {
        Symbol::Number(word) => integer_of(word.as_bytes()),
        _ => None,
    }
}

/// Reads an integer.
#[tactic(auto, using(crate::proofs::NumberSteps::integer_refused, crate::proofs::NumberSteps::integer_read))]
pub(crate) fn integer(symbols: &[Placed], at: usize) -> Result<usize, Refusal>
    ensures within { IfOk result (λ after. (at < after) × (after ≤ length symbols.now)) }
    ensures read { Reads symbols.now at (λ after. (tt, after)) result (mapped {B = Unit {0}} (λ _. tt) (symbol (plain integer_in))) }
{
    let Some(first) = symbol_at(symbols, at) else {
        return Err(Refusal::At { at, rule: None });
    };
    match integer_in(&first.symbol) {
        Some(_) => Ok(at + 1),
        None => Err(Refusal::At { at, rule: None }),
    }
}

/// Reads an integer up to a limit.
#[tactic(auto, using(crate::proofs::NumberSteps::limited_refused, crate::proofs::NumberSteps::limited_above, crate::proofs::NumberSteps::limited_read))]
fn limited(limit: u32, symbols: &[Placed], at: usize) -> Result<(u32, usize), Refusal>
    ensures within { IfOk result (λ x. (at < x.1) × (x.1 ≤ length symbols.now)) }
    ensures bound { IfOk result (λ x. x.0 ≤ limit) }
    ensures read { Reads symbols.now at (λ x. x) result (limited_reader limit) }
{
    let Some(first) = symbol_at(symbols, at) else {
        return Err(Refusal::At { at, rule: None });
    };
    let Some(number) = integer_in(&first.symbol) else {
        return Err(Refusal::At { at, rule: None });
    };
    if number > u64::from(limit) {
        return Err(Refusal::At {
            at,
            rule: Some(Rule::NumbersFit),
        });
    }
    Ok((number as u32, at + 1))
}

/// Reads the number of a field, or a bound of a message: up to 2147483647. Where it is above, `Rule::NumbersFit` is broken.
pub fn counted(symbols: &[Placed], at: usize) -> Result<(u32, usize), Refusal>
    ensures within { IfOk result (λ x. (at < x.1) × (x.1 ≤ length symbols.now)) }
    ensures bound { IfOk result (λ x. x.0 ≤ 2147483647) }
    ensures read { Reads symbols.now at (λ x. x) result counted_reader }
{
    let (number, after) = limited(2147483647, symbols, at)?;
    Ok((number, after))
}

/// Reads the number of an enum's value, or a bound of an enum, which may have a `-` before it. Where it does not fit 32 bits, `Rule::NumbersFit`
/// is broken.
#[tactic(auto, unfolding(crate::specs::Readers::Phrases::signed_reader))]
pub fn signed(symbols: &[Placed], at: usize) -> Result<(i32, usize), Refusal>
    ensures within { IfOk result (λ x. (at < x.1) × (x.1 ≤ length symbols.now)) }
    ensures read { Reads symbols.now at (λ x. x) result signed_reader }
{
    if begins_with_mark("-", symbols, at) {
        let after = mark("-", symbols, at)?;
        let (number, after) = limited(2147483648, symbols, after)?;
        return Ok((negated(number), after));
    }
    let (number, after) = counted(symbols, at)?;
    Ok((number as i32, after))
}

/// The negative of a number.
fn negated(number: u32) -> i32
    requires { number ≤ 2147483648 }
    ensures { result ≡ neg_ℤ (pos number) }
{
    (-i64::from(number)) as i32
}
