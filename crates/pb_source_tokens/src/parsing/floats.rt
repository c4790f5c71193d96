//! Integers and floating literals that nothing is kept of (Protocol Buffers Language Specification (Proto3), "Floating-point literals").

ghost use Rattle.std.specs.Prelude.{◌≡◌, ◌≤◌, ◌<◌, length, take, drop, codes, true, is_some, IfOk};
ghost use Rattle.std.specs.List.{list_all};
ghost use Rattle.pb_source_tokens.specs.Tokens.{Stops};
ghost use Rattle.pb_source_tokens.specs.Symbols.{number as a_number};
ghost use Rattle.pb_source_tokens.specs.SymbolView.{symbol_of};
ghost use Rattle.pb_source_tokens.specs.Integers.{integer_of};
ghost use Rattle.pb_source_tokens.specs.Floats.{is_decimal, is_decimals, after_digits, exponent_in, power_in, scaled_in, fraction_in, begun_of, begun_in};
ghost use Rattle.pb_source_tokens.specs.Readers.Forms.{symbol, plain, preceded, first_passes, mark_reader};
ghost use Rattle.pb_source_tokens.specs.Readers.Phrases.{decimals_in, sign_reader, exponent_end_reader, scaled_reader};
ghost use Rattle.pb_source_tokens.specs.Readers.Phrases.{begins_fraction, fraction_reader, begun_end_reader, numeral_reader};
ghost use Rattle.pb_source_tokens.specs.Readers.Given.{symbols_from, Reads};

use crate::parsing::numbers::{digits, integer_of};
use crate::parsing::single::{begins_with_mark, begins_with_number, mark, symbol_at};
use crate::refusal::Refusal;
use crate::symbol::{Placed, Symbol};

/// What a number word begins.
#[derive(Clone, Copy, PartialEq, Eq)]
pub(crate) enum Begun {
    /// A literal that is whole.
    Whole,
    /// A floating literal whose exponent's sign and decimals follow.
    Open,
    /// An integer, or a floating literal where a point follows.
    MayPoint,
    /// A floating literal, whose point follows.
    MustPoint,
}

/// Whether the bytes are one or more decimal digits.
fn are_decimals(bytes: &[u8]) -> bool
    ensures { result ≡ is_decimals bytes.now }
{
    !bytes.is_empty() && digits(10, bytes).is_some()
}

/// Whether the byte is a decimal digit.
fn is_decimal(byte: u8) -> bool
    ensures { result ≡ is_decimal byte }
{
    char::from(byte).is_digit(10)
}

/// How many decimal digits are at the front.
fn digits_len(bytes: &[u8]) -> usize
    ensures within { result ≤ length bytes.now }
    ensures passes { list_all is_decimal (take result bytes.now) ≡ true }
    ensures stops { Stops is_decimal (drop result bytes.now) }
{
    for i in 0..bytes.len() {
        if !is_decimal(bytes[i]) {
            return i;
        }
    }
    bytes.len()
}

/// What follows the decimal digits at the front.
fn after_digits(bytes: &[u8]) -> &[u8]
    ensures { result.now ≡ after_digits bytes.now }
{
    &bytes[digits_len(bytes)..]
}

/// Whether an exponent's sign and decimals follow the bytes, where they are an exponent or the letter of one.
fn exponent_in(bytes: &[u8]) -> Option<bool>
    ensures { result ≡ exponent_in bytes.now }
{
    if bytes.is_empty() {
        return None;
    }
    if bytes[0] != b'e' && bytes[0] != b'E' {
        return None;
    }
    if bytes.len() == 1 {
        return Some(true);
    }
    if are_decimals(&bytes[1..]) {
        return Some(false);
    }
    None
}

/// The same where decimals come before the exponent.
fn power_in(bytes: &[u8]) -> Option<bool>
    ensures { result ≡ power_in bytes.now }
{
    if bytes.is_empty() {
        return None;
    }
    if !is_decimal(bytes[0]) {
        return None;
    }
    exponent_in(after_digits(&bytes[1..]))
}

/// Whether an exponent's sign and decimals follow, where the word is decimals, with or without an exponent.
fn scaled_of(word: &[u8]) -> Option<bool>
    ensures { result ≡ scaled_in (a_number word.now) }
{
    if are_decimals(word) {
        return Some(false);
    }
    power_in(word)
}

/// What a number word begins.
fn begun_of(word: &[u8]) -> Option<Begun>
    ensures { result ≡ begun_of word.now }
{
    let is_integer = integer_of(word).is_some();
    if are_decimals(word) {
        return Some(if is_integer {
            Begun::MayPoint
        } else {
            Begun::MustPoint
        });
    }
    match power_in(word) {
        Some(true) => Some(Begun::Open),
        Some(false) => Some(Begun::Whole),
        None if is_integer => Some(Begun::Whole),
        None => None,
    }
}

/// Whether an exponent's sign and decimals follow, where the symbol is decimals, with or without an exponent.
fn scaled_in(symbol: &Symbol) -> Option<bool>
    ensures { result ≡ scaled_in (symbol_of symbol.now) }
{
    match symbol {
        Symbol::Number(word) => scaled_of(word.as_bytes()),
        _ => None,
    }
}

/// Whether an exponent's sign and decimals follow, where the symbol follows a point.
fn fraction_in(symbol: &Symbol) -> Option<bool>
    ensures { result ≡ fraction_in (symbol_of symbol.now) }
{
    match symbol {
        Symbol::Number(word) => scaled_of(word.as_bytes()),
        Symbol::Word(word) => exponent_in(word.as_bytes()),
        _ => None,
    }
}

/// What a symbol begins, if it is a number word.
fn begun_in(symbol: &Symbol) -> Option<Begun>
    ensures { result ≡ begun_in (symbol_of symbol.now) }
{
    match symbol {
        Symbol::Number(word) => begun_of(word.as_bytes()),
        _ => None,
    }
}

/// Reads decimals.
fn decimals(symbols: &[Placed], at: usize) -> Result<usize, Refusal>
    ensures within { IfOk result (λ after. (at < after) × (after ≤ length symbols.now)) }
    ensures read { Reads symbols.now at (λ after. (tt, after)) result (symbol (plain decimals_in)) }
{
    if let Some(first) = symbol_at(symbols, at) {
        if let Symbol::Number(word) = &first.symbol {
            if are_decimals(word.as_bytes()) {
                return Ok(at + 1);
            }
        }
    }
    Err(Refusal::At { at, rule: None })
}

/// Reads a `-` or a `+`.
#[tactic(auto, unfolding(crate::specs::Readers::Phrases::sign_reader))]
fn sign(symbols: &[Placed], at: usize) -> Result<usize, Refusal>
    ensures within { IfOk result (λ after. (at < after) × (after ≤ length symbols.now)) }
    ensures read { Reads symbols.now at (λ after. (tt, after)) result sign_reader }
{
    if begins_with_mark("-", symbols, at) {
        let after = mark("-", symbols, at)?;
        return Ok(after);
    }
    let after = mark("+", symbols, at)?;
    Ok(after)
}

/// Reads the sign and the decimals of an exponent, where they follow.
#[tactic(auto, unfolding(crate::specs::Readers::Phrases::exponent_end_reader))]
fn exponent_end(is_open: bool, symbols: &[Placed], at: usize) -> Result<usize, Refusal>
    requires { at ≤ length symbols.now }
    ensures within { IfOk result (λ after. (at ≤ after) × (after ≤ length symbols.now)) }
    ensures read { Reads symbols.now at (λ after. (tt, after)) result (exponent_end_reader is_open) }
{
    if is_open {
        let after = sign(symbols, at)?;
        let after = decimals(symbols, after)?;
        return Ok(after);
    }
    Ok(at)
}

/// Reads decimals, with or without an exponent.
#[tactic(auto, unfolding(crate::specs::Readers::Phrases::scaled_reader))]
fn scaled(symbols: &[Placed], at: usize) -> Result<usize, Refusal>
    ensures within { IfOk result (λ after. (at < after) × (after ≤ length symbols.now)) }
    ensures read { Reads symbols.now at (λ after. (tt, after)) result scaled_reader }
{
    let Some(first) = symbol_at(symbols, at) else {
        return Err(Refusal::At { at, rule: None });
    };
    let Some(is_open) = scaled_in(&first.symbol) else {
        return Err(Refusal::At { at, rule: None });
    };
    let after = exponent_end(is_open, symbols, at + 1)?;
    Ok(after)
}

/// Whether a word or a number word is there.
fn begins_fraction(symbols: &[Placed], at: usize) -> bool
    ensures { result ≡ first_passes begins_fraction (symbols_from symbols.now at) }
{
    match symbol_at(symbols, at) {
        Some(first) => match &first.symbol {
            Symbol::Word(_) | Symbol::Number(_) => true,
            Symbol::Text(_) | Symbol::Sign(_) => false,
        },
        None => false,
    }
}

/// Reads what follows a point: decimals and an exponent, either, or neither.
#[tactic(auto, unfolding(crate::specs::Readers::Phrases::fraction_reader))]
fn fraction(symbols: &[Placed], at: usize) -> Result<usize, Refusal>
    requires { at ≤ length symbols.now }
    ensures within { IfOk result (λ after. (at ≤ after) × (after ≤ length symbols.now)) }
    ensures read { Reads symbols.now at (λ after. (tt, after)) result fraction_reader }
{
    if !begins_fraction(symbols, at) {
        return Ok(at);
    }
    let Some(first) = symbol_at(symbols, at) else {
        return Err(Refusal::At { at, rule: None });
    };
    let Some(is_open) = fraction_in(&first.symbol) else {
        return Err(Refusal::At { at, rule: None });
    };
    let after = exponent_end(is_open, symbols, at + 1)?;
    Ok(after)
}

/// Reads the rest of what a number word begins.
#[tactic(auto, unfolding(crate::specs::Readers::Phrases::begun_end_reader))]
fn begun_end(begun: Begun, symbols: &[Placed], at: usize) -> Result<usize, Refusal>
    requires { at ≤ length symbols.now }
    ensures within { IfOk result (λ after. (at ≤ after) × (after ≤ length symbols.now)) }
    ensures read { Reads symbols.now at (λ after. (tt, after)) result (begun_end_reader begun) }
{
    match begun {
        Begun::Whole => Ok(at),
        Begun::Open => {
            let after = exponent_end(true, symbols, at)?;
            Ok(after)
        }
        Begun::MayPoint => {
            if !begins_with_mark(".", symbols, at) {
                return Ok(at);
            }
            let after = mark(".", symbols, at)?;
            let after = fraction(symbols, after)?;
            Ok(after)
        }
        Begun::MustPoint => {
            let after = mark(".", symbols, at)?;
            let after = fraction(symbols, after)?;
            Ok(after)
        }
    }
}

/// Reads an integer or a floating literal, without its sign.
#[tactic(auto, unfolding(crate::specs::Readers::Phrases::numeral_reader))]
pub(crate) fn numeral(symbols: &[Placed], at: usize) -> Result<usize, Refusal>
    ensures within { IfOk result (λ after. (at < after) × (after ≤ length symbols.now)) }
    ensures read { Reads symbols.now at (λ after. (tt, after)) result numeral_reader }
{
    if begins_with_mark(".", symbols, at) {
        let after = mark(".", symbols, at)?;
        let after = scaled(symbols, after)?;
        return Ok(after);
    }
    let Some(first) = symbol_at(symbols, at) else {
        return Err(Refusal::At { at, rule: None });
    };
    let Some(begun) = begun_in(&first.symbol) else {
        return Err(Refusal::At { at, rule: None });
    };
    let after = begun_end(begun, symbols, at + 1)?;
    Ok(after)
}
