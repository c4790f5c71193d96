//! Single symbols.

ghost use Rattle.std.specs.Prelude.{◌≡◌, ◌≤◌, ◌<◌, ◌+◌, [], ◌∷◌, length, IfOk, IfSome, IfNone, true, false};
ghost use Rattle.std.specs.Str.{is_utf8};
ghost use Rattle.pb_source_tokens.specs.SymbolView.{symbol_of};
ghost use Rattle.pb_source_tokens.specs.Readers.Forms.{first_passes, is_keyword, is_mark, tested, keyword_reader, mark_reader};
ghost use Rattle.pb_source_tokens.specs.Readers.Phrases.{is_text, is_word, is_number, name_reader, utf8_reader};
ghost use Rattle.pb_source_tokens.specs.Readers.Given.{symbols_from, Reads};

use crate::refusal::Refusal;
use crate::rule::Rule;
use crate::symbol::{Placed, Symbol, is_keyword, is_mark, is_number, is_text, is_word};

/// The symbol at an index; None where it is after the last.
pub fn symbol_at<'t, 'a>(symbols: &'t [Placed<'a>], at: usize) -> Option<&'t Placed<'a>>
    ensures found { IfSome result (λ p. (at < length symbols.now)
        × (symbols_from symbols.now at ≡ symbol_of p.now.symbol ∷ symbols_from symbols.now (at + 1))) }
    ensures none { IfNone result (symbols_from symbols.now at ≡ []) }
{
    symbols.get(at)
}

/// Whether there is a symbol at the index, and it is this word.
pub fn begins_with(word: &str, symbols: &[Placed], at: usize) -> bool
    ensures { result ≡ first_passes (is_keyword word.now) (symbols_from symbols.now at) }
{
    match symbol_at(symbols, at) {
        Some(first) => is_keyword(&first.symbol, word),
        None => false,
    }
}

/// Whether there is a symbol at the index, and it is this sign.
pub fn begins_with_mark(sign: &str, symbols: &[Placed], at: usize) -> bool
    ensures { result ≡ first_passes (is_mark sign.now) (symbols_from symbols.now at) }
{
    match symbol_at(symbols, at) {
        Some(first) => is_mark(&first.symbol, sign),
        None => false,
    }
}

/// Whether there is a symbol at the index, and it is a string.
pub fn begins_with_text(symbols: &[Placed], at: usize) -> bool
    ensures { result ≡ first_passes is_text (symbols_from symbols.now at) }
{
    match symbol_at(symbols, at) {
        Some(first) => is_text(&first.symbol),
        None => false,
    }
}

/// Whether the symbol at the index is a word.
pub(crate) fn begins_with_word(symbols: &[Placed], at: usize) -> bool
    ensures { result ≡ first_passes is_word (symbols_from symbols.now at) }
{
    match symbol_at(symbols, at) {
        Some(first) => is_word(&first.symbol),
        None => false,
    }
}

/// Whether the symbol at the index is a number word.
pub(crate) fn begins_with_number(symbols: &[Placed], at: usize) -> bool
    ensures { result ≡ first_passes is_number (symbols_from symbols.now at) }
{
    match symbol_at(symbols, at) {
        Some(first) => is_number(&first.symbol),
        None => false,
    }
}

/// Reads this word, and gives the index after it.
pub fn keyword(word: &str, symbols: &[Placed], at: usize) -> Result<usize, Refusal>
    ensures within { IfOk result (λ after. (at < after) × (after ≤ length symbols.now)) }
    ensures read { Reads symbols.now at (λ after. (tt, after)) result (keyword_reader word.now) }
{
    if let Some(first) = symbol_at(symbols, at) {
        if is_keyword(&first.symbol, word) {
            return Ok(at + 1);
        }
    }
    Err(Refusal::At { at, rule: None })
}

/// Reads this sign, and gives the index after it.
pub fn mark(sign: &str, symbols: &[Placed], at: usize) -> Result<usize, Refusal>
    ensures within { IfOk result (λ after. (at < after) × (after ≤ length symbols.now)) }
    ensures read { Reads symbols.now at (λ after. (tt, after)) result (mark_reader sign.now) }
{
    if let Some(first) = symbol_at(symbols, at) {
        if is_mark(&first.symbol, sign) {
            return Ok(at + 1);
        }
    }
    Err(Refusal::At { at, rule: None })
}

/// Reads a text.
pub(crate) fn text(symbols: &[Placed], at: usize) -> Result<usize, Refusal>
    ensures within { IfOk result (λ after. (at < after) × (after ≤ length symbols.now)) }
    ensures read { Reads symbols.now at (λ after. (tt, after)) result (tested is_text) }
{
    if let Some(first) = symbol_at(symbols, at) {
        if is_text(&first.symbol) {
            return Ok(at + 1);
        }
    }
    Err(Refusal::At { at, rule: None })
}

/// Reads a name: any word.
#[tactic(auto, unfolding(crate::specs::Readers::Phrases::name_reader))]
pub fn name<'a>(symbols: &[Placed<'a>], at: usize) -> Result<(&'a str, usize), Refusal>
    ensures within { IfOk result (λ x. (at < x.1) × (x.1 ≤ length symbols.now)) }
    ensures read { Reads symbols.now at (λ x. (x.0.now, x.1)) result name_reader }
{
    if let Some(first) = symbol_at(symbols, at) {
        if let Symbol::Word(word) = &first.symbol {
            return Ok((word, at + 1));
        }
    }
    Err(Refusal::At { at, rule: None })
}

/// The bytes as text, where they are UTF-8.
fn utf8_of(bytes: &[u8]) -> Option<&str>
    ensures some { IfSome result (λ t. (t.now ≡ bytes.now) × (is_utf8 bytes.now ≡ true)) }
    ensures none { IfNone result (is_utf8 bytes.now ≡ false) }
{
    match simdutf8::compat::from_utf8(bytes) {
        Ok(text) => Some(text),
        Err(_) => None,
    }
}

/// Reads a text that is UTF-8, and gives what it means. Where it is no UTF-8, `Rule::TextsValid` is broken.
#[tactic(auto, unfolding(crate::specs::Readers::Phrases::utf8_reader))]
pub fn utf8_text<'t>(symbols: &'t [Placed], at: usize) -> Result<(&'t str, usize), Refusal>
    ensures within { IfOk result (λ x. (at < x.1) × (x.1 ≤ length symbols.now)) }
    ensures read { Reads symbols.now at (λ x. (x.0.now, x.1)) result utf8_reader }
{
    if let Some(first) = symbol_at(symbols, at) {
        if let Symbol::Text(bytes) = &first.symbol {
            return match utf8_of(bytes) {
                Some(text) => Ok((text, at + 1)),
                None => Err(Refusal::At {
                    at,
                    rule: Some(Rule::TextsValid),
                }),
            };
        }
    }
    Err(Refusal::At { at, rule: None })
}
