//! Tokens as the symbols of the grammar, for the parser of `pb_source`.

ghost use Rattle.std.specs.Prelude.{◌≡◌, ◌<◌, ◌≤◌, ◌⊎◌, ℕ, List, ◌∷◌, length, take, drop, All, IfOk, IfErr, IsErrAnd, MatchResult};
ghost use Rattle.pb_source_tokens.specs.Tokens.{LexFault};
ghost use Rattle.pb_source_tokens.specs.TokenView.{tokens_of};
ghost use Rattle.pb_source_tokens.specs.Symbols.{PlacedSymbol, Joined, BeginsNoText, AreSymbols, IsMeant};
ghost use Rattle.pb_source_tokens.specs.SymbolView.{placed_of, symbols_of, HasSymbols};
ghost use Rattle.pb_source_tokens.specs.Fault.{fault, out_of_memory};
ghost use Rattle.pb_source_tokens.specs.declared.fault.SourceCause.{SourceCause};

use crate::fault::SourceFault;
use crate::lexing::lex;
use crate::meaning::push_text;
use crate::symbol::{Placed, Symbol};
use crate::token::{Token, TokenKind};
use std::alloc::{AllocError, Global};

/// The bytes that the texts at the front mean, joined, and how many these texts are.
fn texts_at_front(alloc: Global, tokens: &[Token<'_>]) -> Result<(Vec<u8>, usize), AllocError>
    requires { All IsMeant (tokens_of tokens.now) }
    ensures within { IfOk result (λ r. r.1 ≤ length tokens.now) }
    ensures joined { IfOk result (λ r. Joined (take r.1 (tokens_of tokens.now)) r.0.items) }
    ensures stops { IfOk result (λ r. BeginsNoText (drop r.1 (tokens_of tokens.now))) }
{
    let mut bytes = Vec::new(alloc);
    let mut count = 0;
    while count < tokens.len() {
        let token = &tokens[count];
        if token.kind != TokenKind::Text {
            return Ok((bytes, count));
        }
        push_text(&mut bytes, token.text)?;
        count += 1;
    }
    Ok((bytes, count))
}

/// The symbol at the front, and how many tokens it has.
fn symbol_at_front<'a>(
    alloc: Global,
    tokens: &[Token<'a>],
) -> Result<(Placed<'a>, usize), AllocError>
    requires some { 0 < length tokens.now }
    requires meant { All IsMeant (tokens_of tokens.now) }
    ensures within { IfOk result (λ r. (0 < r.1) × (r.1 ≤ length tokens.now)) }
    ensures read { IfOk result (λ r. (ss : List PlacedSymbol) → AreSymbols (drop r.1 (tokens_of tokens.now)) ss
        → AreSymbols (tokens_of tokens.now) (placed_of r.0 ∷ ss)) }
{
    let first = &tokens[0];
    let at = first.at;
    let text = first.text;
    match first.kind {
        TokenKind::Word => {
            let symbol = Symbol::Word(text);
            Ok((Placed { at, symbol }, 1))
        }
        TokenKind::Number => {
            let symbol = Symbol::Number(text);
            Ok((Placed { at, symbol }, 1))
        }
        TokenKind::Sign => {
            let symbol = Symbol::Sign(text);
            Ok((Placed { at, symbol }, 1))
        }
        TokenKind::Text => {
            let (bytes, count) = texts_at_front(alloc, tokens)?;
            let symbol = Symbol::Text(bytes);
            Ok((Placed { at, symbol }, count))
        }
    }
}

/// The symbols of tokens.
fn symbols<'a>(alloc: Global, tokens: &[Token<'a>]) -> Result<Vec<Placed<'a>>, AllocError>
    requires { All IsMeant (tokens_of tokens.now) }
    ensures { IfOk result (λ ss. AreSymbols (tokens_of tokens.now) (symbols_of ss.items)) }
{
    let mut symbols = Vec::new(alloc);
    let mut at = 0;
    while at < tokens.len() {
        let (symbol, count) = symbol_at_front(alloc, &tokens[at..])?;
        symbols.push(symbol)?;
        at += count;
    }
    Ok(symbols)
}

/// The symbols of a source, in order: its tokens, of which texts that follow one another are one symbol.
///
/// The fault is that of a source that has no tokens, as `lex` reports it, or `Memory`.
pub fn source_symbols<'a>(alloc: Global, source: &'a str) -> Result<Vec<Placed<'a>>, SourceFault>
    ensures symbols { IfOk result (λ ss. HasSymbols source.now (symbols_of ss.items)) }
    ensures fault { IfErr result (λ e. (e ≡ out_of_memory) ⊎ LexFault source.now e.byte e.cause) }

    // Symbols are answered wherever a source has some, and the fault of its tokens is reported where it has one, unless memory runs out.
    ensures accepted { (ss : List PlacedSymbol) → HasSymbols source.now ss
        → MatchResult result (λ us. symbols_of us.items ≡ ss) (λ e. e ≡ out_of_memory) }
    ensures refused { (place : ℕ) (cause : SourceCause) → LexFault source.now place cause
        → IsErrAnd result (λ e. (e ≡ out_of_memory) ⊎ (e ≡ fault place cause)) }
{
    let tokens = lex(alloc, source)?;
    let symbols = symbols(alloc, &tokens)?;
    Ok(symbols)
}
