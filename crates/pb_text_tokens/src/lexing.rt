//! A text as tokens.

ghost use Rattle.std.specs.Prelude.{◌≡◌, ◌⊎◌, ◌<◌, ◌≤◌, ◌+◌, ℕ, List, ◌∷◌, length, drop, false, IfOk, IfErr, IsErrAnd, MatchResult};
ghost use Rattle.pb_text_tokens.specs.Fault.{out_of_memory};
ghost use Rattle.pb_text_tokens.specs.Numbers.{number_rest};
ghost use Rattle.pb_text_tokens.specs.Tokens.{AreTokens, Begins, HasFault, IsPieceOf, IsQuoted, PlacedToken, number_piece};
ghost use Rattle.pb_text_tokens.specs.TokenView.{tokens_of};
ghost use Rattle.pb_text_tokens.specs.declared.fault.TokenFault.{TokenFault as FaultValue};

use crate::bytes::{First, blanks_len, comment_len, first_of, word_len};
use crate::fault::{TokenCause, TokenFault};
use crate::number::{kind_of_number, number_rest};
use crate::strings::string_len;
use crate::token::{Token, TokenKind};
use std::alloc::Global;

/// What bytes begin with, and how many bytes it has.
#[derive(Clone, Copy, Debug, PartialEq, Eq)]
pub(crate) enum Piece {
    /// Blanks or a comment.
    Gap(usize),
    Token(TokenKind, usize),
}

/// Why bytes begin with no token: how far from their start the fault is, and its cause.
#[derive(Clone, Copy, Debug, PartialEq, Eq)]
pub(crate) struct PieceFault {
    pub offset: usize,
    pub cause: TokenCause,
}

/// The number that the bytes begin with.
fn number_at_start(bytes: &[u8]) -> Result<Piece, PieceFault>
    requires { 0 < length bytes.now }
    ensures is { result ≡ number_piece (1 + number_rest false (drop 1 bytes.now)) bytes.now }
    ensures within { IfOk result (λ p. IsPieceOf bytes.now p) }
    ensures bound { IfErr result (λ e. e.offset ≤ length bytes.now) }
{
    let len = 1 + number_rest(&bytes[1..]);
    match kind_of_number(&bytes[..len]) {
        Some(kind) => Ok(Piece::Token(kind, len)),
        None => Err(PieceFault {
            offset: 0,
            cause: TokenCause::BadNumber,
        }),
    }
}

/// The string that follows a quote, with that quote.
fn string_at_start(quote: u8, after: &[u8]) -> Result<Piece, PieceFault>
    ensures is { IsQuoted quote after.now result }
    ensures within { IfOk result (λ p. IsPieceOf (quote ∷ after.now) p) }
    ensures bound { IfErr result (λ e. e.offset ≤ 1 + length after.now) }
{
    match string_len(quote, after) {
        Ok(len) => Ok(Piece::Token(TokenKind::Quoted, 1 + len)),
        Err(fault) => Err(PieceFault {
            offset: 1 + fault.offset,
            cause: fault.cause,
        }),
    }
}

/// What the bytes begin with.
fn piece_at_start(bytes: &[u8]) -> Result<Piece, PieceFault>
    requires { 0 < length bytes.now }
    ensures is { Begins bytes.now result }
    ensures within { IfOk result (λ p. IsPieceOf bytes.now p) }
    ensures bound { IfErr result (λ e. e.offset ≤ length bytes.now) }
{
    let after = &bytes[1..];
    match first_of(bytes) {
        First::Blank => Ok(Piece::Gap(1 + blanks_len(after))),
        First::Comment => Ok(Piece::Gap(1 + comment_len(after))),
        First::Word => Ok(Piece::Token(TokenKind::Word, 1 + word_len(after))),
        First::Number => number_at_start(bytes),
        First::Quote => string_at_start(bytes[0], after),
        First::Mark => Ok(Piece::Token(TokenKind::Mark, 1)),
        First::Other => Err(PieceFault {
            offset: 0,
            cause: TokenCause::UnexpectedByte,
        }),
    }
}

/// The tokens of a text, in order, each with its slice of the text.
///
/// The fault is the first by its byte. (Text Format Language Specification, "Lexical Elements")
pub fn lex<'a>(alloc: Global, bytes: &'a [u8]) -> Result<Vec<Token<'a>>, TokenFault>
    ensures tokens { IfOk result (λ ts. AreTokens bytes.now (tokens_of ts.items)) }
    ensures fault { IfErr result (λ e. (e ≡ out_of_memory) ⊎ HasFault bytes.now e) }

    // Each list of tokens is answered and each fault is reported, unless memory runs out.
    ensures accepted { (ts : List PlacedToken) → AreTokens bytes.now ts
        → MatchResult result (λ us. tokens_of us.items ≡ ts) (λ e. e ≡ out_of_memory) }
    ensures refused { (f : FaultValue) → HasFault bytes.now f
        → IsErrAnd result (λ e. (e ≡ out_of_memory) ⊎ (e ≡ f)) }
{
    let mut tokens = Vec::new(alloc);
    let mut at = 0;
    while at < bytes.len() {
        match piece_at_start(&bytes[at..]) {
            Ok(Piece::Gap(len)) => at += len,
            Ok(Piece::Token(kind, len)) => {
                let text = &bytes[at..at + len];
                tokens.push(Token { kind, at, text })?;
                at += len;
            }
            Err(fault) => {
                return Err(TokenFault {
                    byte: at + fault.offset,
                    cause: fault.cause,
                });
            }
        }
    }
    Ok(tokens)
}
