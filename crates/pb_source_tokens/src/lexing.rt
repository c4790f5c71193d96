//! A source as tokens.

ghost use Rattle.std.specs.Prelude.{◌≡◌, ◌≤◌, ◌<◌, ◌+◌, ◌⊎◌, ℕ, List, ◌∷◌, length, drop};
ghost use Rattle.std.specs.Prelude.{All, IfOk, IfErr, IfSome, IfNone, IsErrAnd, MatchResult, slice_index, true};
ghost use Rattle.pb_source_tokens.specs.Tokens.{PlacedToken, Stops, begins_comment, FaultHere, after_mark, AreTokens, LexFault, is_quote};
ghost use Rattle.pb_source_tokens.specs.TokenView.{tokens_of, IsSliceOf};
ghost use Rattle.pb_source_tokens.specs.Fault.{fault, out_of_memory};
ghost use Rattle.pb_source_tokens.specs.Lexing.{IsPiece, IsTokenAt, IsGap};
ghost use Rattle.pb_source_tokens.specs.declared.fault.SourceCause.{SourceCause};
ghost use Rattle.pb_source_tokens.specs.declared.token.TokenKind.TheVariants.{Text};

use crate::bytes::{begins_word, close_at, is_blank, is_quote, is_sign, line_len, word_len};
use crate::fault::{SourceCause, SourceFault};
use crate::text::{is_closed, units_len};
use crate::token::{Token, TokenKind};
use std::alloc::Global;

/// What bytes begin with, and how many bytes it has.
#[derive(Clone, Copy, Debug, PartialEq, Eq)]
pub(crate) enum Piece {
    /// A blank or a comment.
    Gap(usize),
    Token(TokenKind, usize),
}

/// Why bytes begin with no token: how far from their start the fault is, and its cause.
#[derive(Clone, Copy, Debug, PartialEq, Eq)]
pub(crate) struct PieceFault {
    pub offset: usize,
    pub cause: SourceCause,
}

/// How many bytes of a comment come after its slash, where the bytes after the slash make it one.
fn comment_len(after: &[u8]) -> Result<Option<usize>, PieceFault>
    ensures found { IfOk result (λ len. IfSome len (λ n. (n ≤ length after.now) × IsGap (1 + n) (47 ∷ after.now))) }
    ensures none { IfOk result (λ len. IfNone len (Stops begins_comment after.now)) }
    ensures fault { IfErr result (λ e. (x : ℕ) → FaultHere x (47 ∷ after.now) (x + e.offset) e.cause) }
    ensures bound { IfErr result (λ e. e.offset ≤ length after.now) }
{
    if after.is_empty() {
        return Ok(None);
    }
    let inside = &after[1..];
    if after[0] == b'/' {
        return Ok(Some(1 + line_len(inside)));
    }
    if after[0] != b'*' {
        return Ok(None);
    }
    match close_at(inside) {
        Some(n) => Ok(Some(n + 3)),
        None => Err(PieceFault {
            offset: 0,
            cause: SourceCause::OpenComment,
        }),
    }
}

/// What the bytes begin with.
fn piece_at_front(bytes: &[u8]) -> Result<Piece, PieceFault>
    requires { 0 < length bytes.now }
    ensures ok { IfOk result (λ p. IsPiece bytes.now p) }
    ensures fault { IfErr result (λ e. (x : ℕ) → FaultHere x bytes.now (x + e.offset) e.cause) }
    ensures bound { IfErr result (λ e. e.offset ≤ length bytes.now) }
{
    let byte = bytes[0];
    let after = &bytes[1..];
    if is_blank(byte) {
        return Ok(Piece::Gap(1));
    }
    if begins_word(byte) {
        return Ok(Piece::Token(TokenKind::Word, 1 + word_len(after)));
    }
    if byte.is_ascii_digit() {
        return Ok(Piece::Token(TokenKind::Number, 1 + word_len(after)));
    }
    if is_quote(byte) {
        return Ok(Piece::Token(TokenKind::Text, text_at_front(bytes)?));
    }
    if byte == b'/' {
        let len = comment_len(after)?;
        return Ok(match len {
            Some(len) => Piece::Gap(1 + len),
            None => Piece::Token(TokenKind::Sign, 1),
        });
    }
    if is_sign(byte) {
        return Ok(Piece::Token(TokenKind::Sign, 1));
    }
    Err(PieceFault {
        offset: 0,
        cause: SourceCause::BadToken,
    })
}

/// How many bytes the text at the front has, its quotes counted.
fn text_at_front(bytes: &[u8]) -> Result<usize, PieceFault>
    requires some { 0 < length bytes.now }
    requires quote { is_quote (slice_index bytes.now 0) ≡ true }
    ensures ok { IfOk result (λ n. (0 < n) × (n ≤ length bytes.now) × IsTokenAt Text n bytes.now) }
    ensures fault { IfErr result (λ e. (x : ℕ) → FaultHere x bytes.now (x + e.offset) e.cause) }
    ensures bound { IfErr result (λ e. e.offset ≤ length bytes.now) }
{
    let quote = bytes[0];
    let inside = &bytes[1..];
    if !is_closed(quote, inside) {
        return Err(PieceFault {
            offset: 0,
            cause: SourceCause::OpenText,
        });
    }
    let len = units_len(quote, inside);
    if inside[len] == quote {
        return Ok(len + 2);
    }
    Err(PieceFault {
        offset: 1 + len,
        cause: SourceCause::BadToken,
    })
}

/// How many bytes the byte order mark has that leads the bytes.
fn mark_len(bytes: &[u8]) -> usize
    ensures within { result ≤ length bytes.now }
    ensures place { (after_mark bytes.now).0 ≡ result }
    ensures rest { (after_mark bytes.now).1 ≡ drop result bytes.now }
{
    if bytes.len() >= 3 && bytes[0] == 0xef && bytes[1] == 0xbb && bytes[2] == 0xbf {
        3
    } else {
        0
    }
}

/// The tokens of a source of proto3, in order, each with its slice of the source.
///
/// The fault is the first by its byte: `BadToken`, `OpenComment`, `OpenText`, or `Memory`. (Protocol Buffers Language Specification (Proto3),
/// "Lexical Elements")
pub fn lex<'a>(alloc: Global, source: &'a str) -> Result<Vec<Token<'a>>, SourceFault>
    ensures tokens { IfOk result (λ ts. AreTokens source.now (tokens_of ts.items)) }
    ensures fault { IfErr result (λ e. (e ≡ out_of_memory) ⊎ LexFault source.now e.byte e.cause) }

    // Each list of tokens is answered and each fault is reported, unless memory runs out.
    ensures accepted { (ts : List PlacedToken) → AreTokens source.now ts
        → MatchResult result (λ us. tokens_of us.items ≡ ts) (λ e. e ≡ out_of_memory) }
    ensures refused { (place : ℕ) (cause : SourceCause) → LexFault source.now place cause
        → IsErrAnd result (λ e. (e ≡ out_of_memory) ⊎ (e ≡ fault place cause)) }

    ensures slices { IfOk result (λ ts. All (IsSliceOf source.now) ts.items) }
{
    let bytes = source.as_bytes();
    let mut tokens = Vec::new(alloc);
    let mut at = mark_len(bytes);
    while at < bytes.len() {
        match piece_at_front(&bytes[at..]) {
            Ok(Piece::Gap(n)) => at += n,
            Ok(Piece::Token(kind, n)) => {
                let text = &source[at..at + n];
                tokens.push(Token {
                    kind,
                    at: at as u64,
                    text,
                })?;
                at += n;
            }
            Err(fault) => {
                return Err(SourceFault {
                    byte: (at + fault.offset) as u64,
                    cause: fault.cause,
                });
            }
        }
    }
    Ok(tokens)
}
