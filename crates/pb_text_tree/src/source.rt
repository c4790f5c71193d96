//! The tokens of a text, one after another.

ghost use Rattle.std.specs.Prelude.{◌≡◌, ◌<◌, ◌≤◌, ◌+◌, length, true};
ghost use Rattle.pb_text_tree.specs.Grammar.{after_mark, after_separator, byte_at, closing, ends_at, mark_at, next_at, opens, unexpected};
ghost use Rattle.pb_text_tree.specs.Seen.{HasNext, IsWithin, next_view, text_of, token_view};

use crate::fault::{SyntaxCause, SyntaxFault};
use pb_text_tokens::{Token, TokenKind};
use std::alloc::Global;

/// What ends a list of fields: the end of the text, or a mark.
#[derive(Clone, Copy)]
pub(crate) enum Close {
    End,
    Mark(u8),
}

/// What the grammar sees of the next token.
#[derive(Clone, Copy)]
pub(crate) enum Next<'a> {
    Word(&'a [u8]),
    Number(TokenKind, &'a [u8]),
    Quoted(&'a [u8]),
    /// A punctuation mark, by its byte.
    Mark(u8),
    End,
}

/// The tokens of a text, and how many bytes it has.
#[derive(Clone, Copy)]
pub(crate) struct Source<'t, 'a> {
    pub alloc: Global,
    pub tokens: &'t [Token<'a>],
    pub size: usize,
}

/// What the grammar sees of a token.
fn next_of<'a>(token: Token<'a>) -> Next<'a>
    ensures { next_view result ≡ token_view token.entry }
{
    match token.kind {
        TokenKind::Word => Next::Word(token.text),
        TokenKind::Quoted => Next::Quoted(token.text),
        TokenKind::Mark => match token.text.first() {
            Some(byte) => Next::Mark(*byte),
            None => Next::Mark(0),
        },
        TokenKind::Decimal => Next::Number(TokenKind::Decimal, token.text),
        TokenKind::Octal => Next::Number(TokenKind::Octal, token.text),
        TokenKind::Hexadecimal => Next::Number(TokenKind::Hexadecimal, token.text),
        TokenKind::Floating => Next::Number(TokenKind::Floating, token.text),
    }
}

impl<'a> Source<'_, 'a> {
    /// The token at an index.
    pub(crate) fn next(&self, at: usize) -> Next<'a>
        ensures is { next_view result ≡ next_at (text_of self.now) at }
        ensures within { HasNext at (length self.now.tokens.now) result }
    {
        if at < self.tokens.len() {
            next_of(self.tokens[at])
        } else {
            Next::End
        }
    }

    /// The byte where the token at an index begins, or the text ends.
    pub(crate) fn byte_at(&self, at: usize) -> usize
        ensures { result ≡ byte_at (text_of self.now) at }
    {
        if at < self.tokens.len() {
            self.tokens[at].at
        } else {
            self.size
        }
    }

    /// Whether the token at an index is this mark.
    pub(crate) fn is_mark(&self, mark: u8, at: usize) -> bool
        ensures is { result ≡ mark_at (text_of self.now) mark at }
        ensures within { result ≡ true → at < length self.now.tokens.now }
    {
        match self.next(at) {
            Next::Mark(byte) => mark == byte,
            _ => false,
        }
    }

    /// The fault of a token with which no text goes on.
    pub(crate) fn unexpected(&self, at: usize) -> SyntaxFault
        ensures { result ≡ unexpected (text_of self.now) at }
    {
        let byte = self.byte_at(at);
        match self.next(at) {
            Next::End => SyntaxFault {
                byte,
                cause: SyntaxCause::UnexpectedEnd,
            },
            _ => SyntaxFault {
                byte,
                cause: SyntaxCause::UnexpectedToken,
            },
        }
    }

    /// Whether the token at an index opens a message.
    pub(crate) fn opens(&self, at: usize) -> bool
        ensures is { result ≡ opens (text_of self.now) at }
        ensures within { result ≡ true → at < length self.now.tokens.now }
    {
        self.is_mark(b'{', at) || self.is_mark(b'<', at)
    }

    /// The mark that closes what the token at an index opens.
    pub(crate) fn closing(&self, at: usize) -> u8
        ensures { result ≡ closing (text_of self.now) at }
    {
        if self.is_mark(b'{', at) { b'}' } else { b'>' }
    }

    /// Whether the token at an index ends a list of fields.
    pub(crate) fn ends(&self, close: Close, at: usize) -> bool
        ensures is { result ≡ ends_at (text_of self.now) close at }
        ensures within { result ≡ true → IsWithin close at (length self.now.tokens.now) }
    {
        match close {
            Close::End => matches!(self.next(at), Next::End),
            Close::Mark(mark) => self.is_mark(mark, at),
        }
    }

    /// The index after a separator, if there is one.
    pub(crate) fn after_separator(&self, at: usize) -> usize
        requires { at ≤ length self.now.tokens.now }
        ensures is { result ≡ after_separator (text_of self.now) at }
        ensures more { at ≤ result }
        ensures within { result ≤ length self.now.tokens.now }
    {
        if self.is_mark(b',', at) || self.is_mark(b';', at) {
            at + 1
        } else {
            at
        }
    }

    /// The index after a mark, if there is this one.
    pub(crate) fn after_mark(&self, mark: u8, at: usize) -> usize
        ensures is { result ≡ after_mark (text_of self.now) mark at }
        ensures more { at ≤ result }
    {
        if self.is_mark(mark, at) { at + 1 } else { at }
    }
}
