//! What names fields.

ghost use Rattle.std.specs.Prelude.{◌≡◌, ◌<◌, ◌≤◌, ◌+◌, ◌++◌, ◌∷◌, length, IfOk, OnOk};
ghost use Rattle.pb_text_tree.specs.Grammar.{AfterDomain, Bracketed, Dotted, MarkName, MoreWords, NameAt, closed, number_name, word_at};
ghost use Rattle.pb_text_tree.specs.Seen.{text_of};
ghost use Rattle.pb_text_tree.specs.Steps.{Answers};
ghost use Rattle.pb_text_tree.specs.View.{name_view};

use crate::fault::SyntaxFault;
use crate::source::{Next, Source};
use crate::value::TextName;
use pb_text_tokens::TokenKind;
use std::alloc::AllocError;

/// Appends a point and a word.
fn push_word(into: &mut Vec<u8>, word: &[u8]) -> Result<(), AllocError>
    ensures { OnOk result (into.new.items ≡ into.old.items ++ 46 ∷ word.now) }
{
    into.push(b'.')?;
    into.extend_from_slice(word)?;
    Ok(())
}

impl<'a> Source<'_, 'a> {
    /// The word at an index, and the index after it.
    fn word(&self, at: usize) -> Result<(&'a [u8], usize), SyntaxFault>
        ensures read { Answers (λ w. w.now) (λ r. r ≡ word_at (text_of self.now) at) result }
        ensures within { IfOk result (λ r. (at < r.1) × (r.1 ≤ length self.now.tokens.now)) }
    {
        match self.next(at) {
            Next::Word(word) => Ok((word, at + 1)),
            _ => Err(self.unexpected(at)),
        }
    }

    /// A name, and the words after points that go on it.
    fn more_words(&self, mut name: Vec<u8>, from: usize) -> Result<(Vec<u8>, usize), SyntaxFault>
        requires { from ≤ length self.now.tokens.now }
        ensures read { Answers (λ v. v.items) (MoreWords
            (text_of self.now) name.items from) result }
        ensures within { IfOk result (λ r. (from ≤ r.1) × (r.1 ≤ length self.now.tokens.now)) }
    {
        let mut at = from;
        'words: while self.is_mark(b'.', at) {
            let (word, after) = self.word(at + 1)?;
            push_word(&mut name, word)?;
            at = after;
        }
        Ok((name, at))
    }

    /// Words with points between, joined.
    fn dotted(&self, at: usize) -> Result<(Vec<u8>, usize), SyntaxFault>
        ensures read { Answers (λ v. v.items) (Dotted (text_of self.now) at) result }
        ensures within { IfOk result (λ r. (at < r.1) × (r.1 ≤ length self.now.tokens.now)) }
    {
        let (first, after) = self.word(at)?;
        let mut name = Vec::new(self.alloc);
        name.extend_from_slice(first)?;
        self.more_words(name, after)
    }

    /// A name, after whose last word there is a closing bracket.
    fn closed(&self, name: TextName<'a>, at: usize) -> Result<(TextName<'a>, usize), SyntaxFault>
        ensures read { Answers name_view (λ r. r ≡ closed (text_of self.now)
            (name_view name.entry) at) result }
        ensures within { IfOk result (λ r. (at < r.1) × (r.1 ≤ length self.now.tokens.now)) }
    {
        if self.is_mark(b']', at) {
            Ok((name, at + 1))
        } else {
            Err(self.unexpected(at))
        }
    }

    /// The name of an Any's message, from the slash after its domain on.
    fn after_domain(&self, domain: Vec<u8>, at: usize) -> Result<(TextName<'a>, usize), SyntaxFault>
        requires { at < length self.now.tokens.now }
        ensures read { Answers name_view (AfterDomain (text_of self.now) domain.items at) result }
        ensures within { IfOk result (λ r. (at < r.1) × (r.1 ≤ length self.now.tokens.now)) }
    {
        let (message, close) = self.dotted(at + 1)?;
        self.closed(TextName::Any { domain, message }, close)
    }

    /// A name in brackets.
    fn bracketed(&self, at: usize) -> Result<(TextName<'a>, usize), SyntaxFault>
        requires { at < length self.now.tokens.now }
        ensures read { Answers name_view (Bracketed (text_of self.now) at) result }
        ensures within { IfOk result (λ r. (at < r.1) × (r.1 ≤ length self.now.tokens.now)) }
    {
        let (name, close) = self.dotted(at + 1)?;
        if self.is_mark(b'/', close) {
            return self.after_domain(name, close);
        }
        self.closed(TextName::Extension(name), close)
    }

    /// The number that names a field.
    fn number_name(
        &self,
        kind: TokenKind,
        text: &'a [u8],
        at: usize,
    ) -> Result<(TextName<'a>, usize), SyntaxFault>
        requires { at < length self.now.tokens.now }
        ensures read { Answers name_view (λ r. r ≡ number_name
            (text_of self.now) at kind text.now) result }
        ensures within { IfOk result (λ r. (at < r.1) × (r.1 ≤ length self.now.tokens.now)) }
    {
        match kind {
            TokenKind::Decimal => Ok((TextName::Number(text), at + 1)),
            _ => Err(self.unexpected(at)),
        }
    }

    /// The name that begins with a mark.
    fn mark_name(&self, mark: u8, at: usize) -> Result<(TextName<'a>, usize), SyntaxFault>
        requires { at < length self.now.tokens.now }
        ensures read { Answers name_view (MarkName (text_of self.now) at mark) result }
        ensures within { IfOk result (λ r. (at < r.1) × (r.1 ≤ length self.now.tokens.now)) }
    {
        if mark == b'[' {
            return self.bracketed(at);
        }
        Err(self.unexpected(at))
    }

    /// What names the field that begins at an index, and the index after it.
    pub(crate) fn name(&self, at: usize) -> Result<(TextName<'a>, usize), SyntaxFault>
        ensures read { Answers name_view (NameAt (text_of self.now) at) result }
        ensures within { IfOk result (λ r. (at < r.1) × (r.1 ≤ length self.now.tokens.now)) }
    {
        match self.next(at) {
            Next::Word(word) => Ok((TextName::Word(word), at + 1)),
            Next::Number(kind, text) => self.number_name(kind, text, at),
            Next::Mark(mark) => self.mark_name(mark, at),
            Next::Quoted(_) => Err(self.unexpected(at)),
            Next::End => Err(self.unexpected(at)),
        }
    }
}
