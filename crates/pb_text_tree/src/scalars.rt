//! Single values that are no messages.

ghost use Rattle.std.specs.Prelude.{◌≡◌, ◌<◌, ◌≤◌, ◌++◌, ◌∷◌, [], length, map, IfOk};
ghost use Rattle.pb_text_tokens.specs.Strings.{string_meaning};
ghost use Rattle.pb_text_tree.specs.Grammar.{MarkScalar, MoreScalars, MoreStrings, NextScalar, PlacedAt, ScalarAt, ScalarsAt, plain_at};
ghost use Rattle.pb_text_tree.specs.Seen.{text_of};
ghost use Rattle.pb_text_tree.specs.Steps.{Answers};
ghost use Rattle.pb_text_tree.specs.View.{placed_view, scalar_view};

use crate::fault::SyntaxFault;
use crate::source::{Next, Source};
use crate::value::{PlacedScalar, TextScalar};
use pb_text_tokens::{TokenKind, push_string};

impl<'a> Source<'_, 'a> {
    /// What strings mean, joined with those from an index on.
    fn more_strings(
        &self,
        mut bytes: Vec<u8>,
        from: usize,
    ) -> Result<(TextScalar<'a>, usize), SyntaxFault>
        requires { from ≤ length self.now.tokens.now }
        ensures read { Answers scalar_view (MoreStrings
            (text_of self.now) bytes.items from) result }
        ensures within { IfOk result (λ r. (from ≤ r.1) × (r.1 ≤ length self.now.tokens.now)) }
    {
        let mut at = from;
        'strings: while let Next::Quoted(text) = self.next(at) {
            push_string(&mut bytes, text)?;
            at += 1;
        }
        Ok((TextScalar::Quoted(bytes), at))
    }

    /// What a string means, joined with those from an index on.
    fn strings(&self, first: &[u8], from: usize) -> Result<(TextScalar<'a>, usize), SyntaxFault>
        requires { from ≤ length self.now.tokens.now }
        ensures read { Answers scalar_view
            (MoreStrings (text_of self.now) (string_meaning first.now) from) result }
        ensures within { IfOk result (λ r. (from ≤ r.1) × (r.1 ≤ length self.now.tokens.now)) }
    {
        let mut bytes = Vec::new(self.alloc);
        push_string(&mut bytes, first)?;
        self.more_strings(bytes, from)
    }

    /// The word or the number at an index.
    fn plain(&self, is_negative: bool, at: usize) -> Result<(TextScalar<'a>, usize), SyntaxFault>
        ensures read { Answers scalar_view (λ r. r ≡ plain_at
            (text_of self.now) is_negative at) result }
        ensures within { IfOk result (λ r. (at < r.1) × (r.1 ≤ length self.now.tokens.now)) }
    {
        match self.next(at) {
            Next::Word(text) => Ok((
                TextScalar::Plain {
                    is_negative,
                    kind: TokenKind::Word,
                    text,
                },
                at + 1,
            )),
            Next::Number(kind, text) => Ok((
                TextScalar::Plain {
                    is_negative,
                    kind,
                    text,
                },
                at + 1,
            )),
            _ => Err(self.unexpected(at)),
        }
    }

    /// The single value that begins with a mark.
    fn mark_scalar(&self, mark: u8, at: usize) -> Result<(TextScalar<'a>, usize), SyntaxFault>
        requires { at < length self.now.tokens.now }
        ensures read { Answers scalar_view (MarkScalar (text_of self.now) at mark) result }
        ensures within { IfOk result (λ r. (at < r.1) × (r.1 ≤ length self.now.tokens.now)) }
    {
        if mark == b'-' {
            return self.plain(true, at + 1);
        }
        let (scalar, after) = self.plain(false, at)?;
        Ok((scalar, after))
    }

    /// The single value that begins at an index, and the index after it.
    fn scalar(&self, at: usize) -> Result<(TextScalar<'a>, usize), SyntaxFault>
        ensures read { Answers scalar_view (ScalarAt (text_of self.now) at) result }
        ensures within { IfOk result (λ r. (at < r.1) × (r.1 ≤ length self.now.tokens.now)) }
    {
        match self.next(at) {
            Next::Quoted(text) => self.strings(text, at + 1),
            Next::Mark(mark) => self.mark_scalar(mark, at),
            Next::Word(_) => self.plain(false, at),
            Next::Number(_, _) => self.plain(false, at),
            Next::End => self.plain(false, at),
        }
    }

    /// The same with the byte where it begins.
    pub(crate) fn placed(&self, at: usize) -> Result<(PlacedScalar<'a>, usize), SyntaxFault>
        ensures read { Answers placed_view (PlacedAt (text_of self.now) at) result }
        ensures within { IfOk result (λ r. (at < r.1) × (r.1 ≤ length self.now.tokens.now)) }
    {
        let (scalar, after) = self.scalar(at)?;
        let at = self.byte_at(at);
        Ok((PlacedScalar { at, scalar }, after))
    }

    /// The items of a list of single values after others, and the index after its bracket.
    fn more_scalars(
        &self,
        mut items: Vec<PlacedScalar<'a>>,
        from: usize,
    ) -> Result<(Vec<PlacedScalar<'a>>, usize), SyntaxFault>
        ensures read { Answers (λ v. map placed_view v.items)
            (MoreScalars (text_of self.now) (map placed_view items.entry.items) from) result }
        ensures within { IfOk result (λ r. (from < r.1) × (r.1 ≤ length self.now.tokens.now)) }
    {
        let mut at = from;
        'items: while !self.is_mark(b']', at) {
            let (item, after) = self.next_scalar(at)?;
            items.push(item)?;
            at = after;
        }
        Ok((items, at + 1))
    }

    /// A single value after a comma.
    fn next_scalar(&self, at: usize) -> Result<(PlacedScalar<'a>, usize), SyntaxFault>
        ensures read { Answers placed_view (NextScalar (text_of self.now) at) result }
        ensures within { IfOk result (λ r. (at < r.1) × (r.1 ≤ length self.now.tokens.now)) }
    {
        if self.is_mark(b',', at) {
            return self.placed(at + 1);
        }
        Err(self.unexpected(at))
    }

    /// The items of a list of single values from the first one on, and the index after its bracket.
    pub(crate) fn scalars(&self, at: usize) -> Result<(Vec<PlacedScalar<'a>>, usize), SyntaxFault>
        ensures read { Answers (λ v. map placed_view v.items)
            (ScalarsAt (text_of self.now) at) result }
        ensures within { IfOk result (λ r. (at < r.1) × (r.1 ≤ length self.now.tokens.now)) }
    {
        let (first, after) = self.placed(at)?;
        let mut items = Vec::new(self.alloc);
        items.push(first)?;
        self.more_scalars(items, after)
    }
}
