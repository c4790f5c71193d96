//! Fields and messages.

ghost use Rattle.std.specs.Prelude.{◌≡◌, ◌<◌, ◌≤◌, ◌+◌, length, IfOk, true};
ghost use Rattle.pb_text_tree.specs.Grammar.{AfterColon, FieldAt, FieldsAt, ListAt, MessageAt, MessagesAt, MoreMessages, NextMessage, ValueAt, empty_list, mark_at};
ghost use Rattle.pb_text_tree.specs.Seen.{IsWithin, text_of};
ghost use Rattle.pb_text_tree.specs.Steps.{Answers};
ghost use Rattle.pb_text_tree.specs.View.{field_view, fields_view, message_view, messages_view, value_view};

use crate::fault::{SyntaxCause, SyntaxFault};
use crate::source::{Close, Source};
use crate::value::{TextField, TextMessage, TextValue};
use std::alloc::Global;

/// A list without items, after a colon or without one.
fn empty_list<'a>(alloc: Global, is_marked: bool) -> TextValue<'a>
    ensures { value_view result ≡ empty_list is_marked }
{
    if is_marked {
        TextValue::Scalars(Vec::new(alloc))
    } else {
        TextValue::Messages(Vec::new(alloc))
    }
}

impl<'a> Source<'_, 'a> {
    /// The fields from an index on, and the index where they end.
    #[cycle(parse)]
    pub(crate) fn fields(
        &self,
        levels: usize,
        close: Close,
        from: usize,
    ) -> Result<(Vec<TextField<'a>>, usize), SyntaxFault>
        requires { from ≤ length self.now.tokens.now }
        ensures read { Answers (λ v. fields_view v.items) (FieldsAt (text_of self.now)
            (MessageAt (text_of self.now) levels) close from) result }
        ensures within { IfOk result (λ r. (from ≤ r.1) × (r.1 ≤ length self.now.tokens.now)) }
        ensures closed { IfOk result (λ r. IsWithin close r.1 (length self.now.tokens.now)) }
    {
        let mut fields = Vec::new(self.alloc);
        let mut at = from;
        'each: while !self.ends(close, at) {
            let (field, after) = self.field(levels, at)?;
            fields.push(field)?;
            at = after;
        }
        Ok((fields, at))
    }

    /// The field whose name begins at an index, and the index after it and its separator.
    #[cycle(parse)]
    fn field(&self, levels: usize, at: usize) -> Result<(TextField<'a>, usize), SyntaxFault>
        ensures read { Answers field_view (FieldAt (text_of self.now)
            (MessageAt (text_of self.now) levels) at) result }
        ensures within { IfOk result (λ r. (at < r.1) × (r.1 ≤ length self.now.tokens.now)) }
    {
        let (name, after) = self.name(at)?;
        let (value, end) = self.value(levels, after)?;
        let at = self.byte_at(at);
        let field = TextField { at, name, value };
        Ok((field, self.after_separator(end)))
    }

    /// What a field has after its name, and the index after it.
    #[cycle(parse)]
    fn value(&self, levels: usize, at: usize) -> Result<(TextValue<'a>, usize), SyntaxFault>
        ensures read { Answers value_view (ValueAt (text_of self.now)
            (MessageAt (text_of self.now) levels) at) result }
        ensures within { IfOk result (λ r. (at < r.1) × (r.1 ≤ length self.now.tokens.now)) }
    {
        let is_marked = self.is_mark(b':', at);
        let from = self.after_mark(b':', at);
        self.after_colon(levels, is_marked, from)
    }

    /// What a field has after its colon, or without one.
    #[cycle(parse)]
    fn after_colon(
        &self,
        levels: usize,
        is_marked: bool,
        at: usize,
    ) -> Result<(TextValue<'a>, usize), SyntaxFault>
        ensures read { Answers value_view (AfterColon (text_of self.now)
            (MessageAt (text_of self.now) levels) is_marked at) result }
        ensures within { IfOk result (λ r. (at < r.1) × (r.1 ≤ length self.now.tokens.now)) }
    {
        if self.opens(at) {
            let (message, after) = self.message(levels, at)?;
            return Ok((TextValue::Message(message), after));
        }
        if self.is_mark(b'[', at) {
            return self.list(levels, is_marked, at);
        }
        if !is_marked {
            return Err(self.unexpected(at));
        }
        let (scalar, after) = self.placed(at)?;
        Ok((TextValue::Scalar(scalar), after))
    }

    /// The list whose bracket is at an index, and the index after it.
    #[cycle(parse)]
    fn list(
        &self,
        levels: usize,
        is_marked: bool,
        at: usize,
    ) -> Result<(TextValue<'a>, usize), SyntaxFault>
        requires { at < length self.now.tokens.now }
        ensures read { Answers value_view (ListAt (text_of self.now)
            (MessageAt (text_of self.now) levels) is_marked at) result }
        ensures within { IfOk result (λ r. (at < r.1) × (r.1 ≤ length self.now.tokens.now)) }
    {
        if self.is_mark(b']', at + 1) {
            return Ok((empty_list(self.alloc, is_marked), at + 2));
        }
        if self.opens(at + 1) {
            let (items, after) = self.messages(levels, at + 1)?;
            return Ok((TextValue::Messages(items), after));
        }
        if !is_marked {
            return Err(self.unexpected(at + 1));
        }
        let (scalars, after) = self.scalars(at + 1)?;
        Ok((TextValue::Scalars(scalars), after))
    }

    /// The items of a list of messages after others, and the index after its bracket.
    #[cycle(parse)]
    fn more_messages(
        &self,
        levels: usize,
        mut items: Vec<TextMessage<'a>>,
        from: usize,
    ) -> Result<(Vec<TextMessage<'a>>, usize), SyntaxFault>
        ensures read { Answers (λ v. messages_view v.items) (MoreMessages (text_of self.now)
            (MessageAt (text_of self.now) levels) (messages_view items.entry.items) from)
            result }
        ensures within { IfOk result (λ r. (from < r.1) × (r.1 ≤ length self.now.tokens.now)) }
    {
        let mut at = from;
        'items: while !self.is_mark(b']', at) {
            let (item, after) = self.next_message(levels, at)?;
            items.push(item)?;
            at = after;
        }
        Ok((items, at + 1))
    }

    /// A message after a comma.
    #[cycle(parse)]
    fn next_message(
        &self,
        levels: usize,
        at: usize,
    ) -> Result<(TextMessage<'a>, usize), SyntaxFault>
        ensures read { Answers message_view (NextMessage (text_of self.now)
            (MessageAt (text_of self.now) levels) at) result }
        ensures within { IfOk result (λ r. (at < r.1) × (r.1 ≤ length self.now.tokens.now)) }
    {
        if self.is_mark(b',', at) {
            return self.message(levels, at + 1);
        }
        Err(self.unexpected(at))
    }

    /// The items of a list of messages from the first one on, and the index after its bracket.
    #[cycle(parse)]
    fn messages(
        &self,
        levels: usize,
        at: usize,
    ) -> Result<(Vec<TextMessage<'a>>, usize), SyntaxFault>
        ensures read { Answers (λ v. messages_view v.items) (MessagesAt (text_of self.now)
            (MessageAt (text_of self.now) levels) at) result }
        ensures within { IfOk result (λ r. (at < r.1) × (r.1 ≤ length self.now.tokens.now)) }
    {
        let (first, after) = self.message(levels, at)?;
        let mut items = Vec::new(self.alloc);
        items.push(first)?;
        self.more_messages(levels, items, after)
    }

    /// The message whose brace is at an index, and the index after it.
    #[cycle(parse)]
    fn message(&self, levels: usize, at: usize) -> Result<(TextMessage<'a>, usize), SyntaxFault>
        ensures read { Answers message_view (MessageAt (text_of self.now) levels at) result }
        ensures within { IfOk result (λ r. (at < r.1) × (r.1 ≤ length self.now.tokens.now)) }
    {
        if !self.opens(at) {
            return Err(self.unexpected(at));
        }
        let byte = self.byte_at(at);
        if levels == 0 {
            return Err(SyntaxFault {
                byte,
                cause: SyntaxCause::TooDeep,
            });
        }
        let close = Close::Mark(self.closing(at));
        let (fields, end) = self.fields(levels - 1, close, at + 1)?;
        Ok((TextMessage { at: byte, fields }, end + 1))
    }
}
