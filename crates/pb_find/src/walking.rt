//! A message that is read once: judged, and looked through for the scalar at a path.

ghost use Rattle.std.specs.Prelude.{◌≡◌, ◌≤◌, ◌<◌, None, true, false, length};
ghost use Rattle.pb_wire.specs.RecordIter.{seen};
ghost use Rattle.pb_schema.specs.View.{field_view};
ghost use Rattle.pb_find.specs.Found.{is_single, counts_for};
ghost use Rattle.pb_find.specs.Loops.{record_of};
ghost use Rattle.pb_find.specs.Walk.{CanReadAt, IsAfterTag, LeadsInto, IsPlain, IsTypeOf, LooksThrough, Finds};

use crate::level::{Level, Passed, target_of};
use crate::reading::{kept, only_payload, scalar_of, string_at};
use crate::scalar_ref::ScalarRef;
use pb_schema::{Field, Kind, MessageId};
use pb_validate::{RecordTag, payload_at, tag_at};
use pb_wire::Payload;

impl<'a, 'p> Level<'a, 'p> {
    /// Whether more is to be read: up to the end of the bytes, or in a group up to its end tag.
    #[inline(always)]
    fn goes_on(&self, at: usize) -> bool
        ensures goes_on { result ≡ true → self.now.group ≡ None → at < length self.now.bytes.now }
        ensures ends { result ≡ false → (self.now.group ≡ None) × (length self.now.bytes.now ≤ at) }
    {
        self.group.is_some() || at < self.bytes.len()
    }

    /// Reads records up to their end: where that is, and what is found in them, after others in which this was found.
    ///
    /// Most records do not concern the path. A loop of its own reads past them.
    #[cycle(walking)]
    #[inline(always)]
    pub(crate) fn walk(&self, at: usize, before: Option<ScalarRef<'a>>) -> Passed<'a>
        requires { CanReadAt self.now at }
        ensures { LooksThrough self.now at before.entry result }
    {
        let mut here = self.past_strangers(at)?;
        let mut found = before;
        'records: while self.goes_on(here) {
            let Ok(tag) = tag_at(self.bytes, here, self.group, None) else {
                return None;
            };
            if tag.wire_type == 4 {
                return Some((tag.end, found));
            }
            let (end, after) = self.target_found(tag, found)?;
            let next = self.past_strangers(end)?;
            here = next;
            found = after;
        }
        Some((here, found))
    }

    /// As `walk`, of what is nested.
    #[cycle(walking)]
    #[inline(never)]
    fn walk_inside(&self, at: usize, before: Option<ScalarRef<'a>>) -> Passed<'a>
        requires { CanReadAt self.now at }
        ensures { LooksThrough self.now at before.entry result }
    {
        self.walk(at, before)
    }

    /// Reads a record after its tag: where it ends, and what is found after it.
    ///
    /// Few records concern the path. Apart from `walk`, its code is not in each caller.
    #[cycle(walking)]
    #[inline(never)]
    fn target_found(&self, tag: RecordTag, before: Option<ScalarRef<'a>>) -> Passed<'a>
        requires { IsAfterTag self.now tag }
        ensures { Finds self.now tag before.entry result }
    {
        let Some(own) = self.target else {
            return self.other_found(tag, before);
        };
        if tag.number != own.field.number || tag.wire_type != own.field.kind.wire_type() {
            return self.other_found(tag, before);
        }
        if let Some(inner) = own.field.kind.message() {
            return self.message_found(tag, inner, own.rest, before);
        }
        if own.rest.is_empty()
            && let Kind::Text = own.field.kind
        {
            let (end, string) = string_at(self.bytes, tag.end)?;
            return Some((end, kept(own.field.shape, Some(ScalarRef::Text(string)))));
        }
        self.other_found(tag, before)
    }

    /// Reads a message or a group on the path after its tag: where it ends, and what is found after it.
    #[cycle(walking)]
    fn message_found(
        &self,
        tag: RecordTag,
        inner: MessageId,
        rest: &'p [u32],
        before: Option<ScalarRef<'a>>,
    ) -> Passed<'a>
        requires after { IsAfterTag self.now tag }
        requires leads { LeadsInto self.now tag inner.0 rest }
        ensures { Finds self.now tag before.entry result }
    {
        if self.levels == 0 {
            return None;
        }
        let target = target_of(self.pool, inner, rest);
        let inside = Level {
            message_type: inner,
            target,
            levels: self.levels - 1,
            ..*self
        };
        if tag.wire_type == 3 {
            let group = Level {
                group: Some(tag.number),
                ..inside
            };
            return group.walk_inside(tag.end, before);
        }
        let Ok((start, end)) = payload_at(self.bytes, tag.end, None) else {
            return None;
        };
        let message = Level {
            bytes: &self.bytes[start..end],
            group: None,
            ..inside
        };
        let (_, found) = message.walk_inside(0, before)?;
        Some((end, found))
    }

    /// Whether a record counts for a field of one value: it is of its number and its wire type, and where the field's enum is closed, that
    /// declares its number.
    fn counts(&self, field: &Field, tag: RecordTag, payload: Payload<'_>) -> bool
        requires single { is_single field.now.shape ≡ true }
        requires wire_type { IsTypeOf tag.wire_type payload }
        ensures { result ≡ counts_for self.now.pool.now (field_view field.now) (record_of (tag.number, seen payload.entry)) }
    {
        tag.number == field.number
            && tag.wire_type == field.kind.wire_type()
            && match payload {
                Payload::Varint(number) => !self.pool.is_undeclared(field.kind, number),
                _ => true,
            }
    }

    /// Reads a record that is neither a message on the path nor a string at its end, after its tag: where it ends, and what is found after
    /// it.
    fn other_found(&self, tag: RecordTag, before: Option<ScalarRef<'a>>) -> Passed<'a>
        requires after { IsAfterTag self.now tag }
        requires plain { IsPlain self.now tag }
        ensures { Finds self.now tag before.entry result }
    {
        let end = self.record_end(tag)?;
        let Some(own) = self.target else {
            return Some((end, before));
        };
        let payload = only_payload(&self.bytes[tag.at..end]);
        if self.counts(own.field, tag, payload) {
            if !own.rest.is_empty() {
                return Some((end, before));
            }
            let scalar = scalar_of(own.field.kind, payload);
            return Some((end, kept(own.field.shape, scalar)));
        }
        match self.fellow(own.field.shape, tag.number) {
            Some(other) if self.counts(other, tag, payload) => Some((end, None)),
            _ => Some((end, before)),
        }
    }
}
