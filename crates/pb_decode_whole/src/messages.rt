//! Messages and groups of a list. Those that follow each other go to its end at once.

ghost use Rattle.std.specs.Prelude.{◌≤◌, ◌<◌, length, IfOk};
ghost use Rattle.pb_decode_parts.specs.declared.open.part.Slot.TheVariants.{List as ListSlot};
ghost use Rattle.pb_decode_parts.specs.declared.open.target.Target.TheVariants as targets;
ghost use Rattle.pb_decode_whole.specs.Reads.{IsAtTag, MeansIn, ReadsOne};
ghost use Rattle.pb_decode_whole.specs.Listed.{IsAtListed, IsMessage, AreMessages};

use crate::reader::{AtTag, Left, Read, Reader, Used, body_of};
use crate::tokens::{payload_at, tag_again};
use pb_decode_parts::{NoMemory, Part, put_elements};
use pb_schema::MessageId;
use pb_value::Value;
use pb_value::bodies::empty_body;

impl Reader<'_> {
    /// The message or the group of a record, and how many bytes the record takes.
    #[cycle(read)]
    #[inline(always)]
    fn message_after(&self, at: AtTag, of_type: MessageId) -> Read<Value>
        requires listed { IsAtListed self.now.pool.now of_type at }
        ensures within { IfOk result (λ r. (0 < r.1) × (r.1 ≤ length at.entry.bytes.now)) }
        ensures put { IsMessage self.now.pool.now of_type at.entry result }
    {
        if at.tag.wire_type != 2 {
            return self.group_after(at, of_type);
        }
        let (start, size) = payload_at(at)?;
        let mut message = Part::Message(of_type, empty_body(self.alloc));
        let within = Left {
            remaining: size,
            depth_left: at.left.depth_left - 1,
        };
        self.read_records(&mut message, &at.bytes[start..], within)?;
        let body = body_of(message)?;
        Ok((Value::Message(body), start + size as usize))
    }

    /// As `message_after`, where the record has no length.
    #[cycle(read)]
    fn group_after(&self, at: AtTag, of_type: MessageId) -> Read<Value>
        requires listed { IsAtListed self.now.pool.now of_type at }
        ensures within { IfOk result (λ r. (0 < r.1) × (r.1 ≤ length at.entry.bytes.now)) }
        ensures put { IsMessage self.now.pool.now of_type at.entry result }
    {
        if at.tag.wire_type != 3 {
            return Err(NoMemory);
        }
        let mut group = Part::Message(of_type, empty_body(self.alloc));
        let within = at.left.after(at.tag.size).below();
        let size = self.read_to_end(&mut group, at.tag.number, &at.bytes[at.tag.size..], within)?;
        let body = body_of(group)?;
        Ok((Value::Message(body), at.tag.size + size))
    }

    /// The messages of a list whose records follow each other from this tag on, and how many bytes these take.
    #[cycle(read)]
    #[inline(never)]
    fn messages_from(&self, at: AtTag, of_type: MessageId) -> Read<Vec<Value>>
        requires listed { IsAtListed self.now.pool.now of_type at }
        ensures within { IfOk result (λ r. r.1 ≤ length at.entry.bytes.now) }
        ensures put { AreMessages self.now.pool.now of_type at.entry result }
    {
        let mut messages = Vec::new(self.alloc);
        let mut here = 0;
        while let Some(next) = tag_again(at.tag, &at.bytes[here..], at.left.after(here)) {
            let (message, size) = self.message_after(next, of_type)?;
            messages.push(message)?;
            here += size;
        }
        Ok((messages, here))
    }

    /// Reads a message or a group of a list, with those of the same list that follow it.
    #[cycle(read)]
    pub(crate) fn read_messages(&self, part: &mut Part, at: AtTag, of_type: MessageId) -> Used
        requires at_tag { IsAtTag self.now.pool.now part.old at }
        requires means { MeansIn self.now.pool.now part.old at.tag.number at.tag.wire_type (targets.Message of_type (ListSlot at.tag.number)) }
        ensures { ReadsOne self.now.pool.now part.old part.new at.entry result }
    {
        if at.left.depth_left == 0 {
            return Err(NoMemory);
        }
        let (messages, used) = self.messages_from(at, of_type)?;
        if used < at.tag.size {
            return Err(NoMemory);
        }
        put_elements(self.alloc, part, at.tag.number, messages)?;
        Ok(used)
    }
}
