//! Records one after another, messages and groups.

ghost use Rattle.std.specs.Prelude.{◌≡◌, ◌≤◌, ◌<◌, length, IfOk};
ghost use Rattle.pb_decode_parts.specs.declared.open.target.Target.TheVariants as targets;
ghost use Rattle.pb_decode_whole.specs.Reads.{CanRead, IsAtTag, MeansIn, ReadsOne, ReadsAll};
ghost use Rattle.pb_decode_whole.specs.Reads.Groups.{ReadsGroup};

use crate::reader::{AtTag, Left, Reader, Used, body_of};
use crate::tokens::{is_number, payload_at, tag_at};
use pb_decode_parts::{
    NoMemory, Part, Slot, Target, depth_left_in, has_level, message_slot, put_group, put_message,
    take_message, target_of,
};
use pb_schema::MessageId;

impl Reader<'_> {
    /// Puts the records of a payload into its part. If one is no record or memory is refused, some of those before it may be in the part.
    #[cycle(read)]
    pub fn read_records(&self, part: &mut Part, bytes: &[u8], left: Left) -> Result<(), NoMemory>
        requires can { CanRead self.now.pool.now part.old bytes.now left }
        requires whole { left.remaining ≤ length bytes.now }
        ensures { ReadsAll self.now.pool.now part.old part.new bytes.now left result }
    {
        let mut here = 0;
        while here < left.remaining as usize {
            let at = tag_at(&bytes[here..], left.after(here))?;
            let used = self.read_tagged(part, at)?;
            here += used;
        }
        if here != left.remaining as usize {
            return Err(NoMemory);
        }
        Ok(())
    }

    /// Puts the records of a group of a number into its part, and how many bytes they take with its end tag.
    #[cycle(read)]
    pub(crate) fn read_to_end(&self, part: &mut Part, number: u32, bytes: &[u8], left: Left) -> Used
        requires can { CanRead self.now.pool.now part.old bytes.now left }
        ensures passes { IfOk result (λ used. used ≤ length bytes.now) }
        ensures read { ReadsGroup self.now.pool.now number part.old part.new bytes.now left result }
    {
        let mut here = 0;
        loop {
            let at = tag_at(&bytes[here..], left.after(here))?;
            if at.tag.wire_type == 4 {
                if at.tag.number != number {
                    return Err(NoMemory);
                }
                return Ok(here + at.tag.size);
            }
            let used = self.read_tagged(part, at)?;
            here += used;
        }
    }

    /// Reads a record.
    #[cycle(read)]
    #[inline(always)]
    fn read_tagged(&self, part: &mut Part, at: AtTag) -> Used
        requires at_tag { IsAtTag self.now.pool.now part.old at }
        ensures { ReadsOne self.now.pool.now part.old part.new at.entry result }
    {
        if at.tag.wire_type == 2 {
            self.read_length(part, at)
        } else if is_number(at.tag.wire_type) {
            self.read_number(part, at)
        } else if at.tag.wire_type == 3 {
            self.read_group(part, at)
        } else {
            Err(NoMemory)
        }
    }

    /// As `read_tagged`, in a function of its own, so that its caller stays small.
    #[cycle(read)]
    #[inline(never)]
    pub(crate) fn read_apart(&self, part: &mut Part, at: AtTag) -> Used
        requires at_tag { IsAtTag self.now.pool.now part.old at }
        ensures { ReadsOne self.now.pool.now part.old part.new at.entry result }
    {
        self.read_tagged(part, at)
    }

    /// Reads a record with a length.
    #[cycle(read)]
    #[inline(always)]
    fn read_length(&self, part: &mut Part, at: AtTag) -> Used
        requires at_tag { IsAtTag self.now.pool.now part.old at }
        requires bytes { at.tag.wire_type ≡ 2 }
        ensures { ReadsOne self.now.pool.now part.old part.new at.entry result }
    {
        let target = target_of(self.pool, part, at.tag.number, 2);
        match target {
            Target::Message(of_type, Slot::List(_)) => self.read_messages(part, at, of_type),
            Target::Message(of_type, slot) => self.read_message(part, at, of_type, slot),
            Target::One(kind, shape) => self.read_bytes(part, at, Target::One(kind, shape)),
            Target::Entry(key_kind, value_kind) => {
                self.read_entries(part, at, key_kind, value_kind)
            }
            Target::Packed(kind) => self.read_packed(part, at, kind),
            Target::Element(_) | Target::Key(_) | Target::EntryValue(_) | Target::Unknown =>
                self.read_bytes(part, at, target),
        }
    }

    /// Reads a message into its slot. It goes on from what the slot holds.
    #[cycle(read)]
    #[inline(always)]
    pub(crate) fn read_message(
        &self,
        part: &mut Part,
        at: AtTag,
        of_type: MessageId,
        slot: Slot,
    ) -> Used
        requires at_tag { IsAtTag self.now.pool.now part.old at }
        requires bytes { at.tag.wire_type ≡ 2 }
        requires means { MeansIn self.now.pool.now part.old at.tag.number 2 (targets.Message of_type slot) }
        ensures { ReadsOne self.now.pool.now part.old part.new at.entry result }
    {
        if !has_level(at.left.depth_left, Target::Message(of_type, slot)) {
            return Err(NoMemory);
        }
        let (start, size) = payload_at(at)?;
        let mut inner = Part::Message(of_type, take_message(self.alloc, slot, part));
        let within = Left {
            remaining: size,
            depth_left: depth_left_in(slot, at.left.depth_left),
        };
        self.read_records(&mut inner, &at.bytes[start..], within)?;
        let message = body_of(inner)?;
        put_message(self.alloc, self.pool, slot, part, message)?;
        Ok(start + size as usize)
    }

    /// Reads a group of a field into its slot. It goes on from what the slot holds.
    #[cycle(read)]
    fn read_field_group(&self, part: &mut Part, at: AtTag, of_type: MessageId, slot: Slot) -> Used
        requires at_tag { IsAtTag self.now.pool.now part.old at }
        requires start { at.tag.wire_type ≡ 3 }
        requires level { 0 < at.left.depth_left }
        requires means { MeansIn self.now.pool.now part.old at.tag.number 3 (targets.Message of_type slot) }
        ensures { ReadsOne self.now.pool.now part.old part.new at.entry result }
    {
        let mut group = Part::Message(of_type, take_message(self.alloc, slot, part));
        let within = at.left.after(at.tag.size).below();
        let size = self.read_to_end(&mut group, at.tag.number, &at.bytes[at.tag.size..], within)?;
        let message = body_of(group)?;
        put_message(self.alloc, self.pool, slot, part, message)?;
        Ok(at.tag.size + size)
    }

    /// Reads a group that no field has.
    #[cycle(read)]
    fn read_unknown_group(&self, part: &mut Part, at: AtTag) -> Used
        requires at_tag { IsAtTag self.now.pool.now part.old at }
        requires start { at.tag.wire_type ≡ 3 }
        requires level { 0 < at.left.depth_left }
        requires means { MeansIn self.now.pool.now part.old at.tag.number 3 targets.Unknown }
        ensures { ReadsOne self.now.pool.now part.old part.new at.entry result }
    {
        let mut group = Part::Group(Vec::new(self.alloc));
        let within = at.left.after(at.tag.size).below();
        let size = self.read_to_end(&mut group, at.tag.number, &at.bytes[at.tag.size..], within)?;
        match group {
            Part::Group(records) => {
                put_group(Slot::Unknown(at.tag.number), part, records)?;
                Ok(at.tag.size + size)
            }
            Part::Message(_kind, _body) => Err(NoMemory),
            Part::Entry(_entry) => Err(NoMemory),
        }
    }

    /// Reads a group.
    #[cycle(read)]
    #[inline(never)]
    fn read_group(&self, part: &mut Part, at: AtTag) -> Used
        requires at_tag { IsAtTag self.now.pool.now part.old at }
        requires start { at.tag.wire_type ≡ 3 }
        ensures { ReadsOne self.now.pool.now part.old part.new at.entry result }
    {
        if at.left.depth_left == 0 {
            return Err(NoMemory);
        }
        let target = target_of(self.pool, part, at.tag.number, 3);
        match message_slot(target) {
            Some((of_type, Slot::List(_))) => self.read_messages(part, at, of_type),
            Some((of_type, slot)) => self.read_field_group(part, at, of_type, slot),
            None => self.read_unknown_group(part, at),
        }
    }
}
