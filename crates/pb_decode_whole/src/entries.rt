//! Map entries. Those of one map that follow each other go into it at once: many are sorted first.

ghost use Rattle.std.specs.Prelude.{◌≡◌, ◌≤◌, ◌<◌, length, IfOk, IfSome};
ghost use Rattle.pb_decode_parts.specs.declared.open.target.Target.TheVariants as targets;
ghost use Rattle.pb_decode_parts.specs.Values.PayloadValue.{IsBytesTarget};
ghost use Rattle.pb_decode_whole.specs.Reads.{Begins, CanRead, IsAtTag, MeansIn, ReadsAll, ReadsOne};
ghost use Rattle.pb_decode_whole.specs.Entries.{IsAtEntry, AddsEntry, ReadsEntries};

use crate::heap::keep_heap_after_list;
use crate::reader::{AtTag, Left, Read, Reader, Used};
use crate::tokens::{is_number, payload_at, tag_again, tag_at};
use pb_decode_parts::{
    Entry, NoMemory, Part, RecordTag, Target, key_or_default, put_entries, target_of,
    value_or_missing,
};
use pb_schema::Kind;
use pb_value::{MapKey, Value};

/// After a shorter record no more are read before those so far are in the map, so that the memory for them follows their bytes, also
/// where keys repeat.
const MIN_RUN_ENTRY_BYTES: usize = 8;

/// Keys with their values.
type Pairs = Vec<(MapKey, Value)>;

/// The tag that begins the bytes after an entry of this size, if it is that of an entry of the same map.
#[inline(always)]
fn entry_again(first: RecordTag, last: usize, bytes: &[u8], left: Left) -> Option<AtTag>
    ensures own { IfSome result (λ t. (t.tag.number ≡ first.number) × (t.tag.wire_type ≡ first.wire_type)) }
    ensures begins { IfSome result (Begins bytes.now left) }
{
    if last < MIN_RUN_ENTRY_BYTES {
        return None;
    }
    tag_again(first, bytes, left)
}

impl Reader<'_> {
    /// Reads a key or a scalar value of an entry.
    #[inline(always)]
    fn read_scalar(&self, entry: &mut Part, at: AtTag, target: Target) -> Used
        requires at_tag { IsAtTag self.now.pool.now entry.old at }
        requires means { MeansIn self.now.pool.now entry.old at.tag.number at.tag.wire_type target }
        requires target { IsBytesTarget target }
        ensures { ReadsOne self.now.pool.now entry.old entry.new at.entry result }
    {
        if at.tag.wire_type == 2 {
            self.read_bytes(entry, at, target)
        } else if is_number(at.tag.wire_type) {
            self.read_one(entry, at, target)
        } else {
            Err(NoMemory)
        }
    }

    /// Reads a record of an entry. Keys and scalars are most of them.
    #[cycle(read)]
    #[inline(always)]
    fn read_in_entry(&self, entry: &mut Part, at: AtTag) -> Used
        requires at_tag { IsAtTag self.now.pool.now entry.old at }
        ensures { ReadsOne self.now.pool.now entry.old entry.new at.entry result }
    {
        let target = target_of(self.pool, entry, at.tag.number, at.tag.wire_type);
        match target {
            Target::Key(_) | Target::EntryValue(_) => self.read_scalar(entry, at, target),
            Target::Message(of_type, slot) if at.tag.wire_type == 2 => {
                self.read_message(entry, at, of_type, slot)
            }
            _ => self.read_apart(entry, at),
        }
    }

    /// Puts the records of an entry's payload into it, as `read_records` does. In a loop of their own keys and scalars need little of
    /// what other records do.
    #[cycle(read)]
    pub fn read_entry(&self, entry: &mut Part, bytes: &[u8], left: Left) -> Result<(), NoMemory>
        requires can { CanRead self.now.pool.now entry.old bytes.now left }
        requires whole { left.remaining ≤ length bytes.now }
        ensures { ReadsAll self.now.pool.now entry.old entry.new bytes.now left result }
    {
        let mut here = 0;
        while here < left.remaining as usize {
            let at = tag_at(&bytes[here..], left.after(here))?;
            let used = self.read_in_entry(entry, at)?;
            here += used;
        }
        if here != left.remaining as usize {
            return Err(NoMemory);
        }
        Ok(())
    }

    /// Adds the key and the value of an entry to those before them, and how many bytes its record takes.
    #[cycle(read)]
    #[inline(always)]
    fn entry_after(&self, at: AtTag, key_kind: Kind, value_kind: Kind, entries: &mut Pairs) -> Used
        requires at_entry { IsAtEntry self.now.pool.now key_kind value_kind at }
        ensures within { IfOk result (λ n. (0 < n) × (n ≤ length at.entry.bytes.now)) }
        ensures put { AddsEntry self.now.pool.now key_kind value_kind at.entry entries.old.items entries.new.items result }
    {
        let (start, size) = payload_at(at)?;
        let mut entry = Part::Entry(Entry {
            key_kind,
            value_kind,
            key: None,
            value: None,
        });
        let within = Left {
            remaining: size,
            depth_left: at.left.depth_left - 1,
        };
        self.read_entry(&mut entry, &at.bytes[start..], within)?;
        match entry {
            Part::Entry(entry) => {
                let key = key_or_default(self.alloc, entry.key_kind, entry.key);
                let value = value_or_missing(self.alloc, entry.value_kind, entry.value);
                entries.push((key, value))?;
                Ok(start + size as usize)
            }
            Part::Message(_kind, _body) => Err(NoMemory),
            Part::Group(_records) => Err(NoMemory),
        }
    }

    /// The entries of a map whose records follow each other from this tag on, and how many bytes these take.
    #[cycle(read)]
    #[inline(never)]
    fn entries_from(&self, at: AtTag, key_kind: Kind, value_kind: Kind) -> Read<Pairs>
        requires at_entry { IsAtEntry self.now.pool.now key_kind value_kind at }
        ensures within { IfOk result (λ r. r.1 ≤ length at.entry.bytes.now) }
        ensures put { ReadsEntries self.now.pool.now key_kind value_kind at.entry result }
    {
        let mut entries = Vec::new(self.alloc);
        let mut here = 0;
        let mut last = MIN_RUN_ENTRY_BYTES;
        while let Some(next) = entry_again(at.tag, last, &at.bytes[here..], at.left.after(here)) {
            let size = self.entry_after(next, key_kind, value_kind, &mut entries)?;
            here += size;
            last = size;
        }
        Ok((entries, here))
    }

    /// Reads an entry, with those of the same map that follow it.
    #[cycle(read)]
    pub(crate) fn read_entries(
        &self,
        part: &mut Part,
        at: AtTag,
        key_kind: Kind,
        value_kind: Kind,
    ) -> Used
        requires at_tag { IsAtTag self.now.pool.now part.old at }
        requires bytes { at.tag.wire_type ≡ 2 }
        requires means { MeansIn self.now.pool.now part.old at.tag.number 2 (targets.Entry key_kind value_kind) }
        ensures { ReadsOne self.now.pool.now part.old part.new at.entry result }
    {
        if at.left.depth_left == 0 {
            return Err(NoMemory);
        }
        let (entries, used) = self.entries_from(at, key_kind, value_kind)?;
        if used < at.tag.size {
            return Err(NoMemory);
        }
        let held = entries.capacity();
        put_entries(self.alloc, part, at.tag.number, entries)?;
        keep_heap_after_list(self.alloc, held);
        Ok(used)
    }
}
