//! Records that open nothing: numbers, strings, byte strings, unknown payloads and packed lists.

ghost use Rattle.std.specs.Prelude.{◌≡◌};
ghost use Rattle.pb_decode_parts.specs.declared.open.target.Target.TheVariants as targets;
ghost use Rattle.pb_decode_parts.specs.Tokens.Number.{IsNumberType};
ghost use Rattle.pb_decode_parts.specs.Values.PayloadValue.{IsBytesTarget};
ghost use Rattle.pb_decode_whole.specs.Reads.{IsAtTag, MeansIn, ReadsOne};

use crate::reader::{AtTag, Reader, Used};
use crate::tokens::payload_at;
use pb_decode_parts::{
    NoMemory, Part, Target, put_elements, put_number, put_payload, put_run, read_list, read_run,
    target_of,
};
use pb_schema::Kind;
use pb_wire::{Scanned, left_after, scan_number};

impl Reader<'_> {
    /// Reads a number for this target.
    #[inline(always)]
    pub(crate) fn read_one(&self, part: &mut Part, at: AtTag, target: Target) -> Used
        requires at_tag { IsAtTag self.now.pool.now part.old at }
        requires number { IsNumberType at.tag.wire_type }
        requires means { MeansIn self.now.pool.now part.old at.tag.number at.tag.wire_type target }
        ensures { ReadsOne self.now.pool.now part.old part.new at.entry result }
    {
        let after = left_after(Some(at.left.remaining), at.tag.size);
        match scan_number(at.tag.wire_type, &at.bytes[at.tag.size..], after) {
            Scanned::Whole(value, size) => {
                put_number(self.alloc, self.pool, part, at.tag.number, target, value)?;
                Ok(at.tag.size + size)
            }
            _ => Err(NoMemory),
        }
    }

    /// Reads a number that no field has.
    #[inline(never)]
    fn read_unknown(&self, part: &mut Part, at: AtTag) -> Used
        requires at_tag { IsAtTag self.now.pool.now part.old at }
        requires number { IsNumberType at.tag.wire_type }
        requires means { MeansIn self.now.pool.now part.old at.tag.number at.tag.wire_type targets.Unknown }
        ensures { ReadsOne self.now.pool.now part.old part.new at.entry result }
    {
        self.read_one(part, at, Target::Unknown)
    }

    /// Reads a number for what few numbers outside maps are for. A function of its own, so that `read_number` is small enough to be
    /// inlined. The target is looked up once more: as an argument it would be written to memory for each number.
    #[inline(never)]
    fn read_other(&self, part: &mut Part, at: AtTag) -> Used
        requires at_tag { IsAtTag self.now.pool.now part.old at }
        requires number { IsNumberType at.tag.wire_type }
        ensures { ReadsOne self.now.pool.now part.old part.new at.entry result }
    {
        let target = target_of(self.pool, part, at.tag.number, at.tag.wire_type);
        self.read_one(part, at, target)
    }

    /// Reads a number. An element takes those of its list with it that follow it.
    #[inline(always)]
    pub(crate) fn read_number(&self, part: &mut Part, at: AtTag) -> Used
        requires at_tag { IsAtTag self.now.pool.now part.old at }
        requires number { IsNumberType at.tag.wire_type }
        ensures { ReadsOne self.now.pool.now part.old part.new at.entry result }
    {
        let target = target_of(self.pool, part, at.tag.number, at.tag.wire_type);
        match target {
            Target::Element(kind) => self.read_elements(part, at, kind),
            Target::One(kind, shape) => self.read_one(part, at, Target::One(kind, shape)),
            Target::Unknown => self.read_unknown(part, at),
            _ => self.read_other(part, at),
        }
    }

    /// Reads a payload for this target.
    #[inline(always)]
    pub(crate) fn read_bytes(&self, part: &mut Part, at: AtTag, target: Target) -> Used
        requires at_tag { IsAtTag self.now.pool.now part.old at }
        requires bytes { at.tag.wire_type ≡ 2 }
        requires means { MeansIn self.now.pool.now part.old at.tag.number 2 target }
        requires target { IsBytesTarget target }
        ensures { ReadsOne self.now.pool.now part.old part.new at.entry result }
    {
        let (start, size) = payload_at(at)?;
        let end = start + size as usize;
        let payload = &at.bytes[start..end];
        match put_payload(self.alloc, self.pool, part, at.tag.number, target, payload) {
            Ok(()) => Ok(end),
            Err(_) => Err(NoMemory),
        }
    }

    /// Reads a packed list, where numbers that a closed enum does not declare are unknown records.
    #[inline(never)]
    fn read_closed_list(&self, part: &mut Part, at: AtTag, kind: Kind) -> Used
        requires at_tag { IsAtTag self.now.pool.now part.old at }
        requires bytes { at.tag.wire_type ≡ 2 }
        requires means { MeansIn self.now.pool.now part.old at.tag.number 2 (targets.Packed kind) }
        ensures { ReadsOne self.now.pool.now part.old part.new at.entry result }
    {
        let (start, size) = payload_at(at)?;
        let rest = &at.bytes[start..];
        let (run, used) = read_run(self.alloc, self.pool, at.tag.number, kind, rest, Some(size))?;
        if used != size as usize {
            return Err(NoMemory);
        }
        put_run(self.alloc, part, at.tag.number, run)?;
        Ok(start + used)
    }

    /// Reads a packed list. Each element is a value, but those of closed enums.
    #[inline(always)]
    pub(crate) fn read_packed(&self, part: &mut Part, at: AtTag, kind: Kind) -> Used
        requires at_tag { IsAtTag self.now.pool.now part.old at }
        requires bytes { at.tag.wire_type ≡ 2 }
        requires means { MeansIn self.now.pool.now part.old at.tag.number 2 (targets.Packed kind) }
        ensures { ReadsOne self.now.pool.now part.old part.new at.entry result }
    {
        if let Kind::ClosedEnum(_) = kind {
            return self.read_closed_list(part, at, kind);
        }
        let (start, size) = payload_at(at)?;
        let end = start + size as usize;
        let Some(values) = read_list(self.alloc, kind, &at.bytes[start..end])? else {
            return Err(NoMemory);
        };
        put_elements(self.alloc, part, at.tag.number, values)?;
        Ok(end)
    }
}
