//! Elements of lists that are not packed. Those of one list that follow each other go to its end at once: the list is looked up once for all of them.

ghost use Rattle.std.specs.Prelude.{◌≤◌, ◌<◌, ◌∷◌, [], length, IfOk, IfSome};
ghost use Rattle.pb_value.specs.View.{value_view};
ghost use Rattle.pb_decode_parts.specs.declared.open.target.Target.TheVariants as targets;
ghost use Rattle.pb_decode_parts.specs.Tokens.Number.{IsNumberType};
ghost use Rattle.pb_decode_whole.specs.Reads.{IsAtTag, MeansIn, ReadsOne};
ghost use Rattle.pb_decode_whole.specs.Listed.{ReadsList, IsAtElement, IsElement, AreElements};

use crate::reader::{AtTag, Read, Reader, Used};
use crate::tokens::tag_again;
use pb_decode_parts::{
    Part, Target, is_undeclared, number_at, number_value, put_elements, put_scalar,
};
use pb_schema::Kind;
use pb_value::Value;
use pb_wire::{Scanned, left_after};

/// Says that the byte after this many is the first one, as it is where the same tag comes again.
fn begins_again(bytes: &[u8], used: usize) -> bool {
    bytes.get(used) == bytes.first()
}

impl Reader<'_> {
    /// The value of an element, and how many bytes its record takes. A number that its closed enum does not declare is no value.
    #[inline(always)]
    fn element_after(&self, at: AtTag, kind: Kind) -> Option<(Value, usize)>
        requires at_element { IsAtElement self.now.pool.now kind at }
        ensures within { IfSome result (λ r. (at.entry.tag.size ≤ r.1) × (r.1 ≤ length at.entry.bytes.now)) }
        ensures put { IsElement self.now.pool.now kind at.entry result }
    {
        let after = left_after(Some(at.left.remaining), at.tag.size);
        match number_at(at.tag.wire_type, &at.bytes[at.tag.size..], after) {
            Scanned::Whole(number, size) => {
                if is_undeclared(self.pool, kind, number) {
                    return None;
                }
                Some((number_value(kind, number), at.tag.size + size))
            }
            _ => None,
        }
    }

    /// The first value of a list, whose record takes this many bytes, and those of the same list that follow it.
    fn elements_from(&self, at: AtTag, kind: Kind, first: Value, size: usize) -> Read<Vec<Value>>
        requires at_element { IsAtElement self.now.pool.now kind at }
        requires within { size ≤ length at.bytes.now }
        requires first { ReadsList self.now.pool.now kind at.tag.number (value_view first ∷ []) at.bytes.now at.left.remaining size }
        ensures within { IfOk result (λ r. (size ≤ r.1) × (r.1 ≤ length at.entry.bytes.now)) }
        ensures put { AreElements self.now.pool.now kind at.entry result }
    {
        let mut values = Vec::new(self.alloc);
        values.push(first)?;
        let mut here = size;
        while let Some(next) = tag_again(at.tag, &at.bytes[here..], at.left.after(here)) {
            let Some((value, size)) = self.element_after(next, kind) else {
                break;
            };
            values.push(value)?;
            here += size;
        }
        Ok((values, here))
    }

    /// Reads an element, with those of the same list that follow it.
    #[inline(never)]
    pub(crate) fn read_elements(&self, part: &mut Part, at: AtTag, kind: Kind) -> Used
        requires at_tag { IsAtTag self.now.pool.now part.old at }
        requires number { IsNumberType at.tag.wire_type }
        requires means { MeansIn self.now.pool.now part.old at.tag.number at.tag.wire_type (targets.Element kind) }
        ensures { ReadsOne self.now.pool.now part.old part.new at.entry result }
    {
        let target = Target::Element(kind);
        let Some((value, size)) = self.element_after(at, kind) else {
            return self.read_one(part, at, target);
        };
        if !begins_again(at.bytes, size) {
            put_scalar(self.alloc, self.pool, part, at.tag.number, target, value)?;
            return Ok(size);
        }
        let (values, used) = self.elements_from(at, kind, value, size)?;
        put_elements(self.alloc, part, at.tag.number, values)?;
        Ok(used)
    }
}
