//! Records that do not concern the field that a path leads to: judged, and read past.

ghost use Rattle.pb_schema.specs.declared.types.Shape.TheVariants.{Implicit, OneofMember};
ghost use Rattle.pb_find.specs.Walk.{CanReadAt, PassesStrangers, PassesBy};

use crate::level::Level;
use pb_schema::Shape;
use pb_validate::tag_at;

impl Level<'_, '_> {
    /// Reads past records that do not concern a field of a number and a shape: they are neither of it nor of another member of its oneof. The
    /// index where it stops: before the first record that concerns the field, before a tag that is none, or at the end of the bytes. None
    /// where one of these records has a fault.
    #[inline(always)]
    fn past_records(&self, at: usize, field: u32, shape: Shape) -> Option<usize>
        requires { CanReadAt self.now at }
        ensures { PassesStrangers self.now field shape at result }
    {
        let mut here = at;
        'records: while here < self.bytes.len() {
            let Ok(tag) = tag_at(self.bytes, here, None, None) else {
                return Some(here);
            };
            if tag.number == field || self.fellow(shape, tag.number).is_some() {
                return Some(here);
            }
            let end = self.record_end(tag)?;
            here = end;
        }
        Some(here)
    }

    /// As `past_records`, of a field that is in no oneof. Apart from what reads the other records, it has registers of its own.
    #[inline(never)]
    fn past_others(&self, at: usize, field: u32) -> Option<usize>
        requires { CanReadAt self.now at }
        ensures { PassesStrangers self.now field Implicit at result }
    {
        self.past_records(at, field, Shape::Implicit)
    }

    /// As `past_records`, of a member of a oneof.
    #[inline(never)]
    fn past_fellows(&self, at: usize, field: u32, oneof: u32) -> Option<usize>
        requires { CanReadAt self.now at }
        ensures { PassesStrangers self.now field (OneofMember oneof) at result }
    {
        self.past_records(at, field, Shape::OneofMember(oneof))
    }

    /// Reads past records that leave what is found as it is. The index where it stops, as in `past_records`. Where the path leads to no
    /// field, each record leaves it, and no record has the number 0.
    #[inline(always)]
    pub(crate) fn past_strangers(&self, at: usize) -> Option<usize>
        requires { CanReadAt self.now at }
        ensures { PassesBy self.now at result }
    {
        let Some(own) = self.target else {
            return self.past_others(at, 0);
        };
        let Shape::OneofMember(oneof) = own.field.shape else {
            return self.past_others(at, own.field.number);
        };
        self.past_fellows(at, own.field.number, oneof)
    }
}
