//! Records that are read, and the field of theirs that a path leads to.

ghost use Rattle.std.specs.Prelude.{◌≡◌, ◌<◌, List, Option, Some, length, IfSome};
ghost use Rattle.pb_wire.specs.Record.{Record};
ghost use Rattle.pb_schema.specs.Scalar.{Scalar};
ghost use Rattle.pb_schema.specs.View.{field_view};
ghost use Rattle.pb_find.specs.Found.{target, found};
ghost use Rattle.pb_find.specs.Walk.{CanRead, IsAfterTag, Ends, IsFellow, after_target};

use crate::scalar_ref::ScalarRef;
use pb_schema::{Field, MessageId, Pool, Shape};
use pb_validate::{RecordTag, record_end};
use std::alloc::Global;

/// The field of one value that a path leads to, and the rest of the path.
#[derive(Clone, Copy)]
pub(crate) struct Target<'p> {
    pub field: &'p Field,
    pub rest: &'p [u32],
}

/// Where a path leads to from a message type, if that is a field of one value.
pub(crate) fn target_of<'p>(
    pool: &'p Pool,
    message_type: MessageId,
    path: &'p [u32],
) -> Option<Target<'p>>
    requires { message_type.0 < length pool.now.messages }
    ensures found { (x : Option Scalar) → (rs : List Record)
        → after_target pool.now message_type.0 result x rs ≡ found pool.now path.now message_type.0 x rs }
    ensures own { IfSome result (λ t. target pool.now message_type.0 t.field.now.number ≡ Some (field_view t.field.now)) }
    ensures shorter { IfSome result (λ t. length t.rest.now < length path.now) }
{
    let (number, rest) = path.split_first()?;
    let field = pool.field_by_number(message_type, *number)?;
    match field.shape {
        Shape::List { packed: _ } | Shape::Map { key: _ } => None,
        _ => Some(Target { field, rest }),
    }
}

/// The records of a message, or of a group in one.
#[derive(Clone, Copy)]
pub(crate) struct Level<'a, 'p> {
    pub alloc: Global,
    pub pool: &'p Pool,
    pub bytes: &'a [u8],
    pub message_type: MessageId,
    /// The field of theirs that the path leads to, if it leads to one.
    pub target: Option<Target<'p>>,
    /// The number of the group that they are in, if they are in one: its end tag ends them.
    pub group: Option<u32>,
    /// How many levels are left below them.
    pub levels: u8,
}

/// The index after what was read, and what is found so far. None where it has a fault.
pub(crate) type Passed<'a> = Option<(usize, Option<ScalarRef<'a>>)>;

impl<'p> Level<'_, 'p> {
    /// The index after the record of a tag. None where it has a fault.
    #[inline(always)]
    pub(crate) fn record_end(&self, tag: RecordTag) -> Option<usize>
        requires { IsAfterTag self.now tag }
        ensures { Ends self.now tag result }
    {
        record_end(
            self.alloc,
            self.pool,
            self.message_type,
            self.levels,
            self.bytes,
            tag,
        )
    }

    /// The field of a number, if it is a member of the oneof that a field of this shape is a member of.
    #[inline(always)]
    pub(crate) fn fellow(&self, shape: Shape, number: u32) -> Option<&'p Field>
        requires { CanRead self.now }
        ensures { IsFellow self.now shape number result }
    {
        let Shape::OneofMember(oneof) = shape else {
            return None;
        };
        let field = self.pool.field_by_number(self.message_type, number)?;
        match field.shape {
            Shape::OneofMember(entry) if entry == oneof => Some(field),
            _ => None,
        }
    }
}
