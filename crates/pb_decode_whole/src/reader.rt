//! What reads records into a part, and where a record begins.

ghost use Rattle.std.specs.Prelude.{◌≡◌, ◌-◌, ◌<◌, ◌^◌, IfOk};
ghost use Rattle.pb_schema.specs.declared.types.MessageId.{MessageId};
ghost use Rattle.pb_decode_parts.specs.declared.open.part.Part.TheVariants as parts;

use pb_decode_parts::{NoMemory, Part, RecordTag};
use pb_schema::Pool;
use pb_value::Body;
use std::alloc::Global;

/// How many bytes a record takes.
pub(crate) type Used = Result<usize, NoMemory>;
/// What is read, and how many bytes its records take.
pub(crate) type Read<T> = Result<(T, usize), NoMemory>;

/// What a message holds that was read.
#[inline(always)]
pub(crate) fn body_of(part: Part) -> Result<Body, NoMemory>
    ensures { IfOk result (λ body. (kind : MessageId) × (part ≡ parts.Message kind body)) }
{
    match part {
        Part::Message(_kind, body) => Ok(body),
        Part::Entry(_entry) => Err(NoMemory),
        Part::Group(_records) => Err(NoMemory),
    }
}

/// What stays the same while a message is built.
#[derive(Drop)]
pub struct Reader<'p> {
    pub alloc: Global,
    pub pool: &'p Pool,
}

/// What is left of a part where a record may begin in it.
#[derive(Clone, Copy)]
pub struct Left {
    /// How many bytes come before its end.
    pub remaining: u32,
    /// How many levels may still be opened.
    pub depth_left: u8,
}

/// Where a record begins.
#[derive(Clone, Copy)]
pub struct AtTag<'b> {
    pub tag: RecordTag,
    /// The bytes from the tag on.
    pub bytes: &'b [u8],
    /// What is left of the part around the record.
    pub left: Left,
}

impl Left {
    /// What is left after this many bytes.
    #[inline(always)]
    pub(crate) fn after(self, used: usize) -> Left
        requires { used < 2 ^ 32 }
        ensures { result ≡ record { remaining = self.remaining - used; depth_left = self.depth_left } }
    {
        Left {
            remaining: self.remaining.saturating_sub(used as u32),
            depth_left: self.depth_left,
        }
    }

    /// What is left one level below.
    #[inline(always)]
    pub(crate) fn below(self) -> Left
        ensures { result ≡ record { remaining = self.remaining; depth_left = self.depth_left - 1 } }
    {
        Left {
            remaining: self.remaining,
            depth_left: self.depth_left.saturating_sub(1),
        }
    }
}
