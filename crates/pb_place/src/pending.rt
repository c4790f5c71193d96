//! A change on the way to its message.

ghost use Rattle.std.specs.Prelude.{◌≡◌, ◌<◌, [], length, OnOk, OnErr, None, Some, option_map};
ghost use Rattle.pb_value.specs.Cause.{or_else, FailsWith};
ghost use Rattle.pb_value.specs.Data.{message, one};
ghost use Rattle.pb_value.specs.Edit.{edit_cause, edit_of};
ghost use Rattle.pb_value.specs.View.{body_view};
ghost use Rattle.pb_value.specs.WellFormed.{IsWellFormed};
ghost use Rattle.pb_value.specs.declared.error.ValueError.TheVariants.{TooDeep};
ghost use Rattle.pb_place.specs.Edits.{IsWalked};

use crate::error::ChangeError;
use pb_schema::{MessageId, Pool};
use pb_value::{Body, Change, DynamicMessage, Value, ValueError};
use std::alloc::Global;
use std::mem;

/// A change on the way to its message, and then what it took out there.
#[derive(Drop)]
pub(crate) struct Pending {
    pub(crate) change: Change,
    pub(crate) taken: Option<Value>,
}

impl Pending {
    /// A change that is not made yet.
    #[inline(always)]
    pub(crate) fn of(change: Change) -> Pending
        ensures { result.change ≡ change }
    {
        Pending {
            change,
            taken: None,
        }
    }

    /// Takes the change out, to be made.
    #[inline(always)]
    fn take_change(&mut self) -> Change
        ensures { result ≡ self.old.change }
    {
        mem::replace(&mut self.change, Change::DropUnknown)
    }

    /// Why a message of a type refuses the change, which brings more levels than may be added: for another cause, or else the depth.
    fn too_deep(&mut self, alloc: Global, pool: &Pool, message_type: MessageId) -> ValueError
        requires { message_type.0 < length pool.now.messages }
        ensures { FailsWith
            (or_else (edit_cause (edit_of self.old.change) pool.now message_type.0)
            (Some TooDeep)) result }
    {
        let mut blank = DynamicMessage::new(alloc, pool, message_type);
        match blank.change(self.take_change()) {
            Ok(_) => ValueError::TooDeep,
            Err(cause) => cause,
        }
    }

    /// Makes the change in a message below which at most this many levels may be added.
    pub(crate) fn make_within(
        &mut self,
        alloc: Global,
        pool: &Pool,
        message_type: MessageId,
        body: &mut Body,
        most: u8,
    ) -> Result<(), ChangeError>
        requires within { message_type.0 < length pool.now.messages }
        requires well_formed { IsWellFormed pool.now message_type.0 (body_view body.old) }
        ensures { IsWalked pool.now most (Some message_type.0) [] (edit_of self.old.change)
            (one (message (body_view body.old))) (one (message (body_view body.new))) result
            self.new.taken }
    {
        if !self.change.brings_at_most(most) {
            return Err(ChangeError::Refused(self.too_deep(alloc, pool, message_type)));
        }
        self.taken = self.take_change().make(alloc, pool, message_type, body)?;
        Ok(())
    }
}
