//! The lengths of a message's parts, measured once, and writing by them.

use crate::error::EncodeError;
use crate::lengths::Lengths;
use crate::measure::message_len;
use crate::writing::write_message;
use pb_output::Sink;
use pb_schema::{MessageId, Pool};
use pb_value::{Body, DynamicMessage};
use pb_wire::Output;
use std::marker::Model;

/// The most bytes that an encoding has.
const MAX_BYTES: u128 = 0x7fff_ffff;

/// A message that was measured: the lengths in it, in the order in which writing meets them. It borrows the message. A
/// contract sees it as the message.
#[derive(Drop)]
pub struct Plan<'m> {
    pool: &'m Pool,
    kind: MessageId,
    body: &'m Body,
    lengths: Vec<u32>,
    len: u32,
}

impl<'m> Model for Plan<'m> {
    ghost use Rattle.pb_value.specs.Dynamic.{Dynamic};
    ghost use Rattle.std.specs.Coded.{codes};
    ghost use Rattle.pb_value.specs.Code.{message_code};

    ghost Value = { Dynamic };

    ghost coded = { Prim.hlevel (codes, message_code) };

    ghost use Rattle.pb_value.specs.View.{body_view};
    ghost use Rattle.pb_encode.specs.Planned.{IsPlanned};

    ghost view = { λ p. record { pool = p.pool.now; kind = p.kind.0; body = body_view p.body.now } };

    ghost invariant = { λ p. IsPlanned p.pool.now p.kind.0 (body_view p.body.now) p.lengths.items p.len };
}

impl<'m> Plan<'m> {
    ghost use Rattle.std.specs.Prelude.{◌≡◌, ◌<◌, ◌^◌, length, IfOk, IfErr, OnOk};
    ghost use Rattle.std.specs.Io.KnownBytes.{Appends};
    ghost use Rattle.pb_encode.specs.Encoding.{bytes_of, IsRefused, IsCut};
    ghost use Rattle.pb_encode.specs.Parts.{parts_in_message};

    /// Measures each part of a message once.
    pub(crate) fn new(message: &'m DynamicMessage<'_>) -> Result<Plan<'m>, EncodeError>
        ensures made { IfOk result (λ p. p ≡ message.now) }
        ensures fits { OnOk result (length (bytes_of message.now) < 2 ^ 31) }
        ensures refused { IfErr result (IsRefused (bytes_of message.now)) }
    {
        let mut lengths = Lengths {
            kept: true,
            table: Vec::new(message.alloc()),
        };
        let body = message.body();
        let len = message_len(message.pool(), message.message_type(), body, &mut lengths)?;
        if len > MAX_BYTES {
            return Err(EncodeError::TooLarge);
        }
        Ok(Plan {
            pool: message.pool(),
            kind: message.message_type(),
            body,
            lengths: lengths.table,
            len: len as u32,
        })
    }

    /// How many bytes the encoding has. There are none where the message is empty.
    pub fn len(&self) -> u32
        ensures exact { result ≡ length (bytes_of self.now) }
        ensures small { result < 2 ^ 31 }
    {
        self.len
    }

    /// How many embedded messages, map entries and packed lists there are, those inside others too. A group is none.
    pub fn entries(&self) -> usize
        ensures { result ≡ parts_in_message self.now.pool self.now.kind self.now.body }
    {
        self.lengths.len()
    }

    /// Writes the canonical bytes through a buffer of fixed size, so it takes no memory. It fails where the device fails,
    /// reports how many bytes were written, and writes no more.
    pub fn write_to<O: Output>(&self, output: &mut O) -> Result<(), EncodeError>
        ensures written { OnOk result (Appends (O.written output.old) (O.written output.new) (bytes_of self.now)) }
        ensures kept { OnOk result (O.failures output.new ≡ O.failures output.old) }
        ensures failed { IfErr result (IsCut O.written O.failures output.old output.new (bytes_of self.now)) }
    {
        let mut sink = Sink::new();
        write_message(
            &mut sink,
            output,
            self.pool,
            self.kind,
            self.body,
            &self.lengths,
        );
        sink.flush(output);
        match sink.failure() {
            None => Ok(()),
            Some(written) => Err(EncodeError::Device { written }),
        }
    }
}
