//! What a decoder from pieces holds apart from its pool.

use crate::push::Reading;
use pb_schema::MessageId;
use pb_wire::Limits;
use std::marker::Model;

/// What a [`PushDecoder`](crate::PushDecoder) holds apart from its pool: the type, the limits, and what it has read. It borrows nothing, so a
/// value that owns or shares the pool can hold it beside the pool.
#[derive(Drop)]
pub struct DecoderParts {
    pub(crate) message_type: MessageId,
    pub(crate) limits: Limits,
    pub(crate) reading: Option<Reading>,
}

impl Model for DecoderParts {
    ghost use Rattle.pb_decode.specs.Decoder.{datum_code, payload_code};
    ghost use Rattle.pb_decode.specs.Parts.{Parts};
    ghost use Rattle.std.specs.Coded.{codes};
    ghost use Rattle.pb_value.specs.Code.{message_code};

    ghost Value = { Parts };

    ghost coded = { Prim.hlevel (codes, message_code, datum_code, payload_code) };

    ghost use Rattle.std.specs.Prelude.{option_map};
    ghost use Rattle.pb_decode.specs.ReadingView.{reading_view};

    ghost view = { λ p. record { message_type = p.message_type.0; limits = p.limits; reading = option_map reading_view p.reading } };
}

impl DecoderParts {
    ghost use Rattle.std.specs.Prelude.{◌≡◌, None};
    ghost use Rattle.pb_schema.specs.Types.{Types};
    ghost use Rattle.pb_decode.specs.Parts.{IsOfPool};

    /// Takes the parts, and leaves those of a decoder of the same type and limits that is finished.
    pub fn take(&mut self) -> DecoderParts
        ensures taken { result ≡ self.old }
        ensures left { self.new ≡ record self.old { reading = None } }
        ensures of_pool { (pool : Types) → IsOfPool pool self.old → IsOfPool pool self.new }
    {
        DecoderParts {
            message_type: self.message_type,
            limits: self.limits,
            reading: self.reading.take(),
        }
    }
}
