//! What the handle of a message holds.

ghost use Rattle.std.specs.Prelude.{◌≡◌, ◌<◌, length, IfOk};
ghost use Rattle.pb_wire.specs.Inside.{records_spelled};
ghost use Rattle.pb_value.specs.Value.{value};
ghost use Rattle.pb_canonical.specs.Canonical.{IsCanonical};
ghost use Rattle.pb_c_message.specs.Holds.{message_of};

use pb_c_message::{Held, bytes_to_hold};
use pb_schema::{MessageId, Pool};
use pb_value::DynamicMessage;
use std::alloc::{AllocError, Global};
use std::marker::Model;
use std::sync::Arc;

/// How many scalars are looked for in the bytes of a message before its fields are built: about as many as take the time of that.
const LOOKUPS: u8 = 8;

/// A well-formed message, and the pool of its type, which handles share.
#[derive(Drop)]
pub struct OwnMessage {
    pub pool: Arc<Pool>,
    pub message_type: MessageId,
    pub held: Held,
    /// How many more scalars are looked for in bytes that are held.
    pub lookups: u8,
}

impl Model for OwnMessage {
    ghost use Rattle.pb_value.specs.Dynamic.{Dynamic};
    ghost use Rattle.std.specs.Coded.{codes};
    ghost use Rattle.pb_value.specs.Code.{message_code};

    ghost Value = { Dynamic };

    ghost coded = { Prim.hlevel (codes, message_code) };

    ghost use Rattle.pb_c_message.specs.Holds.{IsHeld, message_held};
    ghost use Rattle.std.specs.Prelude.{length, ◌<◌};

    ghost view = { λ m. message_held m.pool.value m.message_type.0 m.held };

    ghost invariant = { λ m. (m.message_type.0 < length m.pool.value.messages) × IsHeld m.pool.value m.message_type.0 m.held };
}

/// A box of a message of this pool.
pub fn boxed(
    alloc: Global,
    pool: &Arc<Pool>,
    message: DynamicMessage<'_>,
) -> Result<Box<OwnMessage, Global>, AllocError>
    requires { message.pool ≡ pool.now.value }
    ensures same { IfOk result (λ b. b.value ≡ message.entry) }
{
    let message_type = message.message_type();
    let _well_formed = message.body();
    let pool = Arc::try_clone(pool)?;
    let held = Held::Fields(message.into_body());
    Ok(Box::new(
        alloc,
        OwnMessage {
            pool,
            message_type,
            held,
            lookups: 0,
        },
    )?)
}

/// A box of the message of a type of this pool that canonical bytes are, of which a copy is held.
pub fn bytes_boxed(
    alloc: Global,
    pool: &Arc<Pool>,
    message_type: MessageId,
    bytes: &[u8],
) -> Result<Box<OwnMessage, Global>, AllocError>
    requires within { message_type.0 < length pool.now.value.messages }
    requires canonical { IsCanonical pool.now.value message_type.0 bytes.now }
    ensures value { IfOk result (λ b. b.value
        ≡ message_of pool.now.value message_type.0
        (value pool.now.value message_type.0 (records_spelled bytes.now))) }
{
    let pool = Arc::try_clone(pool)?;
    let held = bytes_to_hold(alloc, bytes)?;
    Ok(Box::new(
        alloc,
        OwnMessage {
            pool,
            message_type,
            held,
            lookups: LOOKUPS,
        },
    )?)
}

/// Whether one more scalar is to be looked for in the bytes of a message, if these are held.
pub fn may_look(own: &mut OwnMessage) -> bool
    ensures same { own.new ≡ own.old }
{
    if own.lookups == 0 {
        return false;
    }
    own.lookups -= 1;
    true
}
