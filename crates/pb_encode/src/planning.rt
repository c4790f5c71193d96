//! Measuring before anything is written. The call is in a module of its own, since its name and that of the type that
//! it makes differ only in case.

ghost use Rattle.std.specs.Prelude.{◌≡◌, ◌<◌, ◌^◌, length, IfOk, IfErr, OnOk};
ghost use Rattle.pb_encode.specs.Encoding.{bytes_of, IsRefused};

use crate::error::EncodeError;
use crate::plan::Plan;
use pb_value::DynamicMessage;

/// Measures each embedded message, map entry and packed list of a message once, in one walk. Refused where the encoding
/// would pass 2^31 - 1 bytes, or when memory runs out.
pub fn plan<'m>(message: &'m DynamicMessage<'_>) -> Result<Plan<'m>, EncodeError>
    ensures made { IfOk result (λ p. p ≡ message.now) }
    ensures fits { OnOk result (length (bytes_of message.now) < 2 ^ 31) }
    ensures refused { IfErr result (IsRefused (bytes_of message.now)) }
{
    Plan::new(message)
}
