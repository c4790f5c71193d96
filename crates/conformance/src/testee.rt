//! The answer to a request, as bytes.

ghost use Rattle.std.specs.Prelude.{◌<◌, length};

use crate::reply::{Reply, make_reply, make_too_large};
use crate::stop::Stop;
use pb_encode::{EncodeError, encode};
use pb_schema::{MessageId, Pool};
use pb_value::bodies::{empty_body, put_field};
use pb_value::{Content, DynamicMessage, ValueError};
use std::alloc::Global;

/// The pool of the messages that are tested, and in it the types of requests and responses.
#[derive(Clone, Copy)]
pub struct Testee<'p> {
    pub alloc: Global,
    pub pool: &'p Pool,
    pub request: MessageId,
    pub response: MessageId,
    ghost request_known: { request.0 < length pool.now.messages },
    ghost response_known: { response.0 < length pool.now.messages },
}

impl<'p> Testee<'p> {
    ghost use Rattle.std.specs.Prelude.{◌≡◌, ◌⊎◌, ◌≤◌, ◌<◌, ◌^◌, codes, length, None, Some, IfErr, IfOk, IsErrOf};
    ghost use Rattle.pb_schema.specs.Names.{message_names};
    ghost use Rattle.pb_schema.specs.Tables.{place_of};
    ghost use Rattle.pb_value.specs.Canon.{canon_bytes};
    ghost use Rattle.pb_value.specs.WellFormed.{IsWellFormed};
    ghost use Rattle.conformance.specs.Reply.{IsAnswer, message_of, too_large};
    ghost use Rattle.conformance.specs.declared.stop.Stop.TheVariants.{Memory, Protocol, TooLarge};

    /// The testee by the types of a pool.
    pub fn new(alloc: Global, pool: &'p Pool) -> Result<Testee<'p>, Stop>
        ensures pool { IfOk result (λ t. t.pool.now ≡ pool.now) }
        ensures request { IfOk result (λ t. place_of (codes "conformance.ConformanceRequest") (message_names pool.now) ≡ Some t.request.0) }
        ensures response { IfOk result (λ t. place_of (codes "conformance.ConformanceResponse") (message_names pool.now) ≡ Some t.response.0) }
        ensures refused { IfErr result (λ e. e ≡ Protocol) }
    {
        let Some(request) = pool.message_by_name("conformance.ConformanceRequest") else {
            return Err(Stop::Protocol);
        };
        let Some(response) = pool.message_by_name("conformance.ConformanceResponse") else {
            return Err(Stop::Protocol);
        };
        Ok(Testee {
            alloc,
            pool,
            request,
            response,
        })
    }

    /// The bytes of the response to the bytes of a request.
    pub fn answer(&self, request: &[u8]) -> Result<Vec<u8>, Stop>
        ensures answered { IfOk result (λ v. IsAnswer self.now.pool.now self.now.request.0 self.now.response.0 request.now v.items) }
        ensures small { IfOk result (λ v. length v.items < 2 ^ 31) }
    {
        let reply = make_reply(self.alloc, self.pool, self.request, request)?;
        match self.encoded(reply) {
            Err(Stop::TooLarge) => {
                let shorter = make_too_large(self.alloc)?;
                self.encoded(shorter)
            }
            answer => answer,
        }
    }

    /// The bytes of a response.
    fn encoded(&self, reply: Reply) -> Result<Vec<u8>, Stop>
        ensures made { IfOk result (λ v. v.items ≡ canon_bytes self.now.pool.now self.now.response.0 (message_of reply)) }
        ensures small { IfOk result (λ v. length v.items < 2 ^ 31) }
        ensures large { IsErrOf result TooLarge → 2 ^ 31 ≤ length (canon_bytes self.now.pool.now self.now.response.0 (message_of reply)) }
        ensures protocol { IsErrOf result Protocol → ¬ IsWellFormed self.now.pool.now self.now.response.0 (message_of reply) }
    {
        let response = self.response_of(reply)?;
        match encode(&response) {
            Ok(bytes) => Ok(bytes),
            Err(EncodeError::TooLarge) => Err(Stop::TooLarge),
            Err(EncodeError::Memory | EncodeError::Device { .. }) => Err(Stop::Memory),
        }
    }

    /// The response as a message.
    fn response_of(&self, reply: Reply) -> Result<DynamicMessage<'p>, Stop>
        ensures made { IfOk result (λ m. m ≡ record { pool = self.now.pool.now; kind = self.now.response.0; body = message_of reply }) }
        ensures refused { IfErr result (λ e. (e ≡ Memory) ⊎ ((e ≡ Protocol)
            × ¬ IsWellFormed self.now.pool.now self.now.response.0 (message_of reply))) }
    {
        let mut body = empty_body(self.alloc);
        put_field(&mut body, reply.field, Content::One(reply.value)).map_err(|_| Stop::Memory)?;
        match DynamicMessage::from_body(self.alloc, self.pool, self.response, body) {
            Ok(message) => Ok(message),
            Err(ValueError::Memory) => Err(Stop::Memory),
            Err(_) => Err(Stop::Protocol),
        }
    }
}
