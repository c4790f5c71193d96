//! How the name of a message type is printed.

ghost use Rattle.std.specs.Prelude.{◌≡◌, ◌<◌, length, option_map, slice_get, Some, IfSome};
ghost use Rattle.pb_schema.specs.Nesting.{parent_of};
ghost use Rattle.pb_schema.specs.Rules.{IsPool};
ghost use Rattle.pb_schema.specs.View.{message_view};

use pb_schema::{MessageId, MessageType, Pool};
use std::fmt;

/// A message type, which prints as its full name.
#[derive(Drop)]
pub(crate) struct FullName<'a> {
    pool: &'a Pool,
    kind: MessageId,
    ghost within: { kind.0 < length pool.now.messages },
}

impl<'a> FullName<'a> {
    pub(crate) fn new(pool: &'a Pool, message_type: MessageId) -> FullName<'a>
        requires { message_type.0 < length pool.now.messages }
    {
        FullName {
            pool,
            kind: message_type,
        }
    }
}

impl fmt::Debug for FullName<'_> {
    fn fmt<W: fmt::Write>(&self, f: &mut fmt::Formatter<W>) -> fmt::Result {
        write_name(f, self.pool, self.kind)
    }
}

/// Writes the full name of a message type: the names of its package and of the messages that it is declared in, and its own.
fn write_name<W: fmt::Write>(
    f: &mut fmt::Formatter<W>,
    pool: &Pool,
    message_type: MessageId,
) -> fmt::Result
    requires { message_type.0 < length pool.now.messages }
{
    match type_around(pool, message_type) {
        Some(parent) => {
            write_name(f, pool, parent)?;
            f.write_str(".")?;
        }
        None => write_package(f, pool, message_type)?,
    }
    f.write_str(name_of(pool, message_type))
}

/// Writes the package of a message type and a dot, if there is one.
fn write_package<W: fmt::Write>(
    f: &mut fmt::Formatter<W>,
    pool: &Pool,
    message_type: MessageId,
) -> fmt::Result
    requires { message_type.0 < length pool.now.messages }
{
    let Some(file) = pool.files().get(type_of(pool, message_type).file) else {
        return Ok(());
    };
    if file.package.is_empty() {
        return Ok(());
    }
    f.write_str(file.package.as_str())?;
    f.write_str(".")
}

/// What a pool says of a message type.
fn type_of(pool: &Pool, message_type: MessageId) -> &MessageType
    requires { message_type.0 < length pool.now.messages }
    ensures found { slice_get pool.now.messages message_type.0 ≡ Some (message_view result.now) }
    ensures rules { IsPool pool.now }
{
    &pool.messages()[message_type.0]
}

/// The simple name of a message type.
fn name_of(pool: &Pool, message_type: MessageId) -> &str
    requires { message_type.0 < length pool.now.messages }
    ensures { option_map (λ t. t.name) (slice_get pool.now.messages message_type.0) ≡ Some result.now }
{
    type_of(pool, message_type).name.as_str()
}

/// The message that a message type is declared in.
fn declared_in(pool: &Pool, message_type: MessageId) -> Option<MessageId>
    requires { message_type.0 < length pool.now.messages }
    ensures parent { option_map (λ p. p.0) result ≡ parent_of pool.now.messages message_type.0 }
    ensures rules { IsPool pool.now }
{
    type_of(pool, message_type).parent
}

/// The message type around this one, which has a smaller index.
fn type_around(pool: &Pool, message_type: MessageId) -> Option<MessageId>
    requires { message_type.0 < length pool.now.messages }
    ensures { IfSome result (λ p. p.0 < message_type.0) }
{
    declared_in(pool, message_type)
}
