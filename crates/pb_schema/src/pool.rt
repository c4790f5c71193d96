//! Pools: types that meet their rules.

pub(crate) mod same;

use crate::error::PoolError;
use crate::pool::same::{same_enums, same_files, same_messages};
use crate::rules::meet_rules;
use crate::scalars::low_half;
use crate::tables::names::field_named;
use crate::tables::numbers::field_at;
use crate::tables::values::{first_named, has_number};
use crate::tables::{Tables, tables_of};
use crate::types::{EnumId, EnumType, Field, FileInfo, Kind, MessageId, MessageType};
use std::alloc::{AllocError, Global};
use std::marker::Model;

/// Message types and enums with their files. Every rule of docs/SCHEMAS.md holds of them.
#[derive(Debug, Drop)]
pub struct Pool {
    files: Vec<FileInfo>,
    messages: Vec<MessageType>,
    enums: Vec<EnumType>,
    tables: Tables,
}

impl Model for Pool {
    ghost use Rattle.pb_schema.specs.Types.{Types};

    ghost Value = { Types };

    ghost use Rattle.pb_schema.specs.View.{types_of};
    ghost use Rattle.pb_schema.specs.Rules.{IsPool};
    ghost use Rattle.pb_schema.specs.Tables.{HasTables};

    ghost view = { λ p. types_of p.files.items p.messages.items p.enums.items };

    ghost invariant = { λ p. let ts = types_of p.files.items p.messages.items p.enums.items in IsPool ts × HasTables ts p.tables };
}

impl Pool {
    ghost use Rattle.std.specs.Prelude.{◌≡◌, ◌<◌, length, map, option_map, slice_get, IfOk, IfErr, IfSome};
    ghost use Rattle.std.specs.Bool.{Decides};
    ghost use Rattle.pb_schema.specs.declared.error.PoolError.TheVariants.{BadParts};
    ghost use Rattle.pb_schema.specs.Types.{message_fields, field_numbered};
    ghost use Rattle.pb_schema.specs.View.{field_view, file_view, message_view, enum_view, types_of};
    ghost use Rattle.pb_schema.specs.Names.{message_names as message_names_of, enum_names as enum_names_of};
    ghost use Rattle.pb_schema.specs.Tables.{place_of, field_named as named_field};
    ghost use Rattle.pb_schema.specs.Rules.{IsPool, IsFieldOf};
    ghost use Rattle.pb_schema.specs.Oneofs.{member_numbers};
    ghost use Rattle.pb_schema.specs.EnumValues.{value_name, enum_values};
    ghost use Rattle.pb_wire.specs.Record.{varint};
    ghost use Rattle.pb_schema.specs.Kinds.{closed_enum};
    ghost use Rattle.pb_schema.specs.Closed.{declares, is_undeclared};

    /// The pool of its parts, where they meet every rule.
    ///
    /// Takes memory for tables of names and numbers, and time in proportion to the parts and the full names of messages and enums.
    /// Where a field names a type of a file that is no direct import, the imports are walked from the field's file, once a file.
    pub fn from_parts(
        alloc: Global,
        files: Vec<FileInfo>,
        messages: Vec<MessageType>,
        enums: Vec<EnumType>,
    ) -> Result<Pool, PoolError>
        ensures made { IfOk result (λ p. p ≡ types_of files.items messages.items enums.items) }
        ensures rules { IfOk result (λ p. IsPool p) }
        ensures refused { IfErr result (λ e. e ≡ BadParts → ¬ IsPool (types_of files.items messages.items enums.items)) }
    {
        let holds = meet_rules(alloc, &files, &messages, &enums)?;
        if !holds {
            return Err(PoolError::BadParts);
        }
        let pool = Pool::from_known_parts(alloc, files, messages, enums)?;
        Ok(pool)
    }

    /// The pool of parts of which every rule is known to hold. Nothing is judged: only the tables are made that names and numbers are
    /// looked up by. The only error is out of memory.
    pub fn from_known_parts(
        alloc: Global,
        files: Vec<FileInfo>,
        messages: Vec<MessageType>,
        enums: Vec<EnumType>,
    ) -> Result<Pool, AllocError>
        requires { IsPool (types_of files.items messages.items enums.items) }
        ensures { IfOk result (λ p. p ≡ types_of files.items messages.items enums.items) }
    {
        let tables = tables_of(alloc, &files, &messages, &enums)?;
        Ok(Pool {
            files,
            messages,
            enums,
            tables,
        })
    }

    /// The files, in their order.
    pub fn files(&self) -> &[FileInfo]
        ensures listed { map file_view result.now ≡ self.now.files }
        ensures rules { IsPool self.now }
    {
        self.files.as_slice()
    }

    /// The message types, in declaration order. A `MessageId` is an index here.
    pub fn messages(&self) -> &[MessageType]
        ensures listed { map message_view result.now ≡ self.now.messages }
        ensures rules { IsPool self.now }
    {
        self.messages.as_slice()
    }

    /// The enums, in declaration order. An `EnumId` is an index here.
    pub fn enums(&self) -> &[EnumType]
        ensures listed { map enum_view result.now ≡ self.now.enums }
        ensures rules { IsPool self.now }
    {
        self.enums.as_slice()
    }

    /// Whether another pool holds the same files, message types and enums, each in the same order. In time by the smaller pool's
    /// parts.
    pub fn equals(&self, other: &Pool) -> bool
        ensures same { Decides result (self.now ≡ other.now) }
        ensures rules { IsPool self.now }
    {
        same_files(self.files(), other.files())
            && same_messages(self.messages(), other.messages())
            && same_enums(self.enums(), other.enums())
    }

    /// The message type of a full name, which has no leading dot.
    pub fn message_by_name(&self, name: &str) -> Option<MessageId>
        ensures found { option_map (λ m. m.0) result ≡ place_of name.now (message_names_of self.now) }
        ensures within { IfSome result (λ m. m.0 < length self.now.messages) }
    {
        match self.tables.messages.index_of(name.as_bytes()) {
            Some(index) => Some(MessageId(index)),
            None => None,
        }
    }

    /// The enum of a full name, which has no leading dot.
    pub fn enum_by_name(&self, name: &str) -> Option<EnumId>
        ensures found { option_map (λ e. e.0) result ≡ place_of name.now (enum_names_of self.now) }
        ensures within { IfSome result (λ e. e.0 < length self.now.enums) }
    {
        match self.tables.enums.index_of(name.as_bytes()) {
            Some(index) => Some(EnumId(index)),
            None => None,
        }
    }

    /// The full name of a message type, without a leading dot, in ASCII.
    pub fn message_name(&self, message: MessageId) -> &[u8]
        requires { message.0 < length self.now.messages }
        ensures found { slice_get (message_names_of self.now) message.0 ≡ Some result.now }
    {
        match self.tables.messages.get(message.0) {
            Some(name) => name,
            None => &[],
        }
    }

    /// The full name of an enum, without a leading dot, in ASCII.
    pub fn enum_name(&self, entry: EnumId) -> &[u8]
        requires { entry.0 < length self.now.enums }
        ensures found { slice_get (enum_names_of self.now) entry.0 ≡ Some result.now }
    {
        match self.tables.enums.get(entry.0) {
            Some(name) => name,
            None => &[],
        }
    }

    /// The name of the first value of an enum with this number.
    pub fn value_name(&self, entry: EnumId, number: i32) -> Option<&str>
        requires { entry.0 < length self.now.enums }
        ensures found { option_map (λ s. s.now) result ≡ value_name number (enum_values self.now entry.0) }
    {
        first_named(
            &self.enums[entry.0].values,
            &self.tables.values[entry.0],
            number,
        )
    }

    /// Whether an enum declares a value with this number. An index out of range declares none.
    #[inline(always)]
    pub fn declares(&self, entry: EnumId, number: i32) -> bool
        ensures { result ≡ declares self.now entry.0 number }
    {
        match self.tables.values.get(entry.0) {
            Some(table) => has_number(table, number),
            None => false,
        }
    }

    /// Whether the number of a varint is one that the closed enum of a kind doesn't declare. Its low 32 bits are asked for. A kind
    /// that is no closed enum has no such number.
    #[inline(always)]
    pub fn is_undeclared(&self, kind: Kind, number: u64) -> bool
        ensures { result ≡ is_undeclared self.now (closed_enum kind) (varint number) }
    {
        let Kind::ClosedEnum(entry) = kind else {
            return false;
        };
        !self.declares(entry, low_half(number).cast_signed())
    }

    /// The field of a number in a message type.
    #[inline(always)]
    pub fn field_by_number(&self, message: MessageId, number: u32) -> Option<&Field>
        requires { message.0 < length self.now.messages }
        ensures found { option_map (λ f. field_view f.now) result ≡ field_numbered number (message_fields self.now message.0) }
        ensures rules { IfSome result (λ f. IsFieldOf self.now message.0 (field_view f.now)) }
        ensures pool { IsPool self.now }
    {
        field_at(
            &self.messages[message.0].fields,
            &self.tables.numbers[message.0],
            number,
        )
    }

    /// The field of a simple name in a message type.
    pub fn field_by_name(&self, message: MessageId, name: &str) -> Option<&Field>
        requires { message.0 < length self.now.messages }
        ensures found { option_map (λ f. field_view f.now) result ≡ named_field name.now (message_fields self.now message.0) }
        ensures rules { IfSome result (λ f. IsFieldOf self.now message.0 (field_view f.now)) }
        ensures pool { IsPool self.now }
    {
        field_named(
            &self.messages[message.0].fields,
            &self.tables.names[message.0],
            name,
        )
    }

    /// The numbers of the members of a oneof in the order of their declaration. There are none where the message type has no such
    /// oneof.
    pub fn oneof_members(&self, message: MessageId, oneof: u32) -> &[u32]
        requires { message.0 < length self.now.messages }
        ensures found { result.now ≡ member_numbers oneof (message_fields self.now message.0) }
        ensures rules { IsPool self.now }
    {
        match self.tables.members[message.0].get(oneof as usize) {
            Some(members) => members.as_slice(),
            None => &[],
        }
    }
}
