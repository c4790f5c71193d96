//! What a pool keeps beside its parts.

pub(crate) mod members;
pub(crate) mod names;
pub(crate) mod numbers;
pub(crate) mod values;

ghost use Rattle.std.specs.Prelude.{IfOk};
ghost use Rattle.pb_schema.specs.View.{types_of};
ghost use Rattle.pb_schema.specs.Rules.{IsPool};
ghost use Rattle.pb_schema.specs.Tables.{HasTables};

use crate::names::set::AddedNames;
use crate::names::{enum_names, message_names};
use crate::tables::members::{MemberTable, member_tables};
use crate::tables::names::{NameTable, name_tables};
use crate::tables::numbers::{NumberTable, number_tables};
use crate::tables::values::{ValueTable, value_tables};
use crate::types::{EnumType, FileInfo, MessageType};
use pb_names::name_set::NameSet;
use std::alloc::{AllocError, Global};

/// The full names of messages and enums in their order, of each message the numbers of its fields, the members of its oneofs and the
/// names of many fields, and of each enum the numbers of its values.
#[derive(Debug, Drop)]
pub(crate) struct Tables {
    pub(crate) messages: NameSet,
    pub(crate) enums: NameSet,
    pub(crate) numbers: Vec<NumberTable>,
    pub(crate) members: Vec<MemberTable>,
    pub(crate) names: Vec<NameTable>,
    pub(crate) values: Vec<ValueTable>,
}

/// The tables of parts that meet every rule.
pub(crate) fn tables_of(
    alloc: Global,
    files: &[FileInfo],
    messages: &[MessageType],
    enums: &[EnumType],
) -> Result<Tables, AllocError>
    requires { IsPool (types_of files.now messages.now enums.now) }
    ensures { IfOk result (HasTables (types_of files.now messages.now enums.now)) }
{
    let names = message_names(alloc, files, messages)?;
    let names_of_enums = enum_names(alloc, files, &names, enums)?;
    let added_enums = AddedNames::collect(alloc, names_of_enums)?;
    let added_messages = AddedNames::collect(alloc, names)?;
    let numbers = number_tables(alloc, messages)?;
    let members = member_tables(alloc, messages)?;
    let field_names = name_tables(alloc, messages)?;
    let values = value_tables(alloc, enums)?;
    Ok(Tables {
        messages: added_messages.set,
        enums: added_enums.set,
        numbers,
        members,
        names: field_names,
        values,
    })
}
