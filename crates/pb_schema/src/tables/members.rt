//! The members of oneofs.

ghost use Rattle.std.specs.Prelude.{◌<◌, [], IfOk, OnOk, Vec, map};
ghost use Rattle.std.specs.declared.alloc.Global.{Global};
ghost use Rattle.pb_schema.specs.View.{field_view, message_view};
ghost use Rattle.pb_schema.specs.Tables.{IsMemberTable, AreMemberTables};
ghost use Rattle.pb_schema.specs.Loops.Members.{AddsMember};

use crate::types::{Field, MessageType, Shape};
use std::alloc::{AllocError, Global};

/// The numbers of the members of each oneof of a message, in the order of their declaration.
pub(crate) type MemberTable = Vec<Vec<u32>>;

/// Adds the number of a field to the members of its oneof.
fn add_member(table: &mut MemberTable, field: &Field) -> Result<(), AllocError>
    ensures { OnOk result (AddsMember (field_view field.now) table.old.items table.new.items) }
{
    if let Shape::OneofMember(oneof) = field.shape
        && let Some(members) = table.get_mut(oneof as usize)
    {
        members.push(field.number)?;
    }
    Ok(())
}

/// This many oneofs without members.
fn no_members(alloc: Global, oneofs: usize) -> Result<MemberTable, AllocError>
    ensures { IfOk result (λ table. IsMemberTable oneofs [] table.items) }
{
    let mut table = Vec::new(alloc);
    for _ in 0..oneofs {
        table.push(Vec::new(alloc))?;
    }
    Ok(table)
}

fn member_table(alloc: Global, fields: &[Field], oneofs: usize) -> Result<MemberTable, AllocError>
    ensures { IfOk result (λ table. IsMemberTable oneofs (map field_view fields.now) table.items) }
{
    let mut table = no_members(alloc, oneofs)?;
    for field in fields {
        add_member(&mut table, field)?;
    }
    Ok(table)
}

/// A table for each message.
pub(crate) fn member_tables(
    alloc: Global,
    messages: &[MessageType],
) -> Result<Vec<MemberTable>, AllocError>
    ensures { IfOk result (λ tables. AreMemberTables (map message_view messages.now) tables.items) }
{
    let mut tables = Vec::new(alloc);
    for message in messages {
        let table = member_table(alloc, &message.fields, message.oneofs.len())?;
        tables.push(table)?;
    }
    Ok(tables)
}
