//! Fields by their simple names.

ghost use Rattle.std.specs.Prelude.{◌≡◌, IfOk, map, option_map};
ghost use Rattle.pb_schema.specs.View.{field_view, message_view};
ghost use Rattle.pb_schema.specs.Names.Set.{IsSetOf};
ghost use Rattle.pb_schema.specs.Tables.{IsNameTable, AreNameTables, field_named as named_field};

use crate::names::set::AddedNames;
use crate::types::{Field, MessageType};
use pb_names::name_set::NameSet;
use std::alloc::{AllocError, Global};

/// From this many fields on a message has a table of their names; fewer are searched one by one.
const MANY: usize = 16;

/// The simple names of a message's fields in their order, where there are many.
pub(crate) type NameTable = Option<NameSet>;

/// The simple names of some fields.
fn simple_names(alloc: Global, fields: &[Field]) -> Result<AddedNames, AllocError>
    ensures { IfOk result (IsSetOf (map (λ f. f.name) (map field_view fields.now))) }
{
    let mut names = AddedNames::new(alloc);
    for field in fields {
        let name = field.name.as_bytes().to_vec(alloc)?;
        names.add(name)?;
    }
    Ok(names)
}

fn name_table(alloc: Global, fields: &[Field]) -> Result<NameTable, AllocError>
    ensures { IfOk result (IsNameTable (map field_view fields.now)) }
{
    if fields.len() < MANY {
        return Ok(None);
    }
    let names = simple_names(alloc, fields)?;
    if names.differ {
        Ok(Some(names.set))
    } else {
        Ok(None)
    }
}

/// A table for each message.
pub(crate) fn name_tables(
    alloc: Global,
    messages: &[MessageType],
) -> Result<Vec<NameTable>, AllocError>
    ensures { IfOk result (λ tables. AreNameTables (map message_view messages.now) tables.items) }
{
    let mut tables = Vec::new(alloc);
    for message in messages {
        let table = name_table(alloc, &message.fields)?;
        tables.push(table)?;
    }
    Ok(tables)
}

fn find_name<'a>(fields: &'a [Field], name: &str) -> Option<&'a Field>
    ensures { option_map (λ f. field_view f.now) result ≡ named_field name.now (map field_view fields.now) }
{
    for field in fields {
        if field.name.as_str() == name {
            return Some(field);
        }
    }
    None
}

/// The field of a simple name: by the table where there is one.
pub(crate) fn field_named<'a>(
    fields: &'a [Field],
    names: &NameTable,
    name: &str,
) -> Option<&'a Field>
    requires { IsNameTable (map field_view fields.now) names.now }
    ensures { option_map (λ f. field_view f.now) result ≡ named_field name.now (map field_view fields.now) }
{
    let Some(set) = names else {
        return find_name(fields, name);
    };
    match set.index_of(name.as_bytes()) {
        Some(index) => fields.get(index),
        None => None,
    }
}
