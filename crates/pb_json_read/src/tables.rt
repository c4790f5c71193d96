//! The tables of names of types with many fields, and of enums with many values.

ghost use Rattle.std.specs.Prelude.{◌<◌, length, OnOk};
ghost use Rattle.pb_json_read.specs.NameTables.{AreFieldTables, AreValueTables};
ghost use Rattle.pb_json_read.specs.Tables.{AreTables};
ghost use Rattle.pb_schema.specs.Types.{Types};
ghost use Rattle.pb_json.specs.Given.{NamesGiven};

use crate::name_table::{NameTable, field_table, value_table};
use crate::names::fields_of;
use crate::scalars::values_of;
use pb_json::JsonNames;
use pb_schema::{EnumId, MessageId, Pool};
use std::alloc::{AllocError, Global};
use std::collections::BTreeMap;

/// From this many fields or values on there is a table; a walk along fewer costs less than a look-up.
const MANY: usize = 16;

/// A table is made once this many names were looked for in a type. To make it costs about as much as that many walks.
const WALKS: usize = 64;

/// Tables by the index of their message type or enum, and how many names were looked for in each.
#[derive(Drop)]
pub(crate) struct Tables {
    pub(crate) fields: BTreeMap<usize, NameTable>,
    pub(crate) values: BTreeMap<usize, NameTable>,
    members: BTreeMap<usize, usize>,
    strings: BTreeMap<usize, usize>,
}

/// Counts more names, and answers whether there are enough for a table.
fn are_enough(
    counts: &mut BTreeMap<usize, usize>,
    index: usize,
    more: usize,
) -> Result<bool, AllocError> {
    let count = match counts.get(&index) {
        Some(count) => count.saturating_add(more),
        None => more,
    };
    let _ = counts.insert(index, count)?;
    Ok(count >= WALKS)
}

/// Adds the table of a message type.
fn add_fields(
    alloc: Global,
    tables: &mut BTreeMap<usize, NameTable>,
    pool: &Pool,
    names: &JsonNames,
    message: MessageId,
) -> Result<(), AllocError>
    requires { message.0 < length pool.now.messages }
    ensures { OnOk result (AreFieldTables pool.now names.now tables.old
        → AreFieldTables pool.now names.now tables.new) }
{
    let table = field_table(alloc, names, message, fields_of(pool, message))?;
    drop(tables.insert(message.0, table)?);
    Ok(())
}

/// Adds the table of an enum.
fn add_values(
    alloc: Global,
    tables: &mut BTreeMap<usize, NameTable>,
    pool: &Pool,
    id: EnumId,
) -> Result<(), AllocError>
    requires { id.0 < length pool.now.enums }
    ensures { OnOk result (AreValueTables pool.now tables.old
        → AreValueTables pool.now tables.new) }
{
    let table = value_table(alloc, values_of(pool, id))?;
    drop(tables.insert(id.0, table)?);
    Ok(())
}

impl Tables {
    /// No tables.
    pub(crate) fn none(alloc: Global) -> Tables
        ensures { (pool : Types) (names : NamesGiven) → AreTables pool names result }
    {
        Tables {
            fields: BTreeMap::new(alloc),
            values: BTreeMap::new(alloc),
            members: BTreeMap::new(alloc),
            strings: BTreeMap::new(alloc),
        }
    }

    /// Counts names that are looked for in a message type, and makes its table where there are enough.
    pub(crate) fn count_members(
        &mut self,
        alloc: Global,
        pool: &Pool,
        names: &JsonNames,
        message: MessageId,
        more: usize,
    ) -> Result<(), AllocError>
        requires within { message.0 < length pool.now.messages }
        requires tables { AreTables pool.now names.now self.old }
        ensures { OnOk result (AreTables pool.now names.now self.new) }
    {
        if fields_of(pool, message).len() < MANY || self.fields.contains_key(&message.0) {
            return Ok(());
        }
        if !are_enough(&mut self.members, message.0, more)? {
            return Ok(());
        }
        add_fields(alloc, &mut self.fields, pool, names, message)?;
        Ok(())
    }

    /// Counts strings that name values of an enum, and makes its table where there are enough.
    pub(crate) fn count_strings(
        &mut self,
        alloc: Global,
        pool: &Pool,
        names: &JsonNames,
        id: EnumId,
        more: usize,
    ) -> Result<(), AllocError>
        requires within { id.0 < length pool.now.enums }
        requires tables { AreTables pool.now names.now self.old }
        ensures { OnOk result (AreTables pool.now names.now self.new) }
    {
        if values_of(pool, id).len() < MANY || self.values.contains_key(&id.0) {
            return Ok(());
        }
        if !are_enough(&mut self.strings, id.0, more)? {
            return Ok(());
        }
        add_values(alloc, &mut self.values, pool, id)?;
        Ok(())
    }
}
