//! Tables of names: one look-up finds what a walk along fields, or along the values of an enum, finds.

ghost use Rattle.std.specs.Prelude.{◌≡◌, ◌==◌, ◌++◌, [], ℕ, List, Some, map, option_map, string_bytes, IfOk, OnOk};
ghost use Rattle.std.specs.Option.{option_or};
ghost use Rattle.pb_schema.specs.View.{field_view};
ghost use Rattle.pb_json.specs.JsonNames.{camel_letter, json_name, lower_camel};
ghost use Rattle.pb_json_read.specs.declared.name_table.Naming.TheVariants.{Given};
ghost use Rattle.pb_json_read.specs.NameTables.{first_named, name_by, place_if, place_in, value_name, IsFieldTable, IsValueTable};

use pb_json::JsonNames;
use pb_schema::{Field, MessageId};
use std::alloc::{AllocError, Global};
use std::collections::BTreeMap;

/// By name the index of the first thing that has it.
pub(crate) type NameTable = BTreeMap<Vec<u8>, usize>;

/// A sort of names that fields have.
#[derive(Clone, Copy)]
pub(crate) enum Naming {
    /// Those that they are given.
    Given,
    Declared,
    /// Those in JSON: given, or else in lowerCamelCase.
    InJson,
}

/// Adds the index of a name, unless the name is there.
fn note(table: &mut NameTable, name: Vec<u8>, index: usize) -> Result<(), AllocError>
    ensures { OnOk result ((s : List ℕ) → place_in table.new s
        ≡ option_or (place_in table.old s) (place_if (Some name.items) index s)) }
{
    if table.contains_key(name.as_slice()) {
        return Ok(());
    }
    drop(table.insert(name, index)?);
    Ok(())
}

/// The same of a name that may be missing.
fn note_some(table: &mut NameTable, name: Option<Vec<u8>>, index: usize) -> Result<(), AllocError>
    ensures { OnOk result ((s : List ℕ) → place_in table.new s
        ≡ option_or (place_in table.old s) (place_if (option_map (λ v. v.items) name) index s)) }
{
    match name {
        Some(name) => {
            note(table, name, index)?;
            Ok(())
        }
        None => Ok(()),
    }
}

/// Adds a letter of a name, upper case after an underscore. Answers whether it is an underscore, which is left out.
fn push_camel(name: &mut Vec<u8>, raised: bool, byte: u8) -> Result<bool, AllocError>
    ensures pushed { OnOk result (name.new.items ≡ name.old.items ++ camel_letter raised byte) }
    ensures underscore { IfOk result (λ is. is ≡ (byte == 95)) }
{
    if byte == b'_' {
        return Ok(true);
    }
    if raised {
        name.push(byte.to_ascii_uppercase())?;
    } else {
        name.push(byte)?;
    }
    Ok(false)
}

/// A declared name in lowerCamelCase.
fn camel(alloc: Global, declared: &[u8]) -> Result<Vec<u8>, AllocError>
    ensures { IfOk result (λ name. name.items ≡ lower_camel declared.now) }
{
    let mut name = Vec::new(alloc);
    let mut raised = false;
    for byte in declared {
        raised = push_camel(&mut name, raised, *byte)?;
    }
    Ok(name)
}

/// The name of a field in JSON.
fn name_in_json(
    alloc: Global,
    names: &JsonNames,
    message: MessageId,
    field: &Field,
) -> Result<Vec<u8>, AllocError>
    ensures { IfOk result (λ name. name.items ≡ json_name names.now message.0
        (field_view field.now)) }
{
    match names.given(message, field.number) {
        Some(given) => Ok(given.as_bytes().to_vec(alloc)?),
        None => Ok(camel(alloc, field.name.as_bytes())?),
    }
}

/// The name that a field is given.
fn name_given(
    alloc: Global,
    names: &JsonNames,
    message: MessageId,
    field: &Field,
) -> Result<Option<Vec<u8>>, AllocError>
    ensures { IfOk result (λ name. option_map (λ v. v.items) name
        ≡ name_by Given names.now message.0 (field_view field.now)) }
{
    match names.given(message, field.number) {
        Some(given) => Ok(Some(given.as_bytes().to_vec(alloc)?)),
        None => Ok(None),
    }
}

/// The name of a sort that a field has.
fn name_by(
    alloc: Global,
    names: &JsonNames,
    message: MessageId,
    field: &Field,
    naming: Naming,
) -> Result<Option<Vec<u8>>, AllocError>
    ensures { IfOk result (λ name. option_map (λ v. v.items) name
        ≡ name_by naming names.now message.0 (field_view field.now)) }
{
    match naming {
        Naming::Given => Ok(name_given(alloc, names, message, field)?),
        Naming::Declared => Ok(Some(field.name.as_bytes().to_vec(alloc)?)),
        Naming::InJson => Ok(Some(name_in_json(alloc, names, message, field)?)),
    }
}

/// Adds the names of a sort that fields have, those that are not there.
fn add_names(
    alloc: Global,
    table: &mut NameTable,
    names: &JsonNames,
    message: MessageId,
    fields: &[Field],
    naming: Naming,
) -> Result<(), AllocError>
    ensures { OnOk result ((s : List ℕ) → place_in table.new s ≡ option_or (place_in table.old s)
        (first_named (name_by naming names.now message.0) (map field_view fields.now) s)) }
{
    for index in 0..fields.len() {
        let name = name_by(alloc, names, message, &fields[index], naming)?;
        note_some(table, name, index)?;
    }
    Ok(())
}

/// The table of the names of a message type's fields.
pub(crate) fn field_table(
    alloc: Global,
    names: &JsonNames,
    message: MessageId,
    fields: &[Field],
) -> Result<NameTable, AllocError>
    ensures { IfOk result (IsFieldTable names.now message.0 (map field_view fields.now)) }
{
    let mut table = BTreeMap::new(alloc);
    add_names(alloc, &mut table, names, message, fields, Naming::Given)?;
    add_names(alloc, &mut table, names, message, fields, Naming::Declared)?;
    add_names(alloc, &mut table, names, message, fields, Naming::InJson)?;
    Ok(table)
}

/// The table of the names of an enum's values.
pub(crate) fn value_table(alloc: Global, values: &[(String, i32)]) -> Result<NameTable, AllocError>
    ensures { IfOk result (IsValueTable (map (λ v. (string_bytes v.0, v.1)) values.now)) }
{
    let mut table = BTreeMap::new(alloc);
    for index in 0..values.len() {
        let name = values[index].0.as_bytes().to_vec(alloc)?;
        note(&mut table, name, index)?;
    }
    Ok(table)
}
