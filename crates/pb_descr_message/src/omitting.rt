//! The list of what lenient reading leaves out of a set.

ghost use Rattle.std.specs.Prelude.{◌≡◌, ◌++◌, ◌∷◌, [], map, flat_map, string_bytes, IfOk, OnOk};
ghost use Rattle.pb_schema.specs.Names.{in_scope};
ghost use Rattle.pb_value.specs.View.{body_view, value_view};
ghost use Rattle.pb_value.specs.Data.{fields_of};
ghost use Rattle.pb_descr_message.specs.Held.{fields_in, data_at};
ghost use Rattle.pb_descr_message.specs.Omitted.{omitted_view, extension_parts, range_parts, field_parts, own_parts};
ghost use Rattle.pb_descr_message.specs.Omitted.{message_parts, file_parts, parts_from, omitted_in};

use crate::declaring::is_proto2;
use crate::held::{content_in, name_at, text_at, values_at};
use crate::omitted::{Omitted, OmittedPart};
use crate::stripping::{is_closed_entry, is_required};
use pb_value::{Body, Content, Value};
use std::alloc::{AllocError, Global};

/// A name in a scope, which may be empty.
fn scoped(alloc: Global, scope: &str, name: &str) -> Result<String, AllocError>
    ensures { IfOk result (λ s. string_bytes s ≡ in_scope scope.now name.now) }
{
    let mut full_name = String::from_str(alloc, scope)?;
    if !scope.is_empty() {
        full_name.push('.')?;
    }
    full_name.push_str(name)?;
    Ok(full_name)
}

/// Adds a part of the declaration of a full name.
fn add_part(
    alloc: Global,
    omitted: &mut Vec<Omitted>,
    file: usize,
    name: &str,
    part: OmittedPart,
) -> Result<(), AllocError>
    ensures { OnOk result (map omitted_view omitted.new.items
        ≡ map omitted_view omitted.old.items
        ++ (record { file = file; name = name.now; part = part }) ∷ []) }
{
    let name = String::from_str(alloc, name)?;
    omitted.push(Omitted { file, name, part })?;
    Ok(())
}

/// Adds the extensions that a scope declares.
fn add_extensions(
    alloc: Global,
    omitted: &mut Vec<Omitted>,
    file: usize,
    scope: &str,
    extensions: &[Value],
) -> Result<(), AllocError>
    ensures { OnOk result (map omitted_view omitted.new.items
        ≡ map omitted_view omitted.old.items ++ flat_map (extension_parts file scope.now)
        (map value_view extensions.now)) }
{
    for extension in extensions {
        let name = scoped(alloc, scope, name_at(extension, 1))?;
        add_part(alloc, omitted, file, &name, OmittedPart::Extension)?;
    }
    Ok(())
}

/// Adds the ranges of the message of a full name.
fn add_ranges(
    alloc: Global,
    omitted: &mut Vec<Omitted>,
    file: usize,
    name: &str,
    ranges: &[Value],
) -> Result<(), AllocError>
    ensures { OnOk result (map omitted_view omitted.new.items
        ≡ map omitted_view omitted.old.items ++ flat_map (range_parts file name.now)
        (map value_view ranges.now)) }
{
    for _range in ranges {
        add_part(alloc, omitted, file, name, OmittedPart::ExtensionRange)?;
    }
    Ok(())
}

fn add_field(
    alloc: Global,
    omitted: &mut Vec<Omitted>,
    file: usize,
    scope: &str,
    field: &Value,
) -> Result<(), AllocError>
    ensures { OnOk result (map omitted_view omitted.new.items
        ≡ map omitted_view omitted.old.items ++ field_parts file scope.now (value_view field.now)) }
{
    let name = scoped(alloc, scope, name_at(field, 1))?;
    if is_required(field) {
        add_part(alloc, omitted, file, &name, OmittedPart::Required)?;
    }
    if text_at(field, 7).is_some() {
        add_part(alloc, omitted, file, &name, OmittedPart::DefaultValue)?;
    }
    Ok(())
}

fn add_fields(
    alloc: Global,
    omitted: &mut Vec<Omitted>,
    file: usize,
    scope: &str,
    fields: &[Value],
) -> Result<(), AllocError>
    ensures { OnOk result (map omitted_view omitted.new.items
        ≡ map omitted_view omitted.old.items ++ flat_map (field_parts file scope.now)
        (map value_view fields.now)) }
{
    for field in fields {
        add_field(alloc, omitted, file, scope, field)?;
    }
    Ok(())
}

/// Adds the parts of the message of a full name, beside those of the messages in it.
fn add_own(
    alloc: Global,
    omitted: &mut Vec<Omitted>,
    file: usize,
    proto2: bool,
    name: &str,
    message: &Value,
) -> Result<(), AllocError>
    ensures { OnOk result (map omitted_view omitted.new.items
        ≡ map omitted_view omitted.old.items ++ own_parts file proto2 name.now
        (fields_in (value_view message.now))) }
{
    if is_closed_entry(message, proto2) {
        add_part(alloc, omitted, file, name, OmittedPart::ClosedMap)?;
    }
    add_ranges(alloc, omitted, file, name, values_at(message, 5))?;
    add_extensions(alloc, omitted, file, name, values_at(message, 6))?;
    add_fields(alloc, omitted, file, name, values_at(message, 2))?;
    Ok(())
}

#[cycle(omit)]
fn add_message(
    alloc: Global,
    omitted: &mut Vec<Omitted>,
    file: usize,
    proto2: bool,
    scope: &str,
    message: &Value,
) -> Result<(), AllocError>
    ensures { OnOk result (map omitted_view omitted.new.items
        ≡ map omitted_view omitted.old.items ++ message_parts file proto2 scope.now
        (value_view message.now)) }
{
    let name = scoped(alloc, scope, name_at(message, 1))?;
    add_own(alloc, omitted, file, proto2, &name, message)?;
    add_messages(alloc, omitted, file, proto2, &name, values_at(message, 3))?;
    Ok(())
}

#[cycle(omit)]
fn add_messages(
    alloc: Global,
    omitted: &mut Vec<Omitted>,
    file: usize,
    proto2: bool,
    scope: &str,
    messages: &[Value],
) -> Result<(), AllocError>
    ensures { OnOk result (map omitted_view omitted.new.items
        ≡ map omitted_view omitted.old.items ++ flat_map (message_parts file proto2 scope.now)
        (map value_view messages.now)) }
{
    for message in messages {
        add_message(alloc, omitted, file, proto2, scope, message)?;
    }
    Ok(())
}

fn add_file(
    alloc: Global,
    omitted: &mut Vec<Omitted>,
    index: usize,
    file: &Value,
) -> Result<(), AllocError>
    ensures { OnOk result (map omitted_view omitted.new.items
        ≡ map omitted_view omitted.old.items ++ file_parts index (value_view file.now)) }
{
    let package = name_at(file, 2);
    add_extensions(alloc, omitted, index, package, values_at(file, 7))?;
    add_messages(
        alloc,
        omitted,
        index,
        is_proto2(file),
        package,
        values_at(file, 4),
    )?;
    Ok(())
}

fn omitted_of(alloc: Global, files: &[Value]) -> Result<Vec<Omitted>, AllocError>
    ensures { IfOk result (λ v. map omitted_view v.items
        ≡ parts_from 0 (map value_view files.now)) }
{
    let mut omitted = Vec::new(alloc);
    for (index, file) in files.iter().enumerate() {
        add_file(alloc, &mut omitted, index, file)?;
    }
    Ok(omitted)
}

/// The files of a set.
fn files_of(set: &Body) -> &[Value]
    ensures { map value_view result.now ≡ data_at 1 (fields_of (body_view set.now)) }
{
    match content_in(set, 1) {
        Some(Content::List(files)) => files.as_slice(),
        _ => &[],
    }
}

/// What lenient reading leaves out of a set.
pub fn omitted_in(alloc: Global, set: &Body) -> Result<Vec<Omitted>, AllocError>
    ensures { IfOk result (λ v. map omitted_view v.items ≡ omitted_in (body_view set.now)) }
{
    omitted_of(alloc, files_of(set))
}
