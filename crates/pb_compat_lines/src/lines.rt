//! The lines of a comparison. Each begins with a prefix.

ghost use Rattle.std.specs.Prelude.{◌≡◌, ◌<◌, ◌++◌, ◌||◌, length, option_map, true, IfOk, OnOk};
ghost use Rattle.pb_schema.specs.Names.{message_names, name_at};
ghost use Rattle.pb_schema.specs.View.{field_view};
ghost use Rattle.pb_compat.specs.Lines.{field_at};
ghost use Rattle.pb_compat_lines.specs.Lines.{compared_lines, field_lead, lead_text, pair_note, types_lines};
ghost use Rattle.pb_compat_lines.specs.Lines.{lacks, lacks_below, line_of, missing_at, missing_below, missing_line, or_ok};

use pb_compat::{ComparedTypes, Step, namesake};
use pb_schema::{Field, MessageId, Pool};
use std::alloc::{AllocError, Global};

/// Adds a line.
fn add_line(text: &mut Vec<u8>, prefix: &[u8], line: &[u8]) -> Result<(), AllocError>
    ensures { OnOk result (text.new.items ≡ text.old.items ++ line_of prefix.now line.now) }
{
    text.extend_from_slice(prefix)?;
    text.extend_from_slice(line)?;
    text.push(b'\n')?;
    Ok(())
}

/// Adds the line that says that there is nothing to report, if there is nothing.
pub(crate) fn add_ok(text: &mut Vec<u8>, prefix: &[u8]) -> Result<(), AllocError>
    ensures { OnOk result (text.new.items ≡ or_ok prefix.now text.old.items) }
{
    if text.is_empty() {
        add_line(text, prefix, b"ok")?;
    }
    Ok(())
}

/// Adds the line of a type that the new pool lacks, and answers so.
fn add_missing_type(
    text: &mut Vec<u8>,
    prefix: &[u8],
    old: &Pool,
    message: MessageId,
) -> Result<bool, AllocError>
    requires { message.0 < length old.now.messages }
    ensures added { OnOk result (text.new.items
        ≡ text.old.items ++ missing_line prefix.now old.now message.0) }
    ensures lacks { IfOk result (λ b. b ≡ true) }
{
    text.extend_from_slice(prefix)?;
    text.extend_from_slice(old.message_name(message))?;
    text.extend_from_slice(b" breaks missing\n")?;
    Ok(true)
}

/// Adds a line if the new pool lacks a type of the old one, and answers whether it does.
fn add_if_missing(
    text: &mut Vec<u8>,
    prefix: &[u8],
    old: &Pool,
    new: &Pool,
    message: MessageId,
) -> Result<bool, AllocError>
    requires { message.0 < length old.now.messages }
    ensures added { OnOk result (text.new.items
        ≡ text.old.items ++ missing_at prefix.now old.now new.now message.0) }
    ensures lacks { IfOk result (λ b. b ≡ lacks old.now new.now message.0) }
{
    match namesake(old, message, new) {
        Some(_) => Ok(false),
        None => add_missing_type(text, prefix, old, message),
    }
}

/// Whether one of two holds.
pub(crate) fn either(first: bool, second: bool) -> bool
    ensures { result ≡ (first || second) }
{
    first || second
}

/// Adds a line for each type of the old pool that the new one lacks, and answers whether there is one.
pub(crate) fn add_missing(
    text: &mut Vec<u8>,
    prefix: &[u8],
    old: &Pool,
    new: &Pool,
) -> Result<bool, AllocError>
    ensures added { OnOk result (text.new.items
        ≡ text.old.items ++ missing_below prefix.now old.now new.now (length old.now.messages)) }
    ensures lacks { IfOk result (λ b. b ≡ lacks_below old.now new.now (length old.now.messages)) }
{
    let mut some_lack = false;
    for index in 0..old.messages().len() {
        let lacks = add_if_missing(text, prefix, old, new, MessageId(index))?;
        some_lack = either(some_lack, lacks);
    }
    Ok(some_lack)
}

/// The full name of a message type; nothing if the pool does not have the type.
fn name_of(pool: &Pool, message: MessageId) -> &[u8]
    ensures { result.now ≡ name_at (message_names pool.now) message.0 }
{
    if message.0 >= pool.messages().len() {
        return &[];
    }
    pool.message_name(message)
}

/// The field of a number in a message type, if the pool has both.
fn field_of(pool: &Pool, message: MessageId, number: u32) -> Option<&Field>
    ensures { option_map (λ f. field_view f.now) result ≡ field_at pool.now message.0 number }
{
    if message.0 >= pool.messages().len() {
        return None;
    }
    pool.field_by_number(message, number)
}

/// Adds the full name of a field that leads to a pair.
fn add_field(
    note: &mut Vec<u8>,
    old: &Pool,
    message: MessageId,
    number: u32,
) -> Result<(), AllocError>
    ensures { OnOk result (note.new.items ≡ note.old.items ++ field_lead old.now message.0
        (field_at old.now message.0 number)) }
{
    let Some(field) = field_of(old, message, number) else {
        return Ok(());
    };
    note.extend_from_slice(name_of(old, message))?;
    note.extend_from_slice(b".")?;
    note.extend_from_slice(field.name.as_str().as_bytes())?;
    note.extend_from_slice(b": ")?;
    Ok(())
}

/// Adds the field by which a pair of a comparison was reached first.
fn add_lead(
    note: &mut Vec<u8>,
    old: &Pool,
    compared: &[ComparedTypes],
    step: Option<Step>,
) -> Result<(), AllocError>
    ensures { OnOk result (note.new.items ≡ note.old.items ++ lead_text old.now compared.now step) }
{
    let Some(step) = step else {
        return Ok(());
    };
    match compared.get(step.from) {
        Some(types) => add_field(note, old, types.old, step.field),
        None => Ok(()),
    }
}

/// What a line of a pair of two names ends with: the field that leads there, and both names.
fn note_of(
    alloc: Global,
    old: &Pool,
    new: &Pool,
    compared: &[ComparedTypes],
    types: &ComparedTypes,
) -> Result<Vec<u8>, AllocError>
    ensures { IfOk result (λ v. v.items ≡ pair_note old.now new.now compared.now types.now) }
{
    let from = name_of(old, types.old);
    let to = name_of(new, types.new);
    let mut note = Vec::new(alloc);
    if from == to {
        return Ok(note);
    }
    note.extend_from_slice(b" (")?;
    add_lead(&mut note, old, compared, types.reached_by)?;
    note.extend_from_slice(from)?;
    note.extend_from_slice(b" -> ")?;
    note.extend_from_slice(to)?;
    note.extend_from_slice(b")")?;
    Ok(note)
}

/// Adds the lines of all differences.
pub(crate) fn add_compared(
    text: &mut Vec<u8>,
    alloc: Global,
    prefix: &[u8],
    old: &Pool,
    new: &Pool,
    compared: &[ComparedTypes],
) -> Result<(), AllocError>
    ensures { OnOk result (text.new.items ≡ text.old.items
        ++ compared_lines prefix.now old.now new.now compared.now) }
{
    for types in compared {
        add_types(text, alloc, prefix, old, new, compared, types)?;
    }
    Ok(())
}

/// Adds the lines of the differences of two types of a comparison.
fn add_types(
    text: &mut Vec<u8>,
    alloc: Global,
    prefix: &[u8],
    old: &Pool,
    new: &Pool,
    compared: &[ComparedTypes],
    types: &ComparedTypes,
) -> Result<(), AllocError>
    ensures { OnOk result (text.new.items ≡ text.old.items
        ++ types_lines prefix.now old.now new.now compared.now types.now) }
{
    let note = note_of(alloc, old, new, compared, types)?;
    for difference in &types.differences {
        let line = types.report(old, new, *difference).to_string(alloc)?;
        add_noted(text, prefix, line.as_bytes(), &note)?;
    }
    Ok(())
}

/// Adds a line that ends with a note.
fn add_noted(text: &mut Vec<u8>, prefix: &[u8], line: &[u8], note: &[u8]) -> Result<(), AllocError>
    ensures { OnOk result (text.new.items ≡ text.old.items ++ line_of prefix.now
        (line.now ++ note.now)) }
{
    text.extend_from_slice(prefix)?;
    text.extend_from_slice(line)?;
    text.extend_from_slice(note)?;
    text.push(b'\n')?;
    Ok(())
}
