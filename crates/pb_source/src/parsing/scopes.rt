//! Files of their parts, and the full names of entry messages, which are known once the package is.

ghost use Rattle.std.specs.Prelude.{◌≡◌, ◌∷◌, List, map, string_bytes, IfOk, OnOk};
ghost use Rattle.pb_schema.specs.Names.{in_scope};
ghost use Rattle.pb_declarations.specs.View.{field_view, message_view, file_view};
ghost use Rattle.pb_source.specs.Meaning.{FileStatement, scoped_field, scoped, file_of};
ghost use Rattle.pb_source.specs.PartsView.{FileHolds};

use crate::parsing::declared::FileParts;
use crate::parsing::syntaxes::is_proto2;
use pb_declarations::{FieldDecl, FileDecl, MessageDecl};
use pb_source_tokens::grammar::Grammar;
use std::alloc::{AllocError, Global};

/// Appends a name to the scope that it is declared in.
fn push_name(scope: &mut String, name: &str) -> Result<(), AllocError>
    ensures { OnOk result (string_bytes scope.new ≡ in_scope (string_bytes scope.old) name.now) }
{
    if !scope.is_empty() {
        scope.push('.')?;
    }
    scope.push_str(name)?;
    Ok(())
}

/// The full name of what is declared in a scope, after a dot.
fn rooted(alloc: Global, scope: &str, name: &str) -> Result<String, AllocError>
    ensures { IfOk result (λ t. string_bytes t ≡ 46 ∷ in_scope scope.now name.now) }
{
    let mut full = String::new(alloc);
    full.push('.')?;
    full.push_str(scope)?;
    if !scope.is_empty() {
        full.push('.')?;
    }
    full.push_str(name)?;
    Ok(full)
}

/// Names the entry message of a map field in full. No other field has both a type's number and its name.
fn scope_field(alloc: Global, scope: &str, field: &mut FieldDecl) -> Result<(), AllocError>
    ensures { OnOk result (field_view field.new ≡ scoped_field scope.now (field_view field.old)) }
{
    if field.ty.is_none() {
        return Ok(());
    }
    if let Some(entry) = &field.type_name {
        let full = rooted(alloc, scope, entry.as_str())?;
        field.type_name = Some(full);
    }
    Ok(())
}

/// Names the entry messages of fields in full.
fn scope_fields(alloc: Global, scope: &str, fields: &mut Vec<FieldDecl>) -> Result<(), AllocError>
    ensures { OnOk result (map field_view fields.new.items ≡ map (scoped_field scope.now) (map field_view fields.old.items)) }
{
    for i in 0..fields.len() {
        scope_field(alloc, scope, &mut fields[i])?;
    }
    Ok(())
}

/// Names the entry messages in a message in full. The scope is left as it was.
#[cycle(scope)]
fn scope_message(
    alloc: Global,
    scope: &mut String,
    message: &mut MessageDecl,
) -> Result<(), AllocError>
    ensures kept { OnOk result (string_bytes scope.new ≡ string_bytes scope.old) }
    ensures scoped { OnOk result (message_view message.new ≡ scoped (string_bytes scope.old) (message_view message.old)) }
{
    let outer = scope.len();
    push_name(scope, message.name.as_str())?;
    scope_fields(alloc, scope.as_str(), &mut message.fields)?;
    scope_messages(alloc, scope, &mut message.messages)?;
    scope.truncate(outer);
    Ok(())
}

/// Names the entry messages in messages in full.
#[cycle(scope)]
fn scope_messages(
    alloc: Global,
    scope: &mut String,
    messages: &mut Vec<MessageDecl>,
) -> Result<(), AllocError>
    ensures kept { OnOk result (string_bytes scope.new ≡ string_bytes scope.old) }
    ensures scoped { OnOk result (map message_view messages.new.items ≡ map (scoped (string_bytes scope.old)) (map message_view messages.old.items)) }
{
    for i in 0..messages.len() {
        scope_message(alloc, scope, &mut messages[i])?;
    }
    Ok(())
}

/// The file of this name, read by a grammar, with these parts.
pub(crate) fn file_of(
    alloc: Global,
    grammar: Grammar,
    name: &str,
    parts: FileParts,
) -> Result<FileDecl, AllocError>
    ensures { IfOk result (λ f. (ss : List FileStatement) → FileHolds parts ss → file_view f ≡ file_of grammar name.now ss) }
{
    let name = String::from_str(alloc, name)?;
    let mut scope = String::from_str(alloc, parts.package.as_str())?;
    let mut messages = parts.messages;
    scope_messages(alloc, &mut scope, &mut messages)?;
    Ok(FileDecl {
        name,
        package: parts.package,
        imports: parts.imports,
        public: parts.public,
        messages,
        enums: parts.enums,
        services: parts.services,
        proto2: is_proto2(grammar),
    })
}
