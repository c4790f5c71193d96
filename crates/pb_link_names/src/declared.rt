//! All declarations of some files in one row, in declaration order.

ghost use Rattle.std.specs.Prelude.{◌≡◌, [], ◌∷◌, length, map, IfOk, OnOk, string_bytes};
ghost use Rattle.std.specs.List.{enumerate_from};
ghost use Rattle.pb_schema.specs.Names.{in_scope};
ghost use Rattle.pb_declarations.specs.Decls.{messages_of};
ghost use Rattle.pb_declarations.specs.View.{field_view, message_view, numbered_view, enum_view, method_view, service_view, file_view};
ghost use Rattle.pb_link_names.specs.Declarations.{a_field, a_oneof, a_value, fields_of, oneofs_of};
ghost use Rattle.pb_link_names.specs.Declarations.{values_of, enum_declared, enums_declared, head_row, message_declared};
ghost use Rattle.pb_link_names.specs.Declarations.{messages_declared, methods_of, service_declared, services_declared, file_declared};
ghost use Rattle.pb_link_names.specs.Declarations.{declarations, head_of, simple_name};
ghost use Rattle.pb_link_names.specs.ItemView.{item_view};
ghost use Rattle.pb_link_names.specs.Marks.{marks_of};
ghost use Rattle.pb_link_names.specs.View.{declaration_view, Adds};

use crate::declaration::Declaration;
use crate::item::Item;
use crate::marks::reserved::Reserved;
use crate::marks::{
    Marks, enum_marks, field_marks, message_marks, oneof_marks, plain, value_marks,
};
use pb_declarations::{EnumDecl, FieldDecl, FileDecl, MessageDecl, MethodDecl, ServiceDecl};
use std::alloc::{AllocError, Global};

/// The full name of a name in a scope.
fn scoped(alloc: Global, scope: &str, name: &str) -> Result<String, AllocError>
    ensures { IfOk result (λ s. string_bytes s ≡ in_scope scope.now name.now) }
{
    let mut full_name = String::from_str(alloc, scope)?;
    if !scope.is_empty() {
        full_name.push('.')?;
    }
    full_name.push_str(name)?;
    Ok(full_name)
}

/// What declarations are in: a file, the declaration at this index, and a scope.
#[derive(Clone, Copy)]
struct Parent<'s> {
    file: usize,
    index: usize,
    scope: &'s str,
}

impl<'s> Parent<'s> {
    ghost use Rattle.std.specs.Prelude.{◌≡◌};

    /// The parent of what is inside one of its declarations, at this index, where names are in this scope.
    fn inside<'i>(self, index: usize, scope: &'i str) -> Parent<'i>
        ensures file { result.file ≡ self.entry.file }
        ensures index { result.index ≡ index }
        ensures scope { result.scope.now ≡ scope.now }
    {
        Parent {
            file: self.file,
            index,
            scope,
        }
    }
}

/// Puts a declaration with its simple name and its marks at the end of the row.
fn add<'a>(
    alloc: Global,
    parent: Parent,
    name: &str,
    item: Item<'a>,
    marks: Marks,
    row: &mut Vec<Declaration<'a>>,
) -> Result<(), AllocError>
    requires named { name.now ≡ simple_name (item_view item) }
    requires marked { marks ≡ marks_of (item_view item) }
    ensures { OnOk result
        (Adds row.old.items row.new.items
        (record { file = parent.entry.file; parent = parent.entry.index; scope = parent.entry.scope.now; item = item_view item.entry } ∷ [])) }
{
    row.push(Declaration {
        file: parent.file,
        parent: parent.index,
        full_name: scoped(alloc, parent.scope, name)?,
        scope_len: parent.scope.len(),
        item,
        marks,
    })?;
    Ok(())
}

fn add_fields<'a>(
    alloc: Global,
    parent: Parent,
    message: &'a MessageDecl,
    fields: &'a [FieldDecl],
    marks: &[Marks],
    row: &mut Vec<Declaration<'a>>,
) -> Result<(), AllocError>
    requires { marks.now ≡ map (λ e. marks_of (a_field (head_of (message_view message.now)) e.0 e.1)) (enumerate_from 0 (map field_view fields.now)) }
    ensures { OnOk result
        (Adds row.old.items row.new.items
        (fields_of parent.entry.file parent.entry.index parent.entry.scope.now (head_of (message_view message.now)) (map field_view fields.now))) }
{
    for (index, field) in fields.iter().enumerate() {
        let name = field.name.as_str();
        let item = Item::Field(message, index, field);
        add(alloc, parent, name, item, marks[index], row)?;
    }
    Ok(())
}

fn add_oneofs<'a>(
    alloc: Global,
    parent: Parent,
    message: &'a MessageDecl,
    oneofs: &'a [String],
    marks: &[Marks],
    row: &mut Vec<Declaration<'a>>,
) -> Result<(), AllocError>
    requires { marks.now ≡ map (λ e. marks_of (a_oneof (head_of (message_view message.now)) e.0 e.1)) (enumerate_from 0 (map string_bytes oneofs.now)) }
    ensures { OnOk result
        (Adds row.old.items row.new.items
        (oneofs_of parent.entry.file parent.entry.index parent.entry.scope.now (head_of (message_view message.now)) (map string_bytes oneofs.now))) }
{
    for (index, oneof) in oneofs.iter().enumerate() {
        let name = oneof.as_str();
        let item = Item::Oneof(message, index, oneof);
        add(alloc, parent, name, item, marks[index], row)?;
    }
    Ok(())
}

fn add_values<'a>(
    alloc: Global,
    parent: Parent,
    entry: &'a EnumDecl,
    values: &'a [(String, i32)],
    marks: &[Marks],
    row: &mut Vec<Declaration<'a>>,
) -> Result<(), AllocError>
    requires { marks.now ≡ map (λ e. marks_of (a_value (enum_view entry.now) e.0 e.1)) (enumerate_from 0 (map numbered_view values.now)) }
    ensures { OnOk result
        (Adds row.old.items row.new.items
        (values_of parent.entry.file parent.entry.index parent.entry.scope.now (enum_view entry.now) (map numbered_view values.now))) }
{
    for (index, value) in values.iter().enumerate() {
        let name = value.0.as_str();
        let item = Item::Value(entry, index, value);
        add(alloc, parent, name, item, marks[index], row)?;
    }
    Ok(())
}

fn add_enum<'a>(
    alloc: Global,
    parent: Parent,
    entry: &'a EnumDecl,
    row: &mut Vec<Declaration<'a>>,
) -> Result<(), AllocError>
    ensures { OnOk result
        (Adds row.old.items row.new.items
        (enum_declared parent.entry.file parent.entry.index parent.entry.scope.now (length row.old.items) (enum_view entry.now))) }
{
    let inside = parent.inside(row.len(), parent.scope);
    let reserved = Reserved::of_enum(alloc, entry)?;
    let own = enum_marks(&reserved, entry);
    let marks = value_marks(alloc, &reserved, entry)?;
    let name = entry.name.as_str();
    add(alloc, parent, name, Item::Enum(entry), own, row)?;
    add_values(alloc, inside, entry, &entry.values, &marks, row)
}

fn add_enums<'a>(
    alloc: Global,
    parent: Parent,
    enums: &'a [EnumDecl],
    row: &mut Vec<Declaration<'a>>,
) -> Result<(), AllocError>
    ensures { OnOk result
        (Adds row.old.items row.new.items
        (enums_declared parent.entry.file parent.entry.index parent.entry.scope.now (length row.old.items) (map enum_view enums.now))) }
{
    for entry in enums {
        add_enum(alloc, parent, entry, row)?;
    }
    Ok(())
}

/// A message itself, its fields and its oneofs, where it has this full name.
fn add_head<'a>(
    alloc: Global,
    parent: Parent,
    full_name: &str,
    message: &'a MessageDecl,
    row: &mut Vec<Declaration<'a>>,
) -> Result<(), AllocError>
    ensures { OnOk result
        (Adds row.old.items row.new.items
        (head_row parent.entry.file parent.entry.index parent.entry.scope.now full_name.now (length row.old.items) (message_view message.now))) }
{
    let inside = parent.inside(row.len(), full_name);
    let reserved = Reserved::of_message(alloc, message)?;
    let own = message_marks(&reserved, message);
    let fields = field_marks(alloc, &reserved, message)?;
    let oneofs = oneof_marks(alloc, message)?;
    let name = message.name.as_str();
    add(alloc, parent, name, Item::Message(message), own, row)?;
    add_fields(alloc, inside, message, &message.fields, &fields, row)?;
    add_oneofs(alloc, inside, message, &message.oneofs, &oneofs, row)
}

#[cycle(add_message)]
fn add_message<'a>(
    alloc: Global,
    parent: Parent,
    message: &'a MessageDecl,
    row: &mut Vec<Declaration<'a>>,
) -> Result<(), AllocError>
    ensures { OnOk result
        (Adds row.old.items row.new.items
        (message_declared parent.entry.file parent.entry.index parent.entry.scope.now (length row.old.items) (message_view message.now))) }
{
    let full_name = scoped(alloc, parent.scope, message.name.as_str())?;
    let inside = parent.inside(row.len(), full_name.as_str());
    add_head(alloc, parent, inside.scope, message, row)?;
    add_messages(alloc, inside, &message.messages, row)?;
    add_enums(alloc, inside, &message.enums, row)?;
    Ok(())
}

#[cycle(add_message)]
fn add_messages<'a>(
    alloc: Global,
    parent: Parent,
    messages: &'a [MessageDecl],
    row: &mut Vec<Declaration<'a>>,
) -> Result<(), AllocError>
    ensures { OnOk result
        (Adds row.old.items row.new.items
        (messages_declared parent.entry.file parent.entry.index parent.entry.scope.now (length row.old.items) (messages_of (map message_view messages.now)))) }
{
    for message in messages {
        add_message(alloc, parent, message, row)?;
    }
    Ok(())
}

fn add_methods<'a>(
    alloc: Global,
    parent: Parent,
    methods: &'a [MethodDecl],
    row: &mut Vec<Declaration<'a>>,
) -> Result<(), AllocError>
    ensures { OnOk result
        (Adds row.old.items row.new.items (methods_of parent.entry.file parent.entry.index parent.entry.scope.now (map method_view methods.now))) }
{
    for method in methods {
        let name = method.name.as_str();
        add(alloc, parent, name, Item::Method(method), plain(true), row)?;
    }
    Ok(())
}

fn add_service<'a>(
    alloc: Global,
    parent: Parent,
    service: &'a ServiceDecl,
    row: &mut Vec<Declaration<'a>>,
) -> Result<(), AllocError>
    ensures { OnOk result
        (Adds row.old.items row.new.items
        (service_declared parent.entry.file parent.entry.index parent.entry.scope.now (length row.old.items) (service_view service.now))) }
{
    let name = service.name.as_str();
    let full_name = scoped(alloc, parent.scope, name)?;
    let inside = parent.inside(row.len(), full_name.as_str());
    add(
        alloc,
        parent,
        name,
        Item::Service(service),
        plain(true),
        row,
    )?;
    add_methods(alloc, inside, &service.methods, row)
}

fn add_services<'a>(
    alloc: Global,
    parent: Parent,
    services: &'a [ServiceDecl],
    row: &mut Vec<Declaration<'a>>,
) -> Result<(), AllocError>
    ensures { OnOk result
        (Adds row.old.items row.new.items
        (services_declared parent.entry.file parent.entry.index parent.entry.scope.now (length row.old.items) (map service_view services.now))) }
{
    for service in services {
        add_service(alloc, parent, service, row)?;
    }
    Ok(())
}

fn add_file<'a>(
    alloc: Global,
    index: usize,
    file: &'a FileDecl,
    row: &mut Vec<Declaration<'a>>,
) -> Result<(), AllocError>
    ensures { OnOk result (Adds row.old.items row.new.items (file_declared index (length row.old.items) (file_view file.now))) }
{
    let place = row.len();
    let top = Parent {
        file: index,
        index: place,
        scope: "",
    };
    let inside = top.inside(place, file.package.as_str());
    add(alloc, top, "", Item::File(file), plain(false), row)?;
    add_messages(alloc, inside, &file.messages, row)?;
    add_enums(alloc, inside, &file.enums, row)?;
    add_services(alloc, inside, &file.services, row)
}

/// All declarations of some files.
pub fn row<'a>(alloc: Global, files: &'a [FileDecl]) -> Result<Vec<Declaration<'a>>, AllocError>
    ensures { IfOk result (λ row. map declaration_view row.items ≡ declarations (map file_view files.now)) }
{
    let mut row: Vec<Declaration<'a>> = Vec::with_capacity(alloc, files.len())?;
    for (index, file) in files.iter().enumerate() {
        add_file(alloc, index, file, &mut row)?;
    }
    Ok(row)
}
