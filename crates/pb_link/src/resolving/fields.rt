//! Fields with the types that they mean.

ghost use Rattle.std.specs.Prelude.{◌≡◌, map, option_map, string_bytes, IfOk, OnOk};
ghost use Rattle.pb_declarations.specs.View.{field_view};
ghost use Rattle.pb_link.specs.Resolved.{full_name_or, field_of_type};
ghost use Rattle.pb_link.specs.Resolving.{coming, first_type, fields_read, each_behind, behind_one};
ghost use Rattle.pb_link_names.specs.View.{declaration_view, type_names_view};

use crate::resolving::types::{code_or, first_type, full_name_or};
use crate::resolving::upcoming::Upcoming;
use pb_declarations::FieldDecl;
use pb_link_names::declaration::Declaration;
use pb_link_names::found::TypeNames;
use std::alloc::{AllocError, Global};

/// The full name of the type, where a field names one.
fn full_name_if(
    alloc: Global,
    name: &Option<String>,
    meant: Option<&Declaration>,
) -> Result<Option<String>, AllocError>
    ensures { IfOk result (λ n. option_map string_bytes n
        ≡ option_map (λ name. full_name_or name
        (option_map (λ d. declaration_view d.now) meant.entry))
        (option_map string_bytes name.now)) }
{
    match name {
        Some(name) => {
            let full_name = full_name_or(alloc, name, meant)?;
            Ok(Some(full_name))
        }
        None => Ok(None),
    }
}

/// A field whose type name came to this.
fn resolve_field(
    alloc: Global,
    row: &[Declaration],
    names: TypeNames,
    field: &FieldDecl,
) -> Result<FieldDecl, AllocError>
    ensures { IfOk result (λ f. field_view f ≡ field_of_type (field_view field.now)
        (first_type (map declaration_view row.now) (type_names_view names))) }
{
    let meant = first_type(row, names);
    let name = field.name.clone()?;
    let type_name = full_name_if(alloc, &field.type_name, meant)?;
    Ok(FieldDecl {
        name,
        number: field.number,
        repeated: field.repeated,
        ty: code_or(field.ty, meant),
        type_name,
        packed: field.packed,
        oneof: field.oneof,
        proto3_optional: field.proto3_optional,
    })
}

/// The fields of a message.
pub(crate) fn resolve_fields(
    alloc: Global,
    row: &[Declaration],
    names: &mut Upcoming,
    fields: &[FieldDecl],
) -> Result<Vec<FieldDecl>, AllocError>
    ensures fields { IfOk result (λ v. map field_view v.items
        ≡ fields_read (map declaration_view row.now) (coming names.old)
        (map field_view fields.now)) }
    ensures behind { OnOk result (coming names.new
        ≡ each_behind behind_one (map field_view fields.now) (coming names.old)) }
{
    let mut resolved: Vec<FieldDecl> = Vec::new(alloc);
    for field in fields {
        let came_to = names.next();
        let made = resolve_field(alloc, row, came_to, field)?;
        resolved.push(made)?;
    }
    Ok(resolved)
}
