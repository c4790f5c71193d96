//! The types that type names mean.

ghost use Rattle.std.specs.Prelude.{◌≡◌, ◌∷◌, map, option_map, string_bytes, IfOk};
ghost use Rattle.pb_link_names.specs.ItemView.{item_view};
ghost use Rattle.pb_link.specs.Resolved.{type_at, full_name_or, code_of_item, code_or};
ghost use Rattle.pb_link.specs.Resolving.{first_type, second_type};
ghost use Rattle.pb_link_names.specs.View.{declaration_view, found_view, type_names_view};

use pb_declarations::TypeCode;
use pb_link_names::declaration::Declaration;
use pb_link_names::found::{Found, TypeNames};
use pb_link_names::item::Item;
use std::alloc::{AllocError, Global};

/// The type that was found.
fn type_at<'r, 'd>(row: &'r [Declaration<'d>], found: Found) -> Option<&'r Declaration<'d>>
    ensures { option_map (λ d. declaration_view d.now) result
        ≡ type_at (map declaration_view row.now) (found_view found) }
{
    match found {
        Found::Type(place) => row.get(place),
        Found::NotFound => None,
        Found::NotVisible => None,
        Found::NotAType => None,
    }
}

/// The type that the first name means.
pub(crate) fn first_type<'r, 'd>(
    row: &'r [Declaration<'d>],
    names: TypeNames,
) -> Option<&'r Declaration<'d>>
    ensures { option_map (λ d. declaration_view d.now) result
        ≡ first_type (map declaration_view row.now) (type_names_view names) }
{
    match names {
        TypeNames::None => None,
        TypeNames::One(found) => type_at(row, found),
        TypeNames::Two(input, _) => type_at(row, input),
    }
}

/// The type that the second name means.
pub(crate) fn second_type<'r, 'd>(
    row: &'r [Declaration<'d>],
    names: TypeNames,
) -> Option<&'r Declaration<'d>>
    ensures { option_map (λ d. declaration_view d.now) result
        ≡ second_type (map declaration_view row.now) (type_names_view names) }
{
    match names {
        TypeNames::None => None,
        TypeNames::One(_) => None,
        TypeNames::Two(_, output) => type_at(row, output),
    }
}

/// A dot and a full name.
fn dotted(alloc: Global, full_name: &str) -> Result<String, AllocError>
    ensures { IfOk result (λ s. string_bytes s ≡ 46 ∷ full_name.now) }
{
    let mut text = String::new(alloc);
    text.push('.')?;
    text.push_str(full_name)?;
    Ok(text)
}

/// A dot and the full name of the type; a name that means none stays.
pub(crate) fn full_name_or(
    alloc: Global,
    name: &String,
    meant: Option<&Declaration>,
) -> Result<String, AllocError>
    ensures { IfOk result (λ s. string_bytes s
        ≡ full_name_or (string_bytes name.now)
        (option_map (λ d. declaration_view d.now) meant.entry)) }
{
    match meant {
        Some(declaration) => {
            let full_name = dotted(alloc, declaration.full_name.as_str())?;
            Ok(full_name)
        }
        None => {
            let same = name.clone()?;
            Ok(same)
        }
    }
}

/// The type number of a type.
fn code_of_item(item: Item) -> Option<TypeCode>
    ensures { result ≡ code_of_item (item_view item.entry) }
{
    match item {
        Item::Message(_) => Some(TypeCode::Message),
        Item::Enum(_) => Some(TypeCode::Enum),
        Item::File(_) => None,
        Item::Field(_, _, _) => None,
        Item::Oneof(_, _, _) => None,
        Item::Value(_, _, _) => None,
        Item::Service(_) => None,
        Item::Method(_) => None,
    }
}

/// The type number that was given, else that of the type.
pub(crate) fn code_or(given: Option<TypeCode>, meant: Option<&Declaration>) -> Option<TypeCode>
    ensures { result ≡ code_or given (option_map (λ d. declaration_view d.now) meant.entry) }
{
    if given.is_some() {
        return given;
    }
    match meant {
        Some(declaration) => code_of_item(declaration.item),
        None => None,
    }
}
