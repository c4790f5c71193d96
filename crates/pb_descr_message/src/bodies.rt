//! The messages that declarations are written as, but for messages themselves.

ghost use Rattle.std.specs.Prelude.{◌≡◌, pos, map, option_map, string_bytes, IfOk};
ghost use Rattle.pb_value.specs.Data.{Datum};
ghost use Rattle.pb_value.specs.View.{content_view, value_view};
ghost use Rattle.pb_declarations.specs.View.{field_view, numbered_view, enum_view, method_view, service_view};
ghost use Rattle.pb_declarations.specs.TypeNumbers.{number_of_type};
ghost use Rattle.pb_descr_message.specs.Writing.{a_list, optional, a_text, a_number, packed_options, options_with, text_datum};
ghost use Rattle.pb_descr_message.specs.Writing.{int_datum, range_body, value_body, oneof_body, field_body, enum_body, method_body, service_body};

use crate::contents::{list, mark, message, number, text};
use crate::declaring::{OPTIONAL, REPEATED};
use pb_declarations::{EnumDecl, FieldDecl, MethodDecl, ServiceDecl};
use pb_value::{Content, Value};
use std::alloc::{AllocError, Global};

/// What is declared, as a value of a list.
pub(crate) trait Written {
    ghost datum: { Self → Datum };

    fn value(&self, alloc: Global) -> Result<Value, AllocError>
        ensures { IfOk result (λ v. value_view v ≡ datum self.now) };
}

/// A list of what is declared.
pub(crate) fn list_of<T: Written>(alloc: Global, items: &[T]) -> Result<Option<Content>, AllocError>
    ensures { IfOk result (λ c. option_map content_view c ≡ a_list (map T.datum items.now)) }
{
    let mut values = Vec::with_capacity(alloc, items.len())?;
    for item in items {
        let value = item.value(alloc)?;
        values.push(value)?;
    }
    Ok(list(values))
}

impl Written for String {
    ghost datum = { λ s. text_datum (string_bytes s) };

    fn value(&self, _alloc: Global) -> Result<Value, AllocError> {
        let owned = self.clone()?;
        Ok(Value::Text(owned))
    }
}

impl Written for i32 {
    ghost datum = { int_datum };

    fn value(&self, _alloc: Global) -> Result<Value, AllocError> {
        Ok(Value::I32(*self))
    }
}

/// A range by its start and its end.
impl Written for (i32, i32) {
    ghost datum = { range_body };

    fn value(&self, alloc: Global) -> Result<Value, AllocError> {
        let (start, end) = *self;
        message(alloc, [(1, Some(number(start))), (2, Some(number(end)))])
    }
}

/// Options of a mark alone, where it is true.
pub(crate) fn options(
    alloc: Global,
    field: u32,
    is_set: bool,
) -> Result<Option<Content>, AllocError>
    ensures { IfOk result (λ c. option_map content_view c ≡ options_with field is_set) }
{
    if !is_set {
        return Ok(None);
    }
    let value = message(alloc, [(field, mark(true))])?;
    Ok(Some(Content::One(value)))
}

fn packed_content(alloc: Global, packed: Option<bool>) -> Result<Option<Content>, AllocError>
    ensures { IfOk result (λ c. option_map content_view c ≡ optional packed_options packed) }
{
    let Some(packed) = packed else {
        return Ok(None);
    };
    let written = Content::One(Value::Bool(packed));
    let value = message(alloc, [(2, Some(written))])?;
    Ok(Some(Content::One(value)))
}

fn optional_text(alloc: Global, name: &Option<String>) -> Result<Option<Content>, AllocError>
    ensures { IfOk result (λ c. option_map content_view c
        ≡ optional a_text (option_map string_bytes name.now)) }
{
    let Some(name) = name else {
        return Ok(None);
    };
    let written = text(alloc, name)?;
    Ok(Some(written))
}

fn optional_number(given: Option<i32>) -> Option<Content>
    ensures { option_map content_view result ≡ optional a_number given }
{
    match given {
        Some(given) => Some(number(given)),
        None => None,
    }
}

fn type_content(field: &FieldDecl) -> Option<Content>
    ensures { option_map content_view result ≡ optional
        (λ c. a_number (pos (number_of_type c))) field.now.ty }
{
    match field.ty {
        Some(ty) => Some(number(ty.number())),
        None => None,
    }
}

impl Written for FieldDecl {
    ghost datum = { λ f. field_body (field_view f) };

    fn value(&self, alloc: Global) -> Result<Value, AllocError> {
        let name = text(alloc, &self.name)?;
        let label = if self.repeated { REPEATED } else { OPTIONAL };
        let type_name = optional_text(alloc, &self.type_name)?;
        let packed = packed_content(alloc, self.packed)?;
        message(
            alloc,
            [
                (1, Some(name)),
                (3, Some(number(self.number))),
                (4, Some(number(label))),
                (5, type_content(self)),
                (6, type_name),
                (8, packed),
                (9, optional_number(self.oneof)),
                (17, mark(self.proto3_optional)),
            ],
        )
    }
}

fn oneof_value(alloc: Global, name: &str) -> Result<Value, AllocError>
    ensures { IfOk result (λ v. value_view v ≡ oneof_body name.now) }
{
    let name = text(alloc, name)?;
    message(alloc, [(1, Some(name))])
}

/// A list of oneofs by their names.
pub(crate) fn oneofs(alloc: Global, names: &[String]) -> Result<Option<Content>, AllocError>
    ensures { IfOk result (λ c. option_map content_view c
        ≡ a_list (map oneof_body (map string_bytes names.now))) }
{
    let mut values = Vec::with_capacity(alloc, names.len())?;
    for name in names {
        let value = oneof_value(alloc, name)?;
        values.push(value)?;
    }
    Ok(list(values))
}

/// A value of an enum by its name and its number.
impl Written for (String, i32) {
    ghost datum = { λ v. value_body (numbered_view v) };

    fn value(&self, alloc: Global) -> Result<Value, AllocError> {
        let name = text(alloc, &self.0)?;
        message(alloc, [(1, Some(name)), (2, Some(number(self.1)))])
    }
}

impl Written for EnumDecl {
    ghost datum = { λ e. enum_body (enum_view e) };

    fn value(&self, alloc: Global) -> Result<Value, AllocError> {
        let name = text(alloc, &self.name)?;
        let values = list_of(alloc, &self.values)?;
        let options = options(alloc, 2, self.allow_alias)?;
        let reserved = list_of(alloc, &self.reserved)?;
        let reserved_names = list_of(alloc, &self.reserved_names)?;
        message(
            alloc,
            [
                (1, Some(name)),
                (2, values),
                (3, options),
                (4, reserved),
                (5, reserved_names),
            ],
        )
    }
}

impl Written for MethodDecl {
    ghost datum = { λ m. method_body (method_view m) };

    fn value(&self, alloc: Global) -> Result<Value, AllocError> {
        let name = text(alloc, &self.name)?;
        let input = text(alloc, &self.input)?;
        let output = text(alloc, &self.output)?;
        message(
            alloc,
            [
                (1, Some(name)),
                (2, Some(input)),
                (3, Some(output)),
                (5, mark(self.client_stream)),
                (6, mark(self.server_stream)),
            ],
        )
    }
}

impl Written for ServiceDecl {
    ghost datum = { λ s. service_body (service_view s) };

    #[tactic(auto, using(crate::proofs::ContentLemmas::map_twice))]
    fn value(&self, alloc: Global) -> Result<Value, AllocError> {
        let name = text(alloc, &self.name)?;
        let methods = list_of(alloc, &self.methods)?;
        message(alloc, [(1, Some(name)), (2, methods)])
    }
}

/// A list of texts.
#[tactic(auto, using(crate::proofs::ContentLemmas::map_twice))]
pub(crate) fn texts(alloc: Global, texts: &[String]) -> Result<Option<Content>, AllocError>
    ensures { IfOk result (λ c. option_map content_view c
        ≡ a_list (map text_datum (map string_bytes texts.now))) }
{
    list_of(alloc, texts)
}

/// A list of fields.
#[tactic(auto, using(crate::proofs::ContentLemmas::map_twice))]
pub(crate) fn fields(alloc: Global, fields: &[FieldDecl]) -> Result<Option<Content>, AllocError>
    ensures { IfOk result (λ c. option_map content_view c
        ≡ a_list (map field_body (map field_view fields.now))) }
{
    list_of(alloc, fields)
}

/// A list of enums.
#[tactic(auto, using(crate::proofs::ContentLemmas::map_twice))]
pub(crate) fn enums(alloc: Global, enums: &[EnumDecl]) -> Result<Option<Content>, AllocError>
    ensures { IfOk result (λ c. option_map content_view c
        ≡ a_list (map enum_body (map enum_view enums.now))) }
{
    list_of(alloc, enums)
}

/// A list of ranges.
pub(crate) fn ranges(alloc: Global, ranges: &[(i32, i32)]) -> Result<Option<Content>, AllocError>
    ensures { IfOk result (λ c. option_map content_view c ≡ a_list (map range_body ranges.now)) }
{
    list_of(alloc, ranges)
}
