//! Which fields use entry messages.

ghost use Rattle.std.specs.Prelude.{◌≡◌, ◌<◌, ℕ, List, map, length, filter, string_bytes, option_map, IfOk};
ghost use Rattle.std.specs.List.{slice_index_or, enumerate_from};
ghost use Rattle.pb_declarations.specs.View.{field_view};
ghost use Rattle.pb_link_names.specs.Declarations.{Declaration as DeclarationView};
ghost use Rattle.pb_link_names.specs.declared.found.TypeNames.TheVariants as type_names;
ghost use Rattle.pb_link_names.specs.ItemView.{item_view};
ghost use Rattle.pb_link_names.specs.View.{declaration_view, found_view, type_names_view};
ghost use Rattle.pb_link_rules.specs.Rules.{World, lookups, is_field, place_found, is_map_field, is_one_map_field, has_one_use, uses};
ghost use Rattle.pb_link_rules.specs.Uses.{field_in, message_name_in, gives, target_by, with_user, users_at, AddsUser, Sums};

use pb_declarations::FieldDecl;
use pb_link_names::declaration::Declaration;
use pb_link_names::found::{Found, TypeNames};
use pb_link_names::item::Item;
use pb_schema::entry_name;
use std::alloc::{AllocError, Global};

/// The fields that use a type.
#[derive(Clone, Copy, PartialEq, Eq, Debug)]
pub(crate) enum Users {
    None,
    /// The one at a place.
    One(usize),
    Many,
}

fn field_in<'a>(item: Item<'a>) -> Option<&'a FieldDecl>
    ensures { option_map (λ f. field_view f.now) result ≡ field_in (item_view item.entry) }
{
    match item {
        Item::Field(_, _, field) => Some(field),
        Item::File(_) => None,
        Item::Message(_) => None,
        Item::Oneof(_, _, _) => None,
        Item::Enum(_) => None,
        Item::Value(_, _, _) => None,
        Item::Service(_) => None,
        Item::Method(_) => None,
    }
}

fn message_name<'a>(item: Item<'a>) -> Option<&'a String>
    ensures { option_map (λ s. string_bytes s.now) result ≡ message_name_in (item_view item.entry) }
{
    match item {
        Item::Message(message) => Some(&message.name),
        Item::File(_) => None,
        Item::Field(_, _, _) => None,
        Item::Oneof(_, _, _) => None,
        Item::Enum(_) => None,
        Item::Value(_, _, _) => None,
        Item::Service(_) => None,
        Item::Method(_) => None,
    }
}

/// Whether a field is repeated and gives a message its name.
fn gives_name(alloc: Global, user: Item, entry: Item) -> Result<bool, AllocError>
    ensures { IfOk result (λ b. b ≡ gives (field_in (item_view user.entry)) (message_name_in (item_view entry.entry))) }
{
    let Some(field) = field_in(user) else {
        return Ok(false);
    };
    let Some(name) = message_name(entry) else {
        return Ok(false);
    };
    if !field.repeated {
        return Ok(false);
    }
    let wanted = entry_name(alloc, field.name.as_str().as_bytes())?;
    Ok(wanted.as_slice() == name.as_str().as_bytes())
}

pub(crate) fn is_map_field(
    alloc: Global,
    entry: &Declaration,
    user: &Declaration,
) -> Result<bool, AllocError>
    ensures { IfOk result (λ b. b ≡ is_map_field (declaration_view entry.now) (declaration_view user.now)) }
{
    if user.parent != entry.parent {
        return Ok(false);
    }
    let gives = gives_name(alloc, user.item, entry.item)?;
    Ok(gives)
}

fn place_of(found: Found) -> Option<usize>
    ensures { result ≡ place_found (found_view found) }
{
    match found {
        Found::Type(place) => Some(place),
        Found::NotFound => None,
        Found::NotVisible => None,
        Found::NotAType => None,
    }
}

/// The place of the type that a declaration uses as a field.
fn target_of(item: Item, names: TypeNames) -> Option<usize>
    ensures { result ≡ target_by (is_field (item_view item.entry)) (type_names_view names) }
{
    if !is_field(item) {
        return None;
    }
    match names {
        TypeNames::None => None,
        TypeNames::One(found) => place_of(found),
        TypeNames::Two(_, _) => None,
    }
}

fn is_field(item: Item) -> bool
    ensures { result ≡ is_field (item_view item.entry) }
{
    matches!(item, Item::Field(_, _, _))
}

pub(crate) fn names_at(found: &[TypeNames], place: usize) -> TypeNames
    ensures { result ≡ slice_index_or found.now place type_names.None }
{
    match found.get(place) {
        Some(names) => *names,
        None => TypeNames::None,
    }
}

fn users_at(users: &[Users], place: usize) -> Users
    ensures { result ≡ users_at users.now place }
{
    match users.get(place) {
        Some(users) => *users,
        None => Users::None,
    }
}

fn with_user(users: Users, place: usize) -> Users
    ensures { result ≡ with_user users place }
{
    match users {
        Users::None => Users::One(place),
        Users::One(_) => Users::Many,
        Users::Many => Users::Many,
    }
}

fn add_user(users: &mut Vec<Users>, place: usize, target: Option<usize>)
    ensures { AddsUser place target users.old.items users.new.items }
{
    let Some(target) = target else {
        return;
    };
    if target >= users.len() {
        return;
    }
    let now = with_user(users_at(users, target), place);
    users[target] = now;
}

/// For each place, the fields whose type is the declaration there.
fn users_of(
    alloc: Global,
    row: &[Declaration],
    found: &[TypeNames],
) -> Result<Vec<Users>, AllocError>
    ensures { IfOk result (λ v. (w : World) → w.declared ≡ map declaration_view row.now → map type_names_view found.now ≡ map (lookups w) w.declared
        → (p : ℕ) → p < length row.now → Sums (map declaration_view row.now) (users_at v.items p) (filter (uses w p) (map declaration_view row.now))) }
{
    let mut users = vec![in alloc; Users::None; row.len()]?;
    for (place, declaration) in row.iter().enumerate() {
        let target = target_of(declaration.item, names_at(found, place));
        add_user(&mut users, place, target);
    }
    Ok(users)
}

/// Whether the users of an entry message are one map field of it.
fn is_used_once(
    alloc: Global,
    row: &[Declaration],
    entry: &Declaration,
    users: Users,
) -> Result<bool, AllocError>
    ensures { IfOk result (λ b. (of : List DeclarationView) → Sums (map declaration_view row.now) users of
        → b ≡ is_one_map_field (declaration_view entry.now) of) }
{
    let Users::One(place) = users else {
        return Ok(false);
    };
    let Some(user) = row.get(place) else {
        return Ok(false);
    };
    let is_right = is_map_field(alloc, entry, user)?;
    Ok(is_right)
}

/// For each place, whether exactly one field has the declaration there as its type, and is its map field.
pub(crate) fn use_marks(
    alloc: Global,
    row: &[Declaration],
    found: &[TypeNames],
) -> Result<Vec<bool>, AllocError>
    ensures { IfOk result (λ v. (w : World) → w.declared ≡ map declaration_view row.now → map type_names_view found.now ≡ map (lookups w) w.declared
        → v.items ≡ map (λ e. has_one_use w e.0 e.1) (enumerate_from 0 w.declared)) }
{
    let users = users_of(alloc, row, found)?;
    let mut marks: Vec<bool> = Vec::new(alloc);
    for (place, declaration) in row.iter().enumerate() {
        let is_used = is_used_once(alloc, row, declaration, users_at(&users, place))?;
        marks.push(is_used)?;
    }
    Ok(marks)
}
