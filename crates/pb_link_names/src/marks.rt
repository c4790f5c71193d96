//! What the rules come to that rest on what is declared beside a declaration.

pub mod oneofs;
mod ranges;
pub(crate) mod reserved;

ghost use Rattle.std.specs.Prelude.{◌≡◌, ◌<◌, List, take, length, true, not, ◌||◌, if◌then◌else◌, ℤ, IfOk, OnOk, ℕ};
ghost use Rattle.std.specs.List.{list_any, enumerate_from};
ghost use Rattle.std.specs.Ordering.{int_eq, int_cmp};
ghost use Rattle.std.specs.BTreeSet.{contains};
ghost use Rattle.pb_declarations.specs.Decls.{DeclaredEnum, MessageHead};
ghost use Rattle.pb_declarations.specs.View.{field_view, numbered_view, enum_view, message_view};
ghost use Rattle.pb_link_names.specs.Declarations.{head_of, item_of_message, an_enum, a_field, a_oneof, a_value, is_synthetic};
ghost use Rattle.pb_link_names.specs.MarkRules.{is_not_reserved, number_is_free};
ghost use Rattle.pb_link_names.specs.Oneofs.{AreOneofsOf};
ghost use Rattle.pb_link_names.specs.Reserved.{ReservesInMessage, ReservesInEnum};
ghost use Rattle.pb_link_names.specs.Marks.{marks_of, field_marks, oneof_marks, value_marks};

use crate::marks::oneofs::{Oneofs, counted, is_member_right, is_oneof_right};
use crate::marks::ranges::{enum_ranges_are_right, message_ranges_are_right};
use crate::marks::reserved::Reserved;
use pb_declarations::{EnumDecl, FieldDecl, MessageDecl};
use std::alloc::{AllocError, Global};
use std::collections::BTreeSet;

/// Of a declaration, what is found out once for all that are declared beside it. A rule that does not speak of it holds.
#[derive(Clone, Copy, PartialEq, Eq, Debug)]
pub struct Marks {
    /// Whether it has a name: files and synthetic oneofs have none.
    pub is_named: bool,
    /// Whether no earlier field, or no earlier value of an enum without aliases, has its number.
    pub number_is_free: bool,
    /// Whether neither its number nor its name is reserved.
    pub is_not_reserved: bool,
    /// Whether the rules of oneofs hold.
    pub is_oneof_right: bool,
    /// Whether the reserved ranges are right.
    pub ranges_are_right: bool,
}

/// The marks of a declaration of which no rule speaks that rests on others.
pub(crate) fn plain(is_named: bool) -> Marks
    ensures { result ≡ record { is_named = is_named; number_is_free = true; is_not_reserved = true; is_oneof_right = true; ranges_are_right = true } }
{
    Marks {
        is_named,
        number_is_free: true,
        is_not_reserved: true,
        is_oneof_right: true,
        ranges_are_right: true,
    }
}

/// The marks of a message.
pub(crate) fn message_marks(reserved: &Reserved, message: &MessageDecl) -> Marks
    requires { ReservesInMessage (head_of (message_view message.now)) reserved.now }
    ensures { result ≡ marks_of (item_of_message (message_view message.now)) }
{
    Marks {
        is_named: true,
        number_is_free: true,
        is_not_reserved: true,
        is_oneof_right: true,
        ranges_are_right: message_ranges_are_right(reserved, &message.reserved),
    }
}

/// The marks of an enum.
pub(crate) fn enum_marks(reserved: &Reserved, entry: &EnumDecl) -> Marks
    requires { ReservesInEnum (enum_view entry.now) reserved.now }
    ensures { result ≡ marks_of (an_enum (enum_view entry.now)) }
{
    Marks {
        is_named: true,
        number_is_free: true,
        is_not_reserved: true,
        is_oneof_right: true,
        ranges_are_right: enum_ranges_are_right(reserved, &entry.reserved),
    }
}

/// Whether neither number nor name of a field is reserved in its message.
fn is_kept(reserved: &Reserved, field: &FieldDecl) -> bool
    ensures { (head : MessageHead) (i : ℕ) → ReservesInMessage head reserved.now → result ≡ is_not_reserved (a_field head i (field_view field.now)) }
{
    !reserved.has_number(field.number) && !reserved.has_name(field.name.as_str())
}

/// The marks of a field. `is_first` says whether no earlier field has its number.
fn field_mark(reserved: &Reserved, oneofs: &Oneofs, field: &FieldDecl, is_first: bool) -> Marks
    ensures { (head : MessageHead) (i : ℕ) → ReservesInMessage head reserved.now → AreOneofsOf head oneofs.now
        → is_first ≡ number_is_free (a_field head i (field_view field.now)) → result ≡ marks_of (a_field head i (field_view field.now)) }
{
    Marks {
        is_named: true,
        number_is_free: is_first,
        is_not_reserved: is_kept(reserved, field),
        is_oneof_right: is_member_right(oneofs, field),
        ranges_are_right: true,
    }
}

/// Puts a number among those seen. Answers whether it was not there.
fn add_number(numbers: &mut BTreeSet<i32>, number: &i32) -> Result<bool, AllocError>
    ensures first { IfOk result (λ is_first. is_first ≡ not (contains int_cmp numbers.old number.now)) }
    ensures seen { OnOk result ((z : ℤ) → contains int_cmp numbers.new z ≡ (if int_eq number.now z then true else contains int_cmp numbers.old z)) }
{
    let is_first = numbers.insert(*number)?;
    Ok(is_first)
}

/// The marks of the fields of a message.
pub(crate) fn field_marks(
    alloc: Global,
    reserved: &Reserved,
    message: &MessageDecl,
) -> Result<Vec<Marks>, AllocError>
    requires { ReservesInMessage (head_of (message_view message.now)) reserved.now }
    ensures { IfOk result (λ v. v.items ≡ field_marks (head_of (message_view message.now))) }
{
    let oneofs = oneofs_of(alloc, message)?;
    let mut numbers: BTreeSet<i32> = BTreeSet::new(alloc);
    let mut marks: Vec<Marks> = Vec::new(alloc);
    for field in &message.fields {
        let is_first = add_number(&mut numbers, &field.number)?;
        marks.push(field_mark(reserved, &oneofs, field, is_first))?;
    }
    Ok(marks)
}

/// The members of the oneofs of a message.
fn oneofs_of(alloc: Global, message: &MessageDecl) -> Result<Oneofs, AllocError>
    ensures { IfOk result (λ o. AreOneofsOf (head_of (message_view message.now)) o) }
{
    let oneofs = counted(alloc, &message.fields, message.oneofs.len())?;
    Ok(oneofs)
}

/// The marks of the oneof at an index. `follows_synthetic` says whether an earlier one is synthetic.
fn oneof_mark(oneofs: &Oneofs, index: usize, follows_synthetic: bool) -> Marks
    requires size { index < length oneofs.now.members.items }
    requires sizes { length oneofs.now.are_synthetic.items ≡ length oneofs.now.members.items }
    ensures { (head : MessageHead) (name : List ℕ) → AreOneofsOf head oneofs.now
        → follows_synthetic ≡ list_any (λ e. is_synthetic head e.0) (take index (enumerate_from 0 head.oneofs)) → result ≡ marks_of (a_oneof head index name) }
{
    Marks {
        is_named: !oneofs.are_synthetic[index],
        number_is_free: true,
        is_not_reserved: true,
        is_oneof_right: is_oneof_right(oneofs, index, follows_synthetic),
        ranges_are_right: true,
    }
}

/// The marks of the oneofs of a message.
pub(crate) fn oneof_marks(alloc: Global, message: &MessageDecl) -> Result<Vec<Marks>, AllocError>
    ensures { IfOk result (λ v. v.items ≡ oneof_marks (head_of (message_view message.now))) }
{
    let oneofs = oneofs_of(alloc, message)?;
    let mut marks: Vec<Marks> = Vec::new(alloc);
    let mut follows_synthetic = false;
    for index in 0..oneofs.members.len() {
        marks.push(oneof_mark(&oneofs, index, follows_synthetic))?;
        follows_synthetic = either(follows_synthetic, oneofs.are_synthetic[index]);
    }
    Ok(marks)
}

/// Whether neither number nor name of a value is reserved in its enum.
fn is_value_kept(reserved: &Reserved, value: &(String, i32)) -> bool
    ensures { (e : DeclaredEnum) (i : ℕ) → ReservesInEnum e reserved.now → result ≡ is_not_reserved (a_value e i (numbered_view value.now)) }
{
    !reserved.has_number(value.1) && !reserved.has_name(value.0.as_str())
}

fn either(one: bool, other: bool) -> bool
    ensures { result ≡ (one || other) }
{
    one || other
}

/// The marks of an enum value. `is_first` says whether no earlier value has its number.
fn value_mark(reserved: &Reserved, entry: &EnumDecl, value: &(String, i32), is_first: bool) -> Marks
    requires { ReservesInEnum (enum_view entry.now) reserved.now }
    ensures { (i : ℕ) → is_first ≡ not (list_any (λ u. int_eq value.now.1 u.1) (take i (enum_view entry.now).values))
        → result ≡ marks_of (a_value (enum_view entry.now) i (numbered_view value.now)) }
{
    Marks {
        is_named: true,
        number_is_free: either(entry.allow_alias, is_first),
        is_not_reserved: is_value_kept(reserved, value),
        is_oneof_right: true,
        ranges_are_right: true,
    }
}

/// The marks of the values of an enum.
pub(crate) fn value_marks(
    alloc: Global,
    reserved: &Reserved,
    entry: &EnumDecl,
) -> Result<Vec<Marks>, AllocError>
    requires { ReservesInEnum (enum_view entry.now) reserved.now }
    ensures { IfOk result (λ v. v.items ≡ value_marks (enum_view entry.now)) }
{
    let mut numbers: BTreeSet<i32> = BTreeSet::new(alloc);
    let mut marks: Vec<Marks> = Vec::new(alloc);
    for value in &entry.values {
        let is_first = add_number(&mut numbers, &value.1)?;
        marks.push(value_mark(reserved, entry, value, is_first))?;
    }
    Ok(marks)
}
