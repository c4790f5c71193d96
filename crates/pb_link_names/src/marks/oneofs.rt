//! Oneofs and their members.

ghost use Rattle.std.specs.Prelude.{◌≡◌, ◌<◌, ◌+◌, map, length, IfOk, not, false, ◌&&◌, ◌||◌, ◌^◌, slice_index, slice_set, nat_lt};
ghost use Rattle.std.specs.List.{slice_index_or};
ghost use Rattle.pb_declarations.specs.Decls.{MessageHead};
ghost use Rattle.pb_declarations.specs.View.{field_view};
ghost use Rattle.pb_link_names.specs.MarkRules.{oneof_of_field_is_right};
ghost use Rattle.pb_link_names.specs.Oneofs.{AreCounted, AreOneofsOf, oneof_place};

use pb_declarations::FieldDecl;
use std::alloc::{AllocError, Global};

/// The oneofs of a message: by index how many members each has, and whether one of them makes it synthetic.
#[derive(Drop)]
pub struct Oneofs {
    pub members: Vec<usize>,
    pub are_synthetic: Vec<bool>,
}

/// The index of a field's oneof, if it is below `oneofs`.
fn oneof_place(field: &FieldDecl, oneofs: usize) -> Option<usize>
    ensures { result ≡ oneof_place oneofs (field_view field.now) }
{
    let index = field.oneof?;
    if index < 0 {
        return None;
    }
    let index = index as usize;
    if index < oneofs { Some(index) } else { None }
}

fn count(members: &mut Vec<usize>, index: usize)
    requires there { index < length members.old.items }
    requires fits { slice_index members.old.items index + 1 < 2 ^ 64 }
    ensures { members.new.items ≡ slice_set members.old.items index (slice_index members.old.items index + 1) }
{
    members[index] += 1;
}

fn mark(marks: &mut Vec<bool>, index: usize, is_marked: bool)
    requires { index < length marks.old.items }
    ensures { marks.new.items ≡ slice_set marks.old.items index (slice_index_or marks.old.items index false || is_marked) }
{
    let is_now = marks[index] || is_marked;
    marks[index] = is_now;
}

/// Counts the members of each of `oneofs` oneofs.
pub fn counted(alloc: Global, fields: &[FieldDecl], oneofs: usize) -> Result<Oneofs, AllocError>
    ensures { IfOk result (λ o. AreCounted (map field_view fields.now) oneofs o.members.items o.are_synthetic.items) }
{
    let mut members = vec![in alloc; 0; oneofs]?;
    let mut are_synthetic = vec![in alloc; false; oneofs]?;
    for field in fields {
        if let Some(index) = oneof_place(field, oneofs) {
            count(&mut members, index);
            mark(&mut are_synthetic, index, field.proto3_optional);
        }
    }
    Ok(Oneofs {
        members,
        are_synthetic,
    })
}

/// Whether the rules of oneofs hold at a field.
pub(crate) fn is_member_right(oneofs: &Oneofs, field: &FieldDecl) -> bool
    ensures { (head : MessageHead) → AreOneofsOf head oneofs.now → result ≡ oneof_of_field_is_right head (field_view field.now) }
{
    let Some(_) = field.oneof else {
        return !field.proto3_optional;
    };
    match oneof_place(field, oneofs.members.len()) {
        Some(index) => { !field.repeated && (!field.proto3_optional || oneofs.members[index] == 1) }
        None => false,
    }
}

/// Whether the oneof at an index has a member and, unless it is synthetic, follows no synthetic one.
pub(crate) fn is_oneof_right(oneofs: &Oneofs, index: usize, follows_synthetic: bool) -> bool
    requires size { index < length oneofs.now.members.items }
    requires sizes { length oneofs.now.are_synthetic.items ≡ length oneofs.now.members.items }
    ensures { result ≡ (nat_lt 0 (slice_index_or oneofs.now.members.items index 0) &&
        (slice_index_or oneofs.now.are_synthetic.items index false || not follows_synthetic)) }
{
    oneofs.members[index] > 0 && (oneofs.are_synthetic[index] || !follows_synthetic)
}
