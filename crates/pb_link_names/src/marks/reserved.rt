//! What messages and enums reserve, to be searched.

ghost use Rattle.std.specs.Prelude.{◌≡◌, ℕ, ℤ, List, map, true, string_bytes, IfOk, FitsSigned};
ghost use Rattle.std.specs.Int.{w32};
ghost use Rattle.std.specs.List.{list_any, list_all};
ghost use Rattle.std.specs.Str.{bytes_eq};
ghost use Rattle.pb_declarations.specs.View.{enum_view, message_view};
ghost use Rattle.pb_link_names.specs.Declarations.{head_of};
ghost use Rattle.pb_link_names.specs.NameSets.{is_in_set};
ghost use Rattle.pb_link_names.specs.Reserved.{with_end_behind, is_filled, Rises, Reserves, ReservesInMessage, ReservesInEnum};
ghost use Rattle.pb_link_names.specs.MarkRules.{is_in_message_range, message_ranges_overlap, none_overlap};

use pb_declarations::{EnumDecl, MessageDecl};
use pb_names::name_set::NameSet;
use std::alloc::{AllocError, Global};

/// The ranges and names that a message or an enum reserves.
#[derive(Drop)]
pub(crate) struct Reserved {
    /// The starts in rising order, each with the greatest end of the ranges up to its own. Ends are exclusive.
    spans: Vec<(i64, i64)>,
    /// Whether no two of the ranges have a number in common, where none is empty.
    pub(crate) are_apart: bool,
    names: NameSet,
}

/// The reserved ranges of a message, whose ends are exclusive.
fn message_spans(alloc: Global, ranges: &[(i32, i32)]) -> Result<Vec<(i64, i64)>, AllocError>
    ensures { IfOk result (λ v. v.items ≡ ranges.now) }
{
    ranges
        .iter()
        .map(|range| (i64::from(range.0), i64::from(range.1)))
        .collect(alloc)
}

/// The reserved ranges of an enum, whose ends are inclusive, with exclusive ends.
fn enum_spans(alloc: Global, ranges: &[(i32, i32)]) -> Result<Vec<(i64, i64)>, AllocError>
    ensures { IfOk result (λ v. v.items ≡ map with_end_behind ranges.now) }
{
    ranges
        .iter()
        .map(|range| (i64::from(range.0), i64::from(range.1) + 1))
        .collect(alloc)
}

/// Whether no two ranges have a number in common. The ranges are sorted by their starts, and none is empty.
fn are_apart(spans: &[(i64, i64)]) -> bool
    ensures { Rises (λ s. s.0) spans.now → list_all is_filled spans.now ≡ true → result ≡ none_overlap message_ranges_overlap spans.now }
{
    spans.is_sorted_by(|one, next| one.1 <= next.0)
}

/// Raises each end to the greatest of those up to it. The ranges hold the same numbers as before, since they are sorted by their starts.
fn raise_ends(spans: &mut [(i64, i64)])
    requires { Rises (λ s. s.0) spans.old }
    ensures starts { Rises (λ s. s.0) spans.new }
    ensures ends { Rises (λ s. s.1) spans.new }
    ensures same { (n : ℤ) → FitsSigned w32 n → list_any (is_in_message_range n) spans.new ≡ list_any (is_in_message_range n) spans.old }
{
    let mut end = i64::MIN;
    for span in spans.iter_mut() {
        end = end.max(span.1);
        span.1 = end;
    }
}

fn name_set(alloc: Global, names: &[String]) -> Result<NameSet, AllocError>
    ensures { IfOk result (λ s. (name : List ℕ) → is_in_set s name ≡ list_any (bytes_eq name) (map string_bytes names.now)) }
{
    let mut set = NameSet::new(alloc);
    for name in names {
        set.add_copy(alloc, name.as_str().as_bytes())?;
    }
    Ok(set)
}

/// Makes the table of these ranges, whose ends are exclusive, and these names.
fn searchable(
    alloc: Global,
    mut spans: Vec<(i64, i64)>,
    names: &[String],
) -> Result<Reserved, AllocError>
    ensures { IfOk result (Reserves spans.items (map string_bytes names.now)) }
{
    spans.sort_unstable_by_key(|span| span.0);
    let are_apart = are_apart(&spans);
    raise_ends(&mut spans);
    let names = name_set(alloc, names)?;
    Ok(Reserved {
        spans,
        are_apart,
        names,
    })
}

impl Reserved {
    /// What a message reserves.
    pub(crate) fn of_message(alloc: Global, message: &MessageDecl) -> Result<Reserved, AllocError>
        ensures { IfOk result (ReservesInMessage (head_of (message_view message.now))) }
    {
        let spans = message_spans(alloc, &message.reserved)?;
        let reserved = searchable(alloc, spans, &message.reserved_names)?;
        Ok(reserved)
    }

    /// What an enum reserves.
    pub(crate) fn of_enum(alloc: Global, entry: &EnumDecl) -> Result<Reserved, AllocError>
        ensures { IfOk result (ReservesInEnum (enum_view entry.now)) }
    {
        let spans = enum_spans(alloc, &entry.reserved)?;
        let reserved = searchable(alloc, spans, &entry.reserved_names)?;
        Ok(reserved)
    }

    /// Whether a number is in a range.
    pub(crate) fn has_number(&self, number: i32) -> bool
        ensures { (ranges : List (ℤ × ℤ)) (names : List (List ℕ)) → Reserves ranges names self.now → result ≡ list_any (is_in_message_range number) ranges }
    {
        let number = i64::from(number);
        let behind = self.spans.partition_point(|span| span.0 <= number);
        behind > 0 && number < self.spans[behind - 1].1
    }

    /// Whether a name is reserved.
    pub(crate) fn has_name(&self, name: &str) -> bool
        ensures { (ranges : List (ℤ × ℤ)) (names : List (List ℕ)) → Reserves ranges names self.now → result ≡ list_any (bytes_eq name.now) names }
    {
        self.names.contains(name.as_bytes())
    }
}
