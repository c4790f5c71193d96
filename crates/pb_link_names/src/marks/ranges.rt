//! Whether reserved ranges are right.

ghost use Rattle.std.specs.Prelude.{◌≡◌, ◌&&◌, ℕ, List, map};
ghost use Rattle.std.specs.List.{list_all};
ghost use Rattle.pb_link_names.specs.Reserved.{with_end_behind, Reserves};
ghost use Rattle.pb_link_names.specs.MarkRules.{message_ranges_overlap, enum_ranges_overlap, none_overlap, is_message_range, is_enum_range};

use crate::marks::reserved::Reserved;

fn is_message_range(range: (i32, i32)) -> bool
    ensures { result ≡ is_message_range range }
{
    1 <= range.0 && range.0 < range.1 && range.1 <= 536_870_912
}

fn are_message_ranges(ranges: &[(i32, i32)]) -> bool
    ensures { result ≡ list_all is_message_range ranges.now }
{
    ranges.iter().all(|range| is_message_range(*range))
}

fn are_enum_ranges(ranges: &[(i32, i32)]) -> bool
    ensures { result ≡ list_all is_enum_range ranges.now }
{
    ranges.iter().all(|range| range.0 <= range.1)
}

/// Whether the reserved ranges of a message are right.
pub(crate) fn message_ranges_are_right(reserved: &Reserved, ranges: &[(i32, i32)]) -> bool
    ensures { (names : List (List ℕ)) → Reserves ranges.now names reserved.now
        → result ≡ (list_all is_message_range ranges.now && none_overlap message_ranges_overlap ranges.now) }
{
    are_message_ranges(ranges) && reserved.are_apart
}

/// Whether the reserved ranges of an enum are right.
pub(crate) fn enum_ranges_are_right(reserved: &Reserved, ranges: &[(i32, i32)]) -> bool
    ensures { (names : List (List ℕ)) → Reserves (map with_end_behind ranges.now) names reserved.now
        → result ≡ (list_all is_enum_range ranges.now && none_overlap enum_ranges_overlap ranges.now) }
{
    are_enum_ranges(ranges) && reserved.are_apart
}
