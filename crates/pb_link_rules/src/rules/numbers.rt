//! Numbers of fields and the first values of enums.

ghost use Rattle.std.specs.Prelude.{◌≡◌};
ghost use Rattle.pb_declarations.specs.View.{enum_view};
ghost use Rattle.pb_link_rules.specs.Rules.{is_field_number, begins_right};

use pb_declarations::EnumDecl;

/// Whether a field may have the number: from 1 to 536,870,911, and not from 19,000 to 19,999.
pub(crate) fn is_field_number(number: i32) -> bool
    ensures { result ≡ is_field_number number }
{
    (1..19_000).contains(&number) || (20_000..536_870_912).contains(&number)
}

/// Whether there is a first value and, but in a file of proto2, its number is 0.
pub(crate) fn begins_right(proto2: bool, entry: &EnumDecl) -> bool
    ensures { result ≡ begins_right proto2 (enum_view entry.now) }
{
    match entry.values.first() {
        Some(value) => proto2 || value.1 == 0,
        None => false,
    }
}
