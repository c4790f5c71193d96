//! All differences between two types.

ghost use Rattle.std.specs.Prelude.{◌≡◌, ◌<◌, ◌++◌, length, map, IfOk, OnOk};
ghost use Rattle.pb_schema.specs.View.{field_view};
ghost use Rattle.pb_compat.specs.Oneofs.{HasCrowds};
ghost use Rattle.std.specs.Option.{option_to_list};
ghost use Rattle.pb_compat.specs.Fields.{change_of_field, renaming_of, differences_of, differences_at};
ghost use Rattle.pb_compat.specs.Pairs.{AreRising, AreDifferences};
ghost use Rattle.pb_schema.specs.Types.{message_fields};

use crate::difference::{Difference, Severity};
use crate::fields::{change_of, is_renamed};
use crate::oneofs::{crowds, is_in_crowd};
use pb_schema::{Field, MessageId, Pool};
use std::alloc::{AllocError, Global};

/// The numbers of fields, in rising order.
pub(crate) fn rising_numbers(alloc: Global, fields: &[Field]) -> Result<Vec<u32>, AllocError>
    ensures { IfOk result (λ v. AreRising (map field_view fields.now) v.items) }
{
    let mut numbers = Vec::new(alloc);
    for field in fields {
        numbers.push(field.number)?;
    }
    numbers.sort_unstable();
    Ok(numbers)
}

/// Adds the differences at a field that the new type has too.
fn add_changes(
    differences: &mut Vec<Difference>,
    old: &Pool,
    new: &Pool,
    crowded: bool,
    number: u32,
    from: &Field,
    to: &Field,
) -> Result<(), AllocError>
    ensures { OnOk result (differences.new.items
        ≡ differences.old.items ++ differences_of number
        (option_to_list (change_of_field old.now new.now crowded (field_view from.now)
        (field_view to.now)) ++ renaming_of (field_view from.now) (field_view to.now))) }
{
    if let Some(severity) = change_of(old, new, crowded, from, to) {
        differences.push(Difference { number, severity })?;
    }
    if is_renamed(from, to) {
        differences.push(Difference {
            number,
            severity: Severity::Renames,
        })?;
    }
    Ok(())
}

/// Adds the differences at the fields of a number.
fn add_differences(
    differences: &mut Vec<Difference>,
    old: &Pool,
    old_type: MessageId,
    new: &Pool,
    new_type: MessageId,
    crowded: &[bool],
    number: u32,
) -> Result<(), AllocError>
    requires old { old_type.0 < length old.now.messages }
    requires new { new_type.0 < length new.now.messages }
    requires crowds { HasCrowds old.now old_type.0 new.now new_type.0 crowded.now }
    ensures { OnOk result (differences.new.items
        ≡ differences.old.items ++ differences_at old.now new.now old_type.0 new_type.0 number) }
{
    let Some(from) = old.field_by_number(old_type, number) else {
        return Ok(());
    };
    let Some(to) = new.field_by_number(new_type, number) else {
        differences.push(Difference {
            number,
            severity: Severity::Loses,
        })?;
        return Ok(());
    };
    let crowded = is_in_crowd(old, old_type, new, new_type, crowded, to.shape);
    add_changes(differences, old, new, crowded, number, from, to)
}

/// All differences between two types, of which the numbers are those of the old one's fields. In time by the fields of the old type and
/// the oneofs' members of the new one.
pub(crate) fn differences_between(
    alloc: Global,
    old: &Pool,
    old_type: MessageId,
    new: &Pool,
    new_type: MessageId,
    numbers: &[u32],
) -> Result<Vec<Difference>, AllocError>
    requires old { old_type.0 < length old.now.messages }
    requires new { new_type.0 < length new.now.messages }
    requires numbers { AreRising (message_fields old.now old_type.0) numbers.now }
    ensures { IfOk result (λ v. AreDifferences old.now new.now old_type.0 new_type.0 v.items) }
{
    let crowded = crowds(alloc, old, old_type, new, new_type)?;
    let mut differences = Vec::new(alloc);
    for number in numbers {
        add_differences(
            &mut differences,
            old,
            old_type,
            new,
            new_type,
            &crowded,
            *number,
        )?;
    }
    Ok(differences)
}
