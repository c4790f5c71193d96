//! All rules of a pool.

pub(crate) mod each_field;
pub(crate) mod fields;
pub(crate) mod files;
pub(crate) mod indexes;
pub(crate) mod names;
pub(crate) mod order;
pub(crate) mod shapes;
pub(crate) mod syntax;

ghost use Rattle.std.specs.Prelude.{◌↔◌, IsTrue, IfOk, map, length};
ghost use Rattle.pb_schema.specs.View.{file_view, message_view, enum_view, types_of};
ghost use Rattle.pb_schema.specs.Nesting.{ParentsStandBefore};
ghost use Rattle.pb_schema.specs.Rules.{FileRules, IndexRules, NameRules, ShapeRules, FieldRules, IsPool, ImportsNameFiles};
ghost use Rattle.pb_schema.specs.Rules.{PackagesAreWords, MessageNamesAreWords, EnumNamesAreWords, FullNamesDiffer, PackagesAreFree};

use crate::imports::cycles::no_file_reaches_itself;
use crate::names::declared::{Declarations, add_enums, add_messages};
use crate::names::tree::{NameTree, add_packages};
use crate::rules::fields::{numbers_differ, oneofs_have_members, types_are_seen};
use crate::rules::files::{
    file_names_differ, files_are_named, imports_are_few, imports_name_files, packages_are_words,
};
use crate::rules::indexes::{
    enums_have_files, enums_share_file_with_parent, kinds_name_types, members_name_oneofs,
    messages_have_files, messages_share_file_with_parent,
};
use crate::rules::names::{enum_names_are_words, message_names_are_words};
use crate::rules::order::{enums_stand_in_order, messages_stand_in_order};
use crate::rules::shapes::{
    implicit_are_scalars, keys_are_key_kinds, numbers_are_field_numbers, packed_are_packable,
    values_may_stand,
};
use crate::rules::syntax::syntax_rules_hold;
use crate::types::{EnumType, FileInfo, MessageType};
use std::alloc::{AllocError, Global};

fn files_meet_rules(alloc: Global, files: &[FileInfo]) -> Result<bool, AllocError>
    ensures { IfOk result (λ holds. IsTrue holds ↔ FileRules (map file_view files.now)) }
{
    let listed = files_are_named(files)
        && packages_are_words(files)
        && imports_are_few(files)
        && imports_name_files(files);
    if !listed {
        return Ok(false);
    }
    let differ = file_names_differ(alloc, files)?;
    let free_of_cycles = no_file_reaches_itself(alloc, files)?;
    Ok(differ && free_of_cycles)
}

fn indexes_meet_rules(files: &[FileInfo], messages: &[MessageType], enums: &[EnumType]) -> bool
    ensures { IsTrue result ↔ IndexRules (types_of files.now messages.now enums.now) }
{
    messages_have_files(files, messages)
        && enums_have_files(files, enums)
        && messages_share_file_with_parent(messages)
        && enums_share_file_with_parent(messages, enums)
        && kinds_name_types(messages, enums)
        && members_name_oneofs(messages)
}

fn shapes_meet_rules(messages: &[MessageType]) -> bool
    ensures { IsTrue result ↔ ShapeRules (map message_view messages.now) }
{
    numbers_are_field_numbers(messages)
        && keys_are_key_kinds(messages)
        && packed_are_packable(messages)
        && implicit_are_scalars(messages)
        && values_may_stand(messages)
}

fn fields_meet_rules(
    alloc: Global,
    files: &[FileInfo],
    messages: &[MessageType],
    enums: &[EnumType],
) -> Result<bool, AllocError>
    requires { ImportsNameFiles (map file_view files.now) }
    ensures { IfOk result (λ holds. IsTrue holds ↔ FieldRules (types_of files.now messages.now enums.now)) }
{
    let differ = numbers_differ(alloc, messages)?;
    let seen = types_are_seen(alloc, files, messages, enums)?;
    let oneofs = oneofs_have_members(alloc, messages)?;
    Ok(differ && seen && oneofs && shapes_meet_rules(messages))
}

fn full_names_meet_rules(
    alloc: Global,
    files: &[FileInfo],
    messages: &[MessageType],
    enums: &[EnumType],
) -> Result<bool, AllocError>
    requires parents { ParentsStandBefore (map message_view messages.now) (length messages.now) }
    requires packages { PackagesAreWords (map file_view files.now) }
    requires message_words { MessageNamesAreWords (map message_view messages.now) }
    requires enum_words { EnumNamesAreWords (map enum_view enums.now) }
    ensures { let ts = types_of files.now messages.now enums.now in IfOk result (λ holds. IsTrue holds ↔ (FullNamesDiffer ts × PackagesAreFree ts)) }
{
    let mut tree = NameTree::new(alloc);
    let packages = add_packages(&mut tree, alloc, files)?;
    let mut declared = Declarations { tree, differ: true };
    let names = add_messages(&mut declared, alloc, &packages, messages)?;
    add_enums(&mut declared, alloc, &packages, &names, enums)?;
    Ok(declared.differ)
}

fn names_meet_rules(
    alloc: Global,
    files: &[FileInfo],
    messages: &[MessageType],
    enums: &[EnumType],
) -> Result<bool, AllocError>
    requires parents { ParentsStandBefore (map message_view messages.now) (length messages.now) }
    requires packages { PackagesAreWords (map file_view files.now) }
    ensures { IfOk result (λ holds. IsTrue holds ↔ NameRules (types_of files.now messages.now enums.now)) }
{
    let words = message_names_are_words(alloc, messages)?;
    if !words || !enum_names_are_words(enums) {
        return Ok(false);
    }
    full_names_meet_rules(alloc, files, messages, enums)
}

/// Whether parts meet every rule of a pool.
pub(crate) fn meet_rules(
    alloc: Global,
    files: &[FileInfo],
    messages: &[MessageType],
    enums: &[EnumType],
) -> Result<bool, AllocError>
    ensures { IfOk result (λ holds. IsTrue holds ↔ IsPool (types_of files.now messages.now enums.now)) }
{
    let files_hold = files_meet_rules(alloc, files)?;
    if !files_hold || !indexes_meet_rules(files, messages, enums) {
        return Ok(false);
    }
    let in_order = messages_stand_in_order(messages);
    if !in_order {
        return Ok(false);
    }
    if !enums_stand_in_order(messages, enums) {
        return Ok(false);
    }
    let fields_hold = fields_meet_rules(alloc, files, messages, enums)?;
    let names_hold = names_meet_rules(alloc, files, messages, enums)?;
    Ok(fields_hold && names_hold && syntax_rules_hold(files, messages, enums))
}
