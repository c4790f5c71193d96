//! Look-ups in the samples.

use super::rows::{is_found, pool_of};
use super::samples::{KINDS, NO_ORDER, SHAPES};
use pb_schema::{EnumId, EnumType, FileInfo, MessageId, MessageType, Pool, fits};
use std::alloc::Global;
use std::test::Fail;

fn has_number(pool: &Pool, name: &str, number: u32) -> bool {
    match pool.message_by_name(name) {
        Some(id) => pool.field_by_number(id, number).is_some(),
        None => false,
    }
}

pub(crate) fn has_name(pool: &Pool, name: &str, field: &str) -> bool {
    match pool.message_by_name(name) {
        Some(id) => pool.field_by_name(id, field).is_some(),
        None => false,
    }
}

fn are_found(alloc: Global, pool: &Pool, name: &str, rows: &str) -> Result<bool, Fail> {
    for row in rows.lines() {
        if !is_found(alloc, pool, name, row)? {
            return Ok(false);
        }
    }
    Ok(true)
}

pub(crate) fn has_one_of(pool: &Pool, name: &str, numbers: &[u32]) -> bool {
    for number in numbers {
        if has_number(pool, name, *number) {
            return true;
        }
    }
    false
}

pub(crate) fn has_each_of(pool: &Pool, name: &str, numbers: &[u32]) -> bool {
    for number in numbers {
        if !has_number(pool, name, *number) {
            return false;
        }
    }
    true
}

fn has_one_named(pool: &Pool, name: &str, fields: &[&str]) -> bool {
    for field in fields {
        if has_name(pool, name, field) {
            return true;
        }
    }
    false
}

const NO_NUMBERS: &[u32] = &[0, 5, 13, 536_870_911, u32::MAX];

const NO_FIELDS: &[&str] = &["", "A", "o", "MEntry", "aa"];

#[test]
fn fields_of_every_shape(rt: HostRuntime) -> Result<(), Fail> {
    let shapes = pool_of(rt.alloc(), SHAPES)?;
    let are_there = are_found(rt.alloc(), &shapes, "T", SHAPES)?;
    assert!(rt;
        are_there
            && !has_one_of(&shapes, "T", NO_NUMBERS)
            && !has_one_named(&shapes, "T", NO_FIELDS)
    );
    Ok(())
}

#[test]
fn fields_of_other_kinds(rt: HostRuntime) -> Result<(), Fail> {
    let kinds = pool_of(rt.alloc(), KINDS)?;
    let are_there = are_found(rt.alloc(), &kinds, "F", KINDS)?;
    assert!(rt;
        are_there
            && !has_one_of(&kinds, "F", &[0, 3, 12, 19, u32::MAX])
            && !has_name(&kinds, "F", "k2")
    );
    Ok(())
}

#[test]
fn fields_in_no_order(rt: HostRuntime) -> Result<(), Fail> {
    let pool = pool_of(rt.alloc(), NO_ORDER)?;
    let are_there = are_found(rt.alloc(), &pool, "D", NO_ORDER)?;
    assert!(rt; are_there && !has_one_of(&pool, "D", &[0, 4, 5, 6, 8]));
    Ok(())
}

fn has_message(pool: &Pool, names: &[&str]) -> bool {
    for name in names {
        if pool.message_by_name(name).is_some() {
            return true;
        }
    }
    false
}

fn has_enum(pool: &Pool, names: &[&str]) -> bool {
    for name in names {
        if pool.enum_by_name(name).is_some() {
            return true;
        }
    }
    false
}

#[test]
fn messages_by_name(rt: HostRuntime) -> Result<(), Fail> {
    let shapes = pool_of(rt.alloc(), SHAPES)?;
    assert!(rt;
        shapes.message_by_name("T") == Some(MessageId(0))
            && !has_message(&shapes, &["t", ".T", "T.m", "T.MEntry", ""])
            && !has_enum(&shapes, &["T"])
    );
    Ok(())
}

#[test]
fn enums_by_name(rt: HostRuntime) -> Result<(), Fail> {
    let kinds = pool_of(rt.alloc(), KINDS)?;
    assert!(rt;
        kinds.enum_by_name("E") == Some(EnumId(0))
            && !has_message(&kinds, &["E"])
            && !has_enum(&kinds, &["Z"])
    );
    Ok(())
}

fn is_the_file(files: &[FileInfo]) -> bool {
    match files.first() {
        Some(file) => {
            files.len() == 1
                && file.name.as_str() == "f.proto"
                && file.package.is_empty()
                && file.imports.is_empty()
        }
        None => false,
    }
}

fn is_the_message(messages: &[MessageType]) -> bool {
    match messages.first() {
        Some(message) => {
            messages.len() == 1 && message.name.as_str() == "F" && message.fields.len() == 12
        }
        None => false,
    }
}

fn is_the_enum(enums: &[EnumType]) -> bool {
    match enums.first() {
        Some(entry) => enums.len() == 1 && entry.name.as_str() == "E" && entry.values.len() == 2,
        None => false,
    }
}

#[test]
fn parts_in_order(rt: HostRuntime) -> Result<(), Fail> {
    let pool = pool_of(rt.alloc(), KINDS)?;
    assert!(rt;
        is_the_file(pool.files()) && is_the_message(pool.messages()) && is_the_enum(pool.enums())
    );
    Ok(())
}

/// Whether of the wire types 0 to 7 exactly these two fit the field, which may be the same.
fn only_fit(pool: &Pool, name: &str, number: u32, wire_types: (u8, u8)) -> bool {
    let Some(id) = pool.message_by_name(name) else {
        return false;
    };
    let Some(field) = pool.field_by_number(id, number) else {
        return false;
    };
    for wire_type in 0..8 {
        let is_one = wire_type == wire_types.0 || wire_type == wire_types.1;
        if fits(field, wire_type) != is_one {
            return false;
        }
    }
    true
}

/// A field, and the wire types that fit it.
const IN_SHAPES: &[(u32, (u8, u8))] = &[
    (1, (0, 0)),
    (2, (2, 2)),
    (3, (2, 2)),
    (4, (1, 1)),
    (6, (0, 2)),
    (7, (0, 0)),
    (9, (2, 2)),
    (12, (2, 2)),
];

const IN_KINDS: &[(u32, (u8, u8))] = &[
    (13, (2, 2)),
    (14, (0, 2)),
    (15, (2, 2)),
    (16, (5, 5)),
    (17, (0, 0)),
    (18, (5, 2)),
];

pub(crate) fn are_only_fit(pool: &Pool, name: &str, rows: &[(u32, (u8, u8))]) -> bool {
    for (number, wire_types) in rows {
        if !only_fit(pool, name, *number, *wire_types) {
            return false;
        }
    }
    true
}

#[test]
fn records_that_fit(rt: HostRuntime) -> Result<(), Fail> {
    let shapes = pool_of(rt.alloc(), SHAPES)?;
    let kinds = pool_of(rt.alloc(), KINDS)?;
    assert!(rt; are_only_fit(&shapes, "T", IN_SHAPES) && are_only_fit(&kinds, "F", IN_KINDS));
    Ok(())
}
