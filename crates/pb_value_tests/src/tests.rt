//! The tests of rows: each reads its tables, on messages of the type of a sample.

use super::sample::{Schema, closed_sample, sample};
use std::alloc::Global;
use std::test::Fail;

/// What the rows of tables say.
#[derive(Clone, Copy)]
enum Form {
    Bodies,
    Changes,
    Merges,
    Calls,
}

/// What is called.
const CALLS: &[&str] = &[
    "empty message",
    "what a message holds",
    "long list",
    "messages inside others",
    "whole view",
    "printed messages",
];

/// Whether each call of a row answers as it should.
fn is_called(alloc: Global, schema: &Schema, row: &str) -> Result<bool, Fail> {
    match row {
        "empty message" => Ok(super::calls::is_empty(schema, &schema.empty(alloc))),
        "what a message holds" => super::calls::is_held(alloc, schema),
        "long list" => Ok(super::calls::is_long_set(alloc, &mut schema.empty(alloc), 1_000_000)?),
        "messages inside others" => super::views::are_inner_told(alloc, schema),
        "whole view" => super::views::is_whole_told(alloc, schema),
        "printed messages" => super::views::are_shown(alloc, schema),
        "groups" => super::views::are_groups_told(alloc, schema),
        _ => Err(Fail::new("no call")),
    }
}

fn is_told(alloc: Global, schema: &Schema, form: Form, row: &str) -> Result<bool, Fail> {
    match form {
        Form::Bodies => super::bodies::is_told(alloc, schema, row),
        Form::Changes => super::changes::is_done(alloc, schema, row),
        Form::Merges => super::merges::is_merged(alloc, schema, row),
        Form::Calls => is_called(alloc, schema, row),
    }
}

/// The first row that is answered otherwise, or none.
fn first_wrong<'a>(
    alloc: Global,
    schema: &Schema,
    form: Form,
    tables: &[&'a str],
) -> Result<Option<&'a str>, Fail> {
    for table in tables {
        for row in table.lines() {
            if !row.is_empty() && !is_told(alloc, schema, form, row)? {
                return Ok(Some(row));
            }
        }
    }
    Ok(None)
}

fn wrong_row(
    alloc: Global,
    form: Form,
    tables: &[&'static str],
) -> Result<Option<&'static str>, Fail> {
    let schema = sample(alloc)?;
    first_wrong(alloc, &schema, form, tables)
}

fn wrong_closed_row(
    alloc: Global,
    form: Form,
    tables: &[&'static str],
) -> Result<Option<&'static str>, Fail> {
    let schema = closed_sample(alloc)?;
    first_wrong(alloc, &schema, form, tables)
}

#[test]
fn bodies(rt: HostRuntime) -> Result<(), Fail> {
    let wrong = wrong_row(rt.alloc(), Form::Bodies, super::bodies::TABLES)?;
    assert!(rt; wrong.is_none(), "{wrong:?}");
    Ok(())
}

#[test]
fn changes(rt: HostRuntime) -> Result<(), Fail> {
    let wrong = wrong_row(rt.alloc(), Form::Changes, super::changes::TABLES)?;
    assert!(rt; wrong.is_none(), "{wrong:?}");
    Ok(())
}

#[test]
fn merges(rt: HostRuntime) -> Result<(), Fail> {
    let wrong = wrong_row(rt.alloc(), Form::Merges, super::merges::TABLES)?;
    assert!(rt; wrong.is_none(), "{wrong:?}");
    Ok(())
}

#[test]
fn calls(rt: HostRuntime) -> Result<(), Fail> {
    let wrong = wrong_row(rt.alloc(), Form::Calls, CALLS)?;
    assert!(rt; wrong.is_none(), "{wrong:?}");
    Ok(())
}

#[test]
fn closed_bodies(rt: HostRuntime) -> Result<(), Fail> {
    let wrong = wrong_closed_row(rt.alloc(), Form::Bodies, super::bodies::CLOSED_TABLES)?;
    assert!(rt; wrong.is_none(), "{wrong:?}");
    Ok(())
}

#[test]
fn closed_changes(rt: HostRuntime) -> Result<(), Fail> {
    let wrong = wrong_closed_row(rt.alloc(), Form::Changes, super::changes::CLOSED_TABLES)?;
    assert!(rt; wrong.is_none(), "{wrong:?}");
    Ok(())
}

#[test]
fn closed_merges(rt: HostRuntime) -> Result<(), Fail> {
    let wrong = wrong_closed_row(rt.alloc(), Form::Merges, super::merges::CLOSED_TABLES)?;
    assert!(rt; wrong.is_none(), "{wrong:?}");
    Ok(())
}

#[test]
fn closed_calls(rt: HostRuntime) -> Result<(), Fail> {
    let wrong = wrong_closed_row(rt.alloc(), Form::Calls, &["groups"])?;
    assert!(rt; wrong.is_none(), "{wrong:?}");
    Ok(())
}
