//! The tests of rows: each reads its tables, on messages of the type of a sample.

use super::schema::{Schema, sample};
use std::alloc::Global;
use std::test::Fail;

/// What the rows of tables say.
#[derive(Clone, Copy)]
enum Form {
    Reading,
    Asking,
    Changing,
    Out,
    Nested,
    Left,
}

fn is_right(alloc: Global, schema: &Schema, form: Form, row: &'static str) -> Result<bool, Fail> {
    match form {
        Form::Reading => super::reading::is_right(alloc, schema, row),
        Form::Asking => super::asking::is_right(alloc, schema, row),
        Form::Changing => super::changing::is_right(alloc, schema, row),
        Form::Out => super::changing::is_out(alloc, schema, row),
        Form::Nested => super::nested::is_right(alloc, schema, row),
        Form::Left => super::nested::is_left(alloc, schema, row),
    }
}

/// The first row that does not hold.
fn wrong_row(
    alloc: Global,
    form: Form,
    tables: &[&'static str],
) -> Result<Option<&'static str>, Fail> {
    let schema = sample(alloc)?;
    for table in tables {
        for row in table.lines() {
            if !row.is_empty() && !is_right(alloc, &schema, form, row)? {
                return Ok(Some(row));
            }
        }
    }
    Ok(None)
}

#[test]
fn reading(rt: HostRuntime) -> Result<(), Fail> {
    let wrong = wrong_row(rt.alloc(), Form::Reading, super::reading::TABLES)?;
    assert!(rt; wrong.is_none(), "{wrong:?}");
    Ok(())
}

#[test]
fn asking(rt: HostRuntime) -> Result<(), Fail> {
    let wrong = wrong_row(rt.alloc(), Form::Asking, super::asking::TABLES)?;
    assert!(rt; wrong.is_none(), "{wrong:?}");
    Ok(())
}

#[test]
fn changing(rt: HostRuntime) -> Result<(), Fail> {
    let wrong = wrong_row(rt.alloc(), Form::Changing, super::changing::TABLES)?;
    assert!(rt; wrong.is_none(), "{wrong:?}");
    Ok(())
}

#[test]
fn taken_out(rt: HostRuntime) -> Result<(), Fail> {
    let wrong = wrong_row(rt.alloc(), Form::Out, super::changing::OUT_TABLES)?;
    assert!(rt; wrong.is_none(), "{wrong:?}");
    Ok(())
}

#[test]
fn nested(rt: HostRuntime) -> Result<(), Fail> {
    let wrong = wrong_row(rt.alloc(), Form::Nested, &[super::nested::ROWS])?;
    assert!(rt; wrong.is_none(), "{wrong:?}");
    Ok(())
}

#[test]
fn nested_left(rt: HostRuntime) -> Result<(), Fail> {
    let wrong = wrong_row(rt.alloc(), Form::Left, &[super::nested::LEFT])?;
    assert!(rt; wrong.is_none(), "{wrong:?}");
    Ok(())
}
