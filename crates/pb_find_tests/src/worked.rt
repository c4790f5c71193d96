//! Worked cases, each answered as its row says.

use super::answers::answer_text;
use super::rows::{CLOSED, FAULTS, GROUPS, KINDS, LAST, NESTED, ONEOFS, PATHS};
use super::sample::{Schema, sample};
use super::words::{bytes_of, path_of, word};
use pb_wire::Limits;
use std::alloc::Global;
use std::test::Fail;

/// Whether a row is answered as it says.
fn is_answered(schema: &Schema, row: &str) -> Result<bool, Fail> {
    let (input, words) = word(row);
    let (path, wanted) = word(words);
    let bytes = bytes_of(schema.alloc, input)?;
    let path = path_of(schema.alloc, path)?;
    let answer = answer_text(schema.alloc, schema.find(&bytes, Limits::FULL, &path))?;
    Ok(answer.as_str() == wanted)
}

/// The first row that is answered otherwise, or none.
fn first_wrong<'a>(schema: &Schema, rows: &'a str) -> Result<Option<&'a str>, Fail> {
    for row in rows.lines() {
        if !row.is_empty() && !is_answered(schema, row)? {
            return Ok(Some(row));
        }
    }
    Ok(None)
}

fn wrong_row(alloc: Global, name: &str, rows: &'static str) -> Result<Option<&'static str>, Fail> {
    let schema = sample(alloc, name)?;
    first_wrong(&schema, rows)
}

#[test]
fn paths(rt: HostRuntime) -> Result<(), Fail> {
    let wrong = wrong_row(rt.alloc(), "T", PATHS)?;
    assert!(rt; wrong.is_none(), "{wrong:?}");
    Ok(())
}

#[test]
fn last_record_counts(rt: HostRuntime) -> Result<(), Fail> {
    let wrong = wrong_row(rt.alloc(), "T", LAST)?;
    assert!(rt; wrong.is_none(), "{wrong:?}");
    Ok(())
}

#[test]
fn nested_messages(rt: HostRuntime) -> Result<(), Fail> {
    let wrong = wrong_row(rt.alloc(), "T", NESTED)?;
    assert!(rt; wrong.is_none(), "{wrong:?}");
    Ok(())
}

#[test]
fn oneofs(rt: HostRuntime) -> Result<(), Fail> {
    let wrong = wrong_row(rt.alloc(), "T", ONEOFS)?;
    assert!(rt; wrong.is_none(), "{wrong:?}");
    Ok(())
}

#[test]
fn faults(rt: HostRuntime) -> Result<(), Fail> {
    let wrong = wrong_row(rt.alloc(), "T", FAULTS)?;
    assert!(rt; wrong.is_none(), "{wrong:?}");
    Ok(())
}

#[test]
fn kinds(rt: HostRuntime) -> Result<(), Fail> {
    let wrong = wrong_row(rt.alloc(), "F", KINDS)?;
    assert!(rt; wrong.is_none(), "{wrong:?}");
    Ok(())
}

#[test]
fn closed_enums(rt: HostRuntime) -> Result<(), Fail> {
    let wrong = wrong_row(rt.alloc(), "Q", CLOSED)?;
    assert!(rt; wrong.is_none(), "{wrong:?}");
    Ok(())
}

#[test]
fn groups(rt: HostRuntime) -> Result<(), Fail> {
    let wrong = wrong_row(rt.alloc(), "Q", GROUPS)?;
    assert!(rt; wrong.is_none(), "{wrong:?}");
    Ok(())
}

/// Whether bytes that are too many are refused, and a message that is too deep.
fn keeps_limits(schema: &Schema) -> Result<bool, Fail> {
    let few = Limits::new(2, 100).ok_or("no limits")?;
    let flat = Limits::new(100, 0).ok_or("no limits")?;
    let many = answer_text(schema.alloc, schema.find(b"\x08\x96\x01", few, &[1]))?;
    let deep = answer_text(schema.alloc, schema.find(b"\x08\x05\x1a\x00", flat, &[1]))?;
    Ok(many.as_str() == "! 2 - InputTooLarge" && deep.as_str() == "! 2 3[0] TooDeep")
}

#[test]
fn limits(rt: HostRuntime) -> Result<(), Fail> {
    let schema = sample(rt.alloc(), "T")?;
    assert!(rt; keeps_limits(&schema)?);
    Ok(())
}
