//! The tests of rows, on messages of the type of a sample.

use super::schema::{Schema, sample};
use std::alloc::Global;
use std::test::Fail;

/// The first row that does not hold.
fn wrong_asking(alloc: Global) -> Result<Option<&'static str>, Fail> {
    let schema: Schema = sample(alloc)?;
    for table in super::asking::TABLES {
        for row in table.lines() {
            if !row.is_empty() && !super::asking::is_right(alloc, &schema, row)? {
                return Ok(Some(row));
            }
        }
    }
    Ok(None)
}

#[test]
fn asking(rt: HostRuntime) -> Result<(), Fail> {
    let wrong = wrong_asking(rt.alloc())?;
    assert!(rt; wrong.is_none(), "{wrong:?}");
    Ok(())
}

/// The first row that does not hold.
fn wrong_changing(alloc: Global) -> Result<Option<&'static str>, Fail> {
    let schema: Schema = sample(alloc)?;
    for table in super::changing::TABLES {
        for row in table.lines() {
            if !row.is_empty() && !super::changing::is_right(alloc, &schema, row)? {
                return Ok(Some(row));
            }
        }
    }
    Ok(None)
}

#[test]
fn changing(rt: HostRuntime) -> Result<(), Fail> {
    let wrong = wrong_changing(rt.alloc())?;
    assert!(rt; wrong.is_none(), "{wrong:?}");
    Ok(())
}

/// The first row that does not hold.
fn wrong_holding(alloc: Global) -> Result<Option<&'static str>, Fail> {
    let schema: Schema = sample(alloc)?;
    for table in &[super::holding::ROWS] {
        for row in table.lines() {
            if !row.is_empty() && !super::holding::is_right(alloc, &schema, row)? {
                return Ok(Some(row));
            }
        }
    }
    Ok(None)
}

#[test]
fn holding(rt: HostRuntime) -> Result<(), Fail> {
    let wrong = wrong_holding(rt.alloc())?;
    assert!(rt; wrong.is_none(), "{wrong:?}");
    Ok(())
}

/// The first row that does not hold.
fn wrong_paths(alloc: Global) -> Result<Option<&'static str>, Fail> {
    let schema: Schema = sample(alloc)?;
    for table in &[super::paths::ROWS] {
        for row in table.lines() {
            if !row.is_empty() && !super::paths::is_right(alloc, &schema, row)? {
                return Ok(Some(row));
            }
        }
    }
    Ok(None)
}

#[test]
fn paths(rt: HostRuntime) -> Result<(), Fail> {
    let wrong = wrong_paths(rt.alloc())?;
    assert!(rt; wrong.is_none(), "{wrong:?}");
    Ok(())
}
