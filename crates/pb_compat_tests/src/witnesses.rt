//! Each kind in each shape that a field can have, read as each other one: a difference breaks reading where libprotobuf reads otherwise, and then
//! an encoding of the old type shows it.

use super::built::is_built;
use super::fields::{compare_first, pool_of, word};
use super::readings::reads_same;
use super::table::TABLE;
use pb_compat::{ComparedTypes, Severity};
use pb_schema::Pool;
use std::alloc::Global;
use std::test::Fail;

/// The numbers of the enum: -1 is of the open enum alone, whose values are all numbers.
const NUMBERS: &str = "0,1,5";

#[derive(Drop)]
struct Row {
    pool: Pool,
    answers: &'static str,
    encodings: &'static str,
}

fn row_of(alloc: Global, line: &'static str) -> Result<Row, Fail> {
    let (kind, rest) = word(line);
    let (shape, rest) = word(rest);
    let (answers, encodings) = word(rest);
    let field = format!(in alloc; "f 1 {kind} {shape}")?;
    Ok(Row {
        pool: pool_of(alloc, field.as_str(), NUMBERS)?,
        answers,
        encodings,
    })
}

fn rows(alloc: Global) -> Result<Vec<Row>, Fail> {
    let mut rows = Vec::new(alloc);
    for line in TABLE.lines() {
        if !line.is_empty() {
            rows.push(row_of(alloc, line)?)?;
        }
    }
    Ok(rows)
}

/// Whether field 1 of the first of the types breaks.
pub(crate) fn has_break(compared: &[ComparedTypes]) -> bool {
    let Some(types) = compared.first() else {
        return false;
    };
    for difference in &types.differences {
        if difference.number == 1 && difference.severity == Severity::BreaksReading {
            return true;
        }
    }
    false
}

/// Whether the comparison reports that field 1 of the first message breaks.
fn breaks(alloc: Global, old: &Pool, new: &Pool) -> Result<bool, Fail> {
    let compared = compare_first(alloc, old, new)?;
    Ok(has_break(&compared))
}

/// Whether each encoding is read as the same.
fn keeps(alloc: Global, old: &Row, new: &Row) -> Result<bool, Fail> {
    for encoding in old.encodings.split(',') {
        let encoding = if encoding == "-" { "" } else { encoding };
        let bytes = hex::decode(alloc, encoding)?;
        if !reads_same(alloc, &old.pool, &new.pool, &bytes, 1)? {
            return Ok(false);
        }
    }
    Ok(true)
}

/// Whether a pair is answered as libprotobuf does, by the comparison, by the codec, and by a message that is built where the field breaks.
fn is_right(alloc: Global, old: &Row, new: &Row, kept: bool) -> Result<bool, Fail> {
    Ok(
        breaks(alloc, &old.pool, &new.pool)? != kept
            && keeps(alloc, old, new)? == kept
            && is_built(alloc, &old.pool, &new.pool)? != kept,
    )
}

/// The first new field that a row answers otherwise.
fn wrong_in(alloc: Global, rows: &[Row], old: &Row) -> Result<Option<usize>, Fail> {
    for (index, answer) in old.answers.bytes().enumerate() {
        let Some(new) = rows.get(index) else {
            return Ok(Some(index));
        };
        if !is_right(alloc, old, new, answer == b'=')? {
            return Ok(Some(index));
        }
    }
    Ok(None)
}

/// The first pair that is answered otherwise.
fn wrong_among(alloc: Global, rows: &[Row]) -> Result<Option<(usize, usize)>, Fail> {
    for (index, old) in rows.iter().enumerate() {
        if let Some(new) = wrong_in(alloc, rows, old)? {
            return Ok(Some((index, new)));
        }
    }
    Ok(None)
}

fn wrong_pair(alloc: Global) -> Result<Option<(usize, usize)>, Fail> {
    let rows = rows(alloc)?;
    wrong_among(alloc, &rows)
}

#[test]
fn each_pair(rt: HostRuntime) -> Result<(), Fail> {
    let wrong = wrong_pair(rt.alloc())?;
    assert!(rt; wrong.is_none(), "{wrong:?}");
    Ok(())
}
