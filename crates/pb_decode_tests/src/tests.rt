//! The tests: each reads its rows, in a pool of the sample's types.

use super::devices::{is_framed, is_read};
use super::hostile::{
    are_alive, are_falling, are_fronts, are_nested, is_refused_in_time, is_repeated,
};
use super::messages::{is_merged, is_put_onto};
use super::pieces::is_pushed;
use super::rows::{
    ALIVE, ALLOCATIONS, CLOSED, CLOSED_ALLOCATIONS, CLOSED_RUNS, DEEP, FALLING, FLAT, FRAMES,
    FRONTS, GROUP_ALLOCATIONS, GROUPS, LISTS, MANY_RECORDS, MAPS, MAPS_IN_GROUPS, MAPS_IN_MAPS,
    MERGES, NESTED, ONE_RECORD, ONTO, PIECES, RECORDS, RUNS, WORKED,
};
use super::sample::{Schema, sample};
use super::words::{limits_of, word};
use super::worked::{is_decoded, is_grown};
use pb_wire::Limits;
use std::alloc::Global;
use std::test::Fail;

/// Whether a row is answered as it says.
fn is_expected(schema: &Schema, row: &str) -> Result<bool, Fail> {
    let (verb, words) = word(row);
    let (_, words) = word(words);
    let (length, words) = word(words);
    let (depth, words) = word(words);
    let limits = limits_of(length, depth)?;
    match verb {
        "decode" => { Ok(is_decoded(schema, limits, words)? && is_read(schema, limits, words)?) }
        "onto" => is_put_onto(schema, limits, words),
        "merge" => is_merged(schema, words),
        "push" => is_pushed(schema, limits, words),
        "frame" => is_framed(schema, limits, words),
        "grow" => is_grown(schema, limits, words),
        "repeat" => is_repeated(schema, limits, words),
        "fronts" => are_fronts(schema, limits, words),
        "falling" => are_falling(schema, limits, words),
        "alive" => are_alive(schema, limits, words),
        "nest" => are_nested(schema, limits, words),
        _ => Err(Fail::new("no verb")),
    }
}

/// The first row that is answered otherwise, or none.
fn first_wrong<'a>(schema: &Schema, rows: &'a str) -> Result<Option<&'a str>, Fail> {
    for row in rows.lines() {
        if !row.is_empty() && !is_expected(schema, row)? {
            return Ok(Some(row));
        }
    }
    Ok(None)
}

fn wrong_row(alloc: Global, name: &str, rows: &'static str) -> Result<Option<&'static str>, Fail> {
    let schema = sample(alloc, name)?;
    first_wrong(&schema, rows)
}

#[test]
fn worked_rows(rt: HostRuntime) -> Result<(), Fail> {
    let wrong = wrong_row(rt.alloc(), "T", WORKED)?;
    assert!(rt; wrong.is_none(), "{wrong:?}");
    Ok(())
}

#[test]
fn flat_rows(rt: HostRuntime) -> Result<(), Fail> {
    let wrong = wrong_row(rt.alloc(), "F", FLAT)?;
    assert!(rt; wrong.is_none(), "{wrong:?}");
    Ok(())
}

#[test]
fn closed_enums(rt: HostRuntime) -> Result<(), Fail> {
    let wrong = wrong_row(rt.alloc(), "Q", CLOSED)?;
    assert!(rt; wrong.is_none(), "{wrong:?}");
    Ok(())
}

#[test]
fn groups(rt: HostRuntime) -> Result<(), Fail> {
    let wrong = wrong_row(rt.alloc(), "R", GROUPS)?;
    assert!(rt; wrong.is_none(), "{wrong:?}");
    Ok(())
}

#[test]
fn groups_in_groups(rt: HostRuntime) -> Result<(), Fail> {
    let wrong = wrong_row(rt.alloc(), "R", NESTED)?;
    assert!(rt; wrong.is_none(), "{wrong:?}");
    Ok(())
}

#[test]
fn records_and_groups(rt: HostRuntime) -> Result<(), Fail> {
    let wrong = wrong_row(rt.alloc(), "N", RECORDS)?;
    assert!(rt; wrong.is_none(), "{wrong:?}");
    Ok(())
}

#[test]
fn runs(rt: HostRuntime) -> Result<(), Fail> {
    let wrong = wrong_row(rt.alloc(), "T", RUNS)?;
    assert!(rt; wrong.is_none(), "{wrong:?}");
    Ok(())
}

#[test]
fn runs_of_closed_enums(rt: HostRuntime) -> Result<(), Fail> {
    let wrong = wrong_row(rt.alloc(), "R", CLOSED_RUNS)?;
    assert!(rt; wrong.is_none(), "{wrong:?}");
    Ok(())
}

#[test]
fn messages_in_lists(rt: HostRuntime) -> Result<(), Fail> {
    let wrong = wrong_row(rt.alloc(), "S", LISTS)?;
    assert!(rt; wrong.is_none(), "{wrong:?}");
    Ok(())
}

#[test]
fn runs_of_entries(rt: HostRuntime) -> Result<(), Fail> {
    let wrong = wrong_row(rt.alloc(), "T", MAPS)?;
    assert!(rt; wrong.is_none(), "{wrong:?}");
    Ok(())
}

#[test]
fn runs_of_entries_in_groups(rt: HostRuntime) -> Result<(), Fail> {
    let wrong = wrong_row(rt.alloc(), "R", MAPS_IN_GROUPS)?;
    assert!(rt; wrong.is_none(), "{wrong:?}");
    Ok(())
}

#[test]
fn maps_in_maps(rt: HostRuntime) -> Result<(), Fail> {
    let wrong = wrong_row(rt.alloc(), "T", MAPS_IN_MAPS)?;
    assert!(rt; wrong.is_none(), "{wrong:?}");
    Ok(())
}

#[test]
fn onto(rt: HostRuntime) -> Result<(), Fail> {
    let wrong = wrong_row(rt.alloc(), "T", ONTO)?;
    assert!(rt; wrong.is_none(), "{wrong:?}");
    Ok(())
}

#[test]
fn merges(rt: HostRuntime) -> Result<(), Fail> {
    let wrong = wrong_row(rt.alloc(), "T", MERGES)?;
    assert!(rt; wrong.is_none(), "{wrong:?}");
    Ok(())
}

#[test]
fn pieces(rt: HostRuntime) -> Result<(), Fail> {
    let wrong = wrong_row(rt.alloc(), "T", PIECES)?;
    assert!(rt; wrong.is_none(), "{wrong:?}");
    Ok(())
}

#[test]
fn frames(rt: HostRuntime) -> Result<(), Fail> {
    let wrong = wrong_row(rt.alloc(), "T", FRAMES)?;
    assert!(rt; wrong.is_none(), "{wrong:?}");
    Ok(())
}

#[test]
fn fronts(rt: HostRuntime) -> Result<(), Fail> {
    let wrong = wrong_row(rt.alloc(), "T", FRONTS)?;
    assert!(rt; wrong.is_none(), "{wrong:?}");
    Ok(())
}

#[test]
fn deep_groups(rt: HostRuntime) -> Result<(), Fail> {
    let wrong = wrong_row(rt.alloc(), "T", DEEP)?;
    assert!(rt; wrong.is_none(), "{wrong:?}");
    Ok(())
}

#[test]
fn falling_numbers(rt: HostRuntime) -> Result<(), Fail> {
    let wrong = wrong_row(rt.alloc(), "T", FALLING)?;
    assert!(rt; wrong.is_none(), "{wrong:?}");
    Ok(())
}

#[test]
fn many_decoders(rt: HostRuntime) -> Result<(), Fail> {
    let wrong = wrong_row(rt.alloc(), "T", ALIVE)?;
    assert!(rt; wrong.is_none(), "{wrong:?}");
    Ok(())
}

/// Each answer is that of ample memory or Memory where an allocation is refused, which `.ci/allocations` does.
#[test]
fn refused_allocations(rt: HostRuntime) -> Result<(), Fail> {
    let wrong = wrong_row(rt.alloc(), "T", ALLOCATIONS)?;
    assert!(rt; wrong.is_none(), "{wrong:?}");
    Ok(())
}

/// The same.
#[test]
fn refused_allocations_of_closed_enums(rt: HostRuntime) -> Result<(), Fail> {
    let wrong = wrong_row(rt.alloc(), "Q", CLOSED_ALLOCATIONS)?;
    assert!(rt; wrong.is_none(), "{wrong:?}");
    Ok(())
}

/// The same.
#[test]
fn refused_allocations_of_groups(rt: HostRuntime) -> Result<(), Fail> {
    let wrong = wrong_row(rt.alloc(), "R", GROUP_ALLOCATIONS)?;
    assert!(rt; wrong.is_none(), "{wrong:?}");
    Ok(())
}

/// Takes as many allocations as `one_record`.
#[test]
fn many_records(rt: HostRuntime) -> Result<(), Fail> {
    let wrong = wrong_row(rt.alloc(), "T", MANY_RECORDS)?;
    assert!(rt; wrong.is_none(), "{wrong:?}");
    Ok(())
}

#[test]
fn one_record(rt: HostRuntime) -> Result<(), Fail> {
    let wrong = wrong_row(rt.alloc(), "T", ONE_RECORD)?;
    assert!(rt; wrong.is_none(), "{wrong:?}");
    Ok(())
}

/// The time limit of a test is what fails where bytes are read again.
#[test]
fn refused_in_time(rt: HostRuntime) -> Result<(), Fail> {
    let schema = sample(rt.alloc(), "T")?;
    assert!(rt; is_refused_in_time(&schema, Limits::FULL, "92 200000")?);
    Ok(())
}
