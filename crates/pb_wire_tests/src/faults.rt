//! What `read_raw` and `judge_raw` report of bytes: byte, path and cause. Expected values are those of the encoding guide's rules, worked
//! out by hand.

use super::rows::{bytes_of, limits_of};
use pb_wire::{Cause, Limits, PathStep, RawError, judge_raw, read_raw};
use std::alloc::Global;
use std::test::Fail;

/// A row: bytes, the greatest length and depth, and the answer: `read`, or the byte, the path and the cause.
const ROWS: &str = "
- - - read
0c - - 0 - StrayEnd
00 - - 0 - NumberZero
07 - - 0 - NumberZero
0f - - 0 - BadType
8080808010 - - 0 - TagTooLarge
808080801000 - - 0 - TagTooLarge
08ffffffffffffffffffff - - 1 1[0] VarintTooLong
08ffffffffffffffffff7f - - read
12ffffffff0f - - 1 2[0] LengthTooLarge
12ffffffff07 - - 6 2[0] Truncated
0896 - - 2 1[0] Truncated
80 - - 1 - Truncated
120541 - - 3 2[0] Truncated
0d010203 - - 4 1[0] Truncated
09010203 - - 4 1[0] Truncated
a301 - - 2 20[0] Truncated
a3010801ac01 - - 4 20[0] WrongEnd
0b130c - - 2 1[0].2[0] WrongEnd
0b0c0c - - 2 - StrayEnd
0b - - 1 1[0] Truncated
0b13 - 1 1 1[0].2[0] TooDeep
0b0c - 0 0 1[0] TooDeep
0b0c - 1 read
089601 2 100 2 - InputTooLarge
0896 2 100 2 1[0] Truncated
0f0000 2 100 0 - BadType
080508 2 100 2 - InputTooLarge
08 0 100 0 - InputTooLarge
- 0 0 read
0805 1 100 1 - InputTooLarge
0801a30108010802ac01 - - 8 20[0] WrongEnd
080110010896 - - 6 1[1] Truncated
08010d000000000b0c0896 - - 11 1[3] Truncated
0b08010c0b100108011096 - - 11 1[1].2[1] Truncated
0a000b1314130c - - 6 1[1].2[1] WrongEnd
0b0c0b13140c - 1 3 1[1].2[0] TooDeep
";

/// The step that is written `N[I]`.
fn step_of(text: &str) -> Result<PathStep, Fail> {
    let (number, rest) = text.split_once('[').ok_or("a step")?;
    let occurrence = rest.strip_suffix(']').ok_or("a step's end")?;
    Ok(PathStep {
        number: number.parse::<u32>()?,
        occurrence: occurrence.parse::<u32>()?,
    })
}

/// Whether the path is these steps, joined by dots. `-` means none.
fn is_path(path: &[PathStep], steps: &str) -> Result<bool, Fail> {
    if steps == "-" {
        return Ok(path.is_empty());
    }
    let mut told = path.iter();
    for step in steps.split('.') {
        let step = step_of(step)?;
        if told.next() != Some(&step) {
            return Ok(false);
        }
    }
    Ok(told.next().is_none())
}

/// Whether the error is the fault of these words: byte, path and cause.
fn is_fault(error: &RawError, told: &str, steps: &str, name: &str) -> Result<bool, Fail> {
    match error {
        RawError::Memory => Err(Fail::new("no memory")),
        RawError::Fault { byte, path, cause } => {
            let is_there = told.parse::<u64>()? == *byte;
            let is_inside = is_path(path.as_slice(), steps)?;
            Ok(is_there && is_inside && cause.name() == name)
        }
    }
}

/// Both calls report the same, and it is what the row says.
fn is_told(alloc: Global, row: &str) -> Result<bool, Fail> {
    let mut words = row.split_whitespace();
    let bytes = bytes_of(alloc, words.next().unwrap_or(""))?;
    let length = words.next().unwrap_or("");
    let limits = limits_of(length, words.next().unwrap_or(""))?;
    let told = words.next().unwrap_or("");
    let steps = words.next().unwrap_or("");
    let name = words.next().unwrap_or("");
    let is_read = match read_raw(alloc, bytes.as_slice(), limits) {
        Ok(_) => told == "read",
        Err(error) => is_fault(&error, told, steps, name)?,
    };
    let is_judged = match judge_raw(alloc, bytes.as_slice(), limits) {
        Ok(()) => told == "read",
        Err(error) => is_fault(&error, told, steps, name)?,
    };
    Ok(is_read && is_judged)
}

#[test]
fn faults(rt: HostRuntime) -> Result<(), Fail> {
    for row in ROWS.lines() {
        assert!(rt; row.is_empty() || is_told(rt.alloc(), row)?, "{row}");
    }
    Ok(())
}

fn is_too_deep(error: &RawError) -> bool {
    match error {
        RawError::Fault { byte, path, cause } => {
            *byte == 100
                && *cause == Cause::TooDeep
                && path.len() == 101
                && path
                    .iter()
                    .all(|step| step.number == 1 && step.occurrence == 0)
        }
        RawError::Memory => false,
    }
}

/// A hundred groups in one another are read, and one more is too deep.
#[test]
fn nests(rt: HostRuntime) -> Result<(), Fail> {
    let mut deepest = vec![in rt.alloc(); 0x0b; 100]?;
    for _ in 0..100 {
        deepest.push(0x0c)?;
    }
    let deeper = read_raw(rt.alloc(), &[0x0b; 101], Limits::FULL)
        .err()
        .ok_or("101 groups")?;
    assert!(rt; read_raw(rt.alloc(), &deepest, Limits::FULL).is_ok() && is_too_deep(&deeper));
    Ok(())
}
