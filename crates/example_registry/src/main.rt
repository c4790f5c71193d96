//! Checks a source against the descriptor set that a registry holds: messages of each type that it holds have to be read by the type of the
//! same name in the source, with each value kept. Prints each difference, and ends with status 1 where one breaks reading.
//! In crates.txt: `example_registry: mabristu anyhow`.
#![tactic(auto)]

use anyhow::{Context, Result};
use mabristu::{
    ComparedTypes, MessageId, Pool, Severity, compare_all, link, namesake, parse_lenient, read_set,
    without_enum_maps,
};
use std::alloc::Global;
use std::fs;
use std::process::ExitCode;

fn main(rt: HostRuntime) -> Result<ExitCode> {
    let alloc = rt.alloc();
    let set = fs::read(&rt, "shop.set").context("shop.set")?;
    let source = fs::read(&rt, "shop.proto").context("shop.proto")?;
    let held = link(alloc, &read_set(alloc, &set)?)?;
    let file = parse_lenient(alloc, "shop.proto", &source)?;
    // With the types of all fields resolved, as a registry would keep it by `write_set`; maps of enums in sources of proto2 are lists.
    let new = link(alloc, &without_enum_maps(alloc, &[file])?)?;
    let found = check_names(&rt, &held, &new)?;
    let read = check_all(&rt, alloc, &held, &new)?;
    Ok(if found && read {
        ExitCode::SUCCESS
    } else {
        ExitCode::FAILURE
    })
}

/// Whether the new pool has all message types by their names. Prints each that it lacks.
fn check_names(rt: &impl Print, held: &Pool, new: &Pool) -> Result<bool> {
    let mut found = true;
    for index in 0..held.messages().len() {
        let message = MessageId(index);
        if namesake(held, message, new).is_none() {
            let name = str::from_utf8(held.message_name(message)).unwrap_or(""); // it is ASCII
            println!(rt; "{name} breaks missing")?;
            found = false;
        }
    }
    Ok(found)
}

/// Whether messages of the types that both have keep their values, and of all types that these lead to.
fn check_all(rt: &impl Print, alloc: Global, held: &Pool, new: &Pool) -> Result<bool> {
    let mut kept = true;
    for types in &compare_all(alloc, held, new)? {
        kept = check(rt, types, held, new)? && kept;
    }
    Ok(kept)
}

/// The same of two types. Prints each difference.
fn check(rt: &impl Print, types: &ComparedTypes, held: &Pool, new: &Pool) -> Result<bool> {
    let mut kept = true;
    for difference in &types.differences {
        println!(rt; "{}", types.report(held, new, *difference))?;
        if difference.severity == Severity::BreaksReading {
            kept = false;
        }
    }
    Ok(kept)
}
