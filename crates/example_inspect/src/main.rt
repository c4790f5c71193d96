//! Reads orders from standard input, each after its length, and reports of each whether it is one, or else where it fails: the byte
//! of the message, the path of records that leads there, and the cause. After a message that is refused the next one is read.
//!
//! In crates.txt: `example_inspect: mabristu anyhow`.
#![tactic(auto)]

ghost use Rattle.std.specs.Prelude.{◌<◌, ◌^◌, IfOk, IfSome};

use anyhow::{Context, Result, ensure};
use mabristu::{DecodeError, Limits, Pool, ReadInput, decode_frame, link, read_set, read_varint};
use std::alloc::Global;
use std::io::{BufReader, Read};
use std::{fs, io};

fn main(rt: HostRuntime) -> Result<()> {
    let alloc = rt.alloc();
    let set = fs::read(&rt, "shop.set").context("shop.set")?;
    let files = read_set(alloc, &set)?;
    let pool = link(alloc, &files)?;
    let mut input = BufReader::new(alloc, rt.reader())?;
    inspect(&rt, alloc, &pool, &mut input)
}

/// Reports of each message of an input what it is. What was not read of one that is refused is passed over.
fn inspect<R: Read>(rt: &impl Print, alloc: Global, pool: &Pool, input: &mut R) -> Result<()> {
    let message_type = pool
        .message_by_name("shop.Order")
        .context("the set has no type shop.Order")?;
    for index in 0..u64::MAX {
        let Some(length) = read_length(alloc, input)? else {
            break;
        };
        let mut frame = ReadInput::new(input.by_ref().take(u64::from(length)));
        let read = decode_frame(
            alloc,
            pool,
            message_type,
            &mut frame,
            0,
            length,
            Limits::FULL,
        );
        report(rt, index, read.err())?;
        io::copy(&mut frame.into_inner(), &mut io::sink())?;
    }
    Ok(())
}

/// The length before a message, and none where the input ends.
fn read_length(alloc: Global, input: &mut impl Read) -> Result<Option<u32>>
    ensures limit { IfOk result (λ o. IfSome o (λ length. length < 2 ^ 31)) }
{
    let mut varint = Vec::new(alloc);
    for byte in input.bytes().take(10) {
        varint.push(byte?)?;
        if varint.last().is_some_and(|last| *last < 0x80) {
            break;
        }
    }
    if varint.is_empty() {
        return Ok(None);
    }
    let (length, _) = read_varint(&varint)?;
    ensure!(length < 1 << 31, "a length of {length} bytes");
    Ok(Some(length as u32))
}

/// Prints where a message fails: the path is of records, each by its number and by how many of that number come before it.
fn report(rt: &impl Print, index: u64, fault: Option<DecodeError>) -> Result<()> {
    match fault {
        None => println!(rt; "{index}: an order")?,
        Some(DecodeError::Fault { byte, path, cause }) => {
            print!(rt; "{index}: {cause} at byte {byte}, path")?;
            for step in &path {
                print!(rt; " {step}")?;
            }
            println!(rt; "")?;
        }
        Some(error) => return Err(error.into()),
    }
    Ok(())
}
