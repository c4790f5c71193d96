//! Gives an order another date: reads a descriptor set, decodes a message by a type of it, sets a field, and writes the message's
//! canonical bytes. Prints the date before and after, and the bytes in hexadecimal.
//!
//! A program names the crates that it uses on a line of crates.txt. This one's is `example_edit: mabristu anyhow hex`.
#![tactic(auto)]

ghost use Rattle.std.specs.Prelude.{◌≡◌, OnErr, OnOk};
ghost use Rattle.example_edit.specs.Dated.{dated};

use anyhow::{Context, Result};
use mabristu::{Content, DynamicMessage, Limits, Pool, Value, decode, encode, link, read_set};
use std::alloc::Global;
use std::fs;

/// The number of the field `placed_on` of shop.Order.
const PLACED_ON: u32 = 2;

fn main(rt: HostRuntime) -> Result<()> {
    // Each call that allocates takes the allocator, and returns an error if memory runs out.
    let alloc = rt.alloc();
    let set = fs::read(&rt, "shop.set").context("shop.set")?;
    let bytes = fs::read(&rt, "shop_order.bin").context("shop_order.bin")?;
    // The pool owns the types, and messages borrow it: `main` keeps it and lends it to `change`.
    let pool = read_pool(alloc, &set)?;
    let changed = change(&rt, alloc, &pool, &bytes)?;
    fs::write(&rt, "changed_order.bin", changed.as_slice())?;
    println!(rt; "{}", hex::encode(alloc, changed.as_slice())?)?;
    Ok(())
}

/// The types of a descriptor set, as `protoc --descriptor_set_out` or `pbtool compile` writes one.
fn read_pool(alloc: Global, set: &[u8]) -> Result<Pool> {
    let files = read_set(alloc, set)?;
    let pool = link(alloc, &files)?;
    Ok(pool)
}

/// The canonical bytes of an order with another date.
fn change(rt: &impl Print, alloc: Global, pool: &Pool, bytes: &[u8]) -> Result<Vec<u8>> {
    let message_type = pool
        .message_by_name("shop.Order")
        .context("the set has no type shop.Order")?;
    let mut order = decode(alloc, pool, message_type, bytes, Limits::FULL)?;
    let before = placed_on(&order);
    println!(rt; "placed_on was {before}")?;
    place_on(alloc, &mut order, "2024-05-18")?;
    let after = placed_on(&order);
    println!(rt; "placed_on is {after}")?;
    let changed = encode(&order)?;
    Ok(changed)
}

/// Sets the date of an order.
fn place_on(alloc: Global, order: &mut DynamicMessage<'_>, date: &str) -> Result<()>
    ensures dated { OnOk result (order.new ≡ dated date.now order.old) }
    ensures kept { OnErr result (order.new ≡ order.old) }
{
    let date = String::from_str(alloc, date)?;
    order.set(PLACED_ON, Content::One(Value::Text(date)))?;
    Ok(())
}

/// The date of an order. A field that is not there has its default.
fn placed_on<'a>(order: &'a DynamicMessage<'_>) -> &'a str {
    match order.get(PLACED_ON) {
        Some(Content::One(Value::Text(date))) => date.as_str(),
        _ => "",
    }
}
