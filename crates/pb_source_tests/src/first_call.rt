//! The example in the crate comment of `pb_source`.

use pb_source::parse;
use std::alloc::Global;
use std::test::Fail;

/// How many messages a source declares, or where it fails and why.
fn outcome(alloc: Global, source: &str) -> Result<String, Fail> {
    match parse(alloc, "m.proto", source.as_bytes()) {
        Ok(file) => Ok(format!(in alloc; "{} messages", file.messages.len())?),
        Err(fault) => Ok(format!(in alloc; "{} at byte {}", fault.cause, fault.byte)?),
    }
}

#[test]
fn first_call(rt: HostRuntime) -> Result<(), Fail> {
    let good = outcome(
        rt.alloc(),
        "syntax = \"proto3\"; message M { int32 a = 1; }",
    )?;
    let bad = outcome(
        rt.alloc(),
        "syntax = \"proto3\"; message M { required int32 a = 1; }",
    )?;
    assert!(rt; good.as_str() == "1 messages" && bad.as_str() == "Unexpected at byte 31");
    Ok(())
}
