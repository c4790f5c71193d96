//! The example in the crate comment of `pb_schema`.

use pb_schema::{Field, FileInfo, Kind, MessageId, MessageType, Pool, Shape};
use std::alloc::{AllocError, Global};
use std::test::Fail;

/// message M { int32 a = 1; }
fn message(alloc: Global) -> Result<MessageType, AllocError> {
    let a = Field {
        name: String::from_str(alloc, "a")?,
        number: 1,
        kind: Kind::Int32,
        shape: Shape::Implicit,
    };
    Ok(MessageType {
        name: String::from_str(alloc, "M")?,
        file: 0,
        parent: None,
        fields: vec![in alloc; a]?,
        oneofs: Vec::new(alloc),
    })
}

#[test]
fn first_call(rt: HostRuntime) -> Result<(), Fail> {
    let alloc = rt.alloc();
    let files = vec![in alloc; file(alloc)?]?;
    let messages = vec![in alloc; message(alloc)?]?;
    let pool = Pool::from_parts(alloc, files, messages, Vec::new(alloc))?; // or that they break a rule
    assert!(rt; pool.message_by_name("M") == Some(MessageId(0)));
    Ok(())
}

fn file(alloc: Global) -> Result<FileInfo, AllocError> {
    Ok(FileInfo {
        name: String::from_str(alloc, "m.proto")?,
        package: String::new(alloc),
        imports: Vec::new(alloc),
        proto2: false,
    })
}
