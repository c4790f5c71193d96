//! Messages that are declared in each other, as deep as a set may nest and deeper.

use super::faults::is_fault;
use pb_descr::{DescrError, FileDecl, MessageDecl, WriteSetError, read_set, write_set};
use pb_wire::Cause;
use std::alloc::{AllocError, Global};
use std::test::Fail;

fn message(alloc: Global, messages: Vec<MessageDecl>) -> Result<MessageDecl, AllocError> {
    Ok(MessageDecl {
        name: String::from_str(alloc, "M")?,
        fields: Vec::new(alloc),
        messages,
        enums: Vec::new(alloc),
        oneofs: Vec::new(alloc),
        reserved: Vec::new(alloc),
        reserved_names: Vec::new(alloc),
        map_entry: false,
    })
}

/// A file of `depth` messages, each in the one before.
fn nested(alloc: Global, depth: usize) -> Result<Vec<FileDecl>, AllocError> {
    let mut messages = Vec::new(alloc);
    for _ in 0..depth {
        let inner = message(alloc, messages)?;
        messages = vec![in alloc; inner]?;
    }
    let file = FileDecl {
        name: String::from_str(alloc, "m")?,
        package: String::new(alloc),
        imports: Vec::new(alloc),
        public: Vec::new(alloc),
        messages,
        enums: Vec::new(alloc),
        services: Vec::new(alloc),
        proto2: false,
    };
    Ok(vec![in alloc; file]?)
}

/// The set is level 0 and the file level 1, so 99 messages are the most.
#[test]
fn deepest(rt: HostRuntime) -> Result<(), Fail> {
    let deepest = nested(rt.alloc(), 99)?;
    let bytes = write_set(rt.alloc(), &deepest)?;
    assert!(rt; read_set(rt.alloc(), &bytes)? == deepest);
    let deeper = write_set(rt.alloc(), &nested(rt.alloc(), 100)?);
    assert!(rt; matches!(deeper, Err(WriteSetError::TooDeep)));
    let far_deeper = write_set(rt.alloc(), &nested(rt.alloc(), 1000)?);
    assert!(rt; matches!(far_deeper, Err(WriteSetError::TooDeep)));
    Ok(())
}

/// The bytes of `depth` messages in each other, each with no name: lengths from the innermost outwards.
fn nested_bytes(alloc: Global, depth: usize) -> Result<Vec<u8>, Fail> {
    let mut bytes = Vec::new(alloc);
    for level in 0..depth {
        let number = if level + 1 == depth { 4 } else { 3 };
        bytes = wrapped(alloc, number, &bytes)?;
    }
    wrapped(alloc, 1, &bytes)
}

/// A record of bytes, whose length takes two bytes.
fn wrapped(alloc: Global, number: u8, bytes: &[u8]) -> Result<Vec<u8>, Fail> {
    let mut record = Vec::new(alloc);
    let tag = number
        .checked_mul(8)
        .ok_or("tag")?
        .checked_add(2)
        .ok_or("tag")?;
    record.push(tag)?;
    record.push((bytes.len() % 128) as u8 | 0x80)?;
    record.push((bytes.len() / 128 % 128) as u8)?;
    record.extend_from_slice(bytes)?;
    Ok(record)
}

#[test]
fn too_deep(rt: HostRuntime) -> Result<(), Fail> {
    // A message's tag and length take three bytes, and those of the file come before them.
    let bytes = nested_bytes(rt.alloc(), 100)?;
    let told = match read_set(rt.alloc(), &bytes) {
        Ok(_files) => false,
        Err(error) => is_fault(&error, 3 + 3 * 99, 101, Cause::TooDeep),
    };
    assert!(rt; told);
    let bytes = nested_bytes(rt.alloc(), 99)?;
    let nameless = matches!(
        read_set(rt.alloc(), &bytes),
        Err(DescrError::Decl { file: 0, .. })
    );
    assert!(rt; nameless);
    Ok(())
}
