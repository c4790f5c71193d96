//! Pools of many parts.

use super::pools::{has_each_of, has_name, has_one_of};
use pb_schema::{Field, FileInfo, Kind, MessageId, MessageType, Pool, PoolError, Shape};
use std::alloc::{AllocError, Global};
use std::test::Fail;

fn message_of(
    alloc: Global,
    name: &str,
    file: usize,
    fields: Vec<Field>,
) -> Result<MessageType, AllocError> {
    Ok(MessageType {
        name: String::from_str(alloc, name)?,
        file,
        parent: None,
        fields,
        oneofs: Vec::new(alloc),
    })
}

/// Many files, each of which imports the one before.
fn chain(alloc: Global, count: usize) -> Result<Vec<FileInfo>, PoolError> {
    let mut files = Vec::new(alloc);
    for index in 0..count {
        let name = format!(in alloc; "f{index}.proto")?;
        let mut imports = Vec::new(alloc);
        if let Some(before) = index.checked_sub(1) {
            imports.push(before)?;
        }
        files.push(FileInfo {
            name,
            package: String::new(alloc),
            imports,
            proto2: false,
        })?;
    }
    Ok(files)
}

/// A message of the first file, and in the last of the files one that uses it.
fn ends(alloc: Global, count: usize) -> Result<Vec<MessageType>, PoolError> {
    let used = Field {
        name: String::from_str(alloc, "first")?,
        number: 1,
        kind: Kind::Message(MessageId(0)),
        shape: Shape::Explicit,
    };
    let mut messages = Vec::new(alloc);
    messages.push(message_of(alloc, "First", 0, Vec::new(alloc))?)?;
    let last = count.saturating_sub(1);
    messages.push(message_of(alloc, "Last", last, vec![in alloc; used]?)?)?;
    Ok(messages)
}

#[test]
fn many_files(rt: HostRuntime) -> Result<(), Fail> {
    let alloc = rt.alloc();
    let files = chain(alloc, 2_000)?;
    let messages = ends(alloc, 2_000)?;
    let pool = Pool::from_parts(alloc, files, messages, Vec::new(alloc))?;
    assert!(rt; pool.files().len() == 2_000 && pool.message_by_name("Last") == Some(MessageId(1)));
    Ok(())
}

/// `count` fields, with the numbers from 1 on that a field may have.
fn many(alloc: Global, count: u32) -> Result<Vec<Field>, PoolError> {
    let mut fields = Vec::new(alloc);
    for index in 0..count {
        let number = index.saturating_add(if index < 18_999 { 1 } else { 1_001 });
        let name = format!(in alloc; "f{number}")?;
        fields.push(Field {
            name,
            number,
            kind: Kind::Bool,
            shape: Shape::Implicit,
        })?;
    }
    Ok(fields)
}

fn wide_pool(alloc: Global, count: u32) -> Result<Pool, PoolError> {
    let file = FileInfo {
        name: String::from_str(alloc, "wide.proto")?,
        package: String::from_str(alloc, "p")?,
        imports: Vec::new(alloc),
        proto2: false,
    };
    let files = vec![in alloc; file]?;
    let message = message_of(alloc, "Wide", 0, many(alloc, count)?)?;
    let messages = vec![in alloc; message]?;
    Ok(Pool::from_parts(alloc, files, messages, Vec::new(alloc))?)
}

const THERE: &[u32] = &[1, 2, 18_999, 20_000, 20_001, 21_000];

const NOT_THERE: &[u32] = &[0, 19_000, 19_999, 21_001];

#[test]
fn many_fields(rt: HostRuntime) -> Result<(), Fail> {
    let pool = wide_pool(rt.alloc(), 20_000)?;
    assert!(rt;
        has_each_of(&pool, "p.Wide", THERE)
            && !has_one_of(&pool, "p.Wide", NOT_THERE)
            && has_name(&pool, "p.Wide", "f1")
            && has_name(&pool, "p.Wide", "f21000")
    );
    Ok(())
}
