//! A message type with 300 oneofs of two members each, whose numbers follow one another: the answers beside those of `decode` and `encode`.

use super::sample::Schema;
use super::worked::is_right;
use pb_schema::{Field, FileInfo, Kind, MessageType, Pool, Shape};
use pb_wire::put_varint;
use std::alloc::{AllocError, Global};
use std::test::Fail;

const ONEOFS: u32 = 300;

/// The member of a number of a oneof.
fn member(alloc: Global, number: u32, oneof: u32) -> Result<Field, AllocError> {
    Ok(Field {
        name: format!(in alloc; "m{number}")?,
        number,
        kind: Kind::Int32,
        shape: Shape::OneofMember(oneof),
    })
}

fn many_oneofs(alloc: Global) -> Result<Schema, Fail> {
    let mut files = Vec::new(alloc);
    files.push(FileInfo {
        name: String::from_str(alloc, "m.proto")?,
        package: String::new(alloc),
        imports: Vec::new(alloc),
        proto2: false,
    })?;
    let mut fields = Vec::new(alloc);
    let mut oneofs = Vec::new(alloc);
    for index in 0..ONEOFS {
        fields.push(member(alloc, 2 * index + 1, index)?)?;
        fields.push(member(alloc, 2 * index + 2, index)?)?;
        oneofs.push(format!(in alloc; "o{index}")?)?;
    }
    let mut messages = Vec::new(alloc);
    messages.push(MessageType {
        name: String::from_str(alloc, "M")?,
        file: 0,
        parent: None,
        fields,
        oneofs,
    })?;
    let pool = Pool::from_parts(alloc, files, messages, Vec::new(alloc))?;
    let kind = pool.message_by_name("M").ok_or("no type")?;
    Ok(Schema { alloc, pool, kind })
}

/// Members by their numbers, each with the value 1.
fn with_members(alloc: Global, numbers: &[u32]) -> Result<Vec<u8>, AllocError> {
    let mut bytes = Vec::new(alloc);
    for number in numbers {
        bytes.extend_from_slice(put_varint(u64::from(*number) * 8).as_slice())?;
        bytes.push(1)?;
    }
    Ok(bytes)
}

/// Members of different oneofs.
const APART: &[&[u32]] = &[
    &[600],
    &[1, 257],
    &[256, 258, 512, 514, 600],
    &[255, 257, 511, 513, 599],
    &[2, 3, 258, 259, 514, 515],
];

/// Two of one oneof among them.
const TOGETHER: &[&[u32]] = &[
    &[1, 2],
    &[255, 256],
    &[257, 258],
    &[1, 257, 511, 512],
    &[513, 514, 515],
    &[1, 257, 599, 600],
];

/// The first list of members that is not answered as wanted, or not as `decode` and `encode` say.
fn first_wrong<'a>(
    schema: &Schema,
    lists: &[&'a [u32]],
    wanted: bool,
) -> Result<Option<&'a [u32]>, Fail> {
    for numbers in lists {
        let bytes = with_members(schema.alloc, numbers)?;
        if schema.is_canonical(&bytes) != wanted || !is_right(schema, &bytes)? {
            return Ok(Some(*numbers));
        }
    }
    Ok(None)
}

#[test]
fn oneofs(rt: HostRuntime) -> Result<(), Fail> {
    let schema = many_oneofs(rt.alloc())?;
    let apart = first_wrong(&schema, APART, true)?;
    let together = first_wrong(&schema, TOGETHER, false)?;
    assert!(rt;
        apart.is_none() && together.is_none(),
        "{apart:?} {together:?}"
    );
    Ok(())
}
