//! Messages that show a break of nested types: of the type with which the comparison began, with what shows the break in them.

ghost use Rattle.pb_compat.specs.Nested.{AreLinked};

use super::chains::field;
use super::fields::{file_of, message_of};
use pb_compat::{ComparedTypes, compare, nested_witness};
use pb_decode::decode;
use pb_encode::encode;
use pb_schema::{Kind, MessageId, MessageType, Pool, Shape};
use pb_wire::Limits;
use std::alloc::Global;
use std::test::Fail;

/// How the types of a nest hold each other: in groups, and in fields of a shape.
#[derive(Clone, Copy)]
struct Link {
    groups: bool,
    shape: Shape,
}

/// The type of an index, with the next one in its field 2.
fn holder(alloc: Global, index: usize, link: Link) -> Result<MessageType, Fail> {
    let next = MessageId(index.saturating_add(1));
    let kind = if link.groups {
        Kind::Group(next)
    } else {
        Kind::Message(next)
    };
    let next = field(alloc, "t", 2, kind, link.shape)?;
    let name = format!(in alloc; "T{index}")?;
    message_of(alloc, name.as_str(), vec![in alloc; next]?)
}

/// Types, each with the next one in its field 2, and a last one with a number of a kind. The file is of proto2 where they hold groups.
fn nest(alloc: Global, fields: usize, link: Link, kind: Kind) -> Result<Pool, Fail> {
    let mut messages = Vec::new(alloc);
    for index in 0..fields {
        messages.push(holder(alloc, index, link)?)?;
    }
    let number = field(alloc, "x", 1, kind, Shape::Explicit)?;
    messages.push(message_of(alloc, "Last", vec![in alloc; number]?)?)?;
    let files = vec![in alloc; file_of(alloc, link.groups)?]?;
    Ok(Pool::from_parts(alloc, files, messages, Vec::new(alloc))?)
}

/// The bytes of the message that shows the break at field 1 of the types at an index of a comparison, if there is one.
fn bytes_at(
    alloc: Global,
    old: &Pool,
    new: &Pool,
    compared: &[ComparedTypes],
    index: usize,
) -> Result<Option<Vec<u8>>, Fail>
    requires { AreLinked old.now new.now compared.now }
{
    if index >= compared.len() {
        return Err("too few types".into());
    }
    let Some(message) = nested_witness(alloc, old, new, compared, index, 1)? else {
        return Ok(None);
    };
    let bytes = encode(&message)?;
    Ok(Some(bytes))
}

/// The same of the types to which this many fields lead.
fn bytes_shown(
    alloc: Global,
    old: &Pool,
    new: &Pool,
    fields: usize,
) -> Result<Option<Vec<u8>>, Fail> {
    if old.messages().is_empty() || new.messages().is_empty() {
        return Err("no message".into());
    }
    let compared = compare(alloc, old, MessageId(0), new, MessageId(0))?;
    let bytes = bytes_at(alloc, old, new, &compared, fields)?;
    Ok(bytes)
}

/// Whether bytes encode a message of the first old type that the first new type refuses or reads as another one.
fn show(alloc: Global, old: &Pool, new: &Pool, bytes: &[u8]) -> Result<bool, Fail> {
    if old.messages().is_empty() || new.messages().is_empty() {
        return Err("no message".into());
    }
    let was = decode(alloc, old, MessageId(0), bytes, Limits::FULL)?;
    let written = encode(&was)?;
    let Ok(read) = decode(alloc, new, MessageId(0), bytes, Limits::FULL) else {
        return Ok(true);
    };
    let again = encode(&read)?;
    Ok(written.as_slice() == bytes && again.as_slice() != bytes)
}

/// Whether there is a message that shows the break, of these bytes if they are given.
fn is_shown(
    alloc: Global,
    old: &Pool,
    new: &Pool,
    fields: usize,
    bytes: Option<&str>,
) -> Result<bool, Fail> {
    let Some(built) = bytes_shown(alloc, old, new, fields)? else {
        return Ok(false);
    };
    let same = match bytes {
        Some(bytes) => {
            let expected = hex::decode(alloc, bytes)?;
            expected.as_slice() == built.as_slice()
        }
        None => true,
    };
    Ok(same && show(alloc, old, new, &built)?)
}

/// Whether a nest whose last number was of 64 bits, and is of 32, has a message that shows it.
fn nest_is_shown(
    alloc: Global,
    fields: usize,
    link: Link,
    bytes: Option<&str>,
) -> Result<bool, Fail> {
    let old = nest(alloc, fields, link, Kind::Int64)?;
    let new = nest(alloc, fields, link, Kind::Int32)?;
    is_shown(alloc, &old, &new, fields, bytes)
}

/// Whether they are groups, the shape, how many fields lead to the last type, and the encoding: the number is -2147483649, and the key of a map 1.
const ROWS: &[(bool, Shape, usize, &str)] = &[
    (false, Shape::Explicit, 0, "08fffffffff7ffffffff01"),
    (false, Shape::Explicit, 1, "120b08fffffffff7ffffffff01"),
    (false, Shape::Explicit, 2, "120d120b08fffffffff7ffffffff01"),
    (
        false,
        Shape::OneofMember(0),
        2,
        "120d120b08fffffffff7ffffffff01",
    ),
    (
        false,
        Shape::List { packed: false },
        3,
        "120f120d120b08fffffffff7ffffffff01",
    ),
    (
        false,
        Shape::Map { key: Kind::Int32 },
        2,
        "121508011211120f0801120b08fffffffff7ffffffff01",
    ),
    (true, Shape::Explicit, 2, "131308fffffffff7ffffffff011414"),
    (
        true,
        Shape::List { packed: false },
        3,
        "13131308fffffffff7ffffffff01141414",
    ),
];

/// The first row whose message is another one.
fn wrong_row(alloc: Global) -> Result<Option<usize>, Fail> {
    for (index, row) in ROWS.iter().enumerate() {
        let link = Link {
            groups: row.0,
            shape: row.1,
        };
        if !nest_is_shown(alloc, row.2, link, Some(row.3))? {
            return Ok(Some(index));
        }
    }
    Ok(None)
}

#[test]
fn nests(rt: HostRuntime) -> Result<(), Fail> {
    assert!(rt; wrong_row(rt.alloc())?.is_none());
    Ok(())
}

/// Links of the deepest nests.
const LINKS: &[(bool, Shape)] = &[
    (false, Shape::Explicit),
    (false, Shape::OneofMember(0)),
    (false, Shape::List { packed: false }),
    (false, Shape::Map { key: Kind::Text }),
    (true, Shape::Explicit),
];

/// The first link of which 99 fields show no break, or 100 show one.
fn wrong_link(alloc: Global) -> Result<Option<usize>, Fail> {
    for (index, row) in LINKS.iter().enumerate() {
        let link = Link {
            groups: row.0,
            shape: row.1,
        };
        if !nest_is_shown(alloc, 99, link, None)? || nest_is_shown(alloc, 100, link, None)? {
            return Ok(Some(index));
        }
    }
    Ok(None)
}

#[test]
fn deep_nests(rt: HostRuntime) -> Result<(), Fail> {
    assert!(rt; wrong_link(rt.alloc())?.is_none());
    Ok(())
}

/// Whether a list that becomes one value shows itself, in place of what it holds.
fn step_is_shown(alloc: Global) -> Result<bool, Fail> {
    let list = Link {
        groups: false,
        shape: Shape::List { packed: false },
    };
    let one = Link {
        groups: false,
        shape: Shape::Explicit,
    };
    let old = nest(alloc, 1, list, Kind::Int64)?;
    let new = nest(alloc, 1, one, Kind::Int32)?;
    match bytes_shown(alloc, &old, &new, 1)? {
        Some(bytes) => Ok(matches!(bytes.as_slice(), [0x12, 0])),
        None => Ok(false),
    }
}

/// Whether there is no message where no difference breaks.
fn none_is_shown(alloc: Global) -> Result<bool, Fail> {
    let link = Link {
        groups: false,
        shape: Shape::Explicit,
    };
    let old = nest(alloc, 2, link, Kind::Int32)?;
    let new = nest(alloc, 2, link, Kind::Int64)?;
    Ok(bytes_shown(alloc, &old, &new, 2)?.is_none())
}

#[test]
fn steps(rt: HostRuntime) -> Result<(), Fail> {
    assert!(rt; step_is_shown(rt.alloc())? && none_is_shown(rt.alloc())?);
    Ok(())
}
