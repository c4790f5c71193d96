//! What changes leave, and which are refused.

use super::choice::choose;
use super::sample::Schema;
use pb_test_types::{body_of, content_of, key_of, value_of};
use pb_value::{Body, DynamicMessage, Value, ValueError};
use pb_wire::Unknown;
use std::alloc::Global;
use std::test::Fail;

/// A row: the fields of a message, a change, and the fields after it or why it is refused. An insertion is followed by the value that was under
/// its key, where there was one.
const SETS: &str = "
| set 1 i5 | 1:i5
1:i5 | set 2 tx | 1:i5 2:tx
2:tx | set 1 i5 | 1:i5 2:tx
1:i5 | set 1 i6 | 1:i6
| set 6 [i1,i0] | 6:[i1,i0]
| set 9 {tk=i0} | 9:{tk=i0}
";

/// What an absent field has too clears the field, and no more than that does.
const ABSENCES: &str = "
| set 1 i0 |
1:i5 2:tx | set 1 i0 | 2:tx
1:i5 6:[i1,i0] | set 6 [] | 1:i5
1:i5 9:{tk=i0} | set 9 {} | 1:i5
| set 10 b0 | 10:b0
| set 4 F9223372036854775808 | 4:F9223372036854775808
| set 3 n99 | 3:n99
";

const MEMBERS: &str = "
7:u5 | set 8 n0 | 8:n0
1:i5 8:n0 18:U5 | set 7 u5 | 1:i5 7:u5 18:U5
7:u5 | set 7 u0 | 7:u0
8:n0 | set 7 u0 | 7:u0
7:u5 | set 18 U5 | 7:u5 18:U5
7:u5 18:U5 | set 1 i5 | 1:i5 7:u5 18:U5
7:u5 | set 8 m1=i0 | !DefaultStored
8:n0 | set 7 n0 | !WrongKind
";

/// Members, of which each is chosen in turn, and a field that is none.
const CHOICES: &str = "
| choose 7 u5 | 7:u5
7:u5 | choose 8 n0 | 8:n0
8:n0 | choose 18 U5 | 8:n0 18:U5
8:n0 18:U5 | choose 7 u0 | 7:u0 18:U5
7:u0 18:U5 | choose 1 i5 | !WrongShape
";

const CLEARS: &str = "
1:i5 7:u5 18:U5 | clear 7 | 1:i5 18:U5
1:i5 7:u5 | clear 1 | 7:u5
1:i5 7:u5 | clear 8 | 1:i5 7:u5
1:i5 | clear 99 | 1:i5
| clear 1 |
";

const REFUSED_SETS: &str = "
1:i5 | set 99 i5 | !NoSuchField
1:i5 | set 0 i5 | !NoSuchField
1:i5 | set 1 tx | !WrongKind
1:i5 | set 6 [i1,tx] | !WrongKind
1:i5 | set 6 i5 | !WrongShape
1:i5 | set 1 [] | !WrongShape
| set 9 {i1=i1} | !WrongKind
| set 3 m1=i0 | !DefaultStored
| set 19 [m1=i1,m1=i0] | !DefaultStored
1:i5 | set 3 n100 | !TooDeep
1:i5 | set 12 {u1=n100} | !TooDeep
";

const PUSHES: &str = "
| push 6 i4 | 6:[i4]
1:i5 6:[i4] | push 6 i0 | 1:i5 6:[i4,i0]
13:[tx] | push 13 t | 13:[tx,t]
| push 19 n99 | 19:[n99]
1:i5 | push 99 i4 | !NoSuchField
1:i5 | push 6 tx | !WrongKind
1:i5 | push 1 tx | !WrongKind
1:i5 | push 1 i4 | !WrongShape
| push 9 i4 | !WrongShape
| push 3 m1=i0 | !WrongShape
13:[tx] | push 19 m1=i0 | !DefaultStored
13:[tx] | push 19 n100 | !TooDeep
";

const INSERTS: &str = "
| insert 9 tk=i4 | 9:{tk=i4}
9:{tk=i4} | insert 9 tk=i0 i4 | 9:{tk=i0}
12:{u1=m1=i1,u2=n0} | insert 12 u1=n0 m1=i1 | 12:{u1=n0,u2=n0}
9:{tk=i4} | insert 9 ta=i8 | 9:{ta=i8,tk=i4}
1:i5 | insert 12 u1=n99 | 1:i5 12:{u1=n99}
1:i5 | insert 99 tk=i4 | !NoSuchField
1:i5 | insert 9 tk=tv | !WrongKind
1:i5 | insert 9 i1=i4 | !WrongKind
1:i5 | insert 6 tk=tv | !WrongKind
1:i5 | insert 6 tk=i4 | !WrongShape
1:i5 | insert 1 tk=i4 | !WrongShape
1:i5 | insert 3 tk=m1=i0 | !WrongShape
1:i5 | insert 12 u1=m1=i0 | !DefaultStored
1:i5 | insert 12 u1=n100 | !TooDeep
";

/// Numbers that a closed enum declares, and others.
const CLOSED_CHANGES: &str = "
| set 4 e2 | 4:e2
| set 4 e-1 | 4:e-1
4:e1 | set 4 e2 | 4:e2
| set 4 e7 | !NoSuchValue
4:e1 | set 4 e7 | !NoSuchValue
4:e1 | set 4 e0 | !NoSuchValue
| set 5 [e1,e2] | 5:[e1,e2]
5:[e1] | set 5 [e2,e7] | !NoSuchValue
5:[e1] | set 5 [] |
| set 5 [e7,i1] | !WrongKind
| set 5 e7 | !WrongShape
| set 4 [e7] | !WrongShape
| set 4 i7 | !WrongKind
6:e1 | set 8 e7 | !NoSuchValue
6:e1 | set 8 e2 | 8:e2
7:m1=i1 | set 6 e7 | !NoSuchValue
5:[e1] | push 5 e2 | 5:[e1,e2]
| push 5 e-1 | 5:[e-1]
5:[e1] | push 5 e7 | !NoSuchValue
| push 5 e0 | !NoSuchValue
| push 5 i7 | !WrongKind
| push 4 e7 | !WrongShape
| set 1 i0 | 1:i0
6:e1 | choose 8 e2 | 8:e2
6:e1 | choose 7 m1=i5 | 7:m1=i5
7:m1=i5 | choose 6 e7 | !NoSuchValue
";

const GROUP_CHANGES: &str = "
| set 3 m1=i5 | 3:m1=i5
3:m1=i5 | set 3 m2=e1 | 3:m2=e1
3:m1=i5 | set 3 m2=e7 | !NoSuchValue
| set 3 n1.4=e7 | !NoSuchValue
| set 3 n99 | 3:n99
| set 3 n100 | !TooDeep
| set 3 n100.2=e7 | !NoSuchValue
| set 3 i5 | !WrongKind
| set 3 [n0] | !WrongShape
6:e1 | set 7 n0 | 7:n0
7:n0 | set 6 e1 | 6:e1
| push 19 m1=i0 | 19:[m1=i0]
19:[n0] | push 19 m2=e7 | !NoSuchValue
19:[n0] | push 19 n99 | 19:[n0,n99]
| push 19 n100 | !TooDeep
| push 19 n100.2=e7 | !NoSuchValue
3:n0 | clear 3 |
";

pub(crate) const CLOSED_TABLES: &[&str] = &[CLOSED_CHANGES, GROUP_CHANGES];

pub(crate) const TABLES: &[&str] = &[
    SETS,
    ABSENCES,
    MEMBERS,
    CHOICES,
    CLEARS,
    REFUSED_SETS,
    PUSHES,
    INSERTS,
];

/// Whether the value that was under a key is this one, or none.
fn is_value(alloc: Global, stood: &Option<Value>, word: Option<&str>) -> Result<bool, Fail> {
    Ok(match (stood, word) {
        (Some(stood), Some(word)) => *stood == value_of(alloc, word)?,
        (None, None) => true,
        _ => false,
    })
}

/// Why an entry is not put in, or none where the value that was under its key is reported as this one.
fn insert(
    alloc: Global,
    message: &mut DynamicMessage<'_>,
    number: u32,
    entry: &str,
    stood: Option<&str>,
) -> Result<Option<ValueError>, Fail> {
    let (key, value) = entry.split_once('=').ok_or("no entry")?;
    let key = key_of(alloc, key)?;
    let old = match message.insert(number, key, value_of(alloc, value)?) {
        Ok(old) => old,
        Err(cause) => return Ok(Some(cause)),
    };
    if !is_value(alloc, &old, stood)? {
        return Err(Fail::new("another value stood there"));
    }
    Ok(None)
}

/// Why the change is refused, if it is.
fn apply(
    alloc: Global,
    message: &mut DynamicMessage<'_>,
    change: &str,
) -> Result<Option<ValueError>, Fail> {
    let mut words = change.split_whitespace();
    let verb = words.next().ok_or("no verb")?;
    let number = words.next().ok_or("no number")?.parse::<u32>()?;
    let rest = words.next().unwrap_or("");
    Ok(match verb {
        "set" => message.set(number, content_of(alloc, rest)?).err(),
        "choose" => choose(message, number, content_of(alloc, rest)?).err(),
        "push" => message.push(number, value_of(alloc, rest)?).err(),
        "insert" => insert(alloc, message, number, rest, words.next())?,
        "clear" => {
            message.clear(number);
            None
        }
        _ => return Err(Fail::new("no change")),
    })
}

/// These fields, and a record that no change touches.
fn with_record(alloc: Global, words: &str) -> Result<Body, Fail> {
    let mut body = body_of(alloc, words)?;
    body.unknown.push((99, Unknown::Varint(7)))?;
    Ok(body)
}

/// What a change of a message of these fields is refused by, and the message after it.
fn changed(
    alloc: Global,
    schema: &Schema,
    before: &str,
    change: &str,
) -> Result<(Option<ValueError>, Body), Fail> {
    let mut message = schema.made(alloc, with_record(alloc, before)?)?;
    let told = apply(alloc, &mut message, change)?;
    Ok((told, message.into_body()))
}

/// Whether a body has these fields, and the record that no change touches.
fn has_fields(alloc: Global, body: &Body, words: &str) -> Result<bool, Fail> {
    let wanted = with_record(alloc, words)?;
    Ok(*body == wanted)
}

fn is_cause(told: Option<ValueError>, after: &str) -> Result<bool, Fail> {
    if told == Some(ValueError::Memory) {
        return Err(Fail::new("no memory"));
    }
    Ok(match (told, after.strip_prefix('!')) {
        (Some(cause), Some(name)) => cause.name() == name,
        (None, None) => true,
        _ => false,
    })
}

/// Whether a change does what its row says. Where there is no memory the message must be as before, and the test ends.
pub(crate) fn is_done(alloc: Global, schema: &Schema, row: &str) -> Result<bool, Fail> {
    let (before, row) = row.split_once('|').ok_or("no row")?;
    let (change, after) = row.split_once('|').ok_or("no row")?;
    let (told, body) = changed(alloc, schema, before, change)?;
    let fields = if told.is_some() { before } else { after };
    if !has_fields(alloc, &body, fields)? {
        return Ok(false);
    }
    is_cause(told, after.trim())
}
