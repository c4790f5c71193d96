//! Changes at places that C says.

use super::schema::Schema;
use pb_c_message::{PlainChange, PlainValue, Put, Unchanged, change};
use pb_test_types::body_of;
use std::alloc::Global;
use std::test::Fail;

/// A row: the fields of a message, a change with the steps of its place and the value, what the call answers, and the fields then, or that they
/// are the same. A step and a value are a kind, a dot and a number; the strings beside the steps are `GIVEN`.
const SCALARS: &str = "
1:i5 | set 21.1 = 5.7 | ok | 1:i7
1:i5 | set 21.1 = 15.7 | ok | 1:i7
1:i5 | set 21.1 = 17.18446744073709551615 | ok | 1:i-1
1:i5 | set 21.1 = 5.0 | ok |
1:i5 | set 21.1 = 5.2147483648 | value | same
1:i5 | set 21.1 = 3.7 | WrongKind | same
1:i5 | set 21.1 = 13.7 | WrongKind | same
1:i5 | set 21.1 = 14.7 | WrongKind | same
1:i5 | set 21.1 = 0.7 | value | same
1:i5 | set 21.1 = 19.7 | value | same
1:i5 | set 21.1 = 21.7 | value | same
1:i5 | set 21.99 = 5.7 | NoSuchField | same
1:i5 | set 21.4294967296 = 5.7 | place | same
1:i5 | set 99.1 = 0.7 | place | same
1:i5 | set = 5.7 | Absent | same
1:i5 | set 22.0 = 5.7 | Absent | same
1:i5 | set 21.1 21.1 = 5.7 | Absent | same
1:i5 | set 21.3 21.1 = 5.7 | Absent | same
1:i5 | set 21.2 = 9.1 | ok | 1:i5 2:tk
1:i5 | set 21.2 = 9.2 | value | same
1:i5 | set 21.2 = 9.3 | value | same
1:i5 | set 21.2 = 12.1 | WrongKind | same
1:i5 | set 21.25 = 12.1 | ok | 1:i5 25:yk
1:i5 | set 21.25 = 12.2 | ok | 1:i5 25:xff
1:i5 | set 21.25 = 12.3 | value | same
1:i5 | set 21.25 = 9.1 | WrongKind | same
1:i5 | set 21.10 = 8.0 | ok | 1:i5 10:b0
1:i5 | set 21.10 = 8.1 | ok | 1:i5 10:b1
1:i5 | set 21.10 = 8.2 | value | same
1:i5 | set 21.23 = 3.18446744073709551615 | ok | 1:i5 23:I-1
1:i5 | set 21.23 = 16.18446744073709551615 | ok | 1:i5 23:I-1
1:i5 | set 21.24 = 4.18446744073709551615 | ok | 1:i5 24:U18446744073709551615
1:i5 | set 21.24 = 6.7 | ok | 1:i5 24:U7
1:i5 | set 21.7 = 13.7 | ok | 1:i5 7:u7
1:i5 | set 21.7 = 7.4294967295 | ok | 1:i5 7:u4294967295
1:i5 | set 21.7 = 13.4294967296 | value | same
7:u7 | set 21.8 = 11.99 | ok | 8:m
8:m1=i5 | set 21.7 = 13.0 | ok | 7:u0
1:i5 | set 21.3 = 11.0 | ok | 1:i5 3:m
3:m1=i5 | set 21.3 = 10.0 | ok | 3:m
3:m | set 21.3 21.3 = 11.0 | ok | 3:n1
3:n1 | set 21.3 21.3 21.1 = 5.7 | ok | 3:n1.1=i7
3:m1=i5 | set 21.3 21.1 = 5.7 | ok | 3:m1=i7
3:m1=i5 | set 21.3 21.7 = 5.7 | WrongKind | same
1:i5 | set 21.6 = 5.7 | WrongShape | same
1:i5 | set 21.9 = 5.7 | WrongShape | same
1:i5 99~v7 | set 21.1 = 5.7 | ok | 1:i7 99~v7
";

const LISTS_AND_MAPS: &str = "
6:[i4] | push 21.6 = 5.0 | ok | 6:[i4,i0]
1:i5 | push 21.6 = 5.7 | ok | 1:i5 6:[i7]
6:[i4] | push 21.6 = 4.7 | WrongKind | same
6:[i4] | push 21.6 = 0.7 | value | same
6:[i4] | push 21.6 22.0 = 5.7 | Absent | same
6:[i4] | push 21.1 = 5.7 | WrongShape | same
6:[i4] | push 21.99 = 5.7 | NoSuchField | same
13:[tp] | push 21.13 = 9.0 | ok | 13:[tp,ta]
19:[m1=i5] | push 21.19 = 11.0 | ok | 19:[m1=i5,m]
19:[m1=i5,m] | set 21.19 22.1 21.1 = 5.7 | ok | 19:[m1=i5,m1=i7]
19:[m1=i5] | set 21.19 22.1 21.1 = 5.7 | Absent | same
19:[m1=i5,m] | set 21.19 22.0 = 11.0 | ok | 19:[m,m]
6:[i4,i5] | set 21.6 22.1 = 5.7 | ok | 6:[i4,i7]
6:[i4,i5] | set 21.6 22.0 = 5.0 | ok | 6:[i0,i5]
6:[i4] | set 21.6 22.1 = 5.7 | Absent | same
6:[i4] | set 21.6 22.0 = 4.7 | WrongKind | same
6:[i4] | set 21.6 22.0 = 0.7 | value | same
6:[i4] | set 21.6 22.0 22.0 = 5.7 | Absent | same
13:[tp,ta] | set 21.13 22.0 = 9.1 | ok | 13:[tk,ta]
13:[tp] | set 21.13 22.0 = 9.2 | value | same
9:{ta=i8} | set 21.9 22.0 = 5.7 | Absent | same
9:{ta=i8} | set 21.9 9.0 = 5.7 | Absent | same
6:[i4,i5,i6] | remove 21.6 22.1 | ok | 6:[i4,i6]
6:[i4] | remove 21.6 22.0 | ok |
6:[i4] | remove 21.6 22.1 | Absent | same
6:[i4] | remove 22.0 | Absent | same
13:[tp,ta] | remove 21.13 22.0 | ok | 13:[ta]
19:[m1=i5,m] | remove 21.19 22.0 | ok | 19:[m]
19:[m1=i5] | remove 21.19 22.0 21.1 | Absent | same
9:{ta=i8} | remove 21.9 22.0 | Absent | same
1:i5 | remove 21.1 22.0 | Absent | same
1:i5 | remove | Absent | same
1:i5 | push 21.9 = 5.7 | WrongShape | same
9:{ta=i8} | insert 21.9 9.1 = 5.7 | ok | 9:{ta=i8,tk=i7}
9:{ta=i8} | insert 21.9 9.0 = 5.0 | ok | 9:{ta=i0}
1:i5 | insert 21.9 9.0 = 5.7 | ok | 1:i5 9:{ta=i7}
9:{ta=i8} | insert 21.9 5.0 = 5.7 | WrongKind | same
9:{ta=i8} | insert 21.9 9.1 = 4.7 | WrongKind | same
9:{ta=i8} | insert 21.9 9.2 = 5.7 | place | same
9:{ta=i8} | insert 21.9 9.1 = 5.2147483648 | value | same
9:{ta=i8} | insert 21.9 = 5.7 | Absent | same
9:{ta=i8} | insert 21.1 9.1 = 5.7 | WrongShape | same
9:{ta=i8} | insert 21.99 9.1 = 5.7 | NoSuchField | same
9:{ta=i8} | insert 21.9 9.0 9.0 = 5.7 | Absent | same
1:i5 | insert = 5.7 | Absent | same
12:{u8=m1=i5} | insert 21.12 13.9 = 11.0 | ok | 12:{u8=m1=i5,u9=m}
12:{u8=m1=i5} | insert 21.12 13.8 = 11.0 | ok | 12:{u8=m}
12:{u8=m1=i5} | set 21.12 13.8 21.1 = 5.7 | ok | 12:{u8=m1=i7}
12:{u8=m} | insert 21.12 13.8 21.12 13.0 = 11.0 | ok | 12:{u8=w0}
1:i5 | insert 21.27 8.1 = 3.7 | ok | 1:i5 27:{b1=I7}
9:{ta=i8,tk=i4} | remove 21.9 9.0 | ok | 9:{tk=i4}
9:{ta=i8} | remove 21.9 9.0 | ok |
9:{ta=i8} | remove 21.9 9.1 | ok | same
9:{ta=i8} | remove 21.9 | Absent | same
9:{ta=i8} | remove 21.1 9.0 | ok | same
12:{u8=m1=i5} | remove 21.12 13.8 9.0 | Absent | same
12:{u8=w0} | remove 21.12 13.8 21.12 13.0 | ok | 12:{u8=m}
1:i5 6:[i4] | clear 21.6 | ok | 1:i5
1:i5 | clear 21.6 | ok | same
1:i5 | clear 21.99 | ok | same
1:i5 | clear | Absent | same
1:i5 | clear 21.3 21.1 | Absent | same
3:m1=i5 | clear 21.3 21.1 | ok | 3:m
19:[m1=i5] | clear 21.19 22.0 | Absent | same
1:i5 | clear 99.1 | place | same
1:i5 99~v7 | drop_unknown | ok | 1:i5
1:i5 99~v7 | drop_unknown 21.3 | Absent | same
1:i5 99~v7 | drop_unknown 21.1 | Absent | same
1:i5 99~v7 | drop_unknown 99.1 | place | same
";

pub(crate) const TABLES: &[&str] = &[SCALARS, LISTS_AND_MAPS];

const GIVEN: &[&[u8]] = &[b"a", b"k", b"\xff"];

fn plain_of(word: &str) -> Result<PlainValue, Fail> {
    let (kind, number) = word.split_once('.').ok_or("no dot")?;
    Ok(PlainValue {
        kind: kind.parse().map_err(|_| "no kind")?,
        number: number.parse().map_err(|_| "no number")?,
    })
}

fn place_of(alloc: Global, words: &str) -> Result<Vec<PlainValue>, Fail> {
    let mut place = Vec::new(alloc);
    for word in words.split_whitespace() {
        place.push(plain_of(word)?)?;
    }
    Ok(place)
}

fn change_of(name: &str, value: &str) -> Result<PlainChange, Fail> {
    match name {
        "set" => Ok(PlainChange::Put(Put::Set, plain_of(value)?)),
        "push" => Ok(PlainChange::Put(Put::Push, plain_of(value)?)),
        "insert" => Ok(PlainChange::Put(Put::Insert, plain_of(value)?)),
        "clear" => Ok(PlainChange::Clear),
        "remove" => Ok(PlainChange::Remove),
        "drop_unknown" => Ok(PlainChange::DropUnknown),
        _ => Err(Fail::new("no such change")),
    }
}

/// The word for an answer.
fn answer_of(answer: Result<(), Unchanged>) -> &'static str {
    match answer {
        Ok(()) => "ok",
        Err(Unchanged::BadPlace) => "place",
        Err(Unchanged::BadValue) => "value",
        Err(Unchanged::Refused(cause)) => cause.name(),
    }
}

/// Whether a row holds.
pub(crate) fn is_right(alloc: Global, schema: &Schema, row: &str) -> Result<bool, Fail> {
    let (fields, rest) = row.split_once('|').ok_or("no change")?;
    let (words, rest) = rest.split_once('|').ok_or("no answer")?;
    let (said, after) = rest.split_once('|').ok_or("no fields")?;
    let (words, value) = words.split_once('=').unwrap_or((words, ""));
    let (name, place) = words.trim().split_once(' ').unwrap_or((words.trim(), ""));
    let mut message = schema.made(alloc, body_of(alloc, fields.trim())?)?;
    let place = place_of(alloc, place)?;
    let change_said = change_of(name, value.trim())?;
    let answer = answer_of(change(alloc, &mut message, &place, GIVEN, change_said));
    if answer == "Memory" {
        return Err(Fail::new("memory"));
    }
    let wanted = if after.trim() == "same" {
        fields
    } else {
        after
    };
    Ok(answer == said.trim() && message.into_body() == body_of(alloc, wanted.trim())?)
}
