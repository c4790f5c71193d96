//! Changes at places.

use super::places::place_of;
use super::schema::Schema;
use pb_place::{
    ChangeError, PlaceStep, clear_at, drop_unknown_at, insert_at, push_at, remove_at,
    remove_element_at, set_at, set_element_at,
};
use pb_test_types::{body_of, content_of, key_of, value_of};
use pb_value::{DynamicMessage, Value, ValueError};
use std::alloc::Global;
use std::test::Fail;

/// A row: the fields of a message, a change with a place, and the fields after it, or why it is refused; then the message is as before.
const SET: &str = "
1:i5 | set i7 f1 | 1:i7
1:i5 | set i0 f1 |
2:tx | set b0 f10 | 2:tx 10:b0
3:m1=i5;2=tx | set i7 f3 f1 | 3:m1=i7;2=tx
3:m1=i5 | set i0 f3 f1 | 3:n0
3:n2.1=i5 | set i6 f3 f3 f3 f1 | 3:n2.1=i6
3:n1.1=i5 | set n0 f3 f3 | 3:n1
3:n0 | set n98 f3 f3 | 3:n99
3:n1 | set n97 f3 f3 f3 | 3:n99
19:[m1=i7,m1=i8] | set i9 f19 #1 f1 | 19:[m1=i7,m1=i9]
19:[m1=i7,m1=i8] | set i9 f19 #0 f1 | 19:[m1=i9,m1=i8]
12:{u8=n0,u9=m1=i6} | set i7 f12 ku9 f1 | 12:{u8=n0,u9=m1=i7}
12:{u8=n0,u9=m1=i6} | set i7 f12 ku8 f1 | 12:{u8=m1=i7,u9=m1=i6}
12:{u8=n1.1=i5,u9=n0} | set i7 f12 ku8 f3 f1 | 12:{u8=n1.1=i7,u9=n0}
19:[n0,m7=u1] | set u2 f19 #1 f7 | 19:[n0,m7=u2]
20:m1=tx | set ty f20 f1 | 20:m1=ty
";

const CLEARED: &str = "
1:i5 2:tx | clear f1 | 2:tx
1:i5 | clear f2 | 1:i5
3:m1=i5;2=tx | clear f3 f1 | 3:m2=tx
3:m1=i5 | clear f3 f1 | 3:n0
3:m1=i5 | clear f3 f99 | 3:m1=i5
19:[m1=i7,m1=i8] | clear f19 #0 f1 | 19:[n0,m1=i8]
12:{u8=n1.1=i5} | clear f12 ku8 f3 | 12:{u8=n0}
3:n2.1=i5 | clear f3 f3 f3 | 3:n1
3:n1 99~v7 | clear f3 f3 | 3:n0 99~v7
";

const ABSENT: &str = "
1:i5 | set i7 | Absent
19:[n0] | set i7 f19 #0 | Absent
12:{u8=n0} | set i7 f12 ku8 | Absent
1:i5 | set i7 f3 f1 | Absent
1:i5 | set i7 f1 f1 | Absent
3:n0 | set i7 f3 f3 f1 | Absent
3:n0 | set i7 f3 #0 f1 | Absent
3:n0 | set i7 f99 f1 | Absent
3:n0 | set i7 #0 f1 | Absent
19:[n0] | set i7 f19 f1 | Absent
19:[n0] | set i7 f19 f0 f1 | Absent
19:[n0] | set i7 f19 #1 f1 | Absent
19:[n0] | set i7 f19 ku0 f1 | Absent
12:{u8=n0} | set i7 f12 f1 | Absent
12:{u8=n0} | set i7 f12 ku9 f1 | Absent
12:{u8=n0} | set i7 f12 #0 f1 | Absent
6:[i4] | set i7 f6 #0 f1 | Absent
9:{ta=i8} | set i7 f9 kta f1 | Absent
19:[n0] | set n99 f19 #1 f3 | Absent
1:i5 | clear | Absent
1:i5 | clear f3 f1 | Absent
19:[n0] | clear f19 #0 | Absent
12:{u8=n0} | clear f12 ku8 | Absent
";

const REFUSED: &str = "
3:n0 | set i7 f3 f99 | NoSuchField
3:n0 | set tx f3 f1 | WrongKind
3:n0 | set [i4] f3 f1 | WrongShape
3:n0 | set m1=tx f3 f3 | WrongKind
3:n0 | set m1=i0 f3 f3 | DefaultStored
3:n0 | set n100 f3 f3 | TooDeep
3:n0 | set n99 f3 f3 | TooDeep
3:n1 | set n98 f3 f3 f3 | TooDeep
19:[n0] | set n99 f19 #0 f3 | TooDeep
12:{u8=n0} | set n99 f12 ku8 f3 | TooDeep
3:n0 | set n99 f3 f99 | NoSuchField
3:n0 | set n99 f3 f1 | WrongKind
";

const PUSHED: &str = "
1:i5 | push i4 f6 | 1:i5 6:[i4]
6:[i4] | push i0 f6 | 6:[i4,i0]
3:m1=i5 | push n1 f3 f3 f19 | Absent
19:[n0] | push m1=i5 f19 | 19:[n0,m1=i5]
19:[n0] | push i5 | Absent
19:[n0] | push i5 f19 #0 | Absent
19:[n0] | push n0 f19 #1 f19 | Absent
3:n0 | push i5 f3 f99 | NoSuchField
3:n0 | push tx f3 f6 | WrongKind
3:n0 | push i5 f3 f1 | WrongShape
3:n0 | push m1=i0 f3 f19 | DefaultStored
3:n0 | push n99 f3 f19 | TooDeep
3:n0 | push n99 f3 f3 | WrongShape
";

const INSERTED: &str = "
9:{ta=i8} | insert tb=i7 f9 | 9:{ta=i8,tb=i7}
9:{ta=i8} | insert ta=i7 f9 | 9:{ta=i7}
12:{u8=n0} | insert u7=m1=i5 f12 | 12:{u7=m1=i5,u8=n0}
12:{u8=n0} | insert u7=n98 f12 | 12:{u7=n98,u8=n0}
12:{u8=n0} | insert u7=n0 | Absent
12:{u8=n0} | insert u7=n0 f12 ku8 | Absent
12:{u8=n0} | insert u7=n0 f12 ku7 f12 | Absent
3:n0 | insert u7=n0 f3 f99 | NoSuchField
3:n0 | insert ta=n0 f3 f12 | WrongKind
3:n0 | insert u7=i5 f3 f12 | WrongKind
3:n0 | insert u7=m1=i0 f3 f12 | DefaultStored
3:n0 | insert u7=n99 f3 f12 | TooDeep
";

const REMOVED: &str = "
9:{ta=i8,tb=i7} | remove ta f9 | 9:{tb=i7}
9:{ta=i8,tb=i7} | remove tb f9 | 9:{ta=i8}
9:{ta=i8} 1:i5 | remove ta f9 | 1:i5
9:{ta=i8} | remove tc f9 | 9:{ta=i8}
9:{ta=i8} | remove u1 f9 | 9:{ta=i8}
12:{u7=n0,u8=n1} | remove u8 f12 | 12:{u7=n0}
6:[i4] | remove u0 f6 | 6:[i4]
1:i5 | remove ta f1 | 1:i5
1:i5 | remove ta f9 | 1:i5
3:n1 | remove ta f3 f9 | 3:n1
3:n1 | remove ta f3 f3 f3 f9 | Absent
12:{u7=n0} | remove u8 f12 ku7 | Absent
";

/// `put` a value in place of an element, and `take` it out, with a word that says nothing.
const ELEMENTS: &str = "
6:[i4,i5] | put i7 f6 #0 | 6:[i7,i5]
6:[i4,i5] | put i0 f6 #1 | 6:[i4,i0]
13:[tp,tq] | put t f13 #0 | 13:[t,tq]
19:[n0,n1] | put m1=i5 f19 #1 | 19:[n0,m1=i5]
19:[n0] | put n99 f19 #0 | 19:[n99]
6:[i4] | put i7 f6 #1 | Absent
6:[i4] | put tx f6 #1 | Absent
6:[i4] | put i7 f6 | Absent
6:[i4] | put i7 | Absent
6:[i4] | put i7 f1 #0 | Absent
6:[i4] | put i7 f99 #0 | Absent
6:[i4] | put i7 f6 #0 #0 | Absent
1:i5 | put i7 f6 #0 | Absent
1:i5 | put i7 f1 #0 | Absent
9:{ta=i8} | put i7 f9 #0 | Absent
9:{ta=i8} | put i7 f9 kta | Absent
3:n0 | put i7 f3 f6 #0 | Absent
6:[i4] | put tx f6 #0 | WrongKind
19:[n0] | put i7 f19 #0 | WrongKind
19:[n0] | put m1=i0 f19 #0 | DefaultStored
19:[n0] | put n100 f19 #0 | TooDeep
6:[i4,i5,i6] | take - f6 #1 | 6:[i4,i6]
6:[i4,i5,i6] | take - f6 #2 | 6:[i4,i5]
6:[i4,i5] | take - f6 #0 | 6:[i5]
6:[i4] 1:i5 | take - f6 #0 | 1:i5
19:[n0,m1=i5] | take - f19 #0 | 19:[m1=i5]
6:[i4] | take - f6 #1 | Absent
6:[i4] | take - f6 | Absent
6:[i4] | take - | Absent
1:i5 | take - f6 #0 | Absent
1:i5 | take - f1 #0 | Absent
9:{ta=i8} | take - f9 #0 | Absent
19:[n0] | take - f19 #0 f6 #0 | Absent
";

const DROPPED: &str = "
1:i5 99~v7 98~x00 | drop | 1:i5
1:i5 | drop | 1:i5
3:n1 99~v7 | drop f3 | 3:n1 99~v7
1:i5 | drop f1 | Absent
19:[n0] | drop f19 | Absent
3:n1 | drop f3 f3 f3 | Absent
";

pub(crate) const TABLES: &[&str] = &[
    SET, CLEARED, ABSENT, REFUSED, PUSHED, INSERTED, REMOVED, ELEMENTS, DROPPED,
];

/// A row: the fields of a message, an insertion or a removal, or another element, and the value that was there, or none.
const OUT: &str = "
9:{ta=i8} | insert ta=i7 f9 | i8
9:{ta=i8} | insert tb=i7 f9 | none
1:i5 | insert tb=i7 f9 | none
12:{u8=m1=i5} | insert u8=n0 f12 | m1=i5
9:{ta=i8,tb=i7} | remove tb f9 | i7
9:{ta=i8,tb=i7} | remove tc f9 | none
12:{u8=n1.1=i5} | remove u8 f12 | n1.1=i5
1:i5 | remove ta f9 | none
1:i5 | remove ta f1 | none
6:[i4,i5] | put i7 f6 #1 | i5
19:[n0,m1=i5] | put n1 f19 #1 | m1=i5
6:[i4,i5,i6] | take - f6 #1 | i5
19:[n2.1=i5] | take - f19 #0 | n2.1=i5
";

pub(crate) const OUT_TABLES: &[&str] = &[OUT];

fn change(
    alloc: Global,
    message: &mut DynamicMessage<'_>,
    place: &[PlaceStep],
    name: &str,
    word: &str,
) -> Result<Result<(), ChangeError>, Fail> {
    match name {
        "set" => Ok(set_at(message, place, content_of(alloc, word)?)),
        "clear" => Ok(clear_at(message, place)),
        "push" => Ok(push_at(message, place, value_of(alloc, word)?)),
        "drop" => Ok(drop_unknown_at(message, place)),
        _ => Ok(take(alloc, message, place, name, word)?.map(drop)),
    }
}

/// A change that takes a value out.
fn take(
    alloc: Global,
    message: &mut DynamicMessage<'_>,
    place: &[PlaceStep],
    name: &str,
    word: &str,
) -> Result<Result<Option<Value>, ChangeError>, Fail> {
    match name {
        "insert" => {
            let (key, value) = word.split_once('=').ok_or("no value")?;
            let (key, value) = (key_of(alloc, key)?, value_of(alloc, value)?);
            Ok(insert_at(message, place, key, value))
        }
        "remove" => Ok(remove_at(message, place, key_of(alloc, word)?)),
        "put" => Ok(set_element_at(message, place, value_of(alloc, word)?)),
        "take" => Ok(remove_element_at(message, place)),
        _ => Err(Fail::new("no such change")),
    }
}

/// Whether a row of what comes out holds.
pub(crate) fn is_out(alloc: Global, schema: &Schema, row: &str) -> Result<bool, Fail> {
    let (fields, rest) = row.split_once('|').ok_or("no change")?;
    let (words, said) = rest.split_once('|').ok_or("no answer")?;
    let (name, rest) = words.trim().split_once(' ').ok_or("no word")?;
    let (word, steps) = rest.split_once(' ').ok_or("no place")?;
    let mut message = schema.made(alloc, body_of(alloc, fields.trim())?)?;
    match take(alloc, &mut message, &place_of(alloc, steps)?, name, word)? {
        Ok(Some(value)) => Ok(value == value_of(alloc, said.trim())?),
        Ok(None) => Ok(said.trim() == "none"),
        Err(_) => Err(Fail::new("refused")),
    }
}

/// Whether a row holds.
pub(crate) fn is_right(alloc: Global, schema: &Schema, row: &str) -> Result<bool, Fail> {
    let (fields, rest) = row.split_once('|').ok_or("no change")?;
    let (words, said) = rest.split_once('|').ok_or("no answer")?;
    let (name, rest) = words.trim().split_once(' ').unwrap_or((words.trim(), ""));
    let (word, steps) = match name {
        "clear" | "drop" => ("", rest),
        _ => rest.split_once(' ').unwrap_or((rest, "")),
    };
    let said = said.trim();
    let mut message = schema.made(alloc, body_of(alloc, fields.trim())?)?;
    match change(alloc, &mut message, &place_of(alloc, steps)?, name, word)? {
        Ok(()) => Ok(*message.body() == body_of(alloc, said)?),
        Err(cause) => {
            if cause == ChangeError::Refused(ValueError::Memory) {
                return Err(Fail::new("out of memory"));
            }
            Ok(cause.name() == said && *message.body() == body_of(alloc, fields.trim())?)
        }
    }
}
