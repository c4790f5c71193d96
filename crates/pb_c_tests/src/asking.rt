//! What is asked of places that C says.

use super::schema::Schema;
use pb_c_message::{
    KeyCounts, Miss, PlainValue, bytes_at, fields_at, key_at, key_bytes, key_value, keys_at,
    oneof_at, unknown_at, value_at,
};
use pb_test_types::body_of;
use pb_value::DynamicMessage;
use std::alloc::Global;
use std::test::Fail;

/// A row: the fields of a message, a question with a number and the steps of a place, and the answer. A step and a value are a kind, a dot
/// and a number; the strings beside the steps are `KEYS`.
const VALUES: &str = "
1:i5 | value 0 21.1 | 5.5
1:i5 | value 0 21.2 | absent
1:i5 | value 0 | 11.0
1:i5 | value 0 21.4294967295 | absent
1:i5 | value 0 21.4294967296 | bad
1:i5 | value 0 22.0 | absent
1:i5 | value 0 0.1 | bad
1:i5 | value 0 21.1 21.1 | absent
1:i5 | value 0 21.1 23.1 | bad
2:txyz | value 0 21.2 | 9.3
10:b0 | value 0 21.10 | 8.0
7:u8 | value 0 21.7 | 13.8
6:[i4,i0] | value 0 21.6 | 19.2
6:[i4,i0] | value 0 21.6 22.0 | 5.4
6:[i4,i0] | value 0 21.6 22.1 | 5.0
6:[i4,i0] | value 0 21.6 22.2 | absent
6:[i4,i0] | value 0 21.6 22.18446744073709551615 | absent
9:{ta=i8,tk=i4} | value 0 21.9 | 20.2
9:{ta=i8,tk=i4} | value 0 21.9 9.0 | 5.8
9:{ta=i8,tk=i4} | value 0 21.9 9.1 | 5.4
9:{ta=i8,tk=i4} | value 0 21.9 9.2 | bad
9:{ta=i8,tk=i4} | value 0 21.9 9.3 | bad
9:{ta=i8,tk=i4} | value 0 21.9 5.0 | absent
3:m1=i5 | value 0 21.3 | 11.0
20:m1=tx | value 0 21.20 | 11.1
3:m1=i5 | value 0 21.3 21.1 | 5.5
12:{u8=m1=i5} | value 0 21.12 13.8 21.1 | 5.5
12:{u8=m1=i5} | value 0 21.12 7.8 21.1 | 5.5
12:{u8=m1=i5} | value 0 21.12 4.8 21.1 | absent
12:{u8=m1=i5} | value 0 21.12 13.4294967296 | bad
12:{u8=m1=i5} | value 0 21.12 5.2147483647 | absent
12:{u8=m1=i5} | value 0 21.12 5.2147483648 | bad
12:{u8=m1=i5} | value 0 21.12 17.18446744073709551615 | absent
12:{u8=m1=i5} | value 0 21.12 15.18446744071562067968 | absent
12:{u8=m1=i5} | value 0 21.12 5.18446744071562067967 | bad
12:{u8=m1=i5} | value 0 21.12 3.18446744073709551615 | absent
12:{u8=m1=i5} | value 0 21.12 8.1 | absent
12:{u8=m1=i5} | value 0 21.12 8.2 | bad
12:{u8=m1=i5} | value 0 21.12 12.0 | bad
";

const OTHERS: &str = "
2:txyz | bytes 0 21.2 | xyz
1:i5 | bytes 0 21.1 | absent
1:i5 | bytes 0 | absent
6:[i4] | bytes 0 21.6 | absent
13:[tp,tqr] | bytes 0 21.13 22.1 | qr
1:i5 | bytes 0 21.3 21.2 | absent
1:i5 | bytes 0 99.1 | bad
9:{ta=i8,tk=i4} | key 0 21.9 | 9.1 a
9:{ta=i8,tk=i4} | key 1 21.9 | 9.1 k
9:{ta=i8,tk=i4} | key 2 21.9 | absent
12:{u9=n0,u8=n0} | key 1 21.12 | 13.9
1:i5 | key 0 21.1 | absent
1:i5 | key 0 99.1 | bad
1:i5 2:tx 10:b0 | fields 4 | 3 1 2 10 0
1:i5 2:tx 10:b0 | fields 2 | 3 1 2
1:i5 2:tx 10:b0 | fields 0 | 3
3:m1=i5;2=tx | fields 2 21.3 | 2 1 2
1:i5 | fields 1 21.1 | absent
1:i5 | fields 1 99.1 | bad
";

/// The keys of a map from an index on, into two buffers: the number is a hundred times the index, and ten times how many keys the one holds, and
/// how many bytes the other. The answer is how many keys there are and how many bytes their strings have, and then what the buffers have.
const KEYS_OF_MAPS: &str = "
9:{ta=i8,tk=i4} | keys 29 21.9 | 2 2 9.1 9.1 ak-------
9:{ta=i8,tk=i4} | keys 39 21.9 | 2 2 9.1 9.1 0.0 ak-------
9:{tk=i4,ta=i8} | keys 11 21.9 | 2 2 9.1 a
9:{ta=i8,tk=i4} | keys 0 21.9 | 2 2
9:{ta=i8,tk=i4} | keys 113 21.9 | 1 1 9.1 k--
9:{ta=i8,tk=i4} | keys 213 21.9 | 0 0 0.0 ---
9:{ta=i8,tk=i4} | keys 913 21.9 | 0 0 0.0 ---
9:{tabc=i8,t=i1,tk=i4} | keys 43 21.9 | 3 4 9.0 9.3 9.1 0.0 abc
9:{tabc=i8,t=i1,tk=i4} | keys 22 21.9 | 3 4 9.0 9.3 ab
9:{tabc=i8,t=i1,tk=i4} | keys 115 21.9 | 2 4 9.3 abck-
12:{u9=n0,u8=n0} | keys 21 21.12 | 2 0 13.8 13.9 -
12:{u9=n0,u8=n0} | keys 121 21.12 | 1 0 13.9 0.0 -
1:i5 | keys 22 21.1 | absent
1:i5 | keys 22 21.9 | absent
1:i5 | keys 22 | absent
6:[i4] | keys 22 21.6 | absent
1:i5 | keys 22 99.1 | bad
";

/// Bytes are in hexadecimal.
const MEMBERS_AND_UNKNOWN: &str = "
7:u8 | oneof 0 | 7
8:m1=i5 | oneof 0 | 8
1:i5 | oneof 0 | absent
7:u8 | oneof 1 | absent
7:u8 | oneof 4294967295 | absent
3:m7=u4 | oneof 0 21.3 | 7
3:m7=u4 | oneof 0 | absent
7:u8 20:m1=tx | oneof 0 21.20 | absent
1:i5 | oneof 0 21.1 | absent
1:i5 | oneof 0 99.1 | bad
99~v300 | unknown 0 | 9806ac02
1:i5 | unknown 0 |
1:i5 99~v7 99~x00ff | unknown 0 | 9806079a060200ff
99~w1 99~d2 | unknown 0 | 9d060100000099060200000000000000
50~a5 99~v7 | unknown 0 | 930328059403980607
1:i5 99~v7 3:m1=i5 | unknown 0 21.3 |
1:i5 99~v7 | unknown 0 21.1 | absent
6:[i4] 99~v7 | unknown 0 21.6 | absent
1:i5 99~v7 | unknown 0 21.4 | absent
1:i5 99~v7 | unknown 0 99.1 | bad
";

pub(crate) const TABLES: &[&str] = &[VALUES, OTHERS, KEYS_OF_MAPS, MEMBERS_AND_UNKNOWN];

const KEYS: &[&[u8]] = &[b"a", b"k", b"\xff"];

fn step_of(word: &str) -> Result<PlainValue, Fail> {
    let (kind, number) = word.split_once('.').ok_or("no dot")?;
    Ok(PlainValue {
        kind: kind.parse().map_err(|_| "no kind")?,
        number: number.parse().map_err(|_| "no number")?,
    })
}

pub(crate) fn place_of(alloc: Global, words: &str) -> Result<Vec<PlainValue>, Fail> {
    let mut place = Vec::new(alloc);
    for word in words.split_whitespace() {
        place.push(step_of(word)?)?;
    }
    Ok(place)
}

/// Whether a miss is as a word says.
fn is_miss(miss: Miss, word: &str) -> Result<bool, Fail> {
    match miss {
        Miss::Absent => Ok(word == "absent"),
        Miss::BadPlace => Ok(word == "bad"),
        Miss::Memory => Err(Fail::new("memory")),
    }
}

/// Whether some numbers are as words say.
fn are_numbers(numbers: &[u32], words: &str) -> Result<bool, Fail> {
    let mut left = numbers;
    for word in words.split_whitespace() {
        let (first, rest) = left.split_first().ok_or("too few numbers")?;
        if word.parse::<u32>().map_err(|_| "no number")? != *first {
            return Ok(false);
        }
        left = rest;
    }
    Ok(left.is_empty())
}

fn are_written(
    alloc: Global,
    message: &DynamicMessage<'_>,
    place: &[PlainValue],
    capacity: usize,
    said: &str,
) -> Result<bool, Fail> {
    let mut buffer = vec![in alloc; 0u32; capacity]?;
    match fields_at(alloc, message.view(), place, KEYS, &mut buffer) {
        Ok(count) => {
            let (word, numbers) = said.split_once(' ').unwrap_or((said, ""));
            let wanted: usize = word.parse().map_err(|_| "no count")?;
            Ok(count == wanted && are_numbers(&buffer, numbers)?)
        }
        Err(miss) => is_miss(miss, said),
    }
}

/// Whether words say some values, and what is after them the bytes.
fn are_filled(values: &[PlainValue], bytes: &[u8], words: &str) -> Result<bool, Fail> {
    let mut rest = words;
    for value in values {
        let (word, after) = rest.split_once(' ').unwrap_or((rest, ""));
        if *value != step_of(word)? {
            return Ok(false);
        }
        rest = after;
    }
    Ok(bytes == rest.as_bytes())
}

fn are_keys(
    alloc: Global,
    message: &DynamicMessage<'_>,
    place: &[PlainValue],
    number: usize,
    said: &str,
) -> Result<bool, Fail> {
    let nothing = PlainValue { kind: 0, number: 0 };
    let mut values = vec![in alloc; nothing; number / 10 % 10]?;
    let mut out = vec![in alloc; b'-'; number % 10]?;
    match keys_at(
        alloc,
        message.view(),
        place,
        KEYS,
        number / 100,
        &mut values,
        &mut out,
    ) {
        Ok(counts) => {
            let (keys, rest) = said.split_once(' ').ok_or("no count")?;
            let (bytes, words) = rest.split_once(' ').unwrap_or((rest, ""));
            let keys: usize = keys.parse().map_err(|_| "no count")?;
            let bytes: usize = bytes.parse().map_err(|_| "no count")?;
            Ok(counts == (KeyCounts { keys, bytes }) && are_filled(&values, &out, words)?)
        }
        Err(miss) => is_miss(miss, said),
    }
}

fn is_answered(
    alloc: Global,
    message: &DynamicMessage<'_>,
    question: &str,
    number: usize,
    place: &[PlainValue],
    said: &str,
) -> Result<bool, Fail> {
    match question {
        "value" => match value_at(alloc, message.view(), place, KEYS) {
            Ok(value) => Ok(value == step_of(said)?),
            Err(miss) => is_miss(miss, said),
        },
        "bytes" => match bytes_at(alloc, message.view(), place, KEYS) {
            Ok(bytes) => Ok(bytes == said.as_bytes()),
            Err(miss) => is_miss(miss, said),
        },
        "key" => match key_at(alloc, message.view(), place, KEYS, number) {
            Ok(key) => {
                let (word, bytes) = said.split_once(' ').unwrap_or((said, ""));
                Ok(key_value(key) == step_of(word)? && key_bytes(key) == bytes.as_bytes())
            }
            Err(miss) => is_miss(miss, said),
        },
        "keys" => are_keys(alloc, message, place, number, said),
        "fields" => are_written(alloc, message, place, number, said),
        "oneof" => {
            let Ok(oneof) = u32::try_from(number) else {
                return Err(Fail::new("no such number"));
            };
            match oneof_at(alloc, message.view(), place, KEYS, oneof) {
                Ok(member) => are_numbers(&[member], said),
                Err(miss) => is_miss(miss, said),
            }
        }
        "unknown" => match unknown_at(alloc, message.view(), place, KEYS) {
            Ok(bytes) => Ok(bytes.as_slice() == hex::decode(alloc, said)?.as_slice()),
            Err(miss) => is_miss(miss, said),
        },
        _ => Err(Fail::new("no such question")),
    }
}

/// Whether a row holds.
pub(crate) fn is_right(alloc: Global, schema: &Schema, row: &str) -> Result<bool, Fail> {
    let (fields, rest) = row.split_once('|').ok_or("no question")?;
    let (words, said) = rest.split_once('|').ok_or("no answer")?;
    let (question, rest) = words.trim().split_once(' ').ok_or("no number")?;
    let (number, place) = rest.split_once(' ').unwrap_or((rest, ""));
    let number: usize = number.parse().map_err(|_| "no number")?;
    let message = schema.made(alloc, body_of(alloc, fields.trim())?)?;
    let place = place_of(alloc, place)?;
    is_answered(alloc, &message, question, number, &place, said.trim())
}
