//! What is asked of what messages have at places.

use super::places::place_of;
use super::schema::Schema;
use pb_place::{
    is_set, key_at, len_at, message_at, numbers_at, scalar_at, unknown_at, which_oneof_at,
};
use pb_test_types::{body_of, key_of, value_of};
use pb_value::DynamicMessage;
use std::alloc::Global;
use std::test::Fail;

/// A row: the fields of a message, a question with a number and a place, and its answer: a number, a value, a key, numbers, or none.
const ROWS: &str = "
6:[i4,i0] | len 0 f6 | 2
6:[i4,i0] | len 0 f6 #0 | none
9:{ta=i8,tk=i4} | len 0 f9 | 2
1:i5 | len 0 f6 | none
1:i5 | len 0 f1 | none
3:m1=i5 | len 0 f3 | none
19:[n0,m1=i8] | len 0 f19 | 2
9:{ta=i8,tk=i4} | key 0 f9 | ta
9:{ta=i8,tk=i4} | key 1 f9 | tk
9:{ta=i8,tk=i4} | key 2 f9 | none
12:{u9=n0,u8=n0,u10=n0} | key 0 f12 | u8
12:{u9=n0,u8=n0,u10=n0} | key 2 f12 | u10
6:[i4] | key 0 f6 | none
1:i5 2:tx 10:b0 | numbers 4 | 3 1 2 10 0
1:i5 2:tx 10:b0 | numbers 3 | 3 1 2 10
1:i5 2:tx 10:b0 | numbers 2 | 3 1 2
1:i5 2:tx 10:b0 | numbers 0 | 3
3:m1=i5;2=tx | numbers 1 f3 | 2 1
3:m1=i5;2=tx | numbers 2 f3 | 2 1 2
3:n0 | numbers 1 f3 | 0 0
1:i5 | numbers 1 f1 | none 0
1:i5 | numbers 1 f3 | none 0
7:u0 | oneof 0 | 7
8:n0 | oneof 0 | 8
1:i5 | oneof 0 | none
7:u0 | oneof 1 | none
3:m7=u1 | oneof 0 | none
3:m7=u1 | oneof 0 f3 | 7
3:m7=u1 | oneof 0 f8 | none
19:[m7=u1,n0] | oneof 0 f19 #0 | 7
19:[m7=u1,n0] | oneof 0 f19 #1 | none
1:i5 | scalar 0 f1 | i5
6:[i4,i0] | scalar 0 f6 #0 | i4
6:[i4,i0] | scalar 0 f6 | none
3:m1=i5 | scalar 0 f3 | none
3:m1=i5 | scalar 0 f3 f1 | i5
3:m1=i5 | message 0 f3 | 1:i5
3:m1=i5 | message 0 f3 f1 | none
1:i5 99~v7 | unknown 0 | 1
1:i5 | unknown 0 | 0
1:i5 | unknown 0 f3 | none
3:n0 | unknown 0 f3 | 0
1:i5 | set 0 f1 | yes
1:i5 | set 0 f2 | no
1:i5 | set 0 | yes
";

pub(crate) const TABLES: &[&str] = &[ROWS];

/// Whether a number or none is as a word says.
fn is_number(answer: Option<usize>, word: &str) -> Result<bool, Fail> {
    match answer {
        None => Ok(word == "none"),
        Some(number) => Ok(word.parse::<usize>().map_err(|_| "no number")? == number),
    }
}

/// Whether some numbers are as words say.
fn are_numbers(numbers: &[u32], words: &str) -> Result<bool, Fail> {
    let mut left = numbers;
    for word in words.split_whitespace() {
        let (first, rest) = left.split_first().ok_or("too few numbers")?;
        if word.parse::<u32>().map_err(|_| "no number")? != *first {
            return Ok(false);
        }
        left = rest;
    }
    Ok(left.is_empty())
}

fn are_written(
    alloc: Global,
    message: &DynamicMessage<'_>,
    place: &str,
    capacity: usize,
    said: &str,
) -> Result<bool, Fail> {
    let place = place_of(alloc, place)?;
    let mut buffer = vec![in alloc; 0u32; capacity]?;
    let count = numbers_at(message.view(), &place, &mut buffer);
    let (word, numbers) = said.split_once(' ').unwrap_or((said, ""));
    Ok(is_number(count, word)? && are_numbers(&buffer, numbers)?)
}

fn is_answered(
    alloc: Global,
    message: &DynamicMessage<'_>,
    question: &str,
    number: u32,
    place: &str,
    said: &str,
) -> Result<bool, Fail> {
    let steps = place_of(alloc, place)?;
    match question {
        "len" => is_number(len_at(message.view(), &steps), said),
        "key" => match key_at(message.view(), &steps, number as usize) {
            None => Ok(said == "none"),
            Some(key) => Ok(*key == key_of(alloc, said)?),
        },
        "scalar" => match scalar_at(message.view(), &steps) {
            None => Ok(said == "none"),
            Some(value) => Ok(*value == value_of(alloc, said)?),
        },
        "message" => match message_at(message.view(), &steps) {
            None => Ok(said == "none"),
            Some(found) => Ok(*found.body() == body_of(alloc, said)?),
        },
        "oneof" => is_number(
            which_oneof_at(message.view(), &steps, number).map(|member| member as usize),
            said,
        ),
        "unknown" => is_number(
            unknown_at(message.view(), &steps).map(|records| records.len()),
            said,
        ),
        "set" => Ok(is_set(message.view(), &steps) == (said == "yes")),
        "numbers" => are_written(alloc, message, place, number as usize, said),
        _ => Err(Fail::new("no such question")),
    }
}

/// Whether a row holds.
pub(crate) fn is_right(alloc: Global, schema: &Schema, row: &str) -> Result<bool, Fail> {
    let (fields, rest) = row.split_once('|').ok_or("no question")?;
    let (words, said) = rest.split_once('|').ok_or("no answer")?;
    let (question, rest) = words.trim().split_once(' ').ok_or("no number")?;
    let (number, place) = rest.split_once(' ').unwrap_or((rest, ""));
    let number: u32 = number.parse().map_err(|_| "no number")?;
    let message = schema.made(alloc, body_of(alloc, fields.trim())?)?;
    is_answered(alloc, &message, question, number, place, said.trim())
}
