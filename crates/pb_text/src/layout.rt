//! The digits of a float laid out as C's `%g` does, which is what libprotobuf prints. No contract says that
//! they are: the caller reads the text back, and takes the digits as they came if it is not the same float.

use crate::numbers::digits_end;
use arrayvec::ArrayVec;

/// The digits of a float, its sign, point and exponent, and zeros.
pub(crate) type Text = ArrayVec<u8, 64>;

/// How many digits before the point are written without an exponent: of a float with at most `few` digits,
/// and of one with more.
#[derive(Clone, Copy)]
pub(crate) struct Precision {
    few: usize,
    most: usize,
}

/// Six digits of a `float` are always kept, and nine always say which it is.
pub(crate) const FLOAT: Precision = Precision { few: 6, most: 9 };

/// As `FLOAT`, of a `double`.
pub(crate) const DOUBLE: Precision = Precision { few: 15, most: 17 };

/// More zeros after the point are not written.
const LEADING_ZEROS: i64 = 3;

/// The text of a number, given in any layout.
pub(crate) fn laid_out(number: &[u8], precision: Precision) -> Option<Text> {
    let mut text = Text::new();
    let size = match number.strip_prefix(b"-") {
        Some(size) => {
            text.try_push(b'-').ok()?;
            size
        }
        None => number,
    };
    let (all, point) = digits_and_point(size)?;
    let zeros = zeros_before(&all);
    let digits = all.get(zeros..end_of_digits(&all)).unwrap_or(&[]);
    if digits.is_empty() {
        text.try_push(b'0').ok()?;
    } else {
        let point = point.checked_sub(i64::try_from(zeros).ok()?)?;
        push_digits(&mut text, digits, point, precision)?;
    }
    Some(text)
}

/// All digits of a number without a sign, and how many of them come before the point.
fn digits_and_point(size: &[u8]) -> Option<(Text, i64)> {
    let (whole, rest) = size.split_at(digits_end(size));
    let mut digits = Text::new();
    digits.try_extend_from_slice(whole).ok()?;
    let after = match rest.strip_prefix(b".") {
        Some(rest) => {
            let (fraction, after) = rest.split_at(digits_end(rest));
            digits.try_extend_from_slice(fraction).ok()?;
            after
        }
        None => rest,
    };
    let point = i64::try_from(whole.len()).ok()?;
    Some((digits, point.checked_add(exponent_of(after)?)?))
}

/// The number after an `e`, or 0 if there is none.
fn exponent_of(bytes: &[u8]) -> Option<i64> {
    match bytes.strip_prefix(b"e") {
        Some(exponent) => fast_float::parse_i64(exponent).ok(),
        None => Some(0),
    }
}

/// How many zeros come before the other digits.
fn zeros_before(digits: &[u8]) -> usize {
    let mut count: usize = 0;
    for digit in digits {
        if *digit != b'0' {
            return count;
        }
        count = count.saturating_add(1);
    }
    count
}

/// Where the last digit that is not 0 ends.
fn end_of_digits(digits: &[u8]) -> usize {
    let mut end: usize = 0;
    let mut count: usize = 0;
    for digit in digits {
        count = count.saturating_add(1);
        if *digit != b'0' {
            end = count;
        }
    }
    end
}

/// The digits with a point, zeros and an exponent, as they need them.
fn push_digits(text: &mut Text, digits: &[u8], point: i64, precision: Precision) -> Option<()> {
    let most = if digits.len() <= precision.few {
        precision.few
    } else {
        precision.most
    };
    if point < -LEADING_ZEROS || point > i64::try_from(most).ok()? {
        push_with_exponent(text, digits, point.checked_sub(1)?)
    } else if point <= 0 {
        push_below_one(text, digits, usize::try_from(point.unsigned_abs()).ok()?)
    } else {
        push_from_one(text, digits, usize::try_from(point).ok()?)
    }
}

/// A digit, the others after a point, and the exponent in two digits or three.
fn push_with_exponent(text: &mut Text, digits: &[u8], exponent: i64) -> Option<()> {
    let (first, others) = digits.split_first()?;
    text.try_push(*first).ok()?;
    if !others.is_empty() {
        text.try_push(b'.').ok()?;
        text.try_extend_from_slice(others).ok()?;
    }
    text.try_push(b'e').ok()?;
    text.try_push(if exponent < 0 { b'-' } else { b'+' }).ok()?;
    let size = u16::try_from(exponent.unsigned_abs()).ok()?;
    if size >= 100 {
        text.try_push(b'0' + (size / 100 % 10) as u8).ok()?;
    }
    text.try_push(b'0' + (size / 10 % 10) as u8).ok()?;
    text.try_push(b'0' + (size % 10) as u8).ok()
}

/// All digits after the point, and zeros between.
fn push_below_one(text: &mut Text, digits: &[u8], zeros: usize) -> Option<()> {
    text.try_extend_from_slice(b"0.").ok()?;
    push_zeros(text, zeros)?;
    text.try_extend_from_slice(digits).ok()
}

/// This many digits before the point, zeros in place of those that are missing.
fn push_from_one(text: &mut Text, digits: &[u8], point: usize) -> Option<()> {
    if digits.len() <= point {
        text.try_extend_from_slice(digits).ok()?;
        return push_zeros(text, point - digits.len());
    }
    text.try_extend_from_slice(&digits[..point]).ok()?;
    text.try_push(b'.').ok()?;
    text.try_extend_from_slice(&digits[point..]).ok()
}

fn push_zeros(text: &mut Text, count: usize) -> Option<()> {
    for _zero in 0..count {
        text.try_push(b'0').ok()?;
    }
    Some(())
}
