//! What is reserved.

ghost use Rattle.std.specs.Prelude.{◌≡◌, ◌≤◌, ◌<◌, ℕ, length, map, codes, string_bytes, pos, IfOk};
ghost use Rattle.pb_source_tokens.specs.Phrases.{end_behind};
ghost use Rattle.pb_source_tokens.specs.Readers.Forms.{before, preceded, mark_reader};
ghost use Rattle.pb_source_tokens.specs.Readers.Phrases.{listed, utf8_reader};
ghost use Rattle.pb_source_tokens.specs.RangeView.{HasSign, bound_within, end_within, greatest_within, last_reader, range_within};
ghost use Rattle.pb_source_tokens.specs.Readers.Given.{Reads, ReadsInSteps};

use crate::parsing::numbers::{counted, signed};
use crate::parsing::single::{begins_with, begins_with_mark, keyword, mark, utf8_text};
use crate::refusal::Refusal;
use crate::symbol::Placed;
use std::alloc::Global;

/// Where a range is declared: in a message an end comes after its range, in an enum it is in it.
#[derive(Clone, Copy, PartialEq, Eq)]
pub enum Within {
    Message,
    Enum,
}

/// The end of a range up to this bound.
fn end_behind(within: Within, bound: i32) -> i32
    requires { HasSign within bound }
    ensures { result ≡ end_within within bound }
{
    match within {
        Within::Message => next_bound(bound),
        Within::Enum => bound,
    }
}

/// The bound after this one, where there is one.
fn next_bound(bound: i32) -> i32
    requires { (n : ℕ) × (bound ≡ pos n) }
    ensures { result ≡ end_behind bound }
{
    if bound < i32::MAX { bound + 1 } else { bound }
}

/// The end of a range up to `max`.
fn greatest_end(within: Within) -> i32
    ensures { result ≡ greatest_within within }
{
    match within {
        Within::Message => 536870912,
        Within::Enum => 2147483647,
    }
}

/// Reads a bound.
fn bound(within: Within, symbols: &[Placed], at: usize) -> Result<(i32, usize), Refusal>
    ensures within { IfOk result (λ x. (at < x.1) × (x.1 ≤ length symbols.now)) }
    ensures sign { IfOk result (λ x. HasSign within x.0) }
    ensures read { Reads symbols.now at (λ x. x) result (bound_within within) }
{
    match within {
        Within::Message => {
            let (bound, after) = counted(symbols, at)?;
            Ok((bound as i32, after))
        }
        Within::Enum => {
            let (bound, after) = signed(symbols, at)?;
            Ok((bound, after))
        }
    }
}

/// Reads the last bound of a range, and gives the range's end.
fn last_bound(within: Within, symbols: &[Placed], at: usize) -> Result<(i32, usize), Refusal>
    ensures within { IfOk result (λ x. (at < x.1) × (x.1 ≤ length symbols.now)) }
    ensures read { Reads symbols.now at (λ x. x) result (last_reader within) }
{
    if begins_with("max", symbols, at) {
        let after = keyword("max", symbols, at)?;
        return Ok((greatest_end(within), after));
    }
    let (last, after) = bound(within, symbols, at)?;
    Ok((end_behind(within, last), after))
}

/// Reads a range: its start and its end.
#[tactic(auto, unfolding(crate::specs::Readers::Phrases::range_reader))]
fn range(within: Within, symbols: &[Placed], at: usize) -> Result<((i32, i32), usize), Refusal>
    ensures within { IfOk result (λ x. (at < x.1) × (x.1 ≤ length symbols.now)) }
    ensures read { Reads symbols.now at (λ x. x) result (range_within within) }
{
    let (start, after) = bound(within, symbols, at)?;
    if begins_with("to", symbols, after) {
        let after = keyword("to", symbols, after)?;
        let (end, after) = last_bound(within, symbols, after)?;
        return Ok(((start, end), after));
    }
    Ok(((start, end_behind(within, start)), after))
}

/// Reads a comma, and a range.
fn next_range(within: Within, symbols: &[Placed], at: usize) -> Result<((i32, i32), usize), Refusal>
    ensures within { IfOk result (λ x. (at < x.1) × (x.1 ≤ length symbols.now)) }
    ensures read { Reads symbols.now at (λ x. x) result (preceded (mark_reader (codes ",")) (range_within within)) }
{
    let after = mark(",", symbols, at)?;
    let (range, after) = range(within, symbols, after)?;
    Ok((range, after))
}

/// Reads ranges with commas between, as `ranges_line` does up to its `;`.
pub fn ranges(
    alloc: Global,
    within: Within,
    symbols: &[Placed],
    at: usize,
) -> Result<(Vec<(i32, i32)>, usize), Refusal>
    ensures within { IfOk result (λ x. (at < x.1) × (x.1 ≤ length symbols.now)) }
    ensures read { ReadsInSteps symbols.now at (λ x. (x.0.items, x.1)) result (λ n. listed n (range_within within)) }
{
    let (first, after) = range(within, symbols, at)?;
    let mut ranges = Vec::new(alloc);
    ranges.push(first)?;
    let mut here = after;
    while begins_with_mark(",", symbols, here) {
        let (range, after) = next_range(within, symbols, here)?;
        ranges.push(range)?;
        here = after;
    }
    Ok((ranges, here))
}

/// Reads ranges with commas between, and `;`, and gives the start and the end of each: in a message the end is after its range, in an
/// enum in it. Where a bound does not fit 32 bits, `Rule::NumbersFit` is broken.
pub fn ranges_line(
    alloc: Global,
    within: Within,
    symbols: &[Placed],
    at: usize,
) -> Result<(Vec<(i32, i32)>, usize), Refusal>
    ensures within { IfOk result (λ x. (at < x.1) × (x.1 ≤ length symbols.now)) }
    ensures read { ReadsInSteps symbols.now at (λ x. (x.0.items, x.1)) result (λ n. before (listed n (range_within within)) (mark_reader (codes ";"))) }
{
    let (ranges, after) = ranges(alloc, within, symbols, at)?;
    let after = mark(";", symbols, after)?;
    Ok((ranges, after))
}

/// Reads a text that is UTF-8, as one of its own.
fn owned_text(alloc: Global, symbols: &[Placed], at: usize) -> Result<(String, usize), Refusal>
    ensures within { IfOk result (λ x. (at < x.1) × (x.1 ≤ length symbols.now)) }
    ensures read { Reads symbols.now at (λ x. (string_bytes x.0, x.1)) result utf8_reader }
{
    let (text, after) = utf8_text(symbols, at)?;
    let owned = String::from_str(alloc, text)?;
    Ok((owned, after))
}

/// Reads a comma, and a text.
fn next_text(alloc: Global, symbols: &[Placed], at: usize) -> Result<(String, usize), Refusal>
    ensures within { IfOk result (λ x. (at < x.1) × (x.1 ≤ length symbols.now)) }
    ensures read { Reads symbols.now at (λ x. (string_bytes x.0, x.1)) result (preceded (mark_reader (codes ",")) utf8_reader) }
{
    let after = mark(",", symbols, at)?;
    let (text, after) = owned_text(alloc, symbols, after)?;
    Ok((text, after))
}

/// Reads texts with commas between.
fn texts(alloc: Global, symbols: &[Placed], at: usize) -> Result<(Vec<String>, usize), Refusal>
    ensures within { IfOk result (λ x. (at < x.1) × (x.1 ≤ length symbols.now)) }
    ensures read { ReadsInSteps symbols.now at (λ x. (map string_bytes x.0.items, x.1)) result (λ n. listed n utf8_reader) }
{
    let (first, after) = owned_text(alloc, symbols, at)?;
    let mut texts = Vec::new(alloc);
    texts.push(first)?;
    let mut here = after;
    while begins_with_mark(",", symbols, here) {
        let (text, after) = next_text(alloc, symbols, here)?;
        texts.push(text)?;
        here = after;
    }
    Ok((texts, here))
}

/// Reads texts with commas between, and `;`, and gives what each means. Where one is no UTF-8, `Rule::TextsValid` is broken.
pub fn names_line(
    alloc: Global,
    symbols: &[Placed],
    at: usize,
) -> Result<(Vec<String>, usize), Refusal>
    ensures within { IfOk result (λ x. (at < x.1) × (x.1 ≤ length symbols.now)) }
    ensures read { ReadsInSteps symbols.now at (λ x. (map string_bytes x.0.items, x.1)) result (λ n. before (listed n utf8_reader) (mark_reader (codes ";"))) }
{
    let (texts, after) = texts(alloc, symbols, at)?;
    let after = mark(";", symbols, after)?;
    Ok((texts, after))
}
