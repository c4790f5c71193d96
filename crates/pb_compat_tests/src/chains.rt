//! Chains and circles of types: each pair is compared once, and the stack stays bounded.

use super::fields::{compare_first, file_of, message_of};
use pb_compat::{
    ComparedTypes, Severity, compare_all, compare_all_within, compare_within, namesake,
};
use pb_schema::{Field, Kind, MessageId, Pool, Shape};
use std::alloc::Global;
use std::test::Fail;

pub(crate) fn field(
    alloc: Global,
    name: &str,
    number: u32,
    kind: Kind,
    shape: Shape,
) -> Result<Field, Fail> {
    Ok(Field {
        name: String::from_str(alloc, name)?,
        number,
        kind,
        shape,
    })
}

/// Types, each with a number of a kind and the next type in its field 2. The last one has the first in it.
fn chain(alloc: Global, length: usize, kind: Kind) -> Result<Pool, Fail> {
    let mut messages = Vec::new(alloc);
    for index in 0..length {
        let next = if index.saturating_add(1) == length {
            0
        } else {
            index.saturating_add(1)
        };
        let x = field(alloc, "x", 1, kind, Shape::Implicit)?;
        let t = field(
            alloc,
            "t",
            2,
            Kind::Message(MessageId(next)),
            Shape::Explicit,
        )?;
        let name = format!(in alloc; "T{index}")?;
        messages.push(message_of(alloc, name.as_str(), vec![in alloc; x, t]?)?)?;
    }
    let files = vec![in alloc; file_of(alloc, false)?]?;
    Ok(Pool::from_parts(alloc, files, messages, Vec::new(alloc))?)
}

/// Whether a pair of a chain was reached by field 2 of the one before, and has its one difference.
fn is_link(index: usize, types: &ComparedTypes) -> bool {
    let reached = match types.reached_by {
        None => index == 0,
        Some(step) => step.from.saturating_add(1) == index && step.field == 2,
    };
    let reported = match types.differences.as_slice() {
        [difference] => { difference.number == 1 && difference.severity == Severity::BreaksReading }
        _ => false,
    };
    reached && reported && types.old == MessageId(index) && types.new == MessageId(index)
}

fn are_links(compared: &[ComparedTypes]) -> bool {
    for (index, types) in compared.iter().enumerate() {
        if !is_link(index, types) {
            return false;
        }
    }
    true
}

fn is_compared(alloc: Global, old: &Pool, new: &Pool, length: usize) -> Result<bool, Fail> {
    let compared = compare_first(alloc, old, new)?;
    Ok(compared.len() == length && are_links(&compared))
}

/// Whether each pair of a chain is compared once.
fn goes_along(alloc: Global, length: usize) -> Result<bool, Fail> {
    let old = chain(alloc, length, Kind::Int64)?;
    let new = chain(alloc, length, Kind::Int32)?;
    is_compared(alloc, &old, &new, length)
}

#[test]
fn chains(rt: HostRuntime) -> Result<(), Fail> {
    assert!(rt; goes_along(rt.alloc(), 1)? && goes_along(rt.alloc(), 10_000)?);
    Ok(())
}

fn count_pairs(alloc: Global, old: &Pool, new: &Pool) -> Result<usize, Fail> {
    let compared = compare_first(alloc, old, new)?;
    Ok(compared.len())
}

/// How many pairs a circle of two types and one of three have.
fn pairs_of_circles(alloc: Global) -> Result<usize, Fail> {
    let old = chain(alloc, 2, Kind::Int32)?;
    let new = chain(alloc, 3, Kind::Int32)?;
    count_pairs(alloc, &old, &new)
}

#[test]
fn circles(rt: HostRuntime) -> Result<(), Fail> {
    let pairs = pairs_of_circles(rt.alloc())?;
    assert!(rt; pairs == 6);
    Ok(())
}

/// The pairs of a circle of two types and one of three, from those of the same names on.
const PAIRS: &[(usize, usize)] = &[(0, 0), (1, 1), (0, 2), (1, 0), (0, 1), (1, 2)];

fn are_pairs(compared: &[ComparedTypes], pairs: &[(usize, usize)]) -> bool {
    compared.len() == pairs.len()
        && compared
            .iter()
            .zip(pairs.iter())
            .all(|(types, pair)| (types.old.0, types.new.0) == *pair)
}

/// Whether all types are compared with those of the same names, of which the third has none in the other circle.
fn goes_by_names(alloc: Global, two: &Pool, three: &Pool) -> Result<bool, Fail> {
    let compared = compare_all(alloc, two, three)?;
    Ok(
        are_pairs(&compared, PAIRS)
            && namesake(two, MessageId(1), three) == Some(MessageId(1))
            && namesake(three, MessageId(2), two).is_none()
            && namesake(three, MessageId(3), two).is_none(),
    )
}

fn by_names(alloc: Global) -> Result<bool, Fail> {
    let two = chain(alloc, 2, Kind::Int32)?;
    let three = chain(alloc, 3, Kind::Int32)?;
    goes_by_names(alloc, &two, &three)
}

#[test]
fn names(rt: HostRuntime) -> Result<(), Fail> {
    assert!(rt; by_names(rt.alloc())?);
    Ok(())
}

/// Whether the six pairs of both circles are compared where six may be reached, and none where five may.
fn goes_within(alloc: Global, two: &Pool, three: &Pool) -> Result<bool, Fail> {
    let six = compare_all_within(alloc, two, three, 6)?;
    let five = compare_all_within(alloc, two, three, 5)?;
    Ok(is_some_of(six.as_ref(), PAIRS) && five.is_none())
}

fn is_some_of(compared: Option<&Vec<ComparedTypes>>, pairs: &[(usize, usize)]) -> bool {
    match compared {
        Some(compared) => are_pairs(compared, pairs),
        None => false,
    }
}

/// The same of the six pairs that are reached from the first types.
fn goes_within_from(alloc: Global, two: &Pool, three: &Pool) -> Result<bool, Fail> {
    if two.messages().is_empty() || three.messages().is_empty() {
        return Ok(false);
    }
    let first = MessageId(0);
    let six = compare_within(alloc, two, three, (first, first), 6)?;
    let five = compare_within(alloc, two, three, (first, first), 5)?;
    Ok(is_some_of(six.as_ref(), PAIRS) && five.is_none())
}

fn within(alloc: Global) -> Result<bool, Fail> {
    let two = chain(alloc, 2, Kind::Int32)?;
    let three = chain(alloc, 3, Kind::Int32)?;
    Ok(goes_within(alloc, &two, &three)? && goes_within_from(alloc, &two, &three)?)
}

#[test]
fn bounds(rt: HostRuntime) -> Result<(), Fail> {
    assert!(rt; within(rt.alloc())?);
    Ok(())
}
