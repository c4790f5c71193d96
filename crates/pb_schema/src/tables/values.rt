//! Enums by the numbers of their values.

ghost use Rattle.std.specs.Prelude.{◌≡◌, ◌≤◌, ◌*◌, ◌⊎◌, ◌-ℤ◌, IsTrue, IfOk, OnOk, IfSome, MatchOption, List, length, ℕ, ℤ, pos, true, map, set, option_map};
ghost use Rattle.std.specs.List.{list_any};
ghost use Rattle.std.specs.Ordering.{int_eq};
ghost use Rattle.pb_schema.specs.EnumValues.{value_name};
ghost use Rattle.pb_schema.specs.View.{enum_view, values_view};
ghost use Rattle.pb_schema.specs.Tables.{AreFirstsOf, AreMarksOf, IsValueTable, AreValueTables, IsNoted};

use crate::types::EnumType;
use std::alloc::{AllocError, Global};
use std::collections::BTreeMap;

/// How many marks there are at most for each value, so that their memory follows what is declared.
const MARKS_A_VALUE: usize = 16;

/// The values of an enum by their numbers. Sorted, and not hashed, so that nobody can pick numbers that make
/// look-ups slow.
#[derive(Debug, Drop)]
pub(crate) struct ValueTable {
    /// Of each number the index of the first value that has it.
    pub(crate) firsts: BTreeMap<i32, usize>,
    pub(crate) least: i32,
    /// At each distance from the least number, whether the number there is known to be declared: found
    /// without a search.
    pub(crate) marks: Vec<bool>,
}

/// Notes the index of a value, where no value before it has its number.
fn note_first(
    firsts: &mut BTreeMap<i32, usize>,
    number: i32,
    index: usize,
) -> Result<(), AllocError>
    ensures { OnOk result (IsNoted firsts.old firsts.new number index) }
{
    if !firsts.contains_key(&number) {
        firsts.insert(number, index)?;
    }
    Ok(())
}

fn first_places(alloc: Global, values: &[(String, i32)]) -> Result<BTreeMap<i32, usize>, AllocError>
    ensures { IfOk result (λ firsts. AreFirstsOf (values_view values.now) firsts) }
{
    let mut firsts = BTreeMap::new(alloc);
    for (index, value) in values.iter().enumerate() {
        note_first(&mut firsts, value.1, index)?;
    }
    Ok(firsts)
}

/// The least number of values and of one more, and how far the greatest is from it.
fn extent(values: &[(String, i32)], first: i32) -> (i32, u32) {
    let mut least = first;
    let mut greatest = first;
    for value in values {
        least = least.min(value.1);
        greatest = greatest.max(value.1);
    }
    (least, greatest.abs_diff(least))
}

/// How far a number is from the least one, where it is not below.
fn distance(least: i32, number: i32) -> Option<usize>
    ensures { IfSome result (λ d. number -ℤ least ≡ pos d) }
{
    usize::try_from(i64::from(number) - i64::from(least)).ok()
}

fn mark(marks: &mut Vec<bool>, distance: Option<usize>)
    ensures { MatchOption distance (marks.new.items ≡ marks.old.items)
        (λ d. (marks.new.items ≡ marks.old.items) ⊎ (marks.new.items ≡ set marks.old.items d true)) }
{
    if let Some(distance) = distance
        && distance < marks.len()
    {
        marks[distance] = true;
    }
}

/// This many marks from the least number, of these values.
fn marks_of(
    alloc: Global,
    values: &[(String, i32)],
    least: i32,
    count: usize,
) -> Result<Vec<bool>, AllocError>
    ensures marks { IfOk result (λ marks. AreMarksOf (values_view values.now) least marks.items) }
    ensures count { IfOk result (λ marks. length marks.items ≡ count) }
{
    let mut marks = vec![in alloc; false; count]?;
    for value in values {
        mark(&mut marks, distance(least, value.1));
    }
    Ok(marks)
}

fn value_table(alloc: Global, values: &[(String, i32)]) -> Result<ValueTable, AllocError>
    ensures table { IfOk result (λ table. IsValueTable (values_view values.now) table) }
    ensures few { IfOk result (λ table. length table.marks.items ≤ 16 * length values.now) }
{
    let first = values.first().map_or(0, |value| value.1);
    let (least, extent) = extent(values, first);
    let most = values.len().saturating_mul(MARKS_A_VALUE);
    Ok(ValueTable {
        firsts: first_places(alloc, values)?,
        least,
        marks: marks_of(alloc, values, least, most.min(extent as usize + 1))?,
    })
}

/// A table for each enum.
pub(crate) fn value_tables(alloc: Global, enums: &[EnumType]) -> Result<Vec<ValueTable>, AllocError>
    ensures { IfOk result (λ tables. AreValueTables (map enum_view enums.now) tables.items) }
{
    let mut tables = Vec::new(alloc);
    for entry in enums {
        let table = value_table(alloc, &entry.values)?;
        tables.push(table)?;
    }
    Ok(tables)
}

/// Whether a number has a mark.
#[inline(always)]
fn is_marked(table: &ValueTable, number: i32) -> bool
    ensures { (vs : List (List ℕ × ℤ)) → AreMarksOf vs table.now.least table.now.marks.items → IsTrue result → IsTrue (list_any (λ v. int_eq v.1 number) vs) }
{
    let Some(distance) = distance(table.least, number) else {
        return false;
    };
    match table.marks.get(distance) {
        Some(marked) => *marked,
        None => false,
    }
}

/// Whether a number is that of a value: it has a mark, or else a search finds it.
#[inline(always)]
pub(crate) fn has_number(table: &ValueTable, number: i32) -> bool
    ensures { (vs : List (List ℕ × ℤ)) → IsValueTable vs table.now → result ≡ list_any (λ v. int_eq v.1 number) vs }
{
    is_marked(table, number) || table.firsts.contains_key(&number)
}

/// The name of the first value with this number.
pub(crate) fn first_named<'a>(
    values: &'a [(String, i32)],
    table: &ValueTable,
    number: i32,
) -> Option<&'a str>
    requires { IsValueTable (values_view values.now) table.now }
    ensures { option_map (λ s. s.now) result ≡ value_name number (values_view values.now) }
{
    match table.firsts.get(&number) {
        Some(first) => match values.get(*first) {
            Some(value) => Some(value.0.as_str()),
            None => None,
        },
        None => None,
    }
}
