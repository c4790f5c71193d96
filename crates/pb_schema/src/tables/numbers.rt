//! Fields by their numbers.

ghost use Rattle.std.specs.Prelude.{◌≡◌, ◌<◌, ◌≤◌, ◌+◌, ◌*◌, ℕ, length, IfOk, IfSome, IfNone, Contains, map, option_map};
ghost use Rattle.std.specs.List.Sorted.{IsNonDecreasingBy};
ghost use Rattle.pb_schema.specs.View.{field_view, message_view};
ghost use Rattle.pb_schema.specs.Names.{AllDiffer};
ghost use Rattle.pb_schema.specs.Tables.{IsNumberTable, AreNumberTables};
ghost use Rattle.pb_schema.specs.Types.{field_numbered};

use crate::types::{Field, MessageType};
use std::alloc::{AllocError, Global};

/// Up to how many numbers a field there are guesses, so that their memory follows what is declared.
const NUMBERS_A_FIELD: usize = 8;

/// The fields of a message by their numbers.
#[derive(Debug, Drop)]
pub(crate) struct NumberTable {
    /// The numbers in rising order, each with its field's index.
    rising: Vec<(u32, usize)>,
    /// By number the index at which its field may be. The field there is checked before it is used.
    guesses: Vec<usize>,
}

fn rising_numbers(alloc: Global, fields: &[Field]) -> Result<Vec<(u32, usize)>, AllocError>
    ensures { IfOk result (λ table. IsNumberTable (map field_view fields.now) table.items) }
{
    let mut table = Vec::new(alloc);
    for index in 0..fields.len() {
        table.push((fields[index].number, index))?;
    }
    table.sort_unstable_by_key(|entry| entry.0);
    Ok(table)
}

/// Notes the index of the field of a number.
fn note_place(guesses: &mut Vec<usize>, number: u32, index: usize) -> Result<(), AllocError>
    ensures longest { (most : ℕ) → number < most → length guesses.old.items ≤ most → length guesses.new.items ≤ most }
{
    let number = number as usize;
    if guesses.len() <= number {
        guesses.resize(number + 1, 0)?;
    }
    if let Some(guess) = guesses.get_mut(number) {
        *guess = index;
    }
    Ok(())
}

/// The indexes of the fields of small numbers. Where the numbers are 1, 2, 3 and so on there is nothing to note.
fn places_guessed(alloc: Global, fields: &[Field]) -> Result<Vec<usize>, AllocError>
    ensures few { IfOk result (λ guesses. length guesses.items ≤ 8 * length fields.now + 1) }
{
    let largest = fields.len().saturating_mul(NUMBERS_A_FIELD);
    let mut guesses = Vec::new(alloc);
    for (index, field) in fields.iter().enumerate() {
        let number = field.number as usize;
        if number != index + 1 && number <= largest {
            note_place(&mut guesses, field.number, index)?;
        }
    }
    Ok(guesses)
}

fn number_table(alloc: Global, fields: &[Field]) -> Result<NumberTable, AllocError>
    ensures rising { IfOk result (λ table. IsNumberTable (map field_view fields.now) table.rising.items) }
    ensures few { IfOk result (λ table. length table.guesses.items ≤ 8 * length fields.now + 1) }
{
    let rising = rising_numbers(alloc, fields)?;
    let guesses = places_guessed(alloc, fields)?;
    Ok(NumberTable { rising, guesses })
}

/// A table for each message.
pub(crate) fn number_tables(
    alloc: Global,
    messages: &[MessageType],
) -> Result<Vec<NumberTable>, AllocError>
    ensures { IfOk result (λ tables. AreNumberTables (map message_view messages.now) tables.items) }
{
    let mut tables = Vec::new(alloc);
    for message in messages {
        let table = number_table(alloc, &message.fields)?;
        tables.push(table)?;
    }
    Ok(tables)
}

/// The index of the field of a number. Most numbers that no field has are larger than those that fields have.
#[inline(never)]
fn place_of(table: &[(u32, usize)], number: u32) -> Option<usize>
    requires { IsNonDecreasingBy (λ e. e.0) table.now }
    ensures found { IfSome result (λ i. Contains table.now (number, i)) }
    ensures none { IfNone result ((i : ℕ) → ¬ Contains table.now (number, i)) }
{
    if !table.is_empty() && table[table.len() - 1].0 < number {
        return None;
    }
    match table.binary_search_by_key(&number, |entry| entry.0) {
        Ok(at) => Some(table[at].1),
        Err(_) => None,
    }
}

/// The field of a number: at its place where the numbers are 1, 2, 3 and so on, else where it is guessed, else by the table.
#[inline(always)]
pub(crate) fn field_at<'a>(
    fields: &'a [Field],
    table: &NumberTable,
    number: u32,
) -> Option<&'a Field>
    requires table { IsNumberTable (map field_view fields.now) table.now.rising.items }
    requires differ { AllDiffer (map (λ f. f.number) (map field_view fields.now)) }
    ensures { option_map (λ f. field_view f.now) result ≡ field_numbered number (map field_view fields.now) }
{
    if let Some(index) = (number as usize).checked_sub(1)
        && let Some(field) = fields.get(index)
        && field.number == number
    {
        return Some(field);
    }
    if let Some(guess) = table.guesses.get(number as usize)
        && let Some(field) = fields.get(*guess)
        && field.number == number
    {
        return Some(field);
    }
    match place_of(&table.rising, number) {
        Some(index) => fields.get(index),
        None => None,
    }
}
