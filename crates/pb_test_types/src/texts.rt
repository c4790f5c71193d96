//! Texts cut into words, and the numbers that they write.

ghost use Rattle.std.specs.Prelude.{◌≡◌, ◌∷◌, ◌<◌, length, option_map, Some, None, IfOk, IfErr, IfSome};
ghost use Rattle.hex.specs.Hex.{decode_of};
ghost use Rattle.std.specs.Result.{result_ok};
ghost use Rattle.pb_test_types.specs.Texts.{lettered, halves, parts, natural, integer, rest_parts};
ghost use Rattle.pb_test_types.specs.declared.error.WordError.TheVariants.{NoMeaning};

use crate::error::WordError;
use hex::FromHexError;
use std::alloc::Global;

/// The letter that a word begins with, and what follows it.
pub(crate) fn letter_of(word: &str) -> Result<(u8, &str), WordError>
    ensures value { IfOk result (λ x. lettered word.now ≡ Some (x.0, x.1.now)) }
    ensures refused { IfErr result (λ e. lettered word.now ≡ None) }
{
    if word.is_empty() {
        return Err(WordError::NoMeaning);
    }
    let letter = word.as_bytes()[0];
    if letter >= 128 {
        return Err(WordError::NoMeaning);
    }
    Ok((letter, &word[1..]))
}

/// The parts before and after the first separator.
pub(crate) fn halves(word: &str, separator: char) -> Result<(&str, &str), WordError>
    requires { separator < 128 }
    ensures value { IfOk result (λ x. halves separator word.now ≡ Some (x.0.now, x.1.now)) }
    ensures refused { IfErr result (λ e. halves separator word.now ≡ None) }
{
    match word.split_once(separator) {
        Some(cut) => Ok(cut),
        None => Err(WordError::NoMeaning),
    }
}

/// The first word of a row, and the row of the others if there are more.
pub(crate) fn head_of(row: &str, separator: char) -> (&str, Option<&str>)
    requires { separator < 128 }
    ensures words { parts separator row.now ≡ result.0.now ∷ rest_parts separator
        (option_map (λ x. x.now) result.1) }
    ensures shorter { IfSome result.1 (λ x. length x.now < length row.now) }
{
    match halves(row, separator) {
        Ok((word, more)) => (word, Some(more)),
        Err(_) => (row, None),
    }
}

pub(crate) fn u32_of(word: &str) -> Result<u32, WordError>
    ensures value { IfOk result (λ n. natural 32 word.now ≡ Some n) }
    ensures refused { IfErr result (λ e. natural 32 word.now ≡ None) }
{
    Ok(word.parse::<u32>()?)
}

pub(crate) fn u64_of(word: &str) -> Result<u64, WordError>
    ensures value { IfOk result (λ n. natural 64 word.now ≡ Some n) }
    ensures refused { IfErr result (λ e. natural 64 word.now ≡ None) }
{
    Ok(word.parse::<u64>()?)
}

pub(crate) fn i32_of(word: &str) -> Result<i32, WordError>
    ensures value { IfOk result (λ z. integer 32 word.now ≡ Some z) }
    ensures refused { IfErr result (λ e. integer 32 word.now ≡ None) }
{
    Ok(word.parse::<i32>()?)
}

pub(crate) fn i64_of(word: &str) -> Result<i64, WordError>
    ensures value { IfOk result (λ z. integer 64 word.now ≡ Some z) }
    ensures refused { IfErr result (λ e. integer 64 word.now ≡ None) }
{
    Ok(word.parse::<i64>()?)
}

/// Bytes by their digits.
pub(crate) fn bytes_of(alloc: Global, word: &str) -> Result<Vec<u8>, WordError>
    ensures value { IfOk result (λ v. result_ok (decode_of word.now) ≡ Some v.items) }
    ensures refused { IfErr result (λ e. e ≡ NoMeaning → result_ok (decode_of word.now) ≡ None) }
{
    match hex::decode(alloc, word) {
        Ok(bytes) => Ok(bytes),
        Err(FromHexError::OutOfMemory) => Err(WordError::Memory),
        Err(_) => Err(WordError::NoMeaning),
    }
}
