//! Names of several words.

ghost use Rattle.std.specs.Prelude.{◌≡◌, ◌≤◌, ◌<◌, ◌++◌, ◌∷◌, length, codes, string_bytes, IfOk, OnOk};
ghost use Rattle.pb_source_tokens.specs.Said.{joined};
ghost use Rattle.pb_source_tokens.specs.Readers.Forms.{preceded, mark_reader};
ghost use Rattle.pb_source_tokens.specs.Readers.Phrases.{name_reader, fullname_reader, typename_reader};
ghost use Rattle.pb_source_tokens.specs.PhraseView.{words_view};
ghost use Rattle.pb_source_tokens.specs.Readers.Given.{Reads, ReadsInSteps};

use crate::parsing::single::{begins_with_mark, mark, name};
use crate::refusal::Refusal;
use crate::symbol::Placed;
use std::alloc::{AllocError, Global};

/// Reads a dot, and a word.
fn next_word<'a>(symbols: &[Placed<'a>], at: usize) -> Result<(&'a str, usize), Refusal>
    ensures within { IfOk result (λ x. (at < x.1) × (x.1 ≤ length symbols.now)) }
    ensures read { Reads symbols.now at (λ x. (x.0.now, x.1)) result (preceded (mark_reader (codes ".")) name_reader) }
{
    let after = mark(".", symbols, at)?;
    let (word, after) = name(symbols, after)?;
    Ok((word, after))
}

/// Reads words with dots between, one at least, and gives them without the dots.
pub fn words<'a>(
    alloc: Global,
    symbols: &[Placed<'a>],
    at: usize,
) -> Result<(Vec<&'a str>, usize), Refusal>
    ensures within { IfOk result (λ x. (at < x.1) × (x.1 ≤ length symbols.now)) }
    ensures read { ReadsInSteps symbols.now at (λ x. (words_view x.0.items, x.1)) result fullname_reader }
{
    let (first, after) = name(symbols, at)?;
    let mut words = Vec::new(alloc);
    words.push(first)?;
    let mut here = after;
    while begins_with_mark(".", symbols, here) {
        let (word, after) = next_word(symbols, here)?;
        words.push(word)?;
        here = after;
    }
    Ok((words, here))
}

/// Appends words, joined by dots.
fn push_joined(into: &mut String, words: &[&str]) -> Result<(), AllocError>
    ensures { OnOk result (string_bytes into.new ≡ string_bytes into.old ++ joined (words_view words.now)) }
{
    if words.is_empty() {
        return Ok(());
    }
    into.push_str(words[0])?;
    for i in 1..words.len() {
        into.push('.')?;
        into.push_str(words[i])?;
    }
    Ok(())
}

/// Words joined by dots; empty where there is none.
pub fn joined(alloc: Global, words: &[&str]) -> Result<String, AllocError>
    ensures { IfOk result (λ t. string_bytes t ≡ joined (words_view words.now)) }
{
    let mut text = String::new(alloc);
    push_joined(&mut text, words)?;
    Ok(text)
}

/// Words joined by dots, after a dot.
pub(crate) fn joined_behind_dot(alloc: Global, words: &[&str]) -> Result<String, AllocError>
    ensures { IfOk result (λ t. string_bytes t ≡ 46 ∷ joined (words_view words.now)) }
{
    let mut text = String::new(alloc);
    text.push('.')?;
    push_joined(&mut text, words)?;
    Ok(text)
}

/// Reads the name of a type, as it is written: with a dot at its front, if there is one.
#[tactic(auto, unfolding(crate::specs::Readers::Phrases::typename_reader))]
pub fn typename(alloc: Global, symbols: &[Placed], at: usize) -> Result<(String, usize), Refusal>
    ensures within { IfOk result (λ x. (at < x.1) × (x.1 ≤ length symbols.now)) }
    ensures read { ReadsInSteps symbols.now at (λ x. (string_bytes x.0, x.1)) result typename_reader }
{
    if begins_with_mark(".", symbols, at) {
        let after = mark(".", symbols, at)?;
        let (words, after) = words(alloc, symbols, after)?;
        let name = joined_behind_dot(alloc, words.as_slice())?;
        return Ok((name, after));
    }
    let (words, after) = words(alloc, symbols, at)?;
    let name = joined(alloc, words.as_slice())?;
    Ok((name, after))
}
