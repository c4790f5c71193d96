//! Options.

ghost use Rattle.std.specs.Prelude.{◌≡◌, ◌≤◌, ◌<◌, length, codes, IfOk, None};
ghost use Rattle.pb_source_tokens.specs.Said.{last_said};
ghost use Rattle.pb_source_tokens.specs.Phrases.{is_the_name};
ghost use Rattle.pb_source_tokens.specs.declared.rule.Rule.TheVariants.{OptionsKnown};
ghost use Rattle.pb_source_tokens.specs.Readers.Forms.{preceded, before, mapped, symbol, plain, judged, mark_reader};
ghost use Rattle.pb_source_tokens.specs.Readers.Phrases.{part_in, truth_in, said_reader, listed, typename_reader, part_reader, optname_reader};
ghost use Rattle.pb_source_tokens.specs.Readers.Phrases.{plus_or_minus_reader, any_part_reader, plain_value_reader, any_value_reader};
ghost use Rattle.pb_source_tokens.specs.Readers.Phrases.{signed_value_reader, braced_value_reader, unquoted_reader, constant_reader};
ghost use Rattle.pb_source_tokens.specs.Readers.Phrases.{assignment_reader, option_reader, setting_reader, field_option_reader, ended_reader, field_end_reader};
ghost use Rattle.pb_source_tokens.specs.Readers.Phrases.{group_end_reader, value_end_reader};
ghost use Rattle.pb_source_tokens.specs.Readers.Phrases.{is_barred};
ghost use Rattle.pb_source_tokens.specs.SymbolView.{symbol_of};
ghost use Rattle.pb_source_tokens.specs.PhraseView.{words_view};
ghost use Rattle.pb_source_tokens.specs.Readers.Given.{Reads, ReadsInSteps};

use crate::grammar::{Grammar, Syntax};
use crate::parsing::aggregates::aggregate;
use crate::parsing::floats::numeral;
use crate::parsing::names::{typename, words};
use crate::parsing::numbers::integer;
use crate::parsing::single::{
    begins_with, begins_with_mark, begins_with_number, begins_with_text, begins_with_word, keyword,
    mark, name, symbol_at, text,
};
use crate::refusal::Refusal;
use crate::rule::Rule;
use crate::symbol::{Placed, Symbol, is_keyword};
use std::alloc::Global;

/// Reads a part of an option's name, of which none is in parentheses.
fn plain_part<'a>(symbols: &[Placed<'a>], at: usize) -> Result<(&'a str, usize), Refusal>
    ensures within { IfOk result (λ x. (at < x.1) × (x.1 ≤ length symbols.now)) }
    ensures read { Reads symbols.now at (λ x. (x.0.now, x.1)) result (symbol (judged OptionsKnown part_in)) }
{
    let Some(first) = symbol_at(symbols, at) else {
        return Err(Refusal::At { at, rule: None });
    };
    match &first.symbol {
        Symbol::Word(word) => Ok((word, at + 1)),
        Symbol::Sign(sign) if *sign == "(" => Err(Refusal::At {
            at,
            rule: Some(Rule::OptionsKnown),
        }),
        _ => Err(Refusal::At { at, rule: None }),
    }
}

/// Reads the name of an extension in its parentheses, of which the first is given.
fn extension_part<'a>(
    alloc: Global,
    symbols: &[Placed<'a>],
    at: usize,
) -> Result<(&'a str, usize), Refusal>
    ensures within { IfOk result (λ x. (at < x.1) × (x.1 ≤ length symbols.now)) }
    ensures read { ReadsInSteps symbols.now at (λ x. (x.0.now, x.1)) result
        (λ n. preceded (mark_reader (codes "(")) (before (mapped (λ _. codes "(") (typename_reader n)) (mark_reader (codes ")")))) }
{
    let after = mark("(", symbols, at)?;
    let (_, after) = typename(alloc, symbols, after)?;
    let after = mark(")", symbols, after)?;
    Ok(("(", after))
}

/// Reads a part of an option's name, which may be in parentheses.
fn any_part<'a>(
    alloc: Global,
    symbols: &[Placed<'a>],
    at: usize,
) -> Result<(&'a str, usize), Refusal>
    ensures within { IfOk result (λ x. (at < x.1) × (x.1 ≤ length symbols.now)) }
    ensures read { ReadsInSteps symbols.now at (λ x. (x.0.now, x.1)) result any_part_reader }
{
    if begins_with_mark("(", symbols, at) {
        let (word, after) = extension_part(alloc, symbols, at)?;
        return Ok((word, after));
    }
    let (word, after) = name(symbols, at)?;
    Ok((word, after))
}

/// Reads a part of an option's name.
#[tactic(auto, unfolding(crate::specs::Readers::Phrases::part_reader))]
fn part<'a>(
    alloc: Global,
    grammar: Grammar,
    symbols: &[Placed<'a>],
    at: usize,
) -> Result<(&'a str, usize), Refusal>
    ensures within { IfOk result (λ x. (at < x.1) × (x.1 ≤ length symbols.now)) }
    ensures read { ReadsInSteps symbols.now at (λ x. (x.0.now, x.1)) result (part_reader grammar) }
{
    match grammar {
        Grammar::Strict => {
            let (word, after) = plain_part(symbols, at)?;
            Ok((word, after))
        }
        Grammar::Lenient(_) => {
            let (word, after) = any_part(alloc, symbols, at)?;
            Ok((word, after))
        }
    }
}

/// Reads a dot, and a part of an option's name.
fn next_part<'a>(
    alloc: Global,
    grammar: Grammar,
    symbols: &[Placed<'a>],
    at: usize,
) -> Result<(&'a str, usize), Refusal>
    ensures within { IfOk result (λ x. (at < x.1) × (x.1 ≤ length symbols.now)) }
    ensures read { ReadsInSteps symbols.now at (λ x. (x.0.now, x.1)) result (λ n. preceded (mark_reader (codes ".")) (part_reader grammar n)) }
{
    let after = mark(".", symbols, at)?;
    let (word, after) = part(alloc, grammar, symbols, after)?;
    Ok((word, after))
}

/// Reads an option's name.
fn option_name<'a>(
    alloc: Global,
    grammar: Grammar,
    symbols: &[Placed<'a>],
    at: usize,
) -> Result<(Vec<&'a str>, usize), Refusal>
    ensures within { IfOk result (λ x. (at < x.1) × (x.1 ≤ length symbols.now)) }
    ensures read { ReadsInSteps symbols.now at (λ x. (words_view x.0.items, x.1)) result (optname_reader grammar) }
{
    let (first, after) = part(alloc, grammar, symbols, at)?;
    let mut parts = Vec::new(alloc);
    parts.push(first)?;
    let mut here = after;
    while begins_with_mark(".", symbols, here) {
        let (word, after) = next_part(alloc, grammar, symbols, here)?;
        parts.push(word)?;
        here = after;
    }
    Ok((parts, here))
}

/// Reads a `-` or `+`, if there is one.
#[tactic(auto, unfolding(crate::specs::Readers::Phrases::plus_or_minus_reader))]
fn plus_or_minus(symbols: &[Placed], at: usize) -> Result<usize, Refusal>
    ensures on { IfOk result (λ after. at ≤ after) }
    ensures read { Reads symbols.now at (λ after. (tt, after)) result plus_or_minus_reader }
{
    if begins_with_mark("-", symbols, at) {
        let after = mark("-", symbols, at)?;
        return Ok(after);
    }
    if begins_with_mark("+", symbols, at) {
        let after = mark("+", symbols, at)?;
        return Ok(after);
    }
    Ok(at)
}

/// Reads an integer or a name.
fn plain_value(alloc: Global, symbols: &[Placed], at: usize) -> Result<usize, Refusal>
    ensures within { IfOk result (λ after. (at < after) × (after ≤ length symbols.now)) }
    ensures read { ReadsInSteps symbols.now at (λ after. (tt, after)) result plain_value_reader }
{
    if begins_with_number(symbols, at) {
        let after = integer(symbols, at)?;
        return Ok(after);
    }
    let (_, after) = words(alloc, symbols, at)?;
    Ok(after)
}

/// Reads an integer, a floating literal or a name.
fn any_value(alloc: Global, symbols: &[Placed], at: usize) -> Result<usize, Refusal>
    ensures within { IfOk result (λ after. (at < after) × (after ≤ length symbols.now)) }
    ensures read { ReadsInSteps symbols.now at (λ after. (tt, after)) result any_value_reader }
{
    if begins_with_word(symbols, at) {
        let (_, after) = words(alloc, symbols, at)?;
        return Ok(after);
    }
    let after = numeral(symbols, at)?;
    Ok(after)
}

/// Reads a constant that is no text and in no braces.
#[tactic(auto, unfolding(crate::specs::Readers::Phrases::signed_value_reader))]
fn signed_value(
    alloc: Global,
    grammar: Grammar,
    symbols: &[Placed],
    at: usize,
) -> Result<usize, Refusal>
    ensures within { IfOk result (λ after. (at < after) × (after ≤ length symbols.now)) }
    ensures read { ReadsInSteps symbols.now at (λ after. (tt, after)) result (signed_value_reader grammar) }
{
    let after = plus_or_minus(symbols, at)?;
    match grammar {
        Grammar::Strict => {
            let after = plain_value(alloc, symbols, after)?;
            Ok(after)
        }
        Grammar::Lenient(_) => {
            let after = any_value(alloc, symbols, after)?;
            Ok(after)
        }
    }
}

/// Reads a constant in braces, or one that is no text.
fn braced_value(alloc: Global, symbols: &[Placed], at: usize) -> Result<usize, Refusal>
    ensures within { IfOk result (λ after. (at < after) × (after ≤ length symbols.now)) }
    ensures read { ReadsInSteps symbols.now at (λ after. (tt, after)) result braced_value_reader }
{
    if begins_with_mark("{", symbols, at) {
        let after = aggregate(alloc, symbols, at)?;
        return Ok(after);
    }
    let after = signed_value(alloc, Grammar::Lenient(Syntax::Proto3), symbols, at)?;
    Ok(after)
}

/// Reads a constant that is no text.
#[tactic(auto, unfolding(crate::specs::Readers::Phrases::unquoted_reader))]
fn unquoted(
    alloc: Global,
    grammar: Grammar,
    symbols: &[Placed],
    at: usize,
) -> Result<usize, Refusal>
    ensures within { IfOk result (λ after. (at < after) × (after ≤ length symbols.now)) }
    ensures read { ReadsInSteps symbols.now at (λ after. (tt, after)) result (unquoted_reader grammar) }
{
    match grammar {
        Grammar::Strict => {
            let after = signed_value(alloc, Grammar::Strict, symbols, at)?;
            Ok(after)
        }
        Grammar::Lenient(_) => {
            let after = braced_value(alloc, symbols, at)?;
            Ok(after)
        }
    }
}

/// Reads a constant, of which nothing is kept.
#[tactic(auto, unfolding(crate::specs::Readers::Phrases::constant_reader))]
fn constant(
    alloc: Global,
    grammar: Grammar,
    symbols: &[Placed],
    at: usize,
) -> Result<usize, Refusal>
    ensures within { IfOk result (λ after. (at < after) × (after ≤ length symbols.now)) }
    ensures read { ReadsInSteps symbols.now at (λ after. (tt, after)) result (constant_reader grammar) }
{
    if begins_with_text(symbols, at) {
        let after = text(symbols, at)?;
        return Ok(after);
    }
    let after = unquoted(alloc, grammar, symbols, at)?;
    Ok(after)
}

/// Reads an option's name and its value, of which nothing is kept.
#[tactic(auto, unfolding(crate::specs::Readers::Phrases::assignment_reader))]
fn assignment(
    alloc: Global,
    grammar: Grammar,
    symbols: &[Placed],
    at: usize,
) -> Result<usize, Refusal>
    ensures within { IfOk result (λ after. (at < after) × (after ≤ length symbols.now)) }
    ensures read { ReadsInSteps symbols.now at (λ after. (tt, after)) result (assignment_reader grammar) }
{
    let (_, after) = option_name(alloc, grammar, symbols, at)?;
    let after = mark("=", symbols, after)?;
    let after = constant(alloc, grammar, symbols, after)?;
    Ok(after)
}

/// Reads the statement of an option, up to its `;`, and gives the index after it. Where a part of its name is in parentheses,
/// `Rule::OptionsKnown` is broken.
#[tactic(auto, unfolding(crate::specs::Readers::Phrases::option_reader))]
pub fn option(
    alloc: Global,
    grammar: Grammar,
    symbols: &[Placed],
    at: usize,
) -> Result<usize, Refusal>
    ensures within { IfOk result (λ after. (at < after) × (after ≤ length symbols.now)) }
    ensures read { ReadsInSteps symbols.now at (λ after. (tt, after)) result (option_reader grammar) }
{
    let after = keyword("option", symbols, at)?;
    let after = assignment(alloc, grammar, symbols, after)?;
    let after = mark(";", symbols, after)?;
    Ok(after)
}

/// Reads `true` or `false`.
fn truth(symbols: &[Placed], at: usize) -> Result<(bool, usize), Refusal>
    ensures within { IfOk result (λ x. (at < x.1) × (x.1 ≤ length symbols.now)) }
    ensures read { Reads symbols.now at (λ x. x) result (symbol (plain truth_in)) }
{
    let Some(first) = symbol_at(symbols, at) else {
        return Err(Refusal::At { at, rule: None });
    };
    if is_keyword(&first.symbol, "true") {
        return Ok((true, at + 1));
    }
    if is_keyword(&first.symbol, "false") {
        return Ok((false, at + 1));
    }
    Err(Refusal::At { at, rule: None })
}

/// Whether an option's name is this word alone.
fn is_the_name(word: &str, name: &[&str]) -> bool
    ensures { result ≡ is_the_name word.now (words_view name.now) }
{
    name.len() == 1 && name[0] == word
}

/// Reads a constant, which is true or false where the option is the one that counts.
fn said(
    alloc: Global,
    grammar: Grammar,
    counts: bool,
    symbols: &[Placed],
    at: usize,
) -> Result<(Option<bool>, usize), Refusal>
    ensures within { IfOk result (λ x. (at < x.1) × (x.1 ≤ length symbols.now)) }
    ensures read { ReadsInSteps symbols.now at (λ x. x) result (λ n. said_reader grammar n counts) }
{
    if counts {
        let (value, after) = truth(symbols, at)?;
        return Ok((Some(value), after));
    }
    let after = constant(alloc, grammar, symbols, at)?;
    Ok((None, after))
}

/// Reads an option's name and its value. Where the name is this word alone, the value is true or false and is given; else any constant, and None.
#[tactic(auto, unfolding(crate::specs::Readers::Phrases::setting_reader))]
pub fn setting(
    alloc: Global,
    grammar: Grammar,
    word: &str,
    symbols: &[Placed],
    at: usize,
) -> Result<(Option<bool>, usize), Refusal>
    ensures within { IfOk result (λ x. (at < x.1) × (x.1 ≤ length symbols.now)) }
    ensures read { ReadsInSteps symbols.now at (λ x. x) result (λ n. setting_reader grammar n word.now) }
{
    let (name, after) = option_name(alloc, grammar, symbols, at)?;
    let after = mark("=", symbols, after)?;
    let counts = is_the_name(word, name.as_slice());
    let (said, after) = said(alloc, grammar, counts, symbols, after)?;
    Ok((said, after))
}

/// Whether the symbol begins no option's name in a field, though it is a word: `default`, but in proto2.
fn is_barred(grammar: Grammar, symbol: &Symbol) -> bool
    ensures { result ≡ is_barred grammar (symbol_of symbol.now) }
{
    match grammar {
        Grammar::Lenient(Syntax::Proto2) => false,
        Grammar::Strict | Grammar::Lenient(Syntax::Proto3) => is_keyword(symbol, "default"),
    }
}

/// Reads an option of a field, and what it says of `packed`.
#[tactic(auto, unfolding(crate::specs::Readers::Phrases::field_option_reader))]
fn field_option(
    alloc: Global,
    grammar: Grammar,
    symbols: &[Placed],
    at: usize,
) -> Result<(Option<bool>, usize), Refusal>
    ensures within { IfOk result (λ x. (at < x.1) × (x.1 ≤ length symbols.now)) }
    ensures read { ReadsInSteps symbols.now at (λ x. x) result (field_option_reader grammar) }
{
    let Some(first) = symbol_at(symbols, at) else {
        return Err(Refusal::At { at, rule: None });
    };
    if is_barred(grammar, &first.symbol) {
        return Err(Refusal::At { at, rule: None });
    }
    let (said, after) = setting(alloc, grammar, "packed", symbols, at)?;
    Ok((said, after))
}

/// Reads a comma, and an option of a field.
fn next_field_option(
    alloc: Global,
    grammar: Grammar,
    symbols: &[Placed],
    at: usize,
) -> Result<(Option<bool>, usize), Refusal>
    ensures within { IfOk result (λ x. (at < x.1) × (x.1 ≤ length symbols.now)) }
    ensures read { ReadsInSteps symbols.now at (λ x. x) result (λ n. preceded (mark_reader (codes ",")) (field_option_reader grammar n)) }
{
    let after = mark(",", symbols, at)?;
    let (said, after) = field_option(alloc, grammar, symbols, after)?;
    Ok((said, after))
}

/// Reads the options of a field with commas between, and what each says of `packed`.
fn field_options(
    alloc: Global,
    grammar: Grammar,
    symbols: &[Placed],
    at: usize,
) -> Result<(Vec<Option<bool>>, usize), Refusal>
    ensures within { IfOk result (λ x. (at < x.1) × (x.1 ≤ length symbols.now)) }
    ensures read { ReadsInSteps symbols.now at (λ x. (x.0.items, x.1)) result (λ n. listed n (field_option_reader grammar n)) }
{
    let (first, after) = field_option(alloc, grammar, symbols, at)?;
    let mut options = Vec::new(alloc);
    options.push(first)?;
    let mut here = after;
    while begins_with_mark(",", symbols, here) {
        let (said, after) = next_field_option(alloc, grammar, symbols, here)?;
        options.push(said)?;
        here = after;
    }
    Ok((options, here))
}

/// What was said last.
fn last_said(options: &[Option<bool>]) -> Option<bool>
    ensures { result ≡ last_said None options.now }
{
    let mut last = None;
    for said in options {
        if let Some(packed) = said {
            last = Some(*packed);
        }
    }
    last
}

/// Reads the options of a field, if any, and the sign after them, and gives what the last option says of `packed`, if one does.
#[tactic(auto, unfolding(crate::specs::Readers::Phrases::ended_reader, crate::specs::Readers::Phrases::options_reader))]
fn ended(
    alloc: Global,
    grammar: Grammar,
    close: &str,
    symbols: &[Placed],
    at: usize,
) -> Result<(Option<bool>, usize), Refusal>
    ensures within { IfOk result (λ x. (at < x.1) × (x.1 ≤ length symbols.now)) }
    ensures read { ReadsInSteps symbols.now at (λ x. x) result (ended_reader close.now grammar) }
{
    if !begins_with_mark("[", symbols, at) {
        let after = mark(close, symbols, at)?;
        return Ok((None, after));
    }
    let after = mark("[", symbols, at)?;
    let (options, after) = field_options(alloc, grammar, symbols, after)?;
    let after = mark("]", symbols, after)?;
    let after = mark(close, symbols, after)?;
    Ok((last_said(options.as_slice()), after))
}

/// Reads the end of a field, up to its `;`: its options, if any, and what the last of them says of `packed`, if one does.
pub fn field_end(
    alloc: Global,
    grammar: Grammar,
    symbols: &[Placed],
    at: usize,
) -> Result<(Option<bool>, usize), Refusal>
    ensures within { IfOk result (λ x. (at < x.1) × (x.1 ≤ length symbols.now)) }
    ensures read { ReadsInSteps symbols.now at (λ x. x) result (field_end_reader grammar) }
{
    let (packed, after) = ended(alloc, grammar, ";", symbols, at)?;
    Ok((packed, after))
}

/// Reads what is between a group's number and its fields, up to the `{`, as `field_end` reads the end of a field.
pub fn group_end(
    alloc: Global,
    grammar: Grammar,
    symbols: &[Placed],
    at: usize,
) -> Result<(Option<bool>, usize), Refusal>
    ensures within { IfOk result (λ x. (at < x.1) × (x.1 ≤ length symbols.now)) }
    ensures read { ReadsInSteps symbols.now at (λ x. x) result (group_end_reader grammar) }
{
    let (packed, after) = ended(alloc, grammar, "{", symbols, at)?;
    Ok((packed, after))
}

/// Reads a comma, and an option of a value.
fn next_assignment(
    alloc: Global,
    grammar: Grammar,
    symbols: &[Placed],
    at: usize,
) -> Result<usize, Refusal>
    ensures within { IfOk result (λ after. (at < after) × (after ≤ length symbols.now)) }
    ensures read { ReadsInSteps symbols.now at (λ after. (tt, after)) result (λ n. preceded (mark_reader (codes ",")) (assignment_reader grammar n)) }
{
    let after = mark(",", symbols, at)?;
    let after = assignment(alloc, grammar, symbols, after)?;
    Ok(after)
}

/// Reads the options of an enum's value with commas between.
fn assignments(
    alloc: Global,
    grammar: Grammar,
    symbols: &[Placed],
    at: usize,
) -> Result<usize, Refusal>
    ensures within { IfOk result (λ after. (at < after) × (after ≤ length symbols.now)) }
    ensures read { ReadsInSteps symbols.now at (λ after. (tt, after)) result (λ n. mapped {B = Unit {0}} (λ _. tt) (listed n (assignment_reader grammar n))) }
{
    let first = assignment(alloc, grammar, symbols, at)?;
    let mut here = first;
    while begins_with_mark(",", symbols, here) {
        let after = next_assignment(alloc, grammar, symbols, here)?;
        here = after;
    }
    Ok(here)
}

/// Reads the end of an enum's value, up to its `;`: its options, if any, of which nothing is kept.
#[tactic(auto, unfolding(crate::specs::Readers::Phrases::value_end_reader, crate::specs::Readers::Phrases::options_reader))]
pub fn value_end(
    alloc: Global,
    grammar: Grammar,
    symbols: &[Placed],
    at: usize,
) -> Result<usize, Refusal>
    ensures within { IfOk result (λ after. (at < after) × (after ≤ length symbols.now)) }
    ensures read { ReadsInSteps symbols.now at (λ after. (tt, after)) result (value_end_reader grammar) }
{
    if !begins_with_mark("[", symbols, at) {
        let after = mark(";", symbols, at)?;
        return Ok(after);
    }
    let after = mark("[", symbols, at)?;
    let after = assignments(alloc, grammar, symbols, after)?;
    let after = mark("]", symbols, after)?;
    let after = mark(";", symbols, after)?;
    Ok(after)
}
