//! Ranges of `extensions`, of which nothing is kept (Protocol Buffers Language Specification (Proto2), "Extensions").

ghost use Rattle.std.specs.Prelude.{◌≤◌, ◌<◌, length, IfOk};
ghost use Rattle.pb_source_tokens.specs.Readers.Given.{ReadsInSteps};
ghost use Rattle.pb_source.specs.Readers.Lines.{extensions_reader};

use pb_source_tokens::grammar::Grammar;
use pb_source_tokens::parsing::options::value_end;
use pb_source_tokens::parsing::ranges::{Within, ranges};
use pb_source_tokens::parsing::single::keyword;
use pb_source_tokens::refusal::Refusal;
use pb_source_tokens::symbol::Placed;
use std::alloc::Global;

/// Reads ranges of extensions, with their options.
#[tactic(auto, unfolding(crate::specs::Readers::Lines::extensions_reader))]
pub(crate) fn extensions(
    alloc: Global,
    grammar: Grammar,
    symbols: &[Placed],
    at: usize,
) -> Result<usize, Refusal>
    ensures within { IfOk result (λ after. (at < after) × (after ≤ length symbols.now)) }
    ensures read { ReadsInSteps symbols.now at (λ after. (tt, after)) result (extensions_reader grammar) }
{
    let after = keyword("extensions", symbols, at)?;
    let (_, after) = ranges(alloc, Within::Message, symbols, after)?;
    let after = value_end(alloc, grammar, symbols, after)?;
    Ok(after)
}
