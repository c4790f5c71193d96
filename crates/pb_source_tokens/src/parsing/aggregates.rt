//! Constants in braces, of which nothing is kept (Protocol Buffers Language Specification (Proto3), "Constant").

ghost use Rattle.std.specs.Prelude.{◌≡◌, ◌≤◌, ◌<◌, length, reverse, [], ◌∷◌, Some, None, IfOk, if◌then◌else◌};
ghost use Rattle.pb_source_tokens.specs.SymbolView.{symbol_of};
ghost use Rattle.pb_source_tokens.specs.Aggregates.{same_bracket};
ghost use Rattle.pb_source_tokens.specs.Readers.Phrases.{open_after, closed_reader, aggregate_reader};
ghost use Rattle.pb_source_tokens.specs.Readers.Given.{ReadsInSteps};
ghost use Rattle.pb_source_tokens.specs.declared.bracket.Bracket.TheVariants.{Curly};

use crate::bracket::{Bracket, Role, role_of};
use crate::parsing::single::{mark, symbol_at};
use crate::refusal::Refusal;
use crate::symbol::{Placed, Symbol};
use std::alloc::{AllocError, Global};

/// Whether both are of one kind.
fn same_bracket(left: Bracket, right: Bracket) -> bool
    ensures { result ≡ same_bracket left right }
{
    match left {
        Bracket::Curly => match right {
            Bracket::Curly => true,
            Bracket::Square | Bracket::Angle => false,
        },
        Bracket::Square => match right {
            Bracket::Square => true,
            Bracket::Curly | Bracket::Angle => false,
        },
        Bracket::Angle => match right {
            Bracket::Angle => true,
            Bracket::Curly | Bracket::Square => false,
        },
    }
}

/// Takes one more symbol, where brackets are open, the last one after the others; false where it closes another bracket than the last.
fn advance(brackets: &mut Vec<Bracket>, symbol: &Symbol) -> Result<bool, AllocError>
    requires { 0 < length brackets.now.items }
    ensures { IfOk result (λ ok. open_after (reverse brackets.old.items) (symbol_of symbol.now) ≡ (if ok then Some (reverse brackets.new.items) else None)) }
{
    match role_of(symbol) {
        Role::Plain => Ok(true),
        Role::Opens(bracket) => {
            brackets.push(bracket)?;
            Ok(true)
        }
        Role::Closes(bracket) => match brackets.pop() {
            Some(last) => Ok(same_bracket(last, bracket)),
            None => Ok(false),
        },
    }
}

/// Reads symbols up to the `}` of a `{` before them. Brackets that are open take one byte each.
fn closed(alloc: Global, symbols: &[Placed], at: usize) -> Result<usize, Refusal>
    requires { at ≤ length symbols.now }
    ensures within { IfOk result (λ after. (at ≤ after) × (after ≤ length symbols.now)) }
    ensures read { ReadsInSteps symbols.now at (λ after. (tt, after)) result (λ n. closed_reader n (Curly ∷ [])) }
{
    let mut brackets = Vec::new(alloc);
    brackets.push(Bracket::Curly)?;
    let mut here = at;
    while !brackets.is_empty() {
        let Some(next) = symbol_at(symbols, here) else {
            return Err(Refusal::At {
                at: here,
                rule: None,
            });
        };
        let ok = advance(&mut brackets, &next.symbol)?;
        if !ok {
            return Err(Refusal::At {
                at: here,
                rule: None,
            });
        }
        here += 1;
    }
    Ok(here)
}

/// Reads a constant in braces.
#[tactic(auto, unfolding(crate::specs::Readers::Phrases::aggregate_reader))]
pub(crate) fn aggregate(alloc: Global, symbols: &[Placed], at: usize) -> Result<usize, Refusal>
    ensures within { IfOk result (λ after. (at < after) × (after ≤ length symbols.now)) }
    ensures read { ReadsInSteps symbols.now at (λ after. (tt, after)) result aggregate_reader }
{
    let after = mark("{", symbols, at)?;
    let after = closed(alloc, symbols, after)?;
    Ok(after)
}
