//! Statements of a message that no message nests in.

ghost use Rattle.std.specs.Prelude.{◌≡◌, ◌≤◌, ◌<◌, length, IfOk, true};
ghost use Rattle.pb_source_tokens.specs.Readers.Forms.{if_some};
ghost use Rattle.pb_source_tokens.specs.Readers.Phrases.{message_range_reader};
ghost use Rattle.pb_source_tokens.specs.Readers.Given.{ReadsInSteps};
ghost use Rattle.pb_source.specs.Meaning.{MessageStatement};
ghost use Rattle.pb_source.specs.Readers.Lines.{Nested, reserved_reader, dropped, extensions_reader, message_statement_line};
ghost use Rattle.pb_source.specs.StatementView.{message_statement_view};
ghost use Rattle.pb_source.specs.PartsView.{is_plain, IsCounted};

use crate::kind::{Label, MessageKind};
use crate::parsing::enums::enum_line;
use crate::parsing::extensions::extensions;
use crate::parsing::fields::{field, map_or_field};
use crate::parsing::statement::{MemberSaid, MessageSaid};
use crate::parsing::syntaxes::is_proto2;
use pb_source_tokens::grammar::Grammar;
use pb_source_tokens::parsing::options::option;
use pb_source_tokens::parsing::ranges::{Within, names_line, ranges_line};
use pb_source_tokens::parsing::single::{begins_with_text, keyword, mark};
use pb_source_tokens::refusal::Refusal;
use pb_source_tokens::symbol::Placed;
use std::alloc::Global;

/// Reads what is reserved.
#[tactic(auto, unfolding(crate::specs::Readers::Lines::reserved_reader))]
fn reserved(alloc: Global, symbols: &[Placed], at: usize) -> Result<(MessageSaid, usize), Refusal>
    ensures within { IfOk result (λ x. (at < x.1) × (x.1 ≤ length symbols.now)) }
    ensures bound { IfOk result (λ x. IsCounted x.0) }
    ensures read { ReadsInSteps symbols.now at (λ x. (message_statement_view x.0, x.1)) result
        (λ n. reserved_reader n message_range_reader MessageStatement.reserved_ranges MessageStatement.reserved_names) }
{
    let after = keyword("reserved", symbols, at)?;
    if begins_with_text(symbols, after) {
        let (names, after) = names_line(alloc, symbols, after)?;
        return Ok((MessageSaid::Names(names), after));
    }
    let (ranges, after) = ranges_line(alloc, Within::Message, symbols, after)?;
    Ok((MessageSaid::Ranges(ranges), after))
}

/// Reads ranges of extensions, of which nothing is kept. The strict grammar has none.
fn extensions_statement(
    alloc: Global,
    grammar: Grammar,
    symbols: &[Placed],
    at: usize,
) -> Result<(MessageSaid, usize), Refusal>
    ensures within { IfOk result (λ x. (at < x.1) × (x.1 ≤ length symbols.now)) }
    ensures bound { IfOk result (λ x. IsCounted x.0) }
    ensures read { ReadsInSteps symbols.now at (λ x. (message_statement_view x.0, x.1)) result
        (λ n. if_some (dropped grammar MessageStatement.nothing_said (extensions_reader grammar n))) }
{
    match grammar {
        Grammar::Strict => Err(Refusal::At { at, rule: None }),
        Grammar::Lenient(_) => {
            let after = extensions(alloc, grammar, symbols, at)?;
            Ok((MessageSaid::Nothing, after))
        }
    }
}

/// Reads a statement of this kind.
pub(crate) fn plain_statement(
    alloc: Global,
    grammar: Grammar,
    kind: MessageKind,
    symbols: &[Placed],
    at: usize,
) -> Result<(MessageSaid, usize), Refusal>
    requires { is_plain kind ≡ true }
    ensures within { IfOk result (λ x. (at < x.1) × (x.1 ≤ length symbols.now)) }
    ensures bound { IfOk result (λ x. IsCounted x.0) }
    ensures read { (nested : Nested)
        → ReadsInSteps symbols.now at (λ x. (message_statement_view x.0, x.1)) result (λ n. if_some (message_statement_line grammar n nested kind)) }
{
    match kind {
        MessageKind::Empty => {
            let after = mark(";", symbols, at)?;
            Ok((MessageSaid::Nothing, after))
        }
        MessageKind::Option => {
            let after = option(alloc, grammar, symbols, at)?;
            Ok((MessageSaid::Nothing, after))
        }
        MessageKind::Enum => {
            let (inner, after) = enum_line(alloc, grammar, symbols, at)?;
            Ok((MessageSaid::Enum(inner), after))
        }
        MessageKind::Reserved => {
            let (reserved, after) = reserved(alloc, symbols, at)?;
            Ok((reserved, after))
        }
        MessageKind::Extensions => {
            let (nothing, after) = extensions_statement(alloc, grammar, symbols, at)?;
            Ok((nothing, after))
        }
        MessageKind::Map => {
            let (member, after) = map_or_field(alloc, grammar, symbols, at)?;
            Ok((member, after))
        }
        MessageKind::Field => {
            if is_proto2(grammar) {
                return Err(Refusal::At { at, rule: None });
            }
            let (field, after) = field(alloc, grammar, Label::Unlabelled, symbols, at)?;
            let member = MemberSaid { field, group: None };
            Ok((MessageSaid::Field(member), after))
        }
        MessageKind::Message
        | MessageKind::Oneof
        | MessageKind::Extend
        | MessageKind::Repeated
        | MessageKind::Optional
        | MessageKind::Required => unreachable!(),
    }
}
