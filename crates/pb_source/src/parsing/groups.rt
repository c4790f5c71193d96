//! What comes before the statements of a group (Protocol Buffers Language Specification (Proto2), "Group field").

ghost use Rattle.std.specs.Prelude.{◌≡◌, ◌≤◌, ◌<◌, length, IfOk};
ghost use Rattle.pb_declarations.specs.View.{field_view};
ghost use Rattle.pb_source_tokens.specs.Readers.Given.{Reads, ReadsInSteps};
ghost use Rattle.pb_source.specs.Meaning.{group_field};
ghost use Rattle.pb_source.specs.Grammar.{begins_capital};
ghost use Rattle.pb_source.specs.Readers.Lines.{group_name_reader, group_head_reader};

use crate::kind::Label;
use crate::parsing::fields::{FieldTail, is_optional, is_repeated};
use pb_declarations::{FieldDecl, TypeCode};
use pb_source_tokens::grammar::Grammar;
use pb_source_tokens::parsing::numbers::counted;
use pb_source_tokens::parsing::options::group_end;
use pb_source_tokens::parsing::single::{keyword, mark, symbol_at};
use pb_source_tokens::refusal::Refusal;
use pb_source_tokens::symbol::{Placed, Symbol};
use std::alloc::{AllocError, Global};

/// Whether a word begins with a capital letter.
fn begins_capital(word: &str) -> bool
    ensures { result ≡ begins_capital word.now }
{
    match word.as_bytes().first() {
        Some(byte) => byte.is_ascii_uppercase(),
        None => false,
    }
}

/// Reads a group's name.
fn group_name<'a>(symbols: &[Placed<'a>], at: usize) -> Result<(&'a str, usize), Refusal>
    ensures within { IfOk result (λ x. (at < x.1) × (x.1 ≤ length symbols.now)) }
    ensures read { Reads symbols.now at (λ x. (x.0.now, x.1)) result group_name_reader }
{
    if let Some(first) = symbol_at(symbols, at) {
        if let Symbol::Word(word) = &first.symbol {
            if begins_capital(word) {
                return Ok((word, at + 1));
            }
        }
    }
    Err(Refusal::At { at, rule: None })
}

/// Reads a group up to the opening brace.
#[tactic(auto, unfolding(crate::specs::Readers::Lines::group_head_reader))]
pub(crate) fn group_head<'a>(
    alloc: Global,
    grammar: Grammar,
    symbols: &[Placed<'a>],
    at: usize,
) -> Result<(FieldTail<'a>, usize), Refusal>
    ensures within { IfOk result (λ x. (at < x.1) × (x.1 ≤ length symbols.now)) }
    ensures bound { IfOk result (λ x. x.0.number ≤ 2147483647) }
    ensures read { ReadsInSteps symbols.now at (λ x. ((x.0.name.now, (x.0.number, x.0.packed)), x.1)) result (group_head_reader grammar) }
{
    let after = keyword("group", symbols, at)?;
    let (name, after) = group_name(symbols, after)?;
    let after = mark("=", symbols, after)?;
    let (number, after) = counted(symbols, after)?;
    let (packed, after) = group_end(alloc, grammar, symbols, after)?;
    let head = FieldTail {
        name,
        number,
        packed,
    };
    Ok((head, after))
}

/// A group's own field.
pub(crate) fn group_field(
    alloc: Global,
    label: Label,
    head: &FieldTail,
) -> Result<FieldDecl, AllocError>
    requires { head.now.number ≤ 2147483647 }
    ensures { IfOk result (λ f. field_view f ≡ group_field label head.now.name.now head.now.number head.now.packed) }
{
    let name = head.name.to_ascii_lowercase(alloc)?;
    let type_name = String::from_str(alloc, head.name)?;
    Ok(FieldDecl {
        name,
        number: head.number as i32,
        repeated: is_repeated(label),
        ty: Some(TypeCode::Group),
        type_name: Some(type_name),
        packed: head.packed,
        oneof: None,
        proto3_optional: is_optional(label),
    })
}
