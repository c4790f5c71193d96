//! Fields and maps.

ghost use Rattle.std.specs.Prelude.{◌≡◌, ◌≤◌, ◌<◌, length, string_bytes, IfOk};
ghost use Rattle.pb_declarations.specs.View.{field_view};
ghost use Rattle.pb_source_tokens.specs.PhraseView.{type_view};
ghost use Rattle.pb_source_tokens.specs.Readers.Given.{ReadsInSteps};
ghost use Rattle.pb_source.specs.Meaning.{is_repeated_label, is_optional_label, field_of};
ghost use Rattle.pb_source.specs.Readers.Lines.{field_tail_reader, field_reader, map_tail_reader, map_reader};
ghost use Rattle.pb_source.specs.StatementView.{map_view, message_statement_view};
ghost use Rattle.pb_source.specs.PartsView.{IsCounted};

use crate::kind::Label;
use crate::parsing::statement::{MapSaid, MemberSaid, MessageSaid};
use crate::parsing::syntaxes::is_proto2;
use pb_declarations::FieldDecl;
use pb_source_tokens::grammar::Grammar;
use pb_source_tokens::parsing::numbers::counted;
use pb_source_tokens::parsing::options::field_end;
use pb_source_tokens::parsing::single::{begins_with_mark, keyword, mark, name};
use pb_source_tokens::parsing::types::{TypeSaid, code_of, key_type, name_of, typed};
use pb_source_tokens::refusal::Refusal;
use pb_source_tokens::symbol::Placed;
use std::alloc::Global;

/// What follows a field's type, or the word `group`.
#[derive(Drop)]
pub(crate) struct FieldTail<'a> {
    pub name: &'a str,
    pub number: u32,
    pub packed: Option<bool>,
}

/// Whether the label says that a field is repeated.
pub(crate) fn is_repeated(label: Label) -> bool
    ensures { result ≡ is_repeated_label label }
{
    match label {
        Label::Unlabelled => false,
        Label::Repeated => true,
        Label::Optional => false,
    }
}

/// Whether the label says that a field is optional.
pub(crate) fn is_optional(label: Label) -> bool
    ensures { result ≡ is_optional_label label }
{
    match label {
        Label::Unlabelled => false,
        Label::Repeated => false,
        Label::Optional => true,
    }
}

/// A field of its parts.
pub(crate) fn field_of(
    label: Label,
    ty: TypeSaid,
    name: String,
    number: u32,
    packed: Option<bool>,
) -> FieldDecl
    requires { number ≤ 2147483647 }
    ensures { field_view result ≡ field_of label (type_view ty) (string_bytes name) number packed }
{
    let code = code_of(&ty);
    FieldDecl {
        name,
        number: number as i32,
        repeated: is_repeated(label),
        ty: code,
        type_name: name_of(ty),
        packed,
        oneof: None,
        proto3_optional: is_optional(label),
    }
}

/// Reads what follows a field's type.
#[tactic(auto, unfolding(crate::specs::Readers::Lines::field_tail_reader))]
fn field_tail<'a>(
    alloc: Global,
    grammar: Grammar,
    symbols: &[Placed<'a>],
    at: usize,
) -> Result<(FieldTail<'a>, usize), Refusal>
    ensures within { IfOk result (λ x. (at < x.1) × (x.1 ≤ length symbols.now)) }
    ensures bound { IfOk result (λ x. x.0.number ≤ 2147483647) }
    ensures read { ReadsInSteps symbols.now at (λ x. ((x.0.name.now, (x.0.number, x.0.packed)), x.1)) result (field_tail_reader grammar) }
{
    let (name, after) = name(symbols, at)?;
    let after = mark("=", symbols, after)?;
    let (number, after) = counted(symbols, after)?;
    let (packed, after) = field_end(alloc, grammar, symbols, after)?;
    let tail = FieldTail {
        name,
        number,
        packed,
    };
    Ok((tail, after))
}

/// Reads a field after its label.
#[tactic(auto, unfolding(crate::specs::Readers::Lines::field_reader))]
pub(crate) fn field(
    alloc: Global,
    grammar: Grammar,
    label: Label,
    symbols: &[Placed],
    at: usize,
) -> Result<(FieldDecl, usize), Refusal>
    ensures within { IfOk result (λ x. (at < x.1) × (x.1 ≤ length symbols.now)) }
    ensures read { ReadsInSteps symbols.now at (λ x. (field_view x.0, x.1)) result (λ n. field_reader grammar n label) }
{
    let (said, after) = typed(alloc, symbols, at)?;
    let (tail, after) = field_tail(alloc, grammar, symbols, after)?;
    let name = String::from_str(alloc, tail.name)?;
    let field = field_of(label, said, name, tail.number, tail.packed);
    Ok((field, after))
}

/// Reads a map after its word.
#[tactic(auto, unfolding(crate::specs::Readers::Lines::map_tail_reader))]
fn map_tail(
    alloc: Global,
    grammar: Grammar,
    symbols: &[Placed],
    at: usize,
) -> Result<(MapSaid, usize), Refusal>
    ensures within { IfOk result (λ x. (at < x.1) × (x.1 ≤ length symbols.now)) }
    ensures bound { IfOk result (λ x. x.0.number ≤ 2147483647) }
    ensures read { ReadsInSteps symbols.now at (λ x. (map_view x.0, x.1)) result (map_tail_reader grammar) }
{
    let after = mark("<", symbols, at)?;
    let (key, after) = key_type(symbols, after)?;
    let after = mark(",", symbols, after)?;
    let (value, after) = typed(alloc, symbols, after)?;
    let after = mark(">", symbols, after)?;
    let (tail, after) = field_tail(alloc, grammar, symbols, after)?;
    let name = String::from_str(alloc, tail.name)?;
    let map = MapSaid {
        key,
        value,
        name,
        number: tail.number,
        packed: tail.packed,
    };
    Ok((map, after))
}

/// Reads a map, or but in proto2 a field whose type's name begins with the word `map`.
#[tactic(auto, unfolding(crate::specs::Readers::Lines::map_reader))]
pub(crate) fn map_or_field(
    alloc: Global,
    grammar: Grammar,
    symbols: &[Placed],
    at: usize,
) -> Result<(MessageSaid, usize), Refusal>
    ensures within { IfOk result (λ x. (at < x.1) × (x.1 ≤ length symbols.now)) }
    ensures bound { IfOk result (λ x. IsCounted x.0) }
    ensures read { ReadsInSteps symbols.now at (λ x. (message_statement_view x.0, x.1)) result (map_reader grammar) }
{
    let after = keyword("map", symbols, at)?;
    if is_proto2(grammar) {
        let (map, after) = map_tail(alloc, grammar, symbols, after)?;
        return Ok((MessageSaid::Map(map), after));
    }
    if begins_with_mark("<", symbols, after) {
        let (map, after) = map_tail(alloc, grammar, symbols, after)?;
        return Ok((MessageSaid::Map(map), after));
    }
    let (field, after) = field(alloc, grammar, Label::Unlabelled, symbols, at)?;
    let member = MemberSaid { field, group: None };
    Ok((MessageSaid::Field(member), after))
}
