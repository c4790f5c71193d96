//! Enums.

ghost use Rattle.std.specs.Prelude.{◌≡◌, ◌≤◌, ◌<◌, ◌++◌, ◌∷◌, ℕ, List, [], length, codes, IfOk, OnOk};
ghost use Rattle.pb_declarations.specs.View.{enum_view};
ghost use Rattle.pb_source_tokens.specs.Readers.Forms.{mapped, until, mark_reader};
ghost use Rattle.pb_source_tokens.specs.Readers.Phrases.{enum_range_reader};
ghost use Rattle.pb_source_tokens.specs.Readers.Given.{ReadsInSteps};
ghost use Rattle.pb_source.specs.Meaning.{EnumStatement, enum_of};
ghost use Rattle.pb_source.specs.Readers.Lines.{is_closing, said_of_alias, reserved_reader, value_reader, enum_statement_reader, enum_reader};
ghost use Rattle.pb_source.specs.StatementView.{enum_statement_view};

use crate::kind::EnumKind;
use crate::parsing::kinds::enum_kind;
use crate::parsing::statement::EnumSaid;
use pb_declarations::EnumDecl;
use pb_source_tokens::grammar::Grammar;
use pb_source_tokens::parsing::numbers::signed;
use pb_source_tokens::parsing::options::{setting, value_end};
use pb_source_tokens::parsing::ranges::{Within, names_line, ranges_line};
use pb_source_tokens::parsing::single::{
    begins_with_mark, begins_with_text, keyword, mark, name, symbol_at,
};
use pb_source_tokens::refusal::Refusal;
use pb_source_tokens::symbol::Placed;
use std::alloc::{AllocError, Global};

/// Reads a value.
#[tactic(auto, unfolding(crate::specs::Readers::Lines::value_reader))]
fn enum_value(
    alloc: Global,
    grammar: Grammar,
    symbols: &[Placed],
    at: usize,
) -> Result<(EnumSaid, usize), Refusal>
    ensures within { IfOk result (λ x. (at < x.1) × (x.1 ≤ length symbols.now)) }
    ensures read { ReadsInSteps symbols.now at (λ x. (enum_statement_view x.0, x.1)) result (value_reader grammar) }
{
    let (name, after) = name(symbols, at)?;
    let after = mark("=", symbols, after)?;
    let (number, after) = signed(symbols, after)?;
    let after = value_end(alloc, grammar, symbols, after)?;
    let name = String::from_str(alloc, name)?;
    Ok((EnumSaid::Value((name, number)), after))
}

/// What an option says.
fn option_said(said: Option<bool>) -> EnumSaid
    ensures { enum_statement_view result ≡ said_of_alias said }
{
    match said {
        Some(allow) => EnumSaid::AllowAlias(allow),
        None => EnumSaid::Nothing,
    }
}

/// Reads what is reserved.
#[tactic(auto, unfolding(crate::specs::Readers::Lines::reserved_reader))]
fn reserved(alloc: Global, symbols: &[Placed], at: usize) -> Result<(EnumSaid, usize), Refusal>
    ensures within { IfOk result (λ x. (at < x.1) × (x.1 ≤ length symbols.now)) }
    ensures read { ReadsInSteps symbols.now at (λ x. (enum_statement_view x.0, x.1)) result
        (λ n. reserved_reader n enum_range_reader EnumStatement.reserved_ranges EnumStatement.reserved_names) }
{
    let after = keyword("reserved", symbols, at)?;
    if begins_with_text(symbols, after) {
        let (names, after) = names_line(alloc, symbols, after)?;
        return Ok((EnumSaid::Names(names), after));
    }
    let (ranges, after) = ranges_line(alloc, Within::Enum, symbols, after)?;
    Ok((EnumSaid::Ranges(ranges), after))
}

/// Reads a statement of an enum.
#[tactic(auto, unfolding(crate::specs::Readers::Lines::enum_statement_reader))]
fn enum_statement(
    alloc: Global,
    grammar: Grammar,
    symbols: &[Placed],
    at: usize,
) -> Result<(EnumSaid, usize), Refusal>
    ensures within { IfOk result (λ x. (at < x.1) × (x.1 ≤ length symbols.now)) }
    ensures read { ReadsInSteps symbols.now at (λ x. (enum_statement_view x.0, x.1)) result (enum_statement_reader grammar) }
{
    let Some(first) = symbol_at(symbols, at) else {
        return Err(Refusal::At { at, rule: None });
    };
    match enum_kind(&first.symbol) {
        Some(EnumKind::Empty) => {
            let after = mark(";", symbols, at)?;
            Ok((EnumSaid::Nothing, after))
        }
        Some(EnumKind::Option) => {
            let after = keyword("option", symbols, at)?;
            let (said, after) = setting(alloc, grammar, "allow_alias", symbols, after)?;
            let after = mark(";", symbols, after)?;
            Ok((option_said(said), after))
        }
        Some(EnumKind::Reserved) => {
            let (reserved, after) = reserved(alloc, symbols, at)?;
            Ok((reserved, after))
        }
        Some(EnumKind::Value) => {
            let (value, after) = enum_value(alloc, grammar, symbols, at)?;
            Ok((value, after))
        }
        None => Err(Refusal::At { at, rule: None }),
    }
}

/// Puts what a statement says into an enum.
fn add_enum_statement(decl: &mut EnumDecl, statement: EnumSaid) -> Result<(), AllocError>
    ensures { OnOk result ((name : List ℕ) (ss : List EnumStatement) → enum_view decl.old ≡ enum_of name ss
        → enum_view decl.new ≡ enum_of name (ss ++ enum_statement_view statement ∷ [])) }
{
    match statement {
        EnumSaid::Nothing => Ok(()),
        EnumSaid::AllowAlias(allow) => {
            decl.allow_alias = allow;
            Ok(())
        }
        EnumSaid::Value(value) => {
            decl.values.push(value)?;
            Ok(())
        }
        EnumSaid::Ranges(mut ranges) => {
            decl.reserved.append(&mut ranges)?;
            Ok(())
        }
        EnumSaid::Names(mut names) => {
            decl.reserved_names.append(&mut names)?;
            Ok(())
        }
    }
}

/// An enum of this name that says nothing yet.
fn empty_enum(alloc: Global, name: &str) -> Result<EnumDecl, AllocError>
    ensures { IfOk result (λ e. enum_view e ≡ enum_of name.now []) }
{
    let name = String::from_str(alloc, name)?;
    Ok(EnumDecl {
        name,
        values: Vec::new(alloc),
        allow_alias: false,
        reserved: Vec::new(alloc),
        reserved_names: Vec::new(alloc),
    })
}

/// Reads the statements of an enum of this name, and the closing brace.
fn enum_body(
    alloc: Global,
    grammar: Grammar,
    name: &str,
    symbols: &[Placed],
    at: usize,
) -> Result<(EnumDecl, usize), Refusal>
    requires { at ≤ length symbols.now }
    ensures within { IfOk result (λ x. (at < x.1) × (x.1 ≤ length symbols.now)) }
    ensures read { ReadsInSteps symbols.now at (λ x. (enum_view x.0, x.1)) result
        (λ n. mapped (enum_of name.now) (until n is_closing (enum_statement_reader grammar n) (mark_reader (codes "}")) [])) }
{
    let mut decl = empty_enum(alloc, name)?;
    let mut here = at;
    while !begins_with_mark("}", symbols, here) {
        let (statement, after) = enum_statement(alloc, grammar, symbols, here)?;
        add_enum_statement(&mut decl, statement)?;
        here = after;
    }
    let after = mark("}", symbols, here)?;
    Ok((decl, after))
}

/// Reads an enum.
#[tactic(auto, unfolding(crate::specs::Readers::Lines::enum_reader))]
pub(crate) fn enum_line(
    alloc: Global,
    grammar: Grammar,
    symbols: &[Placed],
    at: usize,
) -> Result<(EnumDecl, usize), Refusal>
    ensures within { IfOk result (λ x. (at < x.1) × (x.1 ≤ length symbols.now)) }
    ensures read { ReadsInSteps symbols.now at (λ x. (enum_view x.0, x.1)) result (enum_reader grammar) }
{
    let after = keyword("enum", symbols, at)?;
    let (name, after) = name(symbols, after)?;
    let after = mark("{", symbols, after)?;
    let (decl, after) = enum_body(alloc, grammar, name, symbols, after)?;
    Ok((decl, after))
}
