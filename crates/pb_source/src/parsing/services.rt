//! Services.

ghost use Rattle.std.specs.Prelude.{◌≡◌, ◌≤◌, ◌<◌, ◌++◌, [], length, map, codes, string_bytes, option_map, option_to_list, IfOk, OnOk};
ghost use Rattle.pb_declarations.specs.View.{method_view, service_view};
ghost use Rattle.pb_source_tokens.specs.Readers.Forms.{mapped, until, mark_reader};
ghost use Rattle.pb_source_tokens.specs.Readers.Given.{ReadsInSteps};
ghost use Rattle.pb_source.specs.Meaning.{those_said};
ghost use Rattle.pb_source.specs.Readers.Lines.{is_closing, streamed_reader, parameter_reader, method_statement_reader, method_end_reader};
ghost use Rattle.pb_source.specs.Readers.Lines.{method_reader, service_statement_reader, service_reader};

use crate::kind::{MethodKind, ServiceKind};
use crate::parsing::kinds::{method_kind, service_kind};
use pb_declarations::{MethodDecl, ServiceDecl};
use pb_source_tokens::grammar::Grammar;
use pb_source_tokens::parsing::names::typename;
use pb_source_tokens::parsing::options::option;
use pb_source_tokens::parsing::single::{
    begins_with, begins_with_mark, keyword, mark, name, symbol_at,
};
use pb_source_tokens::refusal::Refusal;
use pb_source_tokens::symbol::Placed;
use std::alloc::{AllocError, Global};

/// Reads the type of a method, and whether it is a stream.
#[tactic(auto, unfolding(crate::specs::Readers::Lines::streamed_reader))]
fn streamed(
    alloc: Global,
    symbols: &[Placed],
    at: usize,
) -> Result<((bool, String), usize), Refusal>
    ensures within { IfOk result (λ x. (at < x.1) × (x.1 ≤ length symbols.now)) }
    ensures read { ReadsInSteps symbols.now at (λ x. ((x.0.0, string_bytes x.0.1), x.1)) result streamed_reader }
{
    if begins_with("stream", symbols, at) {
        let after = keyword("stream", symbols, at)?;
        let (name, after) = typename(alloc, symbols, after)?;
        return Ok(((true, name), after));
    }
    let (name, after) = typename(alloc, symbols, at)?;
    Ok(((false, name), after))
}

/// Reads the type of a method in its parentheses.
#[tactic(auto, unfolding(crate::specs::Readers::Lines::parameter_reader))]
fn parameter(
    alloc: Global,
    symbols: &[Placed],
    at: usize,
) -> Result<((bool, String), usize), Refusal>
    ensures within { IfOk result (λ x. (at < x.1) × (x.1 ≤ length symbols.now)) }
    ensures read { ReadsInSteps symbols.now at (λ x. ((x.0.0, string_bytes x.0.1), x.1)) result parameter_reader }
{
    let after = mark("(", symbols, at)?;
    let (parameter, after) = streamed(alloc, symbols, after)?;
    let after = mark(")", symbols, after)?;
    Ok((parameter, after))
}

/// Reads a statement of a method: an option, or `;` alone.
#[tactic(auto, unfolding(crate::specs::Readers::Lines::method_statement_reader))]
fn method_statement(
    alloc: Global,
    grammar: Grammar,
    symbols: &[Placed],
    at: usize,
) -> Result<usize, Refusal>
    ensures within { IfOk result (λ after. (at < after) × (after ≤ length symbols.now)) }
    ensures read { ReadsInSteps symbols.now at (λ after. (tt, after)) result (method_statement_reader grammar) }
{
    let Some(first) = symbol_at(symbols, at) else {
        return Err(Refusal::At { at, rule: None });
    };
    match method_kind(&first.symbol) {
        Some(MethodKind::Empty) => {
            let after = mark(";", symbols, at)?;
            Ok(after)
        }
        Some(MethodKind::Option) => {
            let after = option(alloc, grammar, symbols, at)?;
            Ok(after)
        }
        None => Err(Refusal::At { at, rule: None }),
    }
}

/// Reads the statements of a method, and the closing brace.
fn method_body(
    alloc: Global,
    grammar: Grammar,
    symbols: &[Placed],
    at: usize,
) -> Result<usize, Refusal>
    requires { at ≤ length symbols.now }
    ensures within { IfOk result (λ after. (at < after) × (after ≤ length symbols.now)) }
    ensures read { ReadsInSteps symbols.now at (λ after. (tt, after)) result
        (λ n. mapped {B = Unit {0}} (λ _. tt) (until n is_closing (method_statement_reader grammar n) (mark_reader (codes "}")) [])) }
{
    let mut here = at;
    while !begins_with_mark("}", symbols, here) {
        let next = method_statement(alloc, grammar, symbols, here)?;
        here = next;
    }
    let after = mark("}", symbols, here)?;
    Ok(after)
}

/// Reads the end of a method.
#[tactic(auto, unfolding(crate::specs::Readers::Lines::method_end_reader))]
fn method_end(
    alloc: Global,
    grammar: Grammar,
    symbols: &[Placed],
    at: usize,
) -> Result<usize, Refusal>
    ensures within { IfOk result (λ after. (at < after) × (after ≤ length symbols.now)) }
    ensures read { ReadsInSteps symbols.now at (λ after. (tt, after)) result (method_end_reader grammar) }
{
    if begins_with_mark("{", symbols, at) {
        let after = mark("{", symbols, at)?;
        let after = method_body(alloc, grammar, symbols, after)?;
        return Ok(after);
    }
    let after = mark(";", symbols, at)?;
    Ok(after)
}

/// Reads a method.
#[tactic(auto, unfolding(crate::specs::Readers::Lines::method_reader))]
fn method(
    alloc: Global,
    grammar: Grammar,
    symbols: &[Placed],
    at: usize,
) -> Result<(MethodDecl, usize), Refusal>
    ensures within { IfOk result (λ x. (at < x.1) × (x.1 ≤ length symbols.now)) }
    ensures read { ReadsInSteps symbols.now at (λ x. (method_view x.0, x.1)) result (method_reader grammar) }
{
    let after = keyword("rpc", symbols, at)?;
    let (name, after) = name(symbols, after)?;
    let ((client_stream, input), after) = parameter(alloc, symbols, after)?;
    let after = keyword("returns", symbols, after)?;
    let ((server_stream, output), after) = parameter(alloc, symbols, after)?;
    let after = method_end(alloc, grammar, symbols, after)?;
    let name = String::from_str(alloc, name)?;
    let method = MethodDecl {
        name,
        input,
        output,
        client_stream,
        server_stream,
    };
    Ok((method, after))
}

/// Reads a statement of a service: a method, or what says nothing.
#[tactic(auto, unfolding(crate::specs::Readers::Lines::service_statement_reader))]
fn service_statement(
    alloc: Global,
    grammar: Grammar,
    symbols: &[Placed],
    at: usize,
) -> Result<(Option<MethodDecl>, usize), Refusal>
    ensures within { IfOk result (λ x. (at < x.1) × (x.1 ≤ length symbols.now)) }
    ensures read { ReadsInSteps symbols.now at (λ x. (option_map method_view x.0, x.1)) result (service_statement_reader grammar) }
{
    let Some(first) = symbol_at(symbols, at) else {
        return Err(Refusal::At { at, rule: None });
    };
    match service_kind(&first.symbol) {
        Some(ServiceKind::Empty) => {
            let after = mark(";", symbols, at)?;
            Ok((None, after))
        }
        Some(ServiceKind::Option) => {
            let after = option(alloc, grammar, symbols, at)?;
            Ok((None, after))
        }
        Some(ServiceKind::Method) => {
            let (method, after) = method(alloc, grammar, symbols, at)?;
            Ok((Some(method), after))
        }
        None => Err(Refusal::At { at, rule: None }),
    }
}

/// Puts a method after others, if there is one.
fn push_said(methods: &mut Vec<MethodDecl>, said: Option<MethodDecl>) -> Result<(), AllocError>
    ensures { OnOk result (methods.new.items ≡ methods.old.items ++ option_to_list said) }
{
    if let Some(method) = said {
        methods.push(method)?;
    }
    Ok(())
}

/// Reads the statements of a service, and the closing brace.
fn service_body(
    alloc: Global,
    grammar: Grammar,
    symbols: &[Placed],
    at: usize,
) -> Result<(Vec<MethodDecl>, usize), Refusal>
    requires { at ≤ length symbols.now }
    ensures within { IfOk result (λ x. (at < x.1) × (x.1 ≤ length symbols.now)) }
    ensures read { ReadsInSteps symbols.now at (λ x. (map method_view x.0.items, x.1)) result
        (λ n. mapped those_said (until n is_closing (service_statement_reader grammar n) (mark_reader (codes "}")) [])) }
{
    let mut methods = Vec::new(alloc);
    let mut here = at;
    while !begins_with_mark("}", symbols, here) {
        let (said, after) = service_statement(alloc, grammar, symbols, here)?;
        push_said(&mut methods, said)?;
        here = after;
    }
    let after = mark("}", symbols, here)?;
    Ok((methods, after))
}

/// Reads a service.
#[tactic(auto, unfolding(crate::specs::Readers::Lines::service_reader))]
pub(crate) fn service(
    alloc: Global,
    grammar: Grammar,
    symbols: &[Placed],
    at: usize,
) -> Result<(ServiceDecl, usize), Refusal>
    ensures within { IfOk result (λ x. (at < x.1) × (x.1 ≤ length symbols.now)) }
    ensures read { ReadsInSteps symbols.now at (λ x. (service_view x.0, x.1)) result (service_reader grammar) }
{
    let after = keyword("service", symbols, at)?;
    let (name, after) = name(symbols, after)?;
    let after = mark("{", symbols, after)?;
    let (methods, after) = service_body(alloc, grammar, symbols, after)?;
    let name = String::from_str(alloc, name)?;
    Ok((ServiceDecl { name, methods }, after))
}
