//! Files.

ghost use Rattle.std.specs.Prelude.{◌≡◌, ◌≤◌, ◌<◌, ℕ, [], false, if◌then◌else◌, Some, None, length, codes, string_bytes, IfOk, IfErr, Ok, List};
ghost use Rattle.std.specs.Str.{bytes_eq};
ghost use Rattle.pb_declarations.specs.View.{file_view};
ghost use Rattle.pb_source_tokens.specs.Language.{all_rules};
ghost use Rattle.pb_source_tokens.specs.declared.rule.Rule.TheVariants.{SyntaxFirst};
ghost use Rattle.pb_source_tokens.specs.declared.grammar.Grammar.{Grammar};
ghost use Rattle.pb_source_tokens.specs.Readers.Forms.{symbol, judged, if_some, mapped, to_end};
ghost use Rattle.pb_source_tokens.specs.Readers.Given.{symbols_from, Fails, Reads, ReadsInSteps};
ghost use Rattle.pb_source.specs.Meaning.{FileStatement, file_of};
ghost use Rattle.pb_source.specs.Readers.Lines.{taken, nested_in, extend_reader, access_reader, import_reader};
ghost use Rattle.pb_source.specs.Readers.Lines.{package_reader, file_statement_reader, file_reader};
ghost use Rattle.pb_source.specs.Readers.Lines.{is_package, syntax_reader, strict_syntax_reader, lenient_syntax_reader};
ghost use Rattle.pb_source.specs.Readers.Lines.{syntax_word_in, syntax_text_in, named_syntax, named_syntax_in};
ghost use Rattle.pb_source.specs.Syntaxes.{is_lenient};
ghost use Rattle.pb_source.specs.StatementView.{file_statement_view};

use crate::kind::FileKind;
use crate::parsing::declared::{FileParts, add_file_statement};
use crate::parsing::enums::enum_line;
use crate::parsing::kinds::file_kind;
use crate::parsing::messages::{extend, message};
use crate::parsing::scopes::file_of;
use crate::parsing::services::service;
use crate::parsing::statement::FileSaid;
use crate::parsing::syntaxes::is_lenient;
use crate::reading::Reading;
use pb_declarations::FileDecl;
use pb_source_tokens::grammar::{Grammar, Syntax};
use pb_source_tokens::parsing::names::{joined, words};
use pb_source_tokens::parsing::options::option;
use pb_source_tokens::parsing::single::{begins_with, keyword, mark, symbol_at, utf8_text};
use pb_source_tokens::refusal::Refusal;
use pb_source_tokens::rule::Rule;
use pb_source_tokens::symbol::{Placed, Symbol, is_keyword};
use std::alloc::Global;

/// How many messages of a file may nest, each in the one before.
const ROOM: u8 = 64;

/// Reads the word `syntax`.
fn syntax_word(symbols: &[Placed], at: usize) -> Result<usize, Refusal>
    ensures within { IfOk result (λ after. (at < after) × (after ≤ length symbols.now)) }
    ensures read { Reads symbols.now at (λ after. (tt, after)) result (symbol (judged SyntaxFirst syntax_word_in)) }
{
    let Some(first) = symbol_at(symbols, at) else {
        return Err(Refusal::At { at, rule: None });
    };
    if is_keyword(&first.symbol, "syntax") {
        return Ok(at + 1);
    }
    Err(Refusal::At {
        at,
        rule: Some(Rule::SyntaxFirst),
    })
}

/// Whether the bytes are `proto3`.
fn is_proto3(bytes: &[u8]) -> bool
    ensures { result ≡ bytes_eq bytes.now (codes "proto3") }
{
    bytes == b"proto3".as_slice()
}

/// Reads the text `proto3`.
fn syntax_text(symbols: &[Placed], at: usize) -> Result<usize, Refusal>
    ensures within { IfOk result (λ after. (at < after) × (after ≤ length symbols.now)) }
    ensures read { Reads symbols.now at (λ after. (tt, after)) result (symbol (judged SyntaxFirst syntax_text_in)) }
{
    if let Some(first) = symbol_at(symbols, at) {
        if let Symbol::Text(bytes) = &first.symbol {
            if is_proto3(bytes.as_slice()) {
                return Ok(at + 1);
            }
            return Err(Refusal::At {
                at,
                rule: Some(Rule::SyntaxFirst),
            });
        }
    }
    Err(Refusal::At { at, rule: None })
}

/// Reads the first statement of a file that is read strictly.
#[tactic(auto, unfolding(crate::specs::Readers::Lines::strict_syntax_reader))]
fn strict_syntax(symbols: &[Placed], at: usize) -> Result<usize, Refusal>
    ensures within { IfOk result (λ after. (at < after) × (after ≤ length symbols.now)) }
    ensures read { Reads symbols.now at (λ after. (tt, after)) result strict_syntax_reader }
{
    let after = syntax_word(symbols, at)?;
    let after = mark("=", symbols, after)?;
    let after = syntax_text(symbols, after)?;
    let after = mark(";", symbols, after)?;
    Ok(after)
}

/// The syntax that these bytes name, if they name one.
fn named_syntax(bytes: &[u8]) -> Option<Syntax>
    ensures { result ≡ (if (named_syntax bytes.now).1 then Some (named_syntax bytes.now).0 else None) }
{
    if bytes == b"proto2".as_slice() {
        return Some(Syntax::Proto2);
    }
    if bytes == b"proto3".as_slice() {
        return Some(Syntax::Proto3);
    }
    None
}

/// Reads the text that names a syntax.
fn any_syntax_text(symbols: &[Placed], at: usize) -> Result<(Syntax, usize), Refusal>
    ensures within { IfOk result (λ x. (at < x.1) × (x.1 ≤ length symbols.now)) }
    ensures read { Reads symbols.now at (λ x. x) result (symbol (judged SyntaxFirst named_syntax_in)) }
{
    if let Some(first) = symbol_at(symbols, at) {
        if let Symbol::Text(bytes) = &first.symbol {
            if let Some(syntax) = named_syntax(bytes.as_slice()) {
                return Ok((syntax, at + 1));
            }
            return Err(Refusal::At {
                at,
                rule: Some(Rule::SyntaxFirst),
            });
        }
    }
    Err(Refusal::At { at, rule: None })
}

/// Reads the statement of a syntax in a file that is read leniently.
#[tactic(auto, unfolding(crate::specs::Readers::Lines::lenient_syntax_reader))]
fn lenient_syntax(symbols: &[Placed], at: usize) -> Result<(Syntax, usize), Refusal>
    ensures within { IfOk result (λ x. (at < x.1) × (x.1 ≤ length symbols.now)) }
    ensures read { Reads symbols.now at (λ x. x) result lenient_syntax_reader }
{
    let after = keyword("syntax", symbols, at)?;
    let after = mark("=", symbols, after)?;
    let (syntax, after) = any_syntax_text(symbols, after)?;
    let after = mark(";", symbols, after)?;
    Ok((syntax, after))
}

/// Reads the syntax of a file, and gives the grammar of its other statements.
#[tactic(auto, unfolding(crate::specs::Readers::Lines::syntax_reader))]
fn syntax(reading: Reading, symbols: &[Placed], at: usize) -> Result<(Grammar, usize), Refusal>
    requires { at ≤ length symbols.now }
    ensures within { IfOk result (λ x. (at ≤ x.1) × (x.1 ≤ length symbols.now)) }
    ensures read { Reads symbols.now at (λ x. x) result (syntax_reader reading) }
{
    match reading {
        Reading::Strict => {
            let after = strict_syntax(symbols, at)?;
            Ok((Grammar::Strict, after))
        }
        Reading::Lenient => {
            if begins_with("syntax", symbols, at) {
                let (syntax, after) = lenient_syntax(symbols, at)?;
                return Ok((Grammar::Lenient(syntax), after));
            }
            Ok((Grammar::Lenient(Syntax::Proto2), at))
        }
    }
}

/// Reads whether an import is public.
#[tactic(auto, unfolding(crate::specs::Readers::Lines::access_reader))]
fn access(symbols: &[Placed], at: usize) -> Result<(bool, usize), Refusal>
    ensures on { IfOk result (λ x. at ≤ x.1) }
    ensures read { Reads symbols.now at (λ x. x) result access_reader }
{
    if begins_with("public", symbols, at) {
        let after = keyword("public", symbols, at)?;
        return Ok((true, after));
    }
    if begins_with("weak", symbols, at) {
        let after = keyword("weak", symbols, at)?;
        return Ok((false, after));
    }
    Ok((false, at))
}

/// Reads an import: whether it is public, and which file it names.
#[tactic(auto, unfolding(crate::specs::Readers::Lines::import_reader))]
fn import(alloc: Global, symbols: &[Placed], at: usize) -> Result<((bool, String), usize), Refusal>
    ensures within { IfOk result (λ x. (at < x.1) × (x.1 ≤ length symbols.now)) }
    ensures read { Reads symbols.now at (λ x. ((x.0.0, string_bytes x.0.1), x.1)) result import_reader }
{
    let after = keyword("import", symbols, at)?;
    let (is_public, after) = access(symbols, after)?;
    let (name, after) = utf8_text(symbols, after)?;
    let after = mark(";", symbols, after)?;
    let name = String::from_str(alloc, name)?;
    Ok(((is_public, name), after))
}

/// Reads a package.
#[tactic(auto, unfolding(crate::specs::Readers::Lines::package_reader))]
fn package(alloc: Global, symbols: &[Placed], at: usize) -> Result<(String, usize), Refusal>
    ensures within { IfOk result (λ x. (at < x.1) × (x.1 ≤ length symbols.now)) }
    ensures read { ReadsInSteps symbols.now at (λ x. (string_bytes x.0, x.1)) result package_reader }
{
    let after = keyword("package", symbols, at)?;
    let (words, after) = words(alloc, symbols, after)?;
    let after = mark(";", symbols, after)?;
    let name = joined(alloc, words.as_slice())?;
    Ok((name, after))
}

/// Reads a block of `extend`, of which the messages of its groups are kept. The strict grammar has none.
fn extend_statement(
    alloc: Global,
    grammar: Grammar,
    symbols: &[Placed],
    at: usize,
) -> Result<(FileSaid, usize), Refusal>
    ensures within { IfOk result (λ x. (at < x.1) × (x.1 ≤ length symbols.now)) }
    ensures read { ReadsInSteps symbols.now at (λ x. (file_statement_view x.0, x.1)) result
        (λ n. if_some (taken (is_lenient grammar) (mapped FileStatement.an_extend (extend_reader grammar n (nested_in grammar n 64))))) }
{
    if !is_lenient(grammar) {
        return Err(Refusal::At { at, rule: None });
    }
    let (groups, after) = extend(alloc, grammar, ROOM, symbols, at)?;
    Ok((FileSaid::Extend(groups), after))
}

/// Reads a statement of a file: no package, where one has been said.
#[tactic(auto, unfolding(crate::specs::Readers::Lines::file_statement_reader))]
fn file_statement(
    alloc: Global,
    grammar: Grammar,
    packaged: bool,
    symbols: &[Placed],
    at: usize,
) -> Result<(FileSaid, usize), Refusal>
    ensures within { IfOk result (λ x. (at < x.1) × (x.1 ≤ length symbols.now)) }
    ensures read { ReadsInSteps symbols.now at (λ x. (file_statement_view x.0, x.1)) result (λ n. file_statement_reader grammar n packaged) }
{
    let Some(first) = symbol_at(symbols, at) else {
        return Err(Refusal::At { at, rule: None });
    };
    match file_kind(&first.symbol) {
        Some(FileKind::Empty) => {
            let after = mark(";", symbols, at)?;
            Ok((FileSaid::Nothing, after))
        }
        Some(FileKind::Option) => {
            let after = option(alloc, grammar, symbols, at)?;
            Ok((FileSaid::Nothing, after))
        }
        Some(FileKind::Import) => {
            let ((is_public, name), after) = import(alloc, symbols, at)?;
            Ok((FileSaid::Import(is_public, name), after))
        }
        Some(FileKind::Package) => {
            if packaged {
                return Err(Refusal::At { at, rule: None });
            }
            let (package, after) = package(alloc, symbols, at)?;
            Ok((FileSaid::Package(package), after))
        }
        Some(FileKind::Message) => {
            let (message, after) = message(alloc, grammar, ROOM - 1, symbols, at)?;
            Ok((FileSaid::Message(message), after))
        }
        Some(FileKind::Enum) => {
            let (decl, after) = enum_line(alloc, grammar, symbols, at)?;
            Ok((FileSaid::Enum(decl), after))
        }
        Some(FileKind::Service) => {
            let (service, after) = service(alloc, grammar, symbols, at)?;
            Ok((FileSaid::Service(service), after))
        }
        Some(FileKind::Extend) => {
            let (groups, after) = extend_statement(alloc, grammar, symbols, at)?;
            Ok((groups, after))
        }
        None => Err(Refusal::At { at, rule: None }),
    }
}

/// Whether the statement is a package.
fn is_package(statement: &FileSaid) -> bool
    ensures { result ≡ is_package (file_statement_view statement.now) }
{
    match statement {
        FileSaid::Package(_) => true,
        FileSaid::Nothing
        | FileSaid::Import(_, _)
        | FileSaid::Message(_)
        | FileSaid::Extend(_)
        | FileSaid::Enum(_)
        | FileSaid::Service(_) => false,
    }
}

/// Reads statements up to the end, of which at most one is a package.
fn file_body(
    alloc: Global,
    grammar: Grammar,
    name: &str,
    symbols: &[Placed],
    at: usize,
) -> Result<FileDecl, Refusal>
    requires { at ≤ length symbols.now }
    ensures read { IfOk result (λ d. (ss : List FileStatement) × (file_view d ≡ file_of grammar name.now ss)
        × ((n : ℕ) → length symbols.now ≤ n
        → to_end n is_package (file_statement_reader grammar n) false [] all_rules (symbols_from symbols.now at) ≡ Ok (ss, []))) }
    ensures refused { IfErr result (λ e. (n : ℕ) → length symbols.now ≤ n
        → Fails symbols.now e (to_end n is_package (file_statement_reader grammar n) false [] all_rules (symbols_from symbols.now at))) }
{
    let mut parts = FileParts::new(alloc);
    let mut here = at;
    let mut packaged = false;
    while here < symbols.len() {
        let (statement, after) = file_statement(alloc, grammar, packaged, symbols, here)?;
        packaged |= is_package(&statement);
        add_file_statement(&mut parts, statement)?;
        here = after;
    }
    let decl = file_of(alloc, grammar, name, parts)?;
    Ok(decl)
}

/// Reads a file of this name.
#[tactic(auto, unfolding(crate::specs::Readers::Lines::file_reader))]
pub(crate) fn file(
    alloc: Global,
    reading: Reading,
    name: &str,
    symbols: &[Placed],
) -> Result<FileDecl, Refusal>
    ensures read { IfOk result (λ d. (x : Grammar × List FileStatement) × (file_view d ≡ file_of x.0 name.now x.1)
        × ((n : ℕ) → length symbols.now ≤ n → file_reader reading n all_rules (symbols_from symbols.now 0) ≡ Ok (x, []))) }
    ensures refused { IfErr result (λ e. (n : ℕ) → length symbols.now ≤ n
        → Fails symbols.now e (file_reader reading n all_rules (symbols_from symbols.now 0))) }
{
    let (grammar, after) = syntax(reading, symbols, 0)?;
    let decl = file_body(alloc, grammar, name, symbols, after)?;
    Ok(decl)
}
