//! Messages, and what messages nest in: groups, and the oneofs and blocks of `extend` that have groups.
//!
//! `depth_left` is how many levels are left: as many messages may nest in one, each in the one before.

ghost use Rattle.std.specs.Prelude.{◌≡◌, ◌≤◌, ◌<◌, ◌++◌, [], length, map, codes, string_bytes, option_map, option_to_list, IfOk, OnOk, true};
ghost use Rattle.pb_declarations.specs.View.{message_view};
ghost use Rattle.pb_source_tokens.specs.Readers.Forms.{if_some, mapped, until, mark_reader};
ghost use Rattle.pb_source_tokens.specs.Readers.Given.{ReadsInSteps};
ghost use Rattle.pb_source.specs.Meaning.{message_of, those_said};
ghost use Rattle.pb_source.specs.Readers.Lines.{is_closing, nested_in, member_reader, labelled_reader, oneof_statement_reader, oneof_reader};
ghost use Rattle.pb_source.specs.Readers.Lines.{extension_reader, extend_reader, message_statement_line, room_statement_reader, message_reader};
ghost use Rattle.pb_source.specs.StatementView.{member_view, message_statement_view};
ghost use Rattle.pb_source.specs.PartsView.{is_nesting, IsCounted};

use crate::kind::{ExtendKind, Label, MessageKind, OneofKind};
use crate::parsing::declared::{MessageParts, add_statement, message_of};
use crate::parsing::fields::field;
use crate::parsing::groups::{group_field, group_head};
use crate::parsing::kinds::{extend_kind, message_kind, oneof_kind};
use crate::parsing::plain::plain_statement;
use crate::parsing::statement::{MemberSaid, MessageSaid};
use crate::parsing::syntaxes::{is_lenient, is_proto2, optional_label};
use pb_declarations::MessageDecl;
use pb_source_tokens::grammar::Grammar;
use pb_source_tokens::parsing::names::typename;
use pb_source_tokens::parsing::options::option;
use pb_source_tokens::parsing::single::{
    begins_with, begins_with_mark, keyword, mark, name, symbol_at,
};
use pb_source_tokens::refusal::Refusal;
use pb_source_tokens::rule::Rule;
use pb_source_tokens::symbol::Placed;
use std::alloc::{AllocError, Global};

// ---- fields and groups

/// Reads a field, or in proto2 a group.
#[cycle(message)]
fn member(
    alloc: Global,
    grammar: Grammar,
    depth_left: u8,
    label: Label,
    symbols: &[Placed],
    at: usize,
) -> Result<(MemberSaid, usize), Refusal>
    ensures within { IfOk result (λ x. (at < x.1) × (x.1 ≤ length symbols.now)) }
    ensures read { ReadsInSteps symbols.now at (λ x. (member_view x.0, x.1)) result (λ n. member_reader grammar n label (nested_in grammar n depth_left)) }
{
    if is_proto2(grammar) && begins_with("group", symbols, at) {
        if depth_left == 0 {
            return Err(Refusal::At {
                at,
                rule: Some(Rule::NestsBounded),
            });
        }
        let (head, after) = group_head(alloc, grammar, symbols, at)?;
        let (message, after) = message_body(
            alloc,
            grammar,
            depth_left - 1,
            head.name,
            symbols,
            after,
        )?;
        let field = group_field(alloc, label, &head)?;
        let member = MemberSaid {
            field,
            group: Some(message),
        };
        return Ok((member, after));
    }
    let (field, after) = field(alloc, grammar, label, symbols, at)?;
    Ok((MemberSaid { field, group: None }, after))
}

/// Reads a field or a group after the word of its label.
#[cycle(message)]
fn labelled(
    alloc: Global,
    grammar: Grammar,
    depth_left: u8,
    word: &str,
    label: Label,
    symbols: &[Placed],
    at: usize,
) -> Result<(MemberSaid, usize), Refusal>
    ensures within { IfOk result (λ x. (at < x.1) × (x.1 ≤ length symbols.now)) }
    ensures read { ReadsInSteps symbols.now at (λ x. (member_view x.0, x.1)) result
        (λ n. labelled_reader grammar n word.now label (nested_in grammar n depth_left)) }
{
    let after = keyword(word, symbols, at)?;
    let (member, after) = member(alloc, grammar, depth_left, label, symbols, after)?;
    Ok((member, after))
}

// ---- oneofs

/// Reads a statement of a oneof: a field, or what says nothing.
#[cycle(message)]
fn oneof_statement(
    alloc: Global,
    grammar: Grammar,
    depth_left: u8,
    symbols: &[Placed],
    at: usize,
) -> Result<(Option<MemberSaid>, usize), Refusal>
    ensures within { IfOk result (λ x. (at < x.1) × (x.1 ≤ length symbols.now)) }
    ensures read { ReadsInSteps symbols.now at (λ x. (option_map member_view x.0, x.1)) result
        (λ n. oneof_statement_reader grammar n (nested_in grammar n depth_left)) }
{
    let Some(first) = symbol_at(symbols, at) else {
        return Err(Refusal::At { at, rule: None });
    };
    match oneof_kind(&first.symbol) {
        Some(OneofKind::Empty) => {
            let after = mark(";", symbols, at)?;
            Ok((None, after))
        }
        Some(OneofKind::Option) => {
            let after = option(alloc, grammar, symbols, at)?;
            Ok((None, after))
        }
        Some(OneofKind::Field) => {
            let (member, after) = member(
                alloc,
                grammar,
                depth_left,
                Label::Unlabelled,
                symbols,
                at,
            )?;
            Ok((Some(member), after))
        }
        None => Err(Refusal::At { at, rule: None }),
    }
}

/// Puts a field after others, if there is one.
fn push_member(members: &mut Vec<MemberSaid>, said: Option<MemberSaid>) -> Result<(), AllocError>
    ensures { OnOk result (members.new.items ≡ members.old.items ++ option_to_list said) }
{
    if let Some(member) = said {
        members.push(member)?;
    }
    Ok(())
}

/// Reads the statements of a oneof, and the closing brace.
#[cycle(message)]
fn oneof_body(
    alloc: Global,
    grammar: Grammar,
    depth_left: u8,
    symbols: &[Placed],
    at: usize,
) -> Result<(Vec<MemberSaid>, usize), Refusal>
    requires { at ≤ length symbols.now }
    ensures within { IfOk result (λ x. (at < x.1) × (x.1 ≤ length symbols.now)) }
    ensures read { ReadsInSteps symbols.now at (λ x. (map member_view x.0.items, x.1)) result
        (λ n. mapped those_said (until n is_closing (oneof_statement_reader grammar n (nested_in grammar n depth_left)) (mark_reader (codes "}")) [])) }
{
    let mut members = Vec::new(alloc);
    let mut here = at;
    while !begins_with_mark("}", symbols, here) {
        let (said, after) = oneof_statement(alloc, grammar, depth_left, symbols, here)?;
        push_member(&mut members, said)?;
        here = after;
    }
    let after = mark("}", symbols, here)?;
    Ok((members, after))
}

/// Reads a oneof: its name and its fields.
#[cycle(message)]
fn oneof(
    alloc: Global,
    grammar: Grammar,
    depth_left: u8,
    symbols: &[Placed],
    at: usize,
) -> Result<((String, Vec<MemberSaid>), usize), Refusal>
    ensures within { IfOk result (λ x. (at < x.1) × (x.1 ≤ length symbols.now)) }
    ensures read { ReadsInSteps symbols.now at (λ x. ((string_bytes x.0.0, map member_view x.0.1.items), x.1)) result
        (λ n. oneof_reader grammar n (nested_in grammar n depth_left)) }
{
    let after = keyword("oneof", symbols, at)?;
    let (name, after) = name(symbols, after)?;
    let after = mark("{", symbols, after)?;
    let (members, after) = oneof_body(alloc, grammar, depth_left, symbols, after)?;
    let name = String::from_str(alloc, name)?;
    Ok(((name, members), after))
}

// ---- extensions

/// Reads an extension, or `;` alone: the message of a group.
#[cycle(message)]
fn extension(
    alloc: Global,
    grammar: Grammar,
    depth_left: u8,
    symbols: &[Placed],
    at: usize,
) -> Result<(Option<MessageDecl>, usize), Refusal>
    ensures within { IfOk result (λ x. (at < x.1) × (x.1 ≤ length symbols.now)) }
    ensures read { ReadsInSteps symbols.now at (λ x. (option_map message_view x.0, x.1)) result
        (λ n. extension_reader grammar n (nested_in grammar n depth_left)) }
{
    let Some(first) = symbol_at(symbols, at) else {
        return Err(Refusal::At { at, rule: None });
    };
    match extend_kind(&first.symbol) {
        Some(ExtendKind::Empty) => {
            let after = mark(";", symbols, at)?;
            Ok((None, after))
        }
        Some(ExtendKind::Repeated) => {
            let (member, after) = labelled(
                alloc,
                grammar,
                depth_left,
                "repeated",
                Label::Repeated,
                symbols,
                at,
            )?;
            Ok((member.group, after))
        }
        Some(ExtendKind::Optional) => {
            let label = optional_label(grammar);
            let (member, after) = labelled(
                alloc, grammar, depth_left, "optional", label, symbols, at,
            )?;
            Ok((member.group, after))
        }
        Some(ExtendKind::Required) => {
            if !is_proto2(grammar) {
                return Err(Refusal::At { at, rule: None });
            }
            let (member, after) = labelled(
                alloc,
                grammar,
                depth_left,
                "required",
                Label::Unlabelled,
                symbols,
                at,
            )?;
            Ok((member.group, after))
        }
        Some(ExtendKind::Field) => {
            if is_proto2(grammar) {
                return Err(Refusal::At { at, rule: None });
            }
            let (_, after) = field(alloc, grammar, Label::Unlabelled, symbols, at)?;
            Ok((None, after))
        }
        None => Err(Refusal::At { at, rule: None }),
    }
}

/// Puts a message after others, if there is one.
fn push_group(groups: &mut Vec<MessageDecl>, said: Option<MessageDecl>) -> Result<(), AllocError>
    ensures { OnOk result (groups.new.items ≡ groups.old.items ++ option_to_list said) }
{
    if let Some(group) = said {
        groups.push(group)?;
    }
    Ok(())
}

/// Reads the extensions of a block, and the closing brace: the messages of its groups.
#[cycle(message)]
fn extend_body(
    alloc: Global,
    grammar: Grammar,
    depth_left: u8,
    symbols: &[Placed],
    at: usize,
) -> Result<(Vec<MessageDecl>, usize), Refusal>
    requires { at ≤ length symbols.now }
    ensures within { IfOk result (λ x. (at < x.1) × (x.1 ≤ length symbols.now)) }
    ensures read { ReadsInSteps symbols.now at (λ x. (map message_view x.0.items, x.1)) result
        (λ n. mapped those_said (until n is_closing (extension_reader grammar n (nested_in grammar n depth_left)) (mark_reader (codes "}")) [])) }
{
    let mut groups = Vec::new(alloc);
    let mut here = at;
    while !begins_with_mark("}", symbols, here) {
        let (said, after) = extension(alloc, grammar, depth_left, symbols, here)?;
        push_group(&mut groups, said)?;
        here = after;
    }
    let after = mark("}", symbols, here)?;
    Ok((groups, after))
}

/// Reads a block of `extend`, of which the messages of its groups are kept.
#[cycle(message)]
pub(crate) fn extend(
    alloc: Global,
    grammar: Grammar,
    depth_left: u8,
    symbols: &[Placed],
    at: usize,
) -> Result<(Vec<MessageDecl>, usize), Refusal>
    ensures within { IfOk result (λ x. (at < x.1) × (x.1 ≤ length symbols.now)) }
    ensures read { ReadsInSteps symbols.now at (λ x. (map message_view x.0.items, x.1)) result
        (λ n. extend_reader grammar n (nested_in grammar n depth_left)) }
{
    let after = keyword("extend", symbols, at)?;
    let (_, after) = typename(alloc, symbols, after)?;
    let after = mark("{", symbols, after)?;
    let (groups, after) = extend_body(alloc, grammar, depth_left, symbols, after)?;
    Ok((groups, after))
}

// ---- messages

/// Reads a statement of this kind, which messages nest in.
#[cycle(message)]
fn nesting_statement(
    alloc: Global,
    grammar: Grammar,
    depth_left: u8,
    kind: MessageKind,
    symbols: &[Placed],
    at: usize,
) -> Result<(MessageSaid, usize), Refusal>
    requires { is_nesting kind ≡ true }
    ensures within { IfOk result (λ x. (at < x.1) × (x.1 ≤ length symbols.now)) }
    ensures bound { IfOk result (λ x. IsCounted x.0) }
    ensures read { ReadsInSteps symbols.now at (λ x. (message_statement_view x.0, x.1)) result
        (λ n. if_some (message_statement_line grammar n (nested_in grammar n depth_left) kind)) }
{
    match kind {
        MessageKind::Oneof => {
            let ((name, members), after) = oneof(alloc, grammar, depth_left, symbols, at)?;
            Ok((MessageSaid::Oneof(name, members), after))
        }
        MessageKind::Extend => {
            if !is_lenient(grammar) {
                return Err(Refusal::At { at, rule: None });
            }
            let (groups, after) = extend(alloc, grammar, depth_left, symbols, at)?;
            Ok((MessageSaid::Extend(groups), after))
        }
        MessageKind::Repeated => {
            let (member, after) = labelled(
                alloc,
                grammar,
                depth_left,
                "repeated",
                Label::Repeated,
                symbols,
                at,
            )?;
            Ok((MessageSaid::Field(member), after))
        }
        MessageKind::Optional => {
            let label = optional_label(grammar);
            let (member, after) = labelled(
                alloc, grammar, depth_left, "optional", label, symbols, at,
            )?;
            Ok((MessageSaid::Field(member), after))
        }
        MessageKind::Required => {
            if !is_proto2(grammar) {
                return Err(Refusal::At { at, rule: None });
            }
            let (member, after) = labelled(
                alloc,
                grammar,
                depth_left,
                "required",
                Label::Unlabelled,
                symbols,
                at,
            )?;
            Ok((MessageSaid::Field(member), after))
        }
        MessageKind::Empty
        | MessageKind::Option
        | MessageKind::Message
        | MessageKind::Enum
        | MessageKind::Reserved
        | MessageKind::Map
        | MessageKind::Field
        | MessageKind::Extensions => unreachable!(),
    }
}

/// Whether messages may nest in a statement of this kind, which is none itself.
fn is_nesting(kind: MessageKind) -> bool
    ensures { result ≡ is_nesting kind }
{
    matches!(
        kind,
        MessageKind::Oneof
            | MessageKind::Extend
            | MessageKind::Repeated
            | MessageKind::Optional
            | MessageKind::Required
    )
}

/// Reads a statement of a message with these levels left.
#[cycle(message)]
fn message_statement(
    alloc: Global,
    grammar: Grammar,
    depth_left: u8,
    symbols: &[Placed],
    at: usize,
) -> Result<(MessageSaid, usize), Refusal>
    ensures within { IfOk result (λ x. (at < x.1) × (x.1 ≤ length symbols.now)) }
    ensures bound { IfOk result (λ x. IsCounted x.0) }
    ensures read { ReadsInSteps symbols.now at (λ x. (message_statement_view x.0, x.1)) result (λ n. room_statement_reader grammar n depth_left) }
{
    let Some(first) = symbol_at(symbols, at) else {
        return Err(Refusal::At { at, rule: None });
    };
    match message_kind(&first.symbol) {
        Some(MessageKind::Message) => {
            if depth_left == 0 {
                return Err(Refusal::At {
                    at,
                    rule: Some(Rule::NestsBounded),
                });
            }
            let (inner, after) = message(alloc, grammar, depth_left - 1, symbols, at)?;
            Ok((MessageSaid::Message(inner), after))
        }
        Some(kind) => {
            if is_nesting(kind) {
                let (statement, after) = nesting_statement(
                    alloc, grammar, depth_left, kind, symbols, at,
                )?;
                return Ok((statement, after));
            }
            let (statement, after) = plain_statement(alloc, grammar, kind, symbols, at)?;
            Ok((statement, after))
        }
        None => Err(Refusal::At { at, rule: None }),
    }
}

/// Reads the statements of a message of this name, and the closing brace.
#[cycle(message)]
fn message_body(
    alloc: Global,
    grammar: Grammar,
    depth_left: u8,
    name: &str,
    symbols: &[Placed],
    at: usize,
) -> Result<(MessageDecl, usize), Refusal>
    requires { at ≤ length symbols.now }
    ensures within { IfOk result (λ x. (at < x.1) × (x.1 ≤ length symbols.now)) }
    ensures read { ReadsInSteps symbols.now at (λ x. (message_view x.0, x.1)) result
        (λ n. mapped (message_of name.now) (until n is_closing (room_statement_reader grammar n depth_left) (mark_reader (codes "}")) [])) }
{
    let mut parts = MessageParts::new(alloc);
    let mut here = at;
    while !begins_with_mark("}", symbols, here) {
        let (statement, after) = message_statement(alloc, grammar, depth_left, symbols, here)?;
        add_statement(alloc, &mut parts, statement)?;
        here = after;
    }
    let after = mark("}", symbols, here)?;
    let decl = message_of(alloc, name, parts)?;
    Ok((decl, after))
}

/// Reads a message with these levels left.
#[cycle(message)]
pub(crate) fn message(
    alloc: Global,
    grammar: Grammar,
    depth_left: u8,
    symbols: &[Placed],
    at: usize,
) -> Result<(MessageDecl, usize), Refusal>
    ensures within { IfOk result (λ x. (at < x.1) × (x.1 ≤ length symbols.now)) }
    ensures read { ReadsInSteps symbols.now at (λ x. (message_view x.0, x.1)) result (λ n. message_reader grammar n depth_left) }
{
    let after = keyword("message", symbols, at)?;
    let (name, after) = name(symbols, after)?;
    let after = mark("{", symbols, after)?;
    let (decl, after) = message_body(alloc, grammar, depth_left, name, symbols, after)?;
    Ok((decl, after))
}
