//! What a source could have had in place of what is refused.

use crate::lines::put;
use pb_source::{SourceCause, SourceFault, parse, parse_lenient};
use pb_wire::MemOutput;
use pbtool_files::Reading;
use std::alloc::{AllocError, Global};

/// A kind of tokens: one of them, and its name.
#[derive(Clone, Copy)]
struct TokenKind {
    token: &'static str,
    name: &'static str,
}

const NAME: TokenKind = TokenKind {
    token: "x",
    name: "a name",
};

const NUMBER: TokenKind = TokenKind {
    token: "1",
    name: "a number",
};

const STRING: TokenKind = TokenKind {
    token: "\"proto3\"",
    name: "a string",
};

const SIGNS: &[&str] = &[
    ";", "=", ",", ".", "-", "(", ")", "[", "]", "{", "}", "<", ">",
];

/// The words that the grammar has, in the order in which they are listed.
const WORDS: &[&str] = &[
    "syntax", "import", "public", "weak", "package", "option", "message", "enum", "service",
    "extend", "rpc", "stream", "returns", "to", "max", "optional", "required", "repeated", "int32",
    "int64", "uint32", "uint64", "sint32", "sint64", "fixed32", "fixed64", "sfixed32", "sfixed64",
    "bool", "string",
];

/// Writes what could have been in a source in place of what is refused.
pub(crate) fn put_expected(
    alloc: Global,
    reading: Reading,
    source: &[u8],
    fault: SourceFault,
    lines: &mut MemOutput,
) {
    let Some(sentence) = sentence(reading, fault.cause) else {
        put_followers(alloc, reading, before(source, fault.byte as usize), lines);
        return;
    };
    put(lines, b"  expected: ");
    put(lines, sentence);
    put(lines, b"\n");
}

/// The bytes of a source before one.
fn before(source: &[u8], byte: usize) -> &[u8] {
    &source[..byte.min(source.len())]
}

/// What a cause means was expected; none where that depends on what is before the byte.
fn sentence(reading: Reading, cause: SourceCause) -> Option<&'static [u8]> {
    match cause {
        SourceCause::SourceTooLarge => Some(b"at most 2147483647 bytes"),
        SourceCause::BadUtf8 => Some(b"characters in UTF-8"),
        SourceCause::BadToken => Some(b"a word, a number, a string, a sign or a comment"),
        SourceCause::OpenComment => Some(b"*/ after the comment that begins here"),
        SourceCause::OpenText => Some(
            b"the closing quote of the string that begins here, on its line",
        ),
        SourceCause::NumberTooLarge => Some(b"a number of at most 2147483647"),
        SourceCause::CustomOption => Some(b"the name of an option without parentheses"),
        SourceCause::NotProto3 => Some(known_syntax(reading)),
        SourceCause::NestedTooDeep => Some(b"messages nested at most 64 deep"),
        SourceCause::Memory => Some(b"more memory"),
        SourceCause::Unexpected => None,
    }
}

/// Which syntax a source may name.
fn known_syntax(reading: Reading) -> &'static [u8] {
    match reading {
        Reading::Strict => b"syntax = \"proto3\"; before all else",
        Reading::Lenient => b"\"proto2\" or \"proto3\"",
    }
}

/// Writes which tokens may follow the first bytes of a source. Without memory to find them all, nothing is written.
fn put_followers(alloc: Global, reading: Reading, first: &[u8], lines: &mut MemOutput) {
    let Ok(followers) = followers(alloc, reading, first) else {
        return;
    };
    put(lines, b"  expected: ");
    for (index, follower) in followers.as_slice().iter().enumerate() {
        put(lines, separator(index, followers.len()));
        put(lines, follower.as_str().as_bytes());
    }
    put(lines, b"\n");
}

/// What is written before an element of a list of this length.
fn separator(index: usize, count: usize) -> &'static [u8] {
    if index == 0 {
        b""
    } else if count.saturating_sub(index) == 1 {
        b" or "
    } else {
        b", "
    }
}

/// The tokens that may follow the first bytes of a source, by their names or in quotes. Where any name may follow, no word is listed.
fn followers(alloc: Global, reading: Reading, first: &[u8]) -> Result<Vec<String>, AllocError> {
    let mut found = Vec::new(alloc);
    push_kind(alloc, reading, first, NAME, &mut found)?;
    let any_name = !found.is_empty();
    push_kind(alloc, reading, first, NUMBER, &mut found)?;
    push_kind(alloc, reading, first, STRING, &mut found)?;
    if !any_name {
        push_listed(alloc, reading, first, WORDS, &mut found)?;
    }
    push_listed(alloc, reading, first, SIGNS, &mut found)?;
    if fault_of(alloc, reading, first)?.is_none() {
        found.push(String::from_str(alloc, "the end of the source")?)?;
    }
    Ok(found)
}

/// Appends the name of a kind of tokens, if one of them may follow.
fn push_kind(
    alloc: Global,
    reading: Reading,
    first: &[u8],
    kind: TokenKind,
    found: &mut Vec<String>,
) -> Result<(), AllocError> {
    if may_follow(alloc, reading, first, kind.token)? {
        found.push(String::from_str(alloc, kind.name)?)?;
    }
    Ok(())
}

/// Appends, in quotes, each of these tokens that may follow.
fn push_listed(
    alloc: Global,
    reading: Reading,
    first: &[u8],
    tokens: &[&str],
    found: &mut Vec<String>,
) -> Result<(), AllocError> {
    for token in tokens {
        if may_follow(alloc, reading, first, token)? {
            found.push(quoted(alloc, token)?)?;
        }
    }
    Ok(())
}

fn quoted(alloc: Global, token: &str) -> Result<String, AllocError> {
    let mut text = String::from_str(alloc, "\"")?;
    text.push_str(token)?;
    text.push_str("\"")?;
    Ok(text)
}

/// Whether a source can begin with these bytes and then this token: no fault is reported there.
fn may_follow(
    alloc: Global,
    reading: Reading,
    first: &[u8],
    token: &str,
) -> Result<bool, AllocError> {
    let mut tried = Vec::from_slice(alloc, first)?;
    tried.push(b'\n')?;
    let at = tried.len() as u64;
    tried.extend_from_slice(token.as_bytes())?;
    match fault_of(alloc, reading, tried.as_slice())? {
        None => Ok(true),
        Some(fault) => Ok(fault.byte > at),
    }
}

/// Why bytes are no source, if they are none.
fn fault_of(
    alloc: Global,
    reading: Reading,
    bytes: &[u8],
) -> Result<Option<SourceFault>, AllocError> {
    let declared = match reading {
        Reading::Strict => parse(alloc, "", bytes),
        Reading::Lenient => parse_lenient(alloc, "", bytes),
    };
    match declared {
        Ok(_) => Ok(None),
        Err(fault) if fault.cause == SourceCause::Memory => Err(AllocError),
        Err(fault) => Ok(Some(fault)),
    }
}
