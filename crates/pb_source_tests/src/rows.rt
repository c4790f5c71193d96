//! Sources with their tokens or their fault, written out by the rules.

use pb_source::{SourceCause, SourceFault, Token, TokenKind, lex};
use std::alloc::Global;
use std::test::Fail;

/// A row: the source, then each token as its kind (W, N, T, S), its first byte and the byte after it, or `!`, the byte and the cause of the
/// fault. In a source `¶` means a line feed, `␀` for a NUL and `␡` for the delete character.
const ROWS: &str = "
 =>
a => W0-1
_ => W0-1
a1 /* b */ 0x1F'\\'\\x41';// end => W0-2 N11-15 T15-23 S23-24
a.b => W0-1 S1-2 W2-3
a-1 => W0-1 S1-2 N2-3
1a.5 => N0-2 S2-3 N3-4
0x => N0-2
08 => N0-2
a/b => W0-1 S1-2 W2-3
a//b => W0-1
a//b¶c => W0-1 W5-6
/ => S0-1
a/ => W0-1 S1-2
/**/ =>
/***/ =>
/* /* */a => W8-9
/*//*/a => W6-7
/* x => ! 0 OpenComment
; /* x => ! 2 OpenComment
/*/ => ! 0 OpenComment
/* * / => ! 0 OpenComment
//*¶a => W4-5
// ␀é¶a => W7-8
/*␀é*/a => W7-8
{}[]()<>=,;:+!@#$%^&*|~?` => S0-1 S1-2 S2-3 S3-4 S4-5 S5-6 S6-7 S7-8 S8-9 S9-10 S10-11 S11-12 S12-13 S13-14 S14-15 S15-16 S16-17 S17-18 S18-19 S19-20 S20-21 S21-22 S22-23 S23-24 S24-25
\\ => S0-1
'' => T0-2
\"\" => T0-2
'\"' => T0-3
\"'\" => T0-3
'a''b' => T0-3 T3-6
'é' => T0-4
'// /*' => T0-7
'\\a\\b\\f\\n\\r\\t\\v\\\\\\'\\\"\\?' => T0-24
'\\x4\\X41g' => T0-10
'\\7\\77\\777\\4567' => T0-16
'\\u0041\\U0010ffff' => T0-18
'\\ud7ff\\ue000' => T0-14
'\\ud800' => ! 1 BadToken
'\\udfff' => ! 1 BadToken
'a\\U00110000' => ! 2 BadToken
'\\u004' => ! 1 BadToken
'\\U0000041' => ! 1 BadToken
'\\xg' => ! 1 BadToken
'\\8' => ! 1 BadToken
'ab\\q' => ! 3 BadToken
'a␀' => ! 2 BadToken
'a => ! 0 OpenText
\"a' => ! 0 OpenText
'a¶' => ! 0 OpenText
'a\\¶' => ! 0 OpenText
'\\' => ! 0 OpenText
'\\q => ! 0 OpenText
'\\\\' => T0-4
a 'b\\q' /* => ! 4 BadToken
a é => ! 2 BadToken
a ␡ => ! 2 BadToken
␀ => ! 0 BadToken
a\u{feff} => ! 1 BadToken
\u{feff} =>
\u{feff}a => W3-4
\u{feff}\u{feff} => ! 3 BadToken
\u{feff}'a => ! 3 OpenText
syntax = \"proto3\"; /* x => ! 19 OpenComment
syntax = \"proto3\"; import \"a¶ => ! 26 OpenText
syntax = \"proto3\"; import \"\\q\"; => ! 27 BadToken
syntax = \"proto3\"; => W0-6 S7-8 T9-17 S17-18
message M { int32 a = 010; } => W0-7 W8-9 S10-11 W12-17 W18-19 S20-21 N22-25 S25-26 S27-28
map<string, int32> my_map = 9; => W0-3 S3-4 W4-10 S10-11 W12-17 S17-18 W19-25 S26-27 N28-29 S29-30
";

/// The source that a row writes.
fn source_of(alloc: Global, written: &str) -> Result<String, Fail> {
    let mut source = String::new(alloc);
    for character in written.chars() {
        source.push(match character {
            '¶' => '\n',
            '␀' => '\0',
            '␡' => '\u{7f}',
            other => other,
        })?;
    }
    Ok(source)
}

fn kind_of(letter: &str) -> Option<TokenKind> {
    match letter {
        "W" => Some(TokenKind::Word),
        "N" => Some(TokenKind::Number),
        "T" => Some(TokenKind::Text),
        "S" => Some(TokenKind::Sign),
        _ => None,
    }
}

/// Whether the token is the one that the word writes, as a slice of the source.
fn is_token(token: &Token<'_>, source: &str, word: &str) -> Result<bool, Fail> {
    let (letter, range) = word.split_at_checked(1).ok_or("no kind")?;
    let (start, end) = range.split_once('-').ok_or("no range")?;
    let start = start.parse::<usize>()?;
    let end = end.parse::<usize>()?;
    Ok(
        Some(token.kind) == kind_of(letter)
            && token.at == start as u64
            && Some(token.text) == source.get(start..end),
    )
}

/// Whether the source has just the tokens that the words write.
fn has_tokens(alloc: Global, source: &str, words: &str) -> Result<bool, Fail> {
    let tokens = lex(alloc, source)?;
    let mut rest = tokens.iter();
    for word in words.split_whitespace() {
        let token = rest.next().ok_or("too few tokens")?;
        if !is_token(token, source, word)? {
            return Ok(false);
        }
    }
    Ok(rest.next().is_none())
}

fn cause_of(name: &str) -> Option<SourceCause> {
    match name {
        "BadToken" => Some(SourceCause::BadToken),
        "OpenComment" => Some(SourceCause::OpenComment),
        "OpenText" => Some(SourceCause::OpenText),
        _ => None,
    }
}

/// Whether the source has the fault that the words write.
fn has_fault(alloc: Global, source: &str, words: &str) -> Result<bool, Fail> {
    let (byte, name) = words.trim().split_once(' ').ok_or("no cause")?;
    let wanted = SourceFault {
        byte: byte.parse::<u64>()?,
        cause: cause_of(name).ok_or("no such cause")?,
    };
    Ok(match lex(alloc, source) {
        Ok(_) => false,
        Err(fault) => fault == wanted,
    })
}

fn holds(alloc: Global, row: &str) -> Result<bool, Fail> {
    let (written, words) = row.split_once(" =>").ok_or("no source")?;
    let source = source_of(alloc, written)?;
    match words.trim().strip_prefix("!") {
        Some(fault) => has_fault(alloc, &source, fault),
        None => has_tokens(alloc, &source, words),
    }
}

#[test]
fn rows(rt: HostRuntime) -> Result<(), Fail> {
    for row in ROWS.lines() {
        assert!(rt; row.is_empty() || holds(rt.alloc(), row)?, "{row}");
    }
    Ok(())
}
