//! What bytes of a text are (Text Format Language Specification, "Characters").

ghost use Rattle.std.specs.Prelude.{◌≡◌, ◌≤◌, length};
ghost use Rattle.pb_text_tokens.specs.Characters.{begins_word, begins_digit, continues_comment, continues_word, first_of, is_blank, is_mark, is_quote, run_len};

/// What bytes begin with, by their first byte, and by the second one where that is a point.
#[derive(Clone, Copy, PartialEq, Eq)]
pub(crate) enum First {
    Blank,
    Comment,
    Word,
    Number,
    Quote,
    Mark,
    Other,
}

/// Whether the byte is a blank: space, tab, line feed, vertical tab, form feed or carriage return.
fn is_blank(byte: u8) -> bool
    ensures { result ≡ is_blank byte }
{
    byte == b' ' || (b'\t'..=b'\r').contains(&byte)
}

/// Whether the byte begins a word: a letter or `_`.
fn begins_word(byte: u8) -> bool
    ensures { result ≡ begins_word byte }
{
    byte.is_ascii_alphabetic() || byte == b'_'
}

/// Whether the byte goes on a word: a letter, a digit or `_`.
pub(crate) fn continues_word(byte: u8) -> bool
    ensures { result ≡ continues_word byte }
{
    begins_word(byte) || byte.is_ascii_digit()
}

/// Whether the byte is one of the two quotes of strings.
fn is_quote(byte: u8) -> bool
    ensures { result ≡ is_quote byte }
{
    byte == b'"' || byte == b'\''
}

/// Whether the byte is a punctuation mark.
fn is_mark(byte: u8) -> bool
    ensures { result ≡ is_mark byte }
{
    matches!(
        byte,
        b'{' | b'}' | b'<' | b'>' | b'[' | b']' | b':' | b';' | b',' | b'-' | b'.' | b'/'
    )
}

/// Whether the byte goes on a comment: neither a line feed nor NUL.
fn continues_comment(byte: u8) -> bool
    ensures { result ≡ continues_comment byte }
{
    !(byte == b'\n' || byte == 0)
}

/// Whether the first byte is a digit.
pub(crate) fn begins_digit(bytes: &[u8]) -> bool
    ensures { result ≡ begins_digit bytes.now }
{
    match bytes.first() {
        Some(byte) => byte.is_ascii_digit(),
        None => false,
    }
}

/// What the bytes begin with.
pub(crate) fn first_of(bytes: &[u8]) -> First
    ensures { result ≡ first_of bytes.now }
{
    if bytes.is_empty() {
        return First::Other;
    }
    let byte = bytes[0];
    if is_blank(byte) {
        return First::Blank;
    }
    if byte == b'#' {
        return First::Comment;
    }
    if begins_word(byte) {
        return First::Word;
    }
    if byte.is_ascii_digit() || (byte == b'.' && begins_digit(&bytes[1..])) {
        return First::Number;
    }
    if is_quote(byte) {
        return First::Quote;
    }
    if is_mark(byte) {
        return First::Mark;
    }
    First::Other
}

/// How many bytes at the start are blanks.
pub(crate) fn blanks_len(bytes: &[u8]) -> usize
    ensures is { result ≡ run_len is_blank bytes.now }
    ensures within { result ≤ length bytes.now }
{
    for i in 0..bytes.len() {
        if !is_blank(bytes[i]) {
            return i;
        }
    }
    bytes.len()
}

/// How many bytes at the start go on a comment.
pub(crate) fn comment_len(bytes: &[u8]) -> usize
    ensures is { result ≡ run_len continues_comment bytes.now }
    ensures within { result ≤ length bytes.now }
{
    for i in 0..bytes.len() {
        if !continues_comment(bytes[i]) {
            return i;
        }
    }
    bytes.len()
}

/// How many bytes at the start go on a word.
pub(crate) fn word_len(bytes: &[u8]) -> usize
    ensures is { result ≡ run_len continues_word bytes.now }
    ensures within { result ≤ length bytes.now }
{
    for i in 0..bytes.len() {
        if !continues_word(bytes[i]) {
            return i;
        }
    }
    bytes.len()
}
