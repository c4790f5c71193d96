//! What bytes of a source are (Protocol Buffers Language Specification (Proto3), "Lexical Elements").

ghost use Rattle.std.specs.Prelude.{◌≡◌, ◌≤◌, ◌<◌, ◌+◌, true, false, length, take, drop, slice_index, IfSome, IfNone};
ghost use Rattle.std.specs.List.{list_all};
ghost use Rattle.pb_source_tokens.specs.Tokens.{begins_word, continues_word, is_quote, is_sign, is_blank, Stops, goes_on_line, has_close};

/// Whether the byte begins a word: a letter or `_`.
pub(crate) fn begins_word(byte: u8) -> bool
    ensures { result ≡ begins_word byte }
{
    byte.is_ascii_alphabetic() || byte == b'_'
}

/// Whether the byte goes on a word: a letter, a digit or `_`.
pub(crate) fn continues_word(byte: u8) -> bool
    ensures { result ≡ continues_word byte }
{
    begins_word(byte) || byte.is_ascii_digit()
}

/// Whether the byte is one of the two quotes of texts.
pub(crate) fn is_quote(byte: u8) -> bool
    ensures { result ≡ is_quote byte }
{
    byte == b'"' || byte == b'\''
}

/// Whether the byte is punctuation that is a token by itself.
pub(crate) fn is_sign(byte: u8) -> bool
    ensures { result ≡ is_sign byte }
{
    byte.is_ascii_punctuation() && !(is_quote(byte) || byte == b'_')
}

/// Whether the byte is a blank: space, tab, line feed, vertical tab, form feed or carriage return.
pub(crate) fn is_blank(byte: u8) -> bool
    ensures { result ≡ is_blank byte }
{
    byte == b' ' || (b'\t'..=b'\r').contains(&byte)
}

/// How many bytes at the front go on a word.
pub(crate) fn word_len(bytes: &[u8]) -> usize
    ensures within { result ≤ length bytes.now }
    ensures passes { list_all continues_word (take result bytes.now) ≡ true }
    ensures stops { Stops continues_word (drop result bytes.now) }
{
    for i in 0..bytes.len() {
        if !continues_word(bytes[i]) {
            return i;
        }
    }
    bytes.len()
}

/// How many bytes there are before the first line feed.
pub(crate) fn line_len(bytes: &[u8]) -> usize
    ensures within { result ≤ length bytes.now }
    ensures passes { list_all goes_on_line (take result bytes.now) ≡ true }
    ensures stops { Stops goes_on_line (drop result bytes.now) }
{
    for i in 0..bytes.len() {
        if bytes[i] == b'\n' {
            return i;
        }
    }
    bytes.len()
}

/// How many bytes there are before the first `*/`.
pub(crate) fn close_at(bytes: &[u8]) -> Option<usize>
    ensures found { IfSome result (λ i. (i + 1 < length bytes.now) × (slice_index bytes.now i ≡ 42) × (slice_index bytes.now (i + 1) ≡ 47)
        × (has_close (take (i + 1) bytes.now) ≡ false)) }
    ensures none { IfNone result (has_close bytes.now ≡ false) }
{
    for i in 1..bytes.len() {
        if bytes[i - 1] == b'*' && bytes[i] == b'/' {
            return Some(i - 1);
        }
    }
    None
}
