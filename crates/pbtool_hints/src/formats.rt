//! What a file looks like that is given as a descriptor set and is none.

/// A form of files that a person may take for a descriptor set.
#[derive(Clone, Copy, Debug, PartialEq, Eq)]
pub(crate) enum Format {
    Gzip,
    Json,
    Source,
    Hexadecimal,
    Base64,
}

/// The words that a source begins with.
const WORDS: &[&str] = &[
    "syntax", "edition", "package", "import", "option", "message", "enum", "service", "extend",
];

/// How many characters are needed to take them for digits.
const DIGITS: usize = 8;

impl Format {
    /// What a file begins as by its first bytes, if it is one of these.
    pub(crate) fn of(bytes: &[u8]) -> Option<Format> {
        if bytes.starts_with(&[0x1f, 0x8b]) {
            return Some(Format::Gzip);
        }
        let text = without_blanks(without_mark(bytes));
        if text.starts_with(b"{") || text.starts_with(b"[") {
            Some(Format::Json)
        } else if begins_source(text) {
            Some(Format::Source)
        } else {
            Format::of_digits(text)
        }
    }

    /// Which digits the characters are, if all are.
    fn of_digits(text: &[u8]) -> Option<Format> {
        if text.len() < DIGITS {
            None
        } else if text
            .iter()
            .all(|byte| is_blank(*byte) || byte.is_ascii_hexdigit())
        {
            Some(Format::Hexadecimal)
        } else if text.iter().all(|byte| is_blank(*byte) || is_base64(*byte)) {
            Some(Format::Base64)
        } else {
            None
        }
    }

    /// What it is, and what to do with it.
    pub(crate) fn advice(self) -> &'static [u8] {
        match self {
            Format::Gzip => b" looks like a gzip file: unpack it first, as by gzip -d",
            Format::Json => b" looks like JSON: a set is binary, as compile writes it",
            Format::Source => b" looks like a source: make a set of it first, by compile",
            Format::Hexadecimal => b" looks like hexadecimal: decode it first, as by xxd -r -p",
            Format::Base64 => b" looks like base64: decode it first, as by base64 -d",
        }
    }
}

/// The bytes after a byte order mark of UTF-8.
fn without_mark(bytes: &[u8]) -> &[u8] {
    match bytes.strip_prefix(&[0xef, 0xbb, 0xbf]) {
        Some(rest) => rest,
        None => bytes,
    }
}

/// The bytes from the first on that is no blank.
fn without_blanks(bytes: &[u8]) -> &[u8] {
    for (index, byte) in bytes.iter().enumerate() {
        if !is_blank(*byte) {
            return &bytes[index..];
        }
    }
    &[]
}

/// Whether the bytes begin with a comment or one of the words that a source begins with.
fn begins_source(bytes: &[u8]) -> bool {
    if bytes.starts_with(b"//") || bytes.starts_with(b"/*") {
        return true;
    }
    for word in WORDS {
        if begins_with_word(bytes, word.as_bytes()) {
            return true;
        }
    }
    false
}

/// Whether the bytes begin with a word, and no longer one.
fn begins_with_word(bytes: &[u8], word: &[u8]) -> bool {
    match bytes.strip_prefix(word) {
        Some(rest) => !begins_in_word(rest),
        None => false,
    }
}

/// Whether the first byte goes on with a word.
fn begins_in_word(bytes: &[u8]) -> bool {
    match bytes.first() {
        Some(byte) => byte.is_ascii_alphanumeric() || *byte == b'_',
        None => false,
    }
}

fn is_blank(byte: u8) -> bool {
    matches!(byte, b' ' | b'\t' | b'\r' | b'\n')
}

/// Whether a byte is a digit of base64, of either alphabet, or fills it.
fn is_base64(byte: u8) -> bool {
    byte.is_ascii_alphanumeric() || matches!(byte, b'+' | b'/' | b'-' | b'_' | b'=')
}
