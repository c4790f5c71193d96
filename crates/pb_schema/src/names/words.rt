//! Words, and the packages that are made of them (language specification, "Identifiers").

ghost use Rattle.std.specs.Prelude.{◌≡◌};
ghost use Rattle.std.specs.List.{list_all};
ghost use Rattle.pb_schema.specs.Names.{begins_word, continues_word, is_word, may_stand, is_package};

fn begins_word(byte: u8) -> bool
    ensures { result ≡ begins_word byte }
{
    byte.is_ascii_alphabetic() || byte == b'_'
}

fn continues_word(byte: u8) -> bool
    ensures { result ≡ continues_word byte }
{
    begins_word(byte) || byte.is_ascii_digit()
}

fn all_continue_word(bytes: &[u8]) -> bool
    ensures { result ≡ list_all continues_word bytes.now }
{
    bytes.iter().all(|byte| continues_word(*byte))
}

/// The name is a word: a letter or `_`, and then letters, digits and `_`.
pub fn is_word(name: &[u8]) -> bool
    ensures { result ≡ is_word name.now }
{
    match name.split_first() {
        None => false,
        Some((first, others)) => begins_word(*first) && all_continue_word(others),
    }
}

/// The byte may be at the start of a word, or after it, where words are joined by dots.
fn may_stand(at_start: bool, byte: u8) -> bool
    ensures { result ≡ may_stand at_start byte }
{
    if byte == b'.' {
        !at_start
    } else if at_start {
        begins_word(byte)
    } else {
        continues_word(byte)
    }
}

/// The name is empty, or words joined by dots.
pub fn is_package(name: &[u8]) -> bool
    ensures { result ≡ is_package name.now }
{
    if name.is_empty() {
        return true;
    }
    let mut at_start = true;
    for byte in name {
        if !may_stand(at_start, *byte) {
            return false;
        }
        at_start = *byte == b'.';
    }
    !at_start
}
