//! The characters of a number, cut into its parts.

ghost use Rattle.std.specs.Prelude.{◌≡◌, ◌==◌, slice_index, IfSome, IsSomeAnd};
ghost use Rattle.pb_json_scalars.specs.Numbers.{IsNumber, Number};
ghost use Rattle.pb_json_scalars.specs.Scanned.{is_int, is_number, without_minus, IsScanned, ScannedAs};

use fast_float::Numeral;

/// A number: whether a minus comes first, and what follows it.
#[derive(Drop)]
pub(crate) struct Scanned<'a> {
    pub is_negative: bool,
    pub size: Numeral<'a>,
}

/// The parts of a number, of which these are all characters.
pub(crate) fn scan_number(characters: &[u8]) -> Option<Scanned<'_>>
    ensures found { IfSome result (λ r. IsScanned characters.now r.is_negative r.size) }
    ensures whole { (n : Number) → IsNumber characters.now n → IsSomeAnd result (λ r. ScannedAs n r.is_negative r.size) }
{
    let unsigned = without_minus(characters);
    let size = Numeral::scan(unsigned);
    if is_number(&size, unsigned.len()) {
        Some(Scanned {
            is_negative: has_minus(characters),
            size,
        })
    } else {
        None
    }
}

/// Whether a minus comes first.
pub(crate) fn has_minus(characters: &[u8]) -> bool
    ensures { result ≡ (slice_index characters.now 0 == 45) }
{
    !characters.is_empty() && characters[0] == b'-'
}

/// What follows a minus that comes first.
fn without_minus(characters: &[u8]) -> &[u8]
    ensures { result.now ≡ without_minus characters.now }
{
    if has_minus(characters) {
        &characters[1..]
    } else {
        characters
    }
}

/// Whether a numeral is a number, and takes this many characters.
fn is_number(size: &Numeral<'_>, len: usize) -> bool
    ensures { result ≡ is_number size.now len }
{
    size.len() == len && is_int(size.whole()) && (!size.has_point() || !size.fraction().is_empty())
}

/// Whether there is a digit, and no 0 before another.
fn is_int(digits: &[u8]) -> bool
    ensures { result ≡ is_int digits.now }
{
    !digits.is_empty() && (digits[0] != b'0' || digits.len() == 1)
}
