//! Whether bytes are a number of the text format.

ghost use Rattle.std.specs.Prelude.{◌≡◌, ◌≤◌, length, take, true};
ghost use Rattle.std.specs.Str.Parse.{AllDigits};
ghost use Rattle.pb_text.specs.Numbers.{AreDigits, IsExponent, IsFraction, IsNumber, IsNumeral, IsSigned, IsTail};

/// Whether the bytes are a number: perhaps a minus, and then a numeral.
pub(crate) fn is_number(bytes: &[u8]) -> bool
    ensures { result ≡ true → IsNumber bytes.now }
{
    match bytes.strip_prefix(b"-") {
        Some(size) => is_numeral(size),
        None => is_numeral(bytes),
    }
}

/// Whether the bytes are digits, without a 0 before others, and then perhaps a fraction and an exponent.
fn is_numeral(bytes: &[u8]) -> bool
    ensures { result ≡ true → IsNumeral bytes.now }
{
    let end = digits_end(bytes);
    if end == 0 || (end > 1 && bytes[0] == b'0') {
        return false;
    }
    is_tail(&bytes[end..])
}

/// Whether the bytes are perhaps a point and a fraction, and perhaps an exponent.
fn is_tail(bytes: &[u8]) -> bool
    ensures { result ≡ true → IsTail bytes.now }
{
    match bytes.strip_prefix(b".") {
        Some(rest) => is_fraction(rest),
        None => is_exponent(bytes),
    }
}

/// Whether the bytes are digits, and perhaps an exponent.
fn is_fraction(bytes: &[u8]) -> bool
    ensures { result ≡ true → IsFraction bytes.now }
{
    let end = digits_end(bytes);
    if end == 0 {
        return false;
    }
    is_exponent(&bytes[end..])
}

/// Whether the bytes are an exponent, or nothing.
fn is_exponent(bytes: &[u8]) -> bool
    ensures { result ≡ true → IsExponent bytes.now }
{
    if bytes.is_empty() {
        return true;
    }
    match bytes.strip_prefix(b"e") {
        Some(rest) => is_signed(rest),
        None => false,
    }
}

/// Whether the bytes are a sign and digits.
fn is_signed(bytes: &[u8]) -> bool
    ensures { result ≡ true → IsSigned bytes.now }
{
    if let Some(digits) = bytes.strip_prefix(b"+") {
        return are_digits(digits);
    }
    match bytes.strip_prefix(b"-") {
        Some(digits) => are_digits(digits),
        None => false,
    }
}

/// Whether the bytes are digits, at least one.
fn are_digits(bytes: &[u8]) -> bool
    ensures { result ≡ true → AreDigits bytes.now }
{
    let end = digits_end(bytes);
    if end == 0 {
        return false;
    }
    if end < bytes.len() {
        return false;
    }
    true
}

/// How many digits the bytes begin with.
pub(crate) fn digits_end(bytes: &[u8]) -> usize
    ensures within { result ≤ length bytes.now }
    ensures digits { AllDigits 10 (take result bytes.now) }
{
    let mut end = 0;
    for byte in bytes {
        if is_digit(*byte) {
            end += 1;
        } else {
            return end;
        }
    }
    end
}

fn is_digit(byte: u8) -> bool
    ensures low { result ≡ true → 48 ≤ byte }
    ensures high { result ≡ true → byte ≤ 57 }
{
    byte >= b'0' && byte <= b'9'
}
