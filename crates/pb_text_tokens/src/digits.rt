//! Digits in escapes.

ghost use Rattle.std.specs.Prelude.{◌≡◌, ◌≤◌, length};
ghost use Rattle.pb_text_tokens.specs.Digits.{digit_of, number_from};

/// What a digit of a base counts.
fn digit_of(base: u32, byte: u8) -> Option<u32>
    requires two { 2 ≤ base }
    requires base { base ≤ 16 }
    ensures { result ≡ digit_of base byte }
{
    char::from(byte).to_digit(base)
}

/// How many digits the bytes begin with, at most this many, and their number.
pub(crate) fn number_at(base: u32, limit: usize, bytes: &[u8]) -> (usize, u32)
    requires two { 2 ≤ base }
    requires base { base ≤ 16 }
    requires limit { limit ≤ 8 }
    ensures is { result ≡ number_from base 0 limit bytes.now }
    ensures within { result.0 ≤ length bytes.now }
{
    let mut value = 0;
    for i in 0..limit {
        if i >= bytes.len() {
            return (i, value);
        }
        match digit_of(base, bytes[i]) {
            Some(digit) => {
                value = value * base + digit;
            }
            None => {
                return (i, value);
            }
        }
    }
    (limit, value)
}
