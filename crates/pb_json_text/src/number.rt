//! Numbers (RFC 8259, section 6).

ghost use Rattle.std.specs.Prelude.{◌≡◌};
ghost use Rattle.pb_json_text.specs.Loops.Machine.{number_next, is_final};

/// The part of a number that its last byte belongs to.
#[derive(Clone, Copy, Debug, PartialEq, Eq)]
pub(crate) enum NumberPart {
    Start,
    Minus,
    Zero,
    Whole,
    Point,
    Fraction,
    Letter,
    Sign,
    Exponent,
}

impl NumberPart {
    /// The part that a byte belongs to after this part; nothing where no number goes on so.
    pub(crate) fn next(self, byte: u8) -> Option<NumberPart>
        ensures { result ≡ number_next self byte }
    {
        match (self, byte) {
            (NumberPart::Start, b'-') => Some(NumberPart::Minus),
            (NumberPart::Start | NumberPart::Minus, b'0') => Some(NumberPart::Zero),
            (NumberPart::Start | NumberPart::Minus | NumberPart::Whole, b'1'..=b'9') => {
                Some(NumberPart::Whole)
            }
            (NumberPart::Whole, b'0') => Some(NumberPart::Whole),
            (NumberPart::Zero | NumberPart::Whole, b'.') => Some(NumberPart::Point),
            (NumberPart::Point | NumberPart::Fraction, b'0'..=b'9') => Some(NumberPart::Fraction),
            (NumberPart::Zero | NumberPart::Whole | NumberPart::Fraction, b'e' | b'E') => {
                Some(NumberPart::Letter)
            }
            (NumberPart::Letter, b'-' | b'+') => Some(NumberPart::Sign),
            (NumberPart::Letter | NumberPart::Sign | NumberPart::Exponent, b'0'..=b'9') => {
                Some(NumberPart::Exponent)
            }
            _ => None,
        }
    }

    /// Whether a number may end after this part.
    pub(crate) fn is_final(self) -> bool
        ensures { result ≡ is_final self }
    {
        match self {
            NumberPart::Zero | NumberPart::Whole | NumberPart::Fraction | NumberPart::Exponent =>
                true,
            NumberPart::Start
            | NumberPart::Minus
            | NumberPart::Point
            | NumberPart::Letter
            | NumberPart::Sign => false,
        }
    }
}
