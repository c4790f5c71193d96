//! The forms that floats are listed in.

/// How a listing shows a float or a double.
#[derive(Clone, Copy, Debug, PartialEq, Eq)]
pub enum FloatForm {
    /// `0x` and its bits in hexadecimal.
    Bits,
    /// The shortest decimal that reads back to the same bits, as the crate `ryu` lays it out; of what is no number `nan`, `inf` or `-inf`.
    Decimal,
}
