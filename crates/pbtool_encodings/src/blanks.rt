//! Blanks, which texts of bytes may have between digits.

ghost use Rattle.std.specs.Prelude.{◌≡◌};
ghost use Rattle.pbtool_encodings.specs.Blanks.{is_blank};

/// Whether a byte is a space, a tab, or a part of a line end.
pub(crate) fn is_blank(byte: u8) -> bool
    ensures { result ≡ is_blank byte }
{
    byte == b' ' || byte == b'\t' || byte == b'\n' || byte == b'\r'
}
