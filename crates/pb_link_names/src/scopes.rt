//! Parts of names, and scopes.

ghost use Rattle.std.specs.Prelude.{◌≡◌, take, drop};
ghost use Rattle.pb_link_names.specs.Lookup.{has_dot, first_part};

pub(crate) fn has_dot(name: &[u8]) -> bool
    ensures { result ≡ has_dot name.now }
{
    name.contains(&b'.')
}

/// The part of a name before its first dot.
pub(crate) fn first_part(name: &[u8]) -> &[u8]
    ensures { result.now ≡ first_part name.now }
{
    for index in 0..name.len() {
        if name[index] == b'.' {
            return &name[..index];
        }
    }
    name
}

/// The beginning of a length, or all.
pub(crate) fn beginning(bytes: &[u8], len: usize) -> &[u8]
    ensures { result.now ≡ take len bytes.now }
{
    if len < bytes.len() {
        return &bytes[..len];
    }
    bytes
}

/// What follows a beginning of a length.
fn rest(bytes: &[u8], len: usize) -> &[u8]
    ensures { result.now ≡ drop len bytes.now }
{
    if len < bytes.len() {
        return &bytes[len..];
    }
    &bytes[bytes.len()..]
}

/// The bytes from one index up to another.
pub(crate) fn part(bytes: &[u8], start: usize, end: usize) -> &[u8]
    ensures { result.now ≡ drop start (take end bytes.now) }
{
    rest(beginning(bytes, end), start)
}
