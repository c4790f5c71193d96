//! Names that are near another one, as the name that is meant is to one that is mistyped.

ghost use Rattle.std.specs.Prelude.{◌≡◌, ◌↔◌, ◌+◌, ◌<◌, ◌≤◌, ℕ, length, IsTrue};
ghost use Rattle.pbtool_hints.specs.Near.{AreAlikeAt, AreAlikeFromEnd, IsNear, most_wrong};

/// Whether a name may be meant by another: they differ in one place alone, where each has at most two bytes, but for ASCII case.
pub(crate) fn is_near(wanted: &[u8], name: &[u8]) -> bool
    ensures { IsTrue result ↔ IsNear wanted.now name.now }
{
    let before = shared_prefix(wanted, name);
    let after = shared_suffix(wanted, name, before);
    let shared = before + after;
    are_few(
        most_wrong(wanted.len()),
        wanted.len() - shared,
        name.len() - shared,
    )
}

/// How many bytes of a name of this length may be wrong.
fn most_wrong(size: usize) -> usize
    ensures { result ≡ most_wrong size }
{
    if size < 4 { size / 2 } else { 2 }
}

/// Whether both numbers are within a bound.
fn are_few(most: usize, left: usize, right: usize) -> bool
    ensures { IsTrue result ↔ ((left ≤ most) × (right ≤ most)) }
{
    left <= most && right <= most
}

/// How many bytes two names begin with alike.
fn shared_prefix(left: &[u8], right: &[u8]) -> usize
    ensures within_left { result ≤ length left.now }
    ensures within_right { result ≤ length right.now }
    ensures alike { (k : ℕ) → k < result → AreAlikeAt left.now right.now k }
    ensures longest { result < length left.now → result < length right.now
        → ¬ (AreAlikeAt left.now right.now result) }
{
    let most = left.len().min(right.len());
    for at in 0..most {
        if left[at].to_ascii_lowercase() != right[at].to_ascii_lowercase() {
            return at;
        }
    }
    most
}

/// How many bytes two names end with alike, after those that they begin with.
fn shared_suffix(left: &[u8], right: &[u8], before: usize) -> usize
    requires in_left { before ≤ length left.now }
    requires in_right { before ≤ length right.now }
    ensures within_left { before + result ≤ length left.now }
    ensures within_right { before + result ≤ length right.now }
    ensures alike { (k : ℕ) → k < result → AreAlikeFromEnd left.now right.now k }
    ensures longest { before + result < length left.now → before + result < length right.now
        → ¬ (AreAlikeFromEnd left.now right.now result) }
{
    let most = (left.len() - before).min(right.len() - before);
    for at in 0..most {
        if !ends_alike(left, right, at) {
            return at;
        }
    }
    most
}

/// Whether the bytes at this place from the ends of two names are alike.
fn ends_alike(left: &[u8], right: &[u8], at: usize) -> bool
    requires in_left { at < length left.now }
    requires in_right { at < length right.now }
    ensures { IsTrue result ↔ AreAlikeFromEnd left.now right.now at }
{
    left[left.len() - 1 - at].to_ascii_lowercase()
        == right[right.len() - 1 - at].to_ascii_lowercase()
}
