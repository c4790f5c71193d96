//! The hash of a name.

ghost use Rattle.std.specs.Prelude.{◌≡◌};
ghost use Rattle.pb_names.specs.NameHash.{name_hash};

/// What the hash is multiplied by before each byte.
const MULTIPLIER: u64 = 6364136223846793005;

/// A number for a name, mostly another one for each name. Whoever picks names can give many the same number, so a table that is sorted by it
/// has to compare names too.
pub fn name_hash(name: &[u8]) -> u64
    ensures { result ≡ name_hash name.now }
{
    let mut hash: u64 = 0;
    for byte in name {
        hash = hash.wrapping_mul(MULTIPLIER).wrapping_add(u64::from(*byte));
    }
    hash
}
