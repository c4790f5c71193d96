//! Signed numbers whose varints are short near zero, below it too (encoding guide, "Signed Integers").

ghost use Rattle.std.specs.Prelude.{◌≡◌};
ghost use Rattle.pb_wire.specs.Zigzag.{zigzag, unzigzag};

/// Turns 0, -1, 1, -2 into 0, 1, 2, 3.
pub fn zigzag32(number: i32) -> u32
    ensures coded { result ≡ zigzag number }
    ensures back { unzigzag result ≡ number }
{
    if number >= 0 {
        number as u32 * 2
    } else {
        (-(number + 1)) as u32 * 2 + 1
    }
}

/// Turns 0, -1, 1, -2 into 0, 1, 2, 3.
pub fn zigzag64(number: i64) -> u64
    ensures coded { result ≡ zigzag number }
    ensures back { unzigzag result ≡ number }
{
    if number >= 0 {
        number as u64 * 2
    } else {
        (-(number + 1)) as u64 * 2 + 1
    }
}

/// Turns 0, 1, 2, 3 into 0, -1, 1, -2.
pub fn unzigzag32(code: u32) -> i32
    ensures decoded { result ≡ unzigzag code }
    ensures back { zigzag result ≡ code }
{
    let half = (code / 2) as i32;
    if code % 2 == 0 { half } else { -half - 1 }
}

/// Turns 0, 1, 2, 3 into 0, -1, 1, -2.
pub fn unzigzag64(code: u64) -> i64
    ensures decoded { result ≡ unzigzag code }
    ensures back { zigzag result ≡ code }
{
    let half = (code / 2) as i64;
    if code % 2 == 0 { half } else { -half - 1 }
}
