//! Numbers as integers, and keys of maps. What is expected was reckoned with the integers of Python, which have no limit.

use pb_json_scalars::{
    read_bool_key, read_i32, read_i32_key, read_i64, read_i64_key, read_u32, read_u32_key,
    read_u64, read_u64_key,
};
use std::alloc::{AllocError, Global};
use std::test::Fail;

/// A row: what is read, the characters, and the answer.
const ROWS: &str = "
i32 | 0 | Some(0)
i64 | 0 | Some(0)
u32 | 0 | Some(0)
u64 | 0 | Some(0)
i32 | -0 | Some(0)
i64 | -0 | Some(0)
u32 | -0 | Some(0)
u64 | -0 | Some(0)
i32 | 1 | Some(1)
i64 | 1 | Some(1)
u32 | 1 | Some(1)
u64 | 1 | Some(1)
i32 | -1 | Some(-1)
i64 | -1 | Some(-1)
u32 | -1 | None
u64 | -1 | None
i32 | 5 | Some(5)
i64 | 5 | Some(5)
u32 | 5 | Some(5)
u64 | 5 | Some(5)
i32 | 1e3 | Some(1000)
i64 | 1e3 | Some(1000)
u32 | 1e3 | Some(1000)
u64 | 1e3 | Some(1000)
i32 | 1E3 | Some(1000)
i64 | 1E3 | Some(1000)
u32 | 1E3 | Some(1000)
u64 | 1E3 | Some(1000)
i32 | 1.0 | Some(1)
i64 | 1.0 | Some(1)
u32 | 1.0 | Some(1)
u64 | 1.0 | Some(1)
i32 | 100e-2 | Some(1)
i64 | 100e-2 | Some(1)
u32 | 100e-2 | Some(1)
u64 | 100e-2 | Some(1)
i32 | 1.5e1 | Some(15)
i64 | 1.5e1 | Some(15)
u32 | 1.5e1 | Some(15)
u64 | 1.5e1 | Some(15)
i32 | -1.0e0 | Some(-1)
i64 | -1.0e0 | Some(-1)
u32 | -1.0e0 | None
u64 | -1.0e0 | None
i32 | 2147483647 | Some(2147483647)
i64 | 2147483647 | Some(2147483647)
u32 | 2147483647 | Some(2147483647)
u64 | 2147483647 | Some(2147483647)
i32 | 2147483648 | None
i64 | 2147483648 | Some(2147483648)
u32 | 2147483648 | Some(2147483648)
u64 | 2147483648 | Some(2147483648)
i32 | -2147483648 | Some(-2147483648)
i64 | -2147483648 | Some(-2147483648)
u32 | -2147483648 | None
u64 | -2147483648 | None
i32 | -2147483649 | None
i64 | -2147483649 | Some(-2147483649)
u32 | -2147483649 | None
u64 | -2147483649 | None
i32 | 4294967295 | None
i64 | 4294967295 | Some(4294967295)
u32 | 4294967295 | Some(4294967295)
u64 | 4294967295 | Some(4294967295)
i32 | 4294967296 | None
i64 | 4294967296 | Some(4294967296)
u32 | 4294967296 | None
u64 | 4294967296 | Some(4294967296)
i32 | 4.294967295e9 | None
i64 | 4.294967295e9 | Some(4294967295)
u32 | 4.294967295e9 | Some(4294967295)
u64 | 4.294967295e9 | Some(4294967295)
i32 | 2.147483647e9 | Some(2147483647)
i64 | 2.147483647e9 | Some(2147483647)
u32 | 2.147483647e9 | Some(2147483647)
u64 | 2.147483647e9 | Some(2147483647)
i32 | 9223372036854775807 | None
i64 | 9223372036854775807 | Some(9223372036854775807)
u32 | 9223372036854775807 | None
u64 | 9223372036854775807 | Some(9223372036854775807)
i32 | 9223372036854775808 | None
i64 | 9223372036854775808 | None
u32 | 9223372036854775808 | None
u64 | 9223372036854775808 | Some(9223372036854775808)
i32 | -9223372036854775808 | None
i64 | -9223372036854775808 | Some(-9223372036854775808)
u32 | -9223372036854775808 | None
u64 | -9223372036854775808 | None
i32 | -9223372036854775809 | None
i64 | -9223372036854775809 | None
u32 | -9223372036854775809 | None
u64 | -9223372036854775809 | None
i32 | 18446744073709551615 | None
i64 | 18446744073709551615 | None
u32 | 18446744073709551615 | None
u64 | 18446744073709551615 | Some(18446744073709551615)
i32 | 18446744073709551616 | None
i64 | 18446744073709551616 | None
u32 | 18446744073709551616 | None
u64 | 18446744073709551616 | None
i32 | 18446744073709551615.000 | None
i64 | 18446744073709551615.000 | None
u32 | 18446744073709551615.000 | None
u64 | 18446744073709551615.000 | Some(18446744073709551615)
i32 | 1844674407370955161.5e1 | None
i64 | 1844674407370955161.5e1 | None
u32 | 1844674407370955161.5e1 | None
u64 | 1844674407370955161.5e1 | Some(18446744073709551615)
i32 | 1e19 | None
i64 | 1e19 | None
u32 | 1e19 | None
u64 | 1e19 | Some(10000000000000000000)
i32 | 1e20 | None
i64 | 1e20 | None
u32 | 1e20 | None
u64 | 1e20 | None
i32 | 0e999999999999999999999999 | Some(0)
i64 | 0e999999999999999999999999 | Some(0)
u32 | 0e999999999999999999999999 | Some(0)
u64 | 0e999999999999999999999999 | Some(0)
i32 | -0.000e-999999999 | Some(0)
i64 | -0.000e-999999999 | Some(0)
u32 | -0.000e-999999999 | Some(0)
u64 | -0.000e-999999999 | Some(0)
i32 | 1e999999999999999999999999 | None
i64 | 1e999999999999999999999999 | None
u32 | 1e999999999999999999999999 | None
u64 | 1e999999999999999999999999 | None
i32 | 1e-999999999999999999999999 | None
i64 | 1e-999999999999999999999999 | None
u32 | 1e-999999999999999999999999 | None
u64 | 1e-999999999999999999999999 | None
i32 | 0.5 | None
i64 | 0.5 | None
u32 | 0.5 | None
u64 | 0.5 | None
i32 | 1.05 | None
i64 | 1.05 | None
u32 | 1.05 | None
u64 | 1.05 | None
i32 | 12345.67e2 | Some(1234567)
i64 | 12345.67e2 | Some(1234567)
u32 | 12345.67e2 | Some(1234567)
u64 | 12345.67e2 | Some(1234567)
i32 | 12345.678e2 | None
i64 | 12345.678e2 | None
u32 | 12345.678e2 | None
u64 | 12345.678e2 | None
i32 | 01 | None
i64 | 01 | None
u32 | 01 | None
u64 | 01 | None
i32 | -01 | None
i64 | -01 | None
u32 | -01 | None
u64 | -01 | None
i32 | 00 | None
i64 | 00 | None
u32 | 00 | None
u64 | 00 | None
i32 | +1 | None
i64 | +1 | None
u32 | +1 | None
u64 | +1 | None
i32 | 1. | None
i64 | 1. | None
u32 | 1. | None
u64 | 1. | None
i32 | .5 | None
i64 | .5 | None
u32 | .5 | None
u64 | .5 | None
i32 | 1e | None
i64 | 1e | None
u32 | 1e | None
u64 | 1e | None
i32 | 1e+ | None
i64 | 1e+ | None
u32 | 1e+ | None
u64 | 1e+ | None
i32 | 1e+2 | Some(100)
i64 | 1e+2 | Some(100)
u32 | 1e+2 | Some(100)
u64 | 1e+2 | Some(100)
i32 | 1E-0 | Some(1)
i64 | 1E-0 | Some(1)
u32 | 1E-0 | Some(1)
u64 | 1E-0 | Some(1)
i32 | --1 | None
i64 | --1 | None
u32 | --1 | None
u64 | --1 | None
i32 | - | None
i64 | - | None
u32 | - | None
u64 | - | None
i32 | 1x | None
i64 | 1x | None
u32 | 1x | None
u64 | 1x | None
i32 | 0x10 | None
i64 | 0x10 | None
u32 | 0x10 | None
u64 | 0x10 | None
i32 | 1_000 | None
i64 | 1_000 | None
u32 | 1_000 | None
u64 | 1_000 | None
i32 | NaN | None
i64 | NaN | None
u32 | NaN | None
u64 | NaN | None
i32 | Infinity | None
i64 | Infinity | None
u32 | Infinity | None
u64 | Infinity | None
i32 | 1e1.0 | None
i64 | 1e1.0 | None
u32 | 1e1.0 | None
u64 | 1e1.0 | None
i32 | 1.0.0 | None
i64 | 1.0.0 | None
u32 | 1.0.0 | None
u64 | 1.0.0 | None
i32 | 100000000000000000000e-2 | None
i64 | 100000000000000000000e-2 | Some(1000000000000000000)
u32 | 100000000000000000000e-2 | None
u64 | 100000000000000000000e-2 | Some(1000000000000000000)
i32 | 1000000000000000000000000000000000000000000000e-45 | Some(1)
i64 | 1000000000000000000000000000000000000000000000e-45 | Some(1)
u32 | 1000000000000000000000000000000000000000000000e-45 | Some(1)
u64 | 1000000000000000000000000000000000000000000000e-45 | Some(1)
i32 | 1e5e5 | None
i64 | 1e5e5 | None
u32 | 1e5e5 | None
u64 | 1e5e5 | None
i32 | -1e-1 | None
i64 | -1e-1 | None
u32 | -1e-1 | None
u64 | -1e-1 | None
i32 | -10e-1 | Some(-1)
i64 | -10e-1 | Some(-1)
u32 | -10e-1 | None
u64 | -10e-1 | None
i32 | ٣ | None
i64 | ٣ | None
u32 | ٣ | None
u64 | ٣ | None
i32 |  | None
i64 |  | None
u32 |  | None
u64 |  | None
i32 |  1 | None
i64 |  1 | None
u32 |  1 | None
u64 |  1 | None
i32 | 1  | None
i64 | 1  | None
u32 | 1  | None
u64 | 1  | None
i32 | 1 2 | None
i64 | 1 2 | None
u32 | 1 2 | None
u64 | 1 2 | None
key_i32 | 0 | Some(0)
key_i64 | 0 | Some(0)
key_u32 | 0 | Some(0)
key_u64 | 0 | Some(0)
key_i32 | -0 | Some(0)
key_i64 | -0 | Some(0)
key_u32 | -0 | Some(0)
key_u64 | -0 | Some(0)
key_i32 | 5 | Some(5)
key_i64 | 5 | Some(5)
key_u32 | 5 | Some(5)
key_u64 | 5 | Some(5)
key_i32 | -5 | Some(-5)
key_i64 | -5 | Some(-5)
key_u32 | -5 | None
key_u64 | -5 | None
key_i32 | 1e3 | None
key_i64 | 1e3 | None
key_u32 | 1e3 | None
key_u64 | 1e3 | None
key_i32 | 1.0 | None
key_i64 | 1.0 | None
key_u32 | 1.0 | None
key_u64 | 1.0 | None
key_i32 | 01 | None
key_i64 | 01 | None
key_u32 | 01 | None
key_u64 | 01 | None
key_i32 |  | None
key_i64 |  | None
key_u32 |  | None
key_u64 |  | None
key_i32 | +1 | None
key_i64 | +1 | None
key_u32 | +1 | None
key_u64 | +1 | None
key_i32 |  1 | None
key_i64 |  1 | None
key_u32 |  1 | None
key_u64 |  1 | None
key_i32 | 9223372036854775807 | None
key_i64 | 9223372036854775807 | Some(9223372036854775807)
key_u32 | 9223372036854775807 | None
key_u64 | 9223372036854775807 | Some(9223372036854775807)
key_i32 | 9223372036854775808 | None
key_i64 | 9223372036854775808 | None
key_u32 | 9223372036854775808 | None
key_u64 | 9223372036854775808 | Some(9223372036854775808)
key_i32 | 18446744073709551615 | None
key_i64 | 18446744073709551615 | None
key_u32 | 18446744073709551615 | None
key_u64 | 18446744073709551615 | Some(18446744073709551615)
key_i32 | -9223372036854775808 | None
key_i64 | -9223372036854775808 | Some(-9223372036854775808)
key_u32 | -9223372036854775808 | None
key_u64 | -9223372036854775808 | None
key_i32 | -1 | Some(-1)
key_i64 | -1 | Some(-1)
key_u32 | -1 | None
key_u64 | -1 | None
key_bool | true | Some(true)
key_bool | false | Some(false)
key_bool | True | None
key_bool | TRUE | None
key_bool |  | None
key_bool |  true | None
key_bool | 1 | None
key_bool | truee | None
key_bool | tru | None
";

fn answer(alloc: Global, kind: &str, characters: &[u8]) -> Result<String, AllocError> {
    match kind {
        "i32" => format!(in alloc; "{:?}", read_i32(characters)),
        "i64" => format!(in alloc; "{:?}", read_i64(characters)),
        "u32" => format!(in alloc; "{:?}", read_u32(characters)),
        "u64" => format!(in alloc; "{:?}", read_u64(characters)),
        "key_i32" => format!(in alloc; "{:?}", read_i32_key(characters)),
        "key_i64" => format!(in alloc; "{:?}", read_i64_key(characters)),
        "key_u32" => format!(in alloc; "{:?}", read_u32_key(characters)),
        "key_u64" => format!(in alloc; "{:?}", read_u64_key(characters)),
        "key_bool" => format!(in alloc; "{:?}", read_bool_key(characters)),
        _ => String::from_str(alloc, "unknown kind"),
    }
}

fn is_row(alloc: Global, row: &str) -> Result<bool, Fail> {
    let (kind, rest) = row.split_once(" | ").ok_or("no kind")?;
    let (characters, expected) = rest.rsplit_once(" | ").ok_or("no answer")?;
    Ok(answer(alloc, kind, characters.as_bytes())?.as_str() == expected)
}

#[test]
fn rows(rt: HostRuntime) -> Result<(), Fail> {
    for row in ROWS.lines() {
        assert!(rt; row.is_empty() || is_row(rt.alloc(), row)?, "{row}");
    }
    Ok(())
}
