//! Numbers and words as the bits of floats. What is expected is what Python reads of a `double`; of a `float` it was reckoned with its fractions.

use pb_json_scalars::{read_double, read_double_string, read_float, read_float_string};
use std::alloc::{AllocError, Global};
use std::test::Fail;

/// A row: what is read, the characters, and the answer.
const ROWS: &str = "
double | 0 | Some(0)
float | 0 | Some(0)
double_string | 0 | Some(0)
float_string | 0 | Some(0)
double | -0 | Some(9223372036854775808)
float | -0 | Some(2147483648)
double_string | -0 | Some(9223372036854775808)
float_string | -0 | Some(2147483648)
double | 0.0 | Some(0)
float | 0.0 | Some(0)
double_string | 0.0 | Some(0)
float_string | 0.0 | Some(0)
double | -0.0 | Some(9223372036854775808)
float | -0.0 | Some(2147483648)
double_string | -0.0 | Some(9223372036854775808)
float_string | -0.0 | Some(2147483648)
double | 1 | Some(4607182418800017408)
float | 1 | Some(1065353216)
double_string | 1 | Some(4607182418800017408)
float_string | 1 | Some(1065353216)
double | -1 | Some(13830554455654793216)
float | -1 | Some(3212836864)
double_string | -1 | Some(13830554455654793216)
float_string | -1 | Some(3212836864)
double | 1.5 | Some(4609434218613702656)
float | 1.5 | Some(1069547520)
double_string | 1.5 | Some(4609434218613702656)
float_string | 1.5 | Some(1069547520)
double | 0.1 | Some(4591870180066957722)
float | 0.1 | Some(1036831949)
double_string | 0.1 | Some(4591870180066957722)
float_string | 0.1 | Some(1036831949)
double | 1e3 | Some(4652007308841189376)
float | 1e3 | Some(1148846080)
double_string | 1e3 | Some(4652007308841189376)
float_string | 1e3 | Some(1148846080)
double | 1E+3 | Some(4652007308841189376)
float | 1E+3 | Some(1148846080)
double_string | 1E+3 | Some(4652007308841189376)
float_string | 1E+3 | Some(1148846080)
double | 3.4028235e38 | Some(5183643170655547384)
float | 3.4028235e38 | Some(2139095039)
double_string | 3.4028235e38 | Some(5183643170655547384)
float_string | 3.4028235e38 | Some(2139095039)
double | 3.4028234663852886e38 | Some(5183643170566569984)
float | 3.4028234663852886e38 | Some(2139095039)
double_string | 3.4028234663852886e38 | Some(5183643170566569984)
float_string | 3.4028234663852886e38 | Some(2139095039)
double | 3.4028235677973366e38 | Some(5183643170835005440)
float | 3.4028235677973366e38 | Some(2139095039)
double_string | 3.4028235677973366e38 | Some(5183643170835005440)
float_string | 3.4028235677973366e38 | Some(2139095039)
double | 3.4028235677973362e38 | Some(5183643170835005439)
float | 3.4028235677973362e38 | Some(2139095039)
double_string | 3.4028235677973362e38 | Some(5183643170835005439)
float_string | 3.4028235677973362e38 | Some(2139095039)
double | 3.502823e+38 | Some(5183775519115758134)
float | 3.502823e+38 | None
double_string | 3.502823e+38 | Some(5183775519115758134)
float_string | 3.502823e+38 | None
double | -3.502823e+38 | Some(14407147555970533942)
float | -3.502823e+38 | None
double_string | -3.502823e+38 | Some(14407147555970533942)
float_string | -3.502823e+38 | None
double | 1.175494e-38 | Some(4039728863063166956)
float | 1.175494e-38 | Some(8388605)
double_string | 1.175494e-38 | Some(4039728863063166956)
float_string | 1.175494e-38 | Some(8388605)
double | 1.401298e-45 | Some(3936146071337248650)
float | 1.401298e-45 | Some(1)
double_string | 1.401298e-45 | Some(3936146071337248650)
float_string | 1.401298e-45 | Some(1)
double | 7.006492321624085e-46 | Some(3931642474694443008)
float | 7.006492321624085e-46 | Some(0)
double_string | 7.006492321624085e-46 | Some(3931642474694443008)
float_string | 7.006492321624085e-46 | Some(0)
double | 7.0064923216240862e-46 | Some(3931642474694443009)
float | 7.0064923216240862e-46 | Some(1)
double_string | 7.0064923216240862e-46 | Some(3931642474694443009)
float_string | 7.0064923216240862e-46 | Some(1)
double | 1e-400 | Some(0)
float | 1e-400 | Some(0)
double_string | 1e-400 | Some(0)
float_string | 1e-400 | Some(0)
double | -1e-400 | Some(9223372036854775808)
float | -1e-400 | Some(2147483648)
double_string | -1e-400 | Some(9223372036854775808)
float_string | -1e-400 | Some(2147483648)
double | 1e400 | None
float | 1e400 | None
double_string | 1e400 | None
float_string | 1e400 | None
double | 1.7976931348623157e308 | Some(9218868437227405311)
float | 1.7976931348623157e308 | None
double_string | 1.7976931348623157e308 | Some(9218868437227405311)
float_string | 1.7976931348623157e308 | None
double | 1.7976931348623159e308 | None
float | 1.7976931348623159e308 | None
double_string | 1.7976931348623159e308 | None
float_string | 1.7976931348623159e308 | None
double | -1.89769e+308 | None
float | -1.89769e+308 | None
double_string | -1.89769e+308 | None
float_string | -1.89769e+308 | None
double | 2.22507e-308 | Some(4503591817664976)
float | 2.22507e-308 | Some(0)
double_string | 2.22507e-308 | Some(4503591817664976)
float_string | 2.22507e-308 | Some(0)
double | 5e-324 | Some(1)
float | 5e-324 | Some(0)
double_string | 5e-324 | Some(1)
float_string | 5e-324 | Some(0)
double | 2e-324 | Some(0)
float | 2e-324 | Some(0)
double_string | 2e-324 | Some(0)
float_string | 2e-324 | Some(0)
double | 16777217 | Some(4715268810125344768)
float | 16777217 | Some(1266679808)
double_string | 16777217 | Some(4715268810125344768)
float_string | 16777217 | Some(1266679808)
double | 16777219 | Some(4715268810662215680)
float | 16777219 | Some(1266679810)
double_string | 16777219 | Some(4715268810662215680)
float_string | 16777219 | Some(1266679810)
double | 9007199254740993 | Some(4845873199050653696)
float | 9007199254740993 | Some(1509949440)
double_string | 9007199254740993 | Some(4845873199050653696)
float_string | 9007199254740993 | Some(1509949440)
double | 0.30000000000000004 | Some(4599075939470750516)
float | 0.30000000000000004 | Some(1050253722)
double_string | 0.30000000000000004 | Some(4599075939470750516)
float_string | 0.30000000000000004 | Some(1050253722)
double | 1e999999999999 | None
float | 1e999999999999 | None
double_string | 1e999999999999 | None
float_string | 1e999999999999 | None
double | -1e-999999999999 | Some(9223372036854775808)
float | -1e-999999999999 | Some(2147483648)
double_string | -1e-999999999999 | Some(9223372036854775808)
float_string | -1e-999999999999 | Some(2147483648)
double | 0e999999999999 | Some(0)
float | 0e999999999999 | Some(0)
double_string | 0e999999999999 | Some(0)
float_string | 0e999999999999 | Some(0)
double | 01 | None
float | 01 | None
double_string | 01 | None
float_string | 01 | None
double | 1. | None
float | 1. | None
double_string | 1. | None
float_string | 1. | None
double | .5 | None
float | .5 | None
double_string | .5 | None
float_string | .5 | None
double | +1 | None
float | +1 | None
double_string | +1 | None
float_string | +1 | None
double | 1e | None
float | 1e | None
double_string | 1e | None
float_string | 1e | None
double | NaN | None
float | NaN | None
double_string | NaN | Some(9221120237041090560)
float_string | NaN | Some(2143289344)
double | Infinity | None
float | Infinity | None
double_string | Infinity | Some(9218868437227405312)
float_string | Infinity | Some(2139095040)
double | -Infinity | None
float | -Infinity | None
double_string | -Infinity | Some(18442240474082181120)
float_string | -Infinity | Some(4286578688)
double | nan | None
float | nan | None
double_string | nan | None
float_string | nan | None
double | inf | None
float | inf | None
double_string | inf | None
float_string | inf | None
double | infinity | None
float | infinity | None
double_string | infinity | None
float_string | infinity | None
double | -NaN | None
float | -NaN | None
double_string | -NaN | None
float_string | -NaN | None
double | +Infinity | None
float | +Infinity | None
double_string | +Infinity | None
float_string | +Infinity | None
double | 0x1p3 | None
float | 0x1p3 | None
double_string | 0x1p3 | None
float_string | 0x1p3 | None
double | 1_0 | None
float | 1_0 | None
double_string | 1_0 | None
float_string | 1_0 | None
double |  | None
float |  | None
double_string |  | None
float_string |  | None
double |  1 | None
float |  1 | None
double_string |  1 | None
float_string |  1 | None
double | 1  | None
float | 1  | None
double_string | 1  | None
float_string | 1  | None
";

fn answer(alloc: Global, kind: &str, characters: &[u8]) -> Result<String, AllocError> {
    match kind {
        "double" => format!(in alloc; "{:?}", read_double(characters)),
        "float" => format!(in alloc; "{:?}", read_float(characters)),
        "double_string" => format!(in alloc; "{:?}", read_double_string(characters)),
        "float_string" => format!(in alloc; "{:?}", read_float_string(characters)),
        _ => String::from_str(alloc, "unknown kind"),
    }
}

fn is_row(alloc: Global, row: &str) -> Result<bool, Fail> {
    let (kind, rest) = row.split_once(" | ").ok_or("no kind")?;
    let (characters, expected) = rest.rsplit_once(" | ").ok_or("no answer")?;
    Ok(answer(alloc, kind, characters.as_bytes())?.as_str() == expected)
}

#[test]
fn rows(rt: HostRuntime) -> Result<(), Fail> {
    for row in ROWS.lines() {
        assert!(rt; row.is_empty() || is_row(rt.alloc(), row)?, "{row}");
    }
    Ok(())
}
