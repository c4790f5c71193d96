//! Strings as bytes, times and paths. What is expected is what `base64` and `datetime` of Python give.

use pb_json_scalars::{read_base64, read_duration, read_mask, read_timestamp};
use std::alloc::{AllocError, Global};
use std::test::Fail;

/// A row: what is read, the characters, and the answer.
const ROWS: &str = "
bytes |  | Some([])
bytes | YQ== | Some([97])
bytes | YQ | Some([97])
bytes | YWI= | Some([97, 98])
bytes | YWI | Some([97, 98])
bytes | YWJj | Some([97, 98, 99])
bytes | YWJjZA== | Some([97, 98, 99, 100])
bytes | YWJjZA | Some([97, 98, 99, 100])
bytes | -_ | Some([251])
bytes | +/ | Some([251])
bytes | -_8= | Some([251, 255])
bytes | +/8 | Some([251, 255])
bytes | -/+_ | Some([251, 255, 191])
bytes | AQ= | None
bytes | A | None
bytes | AA= | None
bytes | AAA== | None
bytes | AAAA= | None
bytes | AAAA==== | None
bytes | = | None
bytes | == | None
bytes | ==== | None
bytes | YQ==YQ== | None
bytes | Y Q= | None
bytes | YQ==  | None
bytes | YR== | Some([97])
bytes | YR | Some([97])
bytes | YWJ= | Some([97, 98])
bytes | YWK | Some([97, 98])
bytes | ab#d | None
bytes | zvffzvffzvff | Some([206, 247, 223, 206, 247, 223, 206, 247, 223])
bytes | ~~~~ | None
bytes | AAECAwQFBgcICQoLDA0ODw== | Some([0, 1, 2, 3, 4, 5, 6, 7, 8, 9, 10, 11, 12, 13, 14, 15])
bytes | /////w | Some([255, 255, 255, 255])
bytes | _____w | Some([255, 255, 255, 255])
timestamp | 1972-01-01T10:00:20.021Z | Some(Time { seconds: 63108020, nanos: 21000000 })
timestamp | 1970-01-01T00:00:00Z | Some(Time { seconds: 0, nanos: 0 })
timestamp | 1969-12-31T23:59:59.999999999Z | Some(Time { seconds: -1, nanos: 999999999 })
timestamp | 0001-01-01T00:00:00Z | Some(Time { seconds: -62135596800, nanos: 0 })
timestamp | 9999-12-31T23:59:59.999999999Z | Some(Time { seconds: 253402300799, nanos: 999999999 })
timestamp | 0000-12-31T23:59:59Z | None
timestamp | 0000-12-31T23:00:00-01:00 | Some(Time { seconds: -62135596800, nanos: 0 })
timestamp | 0001-01-01T00:00:00+00:01 | None
timestamp | 9999-12-31T23:59:59-00:01 | None
timestamp | 9999-12-31T23:59:59+01:00 | Some(Time { seconds: 253402297199, nanos: 0 })
timestamp | 1972-01-01T10:00:20.021+01:00 | Some(Time { seconds: 63104420, nanos: 21000000 })
timestamp | 1972-01-01T10:00:20-08:30 | Some(Time { seconds: 63138620, nanos: 0 })
timestamp | 1972-01-01T10:00:20-00:00 | Some(Time { seconds: 63108020, nanos: 0 })
timestamp | 1972-01-01T10:00:20+24:00 | None
timestamp | 1972-01-01T10:00:20+23:59 | Some(Time { seconds: 63021680, nanos: 0 })
timestamp | 1972-01-01T10:00:20+01:60 | None
timestamp | 2000-02-29T11:59:59.120034Z | Some(Time { seconds: 951825599, nanos: 120034000 })
timestamp | 1900-02-29T00:00:00Z | None
timestamp | 2024-02-30T00:00:00Z | None
timestamp | 2023-02-29T00:00:00Z | None
timestamp | 1972-00-01T00:00:00Z | None
timestamp | 1972-13-01T00:00:00Z | None
timestamp | 1972-01-00T00:00:00Z | None
timestamp | 1972-04-31T00:00:00Z | None
timestamp | 1972-01-01T24:00:00Z | None
timestamp | 1972-01-01T23:60:00Z | None
timestamp | 1972-06-30T23:59:60Z | None
timestamp | 1972-01-01T10:00:20.Z | None
timestamp | 1972-01-01T10:00:20.1Z | Some(Time { seconds: 63108020, nanos: 100000000 })
timestamp | 1972-01-01T10:00:20.123456789Z | Some(Time { seconds: 63108020, nanos: 123456789 })
timestamp | 1972-01-01T10:00:20.1234567890Z | None
timestamp | 1972-01-01T10:00:20.021 | None
timestamp | 1972-01-01T10:00:20 | None
timestamp | 1972-01-01t10:00:20Z | None
timestamp | 1972-01-01T10:00:20z | None
timestamp | 1972-01-01 10:00:20Z | None
timestamp | 1972-1-01T10:00:20Z | None
timestamp |  1972-01-01T10:00:20Z | None
timestamp | 1972-01-01T10:00:20Z  | None
timestamp | 1972-01-01T10:00:20+0100 | None
timestamp | 1972-01-01T10:00:20+01:0 | None
timestamp | 1972-01-01T10:00:200Z | None
timestamp | 1972/01/01T10:00:20Z | None
timestamp | 1972-01-01T10.00.20Z | None
timestamp | -972-01-01T10:00:20Z | None
timestamp | +972-01-01T10:00:20Z | None
timestamp | 19720-01-01T10:00:20Z | None
timestamp | 1972-01-01T1O:00:20Z | None
timestamp | 1972-01-01T10:00:20.-21Z | None
timestamp |  | None
timestamp |   | None
timestamp | Z | None
duration | 1.000340012s | Some(Time { seconds: 1, nanos: 340012 })
duration | 0s | Some(Time { seconds: 0, nanos: 0 })
duration | -0s | Some(Time { seconds: 0, nanos: 0 })
duration | 1s | Some(Time { seconds: 1, nanos: 0 })
duration | -1s | Some(Time { seconds: -1, nanos: 0 })
duration | 1.5s | Some(Time { seconds: 1, nanos: 500000000 })
duration | -1.5s | Some(Time { seconds: -1, nanos: -500000000 })
duration | -0.5s | Some(Time { seconds: 0, nanos: -500000000 })
duration | 0.000000001s | Some(Time { seconds: 0, nanos: 1 })
duration | -0.999999999s | Some(Time { seconds: 0, nanos: -999999999 })
duration | 315576000000s | Some(Time { seconds: 315576000000, nanos: 0 })
duration | -315576000000s | Some(Time { seconds: -315576000000, nanos: 0 })
duration | 315576000001s | None
duration | 315576000000.999999999s | Some(Time { seconds: 315576000000, nanos: 999999999 })
duration | -315576000001s | None
duration | 99999999999999999999999999s | None
duration | 0000000000000000000000000001s | Some(Time { seconds: 1, nanos: 0 })
duration | 1.0000000001s | None
duration | 1.s | None
duration | .5s | None
duration | -.5s | None
duration | s | None
duration | -s | None
duration | 1 | None
duration | 1.5 | None
duration | +1s | None
duration | 1 s | None
duration |  1s | None
duration | 1s  | None
duration | 1e3s | None
duration | 1.5e1s | None
duration | --1s | None
duration | 1.-5s | None
duration | 1.5S | None
duration | 1ss | None
duration |  | None
duration | - | None
mask |  | Some([])
mask | foo | Some([\"foo\"])
mask | fooBar | Some([\"foo_bar\"])
mask | fooBar,b.cD | Some([\"foo_bar\", \"b.c_d\"])
mask | foo,barBaz,qux.quuxCorge | Some([\"foo\", \"bar_baz\", \"qux.quux_corge\"])
mask | a,,b | None
mask | , | None
mask | a, | None
mask | ,a | None
mask | foo_bar | None
mask | FooBar | Some([\"_foo_bar\"])
mask | f3Bar | Some([\"f3_bar\"])
mask | fooBAR | Some([\"foo_b_a_r\"])
mask |  a | Some([\" a\"])
mask | é,aÉb | Some([\"é\", \"aÉb\"])
mask | user.displayName,photo | Some([\"user.display_name\", \"photo\"])
";

fn answer(alloc: Global, kind: &str, characters: &[u8]) -> Result<String, AllocError> {
    match kind {
        "bytes" => format!(in alloc; "{:?}", read_base64(alloc, characters)?),
        "timestamp" => format!(in alloc; "{:?}", read_timestamp(characters)),
        "duration" => format!(in alloc; "{:?}", read_duration(characters)),
        "mask" => format!(in alloc; "{:?}", read_mask(alloc, characters)?),
        _ => String::from_str(alloc, "unknown kind"),
    }
}

fn is_row(alloc: Global, row: &str) -> Result<bool, Fail> {
    let (kind, rest) = row.split_once(" | ").ok_or("no kind")?;
    let (characters, expected) = rest.rsplit_once(" | ").ok_or("no answer")?;
    Ok(answer(alloc, kind, characters.as_bytes())?.as_str() == expected)
}

#[test]
fn rows(rt: HostRuntime) -> Result<(), Fail> {
    for row in ROWS.lines() {
        assert!(rt; row.is_empty() || is_row(rt.alloc(), row)?, "{row}");
    }
    Ok(())
}
