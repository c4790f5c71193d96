//! Texts and bytes that are none.

use super::shown::show;
use pb_json_text::{JsonCause, MAX_DEPTH, read_value};
use std::alloc::{AllocError, Global};
use std::test::Fail;

/// A row is a text, and its value, each part after the byte where it begins. Worked out by hand from RFC 8259; the texts are like those that
/// JSONTestSuite has to be accepted.
const TEXTS: &str = r#"
null | 0 null
 true  | 1 true
false | 0 false
0 | 0 0
-0 | 0 -0
12345678901234567890 | 0 12345678901234567890
-1.50e+007 | 0 -1.50e+007
1E400 | 0 1E400
0.1e-1 | 0 0.1e-1
"" | 0 ""
"asd " | 0 "asd "
"\"\\\/\n" | 0 "<22><5c>/<0a>"
"\b\f\r\t" | 0 "<08><0c><0d><09>"
"\u0041\u00e9\u20AC" | 0 "A<c3><a9><e2><82><ac>"
"\u0000" | 0 "<00>"
"\ud7ff\ue000" | 0 "<ed><9f><bf><ee><80><80>"
"\uD801\udc37" | 0 "<f0><90><90><b7>"
"\uDBFF\uDFFF" | 0 "<f4><8f><bf><bf>"
"é€" | 0 "<c3><a9><e2><82><ac>"
[] | 0 []
[ ] | 0 []
[1,2] | 0 [1 1, 3 2]
[ 1 , "a" , [ ] ] | 0 [2 1, 6 "a", 12 []]
[[],[[]]] | 0 [1 [], 4 [5 []]]
{} | 0 {}
{ } | 0 {}
{"a":1} | 0 {1 "a": 5 1}
{"a":1,"a":2} | 0 {1 "a": 5 1, 7 "a": 11 2}
 { "b" : [ ] , "" : { } }  | 1 {3 "b": 9 [], 15 "": 20 {}}
{"a":{"b":[null,{"c":true}]}} | 0 {1 "a": 5 {6 "b": 10 [11 null, 16 {17 "c": 21 true}]}}
"#;

/// A row is bytes that are no text, the byte where that is seen, and the cause. Worked out by hand from RFC 8259; the bytes are like those that
/// JSONTestSuite has to be refused.
const REFUSED: &str = r#"
nul | 3 UnexpectedEnd
nulL | 3 UnexpectedByte
truf | 3 UnexpectedByte
True | 0 UnexpectedByte
NaN | 0 UnexpectedByte
-Infinity | 1 UnexpectedByte
- | 1 UnexpectedEnd
01 | 1 UnexpectedByte
-01 | 2 UnexpectedByte
+1 | 0 UnexpectedByte
.5 | 0 UnexpectedByte
1. | 2 UnexpectedEnd
1.e5 | 2 UnexpectedByte
1e | 2 UnexpectedEnd
1e+ | 3 UnexpectedEnd
1e5.2 | 3 UnexpectedByte
0x1 | 1 UnexpectedByte
1 2 | 2 UnexpectedByte
" | 1 UnexpectedEnd
"a | 2 UnexpectedEnd
'a' | 0 UnexpectedByte
"\ | 2 UnexpectedEnd
"\x" | 2 UnexpectedByte
"\u12" | 5 UnexpectedByte
"\u00g0" | 5 UnexpectedByte
"\ud800" | 7 UnexpectedByte
"\ud800\n" | 8 UnexpectedByte
"\ud800\u0041" | 9 UnexpectedByte
"\ud800\ud800" | 10 UnexpectedByte
"\udc00" | 4 UnexpectedByte
"\ud8 | 5 UnexpectedEnd
[ | 1 UnexpectedEnd
[1 | 2 UnexpectedEnd
[1, | 3 UnexpectedEnd
[1,] | 3 UnexpectedByte
[,1] | 1 UnexpectedByte
[1,,2] | 3 UnexpectedByte
[1 2] | 3 UnexpectedByte
[1} | 2 UnexpectedByte
] | 0 UnexpectedByte
[1]] | 3 UnexpectedByte
{ | 1 UnexpectedEnd
{"a" | 4 UnexpectedEnd
{"a": | 5 UnexpectedEnd
{"a":1 | 6 UnexpectedEnd
{"a":1, | 7 UnexpectedEnd
{"a":1,} | 7 UnexpectedByte
{"a",1} | 4 UnexpectedByte
{"a":} | 5 UnexpectedByte
{"a" 1} | 5 UnexpectedByte
{1:1} | 1 UnexpectedByte
{a:1} | 1 UnexpectedByte
{,} | 1 UnexpectedByte
{"a":1]  | 6 UnexpectedByte
[1] // a comment | 4 UnexpectedByte
"#;

/// A row is bytes in hexadecimal, the byte where they are seen to be no text, and the cause.
const REFUSED_BYTES: &str = "
 | 0 UnexpectedEnd
20 | 1 UnexpectedEnd
220a22 | 1 UnexpectedByte
220022 | 1 UnexpectedByte
2209 | 1 UnexpectedByte
22ff22 | 1 BadUtf8
22c328 | 1 BadUtf8
22eda08022 | 1 BadUtf8
5b31ff | 2 BadUtf8
7b7dff | 2 BadUtf8
5d22ff | 0 UnexpectedByte
efbbbf5b5d | 0 UnexpectedByte
0c31 | 0 UnexpectedByte
31c2a0 | 1 UnexpectedByte
00 | 0 UnexpectedByte
310000 | 1 UnexpectedByte
";

/// Whether bytes have this value, or this fault, as it is shown.
fn reads_as(alloc: Global, bytes: &[u8], wanted: &str) -> Result<bool, Fail> {
    match read_value(alloc, bytes) {
        Ok(value) => {
            let shown = show(alloc, &value)?;
            Ok(shown.as_str() == wanted)
        }
        Err(fault) if fault.cause == JsonCause::OutOfMemory => Err(Fail::from(AllocError)),
        Err(fault) => {
            let shown = format!(in alloc; "{} {}", fault.byte, fault.cause)?;
            Ok(shown.as_str() == wanted)
        }
    }
}

/// The first row that does not read as it says.
fn first_wrong<'a>(alloc: Global, rows: &'a str) -> Result<Option<&'a str>, Fail> {
    for row in rows.lines() {
        if let Some((text, wanted)) = row.split_once(" | ")
            && !reads_as(alloc, text.as_bytes(), wanted)?
        {
            return Ok(Some(row));
        }
    }
    Ok(None)
}

/// The first row of bytes in hexadecimal that does not read as it says.
fn first_wrong_bytes<'a>(alloc: Global, rows: &'a str) -> Result<Option<&'a str>, Fail> {
    for row in rows.lines() {
        if let Some((digits, wanted)) = row.split_once(" | ") {
            let bytes = hex::decode(alloc, digits)?;
            if !reads_as(alloc, &bytes, wanted)? {
                return Ok(Some(row));
            }
        }
    }
    Ok(None)
}

#[test]
fn texts(rt: HostRuntime) -> Result<(), Fail> {
    let wrong = first_wrong(rt.alloc(), TEXTS)?;
    assert_eq!(rt; wrong, None);
    Ok(())
}

#[test]
fn refused(rt: HostRuntime) -> Result<(), Fail> {
    let wrong = first_wrong(rt.alloc(), REFUSED)?;
    assert_eq!(rt; wrong, None);
    let wrong = first_wrong_bytes(rt.alloc(), REFUSED_BYTES)?;
    assert_eq!(rt; wrong, None);
    Ok(())
}

/// A number inside this many brackets.
fn nested(alloc: Global, depth: usize, open: &str, close: &str) -> Result<String, AllocError> {
    let mut text = String::new(alloc);
    for _ in 0..depth {
        text.push_str(open)?;
    }
    text.push('0')?;
    for _ in 0..depth {
        text.push_str(close)?;
    }
    Ok(text)
}

/// Whether a text nests as deep as it may, and one more level is refused at its bracket.
fn nests(alloc: Global, open: &str, close: &str, wanted: &str) -> Result<bool, Fail> {
    let deepest = nested(alloc, MAX_DEPTH, open, close)?;
    let deeper = nested(alloc, MAX_DEPTH + 1, open, close)?;
    let very_deep = nested(alloc, 100_000, open, close)?;
    Ok(
        read_value(alloc, deepest.as_bytes()).is_ok()
            && reads_as(alloc, deeper.as_bytes(), wanted)?
            && reads_as(alloc, very_deep.as_bytes(), wanted)?,
    )
}

#[test]
fn depth(rt: HostRuntime) -> Result<(), Fail> {
    assert!(rt; nests(rt.alloc(), "[", "]", "100 TooDeep")?);
    assert!(rt; nests(rt.alloc(), "{\"a\":", "}", "500 TooDeep")?);
    Ok(())
}

/// Whether bytes have a fault that shows like this.
fn shows_as(alloc: Global, bytes: &[u8], wanted: &str) -> Result<bool, Fail> {
    match read_value(alloc, bytes) {
        Ok(_) => Ok(false),
        Err(fault) => {
            let shown = format!(in alloc; "{fault}")?;
            Ok(shown.as_str() == wanted)
        }
    }
}

#[test]
fn faults_shown(rt: HostRuntime) -> Result<(), Fail> {
    let alloc = rt.alloc();
    assert!(rt; shows_as(alloc, b"[1,]", "byte 3: UnexpectedByte")?);
    assert!(rt; shows_as(alloc, b"[1", "byte 2: UnexpectedEnd")?);
    assert!(rt; shows_as(alloc, b"\"\xff\"", "byte 1: BadUtf8")?);
    Ok(())
}
