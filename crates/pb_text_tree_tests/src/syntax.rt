//! Which texts are lists of fields, and where the fault of others is.

use pb_text_tree::{SyntaxCause, SyntaxFault, read_fields};
use std::alloc::Global;
use std::test::Fail;

/// On each line a text, as `protoc --encode` of protobuf 3.21.12 reads it: after `+` it is read, and after
/// `-` a token is refused. After a number the grammar refuses what begins with this byte, or the end there.
const ROWS: &str = r#"
+ a: 1
+ a:1
+ a : 1
+ a: 1,
+ a: 1;
5 a: 1;;
0 ;a: 1
+ a: 1 # rest
+ a: 1 r: 2, r: 3; r: 4
2 a 1
+ a: - 5
+ a: -5
4 a: --5
3 a: + 5
+ a: 0x1F
+ a: 010
- a: 08
- a: 0x
- a: 1b: "x"
+ b: "x"a: 1
+ b: 'a' "b" 'c'
- b: "a
- b: "a'
- b: "\q"
- b: "\8"
- b: "\x"
- b: "\xg"
- b: "\X41"
+ b: "\x414"
+ b: "\777"
+ b: "\ud83d\ude00"
+ b: "\U0010ffff"
- b: "\u00e"
+ b: "\?\a\b\f\n\r\t\v\\\'\""
+ f: 1.5
+ f: .5
+ f: 5.
+ f: 1.e5
+ f: 1e5
+ f: 1e+5
+ f: 1e-5f
+ f: 1F
- f: 1ff
- f: 1e
- f: 1..5
- f: 1.5.5
- f: 00.5
+ f: -.5
+ f: - inf
+ m {}
+ m: {}
+ m <>
3 m {>
3 m <}
3 m {
2 m }
+ m { a: 1 }
+ m { a: 1, }
+ m { a: 1; b: "x" };
+ m: <m <m: {}>>
0 { a: 1 }
+ r: []
+ r: [1]
+ r: [1, 2]
9 r: [1, 2,]
4 r: [,]
6 r: [1 2]
5 r: [1
+ n: [{}, <>]
+ n [{}]
+ n []
6 n [{} {}]
+ n [{a: 1}, {a: 2}]
2 a:
1 a
0 :
+ G { x: 1 }
+ G: { x: 1 }
"#;

/// The byte of a fault, unless memory ran out.
fn byte_of(fault: SyntaxFault) -> Option<usize> {
    if fault.cause == SyntaxCause::OutOfMemory {
        None
    } else {
        Some(fault.byte)
    }
}

/// Whether a refusal at a byte is the answer of a row.
fn is_refusal(answer: &str, byte: usize) -> bool {
    match answer.parse::<usize>() {
        Ok(expected) => expected == byte,
        Err(_) => answer == "-",
    }
}

/// Whether a text is read as the row says.
fn is_read(alloc: Global, answer: &str, text: &str) -> Result<bool, Fail> {
    match read_fields(alloc, text.as_bytes()) {
        Ok(_) => Ok(answer == "+"),
        Err(fault) => {
            let byte = byte_of(fault).ok_or("out of memory")?;
            Ok(is_refusal(answer, byte))
        }
    }
}

/// Whether a row is right. An empty one is.
fn is_right(alloc: Global, row: &str) -> Result<bool, Fail> {
    if row.is_empty() {
        return Ok(true);
    }
    let (answer, text) = row.split_once(' ').ok_or("a row without a text")?;
    is_read(alloc, answer, text)
}

/// The first row that is wrong.
fn wrong_row(alloc: Global) -> Result<Option<&'static str>, Fail> {
    for row in ROWS.lines() {
        if !is_right(alloc, row)? {
            return Ok(Some(row));
        }
    }
    Ok(None)
}

#[test]
fn texts_are_read_as_protoc_reads_them(rt: HostRuntime) -> Result<(), Fail> {
    let alloc = rt.alloc();
    let wrong = wrong_row(alloc)?;
    assert_eq!(rt; wrong, None);
    Ok(())
}
