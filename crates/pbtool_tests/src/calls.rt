//! What a program calls in place of the command: a listing to an output, and a command over files. Each answer is that of the
//! rows of the command for the same bytes.

use crate::raw::FLAT;
use crate::runs::{NONE, SET_OF_M, files_of};
use pb_decode::decode;
use pb_descr::{FileDecl, read_set};
use pb_link::link;
use pb_listing::{
    write_listing, write_message, write_message_as, write_nested, write_shortest, write_types,
};
use pb_schema::Pool;
use pb_wire::{FailurePlan, Limits, MemOutput};
use pbtool_cli::{
    Cleanup, Command, FloatForm, FrameForm, Layout, Reading, Source, execute, execute_then,
    run_then,
};
use std::alloc::Global;
use std::test::Fail;

/// What protoc writes of t.proto, a file of proto2 with the package p: a message M with a field of each shape and two messages in it, and the enum
/// Color.
const TYPES: &str =
    "0aba020a07742e70726f746f1201702287020a014d120c0a0161180120012805520161121c0a02637318022003280e32082e702e436f6c6f72420210015202637312250a056e616d657318032003280b320f2e702e4d2e4e616d6573456e74727952056e616d6573120e0a0173180420012809480052017312140a016d18052001280b32042e702e4d480052016d121d0a046974656d18062001280a32092e702e4d2e4974656d52046974656d1a380a0a4e616d6573456e74727912100a036b657918012001280552036b657912140a0576616c7565180220012809520576616c75653a0238011a140a044974656d120c0a016e18012003280652016e1a120a02496e120c0a016218012001280c52016242060a047069636b2a220a05436f6c6f7212070a03524544100012100a034c4f5710ffffffffffffffffff01";

/// What t.proto declares, worked out from its source by hand.
const TYPE_LINES: &str =
    "file t.proto proto2\nmessage p.M t.proto\nfield p.M.a 1 optional int32\nfield p.M.cs 2 repeated p.Color packed\n\
field p.M.names 3 repeated map<int32, string>\nfield p.M.s 4 oneof:pick string\nfield p.M.m 5 oneof:pick p.M\n\
field p.M.item 6 optional group p.M.Item\nmessage p.M.Item t.proto\nfield p.M.Item.n 1 repeated fixed64\nmessage p.M.In t.proto\n\
field p.M.In.b 1 optional bytes\nenum p.Color t.proto\nvalue p.Color RED 0\nvalue p.Color LOW -1\n";

const MESSAGE: &[u8] = b"\x08\x96\x01";

/// The same message after its length.
const FRAME: &[u8] = b"\x03\x08\x96\x01";

/// What a command comes to: the exit status, and what goes to standard output and to standard error.
type Comes = (u8, &'static [u8], &'static [u8]);

fn output(alloc: Global) -> MemOutput {
    MemOutput::new(alloc, 1, FailurePlan::NEVER)
}

// The records of bytes that were judged before, as lines and in their shortest spelling.
#[test]
fn records(rt: HostRuntime) -> Result<(), Fail> {
    let mut lines = output(rt.alloc());
    write_listing(&mut lines, FLAT)?;
    let mut shortest = output(rt.alloc());
    write_shortest(&mut shortest, FLAT)?;
    assert!(rt;
        lines.bytes() == b"1 varint 150\n2 len 1 7a\n5 i32 00000001\n".as_slice()
            && shortest.bytes() == b"08960112017a2d01000000\n".as_slice()
    );
    Ok(())
}

fn set(alloc: Global) -> Result<Vec<FileDecl>, Fail> {
    let bytes = hex::decode(alloc, SET_OF_M)?;
    Ok(read_set(alloc, bytes.as_slice())?)
}

fn pool(alloc: Global) -> Result<Pool, Fail> {
    let files = set(alloc)?;
    Ok(link(alloc, files.as_slice())?)
}

/// The listing of a message of the pool's type M.
fn listed(alloc: Global, pool: &Pool, bytes: &[u8]) -> Result<MemOutput, Fail> {
    let message_type = pool.message_by_name("M").ok_or("no type M")?;
    let message = decode(alloc, pool, message_type, bytes, Limits::FULL)?;
    let mut out = output(alloc);
    write_message(&mut out, &message)?;
    Ok(out)
}

#[test]
fn message(rt: HostRuntime) -> Result<(), Fail> {
    let pool = pool(rt.alloc())?;
    assert!(rt; listed(rt.alloc(), &pool, MESSAGE)?.bytes() == b"a: 150\n".as_slice());
    Ok(())
}

/// The listing of a message of the pool's type M, with floats in decimal; its field `a` is an int32.
fn listed_as(alloc: Global, pool: &Pool, bytes: &[u8]) -> Result<MemOutput, Fail> {
    let message_type = pool.message_by_name("M").ok_or("no type M")?;
    let message = decode(alloc, pool, message_type, bytes, Limits::FULL)?;
    let mut out = output(alloc);
    write_message_as(&mut out, &message, FloatForm::Decimal)?;
    Ok(out)
}

#[test]
fn message_in_decimal(rt: HostRuntime) -> Result<(), Fail> {
    let pool = pool(rt.alloc())?;
    let lines = listed_as(rt.alloc(), &pool, MESSAGE)?;
    assert!(rt; lines.bytes() == b"a: 150\n".as_slice());
    Ok(())
}

// Records in a payload of another's.
#[test]
fn nested_records(rt: HostRuntime) -> Result<(), Fail> {
    let mut lines = output(rt.alloc());
    write_nested(&mut lines, b"\x0a\x03\x12\x01\x7a")?;
    assert!(rt; lines.bytes() == b"1 len 3 {\n  2 len 1 7a\n}\n".as_slice());
    Ok(())
}

/// The listing of what a set declares.
fn types_listed(alloc: Global, set: &str) -> Result<MemOutput, Fail> {
    let bytes = hex::decode(alloc, set)?;
    let files = read_set(alloc, bytes.as_slice())?;
    let pool = link(alloc, files.as_slice())?;
    let mut out = output(alloc);
    write_types(&mut out, &pool)?;
    Ok(out)
}

#[test]
fn types(rt: HostRuntime) -> Result<(), Fail> {
    assert!(rt; types_listed(rt.alloc(), TYPES)?.bytes() == TYPE_LINES.as_bytes());
    Ok(())
}

/// Whether a command over the set, the message and its frame comes to this; by `execute` where nothing is said of what comes
/// after it.
fn is_done(
    alloc: Global,
    cleanup: Option<Cleanup>,
    command: &Command<'_>,
    comes: Comes,
) -> Result<bool, Fail> {
    let bytes = hex::decode(alloc, SET_OF_M)?;
    let entries = [("s", bytes.as_slice()), ("f", MESSAGE), ("g", FRAME)];
    let mut files = files_of(alloc, &entries, NONE)?;
    let mut out = output(alloc);
    let mut err = output(alloc);
    let status = match cleanup {
        None => execute(alloc, command, &mut files, &mut out, &mut err),
        Some(it) => execute_then(alloc, it, command, &mut files, &mut out, &mut err),
    };
    Ok(status == comes.0 && out.bytes() == comes.1 && err.bytes() == comes.2)
}

#[test]
fn commands(rt: HostRuntime) -> Result<(), Fail> {
    let alloc = rt.alloc();
    let source = Source {
        reading: Reading::Strict,
        set: "s",
        type_name: "M",
        file: "f",
    };
    let frames = Source {
        file: "g",
        ..source
    };
    let unknown = Source {
        type_name: "N",
        ..source
    };
    let rows: [(Command<'_>, Comes); 9] = [
        (
            Command::Show {
                floats: FloatForm::Decimal,
                source,
            },
            (0, b"a: 150\n", b""),
        ),
        (Command::Check { source }, (0, b"ok\n", b"")),
        (Command::Canon { out: None, source }, (0, b"089601\n", b"")),
        (
            Command::Json {
                layout: Layout::Indented,
                source,
            },
            (0, b"{\n  \"a\": 150\n}\n", b""),
        ),
        (
            Command::Frames {
                form: FrameForm::Listing(FloatForm::Bits),
                source: frames,
            },
            (0, b"frame 0 at 0 size 4\n  a: 150\n", b""),
        ),
        (
            Command::AllFrames {
                form: FrameForm::Json,
                source,
            },
            (
                1,
                b"",
                b"frame 0 byte 1 path - cause BadType\nframes refused 1 of 1\n",
            ),
        ),
        (
            Command::Types {
                reading: Reading::Lenient,
                set: "s",
                name: Some("M"),
            },
            (0, b"message M m.proto\nfield M.a 1 implicit int32\n", b""),
        ),
        (
            Command::Check { source: frames },
            (1, b"", b"byte 0 path - cause NumberZero\n"),
        ),
        (
            Command::Check { source: unknown },
            (1, b"", b"type N unknown\n"),
        ),
    ];
    for cleanup in [None, Some(Cleanup::Free), Some(Cleanup::LeaveToSystem)] {
        for (command, comes) in rows {
            assert!(rt; is_done(alloc, cleanup, &command, comes)?, "{command:?}");
        }
    }
    Ok(())
}

// The words of a program that ends after its command.
#[test]
fn words(rt: HostRuntime) -> Result<(), Fail> {
    let alloc = rt.alloc();
    let bytes = hex::decode(alloc, SET_OF_M)?;
    let mut files = files_of(alloc, &[("s", bytes.as_slice()), ("f", MESSAGE)], NONE)?;
    let mut args = Vec::new(alloc);
    for word in ["pbtool", "show", "s", "M", "f"] {
        args.push(String::from_str(alloc, word)?)?;
    }
    let mut out = output(alloc);
    let mut err = output(alloc);
    let ends = Cleanup::LeaveToSystem;
    let status = run_then(alloc, ends, args.as_slice(), &mut files, &mut out, &mut err);
    assert!(rt; status == 0 && out.bytes() == b"a: 150\n".as_slice() && err.bytes().is_empty());
    Ok(())
}
