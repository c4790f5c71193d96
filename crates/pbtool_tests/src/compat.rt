//! `compat` over two sets, which `compile` makes of sources in memory. What is printed is worked out by the rules of COMPAT.md.

use crate::runs::{Failures, NONE, Run, after, files_in, run_separate};
use std::alloc::Global;
use std::test::Fail;

const OLD: &str = "syntax = \"proto3\"; package shop;
message Order { int64 price = 4; string note = 5; int32 count = 6; Item item = 7; Item same = 8; }
message Item { int32 n = 1; string name = 2; }
message Basket { Order order = 1; }
message Gone { int32 a = 1; }
message Node { Node next = 1; map<string, Item> items = 2; oneof o { int32 x = 3; int32 y = 4; } Size size = 5; int32 z = 6; }
enum Size { SMALL = 0; }";

const NEW: &str = "syntax = \"proto3\"; package shop;
message Added { int32 a = 1; }
message Item { int32 n = 1; string title = 2; }
message Order { double price = 4; int64 count = 6; Item item = 7; Thing same = 8; }
message Basket { Order order = 1; }
message Thing { string n = 1; string name = 2; }
message Node { Node next = 1; map<string, Item> items = 2; oneof o { int32 x = 3; int32 y = 4; int32 z = 6; } repeated int32 size = 5; }";

/// Words, and after bars the status and each line that is printed, or after a mark reported.
const ROWS: &str = r#"
compat old new|1|shop.Gone breaks missing|shop.Order.price 4 breaks double was int64|shop.Order.note 5 loses string|shop.Order.count 6 converts int64 was int32|shop.Item.name 2 renames title was name|shop.Node.x 3 breaks oneof o int32 was oneof o int32|shop.Node.y 4 breaks oneof o int32 was oneof o int32|shop.Node.size 5 converts repeated int32 was shop.Size|shop.Node.z 6 breaks oneof o int32 was int32|shop.Item.n 1 breaks string was int32 (shop.Order.same: shop.Item -> shop.Thing)
compat old new shop.Order|1|shop.Order.price 4 breaks double was int64|shop.Order.note 5 loses string|shop.Order.count 6 converts int64 was int32|shop.Item.name 2 renames title was name|shop.Item.n 1 breaks string was int32 (shop.Order.same: shop.Item -> shop.Thing)
compat old new shop.Basket|1|shop.Order.price 4 breaks double was int64|shop.Order.note 5 loses string|shop.Order.count 6 converts int64 was int32|shop.Item.name 2 renames title was name|shop.Item.n 1 breaks string was int32 (shop.Order.same: shop.Item -> shop.Thing)
compat old new shop.Item|0|shop.Item.name 2 renames title was name
compat old old|0|ok
compat new new|0|ok
compat old old shop.Node|0|ok
compat empty new|0|ok
compat empty empty|0|ok
compat old empty shop.Item|1|!type shop.Item unknown
compat --both old new shop.Item|0|backward shop.Item.name 2 renames title was name|forward shop.Item.title 2 renames name was title
compat old new --both shop.Order|1|backward shop.Order.price 4 breaks double was int64|backward shop.Order.note 5 loses string|backward shop.Order.count 6 converts int64 was int32|backward shop.Item.name 2 renames title was name|backward shop.Item.n 1 breaks string was int32 (shop.Order.same: shop.Item -> shop.Thing)|forward shop.Order.price 4 breaks int64 was double|forward shop.Order.count 6 breaks int32 was int64|forward shop.Item.title 2 renames name was title|forward shop.Thing.n 1 breaks int32 was string (shop.Order.same: shop.Thing -> shop.Item)
compat --both old old|0|backward ok|forward ok
compat --both empty new|1|backward ok|forward shop.Added breaks missing|forward shop.Item breaks missing|forward shop.Order breaks missing|forward shop.Basket breaks missing|forward shop.Thing breaks missing|forward shop.Node breaks missing
compat --both --lenient old old shop.Order|0|backward ok|forward ok
compat old new shop.Gone|1|!type shop.Gone unknown
compat old new shop.Added|1|!type shop.Added unknown
compat old new shop.Size|1|!type shop.Size unknown
compat old new .shop.Item|1|!type .shop.Item unknown
compat nowhere new|3|!device nowhere
compat old nowhere|3|!device nowhere
compat bad new|1|!set byte 1 path 1[0] cause Truncated
compat old bad|1|!set byte 1 path 1[0] cause Truncated
compat bad nowhere|1|!set byte 1 path 1[0] cause Truncated
compat two old|1|!link m at - cause TwoFiles
"#;

/// The two sources, a set that declares nothing, bytes that are no set, and a set that does not link.
const FILES: &[(&str, &str)] = &[
    ("ROOT/old.proto", OLD),
    ("ROOT/new.proto", NEW),
    ("empty", ""),
    ("bad", "\x0a"),
    (
        "two",
        "\x0a\x0b\x0a\x01m\x62\x06proto3\x0a\x0b\x0a\x01m\x62\x06proto3",
    ),
];

/// What makes the sets of the two sources.
const COMPILES: &[&str] = &["compile ROOT old old.proto", "compile ROOT new new.proto"];

/// Runs words over the files and the sets of the two sources.
fn run_line(alloc: Global, words: &str, failures: Failures) -> Result<Run, Fail> {
    let mut files = files_in(alloc, FILES, failures)?;
    for compile in COMPILES {
        if !run_separate(alloc, compile, &mut files, NONE)?.is(0, b"", b"") {
            return Err("a source does not compile".into());
        }
    }
    run_separate(alloc, words, &mut files, failures)
}

/// The lines after bars, those with a mark and those without, each with its end.
fn lines_of(alloc: Global, lines: &str) -> Result<(String, String), Fail> {
    let mut printed = String::new(alloc);
    let mut reported = String::new(alloc);
    for line in lines.split('|') {
        let (text, line) = match line.strip_prefix('!') {
            Some(line) => (&mut reported, line),
            None => (&mut printed, line),
        };
        text.push_str(line)?;
        text.push_str("\n")?;
    }
    Ok((printed, reported))
}

fn is_answered(alloc: Global, row: &str) -> Result<bool, Fail> {
    let (words, rest) = row.split_once('|').ok_or("no status")?;
    let (status, lines) = rest.split_once('|').ok_or("no lines")?;
    let (printed, reported) = lines_of(alloc, lines)?;
    let run = run_line(alloc, words, NONE)?;
    Ok(run.is(
        status.parse::<u8>()?,
        printed.as_bytes(),
        reported.as_bytes(),
    ))
}

#[test]
fn rows(rt: HostRuntime) -> Result<(), Fail> {
    for row in ROWS.lines() {
        assert!(rt; row.is_empty() || is_answered(rt.alloc(), row)?, "{row}");
    }
    Ok(())
}

const ITEM: &[u8] = b"shop.Item.name 2 renames title was name\n";

// Each write of standard output fails in turn, also of a comparison that breaks.
#[test]
fn outputs_fail(rt: HostRuntime) -> Result<(), Fail> {
    for count in 0..ITEM.len() {
        let out = Failures {
            out: after(count as u64),
            ..NONE
        };
        let kept = run_line(rt.alloc(), "compat old new shop.Item", out)?;
        let broken = run_line(rt.alloc(), "compat old new", out)?;
        assert!(rt;
            kept.is(3, &ITEM[..count], b"device -\n")
                && broken.status == 3
                && broken.out.bytes().len() == count,
            "{count}"
        );
    }
    Ok(())
}
