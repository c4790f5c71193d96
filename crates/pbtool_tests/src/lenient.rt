//! Sets of proto2 that are read leniently, and what a set declares. The set is what protoc writes of b.proto and a.proto, the message what protoc
//! encodes by them; what is printed is worked out by the rules of messages, of lenient reading and of listings.

use crate::runs::{Failures, NONE, Run, after, run_separate};
use pbtool_cli::MemFiles;
use std::alloc::Global;
use std::test::Fail;

/// Of a.proto, with the package shop: enum Size { SMALL = 0; LARGE = 1; }
/// message Item {
///   required int32 id = 1; optional string name = 2 [default = "thing"]; map<string, Size> sizes = 3; extensions 100 to 199;
///   extend Item { optional int32 inner = 101; }
/// }
/// Of b.proto, with the package tags: extend shop.Item { optional string note = 100; } message Box { required shop.Item item = 1; }
const SET: &str =
    "0afd010a07612e70726f746f120473686f7022cd010a044974656d120e0a0269641801200228055202696412190a046e616d651802200128093a057468696e6752046e616d65122b0a0573697a657318032003280b32152e73686f702e4974656d2e53697a6573456e747279520573697a65731a440a0a53697a6573456e74727912100a036b657918012001280952036b657912200a0576616c756518022001280e320a2e73686f702e53697a65520576616c75653a0238012a05086410c80132200a05696e6e6572120a2e73686f702e4974656d1865200128055205696e6e65722a1c0a0453697a6512090a05534d414c4c100012090a054c4152474510010a5f0a07622e70726f746f1204746167731a07612e70726f746f22250a03426f78121e0a046974656d18012002280b320a2e73686f702e4974656d52046974656d3a1e0a046e6f7465120a2e73686f702e4974656d18642001280952046e6f7465";

/// The paths of files, and their bytes in hexadecimal.
const FILES: &[(&str, &str)] = &[
    ("s", SET),
    // id: 5 name: "x" sizes { key: "a" value: LARGE } [tags.note]: "hi" [shop.Item.inner]: 7
    ("m", "08051201781a050a01611001a206026869a80607"),
    // The same after its length, and the empty message.
    ("f", "1408051201781a050a01611001a206026869a8060700"),
    // An entry of sizes with a number that Size does not declare.
    ("u", "1a050a01621009"),
    // Of proto3, with nothing to leave out: message M { int32 a = 1; }
    (
        "p",
        "0a240a076d2e70726f746f22110a014d120c0a0161180120012805520161620670726f746f33",
    ),
    // No set; one of another syntax; one with two files of one name.
    ("c", "0a"),
    ("n", "0a0b0a016d620670726f746f34"),
    ("t", "0a0b0a016d620670726f746f330a0b0a016d620670726f746f33"),
    ("e", ""),
];

/// The bytes of each file.
fn decoded(alloc: Global) -> Result<Vec<Vec<u8>>, Fail> {
    let mut all = Vec::new(alloc);
    for (_, digits) in FILES {
        all.push(hex::decode(alloc, digits)?)?;
    }
    Ok(all)
}

/// Runs words, with a blank between each two, over the files.
fn run_over_all(alloc: Global, words: &str, failures: Failures) -> Result<Run, Fail> {
    let all = decoded(alloc)?;
    let mut named = Vec::new(alloc);
    for ((path, _), bytes) in FILES.iter().zip(all.iter()) {
        named.push((String::from_str(alloc, path)?, bytes.as_slice()))?;
    }
    let mut files = MemFiles::new(alloc, named, 1, failures.input, failures.open);
    run_separate(alloc, words, &mut files, failures)
}

/// What `types` prints of the enum.
const ENUM: &[u8] = b"enum shop.Size a.proto\nvalue shop.Size SMALL 0\nvalue shop.Size LARGE 1\n";

/// Whether a prefix goes out where the next write fails, and the failure is reported.
fn is_cut(alloc: Global, prefix: &[u8]) -> Result<bool, Fail> {
    let out = Failures {
        out: after(prefix.len() as u64),
        ..NONE
    };
    let run = run_over_all(alloc, "types --lenient s shop.Size", out)?;
    Ok(run.is(3, prefix, b"device -\n"))
}

// Each write of standard output fails in turn.
#[test]
fn outputs_fail(rt: HostRuntime) -> Result<(), Fail> {
    let printed = ENUM;
    for count in 0..printed.len() {
        assert!(rt; is_cut(rt.alloc(), &printed[..count])?, "{count}");
    }
    Ok(())
}
