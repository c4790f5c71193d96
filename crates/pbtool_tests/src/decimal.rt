//! Floats in decimal: `show` and `frames` with `--decimal`. The set is what protoc writes of d.proto. Of each float the digits are the fewest that
//! Python reads back as it, and the point and the exponent are put by hand as LISTINGS.md says.

use crate::runs::{Failures, NONE, Run, after, files_of, run_words};
use std::alloc::Global;
use std::test::Fail;

/// message D { float f = 1; double d = 2; repeated float fs = 3; map<string, double> m = 4; D c = 5; }
const SET: &str =
    "0aa4010a07642e70726f746f2290010a0144120c0a0166180120012802520166120c0a0164180220012801520164120e0a0266731803200328025202667312170a016d18042003280b32092e442e4d456e74727952016d12100a016318052001280b32022e445201631a340a064d456e74727912100a036b657918012001280952036b657912140a0576616c7565180220012801520576616c75653a023801620670726f746f33";

/// Runs a command with `--decimal` over the set `s` and a file `f`.
fn run_on(alloc: Global, command: &str, file: &str, failures: Failures) -> Result<Run, Fail> {
    let set = hex::decode(alloc, SET)?;
    let file = hex::decode(alloc, if file == "-" { "" } else { file })?;
    let mut files = files_of(alloc, &[("s", &set), ("f", &file)], failures)?;
    run_words(
        alloc,
        &[command, "--decimal", "s", "D", "f"],
        &mut files,
        failures,
    )
}

/// What each command prints of the bytes of a file.
const PRINTED: &[(&str, &str, &[u8])] = &[
    ("show", "0d0000c03f", b"f: 1.5\n"),
    (
        "frames",
        "050d0000c03f00",
        b"frame 0 at 0 size 6\n  f: 1.5\nframe 1 at 6 size 1\n",
    ),
];

/// Whether what went out before a write failed remains, and the device is reported.
fn is_cut(alloc: Global, command: &str, file: &str, prefix: &[u8]) -> Result<bool, Fail> {
    let out = Failures {
        out: after(prefix.len() as u64),
        ..NONE
    };
    Ok(run_on(alloc, command, file, out)?.is(3, prefix, b"device -\n"))
}

// Each write of standard output fails in turn.
#[test]
fn outputs_fail(rt: HostRuntime) -> Result<(), Fail> {
    for (command, file, printed) in PRINTED {
        for count in 0..printed.len() {
            assert!(rt;
                is_cut(rt.alloc(), command, file, &printed[..count])?,
                "{command} {count}"
            );
        }
    }
    Ok(())
}
