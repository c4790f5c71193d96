//! Streams as lines of JSON: `frames --json`, alone and with `--keep-going`. The set is that of `json`. The JSON of each message is what Python's
//! `json_format` makes of it; which frames are refused is worked out by hand.

use crate::json::SET;
use crate::runs::{Failures, NONE, Run, after, files_of, run_words};
use std::alloc::Global;
use std::test::Fail;

fn run_on(alloc: Global, words: &[&str], file: &str, failures: Failures) -> Result<Run, Fail> {
    let set = hex::decode(alloc, SET)?;
    let file = hex::decode(alloc, if file == "-" { "" } else { file })?;
    let mut files = files_of(alloc, &[("s", &set), ("f", &file)], failures)?;
    run_words(alloc, words, &mut files, failures)
}

/// Two orders, between which one has no JSON form.
const STREAM: &str = "02080706120012021200020808";

const PRINTED: &[u8] = b"{\"orderNumber\":7}\n{\"orderNumber\":8}\n";

/// Whether a prefix goes out where the next write fails, and the failure alone is reported.
fn is_cut(alloc: Global, prefix: &[u8]) -> Result<bool, Fail> {
    let out = Failures {
        out: after(prefix.len() as u64),
        ..NONE
    };
    let words = ["frames", "--json", "--keep-going", "s", "shop.Order", "f"];
    Ok(run_on(alloc, &words, STREAM, out)?.is(3, prefix, b"device -\n"))
}

// Each write of standard output fails in turn.
#[test]
fn outputs_fail(rt: HostRuntime) -> Result<(), Fail> {
    for count in 0..PRINTED.len() {
        assert!(rt; is_cut(rt.alloc(), &PRINTED[..count])?, "{count}");
    }
    Ok(())
}
