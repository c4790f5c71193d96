//! How differences are printed.

use super::fields::{compare_first, pool_of};
use pb_compat::ComparedTypes;
use pb_schema::Pool;
use std::alloc::Global;
use std::test::Fail;

const OLD: &str =
    "price 4 int64 i;note 5 string i;count 6 int32 i;label 7 string i;tags 8 string u;m 9 string mint64;o 10 int32 o;n 11 message e;k 12 enum p";

const NEW: &str =
    "price 4 double i;count 6 int64 e;title 7 string i;tags 8 string i;m 9 string m;o 10 int32 e;n 11 bytes e;k 12 int32 u";

const LINES: &str = "p.M.price 4 breaks double was int64
p.M.note 5 loses string
p.M.count 6 presence optional int64 was int32
p.M.label 7 renames title was label
p.M.tags 8 breaks string was repeated string
p.M.m 9 breaks map<int32, string> was map<int64, string>
p.M.o 10 converts optional int32 was oneof oneof0 int32
p.M.n 11 converts optional bytes was p.N
p.M.k 12 converts repeated int32 was repeated p.E
";

fn lines_of(alloc: Global, old: &Pool, new: &Pool, types: &ComparedTypes) -> Result<String, Fail> {
    let mut text = String::new(alloc);
    for difference in &types.differences {
        let line = format!(in alloc; "{}\n", types.report(old, new, *difference))?;
        text.push_str(line.as_str())?;
    }
    Ok(text)
}

fn lines_between(alloc: Global, old: &Pool, new: &Pool) -> Result<String, Fail> {
    let compared = compare_first(alloc, old, new)?;
    match compared.first() {
        Some(types) => lines_of(alloc, old, new, types),
        None => Ok(String::new(alloc)),
    }
}

fn lines(alloc: Global) -> Result<String, Fail> {
    let old = pool_of(alloc, OLD, "0")?;
    let new = pool_of(alloc, NEW, "0")?;
    lines_between(alloc, &old, &new)
}

#[test]
fn printed(rt: HostRuntime) -> Result<(), Fail> {
    let text = lines(rt.alloc())?;
    assert!(rt; text.as_str() == LINES, "{text}");
    Ok(())
}
