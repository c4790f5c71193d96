//! The names that sets give.

use super::schema::{names, pool};
use pb_json_names::names_of_set;
use std::test::Fail;

/// Names that are given, others, and those of bytes that are no set.
#[test]
fn tables(rt: HostRuntime) -> Result<(), Fail> {
    let pool = pool(rt.alloc())?;
    let names = names(rt.alloc(), &pool)?;
    let outer = pool.message_by_name("g.M").ok_or("no type g.M")?;
    let inner = pool.message_by_name("g.M.N").ok_or("no type g.M.N")?;
    assert!(rt; names.given(outer, 3) == Some("label") && names.given(inner, 1) == Some("number"));
    assert!(rt;
        names.given(outer, 1).is_none() && names.given(inner, 3).is_none() && !names.is_empty()
    );
    assert!(rt; names_of_set(rt.alloc(), &pool, b"")?.is_empty());
    assert!(rt; names_of_set(rt.alloc(), &pool, b"\x0a")?.is_empty());
    Ok(())
}

/// `package g; message M { int32 a_b = 1; }`, where the field's `json_name` is this.
const ONE: &[u8] = b"\x0a\x13\x12\x01g\x22\x0e\x0a\x01M\x12\x09\x0a\x03a_b\x18\x01\x52\x00";

/// Names that are empty, no UTF-8 or the name in lowerCamelCase are not given; the last one counts.
#[test]
fn others(rt: HostRuntime) -> Result<(), Fail> {
    let pool = pool(rt.alloc())?;
    assert!(rt; names_of_set(rt.alloc(), &pool, ONE)?.is_empty());
    let camel = b"\x0a\x15\x12\x01g\x22\x10\x0a\x01M\x12\x0b\x0a\x03a_b\x18\x01\x52\x02aB";
    assert!(rt; names_of_set(rt.alloc(), &pool, camel)?.is_empty());
    let no_text = b"\x0a\x14\x12\x01g\x22\x0f\x0a\x01M\x12\x0a\x0a\x03a_b\x18\x01\x52\x01\xff";
    assert!(rt; names_of_set(rt.alloc(), &pool, no_text)?.is_empty());
    let twice = b"\x0a\x17\x12\x01g\x22\x12\x0a\x01M\x12\x0d\x0a\x03a_b\x18\x01\x52\x01x\x52\x01y";
    let outer = pool.message_by_name("g.M").ok_or("no type g.M")?;
    assert!(rt; names_of_set(rt.alloc(), &pool, twice)?.given(outer, 1) == Some("y"));
    Ok(())
}
