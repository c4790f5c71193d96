//! Paths with the names of fields, as the steps that they come to.

use super::asking::place_of;
use super::schema::Schema;
use pb_c_paths::{ReadPath, Unread, read_path};
use std::alloc::Global;
use std::test::Fail;

/// A row: a path, and its steps, each as a kind, a dot and a number. After a slash come the lengths of its
/// strings, and the strings one after another. Or it says at which byte the path is refused.
pub(crate) const ROWS: &str = r#"
|
a | 21.1
c.a | 21.3 21.1
c.c.b | 21.3 21.3 21.2
l.z | 21.20 21.1
e | 21.6
e[2] | 21.6 22.2
r[0].a | 21.19 22.0 21.1
r[12].e[007] | 21.19 22.12 21.6 22.7
r[18446744073709551615].a | 21.19 22.18446744073709551615 21.1
r[18446744073709551616].a | no path 2
r[] | no path 2
r[x] | no path 2
r[-1] | no path 2
r[0 | no path 3
r[0]a | no path 4
r[0].a.b | no path 6
r.a | no path 1
a[0] | no path 1
a.b | no path 1
a-b | no path 1
a. | no path 1
c. | no field 2
c.q | no field 2
c..a | no field 2
q | no field 0
aa | no field 0
.a | no field 0
[0] | no field 0
m["pen"] | 21.9 9.0 / 3 pen
m[""] | 21.9 9.0 / 0
r[1].m["a"] | 21.19 22.1 21.9 9.0 / 1 a
n[7].m["ab"] | 21.12 13.7 21.9 9.0 / 2 ab
m["a\"b"] | 21.9 9.0 / 3 a"b
m["a\\b"] | 21.9 9.0 / 3 a\b
m["\x4a\x4F"] | 21.9 9.0 / 2 JO
m["].["] | 21.9 9.0 / 3 ].[
m["pen | no path 6
m["pen" | no path 7
m["pen"x | no path 7
m["pen"].a | no path 8
m["\q"] | no path 4
m["\x4"] | no path 6
m["\xg0"] | no path 5
m[pen] | no path 2
m.a | no path 1
n[7].b | 21.12 13.7 21.2
n[4294967295] | 21.12 13.4294967295
n[4294967296] | no path 2
n[-1] | no path 2
k[true] | 21.27 8.1
k[false] | 21.27 8.0
k[1] | no path 2
s[7] | 21.28 5.7
s[-7] | 21.28 5.18446744073709551609
s[-0] | 21.28 5.0
s[2147483647] | 21.28 5.2147483647
s[2147483648] | no path 2
s[-2147483648] | 21.28 5.18446744071562067968
s[-2147483649] | no path 2
s[-] | no path 2
v[9223372036854775807] | 21.29 3.9223372036854775807
v[9223372036854775808] | no path 2
v[-9223372036854775808] | 21.29 3.9223372036854775808
v[-9223372036854775809] | no path 2
w[18446744073709551615] | 21.30 4.18446744073709551615
w[18446744073709551616] | no path 2
"#;

/// Whether the strings of a path are as words say.
fn are_strings(read: &ReadPath, words: &str) -> Result<bool, Fail> {
    let mut rest = words;
    for length in &read.lengths {
        let (word, after) = rest.split_once(' ').unwrap_or((rest, ""));
        if word.parse::<usize>().map_err(|_| "no length")? != *length {
            return Ok(false);
        }
        rest = after;
    }
    Ok(read.strings.as_slice() == rest.as_bytes())
}

/// Whether a path is refused at the byte that follows a word.
fn is_refused(said: &str, word: &str, byte: usize) -> Result<bool, Fail> {
    let Some(number) = said.strip_prefix(word) else {
        return Ok(false);
    };
    Ok(number.trim().parse::<usize>().map_err(|_| "no byte")? == byte)
}

/// Whether a row holds.
pub(crate) fn is_right(alloc: Global, schema: &Schema, row: &str) -> Result<bool, Fail> {
    let (path, said) = row.split_once('|').ok_or("no answer")?;
    let said = said.trim();
    match read_path(
        alloc,
        &schema.pool,
        schema.message_type.0,
        path.trim().as_bytes(),
    ) {
        Ok(read) => {
            let (words, strings) = said.split_once(" / ").unwrap_or((said, ""));
            let steps = place_of(alloc, words)?;
            Ok(read.steps.as_slice() == steps.as_slice() && are_strings(&read, strings)?)
        }
        Err(Unread::NoField(byte)) => is_refused(said, "no field", byte),
        Err(Unread::NoPath(byte)) => is_refused(said, "no path", byte),
        Err(Unread::Memory) => Err(Fail::new("memory")),
    }
}
