//! One message over another.

use super::sample::{Schema, sample, sample_in};
use pb_test_types::body_of;
use pb_value::{Body, ValueError};
use std::alloc::Global;
use std::test::Fail;

/// A row: the fields of a message, those of the one that comes over it, and those of the answer.
const SCALARS: &str = "
| |
1:i5 | | 1:i5
| 1:i5 | 1:i5
1:i5 | 1:i6 | 1:i6
1:i5 2:tx | 2:ty 11:i-1 | 1:i5 2:ty 11:i-1
10:b1 | 10:b0 | 10:b0
4:F1 15:xab 16:f1 17:e-1 | 4:F9223372036854775808 15:xcd 17:e5 | 4:F9223372036854775808 15:xcd 16:f1 17:e5
";

/// Lists are joined.
const LISTS: &str = "
6:[i1] | 6:[i2] | 6:[i1,i2]
6:[i2,i0] | 6:[i1,i0] | 6:[i2,i0,i1,i0]
6:[i1] | 1:i5 | 1:i5 6:[i1]
| 13:[tx,t] | 13:[tx,t]
13:[tx,t] | 13:[tx] 14:[i-1] | 13:[tx,t,tx] 14:[i-1]
19:[m1=i1] | 19:[n0,m1=i1] | 19:[m1=i1,n0,m1=i1]
";

/// An entry takes the place of the one under its key, whole.
const MAPS: &str = "
9:{ta=i1,tb=i2} | 9:{tc=i4,tb=i3} | 9:{ta=i1,tb=i3,tc=i4}
9:{t=i1} | 9:{t=i0} | 9:{t=i0}
| 9:{tk=i7} | 9:{tk=i7}
12:{u1=m1=i1} | 12:{u1=m11=i-1} | 12:{u1=m11=i-1}
12:{u9=m1=i1} | 12:{u10=n0,u2=n1} | 12:{u2=n1,u9=m1=i1,u10=n0}
";

/// Messages are merged, at each level.
const MESSAGES: &str = "
3:m1=i1 | 3:m11=i1 | 3:m1=i1;11=i1
3:m1=i1 | 3:m1=i2 | 3:m1=i2
3:m1=i1 | 3:n0 | 3:m1=i1
| 3:n0 | 3:n0
3:n2.1=i1;2=ta | 3:n2.2=tb;11=i1 | 3:n2.1=i1;2=tb;11=i1
3:n1.1=i1 | 3:n1.11=i1 | 3:n1.1=i1;11=i1
20:n0 | 20:m1=tz | 20:m1=tz
3:n99 | 3:n99.1=i5 | 3:n99.1=i5
3:m7=u5 | 3:m18=U5 | 3:m7=u5;18=U5
";

/// A member gives way to another of its oneof, and is merged with itself.
const MEMBERS: &str = "
8:m1=i1 | 7:u5 | 7:u5
7:u5 | 8:n0 | 8:n0
8:m1=i1 | 8:m11=i1 | 8:m1=i1;11=i1
7:u5 | 7:u0 | 7:u0
7:u5 | 1:i5 18:U5 | 1:i5 7:u5 18:U5
1:i5 7:u5 18:U5 | 8:m1=i1 | 1:i5 8:m1=i1 18:U5
";

/// Unknown records come after those that were there.
const UNKNOWN_RECORDS: &str = "
99~v7 | 99~v8 5~d1 | 99~v7 99~v8 5~d1
1:i5 99~g2 | | 1:i5 99~g2
| 1~x 536870911~w5 | 1~x 536870911~w5
";

/// Groups are merged as messages are, lists of closed enums are joined, and numbers that are not declared come after those that were there.
const CLOSED_MERGES: &str = "
4:e1 | 4:e2 | 4:e2
4:e1 4~v7 | 4~v9 | 4:e1 4~v7 4~v9
5:[e1] 5~v7 | 5:[e2,e1] 5~v9 | 5:[e1,e2,e1] 5~v7 5~v9
3:m1=i1 | 3:m2=e1 | 3:m1=i1;2=e1
3:m1=i1 | 3:m1=i2 | 3:m1=i2
3:n1.1=i1 | 3:n1.4=e2 | 3:n1.1=i1;4=e2
19:[m1=i1] | 19:[n0,m1=i1] | 19:[m1=i1,n0,m1=i1]
7:m1=i1 | 7:m2=e1 | 7:m1=i1;2=e1
6:e1 | 7:n0 | 7:n0
7:m1=i1 | 6:e2 | 6:e2
6:e1 | 8~v7 | 6:e1 8~v7
";

pub(crate) const CLOSED_TABLES: &[&str] = &[CLOSED_MERGES];

pub(crate) const TABLES: &[&str] = &[SCALARS, LISTS, MAPS, MESSAGES, MEMBERS, UNKNOWN_RECORDS];

/// A message of these fields, with another over it.
fn merged(alloc: Global, schema: &Schema, first: &str, second: &str) -> Result<Body, Fail> {
    let message = schema.made(alloc, body_of(alloc, first)?)?;
    let other = schema.made(alloc, body_of(alloc, second)?)?;
    Ok(message.merge(other)?.into_body())
}

/// Whether a row's answer is its third message.
pub(crate) fn is_merged(alloc: Global, schema: &Schema, row: &str) -> Result<bool, Fail> {
    let (first, row) = row.split_once('|').ok_or("no row")?;
    let (second, wanted) = row.split_once('|').ok_or("no row")?;
    let body = merged(alloc, schema, first, second)?;
    Ok(body == body_of(alloc, wanted)?)
}

/// A package and a type of it in a pool of its own, and whether the empty message of the sample's type takes one of that type.
const TYPES: &[(&str, &str, bool)] = &[
    ("a.b", "a.b.T", true),
    ("a.b", "a.b.T.N", false),
    ("a.c", "a.c.T", false),
];

fn is_alike(alloc: Global, schema: &Schema, other: &Schema) -> bool {
    match schema.empty(alloc).merge(other.empty(alloc)) {
        Ok(_) => true,
        Err(cause) => cause != ValueError::OtherType,
    }
}

fn is_taken_over(alloc: Global, schema: &Schema, package: &str, name: &str) -> Result<bool, Fail> {
    let other = sample_in(alloc, package, name)?;
    Ok(is_alike(alloc, schema, &other))
}

fn is_taken(alloc: Global, package: &str, name: &str) -> Result<bool, Fail> {
    let schema = sample(alloc)?;
    is_taken_over(alloc, &schema, package, name)
}

#[test]
fn other_types(rt: HostRuntime) -> Result<(), Fail> {
    for (package, name, wanted) in TYPES {
        let is_taken = is_taken(rt.alloc(), package, name)?;
        assert!(rt; is_taken == *wanted, "{package} {name}");
    }
    Ok(())
}
