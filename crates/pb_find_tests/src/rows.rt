//! Worked cases: the bytes in hexadecimal (`-` for none), the path with dots (`-` for the empty one), and the answer.

/// Paths of messages of the type `T`, those that name no field of one scalar among them.
pub(crate) const PATHS: &str = "
089601 1 I32(150)
- 1 -
089601 - -
- - -
089601 2 -
089601 5 -
089601 0 -
089601 1.1 -
1a020805 3 -
32020102 6 -
4a050a01611001 9 -
4a050a01611001 9.2 -
6206080112020805 12.2.1 -
";

/// Of the type `T`: the last record that fits counts, and with implicit presence no default.
pub(crate) const LAST: &str = "
08050807 1 I32(7)
08070805 1 I32(5)
1201611201621201 2 ! 8 2[2] Truncated
120161120162 2 Text(\"b\")
08050800 1 -
08000805 1 I32(5)
50015000 10 Bool(false)
5000 10 Bool(false)
120161 2 Text(\"a\")
1201611200 2 -
21000000000000f83f 4 F64(4609434218613702656)
210000000000000080 4 F64(9223372036854775808)
210000000000000000 4 -
5803 11 I32(-2)
08050a0141 1 I32(5)
0a0141 1 -
0d01000000 1 -
0b0c0805 1 I32(5)
";

/// Of the type `T`: messages in one another, and in more than one record.
pub(crate) const NESTED: &str = "
1a020805 3.1 I32(5)
1a020805 3.2 -
1a0208051a020807 3.1 I32(7)
1a0208051a03120161 3.1 I32(5)
1a0208051a03120161 3.2 Text(\"a\")
1a0208051a00 3.1 I32(5)
1a0208051a020800 3.1 -
1a061a041a020805 3.3.3.1 I32(5)
1a041a0208051a041a020807 3.3.1 I32(7)
1a041a0208051a041a025001 3.3.1 I32(5)
1a041a0208051a00 3.3.1 I32(5)
1a00 3.1 -
1b08051c 3.1 -
";

/// Of the type `T`: of a oneof the last member counts.
pub(crate) const ONEOFS: &str = "
3805 7 U32(5)
38054200 7 -
420208013805 8.1 -
420208013805 7 U32(5)
42020801380542025001 8.1 -
42020801380542025001 8.10 Bool(true)
4202080142025001 8.1 I32(1)
38053a0141 7 U32(5)
420208013a0141 8.1 I32(1)
42020801089601 8.1 I32(1)
420238054200 8.7 U32(5)
4202380542024200 8.7 -
1a0438014202 3.7 ! 5 3[0].8[0] PastEnd
1a023801 3.7 U32(1)
1a0238011a024200 3.7 -
";

/// Of the type `T`: what is no message.
pub(crate) const FAULTS: &str = "
0896 1 ! 2 1[0] Truncated
1a020896 3.1 ! 3 3[0].1[0] PastEnd
0c 1 ! 0 - StrayEnd
08051a0412ff 1 ! 6 3[0].2[0] Truncated
0805120241ff 1 ! 5 2[0] BadText
08051b0805 1 ! 5 3[0] Truncated
08051b24 1 ! 3 3[0] WrongEnd
080507 1 ! 2 - NumberZero
08050f 1 ! 2 - BadType
12ffffffff0f 1 ! 1 2[0] LengthTooLarge
08ffffffffffffffffffff 1 ! 1 1[0] VarintTooLong
8080808010 1 ! 0 - TagTooLarge
";

/// Of the type `F`: each kind.
pub(crate) const KINDS: &str = "
09000000000000f03f 1 F64(4607182418800017408)
150000803f 2 F32(1065353216)
18ffffffffffffffffff01 3 I64(-1)
20ffffffffffffffffff01 4 U64(18446744073709551615)
28ffffffff0f 5 I32(-1)
28ffffffffffffffffff01 5 I32(-1)
310100000000000000 6 U64(1)
3dffffffff 7 U32(4294967295)
4002 8 Bool(true)
4000 8 -
4a026869 9 Text(\"hi\")
520200ff 10 Bytes([0, 255])
5200 10 -
58ffffffff1f 11 U32(4294967295)
65ffffffff 12 I32(-1)
69ffffffffffffffff 13 I64(-1)
7001 14 I32(-1)
7803 15 I64(-2)
8001ffffffffffffffffff01 16 Enum(-1)
800107 16 Enum(7)
800100 16 -
";

/// Of the type `Q`: an undeclared number of a closed enum is unknown.
pub(crate) const CLOSED: &str = "
0801 1 Enum(1)
0807 1 -
08010807 1 Enum(1)
08070802 1 Enum(2)
088180808010 1 Enum(1)
18012007 4 I32(7)
20071809 4 I32(7)
20071801 4 -
20071801 3 Enum(1)
18021807 3 Enum(2)
";

/// Of the type `Q`: groups as fields, and oneofs of which they are members.
pub(crate) const GROUPS: &str = "
1308051414 2.1 ! 4 - StrayEnd
13080514 2.1 I32(5)
1308051413080714 2.1 I32(7)
130805141314 2.1 I32(5)
131202080114 2.2.1 Enum(1)
1202080114 2.1 ! 4 - StrayEnd
12020801 2.1 -
2b08052c 5.1 I32(5)
2b08052c2001 5.1 -
2b08052c20012b2c 5.1 -
2b08052c2b2c 5.1 I32(5)
2b08052c3a00 5.1 -
2b08052c4805 5.1 I32(5)
32016148054a 6 ! 6 9[1] Truncated
320161 6 Text(\"a\")
3201613200 6 Text(\"\")
3201614805520162 6 Text(\"a\")
4805520162 9 -
4805520162 10 Bytes([98])
3a0208013a0208023a00 7.1 Enum(2)
3a0213143a0413080514 7.2.1 I32(5)
3a0213143a041308051420033a00 7.2.1 -
400140024201 8 ! 6 8[2] Truncated
4001 8 -
";
