//! Sample schemas: one of every shape, one of lists and kinds of other wire types, and one of fields in no order.

/// message T { int32 a=1; string b=2; T c=3; double d=4; repeated int32 e=6; oneof o { uint32 x=7; T y=8; } map<string,int32> m=9;
/// optional bool p=10; sint32 s=11; map<uint32,T> n=12; }
pub(crate) const SHAPES: &str = "
file t.proto -
message T 0 -
oneof o
field a 1 int32 implicit
field b 2 string implicit
field c 3 message:0 explicit
field d 4 double implicit
field e 6 int32 packed
field x 7 uint32 oneof:0
field y 8 message:0 oneof:0
field m 9 int32 map:string
field p 10 bool explicit
field s 11 sint32 implicit
field n 12 message:0 map:uint32
";

/// enum E { Z=0; NEG=-1; } message F { int32 a=1; string b=2; double d=4; repeated int32 e=6; optional bool p=10; sint32 s=11;
/// repeated string u=13; repeated sint32 v=14 [packed=false]; bytes w=15; float g=16; E k=17; repeated fixed32 h=18; }
pub(crate) const KINDS: &str = "
file f.proto -
message F 0 -
field a 1 int32 implicit
field b 2 string implicit
field d 4 double implicit
field e 6 int32 packed
field p 10 bool explicit
field s 11 sint32 implicit
field u 13 string list
field v 14 sint32 list
field w 15 bytes implicit
field g 16 float implicit
field k 17 enum:0 implicit
field h 18 fixed32 packed
enum E 0 -
value Z 0
value NEG -1
";

/// message D { int32 a=3; int32 b=1; int32 c=7; int32 d=2; }
pub(crate) const NO_ORDER: &str = "
file d.proto -
message D 0 -
field a 3 int32 implicit
field b 1 int32 implicit
field c 7 int32 implicit
field d 2 int32 implicit
";
