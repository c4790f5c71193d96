//! The sources of protobuf's well-known types, as files of a folder that is built in. Each declares what
//! protobuf's documents say. `descriptor.proto` is of proto2, so that it is read leniently only.

ghost use Rattle.std.specs.Prelude.{◌≡◌, map, IfOk};
ghost use Rattle.pbtool_layers.specs.BuiltIn.{built_in, source_summary, summary_of};

use crate::overlay::Given;
use std::alloc::{AllocError, Global};

/// The name of the folder that is built in.
pub const BUILT_IN: &str = "<built-in>";

/// A file that is built in.
#[derive(Clone, Copy)]
struct Source {
    path: &'static str,
    text: &'static str,
}

const SOURCES: &[Source] = &[
    Source {
        path: "<built-in>/google/protobuf/any.proto",
        text: ANY,
    },
    Source {
        path: "<built-in>/google/protobuf/api.proto",
        text: API,
    },
    Source {
        path: "<built-in>/google/protobuf/descriptor.proto",
        text: DESCRIPTOR,
    },
    Source {
        path: "<built-in>/google/protobuf/duration.proto",
        text: DURATION,
    },
    Source {
        path: "<built-in>/google/protobuf/empty.proto",
        text: EMPTY,
    },
    Source {
        path: "<built-in>/google/protobuf/field_mask.proto",
        text: FIELD_MASK,
    },
    Source {
        path: "<built-in>/google/protobuf/source_context.proto",
        text: SOURCE_CONTEXT,
    },
    Source {
        path: "<built-in>/google/protobuf/struct.proto",
        text: STRUCT,
    },
    Source {
        path: "<built-in>/google/protobuf/timestamp.proto",
        text: TIMESTAMP,
    },
    Source {
        path: "<built-in>/google/protobuf/type.proto",
        text: TYPE,
    },
    Source {
        path: "<built-in>/google/protobuf/wrappers.proto",
        text: WRAPPERS,
    },
];

/// The files of the folder that is built in.
pub fn built_in_files(alloc: Global) -> Result<Vec<Given<'static>>, AllocError>
    ensures { IfOk result (λ v. map summary_of v.items ≡ built_in) }
{
    let sources = sources();
    let mut table = Vec::new(alloc);
    for source in sources {
        table.push(Given {
            path: source.path,
            bytes: source.text.as_bytes(),
        })?;
    }
    Ok(table)
}

/// The sources by their paths.
fn sources() -> &'static [Source]
    ensures { map source_summary result.now ≡ built_in }
{
    SOURCES
}

const ANY: &str = "syntax = 'proto3';
package google.protobuf;
message Any {
  string type_url = 1;
  bytes value = 2;
}
";

const API: &str = "syntax = 'proto3';
package google.protobuf;
import 'google/protobuf/source_context.proto';
import 'google/protobuf/type.proto';
message Api {
  string name = 1;
  repeated Method methods = 2;
  repeated Option options = 3;
  string version = 4;
  SourceContext source_context = 5;
  repeated Mixin mixins = 6;
  Syntax syntax = 7;
}
message Method {
  string name = 1;
  string request_type_url = 2;
  bool request_streaming = 3;
  string response_type_url = 4;
  bool response_streaming = 5;
  repeated Option options = 6;
  Syntax syntax = 7;
}
message Mixin {
  string name = 1;
  string root = 2;
}
";

const DESCRIPTOR: &str = "syntax = 'proto2';
package google.protobuf;
message FileDescriptorSet {
  repeated FileDescriptorProto file = 1;
}
message FileDescriptorProto {
  optional string name = 1;
  optional string package = 2;
  repeated string dependency = 3;
  repeated int32 public_dependency = 10;
  repeated int32 weak_dependency = 11;
  repeated DescriptorProto message_type = 4;
  repeated EnumDescriptorProto enum_type = 5;
  repeated ServiceDescriptorProto service = 6;
  repeated FieldDescriptorProto extension = 7;
  optional FileOptions options = 8;
  optional SourceCodeInfo source_code_info = 9;
  optional string syntax = 12;
}
message DescriptorProto {
  optional string name = 1;
  repeated FieldDescriptorProto field = 2;
  repeated FieldDescriptorProto extension = 6;
  repeated DescriptorProto nested_type = 3;
  repeated EnumDescriptorProto enum_type = 4;
  message ExtensionRange {
    optional int32 start = 1;
    optional int32 end = 2;
    optional ExtensionRangeOptions options = 3;
  }
  repeated ExtensionRange extension_range = 5;
  repeated OneofDescriptorProto oneof_decl = 8;
  optional MessageOptions options = 7;
  message ReservedRange {
    optional int32 start = 1;
    optional int32 end = 2;
  }
  repeated ReservedRange reserved_range = 9;
  repeated string reserved_name = 10;
}
message ExtensionRangeOptions {
  repeated UninterpretedOption uninterpreted_option = 999;
}
message FieldDescriptorProto {
  enum Type {
    TYPE_DOUBLE = 1;
    TYPE_FLOAT = 2;
    TYPE_INT64 = 3;
    TYPE_UINT64 = 4;
    TYPE_INT32 = 5;
    TYPE_FIXED64 = 6;
    TYPE_FIXED32 = 7;
    TYPE_BOOL = 8;
    TYPE_STRING = 9;
    TYPE_GROUP = 10;
    TYPE_MESSAGE = 11;
    TYPE_BYTES = 12;
    TYPE_UINT32 = 13;
    TYPE_ENUM = 14;
    TYPE_SFIXED32 = 15;
    TYPE_SFIXED64 = 16;
    TYPE_SINT32 = 17;
    TYPE_SINT64 = 18;
  }
  enum Label {
    LABEL_OPTIONAL = 1;
    LABEL_REQUIRED = 2;
    LABEL_REPEATED = 3;
  }
  optional string name = 1;
  optional int32 number = 3;
  optional Label label = 4;
  optional Type type = 5;
  optional string type_name = 6;
  optional string extendee = 2;
  optional string default_value = 7;
  optional int32 oneof_index = 9;
  optional string json_name = 10;
  optional FieldOptions options = 8;
  optional bool proto3_optional = 17;
}
message OneofDescriptorProto {
  optional string name = 1;
  optional OneofOptions options = 2;
}
message EnumDescriptorProto {
  optional string name = 1;
  repeated EnumValueDescriptorProto value = 2;
  optional EnumOptions options = 3;
  message EnumReservedRange {
    optional int32 start = 1;
    optional int32 end = 2;
  }
  repeated EnumReservedRange reserved_range = 4;
  repeated string reserved_name = 5;
}
message EnumValueDescriptorProto {
  optional string name = 1;
  optional int32 number = 2;
  optional EnumValueOptions options = 3;
}
message ServiceDescriptorProto {
  optional string name = 1;
  repeated MethodDescriptorProto method = 2;
  optional ServiceOptions options = 3;
}
message MethodDescriptorProto {
  optional string name = 1;
  optional string input_type = 2;
  optional string output_type = 3;
  optional MethodOptions options = 4;
  optional bool client_streaming = 5;
  optional bool server_streaming = 6;
}
message FileOptions {
  optional string java_package = 1;
  optional string java_outer_classname = 8;
  optional bool java_multiple_files = 10;
  optional bool java_generate_equals_and_hash = 20;
  optional bool java_string_check_utf8 = 27;
  enum OptimizeMode {
    SPEED = 1;
    CODE_SIZE = 2;
    LITE_RUNTIME = 3;
  }
  optional OptimizeMode optimize_for = 9;
  optional string go_package = 11;
  optional bool cc_generic_services = 16;
  optional bool java_generic_services = 17;
  optional bool py_generic_services = 18;
  optional bool php_generic_services = 42;
  optional bool deprecated = 23;
  optional bool cc_enable_arenas = 31;
  optional string objc_class_prefix = 36;
  optional string csharp_namespace = 37;
  optional string swift_prefix = 39;
  optional string php_class_prefix = 40;
  optional string php_namespace = 41;
  optional string php_metadata_namespace = 44;
  optional string ruby_package = 45;
  repeated UninterpretedOption uninterpreted_option = 999;
  reserved 38;
}
message MessageOptions {
  optional bool message_set_wire_format = 1;
  optional bool no_standard_descriptor_accessor = 2;
  optional bool deprecated = 3;
  reserved 4, 5, 6;
  optional bool map_entry = 7;
  reserved 8, 9;
  repeated UninterpretedOption uninterpreted_option = 999;
}
message FieldOptions {
  optional CType ctype = 1;
  enum CType {
    STRING = 0;
    CORD = 1;
    STRING_PIECE = 2;
  }
  optional bool packed = 2;
  optional JSType jstype = 6;
  enum JSType {
    JS_NORMAL = 0;
    JS_STRING = 1;
    JS_NUMBER = 2;
  }
  optional bool lazy = 5;
  optional bool unverified_lazy = 15;
  optional bool deprecated = 3;
  optional bool weak = 10;
  repeated UninterpretedOption uninterpreted_option = 999;
  reserved 4;
}
message OneofOptions {
  repeated UninterpretedOption uninterpreted_option = 999;
}
message EnumOptions {
  optional bool allow_alias = 2;
  optional bool deprecated = 3;
  reserved 5;
  repeated UninterpretedOption uninterpreted_option = 999;
}
message EnumValueOptions {
  optional bool deprecated = 1;
  repeated UninterpretedOption uninterpreted_option = 999;
}
message ServiceOptions {
  optional bool deprecated = 33;
  repeated UninterpretedOption uninterpreted_option = 999;
}
message MethodOptions {
  optional bool deprecated = 33;
  enum IdempotencyLevel {
    IDEMPOTENCY_UNKNOWN = 0;
    NO_SIDE_EFFECTS = 1;
    IDEMPOTENT = 2;
  }
  optional IdempotencyLevel idempotency_level = 34;
  repeated UninterpretedOption uninterpreted_option = 999;
}
message UninterpretedOption {
  message NamePart {
    optional string name_part = 1;
    optional bool is_extension = 2;
  }
  repeated NamePart name = 2;
  optional string identifier_value = 3;
  optional uint64 positive_int_value = 4;
  optional int64 negative_int_value = 5;
  optional double double_value = 6;
  optional bytes string_value = 7;
  optional string aggregate_value = 8;
}
message SourceCodeInfo {
  repeated Location location = 1;
  message Location {
    repeated int32 path = 1 [packed = true];
    repeated int32 span = 2 [packed = true];
    optional string leading_comments = 3;
    optional string trailing_comments = 4;
    repeated string leading_detached_comments = 6;
  }
}
message GeneratedCodeInfo {
  repeated Annotation annotation = 1;
  message Annotation {
    repeated int32 path = 1 [packed = true];
    optional string source_file = 2;
    optional int32 begin = 3;
    optional int32 end = 4;
  }
}
";

const DURATION: &str = "syntax = 'proto3';
package google.protobuf;
message Duration {
  int64 seconds = 1;
  int32 nanos = 2;
}
";

const EMPTY: &str = "syntax = 'proto3';
package google.protobuf;
message Empty {}
";

const FIELD_MASK: &str = "syntax = 'proto3';
package google.protobuf;
message FieldMask {
  repeated string paths = 1;
}
";

const SOURCE_CONTEXT: &str = "syntax = 'proto3';
package google.protobuf;
message SourceContext {
  string file_name = 1;
}
";

const STRUCT: &str = "syntax = 'proto3';
package google.protobuf;
message Struct {
  map<string, Value> fields = 1;
}
message Value {
  oneof kind {
    NullValue null_value = 1;
    double number_value = 2;
    string string_value = 3;
    bool bool_value = 4;
    Struct struct_value = 5;
    ListValue list_value = 6;
  }
}
enum NullValue {
  NULL_VALUE = 0;
}
message ListValue {
  repeated Value values = 1;
}
";

const TIMESTAMP: &str = "syntax = 'proto3';
package google.protobuf;
message Timestamp {
  int64 seconds = 1;
  int32 nanos = 2;
}
";

const TYPE: &str = "syntax = 'proto3';
package google.protobuf;
import 'google/protobuf/any.proto';
import 'google/protobuf/source_context.proto';
message Type {
  string name = 1;
  repeated Field fields = 2;
  repeated string oneofs = 3;
  repeated Option options = 4;
  SourceContext source_context = 5;
  Syntax syntax = 6;
}
message Field {
  enum Kind {
    TYPE_UNKNOWN = 0;
    TYPE_DOUBLE = 1;
    TYPE_FLOAT = 2;
    TYPE_INT64 = 3;
    TYPE_UINT64 = 4;
    TYPE_INT32 = 5;
    TYPE_FIXED64 = 6;
    TYPE_FIXED32 = 7;
    TYPE_BOOL = 8;
    TYPE_STRING = 9;
    TYPE_GROUP = 10;
    TYPE_MESSAGE = 11;
    TYPE_BYTES = 12;
    TYPE_UINT32 = 13;
    TYPE_ENUM = 14;
    TYPE_SFIXED32 = 15;
    TYPE_SFIXED64 = 16;
    TYPE_SINT32 = 17;
    TYPE_SINT64 = 18;
  }
  enum Cardinality {
    CARDINALITY_UNKNOWN = 0;
    CARDINALITY_OPTIONAL = 1;
    CARDINALITY_REQUIRED = 2;
    CARDINALITY_REPEATED = 3;
  }
  Kind kind = 1;
  Cardinality cardinality = 2;
  int32 number = 3;
  string name = 4;
  string type_url = 6;
  int32 oneof_index = 7;
  bool packed = 8;
  repeated Option options = 9;
  string json_name = 10;
  string default_value = 11;
}
message Enum {
  string name = 1;
  repeated EnumValue enumvalue = 2;
  repeated Option options = 3;
  SourceContext source_context = 4;
  Syntax syntax = 5;
}
message EnumValue {
  string name = 1;
  int32 number = 2;
  repeated Option options = 3;
}
message Option {
  string name = 1;
  Any value = 2;
}
enum Syntax {
  SYNTAX_PROTO2 = 0;
  SYNTAX_PROTO3 = 1;
}
";

const WRAPPERS: &str = "syntax = 'proto3';
package google.protobuf;
message DoubleValue {
  double value = 1;
}
message FloatValue {
  float value = 1;
}
message Int64Value {
  int64 value = 1;
}
message UInt64Value {
  uint64 value = 1;
}
message Int32Value {
  int32 value = 1;
}
message UInt32Value {
  uint32 value = 1;
}
message BoolValue {
  bool value = 1;
}
message StringValue {
  string value = 1;
}
message BytesValue {
  bytes value = 1;
}
";
