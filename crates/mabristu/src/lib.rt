//! The main calls and types of the codec in one crate, so that a program lists this crate alone: pools from descriptor sets and sources, messages
//! decoded, validated, read, changed and encoded, streams, listings and JSON. Each name is that of the crate which defines it and has its contract
//! there; docs/LIBRARY.md shows them at work.
#![tactic(auto)]

// Bytes without a schema, limits, faults, inputs and outputs.
pub use pb_wire::{
    Cause, DeviceFault, Input, Limits, MAX_BYTES, MAX_DEPTH, MemInput, MemOutput, Output, PathStep,
    Payload, RawError, ReadInput, RecordIter, Unknown, WireFault, WriteOutput, judge_raw, read_raw,
    read_varint, write_raw,
};

// Schemas: declarations from descriptor sets and sources, and the pools that they make.
pub use pb_descr::{
    DeclCause, DescrError, EnumDecl, FieldDecl, FileDecl, LenientSet, MessageDecl, Omitted,
    OmittedPart, WriteSetError, read_set, read_set_lenient, write_set,
};
pub use pb_link::{LinkCause, LinkError, link, resolve, to_decls, without_enum_maps};
pub use pb_schema::{
    EnumId, EnumType, Field, FileInfo, Kind, MessageId, MessageType, Pool, PoolError, Shape,
};
pub use pb_source::{SourceCause, SourceFault, parse, parse_lenient};

// What a change of a schema does to old messages.
pub use pb_compat::{
    ComparedTypes, Difference, Report, Severity, Step, breaks_reading, compare, compare_all,
    namesake, nested_witness, witness,
};

// Messages: what they hold, changes, what is at a place of one, and changes there.
pub use pb_place::{
    ChangeError, Found, PlaceStep, at, clear_at, drop_unknown_at, insert_at, is_set, key_at,
    len_at, message_at, numbers_at, push_at, remove_at, remove_element_at, scalar_at, set_at,
    set_element_at, unknown_at, which_oneof_at,
};
pub use pb_value::{
    Body, Content, DynamicMessage, MapKey, MessageRef, Value, ValueError, default_value,
};

// Bytes to messages and back, alone and in streams.
pub use pb_decode::{
    DecodeError, DecoderParts, PushDecoder, decode, decode_frame, decode_from, decode_onto,
    validate,
};
pub use pb_encode::planning::plan;
pub use pb_encode::{EncodeError, Plan, encode, encode_to, encoded_len};
pub use pb_find::{ScalarRef, find};
pub use pb_stream::{DelimitedReader, read_delimited, write_delimited};

// What messages print as, and messages read from JSON.
pub use pb_json::{JsonCause, JsonError, JsonForm, JsonNames, Layout, Names, Refusal, write_json};
pub use pb_json_names::names_of_set;
pub use pb_json_read::{JsonReadCause, JsonReadError, JsonRules, read_json, read_json_by};
pub use pb_listing::{
    FloatForm, write_listing, write_message, write_message_as, write_nested, write_types,
};
