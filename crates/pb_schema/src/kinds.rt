//! What each kind is (encoding guide, "Scalar Value Types").

ghost use Rattle.std.specs.Prelude.{◌≡◌, ◌<◌, ℕ, IfSome, option_map};
ghost use Rattle.pb_schema.specs.Kinds.{wire_type_of, is_packable, is_key_kind, is_of_proto2, message_of_kind, enum_of_kind};
ghost use Rattle.pb_schema.specs.Rules.{NamesType};

use crate::types::{EnumId, Kind, MessageId};

impl Kind {
    /// The number of the wire type that the kind's values are sent as.
    #[inline(always)]
    pub fn wire_type(self) -> u8
        ensures { result ≡ wire_type_of self }
    {
        match self {
            Kind::Double | Kind::Fixed64 | Kind::Sfixed64 => 1,
            Kind::Text | Kind::Bytes | Kind::Message(_) => 2,
            Kind::Group(_) => 3,
            Kind::Float | Kind::Fixed32 | Kind::Sfixed32 => 5,
            Kind::Int64
            | Kind::Uint64
            | Kind::Int32
            | Kind::Bool
            | Kind::Uint32
            | Kind::Sint32
            | Kind::Sint64
            | Kind::Enum(_)
            | Kind::ClosedEnum(_) => 0,
        }
    }

    /// A repeated field of the kind may be packed.
    #[inline(always)]
    pub fn is_packable(self) -> bool
        ensures { result ≡ is_packable self }
    {
        match self {
            Kind::Double
            | Kind::Float
            | Kind::Int64
            | Kind::Uint64
            | Kind::Int32
            | Kind::Fixed64
            | Kind::Fixed32
            | Kind::Bool
            | Kind::Uint32
            | Kind::Sfixed32
            | Kind::Sfixed64
            | Kind::Sint32
            | Kind::Sint64
            | Kind::Enum(_)
            | Kind::ClosedEnum(_) => true,
            Kind::Text | Kind::Bytes | Kind::Message(_) | Kind::Group(_) => false,
        }
    }

    /// Fields of the kind are in files of proto2 alone: groups and closed enums.
    pub fn is_of_proto2(self) -> bool
        ensures { result ≡ is_of_proto2 self }
    {
        matches!(self, Kind::Group(_) | Kind::ClosedEnum(_))
    }

    /// The kind may be that of a map's keys.
    pub fn is_key_kind(self) -> bool
        ensures { result ≡ is_key_kind self }
    {
        match self {
            Kind::Int64
            | Kind::Uint64
            | Kind::Int32
            | Kind::Fixed64
            | Kind::Fixed32
            | Kind::Bool
            | Kind::Text
            | Kind::Uint32
            | Kind::Sfixed32
            | Kind::Sfixed64
            | Kind::Sint32
            | Kind::Sint64 => true,
            Kind::Double
            | Kind::Float
            | Kind::Bytes
            | Kind::Enum(_)
            | Kind::Message(_)
            | Kind::Group(_)
            | Kind::ClosedEnum(_) => false,
        }
    }

    /// The message type that the kind names: of messages, and of those that are written as groups.
    pub fn message(self) -> Option<MessageId>
        ensures named { option_map (λ m. m.0) result ≡ message_of_kind self }
        ensures within { (messages enums : ℕ) → NamesType messages enums self → IfSome result (λ m. m.0 < messages) }
    {
        match self {
            Kind::Message(id) | Kind::Group(id) => Some(id),
            Kind::Double
            | Kind::Float
            | Kind::Int64
            | Kind::Uint64
            | Kind::Int32
            | Kind::Fixed64
            | Kind::Fixed32
            | Kind::Bool
            | Kind::Text
            | Kind::Bytes
            | Kind::Uint32
            | Kind::Sfixed32
            | Kind::Sfixed64
            | Kind::Sint32
            | Kind::Sint64
            | Kind::Enum(_)
            | Kind::ClosedEnum(_) => None,
        }
    }

    /// The enum that the kind names, open or closed.
    pub fn enum_id(self) -> Option<EnumId>
        ensures named { option_map (λ e. e.0) result ≡ enum_of_kind self }
        ensures within { (messages enums : ℕ) → NamesType messages enums self → IfSome result (λ e. e.0 < enums) }
    {
        match self {
            Kind::Enum(id) | Kind::ClosedEnum(id) => Some(id),
            Kind::Double
            | Kind::Float
            | Kind::Int64
            | Kind::Uint64
            | Kind::Int32
            | Kind::Fixed64
            | Kind::Fixed32
            | Kind::Bool
            | Kind::Text
            | Kind::Bytes
            | Kind::Uint32
            | Kind::Sfixed32
            | Kind::Sfixed64
            | Kind::Sint32
            | Kind::Sint64
            | Kind::Message(_)
            | Kind::Group(_) => None,
        }
    }
}
