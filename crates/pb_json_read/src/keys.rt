//! Keys of maps.

ghost use Rattle.std.specs.Prelude.{Some, option_map, IfOk};
ghost use Rattle.pb_value.specs.View.{key_view};
ghost use Rattle.pb_json_read.specs.Keys.{IsBoolKey, IsInt32Key, IsInt64Key, IsKey, IsTextKey, IsUint32Key, IsUint64Key};
ghost use Rattle.pb_json_read.specs.Scalars.{IsOnly};

use pb_json_scalars::{read_bool_key, read_i32_key, read_i64_key, read_u32_key, read_u64_key};
use pb_schema::Kind;
use pb_value::MapKey;
use std::alloc::{AllocError, Global};

fn int32_key(characters: &[u8]) -> Option<MapKey>
    ensures { IsOnly (IsInt32Key characters.now) (option_map key_view result) }
{
    let number = read_i32_key(characters)?;
    Some(MapKey::I32(number))
}

fn int64_key(characters: &[u8]) -> Option<MapKey>
    ensures { IsOnly (IsInt64Key characters.now) (option_map key_view result) }
{
    let number = read_i64_key(characters)?;
    Some(MapKey::I64(number))
}

fn uint32_key(characters: &[u8]) -> Option<MapKey>
    ensures { IsOnly (IsUint32Key characters.now) (option_map key_view result) }
{
    match read_u32_key(characters) {
        Some(number) => Some(MapKey::U32(number)),
        None => None,
    }
}

fn uint64_key(characters: &[u8]) -> Option<MapKey>
    ensures { IsOnly (IsUint64Key characters.now) (option_map key_view result) }
{
    match read_u64_key(characters) {
        Some(number) => Some(MapKey::U64(number)),
        None => None,
    }
}

fn bool_key(characters: &[u8]) -> Option<MapKey>
    ensures { IsOnly (IsBoolKey characters.now) (option_map key_view result) }
{
    let is_true = read_bool_key(characters)?;
    Some(MapKey::Bool(is_true))
}

fn text_key(alloc: Global, name: &str) -> Result<MapKey, AllocError>
    ensures { IfOk result (λ key. IsOnly (IsTextKey name.now) (Some (key_view key))) }
{
    let text = String::from_str(alloc, name)?;
    Ok(MapKey::Text(text))
}

/// The key of a kind that a name means, if it means one.
pub(crate) fn read_key(alloc: Global, kind: Kind, name: &str) -> Result<Option<MapKey>, AllocError>
    ensures { IfOk result (λ read. IsOnly (IsKey kind name.now) (option_map key_view read)) }
{
    let characters = name.as_bytes();
    match kind {
        Kind::Int32 => Ok(int32_key(characters)),
        Kind::Sint32 => Ok(int32_key(characters)),
        Kind::Sfixed32 => Ok(int32_key(characters)),
        Kind::Int64 => Ok(int64_key(characters)),
        Kind::Sint64 => Ok(int64_key(characters)),
        Kind::Sfixed64 => Ok(int64_key(characters)),
        Kind::Uint32 => Ok(uint32_key(characters)),
        Kind::Fixed32 => Ok(uint32_key(characters)),
        Kind::Uint64 => Ok(uint64_key(characters)),
        Kind::Fixed64 => Ok(uint64_key(characters)),
        Kind::Bool => Ok(bool_key(characters)),
        Kind::Text => Ok(Some(text_key(alloc, name)?)),
        Kind::Float | Kind::Double | Kind::Bytes => Ok(None),
        Kind::Enum(_) | Kind::ClosedEnum(_) | Kind::Message(_) | Kind::Group(_) => Ok(None),
    }
}
