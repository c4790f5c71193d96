//! Values that are no messages.

ghost use Rattle.std.specs.Prelude.{◌≡◌, ◌<◌, length, option_map, IfOk};
ghost use Rattle.pb_json_text.specs.View.{form_view};
ghost use Rattle.pb_schema.specs.Rules.{NamesType};
ghost use Rattle.pb_value.specs.View.{value_view};
ghost use Rattle.pb_json_read.specs.Scalars.{IsOnly};
ghost use Rattle.pb_json_read.specs.Values.{IsBoolValue, IsBytesValue, IsClosedEnumOf, IsDouble, IsEnumOf, IsFloatValue, IsInt32, IsInt64};
ghost use Rattle.pb_json_read.specs.Values.{IsScalar, IsText, IsUint32, IsUint64};

use crate::context::Context;
use crate::scalars::{
    read_bool, read_bytes, read_closed_enum, read_double_bits, read_enum, read_float_bits,
    read_int32, read_int64, read_text, read_uint32, read_uint64,
};
use pb_json_text::JsonForm;
use pb_schema::{EnumId, Kind};
use pb_value::Value;
use std::alloc::{AllocError, Global};

fn int32_value(form: &JsonForm) -> Option<Value>
    ensures { IsOnly (IsInt32 (form_view form.now)) (option_map value_view result) }
{
    let number = read_int32(form)?;
    Some(Value::I32(number))
}

fn int64_value(form: &JsonForm) -> Option<Value>
    ensures { IsOnly (IsInt64 (form_view form.now)) (option_map value_view result) }
{
    let number = read_int64(form)?;
    Some(Value::I64(number))
}

fn uint32_value(form: &JsonForm) -> Option<Value>
    ensures { IsOnly (IsUint32 (form_view form.now)) (option_map value_view result) }
{
    let number = read_uint32(form)?;
    Some(Value::U32(number))
}

fn uint64_value(form: &JsonForm) -> Option<Value>
    ensures { IsOnly (IsUint64 (form_view form.now)) (option_map value_view result) }
{
    let number = read_uint64(form)?;
    Some(Value::U64(number))
}

fn bool_value(form: &JsonForm) -> Option<Value>
    ensures { IsOnly (IsBoolValue (form_view form.now)) (option_map value_view result) }
{
    let is_true = read_bool(form)?;
    Some(Value::Bool(is_true))
}

fn float_value(form: &JsonForm) -> Option<Value>
    ensures { IsOnly (IsFloatValue (form_view form.now)) (option_map value_view result) }
{
    let bits = read_float_bits(form)?;
    Some(Value::F32(bits))
}

fn double_value(form: &JsonForm) -> Option<Value>
    ensures { IsOnly (IsDouble (form_view form.now)) (option_map value_view result) }
{
    let bits = read_double_bits(form)?;
    Some(Value::F64(bits))
}

fn enum_value(context: &Context<'_>, id: EnumId, form: &JsonForm) -> Option<Value>
    requires { id.0 < length context.now.pool.now.enums }
    ensures { IsOnly (IsEnumOf context.now.pool.now id.0 (form_view form.now))
        (option_map value_view result) }
{
    let number = read_enum(context, id, form)?;
    Some(Value::Enum(number))
}

fn closed_enum_value(context: &Context<'_>, id: EnumId, form: &JsonForm) -> Option<Value>
    requires { id.0 < length context.now.pool.now.enums }
    ensures { IsOnly (IsClosedEnumOf context.now.pool.now id.0 (form_view form.now))
        (option_map value_view result) }
{
    let number = read_closed_enum(context, id, form)?;
    Some(Value::Enum(number))
}

fn text_value(alloc: Global, form: &JsonForm) -> Result<Option<Value>, AllocError>
    ensures { IfOk result (λ read. IsOnly (IsText (form_view form.now))
        (option_map value_view read)) }
{
    match read_text(alloc, form)? {
        Some(text) => Ok(Some(Value::Text(text))),
        None => Ok(None),
    }
}

fn bytes_value(alloc: Global, form: &JsonForm) -> Result<Option<Value>, AllocError>
    ensures { IfOk result (λ read. IsOnly (IsBytesValue (form_view form.now))
        (option_map value_view read)) }
{
    match read_bytes(alloc, form)? {
        Some(bytes) => Ok(Some(Value::Bytes(bytes))),
        None => Ok(None),
    }
}

/// A value of a kind that is no message, unless the JSON value means none.
pub(crate) fn read_scalar(
    context: &Context<'_>,
    kind: Kind,
    form: &JsonForm,
) -> Result<Option<Value>, AllocError>
    requires { NamesType (length context.now.pool.now.messages)
        (length context.now.pool.now.enums) kind }
    ensures { IfOk result (λ read. IsOnly (IsScalar context.now.pool.now kind (form_view form.now))
        (option_map value_view read)) }
{
    match kind {
        Kind::Int32 => Ok(int32_value(form)),
        Kind::Sint32 => Ok(int32_value(form)),
        Kind::Sfixed32 => Ok(int32_value(form)),
        Kind::Int64 => Ok(int64_value(form)),
        Kind::Sint64 => Ok(int64_value(form)),
        Kind::Sfixed64 => Ok(int64_value(form)),
        Kind::Uint32 => Ok(uint32_value(form)),
        Kind::Fixed32 => Ok(uint32_value(form)),
        Kind::Uint64 => Ok(uint64_value(form)),
        Kind::Fixed64 => Ok(uint64_value(form)),
        Kind::Bool => Ok(bool_value(form)),
        Kind::Float => Ok(float_value(form)),
        Kind::Double => Ok(double_value(form)),
        Kind::Enum(id) => Ok(enum_value(context, id, form)),
        Kind::ClosedEnum(id) => Ok(closed_enum_value(context, id, form)),
        Kind::Text => text_value(context.alloc, form),
        Kind::Bytes => bytes_value(context.alloc, form),
        Kind::Message(_) | Kind::Group(_) => Ok(None),
    }
}
