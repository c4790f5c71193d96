//! Messages that show that a difference breaks reading.

ghost use Rattle.std.specs.Prelude.{◌≡◌, ◌<◌, ◌&&◌, true, false, not, length, option_map, is_some, find, IfOk, IfSome};
ghost use Rattle.pb_schema.specs.Rules.{HasKeyKind, IsPool};
ghost use Rattle.pb_schema.specs.Scalar.{Scalar};
ghost use Rattle.pb_schema.specs.Types.{message_fields};
ghost use Rattle.pb_schema.specs.View.{field_view};
ghost use Rattle.pb_schema.specs.declared.types.Shape.TheVariants as shape;
ghost use Rattle.pb_value.specs.Data.{Datum, scalar, map, entry, no_entries};
ghost use Rattle.pb_value.specs.View.{body_view, content_view, key_view, value_view};
ghost use Rattle.pb_value.specs.WellFormed.{IsOfShape};
ghost use Rattle.pb_compat.specs.Agrees.{break_among};
ghost use Rattle.pb_compat.specs.Fields.{keeps_kind as keeps_value, keeps_values as keeps_all, keeps_shape as keeps_form, differences_at};
ghost use Rattle.pb_compat.specs.Samples.{IsValue, IsLostValue};
ghost use Rattle.pb_compat.specs.Witness.{alone, may_fill, IsMadeOf, IsKeyOf, IsSettable, HoldsValue, HoldsLost, IsLost};
ghost use Rattle.pb_compat.specs.Nested.{IsBuiltAt};
ghost use Rattle.pb_compat.specs.Witness.{fields_at, may_be_beside as are_beside, partner_of, IsPairOf, IsBuilt, IsWitness, has_witness};

use crate::fields::{keeps_shape, keeps_values};
use crate::oneofs::share_oneof;
use crate::samples::{any_value, key_of, lost_value};
use pb_schema::{Field, Kind, MessageId, Pool, Shape};
use pb_value::bodies::{empty_body, from_well_formed};
use pb_value::{Body, Content, DynamicMessage, MapKey, Value};
use std::alloc::{AllocError, Global};
use std::collections::BTreeMap;

/// A content of one value, alone, in a list, or under a key.
pub(crate) fn content_of(
    alloc: Global,
    shape: Shape,
    key: Option<MapKey>,
    value: Value,
) -> Result<Content, AllocError>
    requires { may_fill shape (is_some key) (value_view value) ≡ true }
    ensures made { IfOk result
        (λ c. IsMadeOf (option_map key_view key) (value_view value) (content_view c)) }
    ensures shaped { IfOk result (λ c. IsOfShape shape (content_view c)) }
{
    match (shape, key) {
        (Shape::List { packed: _ }, _) => Ok(Content::List(vec![in alloc; value]?)),
        (Shape::Map { key: _ }, Some(key)) => {
            let mut entries = BTreeMap::new(alloc);
            drop(entries.insert(key, value)?);
            Ok(Content::Map(entries))
        }
        _ => Ok(Content::One(value)),
    }
}

/// A key for a map of a shape.
pub(crate) fn any_key(
    alloc: Global,
    pool: &Pool,
    shape: Shape,
) -> Result<Option<MapKey>, AllocError>
    requires { HasKeyKind shape }
    ensures { IfOk result (λ o. IsKeyOf pool.now shape (option_map key_view o)) }
{
    match shape {
        Shape::Map { key } => Ok(key_of(any_value(alloc, pool, key)?)),
        _ => Ok(None),
    }
}

/// A content that a field can hold.
fn any_content(alloc: Global, pool: &Pool, field: &Field) -> Result<Content, AllocError>
    requires { IsSettable pool.now (field_view field.now) }
    ensures { IfOk result (λ c. HoldsValue pool.now (field_view field.now) (content_view c)) }
{
    let value = any_value(alloc, pool, field.kind)?;
    let key = any_key(alloc, pool, field.shape)?;
    content_of(alloc, field.shape, key, value)
}

/// A map of one entry, whose key is not kept by the new kind of keys.
fn entry_lost(
    alloc: Global,
    old: &Pool,
    new: &Pool,
    from: &Field,
    key: Kind,
    to: Kind,
) -> Result<Content, AllocError>
    requires settable { IsSettable old.now (field_view from.now) }
    requires map { from.now.shape ≡ shape.Map key }
    requires key { keeps_value old.now new.now key to ≡ false }
    ensures { IfOk result (λ c. (x : Scalar) × (d : Datum) × IsValue old.now from.now.kind d
        × IsLostValue old.now new.now key to (scalar x)
        × (content_view c ≡ map (entry x d no_entries))) }
{
    let value = any_value(alloc, old, from.kind)?;
    let key = key_of(lost_value(alloc, old, new, key, to)?);
    content_of(alloc, from.shape, key, value)
}

/// A content of which the new field, whose shape does not keep the old one, does not hold the same.
fn content_by_shape(
    alloc: Global,
    old: &Pool,
    new: &Pool,
    from: &Field,
    to: &Field,
) -> Result<Content, AllocError>
    requires settable { IsSettable old.now (field_view from.now) }
    requires shape { keeps_form old.now new.now from.now.shape to.now.shape ≡ false }
    ensures { IfOk result (λ c. IsLost old.now new.now (field_view from.now) (field_view to.now)
        (content_view c)) }
{
    match (from.shape, to.shape) {
        (Shape::Map { key }, Shape::Map { key: other }) => {
            entry_lost(alloc, old, new, from, key, other)
        }
        _ => any_content(alloc, old, from),
    }
}

/// A content of which the new field, whose kind does not keep the values of the old one, does not hold the same.
fn content_by_values(
    alloc: Global,
    old: &Pool,
    new: &Pool,
    from: &Field,
    to: &Field,
) -> Result<Content, AllocError>
    requires settable { IsSettable old.now (field_view from.now) }
    requires values { keeps_all old.now new.now (field_view from.now) (field_view to.now) ≡ false }
    ensures { IfOk result (λ c. HoldsLost old.now new.now (field_view from.now) (field_view to.now)
        (content_view c)) }
{
    let value = lost_value(alloc, old, new, from.kind, to.kind)?;
    let key = any_key(alloc, old, from.shape)?;
    content_of(alloc, from.shape, key, value)
}

/// A body of one field.
pub(crate) fn body_of(alloc: Global, number: u32, content: Content) -> Result<Body, AllocError>
    ensures { IfOk result (λ b. body_view b ≡ alone number (content_view content)) }
{
    let mut body = empty_body(alloc);
    drop(body.fields.insert(number, content)?);
    Ok(body)
}

/// Whether a message may set two fields.
fn may_be_beside(field: &Field, other: &Field) -> bool
    ensures { result ≡ are_beside (field_view field.now) (field_view other.now) }
{
    field.number != other.number && !share_oneof(field.shape, other.shape)
}

/// The first of the old fields of some numbers that may be set beside another old one.
fn partner_among<'p>(
    old: &'p Pool,
    old_type: MessageId,
    from: &Field,
    numbers: &[u32],
) -> Option<&'p Field>
    requires { old_type.0 < length old.now.messages }
    ensures settable { IfSome result (λ f. IsSettable old.now (field_view f.now)) }
    ensures found { option_map (λ f. field_view f.now) result
        ≡ find (are_beside (field_view from.now))
        (fields_at (message_fields old.now old_type.0) numbers.now) }
{
    for number in numbers {
        if let Some(other) = old.field_by_number(old_type, *number) {
            if may_be_beside(from, other) {
                return Some(other);
            }
        }
    }
    None
}

/// An old field that may be set beside another one, where the new type has both in one oneof.
fn partner<'p>(
    old: &'p Pool,
    old_type: MessageId,
    new: &Pool,
    new_type: MessageId,
    from: &Field,
    to: &Field,
) -> Option<&'p Field>
    requires old { old_type.0 < length old.now.messages }
    requires new { new_type.0 < length new.now.messages }
    ensures settable { IfSome result (λ f. IsSettable old.now (field_view f.now)) }
    ensures found { option_map (λ f. field_view f.now) result
        ≡ partner_of (message_fields old.now old_type.0) (message_fields new.now new_type.0)
        (field_view from.now) to.now.shape }
{
    match to.shape {
        Shape::OneofMember(oneof) => {
            partner_among(old, old_type, from, new.oneof_members(new_type, oneof))
        }
        _ => None,
    }
}

/// A body of two fields.
fn body_of_two(alloc: Global, old: &Pool, from: &Field, other: &Field) -> Result<Body, AllocError>
    requires from { IsSettable old.now (field_view from.now) }
    requires other { IsSettable old.now (field_view other.now) }
    ensures { IfOk result (λ b. IsPairOf old.now (field_view from.now) (field_view other.now)
        (body_view b)) }
{
    let content = any_content(alloc, old, from)?;
    let second = any_content(alloc, old, other)?;
    let mut body = body_of(alloc, from.number, content)?;
    drop(body.fields.insert(other.number, second)?);
    Ok(body)
}

/// A content of one field that the new type does not hold as the same.
fn content_lost(
    alloc: Global,
    old: &Pool,
    new: &Pool,
    from: &Field,
    to: &Field,
) -> Result<Option<Content>, AllocError>
    requires { IsSettable old.now (field_view from.now) }
    ensures lost { IfOk result
        (λ o. IfSome o (λ c. IsLost old.now new.now (field_view from.now) (field_view to.now)
        (content_view c))) }
    ensures exact { IfOk result (λ o. is_some o
        ≡ not (keeps_all old.now new.now (field_view from.now)
        (field_view to.now) && keeps_form old.now new.now from.now.shape to.now.shape)) }
{
    if !keeps_shape(old, new, from.shape, to.shape) {
        Ok(Some(content_by_shape(alloc, old, new, from, to)?))
    } else if !keeps_values(old, new, from, to) {
        Ok(Some(content_by_values(alloc, old, new, from, to)?))
    } else {
        Ok(None)
    }
}

/// What the witness of a field of both types holds.
fn witness_between(
    alloc: Global,
    old: &Pool,
    old_type: MessageId,
    new: &Pool,
    new_type: MessageId,
    from: &Field,
    to: &Field,
) -> Result<Option<Body>, AllocError>
    requires old { old_type.0 < length old.now.messages }
    requires new { new_type.0 < length new.now.messages }
    requires settable { IsSettable old.now (field_view from.now) }
    ensures built { IfOk result
        (λ o. IfSome o (λ b. IsBuilt old.now new.now old_type.0 new_type.0 (field_view from.now)
        (field_view to.now) (body_view b))) }
    ensures exact { IfOk result (λ o. is_some o
        ≡ has_witness old.now new.now old_type.0 new_type.0 (field_view from.now)
        (field_view to.now)) }
{
    if let Some(content) = content_lost(alloc, old, new, from, to)? {
        return Ok(Some(body_of(alloc, from.number, content)?));
    }
    match partner(old, old_type, new, new_type, from, to) {
        Some(other) => Ok(Some(body_of_two(alloc, old, from, other)?)),
        None => Ok(None),
    }
}

/// What the witness of a field holds.
pub(crate) fn witness_body(
    alloc: Global,
    old: &Pool,
    old_type: MessageId,
    new: &Pool,
    new_type: MessageId,
    number: u32,
) -> Result<Option<Body>, AllocError>
    requires old { old_type.0 < length old.now.messages }
    requires new { new_type.0 < length new.now.messages }
    ensures built { IfOk result
        (λ o. IfSome o (λ b. IsBuiltAt old.now new.now old_type.0 new_type.0 number
        (body_view b))) }
    ensures rules { IfOk result (λ o. IfSome o (λ b. IsPool old.now × IsPool new.now)) }
    ensures shown { IfOk result
        (λ o. IfSome o (λ b. IsWitness old.now new.now old_type.0 new_type.0 (body_view b))) }
    ensures exact { IfOk result (λ o. is_some o
        ≡ break_among (differences_at old.now new.now old_type.0 new_type.0 number)) }
{
    let Some(from) = old.field_by_number(old_type, number) else {
        return Ok(None);
    };
    let Some(to) = new.field_by_number(new_type, number) else {
        return Ok(None);
    };
    witness_between(alloc, old, old_type, new, new_type, from, to)
}

/// A message of an old type that shows that the difference at a field breaks reading: its canonical bytes are refused by the new type, or read as a
/// message that does not agree with it. It has the field alone, with one value, or two fields that the new type has in one oneof.
///
/// There is one exactly where a comparison of the two types reports that the field breaks reading.
pub fn witness<'p>(
    alloc: Global,
    old: &'p Pool,
    old_type: MessageId,
    new: &Pool,
    new_type: MessageId,
    number: u32,
) -> Result<Option<DynamicMessage<'p>>, AllocError>
    requires old { old_type.0 < length old.now.messages }
    requires new { new_type.0 < length new.now.messages }
    ensures typed { IfOk result (λ o. IfSome o (λ w. (w.pool ≡ old.now) × (w.kind ≡ old_type.0))) }
    ensures shown { IfOk result
        (λ o. IfSome o (λ w. IsWitness old.now new.now old_type.0 new_type.0 w.body)) }
    ensures exact { IfOk result (λ o. is_some o
        ≡ break_among (differences_at old.now new.now old_type.0 new_type.0 number)) }
{
    match witness_body(alloc, old, old_type, new, new_type, number)? {
        Some(body) => Ok(Some(from_well_formed(alloc, old, old_type, body))),
        None => Ok(None),
    }
}
