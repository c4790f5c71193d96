//! A message under construction.

ghost use Rattle.std.specs.Prelude.{◌≡◌, option_map, Some, IfErr, IfOk, OnOk};
ghost use Rattle.pb_schema.specs.declared.types.Shape.TheVariants.{OneofMember};
ghost use Rattle.pb_value.specs.Judge.{is_absence, is_default_datum};
ghost use Rattle.pb_value.specs.View.{body_view, content_view, value_view};
ghost use Rattle.pb_json_read.specs.Answers.{Changes, entered_view, parts_view};
ghost use Rattle.pb_json_read.specs.Faults.{out_of_memory};
ghost use Rattle.pb_json_read.specs.Steps.{none_entered, nothing, with_held, with_number, with_oneof};

use crate::error::{JsonReadCause, JsonReadError};
use pb_schema::Shape;
use pb_value::bodies::{empty_body, put_field};
use pb_value::{Body, Content, MapKey, Value};
use std::alloc::Global;
use std::collections::{BTreeMap, BTreeSet};

/// What the members so far give: the message, the numbers of the fields that they name, and the oneofs that they set.
#[derive(Drop)]
pub(crate) struct Parts {
    pub body: Body,
    pub numbers: BTreeSet<u32>,
    pub oneofs: BTreeSet<u32>,
}

impl Parts {
    pub(crate) fn new(alloc: Global) -> Parts
        ensures { parts_view result ≡ nothing }
    {
        Parts {
            body: empty_body(alloc),
            numbers: BTreeSet::new(alloc),
            oneofs: BTreeSet::new(alloc),
        }
    }

    /// Notes that a member whose name is at this byte names the field of a number.
    pub(crate) fn note_number(&mut self, number: u32, at: usize) -> Result<(), JsonReadError>
        ensures { Changes (parts_view self.new) (λ r. r ≡ with_number number at
            (parts_view self.old)) result }
    {
        let is_first = self.numbers.insert(number)?;
        if !is_first {
            return Err(JsonReadError {
                byte: at,
                cause: JsonReadCause::RepeatedName,
            });
        }
        Ok(())
    }

    /// Notes that a member sets a oneof.
    fn note_oneof(&mut self, oneof: u32, at: usize) -> Result<(), JsonReadError>
        ensures { Changes (parts_view self.new) (λ r. r ≡ with_oneof (OneofMember oneof) at
            (parts_view self.old)) result }
    {
        let is_first = self.oneofs.insert(oneof)?;
        if !is_first {
            return Err(JsonReadError {
                byte: at,
                cause: JsonReadCause::SecondMember,
            });
        }
        Ok(())
    }

    /// Notes that a member sets a field of a shape, and with it the oneof that the shape names.
    pub(crate) fn note_shape(&mut self, shape: Shape, at: usize) -> Result<(), JsonReadError>
        ensures { Changes (parts_view self.new) (λ r. r ≡ with_oneof shape at
            (parts_view self.old)) result }
    {
        match shape {
            Shape::OneofMember(oneof) => self.note_oneof(oneof, at),
            Shape::Implicit | Shape::Explicit => Ok(()),
            Shape::List { packed: _ } | Shape::Map { key: _ } => Ok(()),
        }
    }

    /// Puts what a field holds, unless an absent field holds the same.
    pub(crate) fn put(
        &mut self,
        shape: Shape,
        number: u32,
        content: Content,
    ) -> Result<(), JsonReadError>
        ensures put { OnOk result (parts_view self.new
            ≡ with_held shape number (Some (content_view content)) (parts_view self.old)) }
        ensures memory { IfErr result (λ e. e ≡ out_of_memory) }
    {
        if is_absence(shape, &content) {
            return Ok(());
        }
        put_field(&mut self.body, number, content)?;
        Ok(())
    }
}

/// A message of one field, which holds this, if there is something.
pub(crate) fn alone(
    alloc: Global,
    shape: Shape,
    number: u32,
    content: Option<Content>,
) -> Result<Body, JsonReadError>
    ensures made { IfOk result (λ b. body_view b
        ≡ (with_held shape number (option_map content_view content) nothing).message) }
    ensures memory { IfErr result (λ e. e ≡ out_of_memory) }
{
    let mut parts = Parts::new(alloc);
    if let Some(content) = content {
        parts.put(shape, number, content)?;
    }
    Ok(parts.body)
}

/// The entries of a map under construction.
#[derive(Drop)]
pub(crate) struct Entries {
    pub map: BTreeMap<MapKey, Value>,

    /// The keys of the values that are passed over, each with false.
    pub passed: BTreeMap<MapKey, Value>,
}

impl Entries {
    pub(crate) fn new(alloc: Global) -> Entries
        ensures { entered_view result ≡ none_entered }
    {
        Entries {
            map: BTreeMap::new(alloc),
            passed: BTreeMap::new(alloc),
        }
    }
}

/// Whether an absent field holds the same: a default of implicit presence, no elements, no entries.
fn is_absence(shape: Shape, content: &Content) -> bool
    ensures { result ≡ is_absence shape (content_view content.now) }
{
    match content {
        Content::One(value) => matches!(shape, Shape::Implicit) && is_default(value),
        Content::List(values) => values.is_empty(),
        Content::Map(entries) => entries.is_empty(),
    }
}

fn is_default(value: &Value) -> bool
    ensures { result ≡ is_default_datum (value_view value.now) }
{
    match value {
        Value::I32(number) | Value::Enum(number) => *number == 0,
        Value::I64(number) => *number == 0,
        Value::U32(number) | Value::F32(number) => *number == 0,
        Value::U64(number) | Value::F64(number) => *number == 0,
        Value::Bool(is_true) => !*is_true,
        Value::Text(text) => text.is_empty(),
        Value::Bytes(bytes) => bytes.is_empty(),
        Value::Message(_) => false,
    }
}
