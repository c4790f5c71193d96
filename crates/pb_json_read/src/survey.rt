//! A first walk along a JSON value, which makes the tables of the types in which names are looked for often.

ghost use Rattle.std.specs.Prelude.{◌<◌, length, IfOk, OnOk};
ghost use Rattle.pb_schema.specs.Rules.{NamesType};
ghost use Rattle.pb_json_read.specs.Tables.{AreTables};

use crate::forms::{field_for, is_sole};
use crate::names::field_meant;
use crate::tables::Tables;
use crate::tags::{find_tag, url_meant};
use pb_json::JsonNames;
use pb_json::well_known::{WellKnown, is_plain, well_known};
use pb_json_text::{JsonForm, JsonMember, JsonValue};
use pb_schema::{Kind, MessageId, Pool, Shape};
use std::alloc::{AllocError, Global};

/// A text of fewer bytes has so few names that no table is made.
const SHORT: usize = 1024;

/// The tables for a message of a type, whose text has this many bytes.
pub(crate) fn tables_for(
    alloc: Global,
    pool: &Pool,
    names: &JsonNames,
    message_type: MessageId,
    value: &JsonValue,
    bytes: usize,
) -> Result<Tables, AllocError>
    requires { message_type.0 < length pool.now.messages }
    ensures { IfOk result (AreTables pool.now names.now) }
{
    if bytes < SHORT {
        return Ok(Tables::none(alloc));
    }
    let survey = Survey { alloc, pool, names };
    let mut tables = Tables::none(alloc);
    survey.visit_message(&mut tables, message_type, value)?;
    Ok(tables)
}

/// How many strings a value has that may name values of an enum.
fn strings_in(form: &JsonForm) -> usize {
    match form {
        JsonForm::String(_) => 1,
        JsonForm::Array(items) => items.len(),
        JsonForm::Object(members) => members.len(),
        JsonForm::Null | JsonForm::Bool(_) | JsonForm::Number(_) => 0,
    }
}

/// The types of a message, and the names that their fields are given.
#[derive(Clone, Copy)]
struct Survey<'a> {
    alloc: Global,
    pool: &'a Pool,
    names: &'a JsonNames,
}

impl Survey<'_> {
    /// A message of a type, by the form that the type has.
    #[cycle(survey)]
    fn visit_message(
        &self,
        tables: &mut Tables,
        id: MessageId,
        value: &JsonValue,
    ) -> Result<(), AllocError>
        requires within { id.0 < length self.now.pool.now.messages }
        requires tables { AreTables self.now.pool.now self.now.names.now tables.old }
        ensures { OnOk result (AreTables self.now.pool.now self.now.names.now tables.new) }
    {
        match well_known(self.pool, id) {
            WellKnown::Other => self.visit_object(tables, id, value),
            WellKnown::Wrapper => self.visit_sole(tables, id, value),
            WellKnown::Struct => self.visit_sole(tables, id, value),
            WellKnown::ListValue => self.visit_sole(tables, id, value),
            WellKnown::Value => self.visit_dynamic(tables, id, value),
            WellKnown::Any => self.visit_any(tables, value),
            WellKnown::Timestamp | WellKnown::Duration | WellKnown::FieldMask => Ok(()),
        }
    }

    /// A message of a type that has no form of its own.
    #[cycle(survey)]
    fn visit_object(
        &self,
        tables: &mut Tables,
        id: MessageId,
        value: &JsonValue,
    ) -> Result<(), AllocError>
        requires within { id.0 < length self.now.pool.now.messages }
        requires tables { AreTables self.now.pool.now self.now.names.now tables.old }
        ensures { OnOk result (AreTables self.now.pool.now self.now.names.now tables.new) }
    {
        match &value.form {
            JsonForm::Object(members) => self.visit_members(tables, id, members),
            _ => Ok(()),
        }
    }

    /// The members of an object.
    #[cycle(survey)]
    fn visit_members(
        &self,
        tables: &mut Tables,
        id: MessageId,
        members: &Vec<JsonMember>,
    ) -> Result<(), AllocError>
        requires within { id.0 < length self.now.pool.now.messages }
        requires tables { AreTables self.now.pool.now self.now.names.now tables.old }
        ensures { OnOk result (AreTables self.now.pool.now self.now.names.now tables.new) }
    {
        tables.count_members(self.alloc, self.pool, self.names, id, members.len())?;
        for member in members {
            self.visit_member(tables, id, member)?;
        }
        Ok(())
    }

    #[cycle(survey)]
    fn visit_member(
        &self,
        tables: &mut Tables,
        id: MessageId,
        member: &JsonMember,
    ) -> Result<(), AllocError>
        requires within { id.0 < length self.now.pool.now.messages }
        requires tables { AreTables self.now.pool.now self.now.names.now tables.old }
        ensures { OnOk result (AreTables self.now.pool.now self.now.names.now tables.new) }
    {
        match field_meant(self.names, self.pool, tables, id, member.name.as_str()) {
            Some(field) => self.visit_content(tables, field.shape, field.kind, &member.value),
            None => Ok(()),
        }
    }

    /// What a field of a shape and a kind holds.
    #[cycle(survey)]
    fn visit_content(
        &self,
        tables: &mut Tables,
        shape: Shape,
        kind: Kind,
        value: &JsonValue,
    ) -> Result<(), AllocError>
        requires kind { NamesType (length self.now.pool.now.messages)
            (length self.now.pool.now.enums) kind }
        requires tables { AreTables self.now.pool.now self.now.names.now tables.old }
        ensures { OnOk result (AreTables self.now.pool.now self.now.names.now tables.new) }
    {
        match kind.message() {
            Some(id) => self.visit_held(tables, shape, id, value),
            None => self.visit_plain(tables, kind, &value.form),
        }
    }

    /// The messages that a field of a shape holds.
    #[cycle(survey)]
    fn visit_held(
        &self,
        tables: &mut Tables,
        shape: Shape,
        id: MessageId,
        value: &JsonValue,
    ) -> Result<(), AllocError>
        requires within { id.0 < length self.now.pool.now.messages }
        requires tables { AreTables self.now.pool.now self.now.names.now tables.old }
        ensures { OnOk result (AreTables self.now.pool.now self.now.names.now tables.new) }
    {
        match shape {
            Shape::Implicit => self.visit_message(tables, id, value),
            Shape::Explicit => self.visit_message(tables, id, value),
            Shape::OneofMember(_) => self.visit_message(tables, id, value),
            Shape::List { packed: _ } => self.visit_elements(tables, id, value),
            Shape::Map { key: _ } => self.visit_entries(tables, id, value),
        }
    }

    /// The messages of a list.
    #[cycle(survey)]
    fn visit_elements(
        &self,
        tables: &mut Tables,
        id: MessageId,
        value: &JsonValue,
    ) -> Result<(), AllocError>
        requires within { id.0 < length self.now.pool.now.messages }
        requires tables { AreTables self.now.pool.now self.now.names.now tables.old }
        ensures { OnOk result (AreTables self.now.pool.now self.now.names.now tables.new) }
    {
        let JsonForm::Array(items) = &value.form else {
            return Ok(());
        };
        for item in items {
            self.visit_message(tables, id, item)?;
        }
        Ok(())
    }

    /// The messages of a map.
    #[cycle(survey)]
    fn visit_entries(
        &self,
        tables: &mut Tables,
        id: MessageId,
        value: &JsonValue,
    ) -> Result<(), AllocError>
        requires within { id.0 < length self.now.pool.now.messages }
        requires tables { AreTables self.now.pool.now self.now.names.now tables.old }
        ensures { OnOk result (AreTables self.now.pool.now self.now.names.now tables.new) }
    {
        let JsonForm::Object(members) = &value.form else {
            return Ok(());
        };
        for member in members {
            self.visit_message(tables, id, &member.value)?;
        }
        Ok(())
    }

    /// Values of a kind that is no message.
    fn visit_plain(
        &self,
        tables: &mut Tables,
        kind: Kind,
        form: &JsonForm,
    ) -> Result<(), AllocError>
        requires kind { NamesType (length self.now.pool.now.messages)
            (length self.now.pool.now.enums) kind }
        requires tables { AreTables self.now.pool.now self.now.names.now tables.old }
        ensures { OnOk result (AreTables self.now.pool.now self.now.names.now tables.new) }
    {
        match kind.enum_id() {
            Some(id) => tables.count_strings(
                self.alloc,
                self.pool,
                self.names,
                id,
                strings_in(form),
            ),
            None => Ok(()),
        }
    }

    /// A message that is what its field 1 holds.
    #[cycle(survey)]
    fn visit_sole(
        &self,
        tables: &mut Tables,
        id: MessageId,
        value: &JsonValue,
    ) -> Result<(), AllocError>
        requires within { id.0 < length self.now.pool.now.messages }
        requires tables { AreTables self.now.pool.now self.now.names.now tables.old }
        ensures { OnOk result (AreTables self.now.pool.now self.now.names.now tables.new) }
    {
        match self.pool.field_by_number(id, 1) {
            Some(field) => self.visit_flat(tables, field.shape, field.kind, value),
            None => Ok(()),
        }
    }

    /// What a field holds that is no message.
    #[cycle(survey)]
    fn visit_flat(
        &self,
        tables: &mut Tables,
        shape: Shape,
        kind: Kind,
        value: &JsonValue,
    ) -> Result<(), AllocError>
        requires kind { NamesType (length self.now.pool.now.messages)
            (length self.now.pool.now.enums) kind }
        requires tables { AreTables self.now.pool.now self.now.names.now tables.old }
        ensures { OnOk result (AreTables self.now.pool.now self.now.names.now tables.new) }
    {
        match kind.message() {
            Some(id) => self.visit_parts(tables, shape, id, value),
            None => self.visit_plain(tables, kind, &value.form),
        }
    }

    /// The messages of a list or a map.
    #[cycle(survey)]
    fn visit_parts(
        &self,
        tables: &mut Tables,
        shape: Shape,
        id: MessageId,
        value: &JsonValue,
    ) -> Result<(), AllocError>
        requires within { id.0 < length self.now.pool.now.messages }
        requires tables { AreTables self.now.pool.now self.now.names.now tables.old }
        ensures { OnOk result (AreTables self.now.pool.now self.now.names.now tables.new) }
    {
        match shape {
            Shape::Implicit | Shape::Explicit | Shape::OneofMember(_) => Ok(()),
            Shape::List { packed: _ } => self.visit_elements(tables, id, value),
            Shape::Map { key: _ } => self.visit_entries(tables, id, value),
        }
    }

    /// A message of type `google.protobuf.Value`.
    #[cycle(survey)]
    fn visit_dynamic(
        &self,
        tables: &mut Tables,
        id: MessageId,
        value: &JsonValue,
    ) -> Result<(), AllocError>
        requires within { id.0 < length self.now.pool.now.messages }
        requires tables { AreTables self.now.pool.now self.now.names.now tables.old }
        ensures { OnOk result (AreTables self.now.pool.now self.now.names.now tables.new) }
    {
        match self.pool.field_by_number(id, field_for(&value.form)) {
            Some(field) => self.visit_nested(tables, field.shape, field.kind, value),
            None => Ok(()),
        }
    }

    /// What a field holds that may be a Struct or a ListValue.
    #[cycle(survey)]
    fn visit_nested(
        &self,
        tables: &mut Tables,
        shape: Shape,
        kind: Kind,
        value: &JsonValue,
    ) -> Result<(), AllocError>
        requires kind { NamesType (length self.now.pool.now.messages)
            (length self.now.pool.now.enums) kind }
        requires tables { AreTables self.now.pool.now self.now.names.now tables.old }
        ensures { OnOk result (AreTables self.now.pool.now self.now.names.now tables.new) }
    {
        match kind.message() {
            Some(id) => self.visit_nested_held(tables, shape, id, value),
            None => self.visit_plain(tables, kind, &value.form),
        }
    }

    /// A Struct or a ListValue, or the messages of a list or a map.
    #[cycle(survey)]
    fn visit_nested_held(
        &self,
        tables: &mut Tables,
        shape: Shape,
        id: MessageId,
        value: &JsonValue,
    ) -> Result<(), AllocError>
        requires within { id.0 < length self.now.pool.now.messages }
        requires tables { AreTables self.now.pool.now self.now.names.now tables.old }
        ensures { OnOk result (AreTables self.now.pool.now self.now.names.now tables.new) }
    {
        if is_sole(well_known(self.pool, id)) {
            self.visit_sole(tables, id, value)
        } else {
            self.visit_parts(tables, shape, id, value)
        }
    }

    /// A message of type `google.protobuf.Any`.
    #[cycle(survey)]
    fn visit_any(&self, tables: &mut Tables, value: &JsonValue) -> Result<(), AllocError>
        requires { AreTables self.now.pool.now self.now.names.now tables.old }
        ensures { OnOk result (AreTables self.now.pool.now self.now.names.now tables.new) }
    {
        let JsonForm::Object(members) = &value.form else {
            return Ok(());
        };
        let Ok(Some(tag)) = find_tag(members) else {
            return Ok(());
        };
        match url_meant(self.pool, tag) {
            Some((_url, inner)) => self.visit_tagged(tables, inner, members),
            None => Ok(()),
        }
    }

    /// The members of an Any of a type.
    #[cycle(survey)]
    fn visit_tagged(
        &self,
        tables: &mut Tables,
        inner: MessageId,
        members: &Vec<JsonMember>,
    ) -> Result<(), AllocError>
        requires within { inner.0 < length self.now.pool.now.messages }
        requires tables { AreTables self.now.pool.now self.now.names.now tables.old }
        ensures { OnOk result (AreTables self.now.pool.now self.now.names.now tables.new) }
    {
        if is_plain(well_known(self.pool, inner)) {
            return self.visit_members(tables, inner, members);
        }
        for member in members {
            self.visit_form(tables, inner, member)?;
        }
        Ok(())
    }

    /// A member of an Any of a type with a form of its own.
    #[cycle(survey)]
    fn visit_form(
        &self,
        tables: &mut Tables,
        inner: MessageId,
        member: &JsonMember,
    ) -> Result<(), AllocError>
        requires within { inner.0 < length self.now.pool.now.messages }
        requires tables { AreTables self.now.pool.now self.now.names.now tables.old }
        ensures { OnOk result (AreTables self.now.pool.now self.now.names.now tables.new) }
    {
        if member.name.as_str() == "value" {
            self.visit_message(tables, inner, &member.value)
        } else {
            Ok(())
        }
    }
}
