//! An object as a map.

ghost use Rattle.std.specs.Prelude.{◌≡◌, length, option_map, IfErr, OnOk};
ghost use Rattle.pb_json_text.specs.View.{form_view, members_view};
ghost use Rattle.pb_schema.specs.Rules.{NamesType};
ghost use Rattle.pb_value.specs.View.{entries_view, key_view, value_view};
ghost use Rattle.pb_json_read.specs.Answers.{Answers, AreEntered, Changes, FitsEntered, entered_view, named};
ghost use Rattle.pb_json_read.specs.Faults.{out_of_memory};
ghost use Rattle.pb_json_read.specs.Reads.{ReadsMap, ReadsMapped, ReadsMemberEntry, ReadsMemberUnder};
ghost use Rattle.pb_json_read.specs.Steps.{is_taken, with_entry};

use crate::construction::Entries;
use crate::context::Context;
use crate::error::{JsonReadCause, JsonReadError, refused};
use crate::keys::read_key;
use pb_json_text::{JsonForm, JsonMember, JsonValue};
use pb_schema::Kind;
use pb_value::{MapKey, Value};
use std::collections::BTreeMap;

/// Puts a value under a key, or notes the key of one that is passed over.
fn put_some(entries: &mut Entries, key: MapKey, value: Option<Value>) -> Result<(), JsonReadError>
    ensures put { OnOk result (FitsEntered (key_view key) (entered_view entries.old)
        → entered_view entries.new
        ≡ with_entry (key_view key) (entered_view entries.old) (option_map value_view value)) }
    ensures memory { IfErr result (λ e. e ≡ out_of_memory) }
{
    match value {
        Some(value) => {
            drop(entries.map.insert(key, value)?);
            Ok(())
        }
        None => {
            drop(entries.passed.insert(key, Value::Bool(false))?);
            Ok(())
        }
    }
}

/// Whether a member before named a key.
fn is_taken(entries: &Entries, key: &MapKey) -> bool
    ensures { result ≡ is_taken (key_view key.now) (entered_view entries.now) }
{
    entries.map.contains_key(key) || entries.passed.contains_key(key)
}

impl Context<'_> {
    /// The entries of a map, from an object.
    #[cycle(read)]
    pub(crate) fn read_map(
        &self,
        key: Kind,
        kind: Kind,
        value: &JsonValue,
    ) -> Result<BTreeMap<MapKey, Value>, JsonReadError>
        requires { NamesType (length self.now.pool.now.messages)
            (length self.now.pool.now.enums) kind }
        ensures { Answers (λ m. entries_view m.entries)
            (ReadsMap self.now.pool.now self.now.rules self.now.names.now key kind value.now.at
            (form_view value.now.form)) result }
    {
        match &value.form {
            JsonForm::Object(members) => self.read_entries(key, kind, members),
            _ => Err(refused(value.at, JsonReadCause::BadValue)),
        }
    }

    /// The entries that the members of an object are.
    #[cycle(read)]
    fn read_entries(
        &self,
        key: Kind,
        kind: Kind,
        members: &Vec<JsonMember>,
    ) -> Result<BTreeMap<MapKey, Value>, JsonReadError>
        requires { NamesType (length self.now.pool.now.messages)
            (length self.now.pool.now.enums) kind }
        ensures { Answers (λ m. entries_view m.entries)
            (ReadsMapped self.now.pool.now self.now.rules self.now.names.now key kind
            (members_view members.now.items)) result }
    {
        let mut entries = Entries::new(self.alloc);
        for member in members {
            self.read_entry(key, kind, &mut entries, member)?;
        }
        Ok(entries.map)
    }

    /// One more entry of a map.
    #[cycle(read)]
    fn read_entry(
        &self,
        key: Kind,
        kind: Kind,
        entries: &mut Entries,
        member: &JsonMember,
    ) -> Result<(), JsonReadError>
        requires { NamesType (length self.now.pool.now.messages)
            (length self.now.pool.now.enums) kind }
        ensures read { AreEntered key (entered_view entries.old)
            → Changes (entered_view entries.new)
            (ReadsMemberEntry self.now.pool.now self.now.rules self.now.names.now key kind
            (named member.now)
            (entered_view entries.old)) result }
        ensures keys { AreEntered key (entered_view entries.old)
            → OnOk result (AreEntered key (entered_view entries.new)) }
    {
        match read_key(self.alloc, key, member.name.as_str())? {
            Some(name) => self.read_under(kind, entries, name, member),
            None => Err(refused(member.at, JsonReadCause::BadKey)),
        }
    }

    /// An entry under a key.
    #[cycle(read)]
    fn read_under(
        &self,
        kind: Kind,
        entries: &mut Entries,
        key: MapKey,
        member: &JsonMember,
    ) -> Result<(), JsonReadError>
        requires { NamesType (length self.now.pool.now.messages)
            (length self.now.pool.now.enums) kind }
        ensures { FitsEntered (key_view key) (entered_view entries.old)
            → Changes (entered_view entries.new)
            (ReadsMemberUnder self.now.pool.now self.now.rules self.now.names.now (key_view key)
            kind (named member.now)
            (entered_view entries.old)) result }
    {
        if is_taken(entries, &key) {
            return Err(refused(member.at, JsonReadCause::RepeatedName));
        }
        let value = self.read_single(kind, &member.value)?;
        put_some(entries, key, value)
    }
}
