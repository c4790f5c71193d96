//! The names that files declare, each a word in a scope, and whether all of them are new.

ghost use Rattle.std.specs.Prelude.{◌≡◌, [], ◌∷◌, IfOk, OnOk, map, string_bytes, flat_map};
ghost use Rattle.pb_schema.specs.View.{message_view, enum_view, field_view, parent_view};
ghost use Rattle.pb_schema.specs.Names.{names_of_field, names_of_enum};
ghost use Rattle.pb_schema.specs.Names.Declared.{scope_id, AddsOne, Adds, AddsMessage, AddsMessages, AddsEnums};

use crate::names::entry_name;
use crate::names::tree::NameTree;
use crate::types::{EnumType, Field, MessageId, MessageType, Shape};
use std::alloc::{AllocError, Global};

#[derive(Drop)]
pub(crate) struct Declarations {
    pub(crate) tree: NameTree,
    pub(crate) differ: bool,
}

impl Declarations {
    /// Adds a word in a scope. Answers the name's index.
    fn add(&mut self, alloc: Global, scope: Option<usize>, word: &[u8]) -> Result<usize, AllocError>
        ensures { IfOk result (AddsOne scope word.now self.old self.new) }
    {
        let (index, is_new) = self.tree.add(alloc, scope, word)?;
        self.differ &= is_new;
        Ok(index)
    }

    fn add_word(
        &mut self,
        alloc: Global,
        scope: Option<usize>,
        word: &[u8],
    ) -> Result<(), AllocError>
        ensures { OnOk result (Adds scope (word.now ∷ []) self.old self.new) }
    {
        let _index = self.add(alloc, scope, word)?;
        Ok(())
    }

    /// Adds the names that a field declares.
    fn add_field(
        &mut self,
        alloc: Global,
        scope: Option<usize>,
        field: &Field,
    ) -> Result<(), AllocError>
        ensures { OnOk result (Adds scope (names_of_field (field_view field.now)) self.old self.new) }
    {
        self.add_word(alloc, scope, field.name.as_str().as_bytes())?;
        if let Shape::Map { key: _ } = field.shape {
            let entry = entry_name(alloc, field.name.as_str().as_bytes())?;
            self.add_word(alloc, scope, &entry)?;
        }
        Ok(())
    }

    fn add_fields(
        &mut self,
        alloc: Global,
        scope: Option<usize>,
        fields: &[Field],
    ) -> Result<(), AllocError>
        ensures { OnOk result (Adds scope (flat_map names_of_field (map field_view fields.now)) self.old self.new) }
    {
        for field in fields {
            self.add_field(alloc, scope, field)?;
        }
        Ok(())
    }

    fn add_oneofs(
        &mut self,
        alloc: Global,
        scope: Option<usize>,
        oneofs: &[String],
    ) -> Result<(), AllocError>
        ensures { OnOk result (Adds scope (map string_bytes oneofs.now) self.old self.new) }
    {
        for name in oneofs {
            self.add_word(alloc, scope, name.as_str().as_bytes())?;
        }
        Ok(())
    }

    fn add_values(
        &mut self,
        alloc: Global,
        scope: Option<usize>,
        values: &[(String, i32)],
    ) -> Result<(), AllocError>
        ensures { OnOk result (Adds scope (map (λ v. string_bytes v.0) values.now) self.old self.new) }
    {
        for value in values {
            self.add_word(alloc, scope, value.0.as_str().as_bytes())?;
        }
        Ok(())
    }

    /// Adds a message and all that it declares directly. Answers the index of its name.
    fn add_message(
        &mut self,
        alloc: Global,
        scope: Option<usize>,
        message: &MessageType,
    ) -> Result<usize, AllocError>
        ensures { IfOk result (AddsMessage scope (message_view message.now) self.old self.new) }
    {
        let index = self.add(alloc, scope, message.name.as_str().as_bytes())?;
        self.add_fields(alloc, Some(index), &message.fields)?;
        self.add_oneofs(alloc, Some(index), &message.oneofs)?;
        Ok(index)
    }

    /// Adds an enum and its values, which are in the scope around it.
    fn add_enum(
        &mut self,
        alloc: Global,
        scope: Option<usize>,
        entry: &EnumType,
    ) -> Result<(), AllocError>
        ensures { OnOk result (Adds scope (names_of_enum (enum_view entry.now)) self.old self.new) }
    {
        self.add_word(alloc, scope, entry.name.as_str().as_bytes())?;
        self.add_values(alloc, scope, &entry.values)?;
        Ok(())
    }
}

/// The scope of what is declared in a message, or outside messages in a file.
fn scope(
    packages: &[Option<usize>],
    messages: &[usize],
    file: usize,
    parent: Option<MessageId>,
) -> Option<usize>
    ensures { result ≡ scope_id packages.now messages.now file (parent_view parent) }
{
    match parent {
        None => match packages.get(file) {
            Some(scope) => *scope,
            None => None,
        },
        Some(id) => messages.get(id.0).copied(),
    }
}

/// Adds the messages, where the files' packages have these scopes. Answers the indexes of their names.
pub(crate) fn add_messages(
    declared: &mut Declarations,
    alloc: Global,
    packages: &[Option<usize>],
    messages: &[MessageType],
) -> Result<Vec<usize>, AllocError>
    ensures { IfOk result (λ v. AddsMessages packages.now (map message_view messages.now) v.items declared.old declared.new) }
{
    let mut indexes: Vec<usize> = Vec::new(alloc);
    for message in messages {
        let around = scope(packages, &indexes, message.file, message.parent);
        let index = declared.add_message(alloc, around, message)?;
        indexes.push(index)?;
    }
    Ok(indexes)
}

/// Adds the enums, where packages and messages have these scopes.
pub(crate) fn add_enums(
    declared: &mut Declarations,
    alloc: Global,
    packages: &[Option<usize>],
    messages: &[usize],
    enums: &[EnumType],
) -> Result<(), AllocError>
    ensures { OnOk result (AddsEnums packages.now messages.now (map enum_view enums.now) declared.old declared.new) }
{
    for entry in enums {
        let around = scope(packages, messages, entry.file, entry.parent);
        declared.add_enum(alloc, around, entry)?;
    }
    Ok(())
}
