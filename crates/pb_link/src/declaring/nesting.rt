//! Messages and enums in the messages and files that declare them.

ghost use Rattle.std.specs.Prelude.{◌≡◌, ◌<◌, ◌+◌, ◌++◌, [], length, map, drop, take, reverse, filter_map, string_bytes, Some, slice_get, IfOk, OnOk};
ghost use Rattle.pb_schema.specs.Types.{MessageView, is_proto2};
ghost use Rattle.pb_schema.specs.View.{field_view as view_of_field, message_view as view_of_message, parent_view};
ghost use Rattle.pb_schema.specs.Rules.{IsPool};
ghost use Rattle.pb_declarations.specs.View.{enum_view, message_view};
ghost use Rattle.pb_link.specs.ToDecls.{numbered, entry_of_field, synthetic_names};
ghost use Rattle.pb_link.specs.Declarable.{AreDeclarable};
ghost use Rattle.pb_link.specs.Nested.{inside_view, with_message, with_enum, ChangesAt, PlacesAt};
ghost use Rattle.pb_link.specs.Nested.{whole_message, inside_message, inside_file, AreInside, AreNested};

use crate::declaring::enums::enum_decl;
use crate::declaring::fields::{add_entries, add_synthetic, field_decls};
use crate::declaring::text::copied;
use pb_declarations::{EnumDecl, MessageDecl};
use pb_schema::{Field, MessageId, MessageType, Pool};
use std::alloc::{AllocError, Global};

/// The messages and enums that are declared directly in a file or a message.
#[derive(Drop)]
pub(crate) struct Inside {
    /// The last one first.
    pub(crate) messages: Vec<MessageDecl>,
    pub(crate) enums: Vec<EnumDecl>,
}

/// `count` places that hold nothing.
fn empty(alloc: Global, count: usize) -> Result<Vec<Inside>, AllocError>
    ensures { IfOk result (λ v. AreInside count
        (λ i. record { messages = []; enums = [] }) v.items) }
{
    let mut places = Vec::with_capacity(alloc, count)?;
    for _ in 0..count {
        places.push(Inside {
            messages: Vec::new(alloc),
            enums: Vec::new(alloc),
        })?;
    }
    Ok(places)
}

fn add_message(
    places: &mut Vec<Inside>,
    index: usize,
    message: MessageDecl,
) -> Result<(), AllocError>
    ensures { OnOk result (ChangesAt index
        (with_message (message_view message)) places.old.items places.new.items) }
{
    if let Some(inside) = places.get_mut(index) {
        inside.messages.push(message)?;
    }
    Ok(())
}

fn add_enum(places: &mut Vec<Inside>, index: usize, entry: EnumDecl) -> Result<(), AllocError>
    ensures { OnOk result (ChangesAt index
        (with_enum (enum_view entry)) places.old.items places.new.items) }
{
    if let Some(inside) = places.get_mut(index) {
        inside.enums.push(entry)?;
    }
    Ok(())
}

/// Appends a message to those of its file or of the message that it is declared in.
fn place_message(
    file: usize,
    parent: Option<MessageId>,
    message: MessageDecl,
    files: &mut Vec<Inside>,
    messages: &mut Vec<Inside>,
) -> Result<(), AllocError>
    ensures { OnOk result (PlacesAt file (parent_view parent)
        (with_message (message_view message)) files.old.items messages.old.items files.new.items
        messages.new.items) }
{
    match parent {
        None => add_message(files, file, message)?,
        Some(id) => add_message(messages, id.0, message)?,
    }
    Ok(())
}

fn place_enum(
    file: usize,
    parent: Option<MessageId>,
    entry: EnumDecl,
    files: &mut Vec<Inside>,
    messages: &mut Vec<Inside>,
) -> Result<(), AllocError>
    ensures { OnOk result (PlacesAt file (parent_view parent)
        (with_enum (enum_view entry)) files.old.items messages.old.items files.new.items
        messages.new.items) }
{
    match parent {
        None => add_enum(files, file, entry)?,
        Some(id) => add_enum(messages, id.0, entry)?,
    }
    Ok(())
}

/// Puts each enum into its place.
fn nest_enums(
    alloc: Global,
    pool: &Pool,
    files: &mut Vec<Inside>,
    messages: &mut Vec<Inside>,
) -> Result<(), AllocError>
    requires { AreNested pool.now (length pool.now.messages) 0 files.old.items messages.old.items }
    ensures { OnOk result (AreNested pool.now (length pool.now.messages)
        (length pool.now.enums) files.new.items messages.new.items) }
{
    for entry in pool.enums() {
        let decl = enum_decl(alloc, entry)?;
        place_enum(entry.file, entry.parent, decl, files, messages)?;
    }
    Ok(())
}

/// The messages in a message: those of `inside`, which has the last one first, in declaration order, and then its entries.
fn inner_messages(
    alloc: Global,
    pool: &Pool,
    fields: &[Field],
    reversed: Vec<MessageDecl>,
) -> Result<Vec<MessageDecl>, AllocError>
    requires pool { IsPool pool.now }
    requires fields { AreDeclarable pool.now (map view_of_field fields.now) }
    ensures { IfOk result (λ v. map message_view v.items
        ≡ reverse (map message_view reversed.items) ++ filter_map (entry_of_field pool.now)
        (map view_of_field fields.now)) }
{
    let mut messages = reversed;
    messages.reverse();
    add_entries(alloc, pool, fields, &mut messages)?;
    Ok(messages)
}

/// The names of the oneofs of a message, and after them those of its optional fields.
fn oneof_names(
    alloc: Global,
    proto2: bool,
    message: &MessageType,
) -> Result<Vec<String>, AllocError>
    ensures { IfOk result (λ v. map string_bytes v.items
        ≡ (view_of_message message.now).oneofs ++ synthetic_names proto2
        (view_of_message message.now).fields) }
{
    let mut names = copied(alloc, &message.oneofs)?;
    add_synthetic(alloc, proto2, &message.fields, &mut names)?;
    Ok(names)
}

/// Whether the file of an index is of proto2.
fn is_two(pool: &Pool, file: usize) -> bool
    ensures { result ≡ is_proto2 pool.now.files file }
{
    match pool.files().get(file) {
        Some(file) => file.proto2,
        None => false,
    }
}

/// The declaration of a message that holds `inside`.
fn message_decl(
    alloc: Global,
    pool: &Pool,
    index: usize,
    inside: Inside,
) -> Result<MessageDecl, AllocError>
    requires within { index < length pool.now.messages }
    requires inside { inside_view inside ≡ inside_message pool.now
        (drop (index + 1) (numbered pool.now)) pool.now.enums index }
    ensures { IfOk result (λ m. (t : MessageView) → slice_get pool.now.messages index ≡ Some t
        → message_view m ≡ whole_message pool.now (index, t)) }
{
    let message = &pool.messages()[index];
    let scope = pool.message_name(MessageId(index));
    let proto2 = is_two(pool, message.file);
    let fields = field_decls(
        alloc,
        pool,
        proto2,
        scope,
        message.oneofs.len(),
        &message.fields,
    )?;
    let messages = inner_messages(alloc, pool, &message.fields, inside.messages)?;
    let oneofs = oneof_names(alloc, proto2, message)?;
    let name = message.name.clone()?;
    Ok(MessageDecl {
        name,
        fields,
        messages,
        enums: inside.enums,
        oneofs,
        reserved: Vec::new(alloc),
        reserved_names: Vec::new(alloc),
        map_entry: false,
    })
}

/// Makes the declaration of a message and puts it into its place. Later messages are in their places already.
fn nest_message(
    alloc: Global,
    pool: &Pool,
    index: usize,
    inside: Inside,
    files: &mut Vec<Inside>,
    messages: &mut Vec<Inside>,
) -> Result<(), AllocError>
    requires within { index < length pool.now.messages }
    requires inside { inside_view inside ≡ inside_message pool.now
        (drop (index + 1) (numbered pool.now)) (take (length pool.now.enums) pool.now.enums) index }
    requires files { AreInside (length pool.now.files)
        (inside_file pool.now (drop (index + 1) (numbered pool.now))
        (take (length pool.now.enums) pool.now.enums)) files.old.items }
    requires messages { AreInside index
        (inside_message pool.now (drop (index + 1) (numbered pool.now))
        (take (length pool.now.enums) pool.now.enums)) messages.old.items }
    ensures { OnOk result (AreNested pool.now index
        (length pool.now.enums) files.new.items messages.new.items) }
{
    let decl = message_decl(alloc, pool, index, inside)?;
    let message = &pool.messages()[index];
    place_message(message.file, message.parent, decl, files, messages)?;
    Ok(())
}

/// Puts each message into its place, the last one first, so that it is whole.
fn nest_messages(
    alloc: Global,
    pool: &Pool,
    files: &mut Vec<Inside>,
    messages: &mut Vec<Inside>,
) -> Result<(), AllocError>
    requires { AreNested pool.now (length pool.now.messages)
        (length pool.now.enums) files.old.items messages.old.items }
    ensures { OnOk result (AreNested pool.now 0
        (length pool.now.enums) files.new.items messages.new.items) }
{
    while let Some(inside) = messages.pop() {
        let index = messages.len();
        nest_message(alloc, pool, index, inside, files, messages)?;
    }
    Ok(())
}

/// The messages and enums directly in each file, the last message first.
pub(crate) fn nested(alloc: Global, pool: &Pool) -> Result<Vec<Inside>, AllocError>
    ensures { IfOk result (λ v. AreInside (length pool.now.files)
        (inside_file pool.now (numbered pool.now) pool.now.enums) v.items) }
{
    let mut files = empty(alloc, pool.files().len())?;
    let mut messages = empty(alloc, pool.messages().len())?;
    nest_enums(alloc, pool, &mut files, &mut messages)?;
    nest_messages(alloc, pool, &mut files, &mut messages)?;
    Ok(files)
}
