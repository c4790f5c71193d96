//! Messages with the types that their fields mean.

ghost use Rattle.std.specs.Prelude.{◌≡◌, map, IfOk, OnOk};
ghost use Rattle.pb_declarations.specs.View.{message_view};
ghost use Rattle.pb_link.specs.Resolving.{coming, message_read, each_read, each_behind, behind_message};
ghost use Rattle.pb_link_names.specs.View.{declaration_view};

use crate::declaring::text::copied;
use crate::resolving::enums::{copied_enums, skip_enums};
use crate::resolving::fields::resolve_fields;
use crate::resolving::upcoming::Upcoming;
use pb_declarations::MessageDecl;
use pb_link_names::declaration::Declaration;
use std::alloc::{AllocError, Global};

#[cycle(resolve_message)]
fn resolve_message(
    alloc: Global,
    row: &[Declaration],
    names: &mut Upcoming,
    decl: &MessageDecl,
) -> Result<MessageDecl, AllocError>
    ensures made { IfOk result (λ m. message_view m
        ≡ message_read (map declaration_view row.now) (coming names.old) (message_view decl.now)) }
    ensures behind { OnOk result (coming names.new
        ≡ behind_message (message_view decl.now) (coming names.old)) }
{
    names.skip(1);
    let fields = resolve_fields(alloc, row, names, &decl.fields)?;
    names.skip(decl.oneofs.len());
    let messages = resolve_messages(alloc, row, names, &decl.messages)?;
    skip_enums(names, &decl.enums);
    let name = decl.name.clone()?;
    let enums = copied_enums(alloc, &decl.enums)?;
    let oneofs = copied(alloc, &decl.oneofs)?;
    let reserved = Vec::from_slice(alloc, &decl.reserved)?;
    let reserved_names = copied(alloc, &decl.reserved_names)?;
    Ok(MessageDecl {
        name,
        fields,
        messages,
        enums,
        oneofs,
        reserved,
        reserved_names,
        map_entry: decl.map_entry,
    })
}

/// The messages of a file or a message.
#[cycle(resolve_message)]
pub(crate) fn resolve_messages(
    alloc: Global,
    row: &[Declaration],
    names: &mut Upcoming,
    messages: &[MessageDecl],
) -> Result<Vec<MessageDecl>, AllocError>
    ensures made { IfOk result (λ v. map message_view v.items
        ≡ each_read (message_read (map declaration_view row.now)) behind_message (coming names.old)
        (map message_view messages.now)) }
    ensures behind { OnOk result (coming names.new
        ≡ each_behind behind_message (map message_view messages.now) (coming names.old)) }
{
    let mut resolved: Vec<MessageDecl> = Vec::new(alloc);
    for message in messages {
        let made = resolve_message(alloc, row, names, message)?;
        resolved.push(made)?;
    }
    Ok(resolved)
}
