//! Enums, which name no types.

ghost use Rattle.std.specs.Prelude.{◌≡◌, map, IfOk};
ghost use Rattle.pb_declarations.specs.View.{enum_view};
ghost use Rattle.pb_link.specs.Resolving.{coming, each_behind, behind_enum};

use crate::declaring::enums::value_decls;
use crate::declaring::text::copied;
use crate::resolving::upcoming::Upcoming;
use pb_declarations::EnumDecl;
use std::alloc::{AllocError, Global};

fn copied_enum(alloc: Global, entry: &EnumDecl) -> Result<EnumDecl, AllocError>
    ensures { IfOk result (λ e. enum_view e ≡ enum_view entry.now) }
{
    let name = entry.name.clone()?;
    let values = value_decls(alloc, &entry.values)?;
    let reserved = Vec::from_slice(alloc, &entry.reserved)?;
    let reserved_names = copied(alloc, &entry.reserved_names)?;
    Ok(EnumDecl {
        name,
        values,
        allow_alias: entry.allow_alias,
        reserved,
        reserved_names,
    })
}

/// The same enums once more.
pub(crate) fn copied_enums(alloc: Global, enums: &[EnumDecl]) -> Result<Vec<EnumDecl>, AllocError>
    ensures { IfOk result (λ v. map enum_view v.items ≡ map enum_view enums.now) }
{
    let mut copies: Vec<EnumDecl> = Vec::new(alloc);
    for entry in enums {
        let copy = copied_enum(alloc, entry)?;
        copies.push(copy)?;
    }
    Ok(copies)
}

fn skip_enum(names: &mut Upcoming, entry: &EnumDecl)
    ensures { coming names.new ≡ behind_enum (enum_view entry.now) (coming names.old) }
{
    names.skip(1);
    names.skip(entry.values.len());
}

/// Goes past enums and their values.
pub(crate) fn skip_enums(names: &mut Upcoming, enums: &[EnumDecl])
    ensures { coming names.new ≡ each_behind behind_enum (map enum_view enums.now)
        (coming names.old) }
{
    for entry in enums {
        skip_enum(names, entry);
    }
}
