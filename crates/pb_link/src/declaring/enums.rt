//! The declarations of enums.

ghost use Rattle.std.specs.Prelude.{◌≡◌, map, IfOk};
ghost use Rattle.pb_schema.specs.View.{enum_view as view_of_enum};
ghost use Rattle.pb_declarations.specs.View.{enum_view, numbered_view};
ghost use Rattle.pb_link.specs.ToDecls.{shares_numbers, declared_enum};

use pb_declarations::EnumDecl;
use pb_schema::EnumType;
use std::alloc::{AllocError, Global};
use std::collections::BTreeSet;

/// Two values have one number.
fn shares_numbers(alloc: Global, values: &[(String, i32)]) -> Result<bool, AllocError>
    ensures { IfOk result (λ b. b ≡ shares_numbers (map numbered_view values.now)) }
{
    let mut seen: BTreeSet<i32> = BTreeSet::new(alloc);
    for value in values {
        let number = value.1;
        let is_new = seen.insert(number)?;
        if !is_new {
            return Ok(true);
        }
    }
    Ok(false)
}

pub(crate) fn value_decls(
    alloc: Global,
    values: &[(String, i32)],
) -> Result<Vec<(String, i32)>, AllocError>
    ensures { IfOk result (λ v. map numbered_view v.items ≡ map numbered_view values.now) }
{
    let mut decls = Vec::with_capacity(alloc, values.len())?;
    for value in values {
        let name = value.0.clone()?;
        decls.push((name, value.1))?;
    }
    Ok(decls)
}

pub(crate) fn enum_decl(alloc: Global, entry: &EnumType) -> Result<EnumDecl, AllocError>
    ensures { IfOk result (λ e. enum_view e ≡ declared_enum (view_of_enum entry.now)) }
{
    let name = entry.name.clone()?;
    let values = value_decls(alloc, &entry.values)?;
    let allow_alias = shares_numbers(alloc, &entry.values)?;
    Ok(EnumDecl {
        name,
        values,
        allow_alias,
        reserved: Vec::new(alloc),
        reserved_names: Vec::new(alloc),
    })
}
