//! Texts that declarations are made of.

ghost use Rattle.std.specs.Prelude.{◌≡◌, ◌∷◌, IfOk, IsAscii, map, string_bytes};
ghost use Rattle.pb_schema.specs.Names.{in_scope, entry_name};

use pb_schema::entry_name;
use std::alloc::{AllocError, Global};

/// A dot and a name.
pub(crate) fn dotted(alloc: Global, name: &[u8]) -> Result<String, AllocError>
    requires { IsAscii name.now }
    ensures { IfOk result (λ s. string_bytes s ≡ 46 ∷ name.now) }
{
    let mut text = Vec::new(alloc);
    text.push(b'.')?;
    text.extend_from_slice(name)?;
    let owned = String::from_utf8_lossy(alloc, text.as_slice())?;
    Ok(owned)
}

/// A dot and the full name of the entry message of a map field, in a message with this full name.
pub(crate) fn dotted_entry(alloc: Global, scope: &[u8], name: &[u8]) -> Result<String, AllocError>
    requires scope { IsAscii scope.now }
    requires name { IsAscii (entry_name name.now) }
    ensures { IfOk result (λ s. string_bytes s ≡ 46 ∷ in_scope scope.now (entry_name name.now)) }
{
    let entry = entry_name(alloc, name)?;
    let mut full_name = scope.to_vec(alloc)?;
    if !scope.is_empty() {
        full_name.push(b'.')?;
    }
    full_name.extend_from_slice(entry.as_slice())?;
    let owned = dotted(alloc, full_name.as_slice())?;
    Ok(owned)
}

/// The name of the synthetic oneof of a field.
pub(crate) fn synthetic_name(alloc: Global, name: &str) -> Result<String, AllocError>
    ensures { IfOk result (λ s. string_bytes s ≡ 95 ∷ name.now) }
{
    let mut text = String::new(alloc);
    text.push('_')?;
    text.push_str(name)?;
    Ok(text)
}

/// The same texts once more.
pub(crate) fn copied(alloc: Global, texts: &[String]) -> Result<Vec<String>, AllocError>
    ensures { IfOk result (λ v. map string_bytes v.items ≡ map string_bytes texts.now) }
{
    let mut copies = Vec::with_capacity(alloc, texts.len())?;
    for text in texts {
        let copy = text.clone()?;
        copies.push(copy)?;
    }
    Ok(copies)
}
