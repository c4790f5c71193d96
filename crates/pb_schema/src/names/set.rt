//! Names that are added one after another, and whether all of them differ; names in scopes.

ghost use Rattle.std.specs.Prelude.{◌≡◌, [], ◌∷◌, IfOk, OnOk};
ghost use Rattle.pb_schema.specs.View.{bytes_of};
ghost use Rattle.pb_schema.specs.Names.{in_scope};
ghost use Rattle.pb_schema.specs.Names.Set.{IsSetOf, Adds};

use pb_names::name_set::NameSet;
use std::alloc::{AllocError, Global};

#[derive(Drop)]
pub(crate) struct AddedNames {
    pub(crate) set: NameSet,
    pub(crate) differ: bool,
}

impl AddedNames {
    pub(crate) fn new(alloc: Global) -> AddedNames
        ensures { IsSetOf [] result }
    {
        AddedNames {
            set: NameSet::new(alloc),
            differ: true,
        }
    }

    pub(crate) fn add(&mut self, name: Vec<u8>) -> Result<(), AllocError>
        ensures { OnOk result (Adds (name.items ∷ []) self.old self.new) }
    {
        let is_new = self.set.add(name)?;
        self.differ &= is_new;
        Ok(())
    }

    pub(crate) fn collect(alloc: Global, names: Vec<Vec<u8>>) -> Result<AddedNames, AllocError>
        ensures { IfOk result (IsSetOf (bytes_of names.items)) }
    {
        let mut added = AddedNames::new(alloc);
        for name in names {
            added.add(name)?;
        }
        Ok(added)
    }
}

/// The full name of a name in a scope, both with no leading dot: the name itself where the scope is empty, else the scope, a dot and the name.
pub fn scoped(alloc: Global, scope: &[u8], name: &[u8]) -> Result<Vec<u8>, AllocError>
    ensures { IfOk result (λ v. v.items ≡ in_scope scope.now name.now) }
{
    let size = scope.len().saturating_add(name.len()).saturating_add(1);
    let mut full_name = Vec::with_capacity(alloc, size)?;
    full_name.extend_from_slice(scope)?;
    if !scope.is_empty() {
        full_name.push(b'.')?;
    }
    full_name.extend_from_slice(name)?;
    Ok(full_name)
}
