//! Looking up type names.

ghost use Rattle.std.specs.Prelude.{◌≡◌, List, false, IfOk, map, option_map, find};
ghost use Rattle.std.specs.List.{list_any};
ghost use Rattle.pb_schema.specs.Names.{in_scope};
ghost use Rattle.pb_link_names.specs.View.{declaration_view, found_view};
ghost use Rattle.pb_link_names.specs.Declarations.{Declaration as DeclarationView};
ghost use Rattle.pb_link_names.specs.Lookup.{type_named, is_package_name, can_hold, is_taken, decides, scopes_from};
ghost use Rattle.pb_link_names.specs.Lookup.{decided_name, type_found, is_taken_if, is_no_type, looked_up};
ghost use Rattle.pb_link_names.specs.Graphs.{sees_by};
ghost use Rattle.pb_link_names.specs.PackageSets.{IsPackageSet};
ghost use Rattle.pb_link_names.specs.Scene.{IsScene, scene_sees};

use crate::declaration::Declaration;
use crate::found::Found;
use crate::package_set::PackageSet;
use crate::places::{Places, Want};
use crate::scopes::{beginning, first_part, has_dot};
use crate::sight::Sight;
use crate::words::Words;
use pb_schema::scoped;
use std::alloc::{AllocError, Global};

/// The declarations by name, and what the file that was looked at last sees.
#[derive(Drop)]
pub struct Scene<'a> {
    pub places: Places<'a>,
    /// The packages of all files.
    pub packages: PackageSet,
    /// The words of the names of all files.
    pub words: Words<'a>,
    pub sight: Sight,
    /// The packages of the files that are seen.
    pub seen: PackageSet,
}

impl Scene<'_> {
    /// The first type of a full name, among those of all files or those that are seen.
    fn type_named(&self, row: &[Declaration], everywhere: bool, name: &[u8]) -> Option<usize>
        requires { IsScene (map declaration_view row.now) self.now }
        ensures { result ≡ type_named (map declaration_view row.now) (scene_sees everywhere self.now) name.now }
    {
        self.places
            .first(row, &self.sight, everywhere, Want::Types, name)
    }

    fn is_package(&self, everywhere: bool, name: &[u8]) -> bool
        requires packages { IsPackageSet self.now.packages }
        requires seen { IsPackageSet self.now.seen }
        ensures { (ds : List DeclarationView) → IsScene ds self.now → result ≡ is_package_name ds (scene_sees everywhere self.now) name.now }
    {
        if everywhere {
            return self.packages.contains(name);
        }
        self.seen.contains(name)
    }

    fn can_hold(&self, row: &[Declaration], everywhere: bool, name: &[u8]) -> bool
        requires { IsScene (map declaration_view row.now) self.now }
        ensures { result ≡ can_hold (map declaration_view row.now) (scene_sees everywhere self.now) name.now }
    {
        let holder = self
            .places
            .first(row, &self.sight, everywhere, Want::Holders, name);
        self.is_package(everywhere, name) || holder.is_some()
    }

    fn is_taken(&self, row: &[Declaration], everywhere: bool, name: &[u8]) -> bool
        requires { IsScene (map declaration_view row.now) self.now }
        ensures { result ≡ is_taken (map declaration_view row.now) (scene_sees everywhere self.now) name.now }
    {
        let declared = self
            .places
            .first(row, &self.sight, everywhere, Want::All, name);
        self.is_package(everywhere, name) || declared.is_some()
    }

    /// Whether a scope decides which declaration a name means.
    fn decides(
        &self,
        alloc: Global,
        row: &[Declaration],
        everywhere: bool,
        name: &[u8],
        scope: &[u8],
    ) -> Result<bool, AllocError>
        requires { IsScene (map declaration_view row.now) self.now }
        ensures { IfOk result (λ b. b ≡ decides (map declaration_view row.now) (scene_sees everywhere self.now) name.now scope.now) }
    {
        if has_dot(name) {
            let full_name = scoped(alloc, scope, first_part(name))?;
            return Ok(self.can_hold(row, everywhere, &full_name));
        }
        let full_name = scoped(alloc, scope, name)?;
        Ok(self.type_named(row, everywhere, &full_name).is_some())
    }

    /// The innermost scope that decides. Most names are found in the innermost one, which is asked before the words of the others.
    fn deciding_scope<'a>(
        &self,
        alloc: Global,
        row: &[Declaration],
        everywhere: bool,
        name: &[u8],
        scope: &'a [u8],
    ) -> Result<Option<&'a [u8]>, AllocError>
        requires { IsScene (map declaration_view row.now) self.now }
        ensures { IfOk result (λ o. option_map (λ s. s.now) o ≡ find (decides (map declaration_view row.now) (scene_sees everywhere self.now) name.now)
            (scopes_from scope.now)) }
    {
        if self.decides(alloc, row, everywhere, name, scope)? {
            return Ok(Some(scope));
        }
        self.deciding_scope_by_words(alloc, row, everywhere, name, scope)
    }

    /// The innermost scope that decides, of those in which the words allow the name.
    fn deciding_scope_by_words<'a>(
        &self,
        alloc: Global,
        row: &[Declaration],
        everywhere: bool,
        name: &[u8],
        scope: &'a [u8],
    ) -> Result<Option<&'a [u8]>, AllocError>
        requires { IsScene (map declaration_view row.now) self.now }
        ensures { IfOk result (λ o. option_map (λ s. s.now) o ≡ find (decides (map declaration_view row.now) (scene_sees everywhere self.now) name.now)
            (scopes_from scope.now)) }
    {
        let mut lens = self.words.scopes_with(alloc, scope, first_part(name))?;
        while let Some(len) = lens.pop() {
            let scope = beginning(scope, len);
            if self.decides(alloc, row, everywhere, name, scope)? {
                return Ok(Some(scope));
            }
        }
        Ok(None)
    }

    /// The full name in the scope that decides.
    fn name_in_scope(
        &self,
        alloc: Global,
        row: &[Declaration],
        everywhere: bool,
        scope: &[u8],
        name: &[u8],
    ) -> Result<Option<Vec<u8>>, AllocError>
        requires { IsScene (map declaration_view row.now) self.now }
        ensures { IfOk result (λ o. option_map (λ v. v.items) o
            ≡ option_map (λ s. in_scope s name.now) (find (decides (map declaration_view row.now) (scene_sees everywhere self.now) name.now)
            (scopes_from scope.now))) }
    {
        match self.deciding_scope(alloc, row, everywhere, name, scope)? {
            Some(scope) => Ok(Some(scoped(alloc, scope, name)?)),
            None => Ok(None),
        }
    }

    /// The full name of what a name means.
    fn decided_name(
        &self,
        alloc: Global,
        row: &[Declaration],
        everywhere: bool,
        scope: &[u8],
        name: &[u8],
    ) -> Result<Option<Vec<u8>>, AllocError>
        requires { IsScene (map declaration_view row.now) self.now }
        ensures { IfOk result (λ o. option_map (λ v. v.items) o
            ≡ decided_name (map declaration_view row.now) (scene_sees everywhere self.now) scope.now name.now) }
    {
        if !name.is_empty() && name[0] == b'.' {
            return Ok(Some(name[1..].to_vec(alloc)?));
        }
        let full_name = self.name_in_scope(alloc, row, everywhere, scope, name)?;
        Ok(full_name)
    }

    fn type_found(
        &self,
        alloc: Global,
        row: &[Declaration],
        everywhere: bool,
        scope: &[u8],
        name: &[u8],
    ) -> Result<Option<usize>, AllocError>
        requires { IsScene (map declaration_view row.now) self.now }
        ensures { IfOk result (λ o. o ≡ type_found (map declaration_view row.now) (scene_sees everywhere self.now) scope.now name.now) }
    {
        match self.decided_name(alloc, row, everywhere, scope, name)? {
            Some(full_name) => Ok(self.type_named(row, everywhere, &full_name)),
            None => Ok(None),
        }
    }

    /// Whether the full name that a name means is taken by a declaration or a package.
    fn is_decided_taken(
        &self,
        alloc: Global,
        row: &[Declaration],
        scope: &[u8],
        name: &[u8],
    ) -> Result<bool, AllocError>
        requires { IsScene (map declaration_view row.now) self.now }
        ensures { IfOk result (λ b. b ≡ is_taken_if (map declaration_view row.now) (scene_sees false self.now)
            (decided_name (map declaration_view row.now) (scene_sees false self.now) scope.now name.now)) }
    {
        match self.decided_name(alloc, row, false, scope, name)? {
            Some(full_name) => Ok(self.is_taken(row, false, &full_name)),
            None => Ok(false),
        }
    }

    fn is_taken_in(
        &self,
        alloc: Global,
        row: &[Declaration],
        scope: &[u8],
        name: &[u8],
    ) -> Result<bool, AllocError>
        requires { IsScene (map declaration_view row.now) self.now }
        ensures { IfOk result (λ b. b ≡ is_taken (map declaration_view row.now) (scene_sees false self.now) (in_scope scope.now name.now)) }
    {
        let full_name = scoped(alloc, scope, name)?;
        Ok(self.is_taken(row, false, &full_name))
    }

    /// Whether a name is taken in a scope or in one around it.
    fn is_taken_around(
        &self,
        alloc: Global,
        row: &[Declaration],
        scope: &[u8],
        name: &[u8],
    ) -> Result<bool, AllocError>
        requires { IsScene (map declaration_view row.now) self.now }
        ensures { IfOk result (λ b. b ≡ list_any (λ s. is_taken (map declaration_view row.now) (scene_sees false self.now) (in_scope s name.now))
            (scopes_from scope.now)) }
    {
        let mut lens = self.words.scopes_with(alloc, scope, first_part(name))?;
        while let Some(len) = lens.pop() {
            let scope = beginning(scope, len);
            if self.is_taken_in(alloc, row, scope, name)? {
                return Ok(true);
            }
        }
        Ok(false)
    }

    fn is_no_type(
        &self,
        alloc: Global,
        row: &[Declaration],
        scope: &[u8],
        name: &[u8],
    ) -> Result<bool, AllocError>
        requires { IsScene (map declaration_view row.now) self.now }
        ensures { IfOk result (λ b. b ≡ is_no_type (map declaration_view row.now) (scene_sees false self.now) scope.now name.now) }
    {
        if self.is_decided_taken(alloc, row, scope, name)? {
            return Ok(true);
        }
        if has_dot(name) {
            return Ok(false);
        }
        let is_around = self.is_taken_around(alloc, row, scope, name)?;
        Ok(is_around)
    }

    /// What a type name comes to in a scope of the file that was looked at.
    pub fn look_up(
        &self,
        alloc: Global,
        row: &[Declaration],
        scope: &[u8],
        name: &[u8],
    ) -> Result<Found, AllocError>
        requires { IsScene (map declaration_view row.now) self.now }
        ensures { IfOk result (λ f. found_view f ≡ looked_up (map declaration_view row.now) (sees_by self.now.sight) scope.now name.now) }
    {
        if let Some(place) = self.type_found(alloc, row, false, scope, name)? {
            return Ok(Found::Type(place));
        }
        let elsewhere = self.type_found(alloc, row, true, scope, name)?;
        if elsewhere.is_some() {
            return Ok(Found::NotVisible);
        }
        if self.is_no_type(alloc, row, scope, name)? {
            return Ok(Found::NotAType);
        }
        Ok(Found::NotFound)
    }
}
