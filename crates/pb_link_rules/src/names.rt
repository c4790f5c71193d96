//! What files, names and type names come to.

ghost use Rattle.std.specs.Prelude.{◌≡◌, false};
ghost use Rattle.std.specs.List.{slice_index_or};
ghost use Rattle.pb_link_names.specs.declared.found.TypeNames.TheVariants as type_names;
ghost use Rattle.pb_link_rules.specs.Tables.{is_elsewhere, at_place};

use pb_link_names::found::TypeNames;

/// The results of the rules of files, names and type names, by place. A rule that does not apply to the declaration there holds.
#[derive(Drop)]
pub struct Names {
    /// Whether no earlier file has the file's name.
    pub file_is_first: Vec<bool>,
    /// Whether the file's imports are there.
    pub imports_are_there: Vec<bool>,
    /// The place of the first file that reaches itself by imports.
    pub first_cycle: Option<usize>,
    /// Whether neither an earlier declaration nor a package has the full name.
    pub is_free: Vec<bool>,
    /// What the type names come to.
    pub found: Vec<TypeNames>,
}

/// The entries of the tables at one place.
#[derive(Clone, Copy, PartialEq, Eq, Debug)]
pub(crate) struct At {
    pub(crate) file_is_first: bool,
    pub(crate) imports_are_there: bool,
    /// Known only up to the first file that reaches itself by imports.
    pub(crate) reaches_no_cycle: bool,
    pub(crate) is_free: bool,
    /// Whether the rules of map fields and their entries hold.
    pub(crate) is_map_right: bool,
    pub(crate) found: TypeNames,
}

fn mark_at(marks: &[bool], place: usize) -> bool
    ensures { result ≡ slice_index_or marks.now place false }
{
    match marks.get(place) {
        Some(mark) => *mark,
        None => false,
    }
}

fn is_elsewhere(first: Option<usize>, place: usize) -> bool
    ensures { result ≡ is_elsewhere first place }
{
    match first {
        Some(first) => first != place,
        None => true,
    }
}

fn names_at(found: &[TypeNames], place: usize) -> TypeNames
    ensures { result ≡ slice_index_or found.now place type_names.None }
{
    match found.get(place) {
        Some(names) => *names,
        None => TypeNames::None,
    }
}

/// What the tables hold at a place.
pub(crate) fn at_place(names: &Names, map_marks: &[bool], place: usize) -> At
    ensures { result ≡ at_place names.now map_marks.now place }
{
    At {
        file_is_first: mark_at(&names.file_is_first, place),
        imports_are_there: mark_at(&names.imports_are_there, place),
        reaches_no_cycle: is_elsewhere(names.first_cycle, place),
        is_free: mark_at(&names.is_free, place),
        is_map_right: mark_at(map_marks, place),
        found: names_at(&names.found, place),
    }
}
