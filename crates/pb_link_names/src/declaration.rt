//! A declaration among all.

ghost use Rattle.std.specs.Prelude.{◌≡◌, take, string_bytes};
ghost use Rattle.pb_schema.specs.Names.{in_scope};
ghost use Rattle.pb_link_names.specs.Declarations.{simple_name};
ghost use Rattle.pb_link_names.specs.ItemView.{item_view};
ghost use Rattle.pb_link_names.specs.Marks.{marks_of};

use crate::item::Item;
use crate::marks::Marks;

/// A declaration. Its place is its index in the row.
#[derive(Drop)]
pub struct Declaration<'a> {
    /// The index of its file.
    pub file: usize,
    /// The place of the declaration around it; of a file, its own.
    pub parent: usize,
    /// The full name; of a file, the empty one.
    pub full_name: String,
    /// The length of the scope, with which the full name begins.
    pub scope_len: usize,
    pub item: Item<'a>,
    pub marks: Marks,
    ghost scoped: { string_bytes full_name ≡ in_scope (take scope_len (string_bytes full_name)) (simple_name (item_view item)) },
    ghost marked: { marks ≡ marks_of (item_view item) },
}
